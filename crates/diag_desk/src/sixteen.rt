//! Sixteen bytes of a text, looked at together: upper-case hex of eight bytes.
ghost use Rattle.std.specs.Prelude.{◌≡◌, ◌*◌, length, take, IsTrue};
ghost use Rattle.hex.specs.Hex.{encode_upper};

use diag_can::{FrameBytes, digits_of_eight, eight_of_digits, first_set};
use std::simd::prelude::*;

/// The bytes whose upper-case hex stands at the front, as many as there are. What the text seems to say is written as
/// digits again, and as much of it counts as is the same.
#[inline(always)]
pub(crate) fn upper_front(text: &[u8; 16]) -> FrameBytes
    ensures { encode_upper result ≡ take (2 * length result) text.now }
{
    let bytes = eight_of_digits(text);
    let differs = u8x16::from_array(digits_of_eight(&bytes)).simd_ne(u8x16::from_array(*text));
    let run = first_set(differs.to_bitmask(), 16);
    FrameBytes::full(bytes).part(0, run / 2)
}

/// Whether the text is the upper-case hex of eight bytes.
#[inline(always)]
pub(crate) fn is_upper_of(text: &[u8; 16], bytes: &[u8; 8]) -> bool
    ensures { IsTrue result → encode_upper bytes.now ≡ text.now }
{
    let differs = u8x16::from_array(digits_of_eight(bytes)).simd_ne(u8x16::from_array(*text));
    first_set(differs.to_bitmask(), 16) == 16
}
