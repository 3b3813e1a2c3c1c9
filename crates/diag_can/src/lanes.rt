//! Looks at many bytes of a text at once.

ghost use Rattle.std.specs.Prelude.{◌≡◌, ℕ, ◌+◌, ◌-◌, ◌*◌, ◌≤◌, not, length, drop, IsTrue, IsOk, Ok};
ghost use Rattle.hex.specs.Hex.{is_hex_digit, decode_of};
ghost use Rattle.diag_can.specs.Lanes.{AreBounds, IsRunIn, IsWithin, first_set};
ghost use Rattle.diag_can.specs.Log.{is_feed};
ghost use Rattle.diag_can.specs.Stamp.{is_mark};

use std::simd::prelude::*;

/// The place of the lowest bit that is set, or how many lanes there are.
#[inline(always)]
pub fn first_set(mask: u64, lanes: usize) -> usize
    ensures { result ≡ first_set mask lanes }
{
    if mask == 0 {
        lanes
    } else {
        mask.trailing_zeros() as usize
    }
}

/// Whether each of sixteen bytes is between two.
#[inline(always)]
pub fn is_within(text: &[u8], at: usize, least: &[u8; 16], most: &[u8; 16]) -> bool
    requires room { at + 16 ≤ length text.now }
    requires bounds { AreBounds least.now most.now }
    ensures { IsTrue result → IsWithin text.now at least.now most.now }
{
    let least = u8x16::from_array(*least);
    let beyond = u8x16::from_slice(&text[at..]) - least;
    let range = u8x16::from_array(*most) - least;
    range.simd_lt(beyond).to_bitmask() == 0
}

/// How many of these eight bytes are above space, from the first.
#[inline(always)]
pub fn eight_of_word(text: &[u8], at: usize) -> usize
    requires { at + 8 ≤ length text.now }
    ensures { IsRunIn is_mark text.now at 8 result }
{
    let stops = u8x8::from_slice(&text[at..]).simd_le(u8x8::splat(b' '));
    first_set(stops.to_bitmask(), 8)
}

/// How many of the first 64 bytes are other than LF, from the first.
#[inline(always)]
pub fn line_run(text: &[u8]) -> usize
    requires { 64 ≤ length text.now }
    ensures { IsRunIn (λ c. not (is_feed c)) text.now 0 64 result }
{
    let stops = u8x64::from_slice(text).simd_eq(u8x64::splat(b'\n'));
    first_set(stops.to_bitmask(), 64)
}

/// How many of the sixteen bytes from a place on are hex digits of either case, from the first.
#[inline(always)]
pub fn hex_of_sixteen(text: &[u8], at: usize) -> usize
    requires { at + 16 ≤ length text.now }
    ensures { IsRunIn is_hex_digit text.now at 16 result }
{
    let v = u8x16::from_slice(&text[at..]);
    let is_no_decimal = (v - u8x16::splat(b'0')).simd_ge(u8x16::splat(10));
    let is_no_letter = ((v | u8x16::splat(0x20)) - u8x16::splat(b'a')).simd_ge(u8x16::splat(6));
    first_set((is_no_decimal & is_no_letter).to_bitmask(), 16)
}

/// The bytes that sixteen hex digits of either case write, looked at together; as far as these are digits from the end. Of
/// other bytes it makes some bytes.
#[inline(always)]
pub fn eight_of_digits(text: &[u8; 16]) -> [u8; 8]
    ensures { (n : ℕ) → n ≤ 8 → IsOk (decode_of (drop (16 - 2 * n) text.now))
        → decode_of (drop (16 - 2 * n) text.now) ≡ Ok (drop (8 - n) result) }
{
    let digits = u8x16::from_array(*text);
    let letters = digits
        .simd_ge(u8x16::splat(64))
        .select(u8x16::splat(9), u8x16::splat(0));
    let values = digits % u8x16::splat(16) + letters;
    let high = values.swizzle([0, 2, 4, 6, 8, 10, 12, 14]);
    let low = values.swizzle([1, 3, 5, 7, 9, 11, 13, 15]);
    (high * u8x8::splat(16) + low).to_array()
}
