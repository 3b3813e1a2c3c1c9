//! The text of a data frame.

ghost use Rattle.std.specs.Prelude.{◌≡◌, ◌<◌, ◌≤◌, length, nat_lt, IsOk, Ok};
ghost use Rattle.std.specs.Int.{to_le_bytes, w64};
ghost use Rattle.hex.specs.Hex.{decode_of};
ghost use Rattle.diag_can.specs.FrameText.{EndsInBytes, IsLastEight, last_bytes};

use crate::fd_bytes::FdBytes;
use crate::frame::{CanId, FrameBytes};
use crate::lanes::eight_of_digits;
use std::marker::Model;
use std::simd::prelude::*;

/// A data frame as its text stands in a line: its identifier is read, its bytes are decoded where they are wanted.
#[derive(Drop)]
pub struct FrameText<'a> {
    id: CanId,
    /// The digits of its bytes, and whatever stands in front of them in the line.
    text: &'a [u8],
    /// How many bytes these write.
    count: usize,
}

impl<'a> Model for FrameText<'a> {
    ghost use Rattle.diag_can.specs.FrameText.{EndsInBytes, last_bytes};
    ghost use Rattle.diag_can.specs.declared.frame.Frame.{Frame};

    ghost Value = { Frame };

    ghost view = { λ f. record { id = f.id; bytes = last_bytes f.text.now f.count } };

    ghost invariant = { λ f. EndsInBytes f.text.now f.count };
}

impl<'a> FrameText<'a> {
    /// The frame with this identifier, and with so many bytes, whose digits end the text.
    #[inline(always)]
    pub(crate) fn new(id: CanId, text: &'a [u8], count: usize) -> FrameText<'a>
        requires { EndsInBytes text.now count }
        ensures { result ≡ record { id = id; bytes = last_bytes text.now count } }
    {
        FrameText { id, text, count }
    }

    /// Its identifier.
    #[inline(always)]
    pub fn id(&self) -> CanId
        ensures { result ≡ self.now.id }
    {
        self.id
    }

    /// How many bytes its data has, up to 64.
    #[inline(always)]
    pub fn len(&self) -> usize
        ensures count { result ≡ length self.now.bytes }
        ensures fits { result ≤ 64 }
    {
        self.count
    }

    /// Whether its data has more than 8 bytes, as that of a frame of CAN FD may.
    #[inline(always)]
    pub fn is_long(&self) -> bool
        ensures { result ≡ nat_lt 8 (length self.now.bytes) }
    {
        self.count > 8
    }

    /// Its data, where these are up to 8 bytes.
    #[inline(always)]
    pub fn bytes(&self) -> FrameBytes
        requires { length self.now.bytes ≤ 8 }
        ensures { result ≡ self.now.bytes }
    {
        FrameBytes::last_of(last_eight(self.text), self.count)
    }

    /// Its data, however many bytes these are.
    #[inline(always)]
    pub fn long_bytes(&self) -> FdBytes
        ensures { result ≡ self.now.bytes }
    {
        let mut bytes = FdBytes::new();
        bytes.set_digits(self.digits());
        bytes
    }

    /// The digits of its data, which a call may be lent in place of the frame: what a call borrows lies in memory.
    #[inline(always)]
    pub fn digits(&self) -> &'a [u8]
        ensures is { decode_of result.now ≡ Ok self.now.bytes }
        ensures few { length result.now ≤ 128 }
    {
        &self.text[self.text.len() - 2 * self.count..]
    }
}

/// Decodes the last sixteen characters of a text at once; only the digits at its end count. It returns a word, the first byte
/// lowest, since an array would go through memory.
#[inline(always)]
fn last_eight(text: &[u8]) -> u64
    ensures { IsLastEight text.now (to_le_bytes w64 result) }
{
    if text.len() < 16 {
        return eight_of_few(text);
    }
    u64::from_le_bytes(eight_of_digits(&u8x16::from_slice(&text[text.len() - 16..]).to_array()))
}

/// The same of a text with fewer bytes, in front of which zeros are put.
#[cold]
#[inline(never)]
fn eight_of_few(text: &[u8]) -> u64
    requires { length text.now < 16 }
    ensures { IsLastEight text.now (to_le_bytes w64 result) }
{
    let mut digits = [b'0'; 16];
    digits[16 - text.len()..].copy_from_slice(text);
    u64::from_le_bytes(eight_of_digits(&digits))
}

impl FdBytes {
    /// Becomes the bytes that hex digits write, up to 64: those of sixteen digits are looked at together, and so are those of the
    /// digits that are left. (Made where it stays: moved by sixteen bytes right after it is written by eight, it would stall.)
    #[cold]
    #[inline(never)]
    pub fn set_digits(&mut self, digits: &[u8])
        requires hex { IsOk (decode_of digits.now) }
        requires few { length digits.now ≤ 128 }
        ensures { decode_of digits.now ≡ Ok self.new }
    {
        self.clear();
        let mut rest = digits;
        while let Some((sixteen, tail)) = rest.split_first_chunk::<16>() {
            self.append(&eight_of_digits(sixteen));
            rest = tail;
        }
        if rest.is_empty() {
            return;
        }
        let last = FrameBytes::last_of(last_eight(rest), rest.len() / 2);
        self.append(last.as_slice());
    }
}
