//! The data bytes of a frame, lent.

ghost use Rattle.std.specs.Prelude.{◌≡◌, ◌≤◌, ◌<◌, ◌+◌, length, take, drop};

use crate::frame::FrameBytes;
use std::marker::Model;

/// The data bytes of a frame, at most 64, lent: as a slice, and with the places of the first eight, so that some of these can be
/// moved together.
#[derive(Drop)]
pub struct LentBytes<'a> {
    bytes: &'a [u8],
    front: &'a [u8; 8],
}

impl<'a> Model for LentBytes<'a> {
    ghost use Rattle.std.specs.Prelude.{ℕ, List, ◌≡◌, ◌≤◌, length, take};

    ghost Value = { List ℕ };

    ghost view = { λ a. a.bytes.now };

    ghost invariant = { λ a. (length a.bytes.now ≤ 64)
        × (take 8 a.bytes.now ≡ take (length a.bytes.now) a.front.now) };
}

impl<'a> LentBytes<'a> {
    /// Those of a classic frame.
    #[inline(always)]
    pub fn short(frame: &'a FrameBytes) -> LentBytes<'a>
        ensures { result ≡ frame.now }
    {
        LentBytes {
            bytes: frame.as_slice(),
            front: frame.places(),
        }
    }

    /// Those of a frame of 8 bytes or more.
    #[inline(always)]
    pub fn long(bytes: &'a [u8]) -> LentBytes<'a>
        requires some { 8 ≤ length bytes.now }
        requires fits { length bytes.now ≤ 64 }
        ensures { result ≡ bytes.now }
    {
        let Some(front) = bytes[..8].as_array::<8>() else {
            unreachable!()
        };
        LentBytes { bytes, front }
    }

    /// The same bytes.
    #[inline(always)]
    pub fn copy(&self) -> LentBytes<'a>
        ensures { result ≡ self.now }
    {
        LentBytes {
            bytes: self.bytes,
            front: self.front,
        }
    }

    /// The bytes as a slice.
    #[inline(always)]
    pub fn as_slice(&self) -> &'a [u8]
        ensures bytes { result.now ≡ self.now }
        ensures fits { length result.now ≤ 64 }
    {
        self.bytes
    }

    /// So many bytes from a place on, all among the first eight.
    #[inline(always)]
    pub fn part(&self, from: usize, count: usize) -> FrameBytes
        requires inside { from + count ≤ length self.now }
        requires front { from + count ≤ 8 }
        requires before { from < 8 }
        ensures { result ≡ take count (drop from self.now) }
    {
        FrameBytes::full(*self.front).part(from, count)
    }
}
