//! The data bytes of a frame of either kind.

ghost use Rattle.std.specs.Prelude.{◌≡◌, ◌≤◌, ◌<◌, ◌++◌, ◌+◌, ◌-◌, [], ◌∷◌, length, replicate};

use std::marker::Model;

/// The data bytes of a frame, at most 64: of a CAN FD frame, or of a classic one. Nearly all frames are classic, for which
/// `FrameBytes` is enough.
#[derive(Debug, Drop)]
pub struct FdBytes {
    bytes: [u8; 64],
    len: usize,
}

impl Model for FdBytes {
    ghost use Rattle.std.specs.Prelude.{ℕ, List, take, ◌≤◌};

    ghost Value = { List ℕ };

    ghost view = { λ a. take a.len a.bytes };

    ghost invariant = { λ a. a.len ≤ 64 };
}

impl FdBytes {
    /// A frame without bytes.
    pub fn new() -> FdBytes
        ensures { result ≡ [] }
    {
        FdBytes {
            bytes: [0; 64],
            len: 0,
        }
    }

    /// These bytes.
    pub fn from_slice(bytes: &[u8]) -> FdBytes
        requires { length bytes.now ≤ 64 }
        ensures { result ≡ bytes.now }
    {
        let mut all = FdBytes::new();
        all.append(bytes);
        all
    }

    /// Takes all bytes out.
    #[inline]
    pub fn clear(&mut self)
        ensures { self.new ≡ [] }
    {
        self.len = 0;
    }

    /// Adds one byte at the end.
    pub fn push(&mut self, byte: u8)
        requires { length self.old < 64 }
        ensures { self.new ≡ self.old ++ byte ∷ [] }
    {
        self.bytes[self.len] = byte;
        self.len += 1;
    }

    /// Adds these bytes at the end.
    pub fn append(&mut self, bytes: &[u8])
        requires { length self.old + length bytes.now ≤ 64 }
        ensures { self.new ≡ self.old ++ bytes.now }
    {
        let end = self.len + bytes.len();
        self.bytes[self.len..end].copy_from_slice(bytes);
        self.len = end;
    }

    /// Fills the frame to so many bytes.
    pub fn fill_to(&mut self, count: usize, byte: u8)
        requires most { count ≤ 64 }
        requires more { length self.old ≤ count }
        ensures { self.new ≡ self.old ++ replicate (count - length self.old) byte }
    {
        self.bytes[self.len..count].fill(byte);
        self.len = count;
    }

    /// The bytes as a slice.
    #[inline]
    pub fn as_slice(&self) -> &[u8]
        ensures bytes { result.now ≡ self.now }
        ensures fits { length result.now ≤ 64 }
    {
        &self.bytes[..self.len]
    }

    /// How many bytes there are.
    #[inline]
    pub fn len(&self) -> usize
        ensures count { result ≡ length self.now }
        ensures fits { result ≤ 64 }
    {
        self.len
    }
}
