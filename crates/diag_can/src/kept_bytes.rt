//! The data bytes of a frame of either kind, kept.

ghost use Rattle.std.specs.Prelude.{◌≡◌, ◌≤◌, ◌↔◌, length, IfOk, IsOk, IsTrue};

use crate::fd_bytes::FdBytes;
use crate::frame::FrameBytes;
use std::alloc::{AllocError, Global};
use std::marker::Model;

/// The data bytes of a frame of either kind, kept: those of a long frame have memory of their own.
#[derive(Debug, Drop)]
pub struct KeptBytes {
    bytes: Bytes,
}

#[derive(Debug, Drop)]
enum Bytes {
    Short(FrameBytes),
    Long(Box<FdBytes>),
}

const _: () = prove!(size_of::<KeptBytes>() <= 16);

impl Model for KeptBytes {
    ghost use Rattle.std.specs.Prelude.{ℕ, List, length, ◌≤◌};
    ghost use Rattle.diag_can.specs.KeptBytes.{kept_in};

    ghost Value = { List ℕ };

    ghost view = { λ a. kept_in a.bytes };

    ghost invariant = { λ a. length (kept_in a.bytes) ≤ 64 };
}

impl KeptBytes {
    /// The bytes of a classic frame.
    #[inline(always)]
    pub fn short(bytes: FrameBytes) -> KeptBytes
        ensures { result ≡ bytes }
    {
        KeptBytes {
            bytes: Bytes::Short(bytes),
        }
    }

    /// These bytes, at most 64; up to 8 take no memory. (Most frames have eight.)
    ///
    /// # Errors
    /// `AllocError` where memory is refused.
    #[inline(always)]
    pub fn of(alloc: Global, bytes: &[u8]) -> Result<KeptBytes, AllocError>
        requires { length bytes.now ≤ 64 }
        ensures value { IfOk result (λ kept. kept ≡ bytes.now) }
        ensures short { length bytes.now ≤ 8 → IsOk result }
    {
        match bytes.as_array::<8>() {
            Some(eight) => Ok(KeptBytes::short(FrameBytes::full(*eight))),
            None => KeptBytes::of_other(alloc, bytes),
        }
    }

    /// The same, however many these are.
    #[inline(never)]
    fn of_other(alloc: Global, bytes: &[u8]) -> Result<KeptBytes, AllocError>
        requires { length bytes.now ≤ 64 }
        ensures value { IfOk result (λ kept. kept ≡ bytes.now) }
        ensures short { length bytes.now ≤ 8 → IsOk result }
    {
        if bytes.len() <= 8 {
            return Ok(KeptBytes::short(FrameBytes::from_slice(bytes)));
        }
        match Box::new(alloc, FdBytes::from_slice(bytes)) {
            Ok(long) => Ok(KeptBytes {
                bytes: Bytes::Long(long),
            }),
            Err(_) => Err(AllocError),
        }
    }

    /// The same bytes again.
    ///
    /// # Errors
    /// `AllocError` where memory is refused.
    pub fn try_copy(&self) -> Result<KeptBytes, AllocError>
        ensures value { IfOk result (λ kept. kept ≡ self.now) }
        ensures short { length self.now ≤ 8 → IsOk result }
    {
        match &self.bytes {
            Bytes::Short(bytes) => Ok(KeptBytes::short(bytes.copy())),
            Bytes::Long(bytes) => KeptBytes::of_other(*Box::allocator(bytes), bytes.as_slice()),
        }
    }

    /// The bytes as a slice.
    #[inline(always)]
    pub fn as_slice(&self) -> &[u8]
        ensures bytes { result.now ≡ self.now }
        ensures fits { length result.now ≤ 64 }
    {
        match &self.bytes {
            Bytes::Short(bytes) => bytes.as_slice(),
            Bytes::Long(bytes) => bytes.as_slice(),
        }
    }

    /// Whether these are the bytes.
    pub fn is(&self, bytes: &[u8]) -> bool
        ensures { IsTrue result ↔ (self.now ≡ bytes.now) }
    {
        self.as_slice() == bytes
    }

    /// Whether these are the bytes and are eight, as most frames have.
    #[inline(always)]
    pub fn is_full(&self, bytes: &[u8]) -> bool
        ensures { IsTrue result ↔ ((self.now ≡ bytes.now) × (length bytes.now ≡ 8)) }
    {
        are_eight(self.as_slice(), bytes)
    }
}

/// Whether both are the same eight bytes, which are compared as a word.
#[inline(always)]
fn are_eight(a: &[u8], b: &[u8]) -> bool
    ensures { IsTrue result ↔ ((a.now ≡ b.now) × (length b.now ≡ 8)) }
{
    match (a.as_array::<8>(), b.as_array::<8>()) {
        (Some(a), Some(b)) => u64::from_le_bytes(*a) == u64::from_le_bytes(*b),
        _ => false,
    }
}
