//! What a file is read from, and what a contract sees of its reads.

use std::io;
use std::io::Read;

/// What a file is read from: a reader, of which a contract also sees whether a read of it failed. A function over any
/// source can show that one did only by having read it.
pub trait Source {
    ghost use Rattle.std.specs.Prelude.{ℕ, List, Option, OnErr, OnOk};
    ghost use Rattle.std.specs.Io.{ReadsAtMost};
    ghost use Rattle.std.specs.Io.KnownBytes.{ReadConsumes};

    /// The bytes that reads will give from here on, where they are known.
    ghost remaining: { Self → Option (List ℕ) };

    /// No read of it failed.
    ghost sound: { Self → Type 0 };

    /// A read of it failed.
    ghost failed: { Self → Type 0 };

    /// Reads some bytes to the front of a buffer, none of them only at the end, and answers how many.
    ///
    /// # Errors
    /// The read failed.
    fn read_some(&mut self, buffer: &mut [u8]) -> io::Result<usize>
        ensures bound { ReadsAtMost result buffer.new }
        ensures bytes { ReadConsumes (remaining self.old) (remaining self.new) result buffer.new }
        ensures sound { OnOk result (sound self.old → sound self.new) }
        ensures failed { OnErr result (failed self.new) };
}

/// Of a reader at hand no more is known than what its reads answer.
impl<R: Read> Source for R {
    ghost remaining = { λ reader. R.remaining reader };

    ghost sound = { λ _. Unit {0} };

    ghost failed = { λ _. Unit {0} };

    fn read_some(&mut self, buffer: &mut [u8]) -> io::Result<usize> {
        self.read(buffer)
    }
}
