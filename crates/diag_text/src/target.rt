//! What a text is written to, and what a contract sees of its writes.

use std::io;
use std::io::Write;

/// What a text is written to: a writer, of which a contract also sees whether a write or a flush of it failed, and whether
/// it was flushed. A function over any target can show either only by having written or flushed.
pub trait Target {
    ghost use Rattle.std.specs.Prelude.{◌≡◌, ◌<◌, ℕ, List, Option, length, IfOk, OnErr, OnOk};
    ghost use Rattle.std.specs.Io.{WritesAtMost};
    ghost use Rattle.std.specs.Io.KnownBytes.{Keeps, WriteAppends};

    /// The bytes that it holds, where they are known.
    ghost contents: { Self → Option (List ℕ) };

    /// No write and no flush of it failed.
    ghost sound: { Self → Type 0 };

    /// A write or a flush of it failed, or it took no byte of some.
    ghost failed: { Self → Type 0 };

    /// All that was written was flushed.
    ghost flushed: { Self → Type 0 };

    /// Writes a front of a text, and answers how many bytes.
    ///
    /// # Errors
    /// The write failed.
    fn write_some(&mut self, text: &[u8]) -> io::Result<usize>
        ensures bound { WritesAtMost result text.now }
        ensures bytes { WriteAppends (contents self.old) (contents self.new) result text.now }
        ensures none { IfOk result (λ n. n ≡ 0 → 0 < length text.now → failed self.new) }
        ensures sound { OnOk result (sound self.old → sound self.new) }
        ensures failed { OnErr result (failed self.new) };

    /// Flushes what was written.
    ///
    /// # Errors
    /// The flush failed.
    fn flush_all(&mut self) -> io::Result<()>
        ensures bytes { Keeps (contents self.old) (contents self.new) }
        ensures flushed { OnOk result (flushed self.new) }
        ensures sound { OnOk result (sound self.old → sound self.new) }
        ensures failed { OnErr result (failed self.new) };
}

/// Of a writer at hand no more is known than what its writes answer.
impl<W: Write> Target for W {
    ghost contents = { λ writer. W.contents writer };

    ghost sound = { λ _. Unit {0} };

    ghost failed = { λ _. Unit {0} };

    ghost flushed = { λ _. Unit {0} };

    fn write_some(&mut self, text: &[u8]) -> io::Result<usize> {
        self.write(text)
    }

    fn flush_all(&mut self) -> io::Result<()> {
        self.flush()
    }
}
