//! A buffer of fixed size: the bytes that are held, and room behind them.

ghost use Rattle.std.specs.Prelude.{◌≡◌, ◌==◌, ◌+◌, ◌-◌, ◌<◌, ◌≤◌, [], ◌++◌, List, ℕ, length, drop, take, vec_len, min, IfOk, OnErr};
ghost use Rattle.std.specs.Io.KnownBytes.{Keeps, Consumes, IsAtEnd};

use std::alloc::{AllocError, Global};
use std::io;
use std::io::Read;

/// Bytes from one place of a buffer to another.
#[derive(Drop)]
pub struct Window {
    bytes: Vec<u8>,
    start: usize,
    end: usize,
    ghost ordered: { start ≤ end },
    ghost within: { end ≤ vec_len bytes },
}

impl Window {
    ghost use Rattle.diag_interface.specs.Window.{items, room, size};

    /// An empty one of this size.
    pub fn new(alloc: Global, bytes: usize) -> Result<Window, AllocError>
        ensures items { IfOk result (λ window. items window ≡ []) }
        ensures size { IfOk result (λ window. size window ≡ bytes) }
    {
        let bytes = vec![in alloc; 0u8; bytes]?;
        Ok(Window {
            bytes,
            start: 0,
            end: 0,
        })
    }

    pub fn as_slice(&self) -> &[u8]
        ensures value { result.now ≡ items self.now }
    {
        &self.bytes.as_slice()[self.start..self.end]
    }

    pub fn is_empty(&self) -> bool
        ensures { result ≡ (length (items self.now) == 0) }
    {
        self.start == self.end
    }

    /// How many bytes may be added.
    pub fn room(&self) -> usize
        ensures { result ≡ room self.now }
    {
        self.bytes.len() - self.end
    }

    /// Drops the first of its bytes.
    pub fn consume(&mut self, count: usize)
        requires { count ≤ length (items self.old) }
        ensures items { items self.new ≡ drop count (items self.old) }
        ensures room { room self.new ≡ room self.old }
        ensures size { size self.new ≡ size self.old }
    {
        self.start += count;
    }

    /// Moves its bytes to the front, so that there is room behind them.
    pub fn move_to_front(&mut self)
        ensures items { items self.new ≡ items self.old }
        ensures room { room self.new + length (items self.new) ≡ size self.old }
        ensures size { size self.new ≡ size self.old }
    {
        let (start, end) = (self.start, self.end);
        self.bytes.as_mut_slice().copy_within(start..end, 0);
        self.start = 0;
        self.end = end - start;
    }

    /// Adds bytes behind those that it has.
    pub fn add(&mut self, bytes: &[u8])
        requires { length bytes.now ≤ room self.old }
        ensures items { items self.new ≡ items self.old ++ bytes.now }
        ensures room { room self.new + length bytes.now ≡ room self.old }
        ensures size { size self.new ≡ size self.old }
    {
        let (start, end) = (self.end, self.end + bytes.len());
        self.bytes.as_mut_slice()[start..end].copy_from_slice(bytes);
        self.end = end;
    }

    /// Reads once, and adds what was read.
    pub fn read_from<R: Read>(&mut self, reader: &mut R) -> io::Result<usize>
        ensures ok { IfOk result (λ n. (more : List ℕ) × (length more ≡ n) × (items self.new ≡ items self.old ++ more)
            × Consumes (R.remaining reader.old) (R.remaining reader.new) more) }
        ensures end { IfOk result (λ n. n ≡ 0 → 0 < room self.old → IsAtEnd (R.remaining reader.new)) }
        ensures err { OnErr result ((items self.new ≡ items self.old)
            × Keeps (R.remaining reader.old) (R.remaining reader.new)) }
        ensures size { size self.new ≡ size self.old }
    {
        let end = self.end;
        let count = reader.read(&mut self.bytes.as_mut_slice()[end..])?;
        self.end = end + count;
        Ok(count)
    }

    /// Gives its first bytes, as many as there is room for.
    pub fn give(&mut self, buf: &mut [u8]) -> usize
        ensures count { result ≡ min (length buf.new) (length (items self.old)) }
        ensures bytes { items self.old ≡ take result buf.new ++ items self.new }
        ensures size { size self.new ≡ size self.old }
    {
        let ready = self.as_slice();
        let count = buf.len().min(ready.len());
        buf[..count].copy_from_slice(&ready[..count]);
        self.consume(count);
        count
    }
}
