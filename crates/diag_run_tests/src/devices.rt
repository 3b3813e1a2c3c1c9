//! Readers and writers that fail, and how a run tells of them.

use crate::ending::End;
use std::alloc::{AllocError, Global};
use std::io;
use std::io::{Error, ErrorKind, Read, Write};

/// The end of a run that can't read the file of this place: 0 for the config, 1 for what comes first behind it.
pub fn cannot_read(file: usize) -> End<'static> {
    let line = match file {
        0 => b"uds_play: cannot read file 0\n",
        1 => b"uds_play: cannot read file 1\n",
        _ => b"uds_play: cannot read file 2\n",
    };
    End { line, status: 7 }
}

/// The end of a run whose output takes no more.
pub const CANNOT_WRITE: End<'static> = End {
    line: b"uds_play: cannot write\n",
    status: 7,
};

/// A reader whose call at `fails_at`, from 1, fails; none where that is 0.
#[derive(Clone, Copy)]
pub struct Source<'a> {
    /// What is still to be read.
    pub left: &'a [u8],
    /// How many bytes a read brings at most.
    pub at_once: usize,
    /// How often it was called.
    pub calls: usize,
    /// The call that fails.
    pub fails_at: usize,
}

impl Read for Source<'_> {
    fn read(&mut self, buf: &mut [u8]) -> io::Result<usize> {
        self.calls = self.calls.saturating_add(1);
        if self.calls == self.fails_at {
            return Err(Error::from(ErrorKind::Other));
        }
        let count = buf.len().min(self.at_once).min(self.left.len());
        let (now, later) = self.left.split_at(count);
        buf[..count].copy_from_slice(now);
        self.left = later;
        Ok(count)
    }
}

/// What a write does for which there is no room.
#[derive(Clone, Copy, PartialEq, Eq)]
pub enum Full {
    /// It fails.
    Fails,
    /// It takes no byte.
    TakesNone,
}

/// A writer that takes so many bytes.
#[derive(Drop)]
pub struct Pipe {
    /// What it took.
    pub taken: Vec<u8>,
    /// How many bytes it takes.
    pub room: usize,
    /// How many bytes a write takes at most.
    pub at_once: usize,
    /// What a write does behind them.
    pub full: Full,
}

/// The bytes for which a writer has memory from its start, so that a write that fails isn't want of memory.
const ROOM_AT_FIRST: usize = 4096;

impl Pipe {
    /// A writer of so much room.
    pub fn of(alloc: Global, room: usize) -> Result<Pipe, AllocError> {
        Ok(Pipe {
            taken: Vec::with_capacity(alloc, ROOM_AT_FIRST)?,
            room,
            at_once: usize::MAX,
            full: Full::Fails,
        })
    }

    /// A writer that takes all.
    pub fn open(alloc: Global) -> Result<Pipe, AllocError> {
        Pipe::of(alloc, usize::MAX)
    }
}

impl Write for Pipe {
    fn write(&mut self, buf: &[u8]) -> io::Result<usize> {
        let room = self.room.saturating_sub(self.taken.len());
        let count = buf.len().min(self.at_once).min(room);
        if count == 0 && self.full == Full::Fails {
            return Err(Error::from(ErrorKind::BrokenPipe));
        }
        self.taken.extend_from_slice(&buf[..count])?;
        Ok(count)
    }

    fn flush(&mut self) -> io::Result<()> {
        Ok(())
    }
}
