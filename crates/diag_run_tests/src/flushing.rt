//! Writers whose flush fails: what was written is flushed. (The program's own standard output has nothing to flush.)

use crate::devices::CANNOT_WRITE;
use crate::ending::{End, Trouble, WELL, holds, is_end, is_whole};
use crate::given::{GIVEN, Given};
use diag_bus::Replies;
use diag_run::{run_and_tell, run_bus_and_tell};
use diag_stored::CONFIG;
use std::alloc::{AllocError, Global};
use std::io;
use std::io::{Error, ErrorKind, Write};
use std::sync::Wait;
use std::thread::Threads;

/// A writer that takes all. Its flush at `fails_at`, from 1, fails.
#[derive(Drop)]
pub struct Flushed {
    /// What it took.
    pub taken: Vec<u8>,
    flushes: usize,
    fails_at: usize,
}

impl Flushed {
    /// A writer with room for a run's text.
    pub fn failing(alloc: Global, fails_at: usize) -> Result<Flushed, AllocError> {
        Ok(Flushed {
            taken: Vec::with_capacity(alloc, 4096)?,
            flushes: 0,
            fails_at,
        })
    }
}

impl Write for Flushed {
    fn write(&mut self, buf: &[u8]) -> io::Result<usize> {
        self.taken.extend_from_slice(buf)?;
        Ok(buf.len())
    }

    fn flush(&mut self) -> io::Result<()> {
        self.flushes = self.flushes.saturating_add(1);
        if self.flushes == self.fails_at {
            return Err(Error::from(ErrorKind::Other));
        }
        Ok(())
    }
}

/// Whether a run whose flush at this call fails, 0 for none, ends so when its whole text was written.
fn ends<T: Threads + Wait + Sync + AllocGlobal>(
    rt: &T,
    given: &Given,
    fails_at: usize,
    end: End<'_>,
) -> Result<bool, AllocError> {
    let mut files = Vec::with_capacity(rt.alloc(), 2)?;
    for text in given.files {
        files.push(text.as_bytes())?;
    }
    let mut out = Flushed::failing(rt.alloc(), fails_at)?;
    let mut config = CONFIG.as_bytes();
    let outcome = run_and_tell(
        rt,
        rt.alloc(),
        given.job,
        &mut config,
        files.as_mut_slice(),
        &mut out,
    );
    Ok(is_end(&outcome, end)? && given.is_written(out.taken.as_slice(), given.len()))
}

/// The flush of a run fails, and no other is made.
#[test]
fn a_flush_fails(rt: HostRuntime) -> Result<(), Trouble> {
    for given in &GIVEN {
        holds(ends(&rt, given, 1, CANNOT_WRITE))?;
        holds(ends(&rt, given, 2, WELL))?;
    }
    Ok(())
}

/// A line with its end, and one whose reply the capture's end brings.
const CAPTURE: &[u8] = b"(0.000000) can0 7E0#023E00\n(0.000000) can0 7E1#023E00";

const FIRST: &str = "(0000000000.000000) A 7E8#027E00CCCCCCCCCC\n";

const SECOND: &str = "(0000000000.000000) B 7E9#027E00CCCCCCCCCC\n";

/// Whether a run over the capture whose flush at this call fails ends so, and has written this. One that is refused memory
/// for a line may end by the flush of what the lines before it wrote: a text that is too short is an error.
fn follows(
    alloc: Global,
    fails_at: usize,
    end: End<'_>,
    text: [&str; 2],
) -> Result<bool, AllocError> {
    let mut out = Flushed::failing(alloc, fails_at)?;
    let mut config = CONFIG.as_bytes();
    let mut capture = CAPTURE;
    let sink = Replies::new(alloc);
    let outcome = run_bus_and_tell(alloc, sink, &mut config, &mut capture, &mut out);
    if out.taken.len() < text[0].len().saturating_add(text[1].len()) {
        return Err(AllocError);
    }
    Ok(is_end(&outcome, end)? && is_whole(out.taken.as_slice(), text))
}

/// Each of the two flushes over a capture fails in turn, and no other is made.
#[test]
fn each_flush_over_a_capture_fails_in_turn(rt: HostRuntime) -> Result<(), Trouble> {
    let alloc = rt.alloc();
    holds(follows(alloc, 1, CANNOT_WRITE, [FIRST, ""]))?;
    holds(follows(alloc, 2, CANNOT_WRITE, [FIRST, SECOND]))?;
    holds(follows(alloc, 3, WELL, [FIRST, SECOND]))
}
