//! A capture of more than two million lines.

use crate::ending::{End, Trouble, holds, is_end};
use diag_bus::Replies;
use diag_run::run_bus_and_tell;
use diag_stored::CONFIG;
use std::alloc::{AllocError, Global};
use std::io;
use std::io::Read;

/// So many pieces of empty lines, as long as a read takes them, and then these bytes.
#[derive(Clone, Copy)]
struct EmptyLines<'a> {
    pieces: usize,
    behind: &'a [u8],
}

impl Read for EmptyLines<'_> {
    fn read(&mut self, buf: &mut [u8]) -> io::Result<usize> {
        if self.pieces > 0 {
            self.pieces -= 1;
            buf.fill(b'\n');
            return Ok(buf.len());
        }
        let count = buf.len().min(self.behind.len());
        let (now, later) = self.behind.split_at(count);
        buf[..count].copy_from_slice(now);
        self.behind = later;
        Ok(count)
    }
}

/// Whether a run over a capture of 31 pieces of 65,536 empty lines, with these bytes behind them, ends so.
fn ends(alloc: Global, behind: &[u8], end: End<'_>) -> Result<bool, AllocError> {
    let mut out = Vec::new(alloc);
    let mut config = EmptyLines {
        pieces: 0,
        behind: CONFIG.as_bytes(),
    };
    let mut capture = EmptyLines { pieces: 31, behind };
    let sink = Replies::new(alloc);
    let outcome = run_bus_and_tell(alloc, sink, &mut config, &mut capture, &mut out);
    is_end(&outcome, end)
}

/// The 2,031,617th line is the first at fault, and is told.
#[test]
fn two_million_lines_are_followed(rt: HostRuntime) -> Result<(), Trouble> {
    let bad = End {
        line: b"uds_play: capture line 2031617: bad line\n",
        status: 3,
    };
    holds(ends(rt.alloc(), b"?\n", bad))
}
