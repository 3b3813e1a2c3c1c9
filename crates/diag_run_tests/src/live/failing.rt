//! Benches and writers that fail.

use super::given::{Comes, Script, Step, serves};
use crate::devices::{CANNOT_WRITE, Full, Pipe, cannot_read};
use crate::ending::{Trouble, holds, holds_at, is_end};
use diag_live::run_live_and_tell;
use diag_stored::CONFIG;
use std::alloc::{AllocError, Global};

const STEPS: [Step; 3] = [
    Step {
        at: 700,
        comes: Comes::Bytes("(1.000000) can0 7E0#023E00\n"),
    },
    Step {
        at: 750,
        comes: Comes::Bytes("(1.000000) can0 7E1#023E00\n"),
    },
    Step {
        at: 800,
        comes: Comes::Fault,
    },
];

const RECORD: &str = "(0.000000) can0 7E0#023E00\ntick 50\n(0.000000) can0 7E1#023E00\n";

/// The length of the record's first line.
const FIRST_RECORDED: usize = 27;

const TEXT: &str =
    "(0000000000.000000) A 7E8#027E00CCCCCCCCCC\n(0000000000.050000) B 7E9#027E00CCCCCCCCCC\n";

/// The length of the text's first line.
const FIRST_WRITTEN: usize = 43;

/// An input that fails is told, behind what was drawn.
#[test]
fn input_that_fails(rt: HostRuntime) -> Result<(), Trouble> {
    holds(serves(rt.alloc(), &STEPS, cannot_read(1), RECORD, TEXT))
}

/// Whether a run whose output and record have so much room ends by `cannot write`, with a front of its text in each.
fn is_cut(alloc: Global, room: usize, record_room: usize, full: Full) -> Result<bool, AllocError> {
    let mut bench = Script {
        alloc,
        steps: &STEPS,
        clock: 700,
    };
    let mut out = Pipe {
        full,
        ..Pipe::of(alloc, room)?
    };
    let mut record = Pipe {
        full,
        ..Pipe::of(alloc, record_room)?
    };
    let mut config = CONFIG.as_bytes();
    let outcome = run_live_and_tell(alloc, &mut config, &mut bench, &mut out, &mut record);
    let ended = is_end(&outcome, CANNOT_WRITE);
    let fronts = TEXT.as_bytes().starts_with(out.taken.as_slice())
        && RECORD.as_bytes().starts_with(record.taken.as_slice());
    Ok(ended? && fronts && is_first(&out, &record))
}

/// Whether the record has the lines whose replies were written.
fn is_first(out: &Pipe, record: &Pipe) -> bool {
    (out.taken.is_empty() || record.taken.len() >= FIRST_RECORDED)
        && (out.taken.len() <= FIRST_WRITTEN || record.taken.len() == RECORD.len())
}

/// An output that takes no more is told, and both have a front; the record is ahead of the replies.
#[test]
fn output_that_fails(rt: HostRuntime) -> Result<(), Trouble> {
    let alloc = rt.alloc();
    for room in 0..TEXT.len() {
        holds_at(room, is_cut(alloc, room, usize::MAX, Full::Fails))?;
        holds_at(room, is_cut(alloc, room, usize::MAX, Full::TakesNone))?;
    }
    Ok(())
}

/// So is a record that takes no more.
#[test]
fn record_that_fails(rt: HostRuntime) -> Result<(), Trouble> {
    let alloc = rt.alloc();
    for room in 0..RECORD.len() {
        holds_at(room, is_cut(alloc, usize::MAX, room, Full::Fails))?;
        holds_at(room, is_cut(alloc, usize::MAX, room, Full::TakesNone))?;
    }
    Ok(())
}
