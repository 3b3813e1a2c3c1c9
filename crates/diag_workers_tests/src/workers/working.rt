//! Workers at doors over a lock.

ghost use Rattle.std.specs.Prelude.{◌≤◌, length};

use crate::trouble::{Trouble, holds};
use crate::workers::given::{
    FIRST_READER, SECOND_READER, events_of, has_first_frames, has_second_frames, is_replayed,
    setup_of_two,
};
use diag_can::Log;
use diag_desk::{Desk, Journal, StepFault};
use diag_gate::LockDoor;
use diag_setup::{Setup, TesterId};
use diag_workers::{WorkerRecord, agree, work};
use std::alloc::Global;
use std::sync::{Mutex, Wait};

/// What a worker does with this log, at its tester's door over the lock.
fn at_lock<R: Wait>(
    rt: &R,
    alloc: Global,
    setup: &Setup,
    desk: &Mutex<Desk>,
    who: TesterId,
    log: &Log,
) -> Result<WorkerRecord, StepFault>
    requires { who ≤ length setup.now.testers }
{
    let mut door = LockDoor::new(rt, alloc, desk, who);
    work(alloc, setup, who, log, &mut door)
}

/// What the worker of one tester does with these lines, at a door over the lock.
fn worked<R: Wait>(
    rt: &R,
    alloc: Global,
    setup: &Setup,
    desk: &Mutex<Desk>,
    index: usize,
    lines: &[&str],
) -> Result<WorkerRecord, Trouble> {
    if index >= setup.testers() {
        return Err(Trouble::Wrong);
    }
    let who = setup.who(index);
    let log = events_of(alloc, setup, index, lines)?;
    Ok(at_lock(rt, alloc, setup, desk, who, &log)?)
}

/// Whether a record is the whole of a journal, which replays, and has the frames of this reader.
fn is_whole(
    alloc: Global,
    setup: &Setup,
    journal: &Journal,
    index: usize,
    record: &WorkerRecord,
) -> Result<bool, Trouble> {
    if index >= setup.testers() {
        return Err(Trouble::Wrong);
    }
    let who = setup.who(index);
    is_replayed(alloc, setup, journal)?;
    let (count, framed) = if index == 0 {
        (2, has_first_frames(&record.sent))
    } else {
        (3, has_second_frames(&record.sent))
    };
    Ok(
        framed
            && journal.len() == count
            && record.entries.len() == count
            && agree(journal, who, &record.entries),
    )
}

/// Whether the worker of a reader leaves what it must at a desk.
fn is_played_at<R: Wait>(
    rt: &R,
    alloc: Global,
    setup: &Setup,
    desk: &Mutex<Desk>,
    index: usize,
    lines: &[&str],
) -> Result<bool, Trouble> {
    let record = worked(rt, alloc, setup, desk, index, lines)?;
    is_whole(alloc, setup, desk.lock(rt).journal(), index, &record)
}

fn is_played_alone<R: Wait>(
    rt: &R,
    alloc: Global,
    setup: &Setup,
    index: usize,
    lines: &[&str],
) -> Result<bool, Trouble> {
    let desk = Mutex::new(Desk::new(alloc, setup)?);
    is_played_at(rt, alloc, setup, &desk, index, lines)
}

/// Whether a reader's log is played at a desk of its own.
fn alone<R: Wait>(rt: &R, alloc: Global, index: usize, lines: &[&str]) -> Result<bool, Trouble> {
    let setup = setup_of_two(alloc)?;
    is_played_alone(rt, alloc, &setup, index, lines)
}

/// Each log alone, at a door over a lock.
#[test]
fn threaded_play_alone(rt: HostRuntime) -> Result<(), Trouble> {
    holds(alone(&rt, rt.alloc(), 0, &FIRST_READER))?;
    holds(alone(&rt, rt.alloc(), 1, &SECOND_READER))
}
