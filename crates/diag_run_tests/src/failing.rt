//! Readers and writers of which one call fails, for each call of each job. Where reads fail a read brings one byte, and a
//! write takes one.

use crate::devices::{CANNOT_WRITE, Full, Pipe, Source, cannot_read};
use crate::ending::{End, Trouble, WELL, holds, holds_at, is_end};
use crate::given::{GIVEN, Given};
use diag_run::{Outcome, run_and_tell};
use diag_stored::CONFIG;
use std::alloc::{AllocError, Global};
use std::sync::Wait;
use std::thread::Threads;

/// The devices of a run, and what fails of them.
#[derive(Clone, Copy)]
struct Devices {
    /// How many bytes a read brings at most.
    at_once: usize,
    /// The place of the file of which a read fails, 0 for the config.
    file: usize,
    /// That read, from 1; 0 for none.
    read: usize,
    /// How many bytes the writer takes.
    room: usize,
    /// What a write does behind them.
    full: Full,
}

/// None fails.
const SOUND: Devices = Devices {
    at_once: usize::MAX,
    file: 0,
    read: 0,
    room: usize::MAX,
    full: Full::Fails,
};

impl Devices {
    /// The reader of the file of a place.
    fn reader(self, place: usize, text: &str) -> Source<'_> {
        let fails_at = if place == self.file { self.read } else { 0 };
        Source {
            left: text.as_bytes(),
            at_once: self.at_once,
            calls: 0,
            fails_at,
        }
    }

    /// The writer.
    fn writer(self, alloc: Global) -> Result<Pipe, AllocError> {
        Ok(Pipe {
            at_once: 1,
            full: self.full,
            ..Pipe::of(alloc, self.room)?
        })
    }
}

/// Runs on these devices.
fn outcome<T: Threads + Wait + Sync + AllocGlobal>(
    rt: &T,
    given: &Given,
    devices: Devices,
    out: &mut Pipe,
) -> Result<Outcome, AllocError> {
    let mut files = Vec::with_capacity(rt.alloc(), 2)?;
    for (place, text) in given.files.iter().enumerate() {
        files.push(devices.reader(place.saturating_add(1), text))?;
    }
    let mut config = devices.reader(0, CONFIG);
    let files = files.as_mut_slice();
    Ok(run_and_tell(rt, rt.alloc(), given.job, &mut config, files, out))
}

/// Whether the run ends so.
fn ends<T: Threads + Wait + Sync + AllocGlobal>(
    rt: &T,
    given: &Given,
    devices: Devices,
    out: &mut Pipe,
    end: End<'_>,
) -> Result<bool, AllocError> {
    let outcome = outcome(rt, given, devices, out)?;
    is_end(&outcome, end)
}

/// Whether it ends so, and so many bytes of its text were written.
fn writes<T: Threads + Wait + Sync + AllocGlobal>(
    rt: &T,
    given: &Given,
    devices: Devices,
    end: End<'_>,
    count: usize,
) -> Result<bool, AllocError> {
    let mut out = devices.writer(rt.alloc())?;
    let ended = ends(rt, given, devices, &mut out, end);
    Ok(ended? && given.is_written(out.taken.as_slice(), count))
}

/// Each read of a file of so many bytes fails in turn, the last of which would find its end; no further read is made.
fn each_read_fails<T: Threads + Wait + Sync + AllocGlobal>(
    rt: &T,
    given: &Given,
    file: usize,
    len: usize,
) -> Result<(), Trouble> {
    let last = len.saturating_add(1);
    for read in 1..=last {
        let devices = Devices {
            at_once: 1,
            file,
            read,
            ..SOUND
        };
        holds_at(read, writes(rt, given, devices, cannot_read(file), 0))?;
    }
    let devices = Devices {
        at_once: 1,
        file,
        read: last.saturating_add(1),
        ..SOUND
    };
    holds(writes(rt, given, devices, WELL, given.len()))
}

/// The same of the config and of each file.
fn each_file_fails<T: Threads + Wait + Sync + AllocGlobal>(
    rt: &T,
    given: &Given,
) -> Result<(), Trouble> {
    each_read_fails(rt, given, 0, CONFIG.len())?;
    for (place, text) in given.files.iter().enumerate() {
        each_read_fails(rt, given, place.saturating_add(1), text.len())?;
    }
    Ok(())
}

/// A read that fails is told by its file, and nothing is written.
#[test]
fn each_read_fails_in_turn(rt: HostRuntime) -> Result<(), Trouble> {
    for given in &GIVEN {
        each_file_fails(&rt, given)?;
    }
    Ok(())
}

/// Each write of a run fails in turn, or takes no byte; no further write is made.
fn each_write_fails<T: Threads + Wait + Sync + AllocGlobal>(
    rt: &T,
    given: &Given,
) -> Result<(), Trouble> {
    let len = given.len();
    for room in 0..len {
        let fails = Devices { room, ..SOUND };
        holds_at(room, writes(rt, given, fails, CANNOT_WRITE, room))?;
        let takes_none = Devices {
            full: Full::TakesNone,
            ..fails
        };
        holds_at(room, writes(rt, given, takes_none, CANNOT_WRITE, room))?;
    }
    let whole = Devices { room: len, ..SOUND };
    holds(writes(rt, given, whole, WELL, len))
}

/// A write that fails, or takes no byte, is told, and a front of the text was written.
#[test]
fn each_write_fails_in_turn(rt: HostRuntime) -> Result<(), Trouble> {
    for given in &GIVEN {
        each_write_fails(&rt, given)?;
    }
    Ok(())
}
