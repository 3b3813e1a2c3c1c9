//! A serial play that is kept, with its texts, and runs that take no handles: the program keeps no such play, and makes its
//! runs with threads.

use crate::ending::{Trouble, holds, is_whole};
use crate::flushing::Flushed;
use diag_can::{Log, LogFault, Timing, read_log};
use diag_desk::StepFault;
use diag_run::{Alone, run_alone};
use diag_setup::Setup;
use diag_stored::{CONFIG, END, LOG_A, LOG_B, PLAYED, two_testers};
use diag_text::{RunFault, play_text, replay_text};
use diag_world::{Played, serial};
use std::alloc::{AllocError, Global};

/// The events of the log of the tester at an index.
fn events_of(alloc: Global, setup: &Setup, index: usize, log: &str) -> Result<Log, Trouble> {
    if index >= setup.testers() {
        return Err(Trouble::Wrong);
    }
    let who = setup.who(index);
    match read_log(alloc, log.as_bytes(), &setup.ids(who), Timing::Lines) {
        Ok(events) => Ok(events),
        Err(LogFault::Memory) => Err(Trouble::Memory),
        Err(_) => Err(Trouble::Wrong),
    }
}

/// The events of both logs.
fn both_logs(alloc: Global, setup: &Setup) -> Result<Vec<Log>, Trouble> {
    let mut logs = Vec::with_capacity(alloc, 2)?;
    logs.push(events_of(alloc, setup, 0, LOG_A)?)?;
    logs.push(events_of(alloc, setup, 1, LOG_B)?)?;
    Ok(logs)
}

/// The serial play of these logs.
fn play_of(alloc: Global, setup: &Setup, logs: &[Log]) -> Result<Played, Trouble> {
    if logs.len() != setup.testers() {
        return Err(Trouble::Wrong);
    }
    match serial(alloc, setup, logs) {
        Ok(played) => Ok(played),
        Err(StepFault::Memory) => Err(Trouble::Memory),
        Err(StepFault::JournalFull) => Err(Trouble::Wrong),
    }
}

/// Whether the text of the play is that of the run without words.
fn is_told(alloc: Global, setup: &Setup, played: &Played) -> Result<bool, AllocError> {
    if played.sent.len() != setup.testers() {
        return Ok(false);
    }
    let text = play_text(alloc, setup, played, Timing::Lines)?;
    Ok(is_whole(text.as_slice(), [PLAYED, END]))
}

/// Whether the text of its journal's replay counts its entries, and has the same end.
fn is_counted(alloc: Global, setup: &Setup, played: &Played) -> Result<bool, AllocError> {
    let text = replay_text(alloc, setup, played.desk.journal(), played.desk.ecu())?;
    Ok(is_whole(text.as_slice(), ["entries 9\n", END]))
}

/// Whether the play of these logs has both texts.
fn is_played(alloc: Global, setup: &Setup, logs: &[Log]) -> Result<bool, Trouble> {
    let played = play_of(alloc, setup, logs)?;
    Ok(is_told(alloc, setup, &played)? && is_counted(alloc, setup, &played)?)
}

/// A play that is kept has the text of the run that writes as it goes.
#[test]
fn a_kept_play_is_told(rt: HostRuntime) -> Result<(), Trouble> {
    let alloc = rt.alloc();
    let setup = two_testers(alloc)?;
    let logs = both_logs(alloc, &setup)?;
    if is_played(alloc, &setup, logs.as_slice())? {
        Ok(())
    } else {
        Err(Trouble::Wrong)
    }
}

/// Whether a run of these files that takes no handles writes this.
fn writes(
    alloc: Global,
    job: Alone,
    files: &[&'static str],
    text: [&str; 2],
) -> Result<bool, AllocError> {
    let mut readers = Vec::with_capacity(alloc, 2)?;
    for file in files {
        readers.push(file.as_bytes())?;
    }
    let mut config = CONFIG.as_bytes();
    let mut out = Flushed::failing(alloc, 0)?;
    match run_alone(alloc, job, &mut config, readers.as_mut_slice(), &mut out) {
        Ok(()) => Ok(is_whole(out.taken.as_slice(), text)),
        Err(RunFault::Memory | RunFault::Write) => Err(AllocError),
        Err(_) => Ok(false),
    }
}

/// A play and a replay are run with no handle.
#[test]
fn runs_take_no_handles(rt: HostRuntime) -> Result<(), Trouble> {
    let alloc = rt.alloc();
    let play = Alone::Serial {
        only_journal: false,
        timing: Timing::Lines,
    };
    holds(writes(alloc, play, &[LOG_A, LOG_B], [PLAYED, END]))?;
    let journal = "diag-journal 1\n1 P 1083 -\n";
    holds(writes(alloc, Alone::Replay, &[journal], ["entries 1\n", END]))
}
