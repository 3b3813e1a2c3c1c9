//! The logs of a serial run, read as their lines come: what they give is kept, and their text isn't.

ghost use Rattle.std.specs.Prelude.{◌≡◌, ◌<◌, ℕ, List, [], length, map, Ok, IfOk, IfErr};
ghost use Rattle.std.specs.List.{All};
ghost use Rattle.diag_can.specs.Log.{events};
ghost use Rattle.diag_can.specs.declared.log.Timing.{Timing as ATiming};
ghost use Rattle.diag_setup.specs.declared.raw.RawSetup.{RawSetup};
ghost use Rattle.diag_workers.specs.Play.{NotRead, ReadsOne, logs_of};
ghost use Rattle.diag_run.specs.Devices.{TellsReads, fault_in};
ghost use Rattle.diag_run.specs.Files.{AreTaken, FilesEnd, FilesRead};
ghost use Rattle.diag_run.specs.Logs.{AreLogs, TookLog};

use crate::files::{LOG_LIMIT, read_each};
use diag_can::{Ids, Log, LogFault, LogReader, Timing};
use diag_setup::{Setup, TesterId};
use diag_text::{LineTaker, RunFault, Source, TakeLines};
use diag_workers::PlayFault;
use std::alloc::{AllocError, Global};

/// A tester's log that is read as its lines come.
#[derive(Drop)]
pub struct LogLines {
    /// Whose log it is.
    pub who: TesterId,
    /// By what the tester's frames are known.
    pub ids: Ids,
    /// Whether its stamps carry time.
    pub timing: Timing,
    /// What its lines gave.
    pub log: LogReader,
}

impl TakeLines for LogLines {
    ghost use Rattle.std.specs.Prelude.{ℕ};
    ghost use Rattle.diag_can.specs.HasRead.{HasRead};
    ghost use Rattle.diag_can.specs.declared.frame.Ids.{Ids};
    ghost use Rattle.diag_can.specs.declared.log.Timing.{Timing};

    ghost Aim = { ℕ × Ids × Timing };

    ghost aim = { λ lines. (lines.who, lines.ids, lines.timing) };

    ghost took = { λ lines seen. HasRead lines.ids lines.timing lines.log seen };

    fn take_lines<'a>(&mut self, text: &'a [u8]) -> Result<&'a [u8], AllocError> {
        self.log.take_lines(&self.ids, self.timing, text)
    }
}

/// What takes the log of each tester; it has taken nothing.
fn first_takers(
    alloc: Global,
    setup: &Setup,
    timing: Timing,
) -> Result<Vec<LineTaker<LogLines>>, AllocError>
    ensures logs { IfOk result (λ takers. AreLogs 1 setup.now timing takers.items) }
    ensures none { IfOk result (λ takers. All (λ taker. TookLog taker []) takers.items) }
    ensures many { IfOk result (λ takers.
        length takers.items ≡ length setup.now.testers) }
    ensures some { IfErr result (λ _. 0 < length setup.now.testers) }
{
    let mut takers = Vec::new(alloc);
    for index in 0..setup.testers() {
        let who = setup.who(index);
        takers.push(LineTaker {
            lines: LogLines {
                who,
                ids: setup.ids(who),
                timing,
                log: LogReader::new(alloc),
            },
            begun: Vec::new(alloc),
        })?;
    }
    Ok(takers)
}

/// Has the log of each tester read, up to a last line that no LF ends.
pub(crate) fn read_logs<R: Source>(
    alloc: Global,
    setup: &Setup,
    files: &mut [R],
    timing: Timing,
) -> Result<Vec<LineTaker<LogLines>>, RunFault>
    requires { length files.old ≡ length setup.now.testers }
    ensures read { IfOk result (λ takers. FilesRead R.remaining 67108864 files.old files.new
        (AreTaken TookLog takers.items)) }
    ensures logs { IfOk result (λ takers. AreLogs 1 setup.now timing takers.items) }
    ensures many { IfOk result (λ takers.
        length takers.items ≡ length setup.now.testers) }
    ensures ends { IfErr result (FilesEnd R.remaining 67108864 files.old files.new) }
    ensures tells { TellsReads R.failed R.sound files.old files.new (fault_in result) }
{
    let mut takers = first_takers(alloc, setup, timing)?;
    read_each(files, takers.as_mut_slice(), LOG_LIMIT)?;
    Ok(takers)
}

/// The events of each log that was taken, in order.
///
/// # Errors
/// `Log` for the first log that is at fault; `Memory` where memory is refused.
pub(crate) fn finish_logs(
    alloc: Global,
    takers: Vec<LineTaker<LogLines>>,
) -> Result<Vec<Log>, PlayFault>
    requires { (texts : List (List ℕ)) × AreTaken TookLog takers.items texts }
    ensures read { IfOk result (λ logs. (setup : RawSetup) (timing : ATiming) (texts : List (List ℕ))
        → AreLogs 1 setup timing takers.items
        → AreTaken TookLog takers.items texts
        → logs_of setup timing texts ≡ Ok (map (λ log. log.items) logs.items)) }
    ensures many { IfOk result (λ logs. length logs.items ≡ length takers.items) }
    ensures fault { IfErr result (λ fault. (setup : RawSetup) (timing : ATiming) (texts : List (List ℕ))
        → AreLogs 1 setup timing takers.items
        → AreTaken TookLog takers.items texts
        → NotRead (logs_of setup timing texts) fault) }
{
    let mut logs = Vec::new(alloc);
    for taker in takers {
        let log = finish_log(taker)?;
        match logs.push(log) {
            Ok(()) => {}
            Err(_) => return Err(PlayFault::Memory),
        }
    }
    Ok(logs)
}

/// The events of a log that was taken: what is begun is its last line.
fn finish_log(taker: LineTaker<LogLines>) -> Result<Log, PlayFault>
    requires { (text : List ℕ) × TookLog taker text }
    ensures { (text : List ℕ) → TookLog taker text
        → ReadsOne taker.lines.who (events text taker.lines.ids taker.lines.timing) result }
{
    let LogLines {
        who,
        ids,
        timing,
        log,
    } = taker.lines;
    match log.finish(&ids, timing, taker.begun.as_slice()) {
        Ok(events) => Ok(events),
        Err(LogFault::Memory) => Err(PlayFault::Memory),
        Err(fault) => Err(PlayFault::Log(who, fault)),
    }
}
