//! What a run writes for what it has read: the text of a play, or of a replay.

ghost use Rattle.std.specs.Prelude.{◌≡◌, ◌≢◌, ◌++◌, ℕ, List, length, map, IfOk, IfErr, Err};
ghost use Rattle.diag_can.specs.BusLine.{HasNoFeed};
ghost use Rattle.diag_desk.specs.Following.{HasTaken};
ghost use Rattle.diag_workers.specs.Play.{logs_of};
ghost use Rattle.diag_run.specs.Devices.{TellsReads, fault_in};
ghost use Rattle.diag_run.specs.Files.{AreTaken, FilesEnd, FilesRead, or_bad_log};
ghost use Rattle.diag_run.specs.Logs.{AreLogs, TookLog};
ghost use Rattle.diag_run.specs.Run.{FilesGive, GivesPlayed, GivesWoven, GivesReplayed, IsReplayedTo, played_text, answered, joined};

use crate::file_run::Job;
use crate::files::{LOG_LIMIT, read_each};
use crate::logs::{LogLines, finish_logs, read_logs};
use crate::serial::serial_text;
use diag_can::Timing;
use diag_desk::TextReplay;
use diag_setup::Setup;
use diag_text::{
    LineTaker, RunFault, Source, TakeLines, counted_text, journal_part, one_part, play_parts_beside,
};
use diag_workers::{NoWatch, play};
use diag_world::Played;
use std::alloc::{AllocError, Global};
use std::sync::Wait;
use std::thread::Threads;

/// The most bytes of a journal.
const JOURNAL_LIMIT: usize = 268_435_456;

/// The bytes of each file.
pub(crate) fn read_texts<R: Source>(
    alloc: Global,
    files: &mut [R],
) -> Result<Vec<Vec<u8>>, RunFault>
    ensures read { IfOk result (λ texts. FilesRead R.remaining 67108864 files.old files.new
        (λ read. read ≡ map (λ text. text.items) texts.items)) }
    ensures count { IfOk result (λ texts. length texts.items ≡ length files.old) }
    ensures ends { IfErr result (FilesEnd R.remaining 67108864 files.old files.new) }
    ensures tells { TellsReads R.failed R.sound files.old files.new (fault_in result) }
{
    let mut texts = Vec::new(alloc);
    while texts.len() < files.len() {
        texts.push(Vec::new(alloc))?;
    }
    read_each(files, texts.as_mut_slice(), LOG_LIMIT)?;
    Ok(texts)
}

/// Plays the logs of these files on one thread, and says what the play writes. Each log is read as its lines come.
pub(crate) fn played_text<R: Source>(
    alloc: Global,
    setup: &Setup,
    files: &mut [R],
    only_journal: bool,
    timing: Timing,
) -> Result<Vec<Vec<u8>>, RunFault>
    requires { length files.old ≡ length setup.now.testers }
    ensures gives { FilesGive R.remaining (Job.Serial only_journal timing) setup.now files.old files.new
        (answered result) }
    ensures tells { TellsReads R.failed R.sound files.old files.new (fault_in result) }
{
    let takers = read_logs(alloc, setup, files, timing)?;
    told_play(alloc, setup, takers, only_journal, timing)
}

/// What the play of the logs writes that were taken.
fn told_play(
    alloc: Global,
    setup: &Setup,
    takers: Vec<LineTaker<LogLines>>,
    only_journal: bool,
    timing: Timing,
) -> Result<Vec<Vec<u8>>, RunFault>
    requires taken { (texts : List (List ℕ)) × AreTaken TookLog takers.items texts }
    requires logs { AreLogs 1 setup.now timing takers.items }
    requires many { length takers.items ≡ length setup.now.testers }
    ensures gives { (texts : List (List ℕ)) → AreTaken TookLog takers.items texts
        → GivesPlayed only_journal timing setup.now (or_bad_log (logs_of setup.now timing texts))
        (answered result) }
    ensures device { (n : ℕ) → result ≢ Err (RunFault.Read n) }
{
    let logs = finish_logs(alloc, takers)?;
    let parts = serial_text(alloc, setup, logs.as_slice(), only_journal, timing)?;
    Ok(parts)
}

/// Plays the logs, a thread for each tester, lets their texts go, and says what the play writes.
#[tactic(auto, using(crate::proofs::Plays::log_ill))]
pub(crate) fn woven_text<R: Threads + Wait + Sync>(
    rt: &R,
    alloc: Global,
    setup: &Setup,
    texts: Vec<Vec<u8>>,
    only_journal: bool,
    timing: Timing,
) -> Result<Vec<Vec<u8>>, RunFault>
    requires { length texts.items ≡ length setup.now.testers }
    ensures gives { GivesWoven only_journal timing setup.now
        (or_bad_log (logs_of setup.now timing (map (λ text. text.items) texts.items)))
        (answered result) }
    ensures device { (n : ℕ) → result ≢ Err (RunFault.Read n) }
{
    let played = play(rt, alloc, setup, texts.as_slice(), &NoWatch, timing)?;
    drop(texts);
    parts_beside(rt, alloc, setup, &played, only_journal, timing)
}

/// What is written of a play, in parts that are made beside each other: the journal alone where that is asked for.
fn parts_beside<R: Threads + Sync>(
    rt: &R,
    alloc: Global,
    setup: &Setup,
    played: &Played,
    only_journal: bool,
    timing: Timing,
) -> Result<Vec<Vec<u8>>, RunFault>
    requires { length played.now.sent.items ≡ length setup.now.testers }
    ensures ok { IfOk result (λ parts.
        joined parts ≡ played_text only_journal timing setup.now played.now.desk
        (map (λ sent. sent.items) played.now.sent.items)) }
    ensures err { IfErr result (λ fault. fault ≡ RunFault.Memory) }
{
    let parts = if only_journal {
        one_part(alloc, journal_part(alloc, timing, played.desk.journal())?)?
    } else {
        play_parts_beside(rt, alloc, setup, played, timing)?
    };
    Ok(parts)
}

/// A journal that is replayed as its lines come.
#[derive(Drop)]
struct Replaying<'a> {
    alloc: Global,
    setup: &'a Setup,
    replay: TextReplay,
}

impl TakeLines for Replaying<'_> {
    ghost use Rattle.diag_desk.specs.Following.{HasTaken};
    ghost use Rattle.diag_setup.specs.declared.raw.RawSetup.{RawSetup};

    ghost Aim = { RawSetup };

    ghost aim = { λ lines. lines.setup.now };

    ghost took = { λ lines seen. HasTaken lines.setup.now lines.replay seen };

    fn take_lines<'b>(&mut self, text: &'b [u8]) -> Result<&'b [u8], AllocError> {
        self.replay.take_lines(self.alloc, self.setup, text)
    }
}

/// Has the journal of the one file replayed, up to a last line that no LF ends.
fn read_journal<'a, R: Source>(
    alloc: Global,
    setup: &'a Setup,
    files: &mut [R],
) -> Result<LineTaker<Replaying<'a>>, RunFault>
    requires { length files.old ≡ 1 }
    ensures read { IfOk result (λ taker. FilesRead R.remaining 268435456 files.old files.new
        (IsReplayedTo setup.now taker.lines.replay taker.begun.items)) }
    ensures ends { IfErr result (FilesEnd R.remaining 268435456 files.old files.new) }
    ensures tells { TellsReads R.failed R.sound files.old files.new (fault_in result) }
{
    let replay = TextReplay::new(alloc, setup)?;
    let mut takers = Vec::new(alloc);
    takers.push(LineTaker {
        lines: Replaying {
            alloc,
            setup,
            replay,
        },
        begun: Vec::new(alloc),
    })?;
    read_each(files, takers.as_mut_slice(), JOURNAL_LIMIT)?;
    Ok(takers.remove(0))
}

/// Replays the journal of the one file as it is read, and says what the replay writes.
pub(crate) fn replayed_text<R: Source>(
    alloc: Global,
    setup: &Setup,
    files: &mut [R],
) -> Result<Vec<Vec<u8>>, RunFault>
    requires { length files.old ≡ 1 }
    ensures gives { FilesGive R.remaining Job.Replay setup.now files.old files.new (answered result) }
    ensures tells { TellsReads R.failed R.sound files.old files.new (fault_in result) }
{
    let taker = read_journal(alloc, setup, files)?;
    told_replay(alloc, setup, taker.lines.replay, taker.begun.as_slice())
}

/// What the replay of a journal writes that ends with these bytes of a line, or with none.
fn told_replay(
    alloc: Global,
    setup: &Setup,
    replay: TextReplay,
    begun: &[u8],
) -> Result<Vec<Vec<u8>>, RunFault>
    requires taken { (seen : List ℕ) × HasTaken setup.now replay seen }
    requires line { HasNoFeed begun.now }
    ensures gives { (seen : List ℕ) → HasTaken setup.now replay seen
        → GivesReplayed setup.now (seen ++ begun.now) (answered result) }
    ensures device { (n : ℕ) → result ≢ Err (RunFault.Read n) }
{
    match replay.finish(begun) {
        Ok(replayed) => {
            let text = counted_text(alloc, setup, replayed.entries, &replayed.ecu)?;
            Ok(one_part(alloc, text)?)
        }
        Err(fault) => Err(RunFault::from(fault)),
    }
}
