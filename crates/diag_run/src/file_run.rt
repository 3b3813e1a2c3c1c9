//! A run over files: the config and the files in, one text out.

ghost use Rattle.std.specs.Prelude.{◌≡◌, ◌≢◌, ℕ, List, length, IfOk, IfErr, IfSome, OnOk, Some, Ok, Err};
ghost use Rattle.std.specs.Io.KnownBytes.{Keeps};
ghost use Rattle.diag_run.specs.Devices.{TellsConfig, TellsReads, TellsWrites, fault_in};
ghost use Rattle.diag_run.specs.Files.{AreKnown, Fails, SaysSetup};
ghost use Rattle.diag_run.specs.Run.{NamesAFile, ReadsConfigFirst, TextStops, WhereKnown, Writes, joined, wanted, read_of, FilesGive, ReadToEnd, ReadingStops, RunStops, GivesRun, Wrote, WroteFront, IsFaultOf, DoneOf, EndsOf, Tells, answered};

use crate::answer::{played_text, read_texts, replayed_text, woven_text};
use crate::files::read_config;
use diag_can::Timing;
use diag_setup::Setup;
use diag_text::{FaultLine, RunFault, Source, Target, fault_text, status, write_whole};
use std::alloc::Global;
use std::sync::Wait;
use std::thread::Threads;

/// What a run does with its files.
#[derive(Clone, Copy, Debug, PartialEq, Eq)]
pub enum Job {
    /// Plays the logs on one thread, one event of each in turn.
    Serial { only_journal: bool, timing: Timing },
    /// Plays the logs, a thread for each tester.
    Play { only_journal: bool, timing: Timing },
    /// Replays a journal.
    Replay,
}

impl Job {
    /// How many files it wants.
    fn wanted(self, setup: &Setup) -> usize
        ensures { result ≡ wanted self setup.now }
    {
        match self {
            Job::Serial { .. } | Job::Play { .. } => setup.testers(),
            Job::Replay => 1,
        }
    }
}

/// Reads the config, and counts the files.
#[tactic(auto, unfolding(crate::specs::Run::read_of))]
pub(crate) fn read_counted<R: Source>(
    alloc: Global,
    job: Job,
    config: &mut R,
    files: &[R],
) -> Result<Setup, RunFault>
    ensures says { IfOk result (SaysSetup (R.remaining config.old) (R.remaining config.new)) }
    ensures count { IfOk result (λ setup. wanted job setup ≡ length files.now) }
    ensures fails { IfErr result (λ fault. (bytes : List ℕ) (known : List (List ℕ))
        → R.remaining config.old ≡ Some bytes
        → AreKnown R.remaining files.now known
        → Fails fault (read_of job bytes known)) }
    ensures device { (n : ℕ) → result ≡ Err (RunFault.Read n) → n ≡ 0 }
    ensures stops { IfErr result
        (ReadingStops R.remaining job config.old config.new files.now files.now) }
    ensures tells { TellsConfig R.failed R.sound config.old config.new (fault_in result) }
{
    let setup = read_config(alloc, config)?;
    let wanted = job.wanted(&setup);
    let given = files.len();
    if wanted != given {
        return Err(RunFault::Files { wanted, given });
    }
    Ok(setup)
}

/// The text that is written for the files, in parts.
#[tactic(auto, using(crate::proofs::Known::texts_give))]
fn text_of<T: Threads + Wait + Sync, R: Source>(
    rt: &T,
    alloc: Global,
    job: Job,
    setup: &Setup,
    files: &mut [R],
) -> Result<Vec<Vec<u8>>, RunFault>
    requires { wanted job setup.now ≡ length files.old }
    ensures gives { FilesGive R.remaining job setup.now files.old files.new (answered result) }
    ensures tells { TellsReads R.failed R.sound files.old files.new (fault_in result) }
{
    match job {
        Job::Serial {
            only_journal,
            timing,
        } => played_text(alloc, setup, files, only_journal, timing),
        Job::Play {
            only_journal,
            timing,
        } => {
            let texts = read_texts(alloc, files)?;
            woven_text(rt, alloc, setup, texts, only_journal, timing)
        }
        Job::Replay => replayed_text(alloc, setup, files),
    }
}

/// Reads the config and the files, plays or replays, and answers the text of the run in parts, in their order. It writes
/// nothing: whatever then writes the parts, they are the text of a legal run over what was read.
///
/// # Errors
/// As those of `run` but `Write`.
pub fn run_text<T: Threads + Wait + Sync, R: Source>(
    rt: &T,
    alloc: Global,
    job: Job,
    config: &mut R,
    files: &mut [R],
) -> Result<Vec<Vec<u8>>, RunFault>
    ensures answer { WhereKnown R.remaining job config.old files.old
        (λ said. GivesRun job said (answered result)) }
    ensures device { NamesAFile (length files.old) result }
    ensures config { ReadsConfigFirst (R.remaining config.new) result }
    ensures reads { IfOk result (λ parts.
        ReadToEnd R.remaining job config.old config.new files.old files.new
        (λ said. GivesRun job said (Ok (joined parts)))) }
    ensures stops { IfErr result
        (TextStops R.remaining job config.old config.new files.old files.new) }
    ensures tells_config { TellsConfig R.failed R.sound config.old config.new (fault_in result) }
    ensures tells_reads { TellsReads R.failed R.sound files.old files.new (fault_in result) }
{
    match read_counted(alloc, job, config, files) {
        Ok(setup) => text_of(rt, alloc, job, &setup, files),
        Err(fault) => Err(fault),
    }
}

/// Writes the text that was made, or answers why none was.
pub(crate) fn written<W: Target>(
    out: &mut W,
    made: Result<Vec<Vec<u8>>, RunFault>,
) -> Result<(), RunFault>
    ensures writes { Writes (answered made) (W.contents out.old) (W.contents out.new) result }
    ensures tells { made ≢ Err RunFault.Write
        → TellsWrites W.failed W.sound out.old out.new (fault_in result) }
    ensures flushed { OnOk result (W.flushed out.new) }
{
    match made {
        Ok(parts) => match write_whole(out, parts.as_slice()) {
            Ok(()) => Ok(()),
            Err(_) => Err(RunFault::Write),
        },
        Err(fault) => Err(fault),
    }
}

/// Reads the config and the files, plays or replays, and writes the text of the run and nothing else. Nothing is
/// written before the text is whole; where it is, it is flushed.
///
/// # Errors
/// The first fault in this order: the config, the number of files, each file read in order, what they say in order, the
/// play or the replay, the writing. After `Write` a front of the text went out, after any other fault nothing. `Read(n)` comes
/// just where a read of file n failed, with 0 for the config, and `Write` just where a write or the flush failed.
pub fn run<T: Threads + Wait + Sync, R: Source, W: Target>(
    rt: &T,
    alloc: Global,
    job: Job,
    config: &mut R,
    files: &mut [R],
    out: &mut W,
) -> Result<(), RunFault>
    ensures done { OnOk result (WhereKnown R.remaining job config.old files.old
        (λ said. Wrote job said (W.contents out.old) (W.contents out.new))) }
    ensures fault { IfErr result (λ e. e ≢ RunFault.Write
        → WhereKnown R.remaining job config.old files.old (λ said. GivesRun job said (Err e))) }
    ensures device { NamesAFile (length files.old) result }
    ensures nothing { IfErr result (λ e.
        e ≢ RunFault.Write → Keeps (W.contents out.old) (W.contents out.new)) }
    ensures front { result ≡ Err RunFault.Write
        → WhereKnown R.remaining job config.old files.old
        (λ said. WroteFront job said (W.contents out.old) (W.contents out.new)) }
    ensures reads { OnOk result (ReadToEnd R.remaining job config.old config.new files.old files.new
        (λ said. Wrote job said (W.contents out.old) (W.contents out.new))) }
    ensures stops { IfErr result (RunStops R.remaining job config.old config.new files.old files.new
        (W.contents out.old) (W.contents out.new)) }
    ensures tells_config { TellsConfig R.failed R.sound config.old config.new (fault_in result) }
    ensures tells_reads { TellsReads R.failed R.sound files.old files.new (fault_in result) }
    ensures tells_writes { TellsWrites W.failed W.sound out.old out.new (fault_in result) }
    ensures flushed { OnOk result (W.flushed out.new) }
{
    let made = run_text(rt, alloc, job, config, files);
    written(out, made)
}

/// How a run ended, and what is to be told of it.
#[derive(Drop)]
pub enum Outcome {
    /// The whole text was written, and the status is this.
    Done { status: u8 },
    /// The fault's line, unless there was no memory for it, which a fixed one doesn't take, and its status.
    Fault { told: Option<FaultLine>, status: u8 },
}

impl Outcome {
    /// How a run ends by this fault.
    pub fn of(alloc: Global, fault: &RunFault) -> Outcome
        ensures { Tells fault.now result }
    {
        Outcome::Fault {
            told: fault_text(alloc, fault).ok(),
            status: status(fault),
        }
    }
}

/// Runs, and says how it ended: with the whole text written and status 0, or with the line and the status of the run's
/// fault.
pub fn run_and_tell<T: Threads + Wait + Sync, R: Source, W: Target>(
    rt: &T,
    alloc: Global,
    job: Job,
    config: &mut R,
    files: &mut [R],
    out: &mut W,
) -> Outcome
    ensures status { DoneOf (λ status. status ≡ 0) result }
    ensures done { DoneOf (λ _. WhereKnown R.remaining job config.old files.old
        (λ said. Wrote job said (W.contents out.old) (W.contents out.new))) result }
    ensures reads { DoneOf (λ _. ReadToEnd R.remaining job config.old config.new files.old files.new
        (λ said. Wrote job said (W.contents out.old) (W.contents out.new))) result }
    ensures fault { EndsOf (λ came. IfSome came (λ fault.
        IsFaultOf R.remaining job config.old files.old (W.contents out.old) (W.contents out.new) fault
        × RunStops R.remaining job config.old config.new files.old files.new
        (W.contents out.old) (W.contents out.new) fault)
        × TellsConfig R.failed R.sound config.old config.new came
        × TellsReads R.failed R.sound files.old files.new came
        × TellsWrites W.failed W.sound out.old out.new came) result }
    ensures flushed { DoneOf (λ _. W.flushed out.new) result }
{
    match run(rt, alloc, job, config, files, out) {
        Ok(()) => Outcome::Done { status: 0 },
        Err(fault) => Outcome::of(alloc, &fault),
    }
}
