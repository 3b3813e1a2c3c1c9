//! A run that needs no thread: it takes no handle, and returns. The program makes its runs by `run_and_tell`.

ghost use Rattle.std.specs.Prelude.{◌≡◌, ◌≢◌, length, IfOk, IfErr, OnOk, Ok, Err};
ghost use Rattle.std.specs.Io.KnownBytes.{Keeps};
ghost use Rattle.diag_run.specs.Devices.{TellsConfig, TellsReads, TellsWrites, fault_in};
ghost use Rattle.diag_run.specs.Run.{NamesAFile, ReadsConfigFirst, TextStops, WhereKnown, joined, job_of, wanted, FilesGive, ReadToEnd, RunStops, GivesRun, Wrote, WroteFront, answered};

use crate::answer::{played_text, replayed_text};
use crate::file_run::{Job, read_counted, written};
use diag_can::Timing;
use diag_setup::Setup;
use diag_text::{RunFault, Source, Target};
use std::alloc::Global;

/// What a run does that needs no thread.
#[derive(Clone, Copy, Debug, PartialEq, Eq)]
pub enum Alone {
    /// As `Job::Serial`.
    Serial { only_journal: bool, timing: Timing },
    /// As `Job::Replay`.
    Replay,
}

impl Alone {
    /// The same as a job.
    fn job(self) -> Job
        ensures { result ≡ job_of self }
    {
        match self {
            Alone::Serial {
                only_journal,
                timing,
            } => Job::Serial {
                only_journal,
                timing,
            },
            Alone::Replay => Job::Replay,
        }
    }
}

/// The text that is written for the files, in parts.
fn text_alone<R: Source>(
    alloc: Global,
    job: Alone,
    setup: &Setup,
    files: &mut [R],
) -> Result<Vec<Vec<u8>>, RunFault>
    requires { wanted (job_of job) setup.now ≡ length files.old }
    ensures gives { FilesGive R.remaining (job_of job) setup.now files.old files.new (answered result) }
    ensures tells { TellsReads R.failed R.sound files.old files.new (fault_in result) }
{
    match job {
        Alone::Serial {
            only_journal,
            timing,
        } => played_text(alloc, setup, files, only_journal, timing),
        Alone::Replay => replayed_text(alloc, setup, files),
    }
}

/// The whole text of the run, in parts.
fn whole_alone<R: Source>(
    alloc: Global,
    job: Alone,
    config: &mut R,
    files: &mut [R],
) -> Result<Vec<Vec<u8>>, RunFault>
    ensures answer { WhereKnown R.remaining (job_of job) config.old files.old
        (λ said. GivesRun (job_of job) said (answered result)) }
    ensures device { NamesAFile (length files.old) result }
    ensures config { ReadsConfigFirst (R.remaining config.new) result }
    ensures reads { IfOk result (λ parts.
        ReadToEnd R.remaining (job_of job) config.old config.new files.old files.new
        (λ said. GivesRun (job_of job) said (Ok (joined parts)))) }
    ensures stops { IfErr result
        (TextStops R.remaining (job_of job) config.old config.new files.old files.new) }
    ensures tells_config { TellsConfig R.failed R.sound config.old config.new (fault_in result) }
    ensures tells_reads { TellsReads R.failed R.sound files.old files.new (fault_in result) }
{
    match read_counted(alloc, job.job(), config, files) {
        Ok(setup) => text_alone(alloc, job, &setup, files),
        Err(fault) => Err(fault),
    }
}

/// Reads the config and the files, plays on one thread or replays, and writes the text of the run and nothing else.
/// Nothing is written before the text is whole; where it is, it is flushed. It starts no thread, waits for none, and returns.
///
/// # Errors
/// As those of `run`.
pub fn run_alone<R: Source, W: Target>(
    alloc: Global,
    job: Alone,
    config: &mut R,
    files: &mut [R],
    out: &mut W,
) -> Result<(), RunFault>
    ensures done { OnOk result (WhereKnown R.remaining (job_of job) config.old files.old
        (λ said. Wrote (job_of job) said (W.contents out.old) (W.contents out.new))) }
    ensures fault { IfErr result (λ e. e ≢ RunFault.Write
        → WhereKnown R.remaining (job_of job) config.old files.old (λ said. GivesRun (job_of job) said (Err e))) }
    ensures device { NamesAFile (length files.old) result }
    ensures nothing { IfErr result (λ e.
        e ≢ RunFault.Write → Keeps (W.contents out.old) (W.contents out.new)) }
    ensures front { result ≡ Err RunFault.Write
        → WhereKnown R.remaining (job_of job) config.old files.old
        (λ said. WroteFront (job_of job) said (W.contents out.old) (W.contents out.new)) }
    ensures reads { OnOk result (ReadToEnd R.remaining (job_of job) config.old config.new files.old files.new
        (λ said. Wrote (job_of job) said (W.contents out.old) (W.contents out.new))) }
    ensures stops { IfErr result (RunStops R.remaining (job_of job) config.old config.new files.old files.new
        (W.contents out.old) (W.contents out.new)) }
    ensures tells_config { TellsConfig R.failed R.sound config.old config.new (fault_in result) }
    ensures tells_reads { TellsReads R.failed R.sound files.old files.new (fault_in result) }
    ensures tells_writes { TellsWrites W.failed W.sound out.old out.new (fault_in result) }
    ensures flushed { OnOk result (W.flushed out.new) }
{
    let made = whole_alone(alloc, job, config, files);
    written(out, made)
}
