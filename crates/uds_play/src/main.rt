//! The program: words, files, one run, a status.
#![tactic(auto)]

ghost use Rattle.std.specs.Prelude.{◌≡◌, [], ◌∷◌, ℕ, List, map, false, IfOk, IfSome, Some, Ok};
ghost use Rattle.std.specs.List.{concat};
ghost use Rattle.diag_stored.specs.declared.TheConstants.{
  CONFIG as TheConfig,
  LOG_A as TheLogA,
  LOG_B as TheLogB,
};
ghost use Rattle.diag_run.specs.Files.{AreKnown};
ghost use Rattle.diag_live.specs.Devices.{TellsBothWrites, TellsHearing};
ghost use Rattle.diag_live.specs.Pace.{KeepsPace};
ghost use Rattle.diag_live.specs.Stops.{Lived, Stopped};
ghost use Rattle.diag_run.specs.Run.{DoneOf, EndsOf, GivesRun, read_of};

mod answer;
mod command;
mod flow_lines;
mod help;
mod last;
mod notes;
mod pace;
mod progress;
mod source;
mod standard;

use command::{Output, Refusal, Request, Task, USAGE, read_words};
use crossbeam_channel::bounded;
use diag_bus::{Comparisons, Journal, NoText, Replies};
use diag_can::Timing;
use diag_check::check;
use diag_comparing::ExchangeLines;
use diag_interface::Chosen;
use diag_live::{Bench, live};
use diag_run::{Ending, Job, Outcome, read_config, run_bus_and_tell, run_text};
use diag_setup::Setup;
use diag_stored::{CONFIG, LOG_A, LOG_B};
use diag_text::{ReadFault, RunFault, Target, read_whole, write_text, write_whole};
use last::Known;
use notes::{FileKind, Notes, note, note_usage};
use progress::Progress;
use source::Source;
use standard::{Hearing, PIECES, Record, StandardBench, read_all};
use std::alloc::{AllocError, Global};
use std::env::{Env, FillError};
use std::io::{ErrorKind, IsTerminal, Read, Write};
use std::process::ExitCode;
use std::rt::{Clock, Files};
use std::sync::Wait;
use std::thread::Threads;
use std::{env, fs, io, thread};

/// The most bytes of a setup.
const MOST_SETUP: usize = 1_048_576;

fn main(rt: HostRuntime) -> ExitCode {
    match env::args(&rt) {
        Err(e) if e.kind() == ErrorKind::OutOfMemory => refuse(&rt, &Refusal::Memory),
        Err(_) => refuse_raw(&rt),
        Ok(words) => match words.collect::<Vec<String>>(rt.alloc()) {
            Err(AllocError) => refuse(&rt, &Refusal::Memory),
            Ok(words) => {
                // A thread that nobody waits for owns its runtime, and only `main` has more of it than a reference: so it
                // starts here, by the command's name alone, before the words are read. It reads once it is told whose frames
                // count; where the words are refused it ends with the program.
                let hearing = if is_live(words.as_slice()) {
                    let (Ok((to, pieces)), Ok((begin, begun)), Ok((first_to, first))) = (
                        bounded(rt.alloc(), PIECES),
                        bounded(rt.alloc(), 1),
                        bounded(rt.alloc(), 1),
                    ) else {
                        return refuse(&rt, &Refusal::Memory);
                    };
                    let read = move || read_all(&rt, rt.alloc(), &begun, &to, &first_to);
                    if thread::spawn(&rt, read).is_err() {
                        return refuse(&rt, &Refusal::Memory);
                    }
                    Some(Hearing {
                        begin,
                        pieces,
                        first,
                    })
                } else {
                    None
                };
                let screen = Screen {
                    is_told: rt.stderr().is_terminal(),
                    is_written: rt.stdout().is_terminal(),
                };
                run_words(&rt, words.as_slice(), hearing, screen)
            }
        },
    }
}

/// Whether the words name the command that hears standard input in a thread of its own.
fn is_live(words: &[String]) -> bool {
    command_of(words) == "live"
}

/// The word that names the command; an empty one where there is none.
fn command_of(words: &[String]) -> &str {
    let mut behind = words.iter().skip(1);
    behind
        .find(|word| word.as_str() != "--quiet")
        .map_or("", |word| word.as_str())
}

/// Whether notes are left out, as far as words tell that clap doesn't take.
fn is_quiet(words: &[String]) -> bool {
    words.iter().any(|word| word.as_str() == "--quiet")
}

/// Prints why the words were refused, and says the status.
fn refuse(rt: &(impl Print + Eprint), refusal: &Refusal) -> ExitCode {
    match refusal {
        Refusal::Told(text) => match rt.print(text) {
            Ok(()) => ExitCode::SUCCESS,
            Err(_) => refuse_write(rt),
        },
        Refusal::Usage(_) => {
            let _ = eprintln!(rt; "{USAGE}");
            ExitCode::from(1)
        }
        Refusal::Memory => {
            let _ = eprintln!(rt; "uds_play: memory");
            ExitCode::from(4)
        }
    }
}

/// Prints that the words were refused, of which one isn't UTF-8, and says the status.
fn refuse_raw(rt: &(impl Print + Eprint + Env + AllocGlobal)) -> ExitCode {
    let status = refuse(rt, &Refusal::Usage(String::new(rt.alloc())));
    if !is_quiet_raw(rt) {
        note(rt, "a word on the command line isn't UTF-8");
    }
    status
}

/// Whether notes are left out, by words of which one isn't UTF-8.
fn is_quiet_raw(rt: &impl Env) -> bool {
    let mut word = [0u8; 8];
    for number in 1..usize::MAX {
        match rt.arg(number, &mut word) {
            Ok(count) if word.get(..count) == Some(b"--quiet".as_slice()) => return true,
            Err(FillError::NotPresent) => return false,
            Ok(_) | Err(FillError::TooLong) => {}
        }
    }
    false
}

/// Where a terminal shows what is written.
#[derive(Clone, Copy)]
struct Screen {
    /// Standard error is one.
    is_told: bool,
    /// Standard output is one.
    is_written: bool,
}

impl Screen {
    /// Whether a line that shows how far a run is stands by itself: in what is written as the run goes it wouldn't.
    fn shows_progress(self, output: Output) -> bool {
        self.is_told && (output.is_last() || !self.is_written)
    }
}

/// A file of a run, or standard input.
type RunSource<'a, R> = Source<'a, <R as Files>::File, <R as Input>::Reader>;

fn run_words<R: Print + Eprint + Files + Input + AllocGlobal + Clock + Threads + Wait + Sync>(
    rt: &R,
    words: &[String],
    hearing: Option<Hearing>,
    screen: Screen,
) -> ExitCode {
    if words.len() < 2 {
        return run_stored(rt);
    }
    match read_words(rt.alloc(), words) {
        Ok(
            Request {
                config,
                quiet,
                task,
            },
        ) => match task {
            Task::Files { job, paths } => over_files(rt, quiet, config, job, paths.as_slice()),
            Task::Bus {
                output,
                capture,
                interface,
            } => over_capture(rt, quiet, config, output, capture, interface, screen),
            Task::Check => over_setup(rt, quiet, config),
            Task::Live { record, interface } => match hearing {
                Some(hearing) => over_bus(rt, quiet, config, hearing, record, interface),
                None => refuse(rt, &Refusal::Usage(String::new(rt.alloc()))),
            },
        },
        Err(refusal) => {
            let status = refuse(rt, &refusal);
            if let Refusal::Usage(text) = &refusal {
                if !is_quiet(words) {
                    note_usage(rt, text.as_str(), command_of(words));
                }
            }
            status
        }
    }
}

/// A job over logs or a journal.
fn over_files<'a, R: Print + Eprint + Files + Input + AllocGlobal + Threads + Wait + Sync>(
    rt: &R,
    quiet: bool,
    config: &'a str,
    job: Job,
    files: &'a [&'a str],
) -> ExitCode {
    let interface = None;
    let notes = Notes {
        quiet,
        interface,
        config,
        files,
        kind: kind_of(job),
    };
    run_files(rt, job, &notes)
}

/// A run over a capture.
fn over_capture<R: Print + Eprint + Files + Input + AllocGlobal + Clock + Threads + Sync>(
    rt: &R,
    quiet: bool,
    config: &str,
    output: Output,
    capture: Option<&str>,
    interface: Option<&str>,
    screen: Screen,
) -> ExitCode {
    let path = [capture.unwrap_or("")];
    let notes = Notes {
        quiet,
        interface,
        config,
        files: given(capture, &path),
        kind: FileKind::Capture,
    };
    run_bus(rt, output, capture, &notes, screen)
}

/// The look at a setup.
fn over_setup<'a, R: Print + Eprint + Files + Input + AllocGlobal>(
    rt: &R,
    quiet: bool,
    config: &'a str,
) -> ExitCode {
    let interface: Option<&'a str> = None;
    let notes = Notes {
        quiet,
        interface,
        config,
        files: &[],
        kind: FileKind::Journal,
    };
    run_check(rt, &notes)
}

/// A live run.
fn over_bus<R: Print + Eprint + Files + Input + AllocGlobal + Clock + Wait>(
    rt: &R,
    quiet: bool,
    config: &str,
    hearing: Hearing,
    record: Option<&str>,
    interface: Option<&str>,
) -> ExitCode {
    let path = [record.unwrap_or("")];
    let notes = Notes {
        quiet,
        interface,
        config,
        files: given(record, &path),
        kind: FileKind::Record,
    };
    run_live(rt, record, hearing, &notes)
}

/// What the files of a job are.
fn kind_of(job: Job) -> FileKind {
    match job {
        Job::Serial { .. } | Job::Play { .. } => FileKind::Logs,
        Job::Replay => FileKind::Journal,
    }
}

/// A path where it is given.
fn given<'a>(path: Option<&str>, paths: &'a [&'a str]) -> &'a [&'a str] {
    match path {
        Some(_) => paths,
        None => &[],
    }
}

/// Prints the line of a run's fault, and the notes behind the run, and says the status.
fn finish<R: Eprint + Files + AllocGlobal>(
    rt: &R,
    notes: &Notes<'_>,
    outcome: &Outcome,
    known: Known<'_>,
) -> ExitCode {
    let status = tell(rt, outcome);
    notes.behind(rt, outcome, known);
    status
}

/// The look at a setup alone.
fn run_check<R: Print + Eprint + Files + Input + AllocGlobal>(
    rt: &R,
    notes: &Notes<'_>,
) -> ExitCode {
    let Ok(mut config) = open(rt, notes.config) else {
        return refuse(rt, &Refusal::Memory);
    };
    let (text, status) = match look_at(rt.alloc(), &mut config) {
        Ok(told) => told,
        Err(outcome) => return finish(rt, notes, &outcome, Known::NOTHING),
    };
    match write_text(&mut io::writer(rt), text.as_slice()) {
        Ok(()) => ExitCode::from(status),
        Err(_) => tell(rt, &Outcome::of(rt.alloc(), &RunFault::Write)),
    }
}

/// What is told of a config, and the status, or how the look at it ends.
fn look_at<C: Read>(alloc: Global, config: &mut C) -> Result<(Vec<u8>, u8), Outcome> {
    match check_config(alloc, config) {
        Ok(told) => Ok(told),
        Err(fault) => Err(Outcome::of(alloc, &fault)),
    }
}

/// What is told of a config, and the status: 2 where a run would refuse it.
fn check_config<C: Read>(alloc: Global, config: &mut C) -> Result<(Vec<u8>, u8), RunFault> {
    let text = match read_whole(alloc, config, MOST_SETUP) {
        Ok(text) => text,
        Err(ReadFault::Long) => {
            let told = Vec::from_slice(alloc, b"too long: a setup has at most 1048576 bytes\n")?;
            return Ok((told, 2));
        }
        Err(ReadFault::Memory) => return Err(RunFault::Memory),
        Err(ReadFault::Device) => return Err(RunFault::Read(0)),
    };
    let report = check(alloc, text.as_slice())?;
    let status = if report.faults.is_empty() { 0 } else { 2 };
    Ok((report.text(alloc)?, status))
}

/// The run of the program's own config and logs.
fn run_stored<R: Print + Eprint + AllocGlobal + Threads + Wait + Sync>(rt: &R) -> ExitCode {
    tell(rt, &print_text(rt, stored_text(rt, rt.alloc())))
}

/// The text of a serial play of the program's own config and logs, in parts.
fn stored_text<T: Threads + Wait + Sync>(rt: &T, alloc: Global) -> Result<Vec<Vec<u8>>, Outcome>
    ensures { IfOk result (λ parts. GivesRun (Job.Serial false Timing.Lines)
        (read_of (Job.Serial false Timing.Lines) TheConfig.now (TheLogA.now ∷ TheLogB.now ∷ []))
        (Ok (concat (map (λ part. part.items) parts.items)))) }
{
    let job = Job::Serial {
        only_journal: false,
        timing: Timing::Lines,
    };
    let mut config = CONFIG.as_bytes();
    let mut logs = [LOG_A.as_bytes(), LOG_B.as_bytes()];
    text_of(rt, alloc, job, &mut config, &mut logs)
}

/// The run of a job over its files.
fn run_files<R: Print + Eprint + Files + Input + AllocGlobal + Threads + Wait + Sync>(
    rt: &R,
    job: Job,
    notes: &Notes<'_>,
) -> ExitCode {
    notes.before(rt);
    match open_all(rt, notes.config, notes.files) {
        Ok((config, files)) => finish(rt, notes, &run_job(rt, job, config, files), Known::NOTHING),
        Err(AllocError) => refuse(rt, &Refusal::Memory),
    }
}

/// The run over a capture, for what is to be written of it.
fn run_bus<R: Print + Eprint + Files + Input + AllocGlobal + Clock + Threads + Sync>(
    rt: &R,
    output: Output,
    capture: Option<&str>,
    notes: &Notes<'_>,
    screen: Screen,
) -> ExitCode {
    let alloc = rt.alloc();
    let size = if screen.shows_progress(output) && !notes.quiet {
        size_of(rt, capture)
    } else {
        None
    };
    match output {
        Output::Replies => run_capture(rt, Replies::new(alloc), capture, notes, size),
        Output::Journal => run_capture(rt, Journal::new(alloc), capture, notes, size),
        Output::End => run_capture(rt, NoText, capture, notes, size),
        Output::Verdict => run_capture(rt, Comparisons::new(alloc), capture, notes, size),
        Output::Exchanges { differences } => {
            let lines = ExchangeLines::new(alloc, differences);
            run_capture(rt, lines, capture, notes, size)
        }
    }
}

/// How many bytes a capture has, where it is a regular file.
fn size_of(rt: &impl Files, capture: Option<&str>) -> Option<u64> {
    match fs::metadata(rt, capture?) {
        Ok(found) if found.is_file() => Some(found.len()),
        _ => None,
    }
}

/// The run over a capture: the file at its path, or standard input. Of a file of a size it is shown how far it is.
fn run_capture<S: Ending, R: Print + Eprint + Files + Input + AllocGlobal + Clock + Threads + Sync>(
    rt: &R,
    sink: S,
    capture: Option<&str>,
    notes: &Notes<'_>,
    size: Option<u64>,
) -> ExitCode {
    notes.before(rt);
    let mut first = Vec::new(rt.alloc());
    let progress = Progress::new();
    let watch: Option<&Progress> = match size {
        Some(_) => Some(&progress),
        None => None,
    };
    let (Ok(config), Ok(capture)) = (
        open(rt, notes.config),
        open_capture(rt, capture, &mut first, watch),
    ) else {
        return refuse(rt, &Refusal::Memory);
    };
    let name = notes.interface.map(|name| name.as_bytes());
    let mut out = io::writer(rt);
    let outcome = match size {
        Some(size) => { outcome_shown(rt, &progress, size, sink, config, capture, name, &mut out) }
        None => outcome_of(rt.alloc(), sink, config, capture, name, &mut out),
    };
    match outcome {
        Ok(outcome) => finish(rt, notes, &outcome, Known::first(first.as_slice())),
        Err(AllocError) => refuse(rt, &Refusal::Memory),
    }
}

/// The outcome of the run over a capture, of which the frames of one interface count where one is named.
fn outcome_of<S: Ending, F: Read + Drop, W: Write>(
    alloc: Global,
    sink: S,
    config: F,
    capture: F,
    interface: Option<&[u8]>,
    out: &mut W,
) -> Result<Outcome, AllocError> {
    let mut config = Chosen::new(alloc, config, None)?;
    let mut capture = Chosen::new(alloc, capture, interface)?;
    Ok(run_bus_and_tell(alloc, sink, &mut config, &mut capture, out))
}

/// The same, while a thread shows how far the reading of a file of this size is.
fn outcome_shown<
    R: Eprint + AllocGlobal + Clock + Threads + Sync,
    S: Ending,
    F: Read + Drop,
    W: Write,
>(
    rt: &R,
    progress: &Progress,
    size: u64,
    sink: S,
    config: F,
    capture: F,
    interface: Option<&[u8]>,
    out: &mut W,
) -> Result<Outcome, AllocError> {
    let (_, outcome) = thread::join(
        rt,
        || progress.show(rt, size),
        || {
            let outcome = outcome_of(rt.alloc(), sink, config, capture, interface, out);
            progress.end();
            outcome
        },
    );
    outcome
}

/// The live run of a bus: the record is made once the config was read well, and then standard input is heard.
fn run_live<R: Print + Eprint + Files + Input + AllocGlobal + Clock + Wait>(
    rt: &R,
    record: Option<&str>,
    hearing: Hearing,
    notes: &Notes<'_>,
) -> ExitCode {
    notes.before(rt);
    let Ok(mut config) = open(rt, notes.config) else {
        return refuse(rt, &Refusal::Memory);
    };
    let setup = match setup_of(rt.alloc(), &mut config) {
        Ok(setup) => setup,
        Err(outcome) => return finish(rt, notes, &outcome, Known::NOTHING),
    };
    let mut record = match Record::create(rt, record) {
        Ok(record) => record,
        Err(e) => {
            let status = refuse_record(rt, e.kind());
            notes.no_record(rt, &e);
            return status;
        }
    };
    serve_input(rt, setup, hearing, &mut record, notes)
}

/// Hears standard input and serves it with this setup, up to its end.
fn serve_input<R: Print + Eprint + Files + Input + AllocGlobal + Clock + Wait, F: Write>(
    rt: &R,
    setup: Setup,
    hearing: Hearing,
    record: &mut F,
    notes: &Notes<'_>,
) -> ExitCode {
    let Ok((pieces, first)) = hearing.begin(rt, rt.alloc(), notes.interface) else {
        return refuse(rt, &Refusal::Memory);
    };
    let mut bench = match StandardBench::start(rt, rt.alloc(), &setup, pieces) {
        Ok(bench) => bench,
        Err(e) => return refuse_clock(rt, e.kind()),
    };
    let mut out = io::writer(rt);
    let outcome = serve(rt.alloc(), setup, &mut bench, &mut out, record);
    let heard = bench.known();
    match first.try_recv(rt) {
        Ok(first) => {
            let known = Known {
                first: first.as_slice(),
                ..heard
            };
            finish(rt, notes, &outcome, known)
        }
        Err(_) => finish(rt, notes, &outcome, heard),
    }
}

/// The setup of a config, or how the run ends without one.
fn setup_of<C: Read>(alloc: Global, config: &mut C) -> Result<Setup, Outcome> {
    match read_config(alloc, config) {
        Ok(setup) => Ok(setup),
        Err(fault) => Err(Outcome::of(alloc, &fault)),
    }
}

/// Serves a bus until its input ends, and says how it ended.
fn serve<B: Bench, W: Target, F: Target>(
    alloc: Global,
    setup: Setup,
    bench: &mut B,
    out: &mut W,
    record: &mut F,
) -> Outcome
    ensures status { DoneOf (λ status. status ≡ 0) result }
    ensures done { DoneOf (λ _. Lived (KeepsPace B.story setup bench.old bench.new) setup
        (B.remaining bench.old) (B.remaining bench.new)
        (W.contents out.old) (W.contents out.new) (F.contents record.old) (F.contents record.new)) result }
    ensures fault { EndsOf (λ came. IfSome came (Stopped setup (B.remaining bench.old) (B.remaining bench.new)
        (W.contents out.old) (W.contents out.new) (F.contents record.old) (F.contents record.new))
        × TellsHearing B.story bench.old bench.new came
        × TellsBothWrites W.failed W.sound F.failed F.sound out.old out.new record.old record.new came) result }
    ensures flushed { DoneOf (λ _. W.flushed out.new × F.flushed record.new) result }
{
    match live(alloc, setup, bench, out, record) {
        Ok(()) => Outcome::Done { status: 0 },
        Err(fault) => Outcome::of(alloc, &fault),
    }
}

/// Prints that something can't be written, and says the status.
fn refuse_write(rt: &impl Eprint) -> ExitCode {
    let _ = eprintln!(rt; "uds_play: cannot write");
    ExitCode::from(7)
}

/// Prints why there is no record, and says the status.
fn refuse_record(rt: &(impl Print + Eprint), why: ErrorKind) -> ExitCode {
    match why {
        ErrorKind::OutOfMemory => refuse(rt, &Refusal::Memory),
        ErrorKind::AlreadyExists => {
            let _ = eprintln!(rt; "uds_play: record exists");
            ExitCode::from(7)
        }
        _ => refuse_write(rt),
    }
}

/// Prints that the time of the input can't be read, and says the status.
fn refuse_clock(rt: &(impl Print + Eprint + AllocGlobal), why: ErrorKind) -> ExitCode {
    match why {
        ErrorKind::OutOfMemory => refuse(rt, &Refusal::Memory),
        _ => tell(rt, &Outcome::of(rt.alloc(), &RunFault::Read(1))),
    }
}

/// The file at a path, or a source whose first read fails.
fn open<'a, R: Files + Input>(rt: &R, path: &str) -> Result<RunSource<'a, R>, AllocError> {
    match fs::open(rt, path) {
        Ok(file) => Ok(Source::Opened(file)),
        Err(e) if e.kind() == ErrorKind::OutOfMemory => Err(AllocError),
        Err(_) => Ok(Source::Unopened),
    }
}

/// The capture at a path, whose reading is watched where that is wanted; standard input where there is none, whose first bytes
/// are kept.
fn open_capture<'a, R: Files + Input>(
    rt: &R,
    path: Option<&str>,
    first: &'a mut Vec<u8>,
    watch: Option<&'a Progress>,
) -> Result<RunSource<'a, R>, AllocError> {
    match path {
        Some(path) => Ok(open(rt, path)?.watched(watch)),
        None => Ok(Source::Standard(rt.reader(), first)),
    }
}

type Sources<'a, R> = (RunSource<'a, R>, Vec<RunSource<'a, R>>);

fn open_all<'a, R: Files + Input + AllocGlobal>(
    rt: &R,
    config: &str,
    paths: &[&str],
) -> Result<Sources<'a, R>, AllocError> {
    let config = open(rt, config)?;
    let mut files = Vec::new(rt.alloc());
    for path in paths {
        files.push(open(rt, path)?)?;
    }
    Ok((config, files))
}

/// Makes the whole text of a run, then writes it, and says how the run ended.
fn run_job<'a, R: Print + Files + Input + AllocGlobal + Threads + Wait + Sync>(
    rt: &R,
    job: Job,
    mut config: RunSource<'a, R>,
    mut files: Vec<RunSource<'a, R>>,
) -> Outcome {
    let text = text_of(rt, rt.alloc(), job, &mut config, files.as_mut_slice());
    print_text(rt, text)
}

/// The text of a run in parts, or how the run ends without one.
fn text_of<T: Threads + Wait + Sync, S: Read>(
    rt: &T,
    alloc: Global,
    job: Job,
    config: &mut S,
    files: &mut [S],
) -> Result<Vec<Vec<u8>>, Outcome>
    ensures { IfOk result (λ parts. (bytes : List ℕ) (known : List (List ℕ))
        → S.remaining config.old ≡ Some bytes
        → AreKnown S.remaining files.old known
        → GivesRun job (read_of job bytes known) (Ok (concat (map (λ part. part.items) parts.items)))) }
{
    match run_text(rt, alloc, job, config, files) {
        Ok(parts) => Ok(parts),
        Err(fault) => Err(Outcome::of(alloc, &fault)),
    }
}

/// Prints the parts of a run's text, and says how the run ended.
fn print_text(rt: &(impl Print + AllocGlobal), text: Result<Vec<Vec<u8>>, Outcome>) -> Outcome {
    let parts = match text {
        Ok(parts) => parts,
        Err(outcome) => return outcome,
    };
    match write_whole(&mut io::writer(rt), parts.as_slice()) {
        Ok(()) => Outcome::Done { status: 0 },
        Err(_) => Outcome::of(rt.alloc(), &RunFault::Write),
    }
}

/// Prints the line of a fault, and says the status.
fn tell(rt: &impl Eprint, outcome: &Outcome) -> ExitCode {
    match outcome {
        Outcome::Done { status } => ExitCode::from(*status),
        Outcome::Fault { told, status } => {
            if let Some(told) = told {
                if let Ok(line) = str::from_utf8(told.as_slice()) {
                    let _ = rt.eprint(line);
                }
            }
            ExitCode::from(*status)
        }
    }
}
