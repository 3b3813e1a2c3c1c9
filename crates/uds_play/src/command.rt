//! The words of the command line.

ghost use Rattle.std.specs.Prelude.{◌≡◌};
ghost use Rattle.uds_play.specs.declared.command.Refusal.TheVariants.{Memory};

use crate::help;
use clap::error::ErrorKind;
use clap::{Arg, ArgAction, ArgMatches, Command, Error};
use diag_can::Timing;
use diag_run::Job;
use std::alloc::{AllocError, Global};

/// What `--version` prints behind the program's name.
const VERSION: &str = "0.2.0";

/// The line that tells of words which the program doesn't take.
pub const USAGE: &str =
    "uds_play: usage: uds_play COMMAND [FLAG..] CONFIG [FILE..]; see uds_play --help";

/// What the words ask for.
#[derive(Drop)]
pub struct Request<'a> {
    /// The path of the setup.
    pub config: &'a str,
    /// Whether notes are left out.
    pub quiet: bool,
    /// What to do, and over what.
    pub task: Task<'a>,
}

/// What to do, and over what.
#[derive(Drop)]
pub enum Task<'a> {
    /// A job over the logs, in the testers' order, or over the journal, by their paths.
    Files {
        job: Job,
        paths: Vec<&'a str>,
    },
    /// To write this over a capture by its path; over standard input where there is none. With a name only the frames of this
    /// interface count.
    Bus {
        output: Output,
        capture: Option<&'a str>,
        interface: Option<&'a str>,
    },
    /// To tell all that is wrong with the setup.
    Check,
    /// To serve the bus that comes by standard input, or its interface of this name, and to keep its capture in a new file of
    /// this path.
    Live {
        record: Option<&'a str>,
        interface: Option<&'a str>,
    },
}

/// What is written over a capture.
#[derive(Clone, Copy)]
pub enum Output {
    /// The reply lines.
    Replies,
    /// The journal of the run.
    Journal,
    /// The end of the run.
    End,
    /// The verdict on the unit's own frames.
    Verdict,
    /// A line for each exchange; with `differences` those that agree are left out.
    Exchanges { differences: bool },
}

impl Output {
    /// Whether nothing is written before the end of the capture.
    pub fn is_last(self) -> bool {
        matches!(self, Output::End | Output::Verdict)
    }
}

/// Why nothing is run.
#[derive(Drop)]
pub enum Refusal {
    /// `--help` or `--version`, with clap's text.
    Told(String),
    /// Words that clap doesn't take, with its text.
    Usage(String),
    Memory,
}

impl From<AllocError> for Refusal {
    ghost from_gives = { λ _ e. e ≡ Memory };

    fn from(_e: AllocError) -> Refusal {
        Refusal::Memory
    }
}

/// The config, which comes first.
fn config_arg<'a>(alloc: Global) -> Arg<'a> {
    Arg::new(alloc, "CONFIG")
        .help("The setup of the ECU and its testers, in TOML")
        .required(true)
        .action(ArgAction::Set)
}

/// The files behind the config, any number of them.
fn files_arg<'a>(alloc: Global, help: &'a str) -> Arg<'a> {
    Arg::new(alloc, "FILE")
        .help(help)
        .num_args(0..)
        .action(ArgAction::Append)
}

fn flag<'a>(alloc: Global, name: &'a str, help: &'a str) -> Arg<'a> {
    Arg::new(alloc, name)
        .long(name)
        .help(help)
        .action(ArgAction::SetTrue)
}

/// The flag that leaves out notes, before or behind a command.
fn quiet_flag<'a>(alloc: Global) -> Arg<'a> {
    flag(alloc, "quiet", "Leave out notes").global(true)
}

/// A command with a config, and what is said of it behind its options.
fn job_command<'a>(
    alloc: Global,
    name: &'a str,
    about: &'a str,
    sections: &'a str,
) -> Result<Command<'a>, AllocError> {
    Command::new(alloc, name)
        .about(about)
        .after_help(sections)
        .arg(config_arg(alloc))
}

/// The command that looks at a setup alone.
fn check_command<'a>(alloc: Global) -> Result<Command<'a>, AllocError> {
    let about = "Tell all that is wrong with a setup, each with its place";
    job_command(alloc, "check", about, help::CHECK)
}

/// A command that plays a log of each tester, with its flags.
fn play_command<'a>(
    alloc: Global,
    name: &'a str,
    about: &'a str,
    sections: &'a str,
) -> Result<Command<'a>, AllocError> {
    let logs = "A log of each tester, in the order of the setup";
    let stamps = "Take the time from the stamps of the log lines";
    job_command(alloc, name, about, sections)?
        .arg(files_arg(alloc, logs))?
        .arg(flag(alloc, "journal", "Print the journal alone"))?
        .arg(flag(alloc, "stamps", stamps))
}

/// The command that replays a journal.
fn replay_command<'a>(alloc: Global) -> Result<Command<'a>, AllocError> {
    let journal = files_arg(alloc, "The journal of a play").value_name("JOURNAL");
    job_command(alloc, "replay", "Replay a journal", help::REPLAY)?.arg(journal)
}

/// The capture behind the config, at most one.
fn capture_arg<'a>(alloc: Global) -> Arg<'a> {
    Arg::new(alloc, "CAPTURE")
        .help("The recording of the bus; - or nothing is standard input")
        .action(ArgAction::Set)
}

/// Whose frames count.
fn interface_arg<'a>(alloc: Global) -> Arg<'a> {
    Arg::new(alloc, "interface")
        .long("interface")
        .value_name("NAME")
        .help("Take the frames of this interface alone")
        .action(ArgAction::Set)
}

/// A command over the recording of a bus.
fn capture_command<'a>(
    alloc: Global,
    name: &'a str,
    about: &'a str,
    sections: &'a str,
) -> Result<Command<'a>, AllocError> {
    job_command(alloc, name, about, sections)?
        .arg(capture_arg(alloc))?
        .arg(interface_arg(alloc))
}

/// The command that answers the recording of a bus, with its flags.
fn bus_command<'a>(alloc: Global) -> Result<Command<'a>, AllocError> {
    let about = "Answer the recording of a whole bus, as it comes";
    let end = flag(alloc, "end", "Print the end alone").conflicts_with("journal")?;
    capture_command(alloc, "bus", about, help::BUS)?
        .arg(flag(alloc, "journal", "Print the journal alone"))?
        .arg(end)
}

/// The command that judges the recording of a bus.
fn verify_command<'a>(alloc: Global) -> Result<Command<'a>, AllocError> {
    let about = "Say whether the unit in a recording answered as the server";
    capture_command(alloc, "verify", about, help::VERIFY)
}

/// The command that tells of each exchange in the recording of a bus, with its flag.
fn compare_command<'a>(alloc: Global) -> Result<Command<'a>, AllocError> {
    let about = "Tell of each request in a recording what the unit answered";
    let differences = "Leave out the exchanges that agree or are ignored";
    capture_command(alloc, "compare", about, help::COMPARE)?.arg(flag(
        alloc,
        "differences",
        differences,
    ))
}

/// The command that serves a bus as it goes.
fn live_command<'a>(alloc: Global) -> Result<Command<'a>, AllocError> {
    let about = "Serve the bus that comes by standard input, in the time of the clock";
    let record = Arg::new(alloc, "record")
        .long("record")
        .value_name("FILE")
        .help("Keep the capture in this file, a new one")
        .action(ArgAction::Set);
    job_command(alloc, "live", about, help::LIVE)?
        .arg(interface_arg(alloc))?
        .arg(record)
}

fn whole_command<'a>(alloc: Global) -> Result<Command<'a>, AllocError> {
    Command::new(alloc, "uds_play")
        .version(VERSION)
        .about(
            "The diagnostic server of an ECU, for recordings, logs and live buses;{n}without a command it plays an example",
        )
        .disable_help_subcommand(true)
        .after_help(help::PROGRAM)
        .subcommand_required(true)
        .arg(quiet_flag(alloc))?
        .subcommand(check_command(alloc)?)?
        .subcommand(bus_command(alloc)?)?
        .subcommand(verify_command(alloc)?)?
        .subcommand(compare_command(alloc)?)?
        .subcommand(live_command(alloc)?)?
        .subcommand(play_command(
            alloc,
            "serial",
            "Play one log a tester, one event of each in turn",
            help::SERIAL,
        )?)?
        .subcommand(play_command(
            alloc,
            "play",
            "Play one log a tester, each in a thread of its own",
            help::PLAY,
        )?)?
        .subcommand(replay_command(alloc)?)
}

fn refusal_of(alloc: Global, error: &Error) -> Refusal {
    match error.kind() {
        ErrorKind::OutOfMemory => Refusal::Memory,
        ErrorKind::DisplayHelp | ErrorKind::DisplayVersion => match error.to_string(alloc) {
            Ok(text) => Refusal::Told(text),
            Err(_) => Refusal::Memory,
        },
        _ => match error.to_string(alloc) {
            Ok(text) => Refusal::Usage(text),
            Err(_) => Refusal::Memory,
        },
    }
}

/// What carries the time of a play.
fn timing_of(flags: &ArgMatches<'_>) -> Timing {
    if flags.get_flag("stamps") {
        Timing::Stamps
    } else {
        Timing::Lines
    }
}

/// What a command does with its files.
fn job_of(name: &str, flags: &ArgMatches<'_>) -> Job {
    match name {
        "replay" => Job::Replay,
        "play" => Job::Play {
            only_journal: flags.get_flag("journal"),
            timing: timing_of(flags),
        },
        _ => Job::Serial {
            only_journal: flags.get_flag("journal"),
            timing: timing_of(flags),
        },
    }
}

/// What is written while a capture goes by.
fn output_of(flags: &ArgMatches<'_>) -> Output {
    if flags.get_flag("journal") {
        Output::Journal
    } else if flags.get_flag("end") {
        Output::End
    } else {
        Output::Replies
    }
}

/// The capture, by its path; none where it is standard input.
fn capture_of<'a>(words: &ArgMatches<'a>) -> Option<&'a str> {
    match words.get_str("CAPTURE") {
        Some("-") => None,
        path => path,
    }
}

/// What a command does, and over what.
fn task_of<'a>(alloc: Global, name: &str, words: &ArgMatches<'a>) -> Result<Task<'a>, AllocError> {
    let output = match name {
        "bus" => output_of(words),
        "verify" => Output::Verdict,
        "compare" => Output::Exchanges {
            differences: words.get_flag("differences"),
        },
        "check" => return Ok(Task::Check),
        "live" => {
            let record = words.get_str("record");
            let interface = words.get_str("interface");
            return Ok(Task::Live { record, interface });
        }
        _ => return files_of(alloc, name, words),
    };
    let capture = capture_of(words);
    let interface = words.get_str("interface");
    Ok(Task::Bus {
        output,
        capture,
        interface,
    })
}

/// A job, and its files.
fn files_of<'a>(alloc: Global, name: &str, words: &ArgMatches<'a>) -> Result<Task<'a>, AllocError> {
    let job = job_of(name, words);
    let mut paths = Vec::new(alloc);
    paths.extend_from_slice(words.get_strs("FILE").unwrap_or(&[]))?;
    Ok(Task::Files { job, paths })
}

/// Whether the flag that leaves out notes stands before the command and behind it, each of which clap takes.
fn is_quiet_twice(words: &[String]) -> bool {
    let flags = words.iter().take_while(|word| word.as_str() != "--");
    flags.filter(|word| word.as_str() == "--quiet").count() > 1
}

/// What the words ask for, or why they are refused.
pub fn read_words<'a>(alloc: Global, words: &'a [String]) -> Result<Request<'a>, Refusal> {
    let matches = match whole_command(alloc)?.try_get_matches_from(words) {
        Ok(matches) => matches,
        Err(error) => return Err(refusal_of(alloc, &error)),
    };
    let Some((name, inner)) = matches.subcommand() else {
        return Err(Refusal::Usage(String::new(alloc)));
    };
    let Some(config) = inner.get_str("CONFIG") else {
        return Err(Refusal::Usage(String::new(alloc)));
    };
    if is_quiet_twice(words) {
        return Err(Refusal::Usage(String::new(alloc)));
    }
    let task = task_of(alloc, name, inner)?;
    let quiet = inner.get_flag("quiet") || matches.get_flag("quiet");
    Ok(Request {
        config,
        quiet,
        task,
    })
}
