//! Why a run could not be done, how it is told, and the status that the program ends with.

ghost use Rattle.std.specs.Prelude.{◌≡◌, ◌++◌, codes, true, IfOk, IsOk, Some};
ghost use Rattle.diag_text.specs.Faults.{config_fault, fixed_bytes, is_fixed, line_bytes, run_fault, step_fault, text_fault, run_fault_text, fault_text, status};
ghost use Rattle.diag_text.specs.declared.fault.RunFault.TheVariants.{Memory, Write};

use crate::io::WriteFault;
use diag_bus::BusFault;
use diag_can::LogFault;
use diag_config::ConfigFault;
use diag_desk::{StepFault, TextFault};
use diag_setup::TesterId;
use diag_workers::PlayFault;
use std::alloc::{AllocError, AllocFailed, Global};
use std::error::Error;
use std::fmt;

/// The first fault in the order of a run: the config, the number of files, the files in their order, what they say,
/// the play or the replay, the writing. File 0 is the config.
#[derive(Debug, PartialEq, Eq, Drop)]
pub enum RunFault {
    /// Another number of files than the setup has testers, or than the one journal of a replay.
    Files { wanted: usize, given: usize },
    /// The config says no setup.
    Config(ConfigFault),
    /// The config is longer than 1,048,576 bytes.
    ConfigLong,
    /// A tester's log is at fault.
    Log(TesterId, LogFault),
    /// The journal is at fault at the line of that number, from 1.
    JournalLine(usize),
    /// A log is longer than 67,108,864 bytes, or a journal than 268,435,456.
    FileLong(usize),
    /// Memory was refused.
    Memory,
    /// The journal has no room for another entry.
    JournalFull,
    /// A worker's record is not what the journal has of its tester.
    RecordsDisagree(TesterId),
    /// A file could not be read.
    Read(usize),
    /// The text could not be written.
    Write,
    /// The entry of that number, from 1, is the first that the replayed server does not give.
    Differs(usize),
    /// The capture's line of that number, from 1, is the first at fault.
    Capture(u64, BusFault),
    /// The unit in the recording answered otherwise than the server: what is told of the first difference, where there
    /// was memory for it.
    Otherwise(Option<Vec<u8>>),
}

impl From<AllocError> for RunFault {
    ghost from_gives = { λ _ e. e ≡ Memory };

    fn from(_e: AllocError) -> RunFault {
        RunFault::Memory
    }
}

impl<T: Drop> From<AllocFailed<T>> for RunFault {
    ghost from_gives = { λ _ e. e ≡ Memory };

    fn from(_e: AllocFailed<T>) -> RunFault {
        RunFault::Memory
    }
}

impl From<PlayFault> for RunFault {
    ghost from_gives = { λ fault e. e ≡ run_fault fault };

    fn from(fault: PlayFault) -> RunFault {
        match fault {
            PlayFault::Memory => RunFault::Memory,
            PlayFault::Log(who, fault) => RunFault::Log(who, fault),
            PlayFault::JournalFull => RunFault::JournalFull,
            PlayFault::RecordsDisagree(who) => RunFault::RecordsDisagree(who),
        }
    }
}

impl From<StepFault> for RunFault {
    ghost from_gives = { λ fault e. e ≡ step_fault fault };

    fn from(fault: StepFault) -> RunFault {
        match fault {
            StepFault::Memory => RunFault::Memory,
            StepFault::JournalFull => RunFault::JournalFull,
        }
    }
}

impl From<ConfigFault> for RunFault {
    ghost from_gives = { λ fault e. e ≡ config_fault fault };

    fn from(fault: ConfigFault) -> RunFault {
        match fault {
            ConfigFault::Memory => RunFault::Memory,
            fault => RunFault::Config(fault),
        }
    }
}

impl From<TextFault> for RunFault {
    ghost from_gives = { λ fault e. e ≡ text_fault fault };

    fn from(fault: TextFault) -> RunFault {
        match fault {
            TextFault::Line(n) => RunFault::JournalLine(n),
            TextFault::Differs(n) => RunFault::Differs(n),
        }
    }
}

impl From<WriteFault> for RunFault {
    ghost from_gives = { λ _ e. e ≡ Write };

    fn from(_failed: WriteFault) -> RunFault {
        RunFault::Write
    }
}

impl fmt::Display for RunFault {
    ghost output = { λ x. Some (run_fault_text x) };

    fn fmt<W: fmt::Write>(&self, f: &mut fmt::Formatter<W>) -> fmt::Result {
        match self {
            RunFault::Files { wanted, given } => {
                write!(f, "{wanted} files wanted, {given} given")
            }
            RunFault::Config(fault) => match fault {
                ConfigFault::Memory => write!(f, "memory"),
                fault => write!(f, "config: {fault}"),
            },
            RunFault::ConfigLong => write!(f, "config: too long"),
            RunFault::Log(who, fault) => {
                let tester = who.number();
                match fault {
                    LogFault::Line(n, fault) => write!(f, "log {tester} line {n}: {fault}"),
                    LogFault::TooManyLines => write!(f, "log {tester}: too many lines"),
                    LogFault::TooManyEvents => write!(f, "log {tester}: too many events"),
                    LogFault::Memory => write!(f, "memory"),
                }
            }
            RunFault::JournalLine(n) => write!(f, "journal line {n}"),
            RunFault::FileLong(n) => write!(f, "file {n}: too long"),
            RunFault::Memory => write!(f, "memory"),
            RunFault::JournalFull => write!(f, "journal full"),
            RunFault::RecordsDisagree(who) => {
                let tester = who.number();
                write!(f, "records of {tester} disagree")
            }
            RunFault::Read(n) => write!(f, "cannot read file {n}"),
            RunFault::Write => write!(f, "cannot write"),
            RunFault::Differs(n) => write!(f, "entry {n} differs"),
            RunFault::Capture(n, fault) => match fault {
                BusFault::Line(fault) => write!(f, "capture line {n}: {fault}"),
                BusFault::Late => write!(f, "capture line {n}: too late"),
                BusFault::Memory => write!(f, "memory"),
            },
            RunFault::Otherwise(_) => write!(f, "the unit answered otherwise"),
        }
    }
}

impl Error for RunFault {}

/// A fault's line with no number, no key and no frame in it.
#[derive(Clone, Copy, Debug, PartialEq, Eq)]
pub enum FixedLine {
    /// The config is too long.
    ConfigLong,
    /// Memory was refused.
    Memory,
    /// The journal is full.
    JournalFull,
    /// The text could not be written.
    Write,
}

impl FixedLine {
    /// Its bytes.
    fn bytes(&self) -> &[u8]
        ensures { result.now ≡ fixed_bytes self.now }
    {
        match self {
            FixedLine::ConfigLong => b"uds_play: config: too long\n",
            FixedLine::Memory => b"uds_play: memory\n",
            FixedLine::JournalFull => b"uds_play: journal full\n",
            FixedLine::Write => b"uds_play: cannot write\n",
        }
    }
}

/// The line of a fault.
#[derive(Debug, PartialEq, Eq, Drop)]
pub enum FaultLine {
    /// One that is the same each time, and takes no memory.
    Fixed(FixedLine),
    /// One with a number, a key or a frame in it.
    Made(Vec<u8>),
}

impl FaultLine {
    /// Its bytes.
    pub fn as_slice(&self) -> &[u8]
        ensures { result.now ≡ line_bytes self.now }
    {
        match self {
            FaultLine::Fixed(line) => line.bytes(),
            FaultLine::Made(bytes) => bytes.as_slice(),
        }
    }
}

/// The whole line that is printed for a fault.
///
/// # Errors
/// `AllocError` where memory is refused, which a fixed text never asks for, or was refused for what is told of a difference.
pub fn fault_text(alloc: Global, fault: &RunFault) -> Result<FaultLine, AllocError>
    ensures text { IfOk result (λ line. line_bytes line ≡ fault_text fault.now) }
    ensures fixed { is_fixed fault.now ≡ true → IsOk result }
{
    match fault {
        RunFault::ConfigLong => Ok(FaultLine::Fixed(FixedLine::ConfigLong)),
        RunFault::Memory => Ok(FaultLine::Fixed(FixedLine::Memory)),
        RunFault::JournalFull => Ok(FaultLine::Fixed(FixedLine::JournalFull)),
        RunFault::Write => Ok(FaultLine::Fixed(FixedLine::Write)),
        RunFault::Otherwise(Some(told)) => {
            let text = otherwise_text(alloc, told.as_slice())?;
            Ok(FaultLine::Made(text))
        }
        RunFault::Otherwise(None) => Err(AllocError),
        fault => {
            let text = format!(in alloc; "uds_play: {fault}\n")?;
            Ok(FaultLine::Made(text.into_bytes()))
        }
    }
}

/// The line that tells of a unit that answered otherwise.
fn otherwise_text(alloc: Global, told: &[u8]) -> Result<Vec<u8>, AllocError>
    ensures { IfOk result (λ t. t.items ≡ codes "uds_play: " ++ told.now ++ codes "\n") }
{
    let mut text = Vec::from_slice(alloc, b"uds_play: ")?;
    text.extend_from_slice(told)?;
    text.extend_from_slice(b"\n")?;
    Ok(text)
}

/// The status that the program ends with.
pub fn status(fault: &RunFault) -> u8
    ensures { result ≡ status fault.now }
{
    match fault {
        RunFault::Files { .. } => 1,
        RunFault::Config(ConfigFault::Memory)
        | RunFault::Log(_, LogFault::Memory)
        | RunFault::Capture(_, BusFault::Memory) => 4,
        RunFault::Config(_) | RunFault::ConfigLong => 2,
        RunFault::Log(..) | RunFault::JournalLine(_) | RunFault::FileLong(_) => 3,
        RunFault::Capture(..) => 3,
        RunFault::Memory => 4,
        RunFault::JournalFull => 5,
        RunFault::RecordsDisagree(_) => 6,
        RunFault::Read(_) | RunFault::Write => 7,
        RunFault::Differs(_) | RunFault::Otherwise(_) => 8,
    }
}
