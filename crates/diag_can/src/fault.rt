//! What is wrong with a line, and with a log.

ghost use Rattle.std.specs.Prelude.{◌≡◌, Some};
ghost use Rattle.diag_can.specs.Fault.{fault_of, line_fault_text, log_fault_text};

use std::error::Error;
use std::fmt;

/// What is wrong with a line of a log.
#[derive(Clone, Copy, Debug, PartialEq, Eq)]
pub enum LineFault {
    /// The line is no `tick` line and no frame in candump's log format with an identifier that a bus has.
    BadLine,
    /// The line begins with `tick` and isn't `tick` or `tick N` with N from 1 to 60000 without leading zero.
    BadTick,
    /// The frame has more than 16 hex digits, or one of CAN FD more than 128.
    TooManyBytes,
}

impl fmt::Display for LineFault {
    ghost output = { λ x. Some (line_fault_text x) };

    fn fmt<W: fmt::Write>(&self, f: &mut fmt::Formatter<W>) -> fmt::Result {
        match self {
            LineFault::BadLine => write!(f, "bad line"),
            LineFault::BadTick => write!(f, "bad tick"),
            LineFault::TooManyBytes => write!(f, "too many bytes"),
        }
    }
}

impl Error for LineFault {}

/// Why a log can't be read: the first fault in the order of its lines, or want of memory.
#[derive(Clone, Copy, Debug, PartialEq, Eq)]
pub enum LogFault {
    /// The line of that number, counted from 1.
    Line(u32, LineFault),
    /// More than 1,000,000 lines.
    TooManyLines,
    /// Memory is refused.
    Memory,
    /// More than 1,000,000 events.
    TooManyEvents,
}

/// Why a log takes no line or no event more. (It has no fields, so it stays in a register as the lines go by.)
#[derive(Clone, Copy, Drop)]
pub(crate) enum Limit {
    /// There are 1,000,000 lines.
    Lines,
    /// There are 1,000,000 events.
    Events,
    /// Memory is refused.
    Memory,
}

impl Limit {
    /// The log's fault.
    #[cold]
    #[inline(never)]
    pub(crate) fn fault(self) -> LogFault
        ensures { result ≡ fault_of self }
    {
        match self {
            Limit::Lines => LogFault::TooManyLines,
            Limit::Events => LogFault::TooManyEvents,
            Limit::Memory => LogFault::Memory,
        }
    }
}

impl fmt::Display for LogFault {
    ghost output = { λ x. Some (log_fault_text x) };

    fn fmt<W: fmt::Write>(&self, f: &mut fmt::Formatter<W>) -> fmt::Result {
        match self {
            LogFault::Line(n, fault) => write!(f, "line {n}: {fault}"),
            LogFault::TooManyLines => write!(f, "too many lines"),
            LogFault::Memory => write!(f, "memory"),
            LogFault::TooManyEvents => write!(f, "too many events"),
        }
    }
}

impl Error for LogFault {}
