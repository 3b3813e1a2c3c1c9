//! Why a step was not made.
ghost use Rattle.std.specs.Prelude.{Some};
ghost use Rattle.diag_gate.specs.Fault.{try_fault_text};

use diag_pdu::Step;
use std::error::Error;
use std::fmt::{self, Debug, Formatter};

/// Why a step that doesn't wait was not made.
#[derive(Drop)]
pub enum TryFault {
    /// Memory was refused.
    Memory,
    /// The journal has 1,000,000 entries.
    JournalFull,
    /// Another seat has the desk. The step comes back.
    Busy(Step),
}

// By hand, since a step isn't `Debug`.
impl Debug for TryFault {
    fn fmt<W: fmt::Write>(&self, f: &mut Formatter<W>) -> fmt::Result {
        match self {
            TryFault::Memory => f.write_str("Memory"),
            TryFault::JournalFull => f.write_str("JournalFull"),
            TryFault::Busy(_) => f.write_str("Busy(..)"),
        }
    }
}

impl fmt::Display for TryFault {
    ghost output = { λ x. Some (try_fault_text x) };

    fn fmt<W: fmt::Write>(&self, f: &mut Formatter<W>) -> fmt::Result {
        match self {
            TryFault::Memory => write!(f, "no memory"),
            TryFault::JournalFull => write!(f, "the journal is full"),
            TryFault::Busy(_) => write!(f, "another tester has the desk"),
        }
    }
}

impl Error for TryFault {}
