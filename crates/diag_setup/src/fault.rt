//! Why a setup is refused.

ghost use Rattle.std.specs.Prelude.{Some};
ghost use Rattle.diag_setup.specs.Fault.{setup_fault_text};

use std::error::Error;
use std::fmt;

/// Why a setup was refused, in the order in which it is looked at.
#[derive(Clone, Copy, PartialEq, Eq, Debug)]
pub enum SetupFault {
    /// A value or a number of rows that the setup file's table does not allow.
    Range,
    /// No tester, or a level without a row.
    Empty,
    /// Two testers of one name, two equal identifiers on the bus, or two rows of one key.
    DuplicateId,
    /// A routine names a DTC that is not in the list.
    UnknownCode,
    /// A data identifier, a routine or a row of answers names a security level that is not in the list.
    UnknownLevel,
}

impl fmt::Display for SetupFault {
    ghost output = { λ fault. Some (setup_fault_text fault) };

    fn fmt<W: fmt::Write>(&self, f: &mut fmt::Formatter<W>) -> fmt::Result {
        match self {
            SetupFault::Range => write!(f, "range"),
            SetupFault::Empty => write!(f, "empty"),
            SetupFault::DuplicateId => write!(f, "duplicate"),
            SetupFault::UnknownCode => write!(f, "unknown code"),
            SetupFault::UnknownLevel => write!(f, "unknown level"),
        }
    }
}

impl Error for SetupFault {}
