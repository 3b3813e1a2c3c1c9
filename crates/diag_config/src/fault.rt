//! Why a setup could not be read.

ghost use Rattle.std.specs.Prelude.{◌≡◌, Some};
ghost use Rattle.diag_config.specs.declared.fault.KeyFault.TheVariants.{Memory};
ghost use Rattle.diag_config.specs.Fault.{config_fault};
ghost use Rattle.diag_config.specs.Text.{config_fault_text};

use diag_setup::SetupFault;
use std::alloc::{AllocError, AllocFailed};
use std::fmt;

/// What is wrong with a setup: the first fault in the order of the table of keys, then the first of the whole setup.
#[derive(Clone, Copy, Debug, PartialEq, Eq)]
pub enum ConfigFault {
    /// The bytes are no UTF-8, or no TOML.
    Syntax,
    /// A key that is required isn't there. It is written as in the table of keys, as `tester.name`.
    Missing(&'static str),
    /// A key's value is of another type, no number from 0 to 4294967295, or a text that is no hex, pattern or template.
    BadValue(&'static str),
    /// All keys are well, and the setup that they make is refused.
    Setup(SetupFault),
    /// There was no memory.
    Memory,
}

/// What is wrong with the keys of a table.
#[derive(Clone, Copy)]
pub enum KeyFault {
    Missing(&'static str),
    BadValue(&'static str),
    Memory,
}

impl From<KeyFault> for ConfigFault {
    ghost from_gives = { λ fault e. e ≡ config_fault fault };

    fn from(fault: KeyFault) -> ConfigFault {
        match fault {
            KeyFault::Missing(key) => ConfigFault::Missing(key),
            KeyFault::BadValue(key) => ConfigFault::BadValue(key),
            KeyFault::Memory => ConfigFault::Memory,
        }
    }
}

impl From<AllocError> for KeyFault {
    ghost from_gives = { λ _ e. e ≡ Memory };

    fn from(_e: AllocError) -> KeyFault {
        KeyFault::Memory
    }
}

impl<T: Drop> From<AllocFailed<T>> for KeyFault {
    ghost from_gives = { λ _ e. e ≡ Memory };

    fn from(_e: AllocFailed<T>) -> KeyFault {
        KeyFault::Memory
    }
}

impl fmt::Display for ConfigFault {
    ghost output = { λ x. Some (config_fault_text x) };

    fn fmt<W: fmt::Write>(&self, f: &mut fmt::Formatter<W>) -> fmt::Result {
        match self {
            ConfigFault::Syntax => write!(f, "syntax"),
            ConfigFault::Missing(key) => write!(f, "missing {key}"),
            ConfigFault::BadValue(key) => write!(f, "bad value {key}"),
            ConfigFault::Setup(fault) => write!(f, "{fault}"),
            ConfigFault::Memory => write!(f, "memory"),
        }
    }
}

impl std::error::Error for ConfigFault {}
