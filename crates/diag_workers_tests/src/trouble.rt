//! What ends a test early.

use diag_can::LogFault;
use diag_desk::{JournalFault, ReplayFault, StepFault};
use diag_gate::TryFault;
use diag_pdu::MessageFault;
use diag_workers::PlayFault;
use std::alloc::{AllocError, AllocFailed};

/// Why a test did not come to its end: memory was refused, or a call answered what it must not. Two workers that are
/// held for each other and didn't meet are `NotMet`: a thread that finds no memory at its start leaves its work to its
/// caller's thread.
#[derive(Clone, Copy, PartialEq, Eq, Debug, Drop)]
pub(crate) enum Trouble {
    Memory,
    Full,
    Log(u8, LogFault),
    NotMet,
    Wrong,
}

impl From<AllocError> for Trouble {
    fn from(_refused: AllocError) -> Trouble {
        Trouble::Memory
    }
}

impl<T: Drop> From<AllocFailed<T>> for Trouble {
    fn from(_refused: AllocFailed<T>) -> Trouble {
        Trouble::Memory
    }
}

impl From<StepFault> for Trouble {
    fn from(fault: StepFault) -> Trouble {
        match fault {
            StepFault::Memory => Trouble::Memory,
            StepFault::JournalFull => Trouble::Full,
        }
    }
}

impl From<MessageFault> for Trouble {
    fn from(fault: MessageFault) -> Trouble {
        match fault {
            MessageFault::Memory => Trouble::Memory,
            MessageFault::Length => Trouble::Wrong,
        }
    }
}

impl From<TryFault> for Trouble {
    fn from(fault: TryFault) -> Trouble {
        match fault {
            TryFault::Memory => Trouble::Memory,
            TryFault::JournalFull => Trouble::Full,
            TryFault::Busy(_) => Trouble::Wrong,
        }
    }
}

impl From<LogFault> for Trouble {
    fn from(fault: LogFault) -> Trouble {
        match fault {
            LogFault::Memory => Trouble::Memory,
            _ => Trouble::Wrong,
        }
    }
}

impl From<JournalFault> for Trouble {
    fn from(fault: JournalFault) -> Trouble {
        match fault {
            JournalFault::Memory => Trouble::Memory,
            JournalFault::Line(_) => Trouble::Wrong,
        }
    }
}

impl From<ReplayFault> for Trouble {
    fn from(fault: ReplayFault) -> Trouble {
        match fault {
            ReplayFault::Memory => Trouble::Memory,
            ReplayFault::Differs(_) => Trouble::Wrong,
        }
    }
}

impl From<PlayFault> for Trouble {
    fn from(fault: PlayFault) -> Trouble {
        match fault {
            PlayFault::Memory => Trouble::Memory,
            PlayFault::JournalFull => Trouble::Full,
            PlayFault::Log(who, fault) => Trouble::Log(who.number(), fault),
            PlayFault::RecordsDisagree(_) => Trouble::Wrong,
        }
    }
}

/// What was tried came to its end and holds.
pub(crate) fn holds(tried: Result<bool, Trouble>) -> Result<(), Trouble> {
    if tried? { Ok(()) } else { Err(Trouble::Wrong) }
}
