//! How a run ended, and why a test did not come to its end.

use diag_run::Outcome;
use diag_text::FaultLine;
use std::alloc::{AllocError, AllocFailed};

/// How a run ends: the line that it tells of a fault, and its status.
#[derive(Clone, Copy)]
pub struct End<'a> {
    /// The line.
    pub line: &'a [u8],
    /// The status.
    pub status: u8,
}

/// The end of a run with no fault.
pub const WELL: End<'static> = End {
    line: b"",
    status: 0,
};

/// Whether this is the end of a run.
pub fn is_end(outcome: &Outcome, end: End<'_>) -> Result<bool, AllocError> {
    match outcome {
        Outcome::Done { status } => Ok(*status == end.status),
        Outcome::Fault { told, status } => is_fault(told, *status, end),
    }
}

/// Whether a fault of this line and this status ends it. A line that had no memory, or told want of memory, is an
/// error.
fn is_fault(told: &Option<FaultLine>, status: u8, end: End<'_>) -> Result<bool, AllocError> {
    match told {
        Some(line) if status != 4 => Ok(status == end.status && line.as_slice() == end.line),
        _ => Err(AllocError),
    }
}

/// Whether the parts are the whole of what was written.
pub fn is_whole(written: &[u8], text: [&str; 2]) -> bool {
    let [front, rest] = text;
    written.len() == front.len().saturating_add(rest.len())
        && written.starts_with(front.as_bytes())
        && written.ends_with(rest.as_bytes())
}

/// Why a test did not come to its end: memory was refused, or a run did what it must not.
#[derive(Clone, Copy, Debug)]
pub enum Trouble {
    Memory,
    Wrong,
    /// What is wrong is at this call of a device, from 1, or at this place of a table, from 0.
    WrongAt(usize),
}

impl From<AllocError> for Trouble {
    fn from(_refused: AllocError) -> Trouble {
        Trouble::Memory
    }
}

impl<T: Drop> From<AllocFailed<T>> for Trouble {
    fn from(_refused: AllocFailed<T>) -> Trouble {
        Trouble::Memory
    }
}

/// What was tried came to its end and holds.
pub fn holds(tried: Result<bool, AllocError>) -> Result<(), Trouble> {
    if tried? { Ok(()) } else { Err(Trouble::Wrong) }
}

/// The same of a call of a device, or of a place in a table.
pub fn holds_at(at: usize, tried: Result<bool, AllocError>) -> Result<(), Trouble> {
    if tried? {
        Ok(())
    } else {
        Err(Trouble::WrongAt(at))
    }
}
