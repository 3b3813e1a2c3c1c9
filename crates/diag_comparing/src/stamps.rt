//! The bus's time of a line, as it is known there.

ghost use Rattle.std.specs.Prelude.{◌≡◌, IfOk, None};
ghost use Rattle.diag_bus.specs.Text.{bus_moment};
ghost use Rattle.diag_comparing.specs.Keeping.{stamped_by, start_from};

use diag_bus::{Clock, Start};
use std::alloc::AllocError;

/// The first stamped line.
#[derive(Clone, Copy, Drop)]
pub struct FirstStamp {
    /// Its number, from 1.
    pub line: u64,
    /// Where the bus's time begins by it.
    pub start: Start,
}

/// Where the bus's time begins, once it is known.
#[derive(Clone, Copy, Drop)]
pub struct Stamps {
    /// The first stamped line, once it came.
    pub first: Option<FirstStamp>,
}

impl Stamps {
    /// No line was stamped yet.
    pub fn new() -> Stamps
        ensures { result.first ≡ None }
    {
        Stamps { first: None }
    }

    /// The line of this number was taken, behind which the clock is this.
    pub fn take(&mut self, line: u64, clock: &Clock)
        ensures { self.new.first ≡ stamped_by self.old.first line clock.now.start }
    {
        if self.first.is_some() {
            return;
        }
        if let Some(start) = clock.start {
            self.first = Some(FirstStamp { line, start });
        }
    }

    /// Where the bus's time begins, as it is known at the line of this number.
    fn start_from(&self, line: u64) -> Option<Start>
        ensures { result ≡ start_from self.now.first line }
    {
        match self.first {
            Some(first) if first.line <= line => Some(first.start),
            _ => None,
        }
    }

    /// The bus's time of a line, which stands so much behind the first event.
    ///
    /// # Errors
    /// `AllocError` where it is no number of 64 bits, which the line of a capture never gives.
    pub fn moment(&self, line: u64, at: u64) -> Result<u64, AllocError>
        ensures { IfOk result (λ moment. moment ≡ bus_moment (start_from self.now.first line) at) }
    {
        match self.start_from(line) {
            None => Ok(at),
            Some(start) => start
                .moment
                .checked_add(at.saturating_sub(start.before))
                .ok_or(AllocError),
        }
    }
}
