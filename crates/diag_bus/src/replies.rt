//! The sink that writes reply lines.

ghost use Rattle.std.specs.Prelude.{◌≡◌, ◌++◌, OnErr, OnOk};
ghost use Rattle.diag_bus.specs.Node.{lists_of};
ghost use Rattle.diag_bus.specs.Sink.{IsDrawn};
ghost use Rattle.diag_bus.specs.Text.{drawn_text};
ghost use Rattle.diag_bus.specs.Writing.{AreNamesOf};

use crate::clock::Clock;
use crate::filled::Filled;
use crate::line_frames::LineFrames;
use crate::sink::Sink;
use crate::writing::{Drawn, is_in_order, write_drawn, write_own, writers_of};
use diag_can::{BusLine, LineWriter, TickCount};
use diag_ecu::Ecu;
use diag_pdu::{Message, Request};
use diag_setup::{Setup, TesterId};
use std::alloc::{AllocError, Global};

/// Writes the reply lines that each line draws, in the bus's order.
#[derive(Drop)]
pub struct Replies {
    /// The writers of the testers' lines.
    pub writers: Vec<LineWriter>,
    /// Room to put a line's frames in order.
    pub batch: Vec<Drawn>,
}

impl Replies {
    /// One that wasn't begun.
    pub fn new(alloc: Global) -> Replies {
        Replies {
            writers: Vec::new(alloc),
            batch: Vec::new(alloc),
        }
    }

    /// Adds the reply lines of what a line draws. Refused, the text is as it was.
    #[inline(always)]
    fn write(
        &mut self,
        setup: &Setup,
        clock: &Clock,
        drawn: &LineFrames,
        text: &mut Vec<u8>,
    ) -> Result<(), AllocError>
        requires names { AreNamesOf setup.now self.old.writers.items }
        requires drawn { IsDrawn setup.now clock.now drawn.now }
        ensures names { self.new.writers.items ≡ self.old.writers.items }
        ensures ok { OnOk result (text.new.items
            ≡ text.old.items ++ drawn_text setup.now clock.now.start (lists_of drawn.now)) }
        ensures err { OnErr result (text.new.items ≡ text.old.items) }
    {
        match drawn.filled {
            Filled::Nowhere => Ok(()),
            Filled::At(index) if is_in_order(&drawn.lists[index]) => {
                let frames = &drawn.lists[index];
                write_own(setup, clock, &mut self.writers, index, frames, text)
            }
            Filled::At(_) | Filled::Anywhere => {
                let (writers, batch) = (&mut self.writers, &mut self.batch);
                write_drawn(setup, clock, writers, drawn.lists.as_slice(), batch, text)
            }
        }
    }
}

impl Sink for Replies {
    ghost use Rattle.std.specs.Prelude.{⊤, false};
    ghost use Rattle.diag_bus.specs.Text.{text_of};
    ghost use Rattle.diag_bus.specs.Writing.{AreNamesOf};

    ghost is_for = { λ replies setup. AreNamesOf setup replies.writers.items };

    ghost took = { λ _ _ _ _. ⊤ };

    ghost Aim = { Unit {0} };

    ghost aim = { λ _. tt };

    ghost written = { λ _. text_of };

    ghost wants_ticks = { false };

    fn begin(&mut self, alloc: Global, setup: &Setup) -> Result<(), AllocError> {
        self.writers = writers_of(alloc, setup)?;
        Ok(())
    }

    fn write_header(&self, _: &mut Vec<u8>) -> Result<(), AllocError> {
        Ok(())
    }

    #[inline(always)]
    fn wants_ticks(&self) -> bool {
        false
    }

    #[inline(always)]
    fn enter_request(
        &mut self,
        _: &Ecu,
        _: u64,
        _: TesterId,
        _: &Request,
        _: Option<&Message>,
    ) -> Result<(), AllocError> {
        Ok(())
    }

    #[inline(always)]
    fn enter_ticks(
        &mut self,
        _: &Ecu,
        _: u64,
        _: TesterId,
        _: TickCount,
    ) -> Result<(), AllocError> {
        Ok(())
    }

    #[inline(always)]
    fn end_line(
        &mut self,
        setup: &Setup,
        _: &BusLine,
        _: u64,
        clock: &Clock,
        drawn: &LineFrames,
        text: &mut Vec<u8>,
    ) -> Result<(), AllocError> {
        self.write(setup, clock, drawn, text)
    }

    ghost skips_ticks = { λ _ _ _ _ _ _ _ _. tt };
}
