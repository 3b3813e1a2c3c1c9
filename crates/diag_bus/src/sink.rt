//! What is made of a capture while it goes by: the trait of all sinks.

ghost use Rattle.std.specs.Prelude.{◌≡◌, ◌≤◌, [], ◌∷◌, ◌++◌, false, OnOk, OnErr, option_copied};
ghost use Rattle.diag_desk.specs.Entries.{asks};
ghost use Rattle.diag_port.specs.Port.{Grew};
ghost use Rattle.diag_port.specs.Standing.{entry_of_ticks};
ghost use Rattle.diag_world.specs.Server.{closing_time};
ghost use Rattle.diag_bus.specs.Sink.{EndsLine, Enters, IsDrawn, StaysFor};

use crate::clock::Clock;
use crate::line_frames::LineFrames;
use diag_can::{BusLine, TickCount};
use diag_ecu::Ecu;
use diag_pdu::{Message, Request};
use diag_setup::{Setup, TesterId};
use std::alloc::{AllocError, Global};

/// What is made of a capture while it goes by: a text, a verdict, or nothing.
///
/// It is told of each completed request as it is answered, and of each line at its end. Its contract is the relation `took`,
/// to each list of lines that it may have taken and to the entries of the run's journal in the line that is under way.
pub trait Sink: Drop {
    ghost use Rattle.std.specs.Prelude.{ℕ, Bool, List};
    ghost use Rattle.diag_desk.specs.declared.entry.Entry.{Entry};
    ghost use Rattle.diag_setup.specs.declared.raw.RawSetup.{RawSetup};

    /// It was begun for this setup.
    ghost is_for: { Self → RawSetup → Type 0 };

    /// It took these lines, and behind them these entries of the line that is under way.
    ghost took: { Self → RawSetup → List (List ℕ) → List Entry → Type 0 };

    /// What it is asked for, which stays as it is.
    ghost Aim: { Type 0 };

    ghost aim: { Self → Aim };

    /// What is written of these lines, the header included.
    ghost written: { Aim → RawSetup → List (List ℕ) → List ℕ };

    /// Ticks in which nothing is done are entered, too.
    ghost wants_ticks: { Bool };

    /// Begins for a setup, before the first line.
    fn begin(&mut self, alloc: Global, setup: &Setup) -> Result<(), AllocError>
        ensures begun { OnOk result (is_for self.new setup.now × took self.new setup.now [] []) }
        ensures aim { aim self.new ≡ aim self.old };

    /// Adds what is written before the first line. Refused, the text is as it was.
    fn write_header(&self, text: &mut Vec<u8>) -> Result<(), AllocError>
        ensures ok { OnOk result ((setup : RawSetup)
            → text.new.items ≡ text.old.items ++ written (aim self.now) setup []) }
        ensures err { OnErr result (text.new.items ≡ text.old.items) };

    /// Whether ticks in which nothing is done are to be entered, too.
    fn wants_ticks(&self) -> bool
        ensures { result ≡ wants_ticks };

    /// Takes a request with its reply; `ecu` is the ECU before it, and `before` the ticks of its tester.
    ///
    /// # Errors
    /// `AllocError` where memory is refused: of what it took nothing is said then.
    fn enter_request(
        &mut self,
        ecu: &Ecu,
        before: u64,
        who: TesterId,
        request: &Request,
        reply: Option<&Message>,
    ) -> Result<(), AllocError>
        requires early { before ≤ closing_time }
        ensures entered { OnOk result (Enters took self.old self.new ecu.now before
            (asks who request.now (option_copied reply.entry))) }
        ensures stays { StaysFor is_for aim self.old self.new };

    /// Takes so many ticks of a tester; `before` is the ticks of the tester before them.
    ///
    /// # Errors
    /// As `enter_request`.
    fn enter_ticks(
        &mut self,
        ecu: &Ecu,
        before: u64,
        who: TesterId,
        count: TickCount,
    ) -> Result<(), AllocError>
        requires early { before ≤ closing_time }
        ensures entered { OnOk result (Enters took self.old self.new ecu.now before (entry_of_ticks who count)) }
        ensures stays { StaysFor is_for aim self.old self.new };

    /// Takes the end of a line: what it said, the milliseconds it took, the clock behind it, and the frames that it draws; adds
    /// what it writes.
    ///
    /// # Errors
    /// `AllocError` where memory is refused: the text is as it was, and of what it took nothing is said then.
    fn end_line(
        &mut self,
        setup: &Setup,
        said: &BusLine,
        span: u64,
        clock: &Clock,
        drawn: &LineFrames,
        text: &mut Vec<u8>,
    ) -> Result<(), AllocError>
        requires begun { is_for self.old setup.now }
        requires drawn { IsDrawn setup.now clock.now drawn.now }
        ensures ended { OnOk result (Grew text.old.items text.new.items
            (EndsLine took aim written setup.now self.old self.new said.now span clock.now drawn.now)) }
        ensures stays { StaysFor is_for aim self.old self.new }
        ensures err { OnErr result (text.new.items ≡ text.old.items) };

    /// Where ticks in which nothing is done aren't wanted, they make no difference.
    ghost skips_ticks: { (sink : Self) (setup : RawSetup) (lines : List (List ℕ)) (K : List Entry) (who count : ℕ)
        → wants_ticks ≡ false
        → took sink setup lines K
        → took sink setup lines (K ++ entry_of_ticks who count ∷ []) };
}
