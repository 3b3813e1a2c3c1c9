//! The sink that writes the journal of the run.

ghost use Rattle.std.specs.Prelude.{◌≡◌, ◌≤◌, ◌++◌, OnOk, option_copied};
ghost use Rattle.diag_desk.specs.Entries.{asks};
ghost use Rattle.diag_desk.specs.Entry.{entry_seen};
ghost use Rattle.diag_port.specs.Standing.{entry_of_ticks};
ghost use Rattle.diag_world.specs.Server.{closing_time};
ghost use Rattle.diag_bus.specs.Journal.{entry_text};

use crate::clock::Clock;
use crate::line_frames::LineFrames;
use crate::sink::Sink;
use diag_can::{BusLine, TickCount};
use diag_desk::{EntryRef, JournalVersion, StepRef, write_entry, write_header};
use diag_ecu::Ecu;
use diag_pdu::{Message, Request};
use diag_setup::{Setup, TesterId};
use std::alloc::{AllocError, Global};

/// Writes the journal of the run, in version 2 of its text, entry by entry.
#[derive(Drop)]
pub struct Journal {
    /// The entries of the line that is under way.
    pub text: Vec<u8>,
}

impl Journal {
    /// One that wasn't begun.
    pub fn new(alloc: Global) -> Journal {
        Journal {
            text: Vec::new(alloc),
        }
    }

    /// Appends the line of a request with its reply.
    fn add_request(
        &mut self,
        before: u64,
        who: TesterId,
        request: &Request,
        reply: Option<&Message>,
    ) -> Result<(), AllocError>
        requires early { before ≤ closing_time }
        ensures { OnOk result (self.new.text.items ≡ self.old.text.items
            ++ entry_text before (asks who request.now (option_copied reply.entry))) }
    {
        let entry = EntryRef {
            who,
            step: StepRef::of_request(request),
            reply: reply.map(Message::bytes),
        };
        self.enter(before, &entry)
    }

    /// Appends the line of so many ticks.
    fn add_ticks(&mut self, before: u64, who: TesterId, count: TickCount) -> Result<(), AllocError>
        requires early { before ≤ closing_time }
        ensures { OnOk result (self.new.text.items ≡ self.old.text.items
            ++ entry_text before (entry_of_ticks who count)) }
    {
        let entry = EntryRef {
            who,
            step: StepRef::of_ticks(count),
            reply: None,
        };
        self.enter(before, &entry)
    }

    /// Appends the line of an entry; `before` is the ticks of its tester before it.
    fn enter(&mut self, before: u64, entry: &EntryRef<'_>) -> Result<(), AllocError>
        requires early { before ≤ closing_time }
        ensures { OnOk result (self.new.text.items ≡ self.old.text.items ++ entry_text before (entry_seen entry.now)) }
    {
        write_entry(&mut self.text, JournalVersion::Stamped, before, entry)
    }
}

impl Sink for Journal {
    ghost use Rattle.std.specs.Prelude.{⊤, true};
    ghost use Rattle.std.proofs.lemmas.Bool.{true≢false};
    ghost use Rattle.diag_bus.specs.Journal.{TookEntries};
    ghost use Rattle.diag_bus.specs.Text.{journal_text_of};

    ghost is_for = { λ _ _. ⊤ };

    ghost took = { TookEntries };

    ghost Aim = { Unit {0} };

    ghost aim = { λ _. tt };

    ghost written = { λ _. journal_text_of };

    ghost wants_ticks = { true };

    fn begin(&mut self, _: Global, _: &Setup) -> Result<(), AllocError> {
        self.text.clear();
        Ok(())
    }

    fn write_header(&self, text: &mut Vec<u8>) -> Result<(), AllocError> {
        write_header(text, JournalVersion::Stamped)
    }

    #[inline(always)]
    fn wants_ticks(&self) -> bool {
        true
    }

    fn enter_request(
        &mut self,
        _: &Ecu,
        before: u64,
        who: TesterId,
        request: &Request,
        reply: Option<&Message>,
    ) -> Result<(), AllocError> {
        self.add_request(before, who, request, reply)
    }

    fn enter_ticks(
        &mut self,
        _: &Ecu,
        before: u64,
        who: TesterId,
        count: TickCount,
    ) -> Result<(), AllocError> {
        self.add_ticks(before, who, count)
    }

    fn end_line(
        &mut self,
        _: &Setup,
        _: &BusLine,
        _: u64,
        _: &Clock,
        _: &LineFrames,
        text: &mut Vec<u8>,
    ) -> Result<(), AllocError> {
        text.extend_from_slice(self.text.as_slice())?;
        self.text.clear();
        Ok(())
    }

    ghost skips_ticks = { λ _ _ _ _ _ _ no _. absurd (true≢false no) };
}
