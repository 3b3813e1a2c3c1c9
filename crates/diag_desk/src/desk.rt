//! The desk: the ECU with its journal.
ghost use Rattle.std.specs.Prelude.{◌≡◌, ◌<◌, ◌≤◌, ◌↔◌, [], length, IsTrue, OnOk, OnErr, IfOk, IfErr, Err, None, Some};
ghost use Rattle.diag_pdu.specs.declared.step.Step.{Step as AStep};
ghost use Rattle.diag_ecu.specs.State.{opening};
ghost use Rattle.diag_desk.specs.Entries.{asks, entry};
ghost use Rattle.diag_desk.specs.Entry.{IsJournal, most_entries};
ghost use Rattle.diag_desk.specs.FaultText.{step_fault_text};
ghost use Rattle.diag_desk.specs.Legal.{IsOpening, Legal, after, entered, is_ticks};
ghost use Rattle.diag_desk.specs.Timed.{last_delay, timed};

use crate::entry::StepRef;
use crate::flat::bytes_of;
use crate::journal::Journal;
use diag_can::TickCount;
use diag_ecu::Ecu;
use diag_pdu::{Message, Request, Step};
use diag_setup::{Setup, TesterId};
use std::alloc::{AllocError, Global};
use std::error::Error;
use std::fmt;
use std::marker::Model;

/// Why a step was not taken.
#[derive(Clone, Copy, PartialEq, Eq, Debug, Drop)]
pub enum StepFault {
    /// Memory was refused.
    Memory,
    /// The journal has 1,000,000 entries.
    JournalFull,
}

impl fmt::Display for StepFault {
    ghost output = { λ x. Some (step_fault_text x) };

    fn fmt<W: fmt::Write>(&self, f: &mut fmt::Formatter<W>) -> fmt::Result {
        match self {
            StepFault::Memory => write!(f, "no memory"),
            StepFault::JournalFull => write!(f, "the journal is full"),
        }
    }
}

impl Error for StepFault {}

impl From<AllocError> for StepFault {
    ghost use Rattle.diag_desk.specs.declared.desk.StepFault.TheVariants as fault;

    ghost from_gives = { λ e f. f ≡ fault.Memory };

    fn from(_refused: AllocError) -> StepFault {
        StepFault::Memory
    }
}

/// The ECU with its journal, and a copy of the ECU as it was opened.
///
/// The opening is that of a checked setup, the journal is a legal run of the sequential server from it, and the ECU is
/// what the run makes of it.
pub struct Desk {
    opening: Ecu,
    ecu: Ecu,
    journal: Journal,
    /// How long after the last step its reply goes.
    after_ms: u32,
}

// Written out, so that a function which lets a desk go makes one call, and doesn't go through all that it owns.
impl Drop for Desk {
    fn drop(self) {
        let Desk {
            opening: _,
            ecu: _,
            journal: _,
            after_ms: _,
        } = self;
    }
}

impl Model for Desk {
    ghost use Rattle.std.specs.Prelude.{◌≡◌};
    ghost use Rattle.diag_desk.specs.Entry.{IsJournal};
    ghost use Rattle.diag_desk.specs.Legal.{IsOpening, Run, Legal, after};
    ghost use Rattle.diag_desk.specs.Timed.{last_delay, timed};

    ghost Value = { Run };

    ghost view = { λ d. record { opening = d.opening; journal = d.journal.entries } };

    ghost invariant = { λ d. Legal d.opening d.journal.entries
        × (d.ecu ≡ after d.opening d.journal.entries)
        × IsJournal d.journal.entries
        × IsOpening d.opening
        × (d.after_ms ≡ last_delay (timed d.opening d.journal.entries)) };
}

impl Desk {
    /// The desk of a setup, with no entry, where memory isn't refused.
    #[tactic(auto, using(crate::proofs::Runs::opens))]
    pub fn new(alloc: Global, setup: &Setup) -> Result<Desk, AllocError>
        ensures { IfOk result (λ desk.
            desk ≡ record { opening = opening setup.now; journal = [] }) }
    {
        let ecu = Ecu::new(alloc, setup)?;
        // (for its contract: a setup is a checked one)
        let _raw = setup.raw();
        Ok(Desk {
            opening: ecu.try_copy()?,
            ecu,
            journal: Journal::new(alloc),
            after_ms: 0,
        })
    }

    /// The entries so far, which are a legal run from the desk's opening, that of a checked setup, in which nothing is
    /// unlocked.
    #[tactic(auto, using(crate::proofs::Runs::opens_locked))]
    pub fn journal(&self) -> &Journal
        ensures list { result.now.entries ≡ self.now.journal }
        ensures opened { IsOpening self.now.opening }
        ensures locked { self.now.opening.security.unlocked ≡ None }
        ensures legal { Legal self.now.opening self.now.journal }
        ensures journal { IsJournal self.now.journal }
        ensures limit { length self.now.journal ≤ most_entries }
    {
        &self.journal
    }

    /// The ECU as the entries have made it.
    pub fn ecu(&self) -> &Ecu
        ensures { result.now ≡ after self.now.opening self.now.journal }
    {
        &self.ecu
    }

    /// How long after the last step its reply goes, in milliseconds of its tester: 0 before the first, and of ticks.
    #[inline(always)]
    pub fn after_ms(&self) -> u32
        ensures { result ≡ last_delay (timed self.now.opening self.now.journal) }
    {
        self.after_ms
    }

    /// Takes a step: a request, or ticks.
    ///
    /// JournalFull is looked at first. After a refusal all is as before. Ticks have no reply.
    pub fn step(&mut self, who: TesterId, step: &Step) -> Result<Option<Message>, StepFault>
        ensures ok { IfOk result (λ reply. self.new ≡ entered self.old (entry who step.now reply)) }
        ensures ticks_unanswered { IsTrue (is_ticks step.now) → IfOk result (λ reply. reply ≡ None) }
        ensures err { OnErr result (self.new ≡ self.old) }
        ensures full { (result ≡ Err StepFault.JournalFull) ↔ (length self.old.journal ≡ most_entries) }
        ensures room { IfErr result (λ fault.
            fault ≡ StepFault.Memory → length self.old.journal < most_entries) }
        ensures limit { length self.new.journal ≤ most_entries }
    {
        match step {
            Step::Request(request) => self.request(who, request),
            Step::Ticks(count) => {
                self.ticks(who, *count)?;
                Ok(None)
            }
        }
    }

    /// Takes a request: its reply is asked for, entered, and then the ECU does what the request does.
    ///
    /// # Errors
    /// `JournalFull` where the journal is full, which is looked at first, `Memory` where memory is refused. All is then as
    /// before.
    pub fn request(
        &mut self,
        who: TesterId,
        request: &Request,
    ) -> Result<Option<Message>, StepFault>
        ensures ok { IfOk result (λ reply. self.new ≡ entered self.old (asks who request.now reply)) }
        ensures err { OnErr result (self.new ≡ self.old) }
        ensures full { (result ≡ Err StepFault.JournalFull) ↔ (length self.old.journal ≡ most_entries) }
        ensures limit { length self.new.journal ≤ most_entries }
    {
        let bytes = request.message.bytes();
        self.journal.open(bytes.len())?;
        let mut reply = None;
        let decided = self
            .ecu
            .put_reply(who, request.functional, bytes, &mut reply)?;
        let step = StepRef::of_request(request);
        self.journal.add(who, &step, bytes_of(reply.as_ref()));
        self.ecu.apply(who, bytes, decided);
        self.after_ms = decided.after_ms;
        Ok(reply)
    }

    /// Takes so many ticks, which are entered. They have no reply.
    ///
    /// # Errors
    /// As `request`.
    pub fn ticks(&mut self, who: TesterId, count: TickCount) -> Result<(), StepFault>
        ensures ok { OnOk result (self.new ≡ entered self.old (entry who (AStep.Ticks count) None)) }
        ensures err { OnErr result (self.new ≡ self.old) }
        ensures full { (result ≡ Err StepFault.JournalFull) ↔ (length self.old.journal ≡ most_entries) }
        ensures limit { length self.new.journal ≤ most_entries }
    {
        self.journal.open(0)?;
        self.journal.add(who, &StepRef::of_ticks(count), None);
        self.ecu.ticks(who, count);
        self.after_ms = 0;
        Ok(())
    }
}
