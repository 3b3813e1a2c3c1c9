//! The desk as the slot keeps it.
ghost use Rattle.std.specs.Prelude.{◌≡◌, ◌≤◌, ◌↔◌, length, IfOk, OnOk, OnErr, Err};
ghost use Rattle.diag_desk.specs.Entry.{HasNoReply, most_entries};
ghost use Rattle.diag_desk.specs.Entries.{entry};
ghost use Rattle.diag_desk.specs.Legal.{after, entered};
ghost use Rattle.diag_desk.specs.Timed.{delay_to};
ghost use Rattle.diag_ecu.specs.Respond.{may_delay};
ghost use Rattle.diag_gate.specs.Views.{IsLegal};

use diag_desk::{Desk, StepFault};
use diag_pdu::{Message, Step};
use diag_setup::TesterId;
use std::alloc::{AllocError, Global};
use std::marker::Model;

/// A desk on the heap, so that it moves in and out of its slot by a word. Contracts see it as the desk.
#[derive(Drop)]
pub struct DeskBox {
    desk: Box<Desk>,
}

impl Model for DeskBox {
    ghost use Rattle.diag_desk.specs.Legal.{Run};

    ghost Value = { Run };

    ghost view = { λ k. k.desk.value };
}

impl DeskBox {
    /// Where it is refused, the desk is dropped.
    pub(crate) fn new(alloc: Global, desk: Desk) -> Result<DeskBox, AllocError>
        ensures { IfOk result (λ kept. kept ≡ desk) }
    {
        match Box::new(alloc, desk) {
            Ok(desk) => Ok(DeskBox { desk }),
            Err(_) => Err(AllocError),
        }
    }

    pub(crate) fn into_desk(self) -> Desk
        ensures { result ≡ self }
    {
        Box::into_inner(self.desk)
    }

    /// What every desk is, for a caller's proof.
    pub(crate) fn lawful(&self)
        ensures legal { IsLegal self.now }
        ensures limit { length self.now.journal ≤ most_entries }
    {
        let _journal = self.desk.journal();
    }

    /// Whether an answer may go later than at once.
    pub(crate) fn can_delay(&self) -> bool
        ensures { result ≡ may_delay self.now.opening }
    {
        self.desk.ecu().can_delay()
    }

    /// The desk's step. It tells how long after its request the answer goes, where it was made.
    pub(crate) fn step(
        &mut self,
        who: TesterId,
        step: &Step,
        after_ms: &mut u32,
    ) -> Result<Option<Message>, StepFault>
        ensures ok { IfOk result (λ reply. self.new ≡ entered self.old (entry who step.now reply)) }
        ensures delay { OnOk result
            (after_ms.new ≡ delay_to (after self.old.opening self.old.journal) who step.now) }
        ensures err { OnErr result ((self.new ≡ self.old) × (after_ms.new ≡ after_ms.old)) }
        ensures full { (result ≡ Err StepFault.JournalFull) ↔ (length self.old.journal ≡ most_entries) }
        ensures ticks_unanswered { IfOk result (λ reply. HasNoReply step.now reply) }
    {
        let reply = self.desk.step(who, step)?;
        *after_ms = self.desk.after_ms();
        Ok(reply)
    }
}
