//! What a worker keeps of what it asked.
ghost use Rattle.std.specs.Prelude.{◌≡◌, ◌<◌, List, ℕ, [], ◌∷◌, ◌++◌, OnOk, option_copied};
ghost use Rattle.diag_desk.specs.Entries.{entry};
ghost use Rattle.diag_desk.specs.Entry.{HasNoReply};
ghost use Rattle.diag_desk.specs.declared.entry.Entry.{Entry as AnEntry};
ghost use Rattle.diag_workers.specs.Work.{CanKeep};

use diag_desk::Journal;
use diag_pdu::{Message, Step};
use diag_setup::TesterId;
use std::alloc::{AllocError, Global};

/// What a worker keeps of its entries: all of them, or nothing.
pub trait Keep {
    ghost use Rattle.std.specs.Prelude.{List};
    ghost use Rattle.diag_desk.specs.declared.entry.Entry.{Entry};
    ghost use Rattle.diag_pdu.specs.declared.step.Step.{Step};

    /// It is what is kept of these entries.
    ghost keeps: { Self → List Entry → Type 0 };

    /// Room was made for an entry of this step.
    ghost has_room: { Self → Step → Type 0 };

    /// What is kept of no entry.
    fn none(alloc: Global) -> Self
        ensures { keeps result [] };

    /// Makes room for an entry of this step with any reply. Refused, the same is kept.
    fn prepare(&mut self, step: &Step) -> Result<(), AllocError>
        ensures room { OnOk result (has_room self.new step.now) }
        ensures same { (entries : List AnEntry) → keeps self.old entries → keeps self.new entries };

    /// Takes an entry for which room was made.
    fn enter(&mut self, who: TesterId, step: &Step, reply: Option<&Message>)
        requires room { has_room self.old step.now }
        requires limit { CanKeep keeps self.old }
        requires ticks_unanswered { HasNoReply step.now (option_copied reply) }
        ensures { (entries : List AnEntry)
            → keeps self.old entries
            → keeps self.new (entries ++ entry who step.now (option_copied reply.entry) ∷ []) };
}

impl Keep for Journal {
    ghost use Rattle.diag_desk.specs.Entry.{HasRoom};
    ghost use Rattle.diag_workers.specs.Work.{holds};

    ghost keeps = { holds };

    ghost has_room = { HasRoom };

    fn none(alloc: Global) -> Journal {
        Journal::new(alloc)
    }

    fn prepare(&mut self, step: &Step) -> Result<(), AllocError> {
        self.make_room(step)
    }

    fn enter(&mut self, who: TesterId, step: &Step, reply: Option<&Message>) {
        if self.push(who, step, reply).is_err() {
            unreachable!();
        }
    }
}

/// Nothing is kept: the door knows what it was asked.
#[derive(Drop)]
pub struct Unkept;

impl Keep for Unkept {
    ghost use Rattle.std.specs.Prelude.{⊤};

    ghost keeps = { λ _ _. ⊤ };

    ghost has_room = { λ _ _. ⊤ };

    fn none(_alloc: Global) -> Unkept {
        Unkept
    }

    fn prepare(&mut self, _step: &Step) -> Result<(), AllocError> {
        Ok(())
    }

    fn enter(&mut self, _who: TesterId, _step: &Step, _reply: Option<&Message>) {}
}
