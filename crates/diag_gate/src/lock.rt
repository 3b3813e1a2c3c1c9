//! The door over a lock.
ghost use Rattle.std.specs.Prelude.{◌≡◌, ◌↔◌, ◌++◌, ◌∷◌, [], length, true, false, None, Err, IfOk, OnOk, MatchResult};
ghost use Rattle.diag_desk.specs.Entry.{HasNoReply, most_entries};
ghost use Rattle.diag_gate.specs.Views.{HasNoDelay, IsLawful, timed_answer};

use crate::door::Door;
use diag_desk::{Desk, Journal, StepFault};
use diag_pdu::{Message, Step};
use diag_setup::TesterId;
use std::alloc::Global;
use std::marker::Model;
use std::sync::{Mutex, Wait};

/// A door to a desk under a lock. It keeps what it has answered.
#[derive(Drop)]
pub struct LockDoor<'a, R> {
    rt: &'a R,
    desk: &'a Mutex<Desk>,
    who: TesterId,
    given: Journal,
    /// Of each entry how long after its request the answer goes.
    delays: Vec<u32>,
    /// That of the last step; 0 before the first one.
    after_ms: u32,
}

impl<'a, R> Model for LockDoor<'a, R> {
    ghost use Rattle.std.specs.Prelude.{◌≡◌, length};
    ghost use Rattle.diag_gate.specs.Seats.{LockView};
    ghost use Rattle.diag_gate.specs.Views.{timed_by};

    ghost Value = { LockView };

    ghost view = { λ d. record {
      who = d.who;
      given = timed_by d.given.entries d.delays.items;
      delay = d.after_ms;
    } };

    ghost invariant = { λ d. length d.delays.items ≡ length d.given.entries };
}

impl<'a, R> LockDoor<'a, R> {
    /// A tester's door, which has answered nothing.
    pub fn new(rt: &'a R, alloc: Global, desk: &'a Mutex<Desk>, who: TesterId) -> LockDoor<'a, R>
        ensures { result ≡ record { who = who; given = []; delay = 0 } }
    {
        LockDoor {
            rt,
            desk,
            who,
            given: Journal::new(alloc),
            delays: Vec::new(alloc),
            after_ms: 0,
        }
    }
}

impl<'a, R: Wait> Door for LockDoor<'a, R> {
    ghost use Rattle.std.specs.Prelude.{None, true};

    ghost tester = { λ d. d.who };

    ghost given = { λ d. d.given };

    ghost delay = { λ d. d.delay };

    ghost can_delay = { λ _. true };

    ghost home = { λ _. None };

    fn who(&self) -> TesterId {
        self.who
    }

    fn after_ms(&self) -> u32 {
        self.after_ms
    }

    /// A desk under a lock may have rows of answers, whoever puts it there.
    fn can_delay(&self) -> bool {
        true
    }

    /// Its own journal has room before it locks, and a full one is looked at first. The answer and its delay are the
    /// desk's, so that they are lawful behind some legal journal of some setup; which desk gave them, the contract
    /// doesn't say.
    fn step(&mut self, step: &Step) -> Result<Option<Message>, StepFault>
        ensures lawful { IfOk result (λ reply. IsLawful self.old.who step.now reply self.new.delay) }
        ensures full { length self.old.given ≡ most_entries → result ≡ Err StepFault.JournalFull }
        ensures given { MatchResult result
            (λ reply. self.new.given ≡ self.old.given
            ++ timed_answer self.old.who step.now reply self.new.delay ∷ [])
            (λ _. (self.new.given ≡ self.old.given) × (self.new.delay ≡ self.old.delay)) }
        ensures ticks_unanswered { IfOk result (λ reply. HasNoReply step.now reply) }
        ensures ticks_at_once { OnOk result (HasNoDelay step.now self.new.delay) }
        ensures at_once { true ≡ false → OnOk result (self.new.delay ≡ 0) }
        ensures can_delay { true ≡ true }
        ensures tester { self.new.who ≡ self.old.who }
        ensures home { ⟦<LockDoor<'a, R> as Door>⟧.home self.new
            ≡ ⟦<LockDoor<'a, R> as Door>⟧.home self.old }
    {
        if self.given.is_full() {
            return Err(StepFault::JournalFull);
        }
        if self.given.make_room(step).is_err() || self.delays.reserve(1).is_err() {
            return Err(StepFault::Memory);
        }
        let (reply, after_ms) = lawful_step(&mut self.desk.lock(self.rt), self.who, step)?;
        if self.given.push(self.who, step, reply.as_ref()).is_err() {
            unreachable!();
        }
        self.delays.push_reserved(after_ms);
        self.after_ms = after_ms;
        Ok(reply)
    }
}

/// A desk's step, whose reply and delay are lawful behind the desk's journal. That this is full is looked at first.
fn lawful_step(
    desk: &mut Desk,
    who: TesterId,
    step: &Step,
) -> Result<(Option<Message>, u32), StepFault>
    ensures lawful { IfOk result (λ r. IsLawful who step.now r.0 r.1) }
    ensures ticks_unanswered { IfOk result (λ r. HasNoReply step.now r.0) }
    ensures ticks_at_once { IfOk result (λ r. HasNoDelay step.now r.1) }
    ensures full { (result ≡ Err StepFault.JournalFull) ↔ (length desk.old.journal ≡ most_entries) }
{
    let reply = desk.step(who, step)?;
    // (for its contract: a desk's journal is legal, from the opening of a checked setup)
    let _journal = desk.journal();
    Ok((reply, desk.after_ms()))
}
