//! What a worker steps through, and the door over a gate.
ghost use Rattle.std.specs.Prelude.{◌≡◌, ℕ, ◌++◌, ◌∷◌, [], false, Some, IfOk, OnOk, MatchResult};
ghost use Rattle.diag_desk.specs.Entry.{HasNoReply};
ghost use Rattle.diag_gate.specs.Seats.{Answered, Refused, waited};
ghost use Rattle.diag_ecu.specs.Respond.{may_delay};
ghost use Rattle.diag_gate.specs.Views.{HasNoDelay, timed_answer};

use crate::gate::{Gate, Seat};
use diag_desk::StepFault;
use diag_pdu::{Message, Step};
use diag_setup::TesterId;
use std::marker::Model;
use std::sync::Wait;

/// One tester's way to the desk.
pub trait Door {
    ghost use Rattle.std.specs.Prelude.{ℕ, Bool, List, Option};
    ghost use Rattle.atomic_table.specs.Seated.{TableId};
    ghost use Rattle.diag_desk.specs.Timed.{Timed};

    /// The place of its tester.
    ghost tester: { Self → ℕ };

    /// The entries that it has answered, in order, each with the delay of its answer.
    ghost given: { Self → List Timed };

    /// How long after its request the answer of the last step goes: 0 before the first one.
    ghost delay: { Self → ℕ };

    /// Whether an answer may go later than at once.
    ghost can_delay: { Self → Bool };

    /// The gate that its seat came from, if it has one.
    ghost home: { Self → Option TableId };

    /// Its tester.
    fn who(&self) -> TesterId
        ensures { result ≡ tester self.now };

    /// How long after its request the answer of the last step goes, in milliseconds: 0 before the first one.
    fn after_ms(&self) -> u32
        ensures { result ≡ delay self.now };

    /// Whether an answer may go later than at once.
    fn can_delay(&self) -> bool
        ensures { result ≡ can_delay self.now };

    /// Has the desk take a step. A refusal gives nothing; ticks have no reply, and no delay.
    fn step(&mut self, step: &Step) -> Result<Option<Message>, StepFault>
        ensures given { MatchResult result
            (λ reply. given self.new ≡ given self.old
            ++ timed_answer (tester self.old) step.now reply (delay self.new) ∷ [])
            (λ _. (given self.new ≡ given self.old) × (delay self.new ≡ delay self.old)) }
        ensures ticks_unanswered { IfOk result (λ reply. HasNoReply step.now reply) }
        ensures ticks_at_once { OnOk result (HasNoDelay step.now (delay self.new)) }
        ensures at_once { can_delay self.old ≡ false → OnOk result (delay self.new ≡ 0) }
        ensures can_delay { can_delay self.new ≡ can_delay self.old }
        ensures tester { tester self.new ≡ tester self.old }
        ensures home { home self.new ≡ home self.old };
}

/// A seat with its gate. Contracts see it as the seat.
#[derive(Drop)]
pub struct GateDoor<'a, R> {
    rt: &'a R,
    gate: &'a Gate,
    seat: Seat,
}

impl<'a, R> Model for GateDoor<'a, R> {
    ghost use Rattle.std.specs.Prelude.{◌≡◌};
    ghost use Rattle.diag_gate.specs.Seats.{SeatView};

    ghost Value = { SeatView };

    ghost view = { λ d. d.seat };

    ghost invariant = { λ d. d.seat.gate ≡ d.gate.now };
}

impl<'a, R> GateDoor<'a, R> {
    /// The door of a seat at its gate.
    pub fn new(rt: &'a R, gate: &'a Gate, seat: Seat) -> GateDoor<'a, R>
        requires { seat.gate ≡ gate.now }
        ensures { result ≡ seat }
    {
        GateDoor { rt, gate, seat }
    }

    /// The seat, as it is.
    pub fn into_seat(self) -> Seat
        ensures { result ≡ self.entry }
    {
        let GateDoor {
            rt: _,
            gate: _,
            seat,
        } = self;
        seat
    }
}

impl<R: Wait> Door for GateDoor<'_, R> {
    ghost use Rattle.std.specs.Prelude.{Some};

    ghost tester = { λ d. d.who };

    ghost given = { λ d. d.own };

    ghost delay = { λ d. d.delay };

    ghost can_delay = { λ d. may_delay d.opening };

    ghost home = { λ d. Some d.gate };

    fn who(&self) -> TesterId {
        self.seat.who()
    }

    fn after_ms(&self) -> u32 {
        self.seat.after_ms()
    }

    fn can_delay(&self) -> bool {
        self.seat.can_delay()
    }

    /// The gate's step, by its seat. It waits until no other seat has the desk.
    fn step(&mut self, step: &Step) -> Result<Option<Message>, StepFault>
        ensures made { (missed : ℕ)
            × MatchResult result
            (λ reply. Answered (waited self.old missed) self.new step.now reply)
            (λ fault. Refused (waited self.old missed) self.new fault) }
        ensures given { MatchResult result
            (λ reply. self.new.own ≡ self.old.own
            ++ timed_answer self.old.who step.now reply self.new.delay ∷ [])
            (λ _. (self.new.own ≡ self.old.own) × (self.new.delay ≡ self.old.delay)) }
        ensures ticks_unanswered { IfOk result (λ reply. HasNoReply step.now reply) }
        ensures ticks_at_once { OnOk result (HasNoDelay step.now self.new.delay) }
        ensures at_once { may_delay self.old.opening ≡ false → OnOk result (self.new.delay ≡ 0) }
        ensures can_delay { may_delay self.new.opening ≡ may_delay self.old.opening }
        ensures tester { self.new.who ≡ self.old.who }
        ensures home { Some self.new.gate ≡ Some self.old.gate }
    {
        self.gate.step(self.rt, &mut self.seat, step)
    }
}
