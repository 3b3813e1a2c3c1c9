//! The steps on the word, and a tester's step at the desk.
ghost use Rattle.std.specs.Prelude.{◌≡◌, ◌≢◌, ℕ, [], ◌∷◌, ◌++◌, MatchOption, MatchResult, IfOk};
ghost use Rattle.diag_desk.specs.Entry.{HasNoReply};
ghost use Rattle.diag_desk.specs.Entries.{entry, own};
ghost use Rattle.diag_gate.specs.Views.{IsLegal, letting_go};
ghost use Rattle.diag_gate.specs.Seats.{Finds, Answered, IsFull, Refused, NotMade, IsSeat, IsGuard, as_tried, seat_of, misses, waited};

use super::{Gate, Guard, Place, Seat};
use crate::desk_box::DeskBox;
use crate::fault::TryFault;
use crate::view::{Release, Take};
use diag_desk::StepFault;
use diag_pdu::{Message, Step};
use diag_setup::TesterId;
use std::sync::Wait;
use std::thread;

impl Gate {
    /// The desk, where the word was found to be 0.
    fn take(&self, place: &mut Place, who: TesterId) -> Option<DeskBox>
        requires gate { place.old.spot.table_id ≡ self.now }
        requires seat { IsSeat who place.old.spot.me }
        ensures gate { place.new.spot.table_id ≡ place.old.spot.table_id }
        ensures taken { MatchOption result
            (IsSeat who place.new.spot.me × (seat_of who place.new ≡ misses (seat_of who place.old)))
            (λ d. IsGuard who place.new.spot.me d × Finds (seat_of who place.old) (seat_of who place.new)) }
    {
        let shared = &self.table.shared;
        if shared.compare_exchange::<Take>(&mut place.spot, 0, 0, 1) == 0 {
            shared.exchange(&mut place.spot, 0, None)
        } else {
            None
        }
    }

    /// Puts the desk back, with what the seat's tester did to it.
    fn put(&self, place: &mut Place, who: TesterId, desk: DeskBox)
        requires gate { place.old.spot.table_id ≡ self.now }
        requires held { (before : _)
            × IsGuard who place.old.spot.me before
            × (desk.opening ≡ before.opening) }
        requires grown { (more : _)
            × (desk.journal ≡ place.old.spot.me.0.seen ++ more)
            × ((t : ℕ) → t ≢ who → own more t ≡ []) }
        ensures gate { place.new.spot.table_id ≡ place.old.spot.table_id }
        ensures seat { IsSeat who place.new.spot.me }
        ensures put { place.new.spot.me.0 ≡ letting_go place.old.spot.me.0 desk }
        ensures legal { IsLegal desk }
        ensures delay { place.new.after_ms ≡ place.old.after_ms }
    {
        desk.lawful();
        let shared = &self.table.shared;
        drop(shared.exchange(&mut place.spot, 0, Some(desk)));
        shared.store::<Release>(&mut place.spot, 0, 0);
    }

    /// One step at the desk that the seat has.
    fn work(
        &self,
        place: &mut Place,
        who: TesterId,
        mut desk: DeskBox,
        step: &Step,
    ) -> Result<Option<Message>, StepFault>
        requires gate { place.old.spot.table_id ≡ self.now }
        requires held { IsGuard who place.old.spot.me desk }
        ensures gate { place.new.spot.table_id ≡ place.old.spot.table_id }
        ensures seat { IsSeat who place.new.spot.me }
        ensures answer { MatchResult result
            (λ r. Answered (seat_of who place.old) (seat_of who place.new) step.now r)
            (λ e. (seat_of who place.new ≡ seat_of who place.old) × IsFull (seat_of who place.old) e) }
        ensures behind { IfOk result (λ r.
            place.new.spot.me.0.seen ≡ place.old.spot.me.0.seen ++ entry who step.now r ∷ []) }
        ensures ticks_unanswered { IfOk result (λ r. HasNoReply step.now r) }
    {
        desk.lawful();
        let answer = desk.step(who, step, &mut place.after_ms);
        self.put(place, who, desk);
        answer
    }

    /// The whole desk, where the word was found to be 0; else the seat back.
    pub fn try_take(&self, seat: Seat) -> Result<Guard<'_>, Seat>
        requires { seat.gate ≡ self.now }
        ensures { MatchResult result (λ h. Finds seat h) (λ s. s ≡ misses seat) }
    {
        let Seat {
            mut place,
            who,
            can_delay,
        } = seat;
        match self.take(&mut place, who) {
            Some(desk) => Ok(Guard {
                gate: self,
                place,
                who,
                can_delay,
                desk,
            }),
            None => Err(Seat {
                place,
                who,
                can_delay,
            }),
        }
    }

    /// One step, where the word was found to be 0.
    ///
    /// # Errors
    /// `Busy`, with the step, where the word was found to be 1; else as the desk's step. The desk is then as it was.
    pub fn try_step(&self, seat: &mut Seat, step: Step) -> Result<Option<Message>, TryFault>
        requires { seat.old.gate ≡ self.now }
        ensures made { MatchResult result
            (λ r. Answered seat.old seat.new step r)
            (λ e. NotMade seat.old seat.new step e) }
        ensures ticks_unanswered { IfOk result (λ r. HasNoReply step r) }
    {
        let who = seat.who;
        let Some(desk) = self.take(&mut seat.place, who) else {
            return Err(TryFault::Busy(step));
        };
        let answer = self.work(&mut seat.place, who, desk, &step);
        tried(answer)
    }

    /// One step. It waits until the word is found to be 0.
    ///
    /// # Errors
    /// As the desk's step, which is then as it was: `JournalFull` where the journal is full, `Memory` where memory is
    /// refused.
    pub fn step<R: Wait>(
        &self,
        rt: &R,
        seat: &mut Seat,
        step: &Step,
    ) -> Result<Option<Message>, StepFault>
        requires { seat.old.gate ≡ self.now }
        ensures made { (missed : ℕ)
            × MatchResult result
            (λ r. Answered (waited seat.old missed) seat.new step.now r)
            (λ e. Refused (waited seat.old missed) seat.new e) }
        ensures ticks_unanswered { IfOk result (λ r. HasNoReply step.now r) }
    {
        let who = seat.who;
        for _ in rt.forever() {
            if let Some(desk) = self.take(&mut seat.place, who) {
                return self.work(&mut seat.place, who, desk, step);
            }
            give_way();
        }
        unreachable!()
    }
}

/// How often a tester that found the desk out lets the others run before it tries again. A try takes the word's cache
/// line from the one that has the desk, so a few turns more leave that one to take many steps in the time.
const TURNS: u32 = 32;

/// Lets the other threads run.
fn give_way() {
    for _ in 0..TURNS {
        thread::yield_now();
    }
}

/// The answer to a step that was tried.
fn tried(answer: Result<Option<Message>, StepFault>) -> Result<Option<Message>, TryFault>
    ensures { result ≡ as_tried answer }
{
    match answer {
        Ok(reply) => Ok(reply),
        Err(StepFault::Memory) => Err(TryFault::Memory),
        Err(StepFault::JournalFull) => Err(TryFault::JournalFull),
    }
}

impl Guard<'_> {
    /// One step at the desk, which then goes back: behind what the seat has seen comes this step, and nothing else.
    ///
    /// # Errors
    /// As the desk's step: the desk goes back as it was.
    pub fn step(self, step: &Step) -> (Seat, Result<Option<Message>, StepFault>)
        ensures made { MatchResult result.1
            (λ r. Answered self.entry result.0 step.now r)
            (λ e. (result.0 ≡ self.entry) × IsFull self.entry e) }
        ensures behind { IfOk result.1 (λ r. result.0.seen
            ≡ self.entry.seen ++ entry self.entry.who step.now r ∷ []) }
        ensures ticks_unanswered { IfOk result.1 (λ r. HasNoReply step.now r) }
    {
        let Guard {
            gate,
            mut place,
            who,
            can_delay,
            desk,
        } = self;
        let answer = gate.work(&mut place, who, desk, step);
        let seat = Seat {
            place,
            who,
            can_delay,
        };
        (seat, answer)
    }

    /// The desk goes back as it is.
    pub fn put_back(self) -> Seat
        ensures { result ≡ self.entry }
    {
        let Guard {
            gate,
            mut place,
            who,
            can_delay,
            desk,
        } = self;
        gate.put(&mut place, who, desk);
        Seat {
            place,
            who,
            can_delay,
        }
    }
}
