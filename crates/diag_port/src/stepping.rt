//! Who takes the steps that events give.

ghost use Rattle.std.specs.Prelude.{◌≡◌, None, IfErr, IfOk, OnErr, OnOk, false};
ghost use Rattle.diag_port.specs.Fault.{IsFaultBy};
ghost use Rattle.diag_port.specs.Standing.{timed_asks, timed_ticks};

use diag_can::TickCount;
use diag_desk::{Desk, StepFault};
use diag_pdu::{Message, Request};
use diag_setup::TesterId;
use std::alloc::AllocError;

/// Takes the testers' steps and answers them: a desk, a server's ECU with who keeps its journal, or whoever asks a door.
pub trait TakeSteps {
    ghost use Rattle.std.specs.Prelude.{ℕ, Bool};
    ghost use Rattle.diag_desk.specs.Timed.{Timed};

    /// Why a step isn't taken: memory is refused, or there is no room for an entry more.
    type Fault: From<AllocError>;

    /// It takes the steps of this tester while its clock tells this time.
    ghost allows: { Self → ℕ → ℕ → Type 0 };

    /// What it is with this entry more, with the delay of its reply, before which its tester's clock told this time.
    ghost takes: { Self → ℕ → Timed → Self → Type 0 };

    /// Whether a reply may go later than at once.
    ghost can_delay: { Self → Bool };

    /// It has no room for an entry more.
    ghost is_full: { Self → Type 0 };

    /// What a step that is refused leaves.
    ghost refuses: { Self → Self → Type 0 };

    /// What no step changes, as the names of what it borrows.
    ghost stays: { Self → Self → Type 0 };

    /// Whether a reply may go later than at once: room for what is then held is made before the request is taken.
    fn can_delay(&self) -> bool
        ensures { result ≡ can_delay self.now };

    /// Takes a request of a tester, whose clock told `before` before it, puts the reply in its place, where nothing stands,
    /// and tells how many ticks later it goes.
    ///
    /// # Errors
    /// That of memory where it is refused, and another only where there is no room for an entry more. The request isn't
    /// taken then.
    fn take_request(
        &mut self,
        before: u64,
        who: TesterId,
        request: &Request,
        reply: &mut Option<Message>,
    ) -> Result<u32, Self::Fault>
        requires allows { allows self.old who before }
        requires none { reply.old ≡ None }
        ensures took { IfOk result (λ after.
            takes self.old before (timed_asks who request.now reply.new after) self.new) }
        ensures at_once { can_delay self.old ≡ false → IfOk result (λ after. after ≡ 0) }
        ensures full { IfErr result (IsFaultBy Self.Fault.from_gives (is_full self.old)) }
        ensures refused { OnErr result (refuses self.old self.new) }
        ensures stays { stays self.old self.new };

    /// Takes so many ticks of a tester, as the step that they are. They have no reply.
    ///
    /// # Errors
    /// As `take_request`.
    fn take_ticks(
        &mut self,
        before: u64,
        who: TesterId,
        count: TickCount,
    ) -> Result<(), Self::Fault>
        requires allows { allows self.old who before }
        ensures took { OnOk result (takes self.old before (timed_ticks who count) self.new) }
        ensures full { IfErr result (IsFaultBy Self.Fault.from_gives (is_full self.old)) }
        ensures refused { OnErr result (refuses self.old self.new) }
        ensures stays { stays self.old self.new };

    /// One that was asked nothing is as one that refused.
    ghost refuses_none: { (taker : Self) → refuses taker taker };

    /// And nothing of it has changed.
    ghost stays_itself: { (taker : Self) → stays taker taker };
}

impl TakeSteps for Desk {
    ghost use Rattle.std.specs.Prelude.{◌≡◌, ⊤, length, refl};
    ghost use Rattle.diag_desk.specs.Entry.{most_entries};
    ghost use Rattle.diag_desk.specs.Legal.{after, entered};
    ghost use Rattle.diag_desk.specs.Timed.{timed_entry};
    ghost use Rattle.diag_ecu.specs.Respond.{may_delay};

    type Fault = StepFault;

    ghost allows = { λ _ _ _. ⊤ };

    ghost takes = { λ old _ x new.
        (new ≡ entered old x.entry) × (x ≡ timed_entry (after old.opening old.journal) x.entry) };

    ghost can_delay = { λ desk. may_delay (after desk.opening desk.journal) };

    ghost is_full = { λ desk. length desk.journal ≡ most_entries };

    ghost refuses = { λ old new. new ≡ old };

    ghost stays = { λ _ _. ⊤ };

    fn can_delay(&self) -> bool {
        self.ecu().can_delay()
    }

    fn take_request(
        &mut self,
        _before: u64,
        who: TesterId,
        request: &Request,
        reply: &mut Option<Message>,
    ) -> Result<u32, StepFault> {
        *reply = self.request(who, request)?;
        Ok(self.after_ms())
    }

    fn take_ticks(
        &mut self,
        _before: u64,
        who: TesterId,
        count: TickCount,
    ) -> Result<(), StepFault> {
        self.ticks(who, count)
    }

    ghost refuses_none = { λ _. refl };

    ghost stays_itself = { λ _. tt };
}
