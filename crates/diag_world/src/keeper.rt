//! Who keeps the journal of what a server takes.

ghost use Rattle.std.specs.Prelude.{◌≡◌, ◌≤◌, IfErr, OnOk, OnErr, option_copied};
ghost use Rattle.diag_desk.specs.Entries.{asks};
ghost use Rattle.diag_port.specs.Fault.{IsFaultBy};
ghost use Rattle.diag_port.specs.Standing.{entry_of_ticks};
ghost use Rattle.diag_world.specs.Server.{closing_time};

use diag_can::TickCount;
use diag_ecu::Ecu;
use diag_pdu::{Message, Request};
use diag_setup::TesterId;
use std::alloc::AllocError;

/// Keeps the entries of what a server takes, or passes them over.
pub trait Keeper {
    ghost use Rattle.std.specs.Prelude.{ℕ};
    ghost use Rattle.diag_desk.specs.declared.entry.Entry.{Entry};
    ghost use Rattle.diag_ecu.specs.State.{State};

    /// Why an entry isn't kept: memory is refused, or no further entry can be kept. `AllocError` where one always can.
    type Fault: From<AllocError>;

    /// What is kept with this entry more, before which the ECU was this, and its tester's clock told this time.
    ghost keeps: { Self → State → ℕ → Entry → Self → Type 0 };

    /// No further entry can be kept.
    ghost is_full: { Self → Type 0 };

    /// What a keep that is refused leaves: the same but for room.
    ghost unkept: { Self → Self → Type 0 };

    /// The name of what is written to, where that is borrowed.
    ghost target: { Self → ℕ };

    /// Keeps the entry of a request and its reply; `ecu` is the ECU before it, and `before` the ticks of its tester.
    ///
    /// # Errors
    /// That of memory where it is refused, and another only where no further entry can be kept. What is kept is then as
    /// before.
    fn keep_request(
        &mut self,
        ecu: &Ecu,
        before: u64,
        who: TesterId,
        request: &Request,
        reply: Option<&Message>,
    ) -> Result<(), Self::Fault>
        requires early { before ≤ closing_time }
        ensures kept { OnOk result
            (keeps self.old ecu.now before (asks who request.now (option_copied reply.entry)) self.new) }
        ensures full { IfErr result (IsFaultBy Self.Fault.from_gives (is_full self.old)) }
        ensures err { OnErr result (unkept self.old self.new) }
        ensures target { target self.new ≡ target self.old };

    /// Keeps the entry of so many ticks; `ecu` is the ECU before them, and `before` the ticks of their tester.
    ///
    /// # Errors
    /// As `keep_request`.
    fn keep_ticks(
        &mut self,
        ecu: &Ecu,
        before: u64,
        who: TesterId,
        count: TickCount,
    ) -> Result<(), Self::Fault>
        requires early { before ≤ closing_time }
        ensures kept { OnOk result (keeps self.old ecu.now before (entry_of_ticks who count) self.new) }
        ensures full { IfErr result (IsFaultBy Self.Fault.from_gives (is_full self.old)) }
        ensures err { OnErr result (unkept self.old self.new) }
        ensures target { target self.new ≡ target self.old };

    /// A keeper that was asked nothing is as a refused keep leaves it.
    ghost unkept_same: { (keeper : Self) → unkept keeper keeper };
}

/// Keeps no entry, and is never full: for who wants a server's frames and no journal.
#[derive(Drop)]
pub struct NoJournal;

impl Keeper for NoJournal {
    ghost use Rattle.std.specs.Prelude.{◌≡◌, refl};

    type Fault = AllocError;

    ghost keeps = { λ old _ _ _ new. new ≡ old };

    ghost is_full = { λ _. ⊥ };

    ghost unkept = { λ old new. new ≡ old };

    ghost target = { λ _. 0 };

    fn keep_request(
        &mut self,
        _: &Ecu,
        _: u64,
        _: TesterId,
        _: &Request,
        _: Option<&Message>,
    ) -> Result<(), AllocError> {
        Ok(())
    }

    fn keep_ticks(&mut self, _: &Ecu, _: u64, _: TesterId, _: TickCount) -> Result<(), AllocError> {
        Ok(())
    }

    ghost unkept_same = { λ _. refl };
}
