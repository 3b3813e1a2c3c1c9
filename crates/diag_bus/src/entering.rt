//! The entries of the run's journal, as a sink is told of them.

use crate::sink::Sink;
use diag_can::TickCount;
use diag_ecu::Ecu;
use diag_pdu::{Message, Request};
use diag_setup::TesterId;
use diag_world::Keeper;
use std::alloc::AllocError;

/// Has a sink enter what the server takes.
#[derive(Drop)]
pub struct Entering<'a, S> {
    /// The sink.
    pub sink: &'a mut S,
}

impl<'a, S: Sink> Keeper for Entering<'a, S> {
    ghost use Rattle.std.specs.Prelude.{refl};
    ghost use Rattle.diag_bus.specs.Sink.{Enters, StaysFor};

    type Fault = AllocError;

    ghost keeps = { λ old ecu before k new. Enters S.took old.sink.now new.sink.now ecu before k
        × StaysFor S.is_for S.aim old.sink.now new.sink.now };

    ghost is_full = { λ _. ⊥ };

    ghost unkept = { λ old new. StaysFor S.is_for S.aim old.sink.now new.sink.now };

    ghost target = { λ entering. entering.sink.ghost_name };

    #[inline(always)]
    fn keep_request(
        &mut self,
        ecu: &Ecu,
        before: u64,
        who: TesterId,
        request: &Request,
        reply: Option<&Message>,
    ) -> Result<(), AllocError> {
        self.sink.enter_request(ecu, before, who, request, reply)
    }

    #[inline(always)]
    fn keep_ticks(
        &mut self,
        ecu: &Ecu,
        before: u64,
        who: TesterId,
        count: TickCount,
    ) -> Result<(), AllocError> {
        self.sink.enter_ticks(ecu, before, who, count)
    }

    ghost unkept_same = { λ _. (λ _ h. h, refl) };
}
