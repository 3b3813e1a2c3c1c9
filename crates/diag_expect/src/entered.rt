//! A request as the server took it, and what is expected of the unit.

ghost use Rattle.std.specs.Prelude.{◌≡◌, ◌≤◌, length, option_copied, IfOk, IsSome, OnErr};
ghost use Rattle.diag_expect.specs.Entered.{Model};
ghost use Rattle.diag_exchange.specs.Spare.{one_less};
ghost use Rattle.diag_exchange.specs.Streaming.{opened};
ghost use Rattle.diag_expect.specs.Expecting.{asked_at, entered_of, expected_of};

use crate::expecting::{is_ignored, own_marks, template_marks};
use diag_ecu::Ecu;
use diag_exchange::{CaptureLine, OpenBox, Spare, TakenRequest};
use diag_pdu::{Message, Request};
use diag_setup::{Setup, TesterId};
use std::alloc::{AllocError, Global};
use std::marker::Model;

/// A request as the server took it, with its reply. It is kept as the exchange to come, so that it needn't be moved there.
#[derive(Drop)]
pub struct Entered {
    kept: OpenBox,
}

impl Model for Entered {
    ghost use Rattle.diag_expect.specs.Entered.{Entered as AnEntered, IsKept, entered_in};

    ghost Value = { AnEntered };

    ghost view = { λ e. entered_in e.kept };

    ghost invariant = { λ e. IsKept e.kept };
}

impl Entered {
    /// A request of a tester with its reply, by the ECU before it. It goes into a spare box, where there is one.
    ///
    /// # Errors
    /// `AllocError` where memory is refused; the box is gone then.
    #[inline(always)]
    pub fn of(
        spare: &mut Spare,
        ecu: &Ecu,
        who: TesterId,
        request: &Request,
        reply: Option<&Message>,
    ) -> Result<Entered, AllocError>
        ensures entered { IfOk result (λ entered. entered
            ≡ entered_of ecu.now who request.now (option_copied reply.entry)) }
        ensures spare { spare.new ≡ one_less spare.old }
    {
        let items = ecu.template_for(who, request.message.bytes());
        let mut kept = spare.open(&TakenRequest {
            functional: request.functional,
            bytes: &request.message,
            reply,
            own: items.is_none(),
        })?;
        if let Some(items) = items {
            kept.mark(template_marks(spare.alloc(), items)?);
        }
        Ok(Entered { kept })
    }

    /// The exchange of the request, complete at a line, with what is expected of the unit.
    ///
    /// # Errors
    /// `AllocError` where memory is refused, which is asked for only where bytes of the services' own reply vary.
    #[inline(always)]
    pub fn into_exchange(
        self,
        alloc: Global,
        setup: &Setup,
        at: CaptureLine,
    ) -> Result<OpenBox, AllocError>
        ensures own { IfOk result (λ own. own ≡ opened (asked_at setup.now at self)) }
        ensures err { OnErr result ((self.source ≡ Model) × IsSome (expected_of setup.now self).varies) }
    {
        let mut own = self.kept;
        let ignored = is_ignored(setup, own.get().request.bytes.bytes());
        own.complete(at, ignored);
        let request = &own.get().request;
        match &request.expected.reply {
            None => {
                if request.expected.varies.is_some() {
                    own.mark(None);
                }
            }
            Some(reply) => {
                if request.expected.own {
                    let marks = own_marks(alloc, setup, request.bytes.bytes(), reply.bytes())?;
                    own.mark(marks);
                }
            }
        }
        Ok(own)
    }
}
