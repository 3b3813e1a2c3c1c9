//! An exchange that isn't over, as it is kept.

ghost use Rattle.std.specs.Prelude.{◌≡◌, ◌≤◌, ◌+◌, ◌^◌, ◌↔◌, true, IfOk, IsErr, OnOk, OnErr};
ghost use Rattle.diag_exchange.specs.Asking.{is_pending};
ghost use Rattle.diag_exchange.specs.Streaming.{asked_again, completed, hearing, hears_no_more, marked, opened, request_in, with_message, with_request};

use crate::happening::{AskedRequest, CaptureLine, Heard, TakenRequest};
use crate::open::Open;
use diag_pdu::Message;
use std::alloc::{AllocError, Global};
use std::marker::Model;

/// An exchange on the heap, so that it moves by a word. Contracts see it as the exchange.
#[derive(Drop)]
pub struct OpenBox {
    open: Box<Open>,
}

impl Model for OpenBox {
    ghost use Rattle.diag_exchange.specs.declared.open.Open.{Open as AnOpen};

    ghost Value = { AnOpen };

    ghost view = { λ k. k.open.value };
}

impl OpenBox {
    /// A request of which nothing was heard.
    ///
    /// # Errors
    /// `AllocError` where memory is refused.
    #[inline(always)]
    pub fn new(alloc: Global, request: AskedRequest) -> Result<OpenBox, AllocError>
        ensures { IfOk result (λ kept. kept ≡ opened request) }
    {
        match Box::new(alloc, Open::new(request)) {
            Ok(open) => Ok(OpenBox { open }),
            Err(_) => Err(AllocError),
        }
    }

    /// As `Open::set`.
    ///
    /// # Errors
    /// As there.
    #[inline(always)]
    pub fn set(&mut self, lent: &TakenRequest<'_>) -> Result<(), AllocError>
        ensures ok { OnOk result (self.new ≡ opened (request_in lent.now)) }
        ensures err { OnErr result (self.new ≡ with_request self.new.request self.old) }
    {
        self.open.set(lent)
    }

    /// The same again.
    ///
    /// # Errors
    /// `AllocError` where memory is refused.
    pub fn try_copy(&self, alloc: Global) -> Result<OpenBox, AllocError>
        ensures { IfOk result (λ copy. copy ≡ self.now) }
    {
        match Box::new(alloc, self.open.try_copy(alloc)?) {
            Ok(open) => Ok(OpenBox { open }),
            Err(_) => Err(AllocError),
        }
    }

    /// The exchange.
    #[inline(always)]
    pub fn get(&self) -> &Open
        ensures { result.now ≡ self.now }
    {
        &self.open
    }

    /// As `Open::complete`.
    #[inline(always)]
    pub fn complete(&mut self, at: CaptureLine, ignored: bool)
        ensures { self.new ≡ completed at ignored self.old }
    {
        self.open.complete(at, ignored);
    }

    /// As `Open::mark`.
    pub fn mark(&mut self, marks: Option<Message>)
        ensures { self.new ≡ marked marks self.old }
    {
        self.open.mark(marks);
    }

    /// As `Open::hear`.
    pub fn hear(&mut self)
        ensures { self.new ≡ hearing self.old }
    {
        self.open.hear();
    }

    /// As `Open::take`.
    ///
    /// # Errors
    /// As there.
    #[inline(always)]
    pub fn take(&mut self, heard: Heard) -> Result<(), AllocError>
        ensures ok { OnOk result (self.new ≡ with_message heard self.old) }
        ensures full { IsErr result ↔ ((is_pending heard ≡ true) × (2 ^ 64 ≤ self.old.pendings + 1)) }
        ensures err { OnErr result (self.new ≡ self.old) }
    {
        self.open.take(heard)
    }

    /// As `Open::hear_no_more`.
    pub fn hear_no_more(&mut self)
        ensures { self.new ≡ hears_no_more self.old }
    {
        self.open.hear_no_more();
    }

    /// As `Open::ask_again`.
    #[inline(always)]
    pub fn ask_again(&mut self, request: &AskedRequest)
        ensures { self.new ≡ asked_again request.now self.old }
    {
        self.open.ask_again(request);
    }
}
