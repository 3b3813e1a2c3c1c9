//! An exchange that isn't over.

ghost use Rattle.std.specs.Prelude.{◌≡◌, ◌+◌, ◌∷◌, [], option_copied, true, ◌≤◌, ◌^◌, ◌↔◌, IfOk, IsErr, OnOk, OnErr};
ghost use Rattle.diag_exchange.specs.Asking.{begins_as, begins_as_reply, first_byte, fits, is_pending, is_positive};
ghost use Rattle.diag_exchange.specs.Streaming.{asked_again, completed, hearing, hears_no_more, is_candidate, is_done, marked, may_hear, opened, request_in, with_message, with_request};

use crate::happening::{AskedRequest, CaptureLine, Heard, Start, TakenRequest};
use diag_pdu::Message;
use std::alloc::{AllocError, Global};

/// A request with what the unit has sent to it so far.
#[derive(Drop)]
pub struct Open {
    /// The request.
    pub request: AskedRequest,
    /// How many times response pending came.
    pub pendings: u64,
    /// The message that isn't response pending, where there is one.
    pub answer: Option<Heard>,
    /// A message is coming in that would answer it.
    pub hears: bool,
    /// A later request has its first byte, and isn't silent behind a loud one.
    pub replaced: bool,
}

/// Whether a message begins as these bytes: with the first one, and where that is 0x7F with the second one too.
fn begins_as(start: &Start, bytes: &[u8]) -> bool
    ensures { result ≡ begins_as start.now bytes.now }
{
    match bytes {
        [] => false,
        [0x7F] => start.first == 0x7F && start.second.is_none(),
        [0x7F, second, ..] => start.first == 0x7F && start.second == Some(*second),
        [first, ..] => start.first == *first,
    }
}

/// Whether a message begins as the server's reply.
fn begins_as_reply(start: &Start, reply: Option<&Message>) -> bool
    ensures { result ≡ begins_as_reply start.now (option_copied reply.entry) }
{
    match reply {
        Some(reply) => begins_as(start, reply.bytes()),
        None => false,
    }
}

/// Whether a message is a positive response of a service.
fn is_positive(start: &Start, service: u8) -> bool
    ensures { result ≡ is_positive start.now service }
{
    start.first != 0x7F && u16::from(start.first) == u16::from(service) + 0x40
}

/// Whether a message fits a request: as a positive response, a negative response, or as the server's reply.
fn fits(start: &Start, request: &AskedRequest) -> bool
    ensures { result ≡ fits start.now request.now }
{
    let service = request.first_byte();
    is_positive(start, service)
        || begins_as(start, &[0x7F, service])
        || begins_as_reply(start, request.expected.reply.as_ref())
}

impl Open {
    /// A request of which nothing was heard.
    #[inline(always)]
    pub fn new(request: AskedRequest) -> Open
        ensures { result ≡ opened request }
    {
        Open {
            request,
            pendings: 0,
            answer: None,
            hears: false,
            replaced: false,
        }
    }

    /// Becomes a request that is lent, of which nothing was heard.
    ///
    /// # Errors
    /// `AllocError` where memory is refused; then its request alone has changed.
    #[inline(always)]
    pub fn set(&mut self, lent: &TakenRequest<'_>) -> Result<(), AllocError>
        ensures ok { OnOk result (self.new ≡ opened (request_in lent.now)) }
        ensures err { OnErr result (self.new ≡ with_request self.new.request self.old) }
    {
        self.request.set(lent)?;
        self.pendings = 0;
        // (mostly there is none, and nothing is written then)
        if self.answer.is_some() {
            self.answer = None;
        }
        self.hears = false;
        self.replaced = false;
        Ok(())
    }

    /// Its request is complete at a line, and ignored or not.
    #[inline(always)]
    pub fn complete(&mut self, at: CaptureLine, ignored: bool)
        ensures { self.new ≡ completed at ignored self.old }
    {
        self.request.at = at;
        self.request.expected.ignored = ignored;
    }

    /// These bytes of the server's reply vary.
    #[inline(always)]
    pub fn mark(&mut self, marks: Option<Message>)
        ensures { self.new ≡ marked marks self.old }
    {
        // (mostly none do, and nothing is written then)
        if marks.is_none() && self.request.expected.varies.is_none() {
            return;
        }
        self.request.expected.varies = marks;
    }

    /// Whether it is over, where the newest happening is a request or not.
    #[inline(always)]
    pub fn is_done(&self, asked: bool) -> bool
        ensures { result ≡ is_done asked self.now }
    {
        (self.replaced || (asked && self.answer.is_some())) && !self.hears
    }

    /// The same again.
    ///
    /// # Errors
    /// `AllocError` where memory is refused.
    pub fn try_copy(&self, alloc: Global) -> Result<Open, AllocError>
        ensures { IfOk result (λ copy. copy ≡ self.now) }
    {
        let answer = match &self.answer {
            Some(heard) => Some(heard.try_copy(alloc)?),
            None => None,
        };
        Ok(Open {
            request: self.request.try_copy(alloc)?,
            pendings: self.pendings,
            answer,
            hears: self.hears,
            replaced: self.replaced,
        })
    }

    /// Whether a message that begins so may answer it.
    pub fn is_candidate(&self, start: &Start) -> bool
        ensures { result ≡ is_candidate start.now self.now }
    {
        self.answer.is_none() && !self.replaced && fits(start, &self.request)
    }

    /// The same, and where loud requests alone are looked for, whether it is loud.
    pub fn may_hear(&self, loud: bool, start: &Start) -> bool
        ensures { result ≡ may_hear loud start.now self.now }
    {
        if loud && !self.request.is_loud() {
            return false;
        }
        self.is_candidate(start)
    }

    /// A message begins that would answer it.
    pub fn hear(&mut self)
        ensures { self.new ≡ hearing self.old }
    {
        self.hears = true;
    }

    /// The message that was coming in answers it.
    ///
    /// # Errors
    /// `AllocError` exactly where it says response pending, which came 2^64 - 1 times before, and then nothing has changed.
    #[inline(always)]
    pub fn take(&mut self, heard: Heard) -> Result<(), AllocError>
        ensures ok { OnOk result (self.new ≡ with_message heard self.old) }
        ensures full { IsErr result ↔ ((is_pending heard ≡ true) × (2 ^ 64 ≤ self.old.pendings + 1)) }
        ensures err { OnErr result (self.new ≡ self.old) }
    {
        if heard.is_pending() {
            self.pendings = self.pendings.checked_add(1).ok_or(AllocError)?;
        } else {
            self.answer = Some(heard);
        }
        self.hears = false;
        Ok(())
    }

    /// No message is coming in any more.
    pub fn hear_no_more(&mut self)
        ensures { self.new ≡ hears_no_more self.old }
    {
        self.hears = false;
    }

    /// A request is complete behind it.
    #[inline(always)]
    pub fn ask_again(&mut self, request: &AskedRequest)
        ensures { self.new ≡ asked_again request.now self.old }
    {
        self.replaced = self.replaced || request.replaces(&self.request);
    }
}
