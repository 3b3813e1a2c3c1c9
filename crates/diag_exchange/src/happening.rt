//! What happens to a tester, and what comes of it.

ghost use Rattle.std.specs.Prelude.{◌≡◌, option_copied, Some, IfOk, OnOk};
ghost use Rattle.diag_exchange.specs.Streaming.{request_in};
ghost use Rattle.diag_exchange.specs.Asking.{first_byte, is_loud, is_pending, replaces, says_pending};

use diag_pdu::Message;
use std::alloc::{AllocError, Global};

/// A line of the capture.
#[derive(Clone, Copy, Drop)]
pub struct CaptureLine {
    /// Its number, from 1.
    pub number: u64,
    /// The bus's time of it, in milliseconds.
    pub moment: u64,
}

/// What the server makes of a request, and how a message of the unit is compared with it.
#[derive(Drop)]
pub struct Expected {
    /// The reply, where there is one.
    pub reply: Option<Message>,
    /// A mark for each byte of the reply, where some bytes vary: other than 0 where any byte will do. Behind the last
    /// mark all bytes count.
    pub varies: Option<Message>,
    /// Whether the reply is the model's own, and not that of a row.
    pub own: bool,
    /// Whether the exchange is ignored.
    pub ignored: bool,
}

/// A request, complete.
#[derive(Drop)]
pub struct AskedRequest {
    /// The line that completed it.
    pub at: CaptureLine,
    /// Whether it came to all units.
    pub functional: bool,
    /// Its bytes.
    pub bytes: Message,
    /// What the server makes of it.
    pub expected: Expected,
}

/// A request as the server took it, lent. Nothing is said yet of its line, of bytes that vary, or whether it is ignored.
#[derive(Drop)]
pub struct TakenRequest<'a> {
    /// Whether it came to all units.
    pub functional: bool,
    /// Its bytes.
    pub bytes: &'a Message,
    /// The reply, where there is one.
    pub reply: Option<&'a Message>,
    /// Whether the reply is the model's own, and not that of a row.
    pub own: bool,
}

/// The line of a request that isn't complete yet.
const NO_LINE: CaptureLine = CaptureLine {
    number: 0,
    moment: 0,
};

/// The first frame of a message of the unit: a SingleFrame or a FirstFrame.
#[derive(Clone, Copy, Drop)]
pub struct Start {
    /// Its line.
    pub at: CaptureLine,
    /// The message's first byte.
    pub first: u8,
    /// The byte behind it, where the message has one.
    pub second: Option<u8>,
}

/// A message of the unit.
#[derive(Drop)]
pub struct Heard {
    /// Its first frame.
    pub start: Start,
    /// Its bytes.
    pub bytes: Message,
}

/// What happens to a tester, in the order of the capture.
#[derive(Drop)]
pub enum Happening {
    /// A request is complete.
    Asked(AskedRequest),
    /// A message of the unit begins.
    Began(Start),
    /// The message that began is complete.
    Came(Message),
    /// The message that began never will be.
    Lost,
}

/// Whether bytes say response pending (ISO 14229-1:2013, A.1).
pub(crate) fn says_pending(bytes: &[u8]) -> bool
    ensures { result ≡ says_pending bytes.now }
{
    matches!(bytes, [0x7F, _, 0x78])
}

/// Another message of these bytes, where there is one.
fn copy_of(alloc: Global, message: Option<&Message>) -> Result<Option<Message>, AllocError>
    ensures { IfOk result (λ copy. copy ≡ option_copied message.entry) }
{
    match message {
        Some(message) => Ok(Some(Message::of(alloc, message.bytes())?)),
        None => Ok(None),
    }
}

/// Becomes a message of the same bytes, or none. (None where there was none writes nothing.)
#[inline(always)]
fn set_copy(place: &mut Option<Message>, message: Option<&Message>) -> Result<(), AllocError>
    ensures { OnOk result (place.new ≡ option_copied message.entry) }
{
    let Some(message) = message else {
        if place.is_some() {
            *place = None;
        }
        return Ok(());
    };
    match place {
        Some(kept) => kept.set_copy(message),
        None => fill(place, message),
    }
}

/// The same where there was none, and is one.
#[inline(never)]
fn fill(place: &mut Option<Message>, message: &Message) -> Result<(), AllocError>
    ensures { OnOk result (place.new ≡ Some message.now) }
{
    *place = Some(message.try_copy()?);
    Ok(())
}

impl<'a> TakenRequest<'a> {
    /// The request in memory of its own.
    ///
    /// # Errors
    /// `AllocError` where memory is refused.
    pub(crate) fn try_copy(&self, alloc: Global) -> Result<AskedRequest, AllocError>
        ensures { IfOk result (λ request. request ≡ request_in self.now) }
    {
        Ok(AskedRequest {
            at: NO_LINE,
            functional: self.functional,
            bytes: self.bytes.try_copy()?,
            expected: Expected {
                reply: copy_of(alloc, self.reply)?,
                varies: None,
                own: self.own,
                ignored: false,
            },
        })
    }
}

impl Expected {
    /// Becomes that of a request which is lent.
    #[inline(always)]
    fn set(&mut self, lent: &TakenRequest<'_>) -> Result<(), AllocError>
        ensures { OnOk result (self.new ≡ (request_in lent.now).expected) }
    {
        set_copy(&mut self.reply, lent.reply)?;
        // (where none did before, nothing is written)
        if self.varies.is_some() {
            self.varies = None;
        }
        self.own = lent.own;
        self.ignored = false;
        Ok(())
    }

    /// The same again.
    ///
    /// # Errors
    /// `AllocError` where memory is refused.
    fn try_copy(&self, alloc: Global) -> Result<Expected, AllocError>
        ensures { IfOk result (λ copy. copy ≡ self.now) }
    {
        Ok(Expected {
            reply: copy_of(alloc, self.reply.as_ref())?,
            varies: copy_of(alloc, self.varies.as_ref())?,
            own: self.own,
            ignored: self.ignored,
        })
    }
}

impl AskedRequest {
    /// Becomes a request that is lent, in the memory that it has where that is enough.
    ///
    /// # Errors
    /// `AllocError` where memory is refused; of the request nothing is said then.
    #[inline(always)]
    pub(crate) fn set(&mut self, lent: &TakenRequest<'_>) -> Result<(), AllocError>
        ensures { OnOk result (self.new ≡ request_in lent.now) }
    {
        self.at = NO_LINE;
        self.functional = lent.functional;
        self.bytes.set_copy(lent.bytes)?;
        self.expected.set(lent)
    }

    /// The same again.
    ///
    /// # Errors
    /// `AllocError` where memory is refused.
    pub fn try_copy(&self, alloc: Global) -> Result<AskedRequest, AllocError>
        ensures { IfOk result (λ copy. copy ≡ self.now) }
    {
        Ok(AskedRequest {
            at: self.at,
            functional: self.functional,
            bytes: Message::of(alloc, self.bytes.bytes())?,
            expected: self.expected.try_copy(alloc)?,
        })
    }

    /// The first byte, which is the service.
    pub fn first_byte(&self) -> u8
        ensures { result ≡ first_byte self.now }
    {
        match self.bytes.bytes() {
            [first, ..] => *first,
            [] => 0,
        }
    }

    /// Whether the server replies, and not with response pending alone.
    pub fn is_loud(&self) -> bool
        ensures { result ≡ is_loud self.now }
    {
        match &self.expected.reply {
            Some(reply) => !says_pending(reply.bytes()),
            None => false,
        }
    }

    /// Whether it has the first byte of an earlier request, and isn't silent behind a loud one.
    pub fn replaces(&self, earlier: &AskedRequest) -> bool
        ensures { result ≡ replaces self.now earlier.now }
    {
        self.first_byte() == earlier.first_byte() && (self.is_loud() || !earlier.is_loud())
    }
}

impl Heard {
    /// The same again.
    ///
    /// # Errors
    /// `AllocError` where memory is refused.
    pub fn try_copy(&self, alloc: Global) -> Result<Heard, AllocError>
        ensures { IfOk result (λ copy. copy ≡ self.now) }
    {
        Ok(Heard {
            start: self.start,
            bytes: Message::of(alloc, self.bytes.bytes())?,
        })
    }

    /// Whether it says response pending.
    pub fn is_pending(&self) -> bool
        ensures { result ≡ is_pending self.now }
    {
        says_pending(self.bytes.bytes())
    }
}
