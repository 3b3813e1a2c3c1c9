//! Requests, and the steps of the server that events give.
ghost use Rattle.std.specs.Prelude.{◌≡◌, IfOk};

use crate::message::Message;
use diag_can::TickCount;
use std::alloc::AllocError;

/// A complete request: a message, and whether it came on the functional identifier.
#[derive(Drop)]
pub struct Request {
    /// Whether it came on the functional identifier.
    pub functional: bool,
    /// The bytes of the request.
    pub message: Message,
}

impl Request {
    /// Another request that is the same, where memory isn't refused.
    pub fn try_copy(&self) -> Result<Request, AllocError>
        ensures { IfOk result (λ copy. copy ≡ self.now) }
    {
        Ok(Request {
            functional: self.functional,
            message: self.message.try_copy()?,
        })
    }
}

/// One step of the server: a request, or that many ticks.
#[derive(Drop)]
pub enum Step {
    /// A complete request.
    Request(Request),
    /// So many milliseconds passed for the tester.
    Ticks(TickCount),
}
