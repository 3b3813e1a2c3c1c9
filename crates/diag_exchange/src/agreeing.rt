//! Whether what a unit sent is what the server replies.

ghost use Rattle.std.specs.Prelude.{◌≡◌, ◌<◌, length, option_copied, slice_index, true, IfOk, OnErr};
ghost use Rattle.diag_exchange.specs.Agreeing.{agrees, answer_has_records, answers_as, compares_records, is_compared, marks, orders_records, same_but, same_byte, same_reply, waited};

use crate::happening::{Expected, Heard, says_pending};
use crate::over::{Over, OverKind};
use crate::records::same_in_any_order;
use diag_pdu::Message;
use std::alloc::{AllocError, Global};

/// Whether the bytes at an index are equal, or vary.
fn same_at(marks: &[u8], sent: &[u8], reply: &[u8], index: usize) -> bool
    requires sent { index < length sent.now }
    requires reply { index < length reply.now }
    ensures { result ≡ same_byte (slice_index marks.now index) (slice_index sent.now index)
        (slice_index reply.now index) }
{
    let varies = match marks.get(index) {
        Some(mark) => *mark != 0,
        None => false,
    };
    varies || sent[index] == reply[index]
}

/// Whether two messages are equal, but for the bytes that vary.
fn same_but(marks: &[u8], sent: &[u8], reply: &[u8]) -> bool
    ensures { result ≡ same_but marks.now sent.now reply.now }
{
    if marks.is_empty() {
        return sent == reply;
    }
    if sent.len() != reply.len() {
        return false;
    }
    for index in 0..sent.len() {
        if !same_at(marks, sent, reply, index) {
            return false;
        }
    }
    true
}

/// The marks of the bytes that vary.
fn marks(varies: Option<&Message>) -> &[u8]
    ensures { result.now ≡ marks (option_copied varies.entry) }
{
    match varies {
        Some(marks) => marks.bytes(),
        None => &[],
    }
}

impl Expected {
    /// Whether a message is the server's reply, but for bytes that vary and the order of records.
    #[inline(never)]
    fn is_same(&self, alloc: Global, sent: &[u8], reply: &[u8]) -> Result<bool, AllocError>
        ensures same { IfOk result (λ same. same ≡ same_reply self.now sent.now reply.now) }
        ensures err { OnErr result (orders_records self.now sent.now reply.now ≡ true) }
    {
        if same_but(marks(self.varies.as_ref()), sent, reply) {
            return Ok(true);
        }
        if !self.own {
            return Ok(false);
        }
        same_in_any_order(alloc, sent, reply)
    }

    /// Whether what the unit sent is what the server replies.
    fn is_answer(&self, alloc: Global, sent: Option<&Heard>) -> Result<bool, AllocError>
        ensures agrees { IfOk result (λ agrees. agrees
            ≡ answers_as self.now (option_copied sent.entry) self.now.reply) }
        ensures err { OnErr result (answer_has_records self.now (option_copied sent.entry) self.now.reply ≡ true) }
    {
        match (sent, &self.reply) {
            (None, None) => Ok(true),
            (Some(_), None) => Ok(false),
            (None, Some(reply)) => Ok(says_pending(reply.bytes())),
            (Some(sent), Some(reply)) => {
                if says_pending(reply.bytes()) {
                    return Ok(false);
                }
                self.is_same(alloc, sent.bytes.bytes(), reply.bytes())
            }
        }
    }
}

impl Over {
    /// Whether the unit sent what the server replies, but for bytes that vary and the order of records. An exchange that
    /// is ignored always agrees, and a message that no request asked never does.
    ///
    /// # Errors
    /// `AllocError` where memory is refused, which is asked for only to compare records.
    pub fn agrees(&self, alloc: Global) -> Result<bool, AllocError>
        ensures same { IfOk result (λ same. same ≡ agrees self.now) }
        ensures err { OnErr result (compares_records self.now ≡ true) }
    {
        match self.kind() {
            OverKind::Exchange {
                request,
                answer,
                ..
            } => {
                if request.expected.ignored {
                    return Ok(true);
                }
                request.expected.is_answer(alloc, answer)
            }
            OverKind::Unasked(_) => Ok(false),
        }
    }

    /// Whether there is a message of the unit to compare, response pending included.
    pub fn is_compared(&self) -> bool
        ensures { result ≡ is_compared self.now }
    {
        match self.kind() {
            OverKind::Exchange {
                request,
                pendings,
                answer,
            } => !request.expected.ignored && (answer.is_some() || pendings > 0),
            OverKind::Unasked(_) => true,
        }
    }

    /// The time from the request to the first frame of its answer, in milliseconds, where there is one.
    pub fn waited(&self) -> Option<u64>
        ensures { result ≡ waited self.now }
    {
        match self.kind() {
            OverKind::Exchange {
                request,
                answer: Some(sent),
                ..
            } => Some(sent.start.at.moment.saturating_sub(request.at.moment)),
            OverKind::Exchange { answer: None, .. } | OverKind::Unasked(_) => None,
        }
    }
}
