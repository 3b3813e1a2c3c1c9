//! An entry of the journal, as it is entered and as it is shown.

ghost use Rattle.std.specs.Prelude.{◌≡◌, List, None, Option, ℕ};
ghost use Rattle.diag_pdu.specs.declared.step.Step.{Step as AStep};
ghost use Rattle.diag_desk.specs.Entry.{step_seen, HasNoReply, IsReply, IsStep};

use crate::flat::message_bytes;
use diag_can::TickCount;
use diag_pdu::{Message, Request, Step};
use diag_setup::TesterId;

/// The most entries that a journal holds.
pub const MOST_ENTRIES: usize = 1_000_000;

/// An entry of the journal: a tester's step, and the reply if one was sent. Ticks have none.
#[derive(Drop)]
pub struct Entry {
    /// The tester, by its number.
    pub who: TesterId,
    /// What the tester asked, or its ticks.
    pub step: Step,
    /// What it was answered.
    pub reply: Option<Message>,
}

/// A step that the journal keeps; a request has 1 to 65535 bytes.
#[derive(Clone, Copy, Debug)]
pub enum StepRef<'a> {
    /// A complete request, and whether it came on the functional identifier.
    Request { functional: bool, bytes: &'a [u8] },
    /// So many milliseconds passed for the tester.
    Ticks(TickCount),
}

impl<'a> StepRef<'a> {
    /// A step as a journal shows it; a request's bytes are lent.
    #[inline(always)]
    pub fn of(step: &'a Step) -> StepRef<'a>
        ensures seen { step_seen result ≡ step.now }
        ensures step { (reply : Option (List ℕ)) → IsReply reply → HasNoReply step.now reply
            → IsStep (step_seen result) reply }
    {
        match step {
            Step::Request(request) => StepRef::of_request(request),
            Step::Ticks(count) => StepRef::of_ticks(*count),
        }
    }

    /// A request as a journal shows it; its bytes are lent.
    #[inline(always)]
    pub fn of_request(request: &'a Request) -> StepRef<'a>
        ensures seen { step_seen result ≡ AStep.Request request.now }
        ensures step { (reply : Option (List ℕ)) → IsReply reply → IsStep (step_seen result) reply }
    {
        StepRef::Request {
            functional: request.functional,
            bytes: message_bytes(&request.message),
        }
    }

    /// Ticks as a journal shows them.
    #[inline(always)]
    pub fn of_ticks(count: TickCount) -> StepRef<'a>
        ensures seen { step_seen result ≡ AStep.Ticks count }
        ensures step { IsStep (step_seen result) None }
    {
        // (for its contract: a count is 1 to 60000)
        let _count = count.get();
        StepRef::Ticks(count)
    }
}

/// An entry that the journal keeps; a reply has 1 to 65535 bytes.
#[derive(Clone, Copy, Debug)]
pub struct EntryRef<'a> {
    /// The tester, by its number.
    pub who: TesterId,
    /// What the tester asked, or its ticks.
    pub step: StepRef<'a>,
    /// What it was answered.
    pub reply: Option<&'a [u8]>,
}
