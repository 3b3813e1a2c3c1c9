//! What the tests of the gate begin with.

use crate::trouble::Trouble;
use diag_desk::Desk;
use diag_pdu::{Message, Request, Step};
use diag_setup::TesterId;
use diag_stored::two_testers;
use std::alloc::Global;

/// Whether both hold; where not both came to an end, the first trouble.
pub(crate) fn and(
    one: Result<bool, Trouble>,
    other: Result<bool, Trouble>,
) -> Result<bool, Trouble> {
    let one = one?;
    Ok(other? && one)
}

/// The tester of a place.
pub(crate) fn tester(place: u8) -> Result<TesterId, Trouble> {
    TesterId::new(place).ok_or(Trouble::Wrong)
}

/// A desk of two testers, with no entry.
pub(crate) fn desk_of_two(alloc: Global) -> Result<Desk, Trouble> {
    let setup = two_testers(alloc)?;
    Ok(Desk::new(alloc, &setup)?)
}

/// A physical request.
pub(crate) fn request(alloc: Global, bytes: &[u8]) -> Result<Step, Trouble> {
    Ok(Step::Request(Request {
        functional: false,
        message: Message::new(alloc, bytes)?,
    }))
}

/// Whether a reply has these bytes.
pub(crate) fn says(reply: &Option<Message>, bytes: &[u8]) -> bool {
    match reply {
        Some(message) => message.bytes() == bytes,
        None => false,
    }
}
