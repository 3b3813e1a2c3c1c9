//! The most that a desk's journal holds.

use crate::gate::given::{desk_of_two, tester};
use crate::trouble::{Trouble, holds};
use diag_can::{FrameBytes, TickCount};
use diag_desk::{Desk, MOST_ENTRIES, StepFault};
use diag_pdu::{Message, Request, Step};
use diag_setup::TesterId;

/// Takes as many steps of one tick as a journal holds.
pub(crate) fn fill(desk: &mut Desk, who: TesterId) -> Result<(), Trouble> {
    let step = Step::Ticks(TickCount::new(1).ok_or(Trouble::Wrong)?);
    for _ in 0..MOST_ENTRIES {
        desk.step(who, &step)?;
    }
    Ok(())
}

/// Whether the journal is full, and nobody is the holder.
fn is_full(desk: &Desk) -> bool {
    let journal = desk.journal();
    journal.is_full() && journal.len() == MOST_ENTRIES && desk.ecu().holder().is_none()
}

/// Whether a request is refused, since the journal is full.
fn refuses(desk: &mut Desk, who: TesterId) -> bool {
    let session = Step::Request(Request {
        functional: false,
        message: Message::in_place(FrameBytes::from_slice(b"\x10\x03")),
    });
    matches!(desk.step(who, &session), Err(StepFault::JournalFull))
}

/// Whether a full journal takes no step, and what is refused leaves the journal and the ECU as they are.
fn stays_full(desk: &mut Desk, who: TesterId) -> Result<bool, Trouble> {
    fill(desk, who)?;
    Ok(is_full(desk) && refuses(desk, who) && is_full(desk))
}

#[test]
fn full_journal_takes_no_step(rt: HostRuntime) -> Result<(), Trouble> {
    let who = tester(1)?;
    let mut desk = desk_of_two(rt.alloc())?;
    holds(stays_full(&mut desk, who))
}
