//! The whole server where no journal is wanted: frames of a bus and milliseconds in, frames out.

ghost use Rattle.std.specs.Prelude.{◌≡◌, ◌≤◌, length};

use crate::trouble::{Trouble, holds};
use diag_can::{CanId, Frame, FrameBytes, Ids, LentBytes, LentEvent, TickCount};
use diag_setup::{Setup, TesterId};
use diag_stored::two_testers;
use diag_tp::{SentFrame, SentFrames};
use diag_world::{NoJournal, Server};
use std::alloc::Global;

/// What a frame of the bus is for a tester with these identifiers, if anything.
fn event_for<'f>(ids: &Ids, frame: &'f Frame) -> Option<LentEvent<'f>> {
    if frame.id == ids.request {
        Some(LentEvent::physical(LentBytes::short(&frame.bytes)))
    } else if frame.id == ids.functional {
        Some(LentEvent::functional(LentBytes::short(&frame.bytes)))
    } else {
        None
    }
}

/// Has the server take an event of a tester; the frames that are to be sent go behind those in `out`. A link takes no event
/// past 2^63 ms, which is asked first.
fn take(
    server: &mut Server,
    who: TesterId,
    event: &LentEvent<'_>,
    out: &mut SentFrames,
) -> Result<(), Trouble>
    requires { who ≤ length server.old.ports }
    ensures { length server.new.ports ≡ length server.old.ports }
{
    if !server.is_early(who) {
        return Err(Trouble::Wrong);
    }
    server.take(who, event, &mut NoJournal, out)?;
    Ok(())
}

/// Takes a frame of the bus, for each tester that it is for.
fn take_frame(
    server: &mut Server,
    setup: &Setup,
    frame: &Frame,
    out: &mut SentFrames,
) -> Result<(), Trouble>
    requires { length server.old.ports ≡ length setup.now.testers }
    ensures { length server.new.ports ≡ length server.old.ports }
{
    for index in 0..setup.testers() {
        let who = setup.who(index);
        if let Some(event) = event_for(&setup.ids(who), frame) {
            take(server, who, &event, out)?;
        }
    }
    Ok(())
}

/// Lets so many milliseconds pass, for each tester.
fn pass(
    server: &mut Server,
    setup: &Setup,
    count: TickCount,
    out: &mut SentFrames,
) -> Result<(), Trouble>
    requires { length server.old.ports ≡ length setup.now.testers }
    ensures { length server.new.ports ≡ length server.old.ports }
{
    for index in 0..setup.testers() {
        let who = setup.who(index);
        take(server, who, &LentEvent::ticks(count), out)?;
    }
    Ok(())
}

/// A frame of the bus and the milliseconds before it: these, its identifier and its bytes.
type Heard = (u16, u16, &'static [u8]);

/// The testers ask for the extended session in turn, and then the value of F190 is asked of every ECU.
const HEARD: [Heard; 5] = [
    (1, 0x7E0, b"\x02\x10\x03"),
    (10, 0x7E1, b"\x02\x10\x03"),
    (10, 0x7E0, b"\x02\x10\x01"),
    (10, 0x7E1, b"\x02\x10\x03"),
    (10, 0x7DF, b"\x03\x22\xF1\x90"),
];

/// A frame that is sent: when, its identifier and its bytes.
type Drawn = (u64, u32, &'static [u8]);

/// Each is answered, and the last one to both.
const SENT: [Drawn; 6] = [
    (1, 0x7E8, b"\x06\x50\x03\x00\x32\x01\xF4\xCC"),
    (11, 0x7E9, b"\x03\x7F\x10\x21\xCC\xCC\xCC\xCC"),
    (21, 0x7E8, b"\x06\x50\x01\x00\x32\x01\xF4\xCC"),
    (31, 0x7E9, b"\x06\x50\x03\x00\x32\x01\xF4\xCC"),
    (41, 0x7E8, b"\x10\x14\x62\xF1\x90\x54\x45\x53"),
    (41, 0x7E9, b"\x10\x14\x62\xF1\x90\x54\x45\x53"),
];

/// The frame with this identifier and these bytes.
fn frame_of(id: u16, bytes: &[u8]) -> Option<Frame> {
    if bytes.len() > 8 {
        return None;
    }
    Some(Frame {
        id: CanId::new(id)?,
        bytes: FrameBytes::from_slice(bytes),
    })
}

/// Lets the milliseconds before a frame pass, and takes it.
fn hear(
    server: &mut Server,
    setup: &Setup,
    heard: &Heard,
    out: &mut SentFrames,
) -> Result<(), Trouble>
    requires { length server.old.ports ≡ length setup.now.testers }
    ensures { length server.new.ports ≡ length server.old.ports }
{
    let (count, id, bytes) = *heard;
    let count = TickCount::new(count).ok_or(Trouble::Wrong)?;
    let frame = frame_of(id, bytes).ok_or(Trouble::Wrong)?;
    pass(server, setup, count, out)?;
    take_frame(server, setup, &frame, out)?;
    Ok(())
}

fn hear_all(server: &mut Server, setup: &Setup, out: &mut SentFrames) -> Result<(), Trouble>
    requires { length server.old.ports ≡ length setup.now.testers }
{
    for heard in &HEARD {
        hear(server, setup, heard, out)?;
    }
    Ok(())
}

fn is_drawn(sent: &SentFrame<'_>, drawn: &Drawn) -> bool {
    let (at, id, bytes) = *drawn;
    sent.at == at && sent.id.get() == id && sent.bytes == bytes
}

/// Whether these frames were sent.
fn are_sent(out: &SentFrames) -> bool {
    for (index, drawn) in SENT.iter().enumerate() {
        if index >= out.len() || !is_drawn(&out.get(index), drawn) {
            return false;
        }
    }
    out.len() == SENT.len()
}

fn all_are_sent(alloc: Global, server: &mut Server, setup: &Setup) -> Result<bool, Trouble>
    requires { length server.old.ports ≡ length setup.now.testers }
{
    let mut out = SentFrames::new(alloc);
    hear_all(server, setup, &mut out)?;
    Ok(are_sent(&out))
}

fn serves(alloc: Global, setup: &Setup) -> Result<bool, Trouble> {
    let mut server = Server::new(alloc, setup)?;
    all_are_sent(alloc, &mut server, setup)
}

fn serves_two(alloc: Global) -> Result<bool, Trouble> {
    let setup = two_testers(alloc)?;
    serves(alloc, &setup)
}

#[test]
fn frames_are_answered_without_a_journal(rt: HostRuntime) -> Result<(), Trouble> {
    holds(serves_two(rt.alloc()))
}
