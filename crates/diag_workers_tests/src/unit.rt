//! A unit with one tester, made of a link and an ECU: what a frame asks is lent before the link takes the frame.

ghost use Rattle.std.specs.Prelude.{◌≡◌, ◌≤◌, IsTrue, OnErr};
ghost use Rattle.diag_tp.specs.Link.{is_frame, pending, quiet};

use crate::ecu::opened as opened_ecu;
use crate::link::opened as opened_link;
use crate::trouble::{Trouble, holds};
use diag_can::{CanId, FdBytes, FrameBytes, LentBytes, LentEvent, TickCount};
use diag_ecu::Ecu;
use diag_pdu::{Message, Request};
use diag_setup::TesterId;
use diag_tp::Link;
use std::alloc::{AllocError, Global};

/// What puts frames on the bus.
trait Driver {
    fn send(&mut self, id: CanId, bytes: &FdBytes);
}

/// Sends the frames that are due.
fn send_due<D: Driver>(link: &mut Link, driver: &mut D)
    ensures { pending link.new.state ≡ 0 }
{
    let mut bytes = FdBytes::new();
    while let Some(id) = link.next_long_frame(&mut bytes) {
        driver.send(id, &bytes);
    }
}

/// The reply to what a frame asks, if anything. Refused, the ECU is as before.
fn reply_to(
    ecu: &mut Ecu,
    who: TesterId,
    asked: Option<&Request>,
) -> Result<Option<Message>, AllocError>
    ensures { OnErr result (ecu.new ≡ ecu.old) }
{
    match asked {
        Some(request) => ecu.request(who, request.functional, &request.message),
        None => Ok(None),
    }
}

/// Takes a frame of the tester, and sends what is due then. Refused, the link and the ECU are as before.
fn take<D: Driver>(
    link: &mut Link,
    ecu: &mut Ecu,
    who: TesterId,
    event: &LentEvent<'_>,
    driver: &mut D,
) -> Result<(), AllocError>
    requires frame { IsTrue (is_frame event.now) }
    requires drained { pending link.old.state ≡ 0 }
    ensures drained { pending link.new.state ≡ 0 }
    ensures refused { OnErr result ((link.new.state ≡ link.old.state) × (ecu.new ≡ ecu.old)) }
{
    let taken = link.begin(event)?;
    let reply = reply_to(ecu, who, link.request(taken))?;
    link.settle(taken);
    if let Some(reply) = reply {
        link.answer(reply);
    }
    send_due(link, driver);
    Ok(())
}

/// Lets so many milliseconds pass in one move, and sends what is due then.
fn pass<D: Driver>(link: &mut Link, ecu: &mut Ecu, who: TesterId, count: TickCount, driver: &mut D)
    requires drained { pending link.old.state ≡ 0 }
    requires quiet { count ≤ quiet link.old.state }
    ensures { pending link.new.state ≡ 0 }
{
    link.advance(count);
    ecu.ticks(who, count);
    send_due(link, driver);
}

/// A frame that was sent.
#[derive(Drop)]
struct Kept {
    id: CanId,
    bytes: FdBytes,
}

/// Keeps the frames that are sent, unless memory is refused.
#[derive(Drop)]
struct Recorder {
    frames: Vec<Kept>,
    is_refused: bool,
}

impl Driver for Recorder {
    fn send(&mut self, id: CanId, bytes: &FdBytes) {
        let bytes = FdBytes::from_slice(bytes.as_slice());
        if self.frames.push(Kept { id, bytes }).is_err() {
            self.is_refused = true;
        }
    }
}

impl Recorder {
    /// Whether just these frames were sent.
    fn has_just(&self, frames: &[&[u8]]) -> Result<bool, Trouble> {
        if self.is_refused {
            return Err(Trouble::Memory);
        }
        Ok(are_sent(self.frames.as_slice(), frames))
    }
}

/// Whether these frames were sent, with the first tester's identifier.
fn are_sent(sent: &[Kept], frames: &[&[u8]]) -> bool {
    for (sent, bytes) in sent.iter().zip(frames) {
        if sent.id.get() != 0x7E8 || sent.bytes.as_slice() != *bytes {
            return false;
        }
    }
    sent.len() == frames.len()
}

/// The three frames of the reply with the value of F190.
const VALUE: [&[u8]; 3] = [
    b"\x10\x14\x62\xF1\x90TES",
    b"\x21TVIN012",
    b"\x22\x33\x34\x35\x36\x37\x38\x39",
];

/// Asks for the value, and wants 5 ms between the last two frames of the reply.
fn ask(link: &mut Link, ecu: &mut Ecu, who: TesterId, sent: &mut Recorder) -> Result<(), AllocError>
    requires { pending link.old.state ≡ 0 }
    ensures { pending link.new.state ≡ 0 }
{
    let read = FrameBytes::from_slice(b"\x03\x22\xF1\x90");
    let flow = FrameBytes::from_slice(b"\x30\x00\x05");
    take(
        link,
        ecu,
        who,
        &LentEvent::physical(LentBytes::short(&read)),
        sent,
    )?;
    take(
        link,
        ecu,
        who,
        &LentEvent::physical(LentBytes::short(&flow)),
        sent,
    )
}

/// Lets so many milliseconds pass, where the link allows it in one move. Whether it does.
fn passes(link: &mut Link, ecu: &mut Ecu, who: TesterId, count: u16, sent: &mut Recorder) -> bool
    requires { pending link.old.state ≡ 0 }
    ensures { pending link.new.state ≡ 0 }
{
    let Some(count) = TickCount::new(count) else {
        return false;
    };
    if u64::from(count.get()) > link.quiet() {
        return false;
    }
    pass(link, ecu, who, count, sent);
    true
}

/// Whether the last frame of the reply is sent 5 ms behind the one before it.
fn is_answered(
    link: &mut Link,
    ecu: &mut Ecu,
    who: TesterId,
    sent: &mut Recorder,
) -> Result<bool, Trouble>
    requires { pending link.old.state ≡ 0 }
{
    ask(link, ecu, who, sent)?;
    let early = passes(link, ecu, who, 4, sent) && sent.has_just(&VALUE[..2])?;
    Ok(early && passes(link, ecu, who, 1, sent) && sent.has_just(&VALUE)?)
}

fn answers(alloc: Global, link: &mut Link, ecu: &mut Ecu) -> Result<bool, Trouble>
    requires { pending link.old.state ≡ 0 }
{
    let who = TesterId::new(1).ok_or(Trouble::Wrong)?;
    let mut sent = Recorder {
        frames: Vec::new(alloc),
        is_refused: false,
    };
    is_answered(link, ecu, who, &mut sent)
}

fn unit_answers(alloc: Global, ecu: &mut Ecu) -> Result<bool, Trouble> {
    let mut link = opened_link(alloc)?;
    answers(alloc, &mut link, ecu)
}

#[test]
fn frames_are_answered_in_halves(rt: HostRuntime) -> Result<(), Trouble> {
    let mut ecu = opened_ecu(rt.alloc())?;
    holds(unit_answers(rt.alloc(), &mut ecu))
}
