//! A link by the calls that no run of the program makes: what a frame asks, told before it comes and as it comes, ticks
//! one by one, and how much waits.

ghost use Rattle.std.specs.Prelude.{◌≡◌, IfOk, IsTrue, OnOk};
ghost use Rattle.diag_tp.specs.Link.{is_frame, pending};

use crate::trouble::{Trouble, holds};
use diag_can::{FdBytes, FrameBytes, LentBytes, LentEvent};
use diag_pdu::{Framing, LinkSetup, Message, Pci, Request, frame_of};
use diag_setup::Setup;
use diag_stored::two_testers;
use diag_tp::Link;
use std::alloc::Global;

/// The settings of the first tester's link.
fn settings(setup: &Setup) -> Result<LinkSetup, Trouble> {
    if setup.testers() == 0 {
        return Err(Trouble::Wrong);
    }
    Ok(setup.link(setup.who(0)))
}

/// The settings of the first tester's link in the stored setup.
fn stored_settings(alloc: Global) -> Result<LinkSetup, Trouble> {
    let setup = two_testers(alloc)?;
    settings(&setup)
}

/// The link of the first tester, on which nothing is due.
pub(crate) fn opened(alloc: Global) -> Result<Link, Trouble>
    ensures { IfOk result (λ link. pending link.state ≡ 0) }
{
    Ok(Link::new(alloc, stored_settings(alloc)?))
}

/// The reply with the value of F190.
const VALUE: &[u8] = b"\x62\xF1\x90TESTVIN0123456789";

/// Whether this is the physical request that reads F190.
fn is_read(asked: &Option<Request>) -> bool {
    match asked {
        Some(request) => !request.functional
            && request.message.bytes() == b"\x22\xF1\x90".as_slice(),
        None => false,
    }
}

/// Whether taking a frame would give the read.
fn would_read(link: &Link, event: &LentEvent<'_>) -> Result<bool, Trouble>
    requires { IsTrue (is_frame event.now) }
{
    let asked = link.peek(event)?;
    Ok(is_read(&asked))
}

/// Whether the read is told before its frame comes, and as it comes; then its reply is placed.
fn reads(alloc: Global, link: &mut Link, event: &LentEvent<'_>) -> Result<bool, Trouble>
    requires frame { IsTrue (is_frame event.now) }
    requires drained { pending link.old.state ≡ 0 }
{
    link.make_room(event)?;
    let told = would_read(link, event)?;
    let reply = Message::new(alloc, VALUE)?;
    let asked = is_read(&link.feed(event));
    link.answer(reply);
    Ok(told && asked)
}

/// Hands out the frames that are due.
fn drain(link: &mut Link)
    ensures { pending link.new.state ≡ 0 }
{
    let mut bytes = FdBytes::new();
    while let Some(_id) = link.next_long_frame(&mut bytes) {}
}

/// The read, and the frames that are due then.
fn reads_once(alloc: Global, link: &mut Link) -> Result<bool, Trouble>
    requires { pending link.old.state ≡ 0 }
    ensures { OnOk result (pending link.new.state ≡ 0) }
{
    let frame = FrameBytes::from_slice(b"\x03\x22\xF1\x90");
    let read = reads(alloc, link, &LentEvent::physical(LentBytes::short(&frame)))?;
    drain(link);
    Ok(read)
}

/// So many ticks, one by one, and the frames that fall due.
fn wait(link: &mut Link, count: u16)
    requires { pending link.old.state ≡ 0 }
{
    for _ in 0..count {
        link.tick();
        drain(link);
    }
}

/// Whether four replies have begun after a thousand reads, and three times N_Bs without flow control.
fn four_begin(alloc: Global, link: &mut Link) -> Result<bool, Trouble>
    requires { pending link.old.state ≡ 0 }
{
    for _ in 0..1000u32 {
        if !reads_once(alloc, link)? {
            return Ok(false);
        }
    }
    wait(link, 3000);
    Ok(link.waiting() == 996 && link.backlog() == 2990 && link.now() == 3000)
}

#[test]
fn thousand_replies(rt: HostRuntime) -> Result<(), Trouble> {
    let mut link = opened(rt.alloc())?;
    holds(four_begin(rt.alloc(), &mut link))
}

const LONG: [u8; 5001] = [0x22; 5001];

/// Whether the last frame of the message is this one, and is read as what it is.
fn ends_in_one_byte(message: &Message) -> bool {
    match frame_of(message, 715, &Framing::classic(Some(0xCC))) {
        Some(frame) => {
            let kind = Pci::read(frame.as_slice(), 4095);
            frame.as_slice() == b"\x2B\x22\xCC\xCC\xCC\xCC\xCC\xCC".as_slice()
                && matches!(
                    kind,
                    Pci::Consecutive {
                        sequence_number: 11,
                        ..
                    }
                )
        }
        None => false,
    }
}

/// Whether a message has these bytes and their last frame.
fn is_long(message: &Message) -> bool {
    message.bytes() == LONG.as_slice() && ends_in_one_byte(message)
}

/// Whether the copy of a message has its bytes and its last frame.
fn is_copied(alloc: Global) -> Result<bool, Trouble> {
    let message = Message::new(alloc, &LONG)?;
    let copy = message.try_copy()?;
    Ok(is_long(&copy))
}

#[test]
fn copied_message_is_the_same(rt: HostRuntime) -> Result<(), Trouble> {
    holds(is_copied(rt.alloc()))
}
