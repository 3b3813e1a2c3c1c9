//! How ticks pass on a port, through the moments at which something held falls due, and how a frame comes in, with all frames
//! handed out that are due.

ghost use Rattle.std.specs.Prelude.{
  ◌≡◌,
  ◌+◌,
  ◌≤◌,
  ◌<◌,
  ℕ,
  List,
  [],
  ◌∷◌,
  ◌++◌,
  length,
  IsTrue,
  None,
  min,
};
ghost use Rattle.diag_can.specs.Event.{Event as AnEvent};
ghost use Rattle.diag_pdu.specs.declared.setup.LinkSetup.{LinkSetup as ALinkSetup};
ghost use Rattle.diag_tp.specs.declared.sent.Sent.{Sent as ASent};
ghost use Rattle.diag_tp.specs.Moments.{last_moment, last_time};
ghost use Rattle.diag_tp.specs.Wire.{Placed};
ghost use Rattle.diag_tp.specs.Taken.{IsTaken, FitsIn};
ghost use Rattle.diag_tp.specs.Placing.{placed_at};
ghost use Rattle.diag_tp.specs.Link.{StandsFor, has_reply_room, last_tick, pending, quiet, unsent};
ghost use Rattle.diag_port.specs.Late.{released, still};
ghost use Rattle.diag_port.specs.Port.{AreWithin, Grew, HasRoomFor, IsAtRest, KeepsFrameRoom, Passed, CanHold, LinkHandedOut, Received, SentDue, port_of, port_quiet, unsent_of};
ghost use Rattle.diag_port.specs.Held.{until_due};

use crate::port::Port;
use diag_can::{LentEvent, TickCount};
use diag_pdu::Message;
use diag_tp::{Link, SentFrames, Taken, moments_law, time_law};

/// Gives the link each message that is due.
fn release(port: &mut Port)
    requires rooms { length port.old.held.messages ≤ port.old.link.reply_room }
    ensures stands { (s : ALinkSetup) (E : List AnEvent) (A : List Placed) (Q : List ASent)
        → StandsFor s port.old.link.state E A Q
        → StandsFor s port.new.link.state E
        (A ++ released (last_moment E) port.old.link.state.now port.old.held.messages) Q }
    ensures pace { port.new.pace ≡ port.old.pace }
    ensures held { port.new.held.messages ≡ still port.old.link.state.now port.old.held.messages }
    ensures time { port.new.link.state.now ≡ port.old.link.state.now }
    ensures rooms { length port.new.held.messages ≤ port.new.link.reply_room }
    ensures due { pending port.new.link.state + length port.new.held.messages
        ≤ pending port.old.link.state + length port.old.held.messages }
    ensures unsent { unsent_of port.new ≤ unsent_of port.old }
    ensures setup { port.new.link.state.setup ≡ port.old.link.state.setup }
{
    let now = port.link.now();
    while let Some(later) = port.held.pop_due(now) {
        port.link.answer(later.message);
    }
}

/// Hands out all frames that are due. Whether there are any is asked first, in the place of the call.
#[inline(always)]
fn send_due(link: &mut Link, out: &mut SentFrames)
    requires room { HasRoomFor link.old.state (pending link.old.state) out.old }
    ensures stands { Grew out.old.items out.new.items (SentDue link.old.state link.new.state) }
    ensures time { link.new.state.now ≡ link.old.state.now }
    ensures drained { pending link.new.state ≡ 0 }
    ensures room { KeepsFrameRoom link.old.state link.new.state out.old out.new }
    ensures reply_rooms { link.old.reply_room ≤ link.new.reply_room }
{
    if link.is_drained() {
        return;
    }
    send_frames(link, out);
}

/// The same, frame by frame.
#[inline(never)]
fn send_frames(link: &mut Link, out: &mut SentFrames)
    requires room { HasRoomFor link.old.state (pending link.old.state) out.old }
    ensures stands { Grew out.old.items out.new.items (SentDue link.old.state link.new.state) }
    ensures time { link.new.state.now ≡ link.old.state.now }
    ensures drained { pending link.new.state ≡ 0 }
    ensures room { KeepsFrameRoom link.old.state link.new.state out.old out.new }
    ensures reply_rooms { link.old.reply_room ≤ link.new.reply_room }
{
    let at = link.now();
    while out.take_next(at, link) {}
}

/// Takes a frame that was read, places the reply to the request that it completes, and hands out what is due. A reply that
/// has to wait is taken out of its place.
#[inline(always)]
fn receive_alone(
    link: &mut Link,
    event: &LentEvent<'_>,
    taken: Taken<'_>,
    reply: &mut Option<Message>,
    out: &mut SentFrames,
)
    requires taken { IsTaken link.old.state event.now taken }
    requires drained { pending link.old.state ≡ 0 }
    requires fits { FitsIn link.old taken }
    requires reply_room { IsTrue (has_reply_room link.old) }
    requires room { HasRoomFor link.old.state (unsent link.old.state + 2) out.old }
    ensures received { Grew out.old.items out.new.items (λ more. AreWithin link.old.state.now link.new.state.now more
        × ((s : ALinkSetup) (E : List AnEvent) (A : List Placed) (Q : List ASent)
        → StandsFor s link.old.state E A Q
        → last_time (E ++ event.now ∷ []) ≤ last_tick
        → LinkHandedOut s link.new.state (E ++ event.now ∷ [])
        (A ++ placed_at (last_moment (E ++ event.now ∷ [])) reply.old) (Q ++ more))) }
    ensures time { link.new.state.now ≡ link.old.state.now }
    ensures drained { pending link.new.state ≡ 0 }
{
    // (for its contract: the event is that of which this is left)
    let _ = event;
    link.settle(taken);
    match reply.as_ref() {
        Some(message) => match link.answer_alone(message) {
            Some(frame) => out.push(link.now(), frame),
            None => place(link, reply, out),
        },
        None => send_due(link, out),
    }
}

/// Places a reply, and hands out all frames that are due.
#[inline(never)]
fn place(link: &mut Link, reply: &mut Option<Message>, out: &mut SentFrames)
    requires reply_room { IsTrue (has_reply_room link.old) }
    requires room { HasRoomFor link.old.state (pending link.old.state + 1) out.old }
    ensures placed { Grew out.old.items out.new.items (λ more. AreWithin link.old.state.now link.new.state.now more
        × ((s : ALinkSetup) (E : List AnEvent) (A : List Placed) (Q : List ASent)
        → StandsFor s link.old.state E A Q
        → last_time E ≤ last_tick
        → LinkHandedOut s link.new.state E (A ++ placed_at (last_moment E) reply.old) (Q ++ more))) }
    ensures time { link.new.state.now ≡ link.old.state.now }
    ensures drained { pending link.new.state ≡ 0 }
{
    match reply.take() {
        Some(message) => {
            link.answer(message);
            send_due(link, out);
        }
        None => send_due(link, out),
    }
}

/// So many ticks, before the last of which nothing falls due, and what falls due then.
fn move_on(port: &mut Port, part: TickCount, out: &mut SentFrames)
    requires rest { IsAtRest port.old }
    requires quiet { part ≤ quiet port.old.link.state }
    requires before { part ≤ until_due port.old.link.state.now port.old.held.messages }
    requires room { HasRoomFor port.old.link.state (unsent_of port.old) out.old }
    ensures passed { Grew out.old.items out.new.items (Passed (port_of port.old) (port_of port.new) part) }
    ensures rest { IsAtRest port.new }
    ensures pace { port.new.pace ≡ port.old.pace }
    ensures time { port.new.link.state.now ≡ min (port.old.link.state.now + part) last_tick }
    ensures later { port.old.link.state.now ≤ port.new.link.state.now }
    ensures room { HasRoomFor port.new.link.state (unsent_of port.new) out.new }
{
    // (for its contract: a count is at least 1)
    let _some = part.get();
    port.link.advance(part);
    release(port);
    send_due(&mut port.link, out);
}

/// Lets so many ticks pass, in moves before whose last tick nothing falls due.
fn pass_in_moves(port: &mut Port, count: TickCount, out: &mut SentFrames)
    requires rest { IsAtRest port.old }
    requires room { HasRoomFor port.old.link.state (unsent_of port.old) out.old }
    ensures passed { Grew out.old.items out.new.items (Passed (port_of port.old) (port_of port.new) count) }
    ensures rest { IsAtRest port.new }
    ensures pace { port.new.pace ≡ port.old.pace }
    ensures time { port.new.link.state.now ≡ min (port.old.link.state.now + count) last_tick }
    ensures room { HasRoomFor port.new.link.state (unsent_of port.new) out.new }
{
    moments_law();
    time_law();
    let mut left = count.get();
    while left > 0 {
        let most = port.quiet().min(u64::from(left)) as u16;
        let Some(part) = TickCount::new(most) else {
            unreachable!()
        };
        move_on(port, part, out);
        left -= most;
    }
}

/// Lets so many ticks pass, and hands out what falls due.
#[inline(always)]
pub(crate) fn pass(port: &mut Port, count: TickCount, out: &mut SentFrames)
    requires rest { IsAtRest port.old }
    requires room { HasRoomFor port.old.link.state (unsent_of port.old) out.old }
    ensures passed { Grew out.old.items out.new.items (Passed (port_of port.old) (port_of port.new) count) }
    ensures rest { IsAtRest port.new }
    ensures pace { port.new.pace ≡ port.old.pace }
    ensures time { port.new.link.state.now ≡ min (port.old.link.state.now + count) last_tick }
    ensures most { count ≤ 60000 }
{
    if u64::from(count.get()) < port.quiet() {
        pass_quiet(port, count);
    } else {
        pass_in_moves(port, count, out);
    }
}

/// Lets so many ticks pass, in which nothing falls due: one move.
#[inline(always)]
fn pass_quiet(port: &mut Port, count: TickCount)
    requires rest { IsAtRest port.old }
    requires quiet { count < port_quiet (port_of port.old) }
    ensures passed { Passed (port_of port.old) (port_of port.new) count [] }
    ensures rest { IsAtRest port.new }
    ensures pace { port.new.pace ≡ port.old.pace }
    ensures time { port.new.link.state.now ≡ min (port.old.link.state.now + count) last_tick }
{
    port.advance_quietly(u64::from(count.get()));
}

/// Takes a frame that was read where nothing is held, and gives the link the reply to the request that it completes, which
/// goes at once; hands out what is due.
#[inline(always)]
pub(crate) fn receive_at_once(
    port: &mut Port,
    event: &LentEvent<'_>,
    taken: Taken<'_>,
    reply: &mut Option<Message>,
    out: &mut SentFrames,
)
    requires taken { IsTaken port.old.link.state event.now taken }
    requires rest { IsAtRest port.old }
    requires fits { FitsIn port.old.link taken }
    requires reply_room { IsTrue (has_reply_room port.old.link) }
    requires room { HasRoomFor port.old.link.state (unsent port.old.link.state + 2) out.old }
    requires none_held { port.old.held.messages ≡ [] }
    ensures received { (sid : ℕ) → Grew out.old.items out.new.items
        (Received (port_of port.old) (port_of port.new) event.now 0 sid reply.old) }
    ensures time { port.new.link.state.now ≡ port.old.link.state.now }
    ensures rest { IsAtRest port.new }
    ensures pace { port.new.pace ≡ port.old.pace }
{
    receive_alone(&mut port.link, event, taken, reply, out);
}

/// Takes a frame that was read, holds the reply to the request that it completes behind what is held, gives the link what is
/// due of all that, and hands out the frames that are due.
#[cold]
#[inline(never)]
pub(crate) fn receive_held(
    port: &mut Port,
    event: &LentEvent<'_>,
    taken: Taken<'_>,
    reply: &mut Option<Message>,
    after: u32,
    sid: u8,
    out: &mut SentFrames,
)
    requires taken { IsTaken port.old.link.state event.now taken }
    requires rest { IsAtRest port.old }
    requires fits { FitsIn port.old.link taken }
    requires can { CanHold port.old out.old }
    ensures received { Grew out.old.items out.new.items
        (Received (port_of port.old) (port_of port.new) event.now after sid reply.old) }
    ensures time { port.new.link.state.now ≡ port.old.link.state.now }
    ensures rest { IsAtRest port.new }
    ensures pace { port.new.pace ≡ port.old.pace }
{
    // (for its contract: the event is that of which this is left)
    let _ = event;
    port.link.settle(taken);
    port.held
        .hold_reply(port.link.now(), port.pace, after, sid, reply);
    release(port);
    send_due(&mut port.link, out);
}
