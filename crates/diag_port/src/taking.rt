//! One event at a port: the step that it gives is taken, and the frames that are due are handed out.

ghost use Rattle.std.specs.Prelude.{
  ◌≡◌,
  ◌+◌,
  ◌≤◌,
  ℕ,
  [],
  true,
  IfErr,
  IfOk,
  IsTrue,
  None,
  OnErr,
  OnOk,
};
ghost use Rattle.diag_can.specs.Event.{Event as AnEvent};
ghost use Rattle.diag_pdu.specs.declared.step.Step.{Step as AStep};
ghost use Rattle.diag_tp.specs.Link.{is_frame, pending};
ghost use Rattle.diag_tp.specs.Taken.{asked_in};
ghost use Rattle.diag_port.specs.Fault.{IsFaultBy};
ghost use Rattle.diag_port.specs.Releasing.{sid_of};
ghost use Rattle.diag_port.specs.Port.{CanHold, Grew, HasRoomFor, IsAtRest, port_of, unsent_of};
ghost use Rattle.diag_port.specs.Standing.{GivesStep, IsPrepared, PortTook, RefusedEvent, TookEvent};

use crate::held::MOST_PENDINGS;
use crate::passing::{pass, receive_at_once, receive_held};
use crate::port::Port;
use crate::stepping::TakeSteps;
use diag_can::{EventKind, LentEvent, TickCount};
use diag_pdu::Request;
use diag_setup::TesterId;
use diag_tp::{SentFrames, Taken};
use std::alloc::AllocError;

/// Takes an event of a tester at its port: has the step that it gives taken, and hands out what is due. All growths here
/// come before the step. Refused, port and frames are as before.
///
/// # Errors
/// That of memory where it is refused, or where no more replies can wait; and the taker's own where it has no room for an
/// entry more.
#[inline(always)]
pub fn take<T: TakeSteps>(
    port: &mut Port,
    who: TesterId,
    event: &LentEvent<'_>,
    taker: &mut T,
    out: &mut SentFrames,
) -> Result<(), T::Fault>
    requires rest { IsAtRest port.old }
    requires allows { T.allows taker.old who port.old.link.state.now }
    ensures took { OnOk result (TookEvent T.takes (port_of port.old) (port_of port.new) taker.old taker.new
        who event.now out.old.items out.new.items) }
    ensures rest { IsAtRest port.new }
    ensures refused { OnErr result (RefusedEvent T.refuses (port_of port.old) (port_of port.new)
        taker.old taker.new out.old.items out.new.items) }
    ensures full { IfErr result (IsFaultBy T.Fault.from_gives
        (T.is_full taker.old × GivesStep port.old.link.state event.now)) }
    ensures stays { T.stays taker.old taker.new }
{
    if let EventKind::Ticks(count) = event.kind() {
        return take_ticks(port, who, count, taker, out);
    }
    let delays = taker.can_delay();
    let taken = prepare(port, event, delays, out)?;
    take_frame(port, who, event, taken, taker, out)
}

/// Takes ticks, which give a step that has no reply.
#[inline(always)]
fn take_ticks<T: TakeSteps>(
    port: &mut Port,
    who: TesterId,
    count: TickCount,
    taker: &mut T,
    out: &mut SentFrames,
) -> Result<(), T::Fault>
    requires rest { IsAtRest port.old }
    requires allows { T.allows taker.old who port.old.link.state.now }
    ensures took { OnOk result (TookEvent T.takes (port_of port.old) (port_of port.new) taker.old taker.new
        who (AnEvent.Ticks count) out.old.items out.new.items) }
    ensures rest { IsAtRest port.new }
    ensures refused { OnErr result (RefusedEvent T.refuses (port_of port.old) (port_of port.new)
        taker.old taker.new out.old.items out.new.items) }
    ensures full { IfErr result (IsFaultBy T.Fault.from_gives (T.is_full taker.old)) }
    ensures stays { T.stays taker.old taker.new }
{
    make_tick_room(port, out)?;
    taker.take_ticks(port.link.now(), who, count)?;
    pass(port, count, out);
    Ok(())
}

/// Makes room for all frames that may fall due as time passes.
#[inline(always)]
fn make_tick_room(port: &Port, out: &mut SentFrames) -> Result<(), AllocError>
    requires rest { IsAtRest port.now }
    ensures out { out.new.items ≡ out.old.items }
    ensures room { OnOk result (HasRoomFor port.now.link.state (unsent_of port.now) out.new) }
{
    let most = port.link.backlog().saturating_add(port.held.frames());
    out.reserve(port.link.tx_dl(), most as usize)
}

/// Reads a frame, and makes room for it and for what it may draw; where a reply may go later, or something is held, for all
/// messages of one more reply. Nothing else changes, whatever the answer.
#[inline(always)]
fn prepare<'f>(
    port: &mut Port,
    event: &LentEvent<'f>,
    delays: bool,
    out: &mut SentFrames,
) -> Result<Taken<'f>, AllocError>
    requires rest { IsAtRest port.old }
    requires frame { IsTrue (is_frame event.now) }
    ensures same { port_of port.new ≡ port_of port.old }
    ensures rest { IsAtRest port.new }
    ensures out { out.new.items ≡ out.old.items }
    ensures prepared { IfOk result (λ taken. IsPrepared port.new event.now taken out.new) }
    ensures delays { delays ≡ true → OnOk result (CanHold port.new out.new) }
{
    let most = port.link.backlog().saturating_add(2) as usize;
    out.reserve(port.link.tx_dl(), most)?;
    if delays || !port.held.is_empty() {
        make_hold_room(port, out)?;
    }
    port.link.begin(event)
}

/// Makes room for the messages of one more reply, in what is held, in the link and in the frames.
#[cold]
#[inline(never)]
fn make_hold_room(port: &mut Port, out: &mut SentFrames) -> Result<(), AllocError>
    requires drained { pending port.old.link.state ≡ 0 }
    ensures same { port_of port.new ≡ port_of port.old }
    ensures rooms { port.old.link.reply_room ≤ port.new.link.reply_room }
    ensures out { out.new.items ≡ out.old.items }
    ensures can { OnOk result (CanHold port.new out.new) }
{
    let most = MOST_PENDINGS as usize + 1;
    let len = port.held.len();
    port.held.make_room(most)?;
    port.link.make_reply_rooms(len.saturating_add(most))?;
    let frames = port
        .link
        .backlog()
        .saturating_add(len as u64)
        .saturating_add(most as u64 + 1);
    out.reserve(port.link.tx_dl(), frames as usize)
}

/// Takes a frame that was read and has room, and asks nothing.
#[inline(always)]
fn take_silent(port: &mut Port, event: &LentEvent<'_>, taken: Taken<'_>, out: &mut SentFrames)
    requires prepared { IsPrepared port.old event.now taken out.old }
    requires silent { asked_in port.old.link taken ≡ None }
    ensures took { (who : ℕ) → Grew out.old.items out.new.items (λ more.
        PortTook (port_of port.old) (port_of port.new) who event.now None more) }
    ensures rest { IsAtRest port.new }
{
    if port.held.is_empty() {
        receive_at_once(port, event, taken, &mut None, out);
    } else {
        receive_held(port, event, taken, &mut None, 0, 0, out);
    }
}

/// Takes a frame that was read and has room, and has the request that it completes, if any, taken. (The step is taken at this
/// one call, whatever frame it was: so the body of whoever takes it is put here.)
#[inline(always)]
fn take_frame<T: TakeSteps>(
    port: &mut Port,
    who: TesterId,
    event: &LentEvent<'_>,
    taken: Taken<'_>,
    taker: &mut T,
    out: &mut SentFrames,
) -> Result<(), T::Fault>
    requires prepared { IsPrepared port.old event.now taken out.old }
    requires delays { T.can_delay taker.old ≡ true → CanHold port.old out.old }
    requires allows { T.allows taker.old who port.old.link.state.now }
    ensures took { OnOk result (TookEvent T.takes (port_of port.old) (port_of port.new) taker.old taker.new
        who event.now out.old.items out.new.items) }
    ensures rest { IsAtRest port.new }
    ensures refused { OnErr result (RefusedEvent T.refuses (port_of port.old) (port_of port.new)
        taker.old taker.new out.old.items out.new.items) }
    ensures full { IfErr result (IsFaultBy T.Fault.from_gives
        (T.is_full taker.old × GivesStep port.old.link.state event.now)) }
    ensures stays { T.stays taker.old taker.new }
{
    let Some(request) = port.link.request(taken) else {
        take_silent(port, event, taken, out);
        return Ok(());
    };
    let mut reply = None;
    let after = taker.take_request(port.link.now(), who, request, &mut reply)?;
    if after == 0 && port.held.is_empty() {
        receive_at_once(port, event, taken, &mut reply, out);
    } else {
        let sid = service_of(request);
        receive_held(port, event, taken, &mut reply, after, sid, out);
    }
    Ok(())
}

/// The service that a request asks for.
#[cold]
#[inline(never)]
fn service_of(request: &Request) -> u8
    ensures { result ≡ sid_of (AStep.Request request.now) }
{
    match request.message.bytes() {
        [sid, ..] => *sid,
        [] => 0,
    }
}
