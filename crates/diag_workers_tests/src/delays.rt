//! Replies that go later: what doors tell of them, and a play in which a reply waits for the one before it.

ghost use Rattle.std.specs.Prelude.{◌≡◌, length, IfOk};

use crate::gate::given::{request, says, tester};
use crate::gate::seating::{opened, seat_of};
use crate::trouble::{Trouble, holds};
use crate::workers::given::{is_frame, is_replayed, text_of};
use diag_can::{TickCount, Timing};
use diag_desk::Desk;
use diag_gate::{Door, Gate, GateDoor, Host, LockDoor};
use diag_pdu::Step;
use diag_setup::{Items, PatternItem, RawAnswer, Setup};
use diag_stored::raw_two_testers;
use diag_tp::SentFrames;
use diag_workers::{NoWatch, play};
use diag_world::Played;
use std::alloc::Global;
use std::sync::{Mutex, Wait};
use std::thread::Threads;

/// A row for a request of these bytes: the services answer it, so many milliseconds after it.
fn slow(alloc: Global, request: &[u8], after_ms: u32) -> Result<RawAnswer, Trouble> {
    let mut pattern = Vec::new(alloc);
    for byte in request {
        pattern.push(PatternItem::Byte(*byte))?;
    }
    Ok(RawAnswer {
        pattern: Items::from_vec(pattern),
        more: false,
        reply: None,
        session: 0,
        level: 0,
        enter: 0,
        after_ms,
    })
}

/// A setup of two testers, by which clearing takes 400 ms and TesterPresent 100 ms.
fn slow_setup(alloc: Global) -> Result<Setup, Trouble>
    ensures { IfOk result (λ setup. length setup.testers ≡ 2) }
{
    let clearing = slow(alloc, &[0x14, 0xFF, 0xFF, 0xFF], 400)?;
    let presence = slow(alloc, &[0x3E, 0x00], 100)?;
    let mut raw = raw_two_testers(alloc)?;
    raw.answers = Items::from_vec(Vec::from_array(alloc, [clearing, presence])?);
    match raw.check() {
        Ok(setup) if setup.testers() == 2 => Ok(setup),
        _ => Err(Trouble::Wrong),
    }
}

/// Whether a door tells 400 ms of clearing, and none before it and of a tick.
fn tells<D: Door>(alloc: Global, door: &mut D) -> Result<bool, Trouble> {
    let fresh = door.can_delay() && door.after_ms() == 0;
    let clearing = request(alloc, &[0x14, 0xFF, 0xFF, 0xFF])?;
    let cleared = says(&door.step(&clearing)?, &[0x54]) && door.after_ms() == 400;
    let count = TickCount::new(1).ok_or(Trouble::Wrong)?;
    let ticked = door.step(&Step::Ticks(count))?.is_none();
    Ok(fresh && cleared && ticked && door.after_ms() == 0)
}

/// The same of a door of the first tester at this gate.
fn gate_tells<R: Wait>(rt: &R, alloc: Global, gate: &Gate, host: &mut Host) -> Result<bool, Trouble>
    requires { host.old.gate ≡ gate.now }
{
    let seat = seat_of(gate, host, 1)?;
    let mut door = GateDoor::new(rt, gate, seat);
    tells(alloc, &mut door)
}

fn gate_door_tells<R: Wait>(rt: &R, alloc: Global) -> Result<bool, Trouble> {
    let setup = slow_setup(alloc)?;
    let (gate, mut host) = opened(alloc, Desk::new(alloc, &setup)?)?;
    gate_tells(rt, alloc, &gate, &mut host)
}

#[test]
fn gate_door_tells_the_delay(rt: HostRuntime) -> Result<(), Trouble> {
    holds(gate_door_tells(&rt, rt.alloc()))
}

fn lock_door_tells<R: Wait>(rt: &R, alloc: Global) -> Result<bool, Trouble> {
    let setup = slow_setup(alloc)?;
    let desk = Mutex::new(Desk::new(alloc, &setup)?);
    let mut door = LockDoor::new(rt, alloc, &desk, tester(1)?);
    tells(alloc, &mut door)
}

#[test]
fn lock_door_tells_the_delay(rt: HostRuntime) -> Result<(), Trouble> {
    holds(lock_door_tells(&rt, rt.alloc()))
}

/// Response pending of clearing, the reply to it, and the same of TesterPresent.
const CLEARING_PENDING: [u8; 8] = [0x03, 0x7F, 0x14, 0x78, 0xCC, 0xCC, 0xCC, 0xCC];

const CLEARED: [u8; 8] = [0x01, 0x54, 0xCC, 0xCC, 0xCC, 0xCC, 0xCC, 0xCC];

const PRESENCE_PENDING: [u8; 8] = [0x03, 0x7F, 0x3E, 0x78, 0xCC, 0xCC, 0xCC, 0xCC];

const PRESENT: [u8; 8] = [0x02, 0x7E, 0x00, 0xCC, 0xCC, 0xCC, 0xCC, 0xCC];

/// Whether the faster reply waited for the slower one before it, and its own response pending, too.
fn has_waited(sent: &SentFrames) -> bool {
    sent.len() == 4
        && is_frame(sent, 0, 50, 0x7E8, &CLEARING_PENDING)
        && is_frame(sent, 1, 400, 0x7E8, &CLEARED)
        && is_frame(sent, 2, 400, 0x7E8, &PRESENCE_PENDING)
        && is_frame(sent, 3, 400, 0x7E8, &PRESENT)
}

/// Whether response pending went, and the reply wasn't due yet.
fn is_pending(sent: &SentFrames) -> bool {
    sent.len() == 1 && is_frame(sent, 0, 50, 0x7E9, &PRESENCE_PENDING)
}

/// The journal has the replies at once, and replays.
fn is_slow_play(alloc: Global, setup: &Setup, played: &Played) -> Result<bool, Trouble> {
    is_replayed(alloc, setup, played.desk.journal())?;
    let [first, second] = played.sent.as_slice() else {
        return Ok(false);
    };
    Ok(has_waited(first) && is_pending(second) && played.desk.journal().len() == 5)
}

fn slow_play_holds<R: Threads + Wait + Sync>(rt: &R, alloc: Global) -> Result<bool, Trouble> {
    let setup = slow_setup(alloc)?;
    let texts = [
        text_of(alloc, &["7E0#0414FFFFFF", "7E0#023E00", "tick 400"])?,
        text_of(alloc, &["7E1#023E00", "tick 99"])?,
    ];
    let played = play(rt, alloc, &setup, &texts, &NoWatch, Timing::Lines)?;
    is_slow_play(alloc, &setup, &played)
}

#[test]
fn slow_play(rt: HostRuntime) -> Result<(), Trouble> {
    holds(slow_play_holds(&rt, rt.alloc()))
}
