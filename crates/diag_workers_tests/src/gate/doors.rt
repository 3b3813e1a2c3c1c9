//! Doors over a gate and over a lock.

ghost use Rattle.std.specs.Prelude.{◌≡◌};

use crate::desk::fill;
use crate::gate::given::{and, desk_of_two, request, says, tester};
use crate::gate::seating::{gate_of_two, seat_of, tries};
use crate::trouble::{Trouble, holds};
use diag_desk::{Desk, MOST_ENTRIES, StepFault};
use diag_gate::{Door, Gate, GateDoor, Host, LockDoor};
use diag_pdu::Step;
use std::alloc::Global;
use std::sync::{Mutex, Wait};

/// Whether a door answers a request so.
fn answers<D: Door>(
    alloc: Global,
    door: &mut D,
    bytes: &[u8],
    wanted: &[u8],
) -> Result<bool, Trouble> {
    let asked = request(alloc, bytes)?;
    let reply = door.step(&asked)?;
    Ok(says(&reply, wanted))
}

fn another_steps<R: Wait>(
    rt: &R,
    alloc: Global,
    gate: &Gate,
    host: &mut Host,
) -> Result<bool, Trouble>
    requires { host.old.gate ≡ gate.now }
    ensures { host.new.gate ≡ host.old.gate }
{
    let mut b = seat_of(gate, host, 8)?;
    let a = seat_of(gate, host, 1)?;
    let mut door = GateDoor::new(rt, gate, a);
    let first = answers(alloc, &mut door, &[0x3E, 0x00], &[0x7E, 0x00]);
    let second = tries(alloc, gate, &mut b, &[0x01], &[0x7F, 0x01, 0x11]);
    and(first, second)
}

fn lets_go<R: Wait>(rt: &R, alloc: Global) -> Result<bool, Trouble> {
    let (gate, mut host) = gate_of_two(alloc)?;
    another_steps(rt, alloc, &gate, &mut host)
}

/// After its step a door has let the desk go, so another seat's step is taken at once.
#[test]
fn door_lets_go(rt: HostRuntime) -> Result<(), Trouble> {
    holds(lets_go(&rt, rt.alloc()))
}

/// How many entries the journal of a desk under a lock has.
fn entries<R: Wait>(rt: &R, desk: &Mutex<Desk>) -> usize {
    desk.lock(rt).journal().len()
}

/// Whether a step adds one entry to so many, and where it is refused for want of memory none.
fn adds_one<R: Wait>(
    rt: &R,
    desk: &Mutex<Desk>,
    door: &mut LockDoor<'_, R>,
    step: &Step,
    before: usize,
) -> Result<bool, Trouble> {
    let refused = door.step(step).err();
    let after = entries(rt, desk);
    match refused {
        None => Ok(before.checked_add(1) == Some(after)),
        Some(StepFault::Memory) if after == before => Err(Trouble::Memory),
        Some(_) => Ok(false),
    }
}

/// Whether each of eight steps of a door does so.
fn add_one_each<R: Wait>(
    rt: &R,
    desk: &Mutex<Desk>,
    door: &mut LockDoor<'_, R>,
    step: &Step,
) -> Result<bool, Trouble> {
    for before in 0..8 {
        if !adds_one(rt, desk, door, step, before)? {
            return Ok(false);
        }
    }
    Ok(true)
}

/// Whether each step of a door over a lock adds one entry, and a step that was refused for want of memory none.
fn refused_adds_none<R: Wait>(rt: &R, alloc: Global, desk: &Mutex<Desk>) -> Result<bool, Trouble> {
    let who = tester(1)?;
    let step = request(alloc, &[0x3E, 0x00])?;
    let mut door = LockDoor::new(rt, alloc, desk, who);
    add_one_each(rt, desk, &mut door, &step)
}

fn locked_room<R: Wait>(rt: &R, alloc: Global) -> Result<bool, Trouble> {
    let desk = Mutex::new(desk_of_two(alloc)?);
    refused_adds_none(rt, alloc, &desk)
}

/// A door over a lock makes its own room before it has the desk step. It shows where memory is refused.
#[test]
fn lock_door_makes_room_first(rt: HostRuntime) -> Result<(), Trouble> {
    holds(locked_room(&rt, rt.alloc()))
}

/// Whether a door tells that the journal is full.
fn tells_full<D: Door>(door: &mut D, step: &Step) -> Result<bool, Trouble> {
    match door.step(step) {
        Ok(_) => Ok(false),
        Err(StepFault::JournalFull) => Ok(true),
        Err(StepFault::Memory) => Err(Trouble::Memory),
    }
}

/// Whether a door over a lock, which has answered nothing, tells that the desk's journal is full, and adds nothing.
fn full_behind_a_lock<R: Wait>(rt: &R, alloc: Global) -> Result<bool, Trouble> {
    let who = tester(1)?;
    let mut desk = desk_of_two(alloc)?;
    fill(&mut desk, who)?;
    let desk = Mutex::new(desk);
    let step = request(alloc, &[0x3E, 0x00])?;
    let mut door = LockDoor::new(rt, alloc, &desk, who);
    let told = tells_full(&mut door, &step)?;
    Ok(told && entries(rt, &desk) == MOST_ENTRIES)
}

#[test]
fn lock_door_tells_a_full_desk(rt: HostRuntime) -> Result<(), Trouble> {
    holds(full_behind_a_lock(&rt, rt.alloc()))
}
