//! Two threads, each with a seat of its own.

ghost use Rattle.std.specs.Prelude.{◌≡◌, IfOk};

use crate::gate::given::request;
use crate::gate::seating::{bring_home, closed, opened, seat_of};
use crate::trouble::{Trouble, holds};
use diag_desk::{Desk, StepFault, replay};
use diag_gate::{Door, Gate, GateDoor, Host, Seat};
use diag_pdu::Step;
use diag_setup::{Setup, TesterId};
use diag_stored::two_testers;
use std::alloc::Global;
use std::sync::Wait;
use std::thread::{Threads, join};

/// Has a door take one step 1,000 times, and hands it back.
fn step_often<D: Door>(door: D, step: &Step) -> (D, Result<(), StepFault>)
    ensures { D.home result.0 ≡ D.home door }
{
    let mut door = door;
    for _ in 0..1000u32 {
        match door.step(step) {
            Ok(_reply) => {}
            Err(fault) => return (door, Err(fault)),
        }
    }
    (door, Ok(()))
}

/// Two doors in threads of their own.
fn both_step<D: Door + Send + Drop, R: Threads + Sync>(
    rt: &R,
    one: D,
    two: D,
    step: &Step,
) -> ((D, Result<(), StepFault>), (D, Result<(), StepFault>))
    ensures { (D.home result.0.0 ≡ D.home one) × (D.home result.1.0 ≡ D.home two) }
{
    join(
        rt,
        move || step_often(one, step),
        move || step_often(two, step),
    )
}

/// Two seats step in threads of their own, and come back, whatever the steps are answered.
fn seats_step<R: Threads + Wait + Sync>(
    rt: &R,
    gate: &Gate,
    a: Seat,
    b: Seat,
    step: &Step,
) -> (Seat, Seat, Result<(), StepFault>)
    requires a { a.gate ≡ gate.now }
    requires b { b.gate ≡ gate.now }
    ensures { (result.0.gate ≡ gate.now) × (result.1.gate ≡ gate.now) }
{
    let one = GateDoor::new(rt, gate, a);
    let two = GateDoor::new(rt, gate, b);
    let ((one, first), (two, second)) = both_step(rt, one, two, step);
    (one.into_seat(), two.into_seat(), first.and(second))
}

/// The holder that a replay of a desk's journal leaves.
fn replayed_holder(alloc: Global, setup: &Setup, desk: &Desk) -> Result<Option<TesterId>, Trouble> {
    let ecu = replay(alloc, setup, desk.journal())?;
    Ok(ecu.holder())
}

/// Whether a replay of the desk's journal of 2,000 entries leaves the same holder.
fn has_replay(alloc: Global, setup: &Setup, desk: &Desk) -> Result<bool, Trouble> {
    let holder = replayed_holder(alloc, setup, desk)?;
    Ok(desk.journal().len() == 2000 && holder == desk.ecu().holder())
}

/// Gives out two seats, has both step, and brings them home.
fn both_enter<R: Threads + Wait + Sync>(
    rt: &R,
    gate: &Gate,
    host: &mut Host,
    step: &Step,
) -> Result<(), Trouble>
    requires { host.old.gate ≡ gate.now }
    ensures { host.new.gate ≡ host.old.gate }
{
    let a = seat_of(gate, host, 1)?;
    let b = seat_of(gate, host, 2)?;
    let (a, b, stepped) = seats_step(rt, gate, a, b, step);
    bring_home(gate, host, a);
    bring_home(gate, host, b);
    Ok(stepped?)
}

/// A gate of a desk of this setup.
fn gate_of(alloc: Global, setup: &Setup) -> Result<(Gate, Host), Trouble>
    ensures { IfOk result (λ r. r.1.gate ≡ r.0) }
{
    opened(alloc, Desk::new(alloc, setup)?)
}

/// The desk at which both have stepped.
fn entered<R: Threads + Wait + Sync>(
    rt: &R,
    alloc: Global,
    setup: &Setup,
    step: &Step,
) -> Result<Desk, Trouble> {
    let (gate, mut host) = gate_of(alloc, setup)?;
    match both_enter(rt, &gate, &mut host, step) {
        Ok(()) => closed(gate, host),
        Err(trouble) => Err(trouble),
    }
}

/// Whether both step, and a replay agrees.
fn all_enter<R: Threads + Wait + Sync>(
    rt: &R,
    alloc: Global,
    setup: &Setup,
    step: &Step,
) -> Result<bool, Trouble> {
    let desk = entered(rt, alloc, setup, step)?;
    has_replay(alloc, setup, &desk)
}

fn all_entered<R: Threads + Wait + Sync>(rt: &R, alloc: Global) -> Result<bool, Trouble> {
    let step = request(alloc, &[0x10, 0x03])?;
    let setup = two_testers(alloc)?;
    all_enter(rt, alloc, &setup, &step)
}

#[test]
fn steps_of_two_threads_replay(rt: HostRuntime) -> Result<(), Trouble> {
    holds(all_entered(&rt, rt.alloc()))
}
