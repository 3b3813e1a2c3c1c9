//! A seat and a door for each of the first testers, and all of them back.
ghost use Rattle.std.specs.Prelude.{◌≡◌, ◌≤◌, ◌<◌, ◌+◌, ℕ, length, false, map, slice_index_or, IfOk};
ghost use Rattle.diag_gate.specs.Seats.{SeatView, was_given};
ghost use Rattle.diag_workers.specs.Seating.{Out, Back};

use crate::keeping::Unkept;
use crate::watch::{Watch, WatchedDoor};
use crate::working::WorkerRecord;
use diag_gate::{Gate, GateDoor, Host, Seat};
use diag_setup::TesterId;
use diag_tp::SentFrames;
use std::alloc::{AllocError, Global};
use std::sync::Wait;

/// A seat for each of the first testers, in order.
pub(crate) fn give_out(
    alloc: Global,
    gate: &Gate,
    host: &mut Host,
    count: u8,
) -> Result<Vec<Seat>, AllocError>
    requires gate { host.old.gate ≡ gate.now }
    requires count { count ≤ 8 }
    requires fresh { (t : ℕ) → t < 9 → was_given host.old t ≡ false }
    ensures { IfOk result (λ v. Out host.old host.new count v.items) }
{
    let mut seats = Vec::new(alloc);
    for k in 0..count {
        let Some(who) = TesterId::new(k + 1) else {
            unreachable!()
        };
        let Some(seat) = gate.split(host, who) else {
            unreachable!()
        };
        seats.push(seat)?;
    }
    Ok(seats)
}

/// A watched door for each seat, in order.
pub(crate) fn doors_of<'a, W: Watch, R: Wait>(
    rt: &'a R,
    alloc: Global,
    gate: &'a Gate,
    watch: &'a W,
    seats: Vec<Seat>,
) -> Result<Vec<WatchedDoor<'a, GateDoor<'a, R>, W>>, AllocError>
    requires { (k : ℕ) (d : SeatView)
        → k < length seats.items
        → (slice_index_or seats.items k d).gate ≡ gate.now }
    ensures { IfOk result (λ doors. map (λ d. d.door) doors.items ≡ seats.items) }
{
    let mut doors = Vec::new(alloc);
    for seat in seats {
        let door = GateDoor::new(rt, gate, seat);
        doors.push(WatchedDoor { door, watch })?;
    }
    Ok(doors)
}

/// What the workers did, taken apart: the seats of their doors, and the frames that they sent.
pub(crate) fn take_apart<W: Watch, R: Wait>(
    alloc: Global,
    done: Vec<(WorkerRecord<Unkept>, WatchedDoor<'_, GateDoor<'_, R>, W>)>,
) -> Result<(Vec<Seat>, Vec<SentFrames>), AllocError>
    ensures seats { IfOk result (λ r. r.0.items ≡ map (λ d. d.1.door) done.entry.items) }
    ensures sent { IfOk result (λ r.
        map (λ s. s.items) r.1.items ≡ map (λ d. d.0.sent.items) done.entry.items) }
{
    let mut seats = Vec::new(alloc);
    let mut sent = Vec::new(alloc);
    for (record, door) in done {
        let WatchedDoor { door, watch: _ } = door;
        let WorkerRecord {
            entries: _,
            sent: frames,
        } = record;
        seats.push(door.into_seat())?;
        sent.push(frames)?;
    }
    Ok((seats, sent))
}

/// All seats back, in order.
pub(crate) fn take_in(gate: &Gate, host: &mut Host, seats: Vec<Seat>)
    requires gate { host.old.gate ≡ gate.now }
    requires room { length seats.items < length host.old.owns }
    requires seats { (k : ℕ) (d : SeatView)
        → k < length seats.items
        → ((slice_index_or seats.items k d).gate ≡ gate.now)
        × ((slice_index_or seats.items k d).who ≡ k + 1) }
    ensures { Back host.old host.new seats.items }
{
    for seat in seats {
        gate.join(host, seat);
    }
}
