//! Seats given out, that try a step, and brought home; a caller keeps in mind only the gate that they belong to.

ghost use Rattle.std.specs.Prelude.{◌≡◌, IfOk};

use crate::gate::given::{desk_of_two, request, says, tester};
use crate::trouble::Trouble;
use diag_desk::Desk;
use diag_gate::{Gate, Host, Seat};
use std::alloc::Global;

/// The seat of the tester of a place.
pub(crate) fn seat_of(gate: &Gate, host: &mut Host, place: u8) -> Result<Seat, Trouble>
    requires { host.old.gate ≡ gate.now }
    ensures seat { IfOk result (λ seat. seat.gate ≡ gate.now) }
    ensures host { host.new.gate ≡ host.old.gate }
{
    let who = tester(place)?;
    match gate.split(host, who) {
        Some(seat) => Ok(seat),
        None => Err(Trouble::Wrong),
    }
}

/// Whether the seat of a place is out, so that it isn't given again.
pub(crate) fn is_out(gate: &Gate, host: &mut Host, place: u8) -> bool
    requires { host.old.gate ≡ gate.now }
    ensures { host.new.gate ≡ host.old.gate }
{
    seat_of(gate, host, place).is_err()
}

/// Brings a seat home.
pub(crate) fn bring_home(gate: &Gate, host: &mut Host, seat: Seat)
    requires host { host.old.gate ≡ gate.now }
    requires seat { seat.gate ≡ gate.now }
    ensures { host.new.gate ≡ host.old.gate }
{
    gate.join(host, seat);
}

/// The desk, where all seats are home.
pub(crate) fn closed(gate: Gate, host: Host) -> Result<Desk, Trouble>
    requires { host.gate ≡ gate }
{
    if !host.all_home() {
        return Err(Trouble::Wrong);
    }
    Ok(gate.close(host))
}

/// A gate of a desk of two testers, with no entry.
pub(crate) fn gate_of_two(alloc: Global) -> Result<(Gate, Host), Trouble>
    ensures { IfOk result (λ r. r.1.gate ≡ r.0) }
{
    opened(alloc, desk_of_two(alloc)?)
}

/// A gate of this desk.
pub(crate) fn opened(alloc: Global, desk: Desk) -> Result<(Gate, Host), Trouble>
    ensures { IfOk result (λ r. r.1.gate ≡ r.0) }
{
    let opened = Gate::new(alloc, desk)?;
    Ok(opened)
}

/// Whether a seat that tries a request is answered so.
pub(crate) fn tries(
    alloc: Global,
    gate: &Gate,
    seat: &mut Seat,
    bytes: &[u8],
    wanted: &[u8],
) -> Result<bool, Trouble>
    requires { seat.old.gate ≡ gate.now }
    ensures { seat.new.gate ≡ seat.old.gate }
{
    let reply = gate.try_step(seat, request(alloc, bytes)?)?;
    Ok(says(&reply, wanted))
}
