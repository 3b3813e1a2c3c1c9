//! Seats that step one after another.

ghost use Rattle.std.specs.Prelude.{◌≡◌, IfOk};

use crate::gate::given::{and, request, says};
use crate::gate::seating::{bring_home, closed, gate_of_two, is_out, seat_of, tries};
use crate::trouble::{Trouble, holds};
use diag_can::TickCount;
use diag_desk::{Journal, StepFault, StepRef};
use diag_gate::{Gate, Host, Seat, TryFault};
use diag_pdu::{Message, Step};
use std::alloc::Global;
use std::sync::Wait;

/// Whether a request is refused, since another seat has the desk, and comes back as it was.
fn is_busy(alloc: Global, gate: &Gate, seat: &mut Seat, bytes: &[u8]) -> Result<bool, Trouble>
    requires { seat.old.gate ≡ gate.now }
    ensures { seat.new.gate ≡ seat.old.gate }
{
    match gate.try_step(seat, request(alloc, bytes)?) {
        Err(TryFault::Busy(Step::Request(request))) => Ok(request.message.bytes() == bytes),
        _ => Err(Trouble::Wrong),
    }
}

/// Has a seat try a tick, which no other seat keeps it from.
fn tick(gate: &Gate, seat: &mut Seat) -> Result<(), Trouble>
    requires { seat.old.gate ≡ gate.now }
    ensures { seat.new.gate ≡ seat.old.gate }
{
    let count = TickCount::new(1).ok_or(Trouble::Wrong)?;
    match gate.try_step(seat, Step::Ticks(count)) {
        Ok(None) => Ok(()),
        Ok(Some(_)) => Err(Trouble::Wrong),
        Err(fault) => Err(fault.into()),
    }
}

/// Has a seat take the desk and then step, while another seat is kept from its own step. Whether the step is silent.
fn step_held(
    alloc: Global,
    gate: &Gate,
    seat: Seat,
    other: &mut Seat,
    step: &Step,
) -> Result<(Seat, Result<bool, StepFault>), Trouble>
    requires seat { seat.gate ≡ gate.now }
    requires other { other.old.gate ≡ gate.now }
    ensures seat { IfOk result (λ r. r.0.gate ≡ gate.now) }
    ensures other { other.new.gate ≡ other.old.gate }
{
    let Ok(held) = gate.try_take(seat) else {
        return Err(Trouble::Wrong);
    };
    let busy = is_busy(alloc, gate, other, &[0x10, 0x03]);
    let (seat, answer) = held.step(step);
    let silent = is_silent(answer);
    holds(busy)?;
    Ok((seat, silent))
}

/// Whether an answer has no reply.
fn is_silent(answer: Result<Option<Message>, StepFault>) -> Result<bool, StepFault> {
    match answer {
        Ok(reply) => Ok(reply.is_none()),
        Err(fault) => Err(fault),
    }
}

/// The same after a third seat's tick.
fn step_held_after_a_tick(
    alloc: Global,
    gate: &Gate,
    seat: Seat,
    other: &mut Seat,
    third: &mut Seat,
    step: &Step,
) -> Result<(Seat, Result<bool, StepFault>), Trouble>
    requires seat { seat.gate ≡ gate.now }
    requires other { other.old.gate ≡ gate.now }
    requires third { third.old.gate ≡ gate.now }
    ensures seat { IfOk result (λ r. r.0.gate ≡ gate.now) }
    ensures other { other.new.gate ≡ other.old.gate }
    ensures third { third.new.gate ≡ third.old.gate }
{
    tick(gate, third)?;
    step_held(alloc, gate, seat, other, step)
}

/// The same, once more where memory was refused: the desk was then not kept from a third seat, whose tick tells of it.
fn step_held_again(
    alloc: Global,
    gate: &Gate,
    seat: Seat,
    other: &mut Seat,
    third: &mut Seat,
    step: &Step,
) -> Result<(Seat, Result<bool, StepFault>), Trouble>
    requires seat { seat.gate ≡ gate.now }
    requires other { other.old.gate ≡ gate.now }
    requires third { third.old.gate ≡ gate.now }
    ensures seat { IfOk result (λ r. r.0.gate ≡ gate.now) }
    ensures other { other.new.gate ≡ other.old.gate }
    ensures third { third.new.gate ≡ third.old.gate }
{
    let (seat, silent) = step_held(alloc, gate, seat, other, step)?;
    match silent {
        Err(StepFault::Memory) => { step_held_after_a_tick(alloc, gate, seat, other, third, step) }
        silent => Ok((seat, silent)),
    }
}

/// The session is another tester's.
const BUSY: [u8; 3] = [0x7F, 0x10, 0x21];

/// The reply with the value of F190.
const VALUE: &[u8] = b"\x62\xF1\x90TESTVIN0123456789";

/// Whether a seat that waits for its step is answered so.
fn waits<R: Wait>(
    rt: &R,
    alloc: Global,
    gate: &Gate,
    seat: &mut Seat,
    bytes: &[u8],
    wanted: &[u8],
) -> Result<bool, Trouble>
    requires { seat.old.gate ≡ gate.now }
    ensures { seat.new.gate ≡ seat.old.gate }
{
    let step = request(alloc, bytes)?;
    let reply = gate.step(rt, seat, &step)?;
    Ok(says(&reply, wanted))
}

/// Whether a seat that tries a request is answered so, once more where memory was refused: the desk was then not kept
/// from a third seat, whose tick tells of it.
fn tries_again(
    alloc: Global,
    gate: &Gate,
    seat: &mut Seat,
    third: &mut Seat,
    bytes: &[u8],
    wanted: &[u8],
) -> Result<bool, Trouble>
    requires seat { seat.old.gate ≡ gate.now }
    requires third { third.old.gate ≡ gate.now }
    ensures seat { seat.new.gate ≡ seat.old.gate }
    ensures third { third.new.gate ≡ third.old.gate }
{
    match tries(alloc, gate, seat, bytes, wanted) {
        Err(Trouble::Memory) => {
            tick(gate, third)?;
            tries(alloc, gate, seat, bytes, wanted)
        }
        answer => answer,
    }
}

/// An entry of a physical request: its tester's place, its bytes and the bytes of its reply.
#[derive(Clone, Copy)]
struct Wanted {
    place: u8,
    request: &'static [u8],
    reply: Option<&'static [u8]>,
}

const WANTED: [Wanted; 3] = [
    Wanted {
        place: 1,
        request: &[0x10, 0x83],
        reply: None,
    },
    Wanted {
        place: 2,
        request: &[0x10, 0x03],
        reply: Some(&BUSY),
    },
    Wanted {
        place: 1,
        request: &[0x22, 0xF1, 0x90],
        reply: Some(VALUE),
    },
];

/// Whether the journal's entries that are no ticks are these, in this order.
fn has_requests(journal: &Journal, wanted: &[Wanted]) -> bool {
    let mut next = 0;
    for index in 0..journal.len() {
        let Some(entry) = journal.get(index) else {
            return false;
        };
        if let StepRef::Request { functional, bytes } = entry.step {
            let Some(want) = wanted.get(next) else {
                return false;
            };
            if functional
                || entry.who.number() != want.place
                || bytes != want.request
                || entry.reply != want.reply
            {
                return false;
            }
            next += 1;
        }
    }
    next == wanted.len()
}

/// Whether a second seat is told that the session is another tester's, and the first one, which waits, is told the value.
fn others_step<R: Wait>(
    rt: &R,
    alloc: Global,
    gate: &Gate,
    first: &mut Seat,
    second: &mut Seat,
    third: &mut Seat,
) -> Result<bool, Trouble>
    requires first { first.old.gate ≡ gate.now }
    requires second { second.old.gate ≡ gate.now }
    requires third { third.old.gate ≡ gate.now }
    ensures first { first.new.gate ≡ first.old.gate }
    ensures second { second.new.gate ≡ second.old.gate }
    ensures third { third.new.gate ≡ third.old.gate }
{
    let session = tries_again(alloc, gate, second, third, &[0x10, 0x03], &BUSY);
    let value = waits(rt, alloc, gate, first, &[0x22, 0xF1, 0x90], VALUE);
    and(session, value)
}

/// Three seats step one after another, the first comes home.
fn first_steps<R: Wait>(
    rt: &R,
    alloc: Global,
    gate: &Gate,
    host: &mut Host,
    second: &mut Seat,
    third: &mut Seat,
    silent: &Step,
) -> Result<bool, Trouble>
    requires host { host.old.gate ≡ gate.now }
    requires second { second.old.gate ≡ gate.now }
    requires third { third.old.gate ≡ gate.now }
    ensures host { host.new.gate ≡ host.old.gate }
    ensures second { second.new.gate ≡ second.old.gate }
    ensures third { third.new.gate ≡ third.old.gate }
{
    let seat = seat_of(gate, host, 1)?;
    let (mut seat, held) = step_held_again(alloc, gate, seat, second, third, silent)?;
    let others = others_step(rt, alloc, gate, &mut seat, second, third);
    bring_home(gate, host, seat);
    Ok(held? && others?)
}

/// Whether a seat is given the desk; it puts the desk back.
fn takes(gate: &Gate, seat: Seat) -> (Seat, bool)
    requires { seat.gate ≡ gate.now }
    ensures { result.0.gate ≡ gate.now }
{
    match gate.try_take(seat) {
        Ok(held) => (held.put_back(), true),
        Err(seat) => (seat, false),
    }
}

/// The second seat takes the desk and puts it back, steps among them and comes home.
fn second_steps<R: Wait>(
    rt: &R,
    alloc: Global,
    gate: &Gate,
    host: &mut Host,
    third: &mut Seat,
    silent: &Step,
) -> Result<bool, Trouble>
    requires host { host.old.gate ≡ gate.now }
    requires third { third.old.gate ≡ gate.now }
    ensures host { host.new.gate ≡ host.old.gate }
    ensures third { third.new.gate ≡ third.old.gate }
{
    let seat = seat_of(gate, host, 2)?;
    let (mut seat, taken) = takes(gate, seat);
    let outcome = first_steps(rt, alloc, gate, host, &mut seat, third, silent);
    bring_home(gate, host, seat);
    Ok(outcome? && taken)
}

/// The third seat ticks where memory was refused, and comes home.
fn all_step<R: Wait>(
    rt: &R,
    alloc: Global,
    gate: &Gate,
    host: &mut Host,
    silent: &Step,
) -> Result<bool, Trouble>
    requires { host.old.gate ≡ gate.now }
    ensures { host.new.gate ≡ host.old.gate }
{
    let mut seat = seat_of(gate, host, 8)?;
    let outcome = second_steps(rt, alloc, gate, host, &mut seat, silent);
    bring_home(gate, host, seat);
    outcome
}

/// Whether what went before was right, and a journal has all entries. A tick beside them tells that memory was refused on
/// the way, which is then the error.
fn has_all(journal: &Journal, went: bool) -> Result<bool, Trouble> {
    let right = went && has_requests(journal, &WANTED);
    if right && journal.len() > WANTED.len() {
        Err(Trouble::Memory)
    } else {
        Ok(right)
    }
}

/// The same of the journal of a gate whose seats are home.
fn has_entries(gate: Gate, host: Host, went: bool) -> Result<bool, Trouble>
    requires { host.gate ≡ gate }
{
    let desk = closed(gate, host)?;
    has_all(desk.journal(), went)
}

/// The calls go on to their end where memory was refused on the way.
fn calls_hold<R: Wait>(rt: &R, alloc: Global, silent: &Step) -> Result<bool, Trouble> {
    let (gate, mut host) = gate_of_two(alloc)?;
    let right = all_step(rt, alloc, &gate, &mut host, silent)?;
    let is_out = is_out(&gate, &mut host, 1);
    has_entries(gate, host, right && is_out)
}

fn gate_calls_hold<R: Wait>(rt: &R, alloc: Global) -> Result<bool, Trouble> {
    let silent = request(alloc, &[0x10, 0x83])?;
    calls_hold(rt, alloc, &silent)
}

#[test]
fn gate_calls(rt: HostRuntime) -> Result<(), Trouble> {
    holds(gate_calls_hold(&rt, rt.alloc()))
}
