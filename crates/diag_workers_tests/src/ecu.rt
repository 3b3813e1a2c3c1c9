//! A copy of an ECU that is unlocked, and the delay behind wrong keys, tick by tick.

use crate::trouble::{Trouble, holds};
use diag_can::TickCount;
use diag_ecu::{DEFAULT_SESSION, Ecu};
use diag_pdu::Message;
use diag_setup::TesterId;
use diag_store::Security;
use diag_stored::two_testers;
use std::alloc::Global;

/// A physical request of a tester and its reply, empty for none; of an empty request 2000 ticks.
type Exchange = (u8, &'static [u8], &'static [u8]);

/// Three wrong keys in a row, and after the delay a right one.
const ACCESS: [Exchange; 15] = [
    (1, b"\x10\x03", b"\x50\x03\x00\x32\x01\xF4"),
    (1, b"\x27\x01", b"\x67\x01\x11\x22\x33\x44"),
    (1, b"\x27\x02\0\0\0\0", b"\x7F\x27\x35"),
    (1, b"\x27\x01", b"\x67\x01\x55\x66\x77\x88"),
    (1, b"\x27\x02\0\0\0\0", b"\x7F\x27\x35"),
    (1, b"\x27\x01", b"\x67\x01\x11\x22\x33\x44"),
    (1, b"\x27\x02\0\0\0\0", b"\x7F\x27\x36"),
    (1, b"\x27\x01", b"\x7F\x27\x37"),
    (1, b"", b""),
    (1, b"\x27\x01", b"\x67\x01\x55\x66\x77\x88"),
    (1, b"\x27\x01", b"\x67\x01\x55\x66\x77\x88"),
    (1, b"\x27\x02\x01\x02\x03\x04", b"\x67\x02"),
    (1, b"\x27\x01", b"\x67\x01\0\0\0\0"),
    (1, b"\x27\x02\x01\x02\x03\x04", b"\x7F\x27\x24"),
    (1, b"\x3E\x80", b""),
];

/// Of the copy.
const WRITES: [Exchange; 3] = [
    (1, b"\x27\x01", b"\x67\x01\0\0\0\0"),
    (1, b"\x2E\xF1\x90ABCDEFGHIJKLMNOPQ", b"\x6E\xF1\x90"),
    (2, b"\x22\xF1\x90", b"\x62\xF1\x90ABCDEFGHIJKLMNOPQ"),
];

/// Of the first, when the copy was written.
const LEFT: [Exchange; 2] = [
    (2, b"\x22\xF1\x90", b"\x62\xF1\x90TESTVIN0123456789"),
    (2, b"\x10\x03", b"\x7F\x10\x21"),
];

/// The reply to a physical request of these bytes, or none where none is sent.
fn ask(
    alloc: Global,
    ecu: &mut Ecu,
    who: TesterId,
    bytes: &[u8],
) -> Result<Option<Message>, Trouble> {
    let request = Message::new(alloc, bytes)?;
    let reply = ecu.request(who, false, &request)?;
    Ok(reply)
}

/// Whether a request is answered so.
fn answers(alloc: Global, ecu: &mut Ecu, exchange: &Exchange) -> Result<bool, Trouble> {
    let (place, request, wanted) = *exchange;
    let who = TesterId::new(place).ok_or(Trouble::Wrong)?;
    if request.is_empty() {
        ecu.ticks(who, TickCount::new(2000).ok_or(Trouble::Wrong)?);
        return Ok(true);
    }
    Ok(match ask(alloc, ecu, who, request)? {
        Some(reply) => reply.bytes() == wanted,
        None => wanted.is_empty(),
    })
}

fn answers_all(alloc: Global, ecu: &mut Ecu, all: &[Exchange]) -> Result<bool, Trouble> {
    for exchange in all {
        if !answers(alloc, ecu, exchange)? {
            return Ok(false);
        }
    }
    Ok(true)
}

fn copy_answers(alloc: Global, ecu: &Ecu) -> Result<bool, Trouble> {
    let mut copy = ecu.try_copy()?;
    answers_all(alloc, &mut copy, &WRITES)
}

/// Whether the reply to a request for the default session leaves the ECU as it is, and settling that request ends the
/// session of a tester.
fn leaves(alloc: Global, ecu: &mut Ecu, who: TesterId) -> Result<bool, Trouble> {
    let request = Message::new(alloc, b"\x10\x01")?;
    let told = match ecu.reply(who, false, &request)? {
        Some(reply) => reply.bytes() == b"\x50\x01\x00\x32\x01\xF4".as_slice(),
        None => false,
    };
    let stays = ecu.session_of(who) == 0x03;
    ecu.settle(who, false, &request);
    Ok(told && stays && ecu.session_of(who) == DEFAULT_SESSION)
}

/// Whether a copy goes on where the first stands, and what it does leaves the first as it was.
fn copies(alloc: Global, ecu: &mut Ecu) -> Result<bool, Trouble> {
    let who = TesterId::new(1).ok_or(Trouble::Wrong)?;
    let gone = answers_all(alloc, ecu, &ACCESS)? && copy_answers(alloc, ecu)?;
    let left = answers_all(alloc, ecu, &LEFT)?;
    Ok(gone && left && leaves(alloc, ecu, who)?)
}

/// The ECU of the stored setup at its opening.
pub(crate) fn opened(alloc: Global) -> Result<Ecu, Trouble> {
    let setup = two_testers(alloc)?;
    Ok(Ecu::new(alloc, &setup)?)
}

#[test]
fn copied_ecu_goes_on_alone(rt: HostRuntime) -> Result<(), Trouble> {
    let mut ecu = opened(rt.alloc())?;
    holds(copies(rt.alloc(), &mut ecu))
}

/// Asks for the seed of level 1, and sends a wrong key.
fn try_wrong_key(security: &mut Security, who: TesterId) {
    if security.key_len(1).is_some() {
        let _seed = security.seed(who, 1);
    }
    if security.key_len(1).is_some() {
        let _answer = security.key(who, 1, b"\0\0\0\0");
    }
}

/// Takes so many ticks of a tester, each by itself.
fn tick_often(security: &mut Security, who: TesterId, count: u32) {
    for _ in 0..count {
        security.tick(who);
    }
}

/// Whether the third wrong key, and not the second, delays a tester for 2000 ticks.
fn delays(security: &mut Security, who: TesterId) -> bool {
    try_wrong_key(security, who);
    try_wrong_key(security, who);
    let free = security.nobody_is_delayed();
    try_wrong_key(security, who);
    tick_often(security, who, 1999);
    let delayed = !security.nobody_is_delayed();
    security.tick(who);
    free && delayed && security.nobody_is_delayed()
}

#[test]
fn third_wrong_key_delays(rt: HostRuntime) -> Result<(), Trouble> {
    let who = TesterId::new(1).ok_or(Trouble::Wrong)?;
    let setup = two_testers(rt.alloc())?;
    let mut security = Security::new(rt.alloc(), &setup)?;
    holds(Ok(delays(&mut security, who)))
}
