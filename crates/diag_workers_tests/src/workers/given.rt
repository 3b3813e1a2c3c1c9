//! What all tests begin with.

ghost use Rattle.std.specs.Prelude.{◌≡◌, length, IfOk};

use crate::trouble::Trouble;
use diag_can::{Log, Timing, read_log};
use diag_desk::{Journal, replay};
use diag_setup::Setup;
use diag_stored::two_testers;
use diag_tp::SentFrames;
use std::alloc::Global;

/// The log of the first reader, which takes the session and reads a value.
pub(crate) const FIRST_READER: [&str; 3] = ["7E0#021003", "7E0#0322F190", "7E0#300000"];

/// The log of the second reader, which reads the codes and the value.
pub(crate) const SECOND_READER: [&str; 3] = ["7E1#031902FF", "tick 10", "7E1#0322F190"];

/// The reply that begins the session.
const SESSION: [u8; 8] = [0x06, 0x50, 0x03, 0x00, 0x32, 0x01, 0xF4, 0xCC];

/// The reply with the code and its status.
const CODES: [u8; 8] = [0x07, 0x59, 0x02, 0xFF, 0x01, 0x23, 0x45, 0x2F];

/// The three frames of the reply with the value of F190 as it was at first.
const OLD_VALUE: [[u8; 8]; 3] = [
    [0x10, 0x14, 0x62, 0xF1, 0x90, 0x54, 0x45, 0x53],
    [0x21, 0x54, 0x56, 0x49, 0x4E, 0x30, 0x31, 0x32],
    [0x22, 0x33, 0x34, 0x35, 0x36, 0x37, 0x38, 0x39],
];

/// A setup of two testers.
pub(crate) fn setup_of_two(alloc: Global) -> Result<Setup, Trouble>
    ensures { IfOk result (λ setup. length setup.testers ≡ 2) }
{
    let setup = two_testers(alloc)?;
    if setup.testers() == 2 {
        Ok(setup)
    } else {
        Err(Trouble::Wrong)
    }
}

/// Fails where a journal doesn't replay.
pub(crate) fn is_replayed(alloc: Global, setup: &Setup, journal: &Journal) -> Result<(), Trouble> {
    let _ecu = replay(alloc, setup, journal)?;
    Ok(())
}

/// The text of these lines. A line that is a frame alone gets the stamp 0 and an interface before it.
pub(crate) fn text_of(alloc: Global, lines: &[&str]) -> Result<Vec<u8>, Trouble> {
    let mut text = Vec::new(alloc);
    for line in lines {
        if line.starts_with("7") {
            text.extend_from_slice(b"(0000000000.000000) can0 ")?;
        }
        text.extend_from_slice(line.as_bytes())?;
        text.extend_from_slice(b"\n")?;
    }
    Ok(text)
}

/// The events of the lines of one tester's log.
pub(crate) fn events_of(
    alloc: Global,
    setup: &Setup,
    index: usize,
    lines: &[&str],
) -> Result<Log, Trouble> {
    if index >= setup.testers() {
        return Err(Trouble::Wrong);
    }
    let who = setup.who(index);
    let text = text_of(alloc, lines)?;
    let log = read_log(alloc, text.as_slice(), &setup.ids(who), Timing::Lines)?;
    Ok(log)
}

/// Whether the frame at this index was sent at this time, with this identifier and these bytes.
pub(crate) fn is_frame(sent: &SentFrames, index: usize, at: u64, id: u32, bytes: &[u8]) -> bool {
    if index >= sent.len() {
        return false;
    }
    let frame = sent.get(index);
    frame.at == at && frame.id.get() == id && frame.bytes == bytes
}

/// Whether the first tester of the readers was sent its frames.
pub(crate) fn has_first_frames(sent: &SentFrames) -> bool {
    sent.len() == 4
        && is_frame(sent, 0, 0, 0x7E8, &SESSION)
        && is_frame(sent, 1, 0, 0x7E8, &OLD_VALUE[0])
        && is_frame(sent, 2, 0, 0x7E8, &OLD_VALUE[1])
        && is_frame(sent, 3, 0, 0x7E8, &OLD_VALUE[2])
}

/// Whether the second tester of the readers was sent its frames.
pub(crate) fn has_second_frames(sent: &SentFrames) -> bool {
    sent.len() == 2
        && is_frame(sent, 0, 0, 0x7E9, &CODES)
        && is_frame(sent, 1, 10, 0x7E9, &OLD_VALUE[0])
}
