//! A line of the usual form, of which many bytes are read at once: a stamp of ten digits and six, one space, a short name, one
//! space, an identifier of three digits or of eight, and behind its `#` nothing but pairs of hex digits. Other lines are read
//! part by part, but for those of CAN FD with such a stamp and an identifier of three digits.

ghost use Rattle.std.specs.Prelude.{◌≡◌, ◌<◌, ◌≤◌, ◌+◌, List, length, take, drop, IfSome, Some, Ok};
ghost use Rattle.diag_can.specs.Lanes.{IsRunIn};
ghost use Rattle.diag_can.specs.Line.{fd_frame, id_of, line_says, wide_frame, wide_id_of};
ghost use Rattle.diag_can.specs.Stamp.{is_digit};
ghost use Rattle.diag_can.specs.Usual.{BeginsFramed, IsFd, IsUsual, three_at, usual_frame};
ghost use Rattle.diag_can.specs.MomentText.{usual_moment};
ghost use Rattle.diag_can.specs.declared.frame.KnownId.{KnownId as AKnownId};

use crate::bus_line::BusLine;
use crate::frame::{CanId, KnownId};
use crate::frame_text::FrameText;
use crate::lanes::{eight_of_word, is_within};
use crate::line::{has_extended, is_among, is_fd_among, is_fd_length, wide_id_of};
use crate::moment_text::MomentText;
use std::simd::prelude::*;

/// The shortest text whose front is looked at.
const SHORTEST: usize = 28;

/// Where the text of the frame begins, whatever follows it.
#[inline(always)]
pub fn text_place(line: &[u8]) -> Option<usize>
    ensures { IfSome result (λ place. BeginsFramed line.now place) }
{
    if line.len() < SHORTEST {
        return None;
    }
    // One branch for both tests: hardly any line passes just one.
    let is_front = is_within(line, 0, b"(0000000000.0000", b"(9999999999.9999");
    let is_back = is_within(line, 4, b"0000000.000000) ", b"9999999.999999) ");
    if !(is_front & is_back) {
        return None;
    }
    let word = eight_of_word(line, 20);
    if word < 1 || word > 6 || line[20 + word] != b' ' || line[21 + word] == b' ' {
        return None;
    }
    Some(21 + word)
}

/// The frame of a line of the usual form, whose text begins at this place with so many digits of this identifier.
#[inline(always)]
fn frame_from(line: &[u8], place: usize, width: usize, id: CanId) -> FrameText<'_>
    requires { IsUsual line.now place width }
    ensures { result ≡ usual_frame line.now place width id }
{
    FrameText::new(id, line, (line.len() - (place + width + 1)) / 2)
}

/// What a line of the usual form says, whose frame's text begins at this place with three digits of this identifier.
#[inline(always)]
pub fn said_from(line: &[u8], place: usize, id: CanId) -> BusLine<'_>
    requires usual { IsUsual line.now place 3 }
    requires id { id_of (take 3 (drop place line.now)) ≡ Some id }
    ensures { (known : List AKnownId) → line_says known line.now ≡ Ok result }
{
    BusLine::Stamped {
        moment: MomentText::usual(line),
        frame: Some(frame_from(line, place, 3, id)),
    }
}

/// What a line of the usual form says where these identifiers are read, whose frame's text begins at this place with eight digits
/// of its identifier.
#[inline(always)]
pub fn wide_said<'a>(known: &[KnownId], line: &'a [u8], place: usize) -> BusLine<'a>
    requires { IsUsual line.now place 8 }
    ensures { line_says known.now line.now ≡ Ok result }
{
    BusLine::Stamped {
        moment: MomentText::usual(line),
        frame: wide_frame_from(known, line, place),
    }
}

/// The frame of such a line, where its identifier is read. Where none of 29 bits is, the digits aren't looked at.
#[inline(always)]
#[tactic(auto, using(crate::proofs::WideIds::passed_over))]
fn wide_frame_from<'a>(known: &[KnownId], line: &'a [u8], place: usize) -> Option<FrameText<'a>>
    requires { IsUsual line.now place 8 }
    ensures { wide_frame known.now (wide_id_of (take 8 (drop place line.now))) (drop (place + 9) line.now) ≡ Ok result }
{
    if !has_extended(known) {
        return None;
    }
    match wide_id_of(&line[place..place + 8]) {
        Some(id) if is_among(known, id) => Some(frame_from(line, place, 8, id)),
        _ => None,
    }
}

/// What a line of CAN FD says where these identifiers are read, with this identifier in three digits at this place; None where it
/// isn't well.
#[inline(always)]
pub fn fd_said<'a>(
    known: &[KnownId],
    line: &'a [u8],
    place: usize,
    id: CanId,
) -> Option<BusLine<'a>>
    requires fd { IsFd line.now place }
    requires id { id_of (take 3 (drop place line.now)) ≡ Some id }
    ensures { IfSome result (λ said. line_says known.now line.now ≡ Ok said) }
{
    let frame = fd_frame_from(known, line, place, id)?;
    Some(BusLine::Stamped {
        moment: MomentText::usual(line),
        frame,
    })
}

/// The frame of such a line, where its identifier is read by CAN FD.
#[inline(always)]
fn fd_frame_from<'a>(
    known: &[KnownId],
    line: &'a [u8],
    place: usize,
    id: CanId,
) -> Option<Option<FrameText<'a>>>
    requires { IsFd line.now place }
    ensures { IfSome result (λ frame. fd_frame known.now id (drop (place + 5) line.now) ≡ Ok frame) }
{
    if !is_fd_among(known, id) {
        return Some(None);
    }
    let digits = line.len() - (place + 6);
    if digits % 2 == 1 || !is_fd_length(digits / 2) {
        return None;
    }
    Some(Some(FrameText::new(id, line, digits / 2)))
}

/// Four times three bytes of the stamp, weighed as digits are: nine of the seconds, without the first, and the milliseconds.
/// They are looked at together.
#[inline(always)]
fn threes(line: &[u8]) -> (u64, u64, u64, u64)
    requires long { 22 ≤ length line.now }
    ensures value { result
        ≡ (three_at line.now 2, three_at line.now 5, three_at line.now 8, three_at line.now 12) }
    ensures few { (result.0 < 28306) × (result.1 < 28306) × (result.2 < 28306) × (result.3 < 28306) }
{
    let stamp = u8x16::from_slice(&line[1..]);
    let threes = stamp.swizzle([1, 2, 3, 0, 4, 5, 6, 0, 7, 8, 9, 0, 11, 12, 13, 0]);
    let weights = [100, 10, 1, 0, 100, 10, 1, 0, 100, 10, 1, 0, 100, 10, 1, 0];
    let [a, b, c, d] = threes.dot4(u8x16::from_array(weights)).to_array();
    (u64::from(a), u64::from(b), u64::from(c), u64::from(d))
}

/// What thirteen zeros, in place of the stamp's digits, are weighed.
const ZEROS: u64 = 53_333_333_333_328;

/// The moment of the stamp in milliseconds.
#[inline(always)]
pub fn usual_moment(line: &[u8]) -> u64
    requires long { 22 ≤ length line.now }
    requires seconds { IsRunIn is_digit line.now 1 16 10 }
    requires fraction { IsRunIn is_digit line.now 12 8 6 }
    ensures { result ≡ usual_moment line.now }
{
    let (a, b, c, d) = threes(line);
    let first = u64::from(line[1]);
    (((first * 1000 + a) * 1000 + b) * 1000 + c) * 1000 + d - ZEROS
}
