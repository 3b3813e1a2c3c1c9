//! The first line of a text: most lines are of the usual form or well `tick` lines, whose end is looked for behind what is read.

ghost use Rattle.std.specs.Prelude.{◌≡◌, ◌-◌, ◌<◌, ◌≤◌, ◌∷◌, ◌⊎◌, ◌+◌, List, length, take, IfSome, MatchOption, Some};
ghost use Rattle.memchr.specs.Find.{IsFirstByte};
ghost use Rattle.diag_can.specs.BusLine.{HasNoFeed, IsFirstLine};
ghost use Rattle.diag_can.specs.Line.{tick_count};
ghost use Rattle.diag_can.specs.Log.{is_feed};
ghost use Rattle.diag_can.specs.Usual.{BeginsFramed, HasDigits, HasFdDigits};
ghost use Rattle.diag_can.specs.declared.frame.KnownId.{KnownId as AKnownId};

use crate::bus_line::BusLine;
use crate::frame::{KnownId, TickCount};
use crate::lanes::{hex_of_sixteen, line_run};
use crate::line::{hex_run, is_hex_digit, short_id};
use crate::read::ticks_of;
use crate::stamp::{behind, number_run};
use crate::usual::{fd_said, said_from, text_place, wide_said};
use memchr::memchr;

/// The longest line of the usual form with its end.
const LONGEST: usize = 53;

/// The first line of a text, which an LF ends.
#[derive(Drop)]
pub struct FirstLine<'a> {
    /// The line without its LF.
    pub line: &'a [u8],
    /// What follows the LF.
    pub after: &'a [u8],
    /// What the line says, where one look at it told.
    pub said: Option<BusLine<'a>>,
}

/// What follows an LF, or a CR and an LF, at the front of a text.
#[inline(always)]
fn behind_end(text: &[u8]) -> Option<&[u8]>
    ensures is { IfSome result (λ after.
        (text.now ≡ 10 ∷ after.now) ⊎ (text.now ≡ 13 ∷ 10 ∷ after.now)) }
    ensures shorter { IfSome result (λ after. length after.now < length text.now) }
{
    match text {
        [b'\n', after @ ..] => Some(after),
        [b'\r', b'\n', after @ ..] => Some(after),
        _ => None,
    }
}

/// The first line of a text, which says this, where this follows it.
#[inline(always)]
fn told<'a>(text: &'a [u8], after: &'a [u8], said: BusLine<'a>) -> FirstLine<'a>
    requires { length after.now < length text.now }
    ensures line { result.line.now ≡ take (length text.now - length after.now - 1) text.now }
    ensures after { result.after.now ≡ after.now }
    ensures said { result.said ≡ Some said.entry }
{
    FirstLine {
        line: &text[..text.len() - after.len() - 1],
        after,
        said: Some(said),
    }
}

/// The line at the front of a text, without its end, and what follows that, where behind so many digits of its identifier and a
/// mark there is nothing but pairs of hex digits: its end is looked for behind these.
#[inline(always)]
fn framed_front(text: &[u8], place: usize, width: usize) -> Option<(&[u8], &[u8])>
    requires begins { BeginsFramed text.now place }
    requires room { place + width + 17 < length text.now }
    ensures { IfSome result (λ r. HasDigits text.now r.0.now r.1.now (place + width + 1)) }
{
    let at = place + width + 1;
    let count = hex_of_sixteen(text, at);
    let end = at + count;
    if count % 2 != 0 {
        return None;
    }
    let (line, rest) = text.split_at(end);
    let after = behind_end(rest)?;
    Some((line, after))
}

/// The first line of a text where it is of the usual form with an identifier of eight digits, at this place. What it says depends on
/// which identifiers are read.
#[inline(always)]
fn wide_front<'a>(known: &[KnownId], text: &'a [u8], place: usize) -> Option<FirstLine<'a>>
    requires begins { BeginsFramed text.now place }
    requires long { 53 ≤ length text.now }
    ensures { IfSome result (λ first. IsFirstLine known.now text.now first.line.now first.after.now first.said) }
{
    if text[place + 8] != b'#' || hex_of_sixteen(text, place) != 8 {
        return None;
    }
    let (line, after) = framed_front(text, place, 8)?;
    Some(told(text, after, wide_said(known, line, place)))
}

/// How many hex digits stand behind the flags of a frame of CAN FD with an identifier of three digits, at this place; None where
/// there is no such frame. (They are answered by themselves, so that the usual line's parts stay out of memory.)
#[cold]
#[inline(never)]
fn fd_digits(text: &[u8], place: usize) -> Option<usize>
    requires { place + 6 ≤ length text.now }
    ensures { IfSome result (λ count. HasFdDigits text.now place count) }
{
    if text[place + 4] != b'#' || !is_hex_digit(text[place + 5]) {
        return None;
    }
    let count = hex_run(&text[place + 6..]);
    if count > 128 {
        return None;
    }
    Some(count)
}

/// The first line of a text where it is of CAN FD, with an identifier of three digits at this place. Its end is looked for behind
/// its hex digits, which are counted once.
#[inline(always)]
fn fd_front<'a>(known: &[KnownId], text: &'a [u8], place: usize) -> Option<FirstLine<'a>>
    requires begins { BeginsFramed text.now place }
    requires long { 53 ≤ length text.now }
    ensures { IfSome result (λ first. IsFirstLine known.now text.now first.line.now first.after.now first.said) }
{
    let count = fd_digits(text, place)?;
    let (line, rest) = text.split_at(place + 6 + count);
    let after = behind_end(rest)?;
    let id = short_id(&text[place..])?;
    let said = fd_said(known, line, place, id)?;
    Some(told(text, after, said))
}

/// The first line of a text where it is of the usual form. Most identifiers have three digits.
#[inline(always)]
fn usual_front<'a>(known: &[KnownId], text: &'a [u8]) -> Option<FirstLine<'a>>
    ensures { IfSome result (λ first. IsFirstLine known.now text.now first.line.now first.after.now first.said) }
{
    if text.len() < LONGEST {
        return None;
    }
    let place = text_place(text)?;
    if text[place + 3] != b'#' {
        return wide_front(known, text, place);
    }
    if text[place + 4] == b'#' {
        return fd_front(known, text, place);
    }
    let (line, after) = framed_front(text, place, 3)?;
    let id = short_id(&text[place..])?;
    Some(told(text, after, said_from(line, place, id)))
}

/// The count at the front of what stands behind the letters of a `tick` line, and how many bytes say it.
#[inline(always)]
fn count_front(text: &[u8]) -> Option<(TickCount, usize)>
    ensures is { IfSome result (λ r. tick_count (take r.1 text.now) ≡ Some r.0) }
    ensures fits { IfSome result (λ r. r.1 ≤ length text.now) }
    ensures few { IfSome result (λ r. r.1 ≤ 13) }
{
    let Some(digits) = behind(b' ', text) else {
        return Some((TickCount::new(1)?, 0));
    };
    let (run, value) = number_run(digits);
    if run < 1 || run > 12 || digits[0] == b'0' {
        return None;
    }
    Some((ticks_of(value)?, run + 1))
}

/// The first line of a text where it is a well `tick` line: its end is looked for behind its count.
#[inline(always)]
fn ticks_front(text: &[u8]) -> Option<FirstLine<'_>>
    ensures { IfSome result (λ first. (known : List AKnownId)
        → IsFirstLine known text.now first.line.now first.after.now first.said) }
{
    let [b't', b'i', b'c', b'k', rest @ ..] = text else {
        return None;
    };
    let (count, len) = count_front(rest)?;
    let after = behind_end(&rest[len..])?;
    Some(told(text, after, BusLine::Ticks(count)))
}

/// The place of the first LF. Most lines are short, and are looked at in one step.
#[inline(always)]
pub fn line_end(text: &[u8]) -> Option<usize>
    ensures { IsFirstByte is_feed text.now result }
{
    if text.len() >= 64 {
        let run = line_run(text);
        if run < 64 {
            return Some(run);
        }
    }
    memchr(b'\n', text)
}

/// The first line of a text, whatever it says.
#[inline(always)]
fn other_front(text: &[u8]) -> Option<FirstLine<'_>>
    ensures { MatchOption result (HasNoFeed text.now) (λ first. (known : List AKnownId)
        → IsFirstLine known text.now first.line.now first.after.now first.said) }
{
    let end = line_end(text)?;
    Some(FirstLine {
        line: &text[..end],
        after: &text[end + 1..],
        said: None,
    })
}

/// The first line of a text, where an LF ends it, and what it says where these identifiers are read.
#[inline(always)]
pub fn first_line<'a>(known: &[KnownId], text: &'a [u8]) -> Option<FirstLine<'a>>
    ensures { MatchOption result (HasNoFeed text.now) (λ first.
        IsFirstLine known.now text.now first.line.now first.after.now first.said) }
{
    match usual_front(known, text) {
        Some(first) => Some(first),
        None => match ticks_front(text) {
            Some(first) => Some(first),
            None => other_front(text),
        },
    }
}
