//! Reading one line of a journal's text.
ghost use Rattle.std.specs.Prelude.{◌≡◌, ◌≢◌, ℕ, ◌≤◌, ◌<◌, ◌^◌, ◌+◌, IfSome, IfNone, IsTrue, Some, None, MatchOption, slice_index, ◌↔◌, decimal, option_copied};
ghost use Rattle.std.specs.Bool.{OnTrue, OnFalse};
ghost use Rattle.std.specs.List.{list_all};
ghost use Rattle.diag_desk.specs.Text.{IsNoMessage, IsNoReply, IsNoCount, IsNoNumber, IsNoEntry, is_upper_digit};
ghost use Rattle.diag_desk.specs.Cut.{cut};
ghost use Rattle.diag_desk.specs.Line.{IsHex, IsRead, IsReadStep, IsNoStep, IsReadReply, request_kind, kind_code, fronted, IsNoFront};
ghost use Rattle.diag_desk.specs.declared.line.Kind.{Kind as IsKind};

use crate::table::upper_value;
use diag_can::TickCount;
use diag_pdu::Message;
use diag_setup::TesterId;
use memchr::memchr;

/// What kind of line it is.
#[derive(Clone, Copy, Drop)]
pub(crate) enum Kind {
    Physical,
    Functional,
    Ticks,
}

/// What a line says of the step and its reply; messages are in hex.
#[derive(Clone, Copy)]
pub(crate) enum LineStep<'a> {
    Request {
        functional: bool,
        message: &'a [u8],
        reply: Option<&'a [u8]>,
    },
    Ticks(TickCount),
}

/// What a line says.
#[derive(Clone, Copy)]
pub(crate) struct Line<'a> {
    pub who: TesterId,
    pub step: LineStep<'a>,
}

/// What stands before and after the first of some byte.
pub(crate) fn cut(text: &[u8], byte: u8) -> Option<(&[u8], &[u8])>
    ensures { MatchOption result (cut byte text.now ≡ None) (λ parts.
        cut byte text.now ≡ Some (parts.0.now, parts.1.now)) }
{
    match memchr(byte, text) {
        None => None,
        Some(end) => Some((&text[..end], &text[end + 1..])),
    }
}

/// The entry of a line, without a stamp and its end.
pub(crate) fn entry_in(line: &[u8]) -> Option<Line<'_>>
    ensures some { IfSome result (IsRead line.now) }
    ensures none { IfNone result (IsNoEntry line.now) }
{
    let Some((digit, kind, body)) = front_of(line) else {
        return None;
    };
    let Some(who) = who_in(digit) else {
        return None;
    };
    let Some(kind) = kind_in(kind) else {
        return None;
    };
    let Some(step) = step_in(kind, body) else {
        return None;
    };
    Some(Line { who, step })
}

/// The tester's digit and the kind of a line, one byte each, and what follows the space after them.
pub(crate) fn front_of(line: &[u8]) -> Option<(u8, u8, &[u8])>
    ensures { MatchOption result (IsNoFront line.now) (λ parts.
        line.now ≡ fronted parts.0 parts.1 parts.2.now) }
{
    match line {
        [digit, b' ', kind, b' ', body @ ..] => Some((*digit, *kind, body)),
        _ => None,
    }
}

/// The tester whose number is a digit.
pub(crate) fn who_in(digit: u8) -> Option<TesterId>
    ensures some { IfSome result (λ who. (48 + who ≡ digit) × (1 ≤ who) × (who ≤ 8)) }
    ensures none { IfNone result ((who : ℕ) → 1 ≤ who → who ≤ 8 → 48 + who ≢ digit) }
{
    match digit {
        b'1'..=b'8' => TesterId::new(digit - b'0'),
        _ => None,
    }
}

/// The kind whose letter this is.
pub(crate) fn kind_in(letter: u8) -> Option<Kind>
    ensures some { IfSome result (λ kind. kind_code kind ≡ letter) }
    ensures none { IfNone result ((kind : IsKind) → kind_code kind ≢ letter) }
{
    match letter {
        b'P' => Some(Kind::Physical),
        b'F' => Some(Kind::Functional),
        b'T' => Some(Kind::Ticks),
        _ => None,
    }
}

/// The step of a kind, of what follows the kind in its line.
fn step_in(kind: Kind, body: &[u8]) -> Option<LineStep<'_>>
    ensures some { IfSome result (IsReadStep kind body.now) }
    ensures none { IfNone result (IsNoStep kind body.now) }
{
    match kind {
        Kind::Physical => request_in(false, body),
        Kind::Functional => request_in(true, body),
        Kind::Ticks => Some(LineStep::Ticks(count_in(body)?)),
    }
}

/// The request of a line, of what follows its kind.
fn request_in(functional: bool, body: &[u8]) -> Option<LineStep<'_>>
    ensures some { IfSome result (IsReadStep (request_kind functional) body.now) }
    ensures none { IfNone result (IsNoStep (request_kind functional) body.now) }
{
    let Some((message, reply)) = cut(body, b' ') else {
        return None;
    };
    if !is_hex(message) {
        return None;
    }
    let Some(reply) = reply_in(reply) else {
        return None;
    };
    Some(LineStep::Request {
        functional,
        message,
        reply,
    })
}

/// The reply of a text: hex, or a dash for none.
fn reply_in(text: &[u8]) -> Option<Option<&[u8]>>
    ensures some { IfSome result (λ reply. IsReadReply text.now (option_copied reply)) }
    ensures none { IfNone result (IsNoReply text.now) }
{
    if text == b"-".as_slice() {
        Some(None)
    } else if is_hex(text) {
        Some(Some(text))
    } else {
        None
    }
}

/// Whether a text is the upper-case hex of a message.
fn is_hex(text: &[u8]) -> bool
    ensures yes { OnTrue result (IsHex text.now) }
    ensures no { OnFalse result (IsNoMessage text.now) }
{
    let len = text.len();
    if len < 2 || 2 * Message::MAX < len || len % 2 == 1 || !has_upper_digits(text) {
        return false;
    }
    true
}

/// Whether each byte is an upper-case digit. (No byte is a reason to stop: nearly each text is hex to its end.)
fn has_upper_digits(text: &[u8]) -> bool
    ensures { result ≡ list_all is_upper_digit text.now }
{
    let mut all = true;
    for c in text {
        all &= is_upper_digit(*c);
    }
    all
}

fn is_upper_digit(c: u8) -> bool
    ensures { result ≡ is_upper_digit c }
{
    upper_value(c) < 16
}

/// The count of ticks of a text in decimal.
fn count_in(text: &[u8]) -> Option<TickCount>
    ensures some { IfSome result (λ count.
        (decimal count ≡ text.now) × (1 ≤ count) × (count ≤ 60000)) }
    ensures none { IfNone result (IsNoCount text.now) }
{
    let number = number_in(text)?;
    if number < 1 || u64::from(TickCount::MAX) < number {
        return None;
    }
    TickCount::new(number as u16)
}

/// Whether a text is a number in decimal.
pub(crate) fn is_decimal(text: &[u8], number: u64) -> bool
    ensures { IsTrue result ↔ (decimal number ≡ text.now) }
{
    match number_in(text) {
        Some(read) => read == number,
        None => false,
    }
}

/// The number of a text in decimal, in its one spelling.
fn number_in(text: &[u8]) -> Option<u64>
    ensures some { IfSome result (λ number. (decimal number ≡ text.now) × (number < 2 ^ 64)) }
    ensures none { IfNone result (IsNoNumber text.now) }
{
    if text == b"0".as_slice() {
        return Some(0);
    }
    if !begins_with_1_to_9(text) {
        return None;
    }
    let Ok(text) = std::str::from_utf8(text) else {
        return None;
    };
    match text.parse::<u64>() {
        Ok(number) => Some(number),
        Err(_) => None,
    }
}

fn begins_with_1_to_9(text: &[u8]) -> bool
    ensures { IsTrue result ↔ ((49 ≤ slice_index text.now 0) × (slice_index text.now 0 ≤ 57)) }
{
    match text {
        [first, ..] => b'1' <= *first && *first <= b'9',
        [] => false,
    }
}
