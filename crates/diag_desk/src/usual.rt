//! Reading entries of the usual form, whose reply is the ECU's: their text is gone through once.
ghost use Rattle.std.specs.Prelude.{◌≡◌, ◌≤◌, ◌+◌, ◌++◌, ◌∷◌, [], IfOk, IfNone, IfSome, decimal, length, option_copied, option_map};
ghost use Rattle.hex.specs.Hex.{encode_upper};
ghost use Rattle.diag_ecu.specs.Lent.{lent_bytes};
ghost use Rattle.diag_desk.specs.Entry.{IsReply};
ghost use Rattle.diag_desk.specs.Line.{fronted, kind_code, request_kind};
ghost use Rattle.diag_desk.specs.Text.{reply_text};

use crate::flat::{bytes_of, tell_bytes};
use crate::line::{Kind, front_of, kind_in, who_in};
use crate::sixteen::{is_upper_of, upper_front};
use crate::table::pair_value;
use diag_can::{FrameBytes, TickCount, hex_digits};
use diag_ecu::Lent;
use diag_pdu::Message;
use diag_setup::TesterId;
use std::alloc::AllocError;

/// What a line says first, and what follows that.
#[derive(Clone, Copy)]
pub(crate) struct LineFront<'a> {
    pub who: TesterId,
    pub kind: Kind,
    pub rest: &'a [u8],
}

/// A number in decimal, and what follows it.
#[derive(Clone, Copy)]
struct NumberFront<'a> {
    number: u32,
    rest: &'a [u8],
}

/// The identifier of a request to read it, and what follows the request's hex and a space.
#[derive(Clone, Copy)]
pub(crate) struct ReadFront<'a> {
    pub high: u8,
    pub low: u8,
    pub rest: &'a [u8],
}

/// A count of ticks, and what follows its line.
#[derive(Clone, Copy)]
pub(crate) struct CountFront<'a> {
    pub count: TickCount,
    pub rest: &'a [u8],
}

/// The tester and the kind at the front of a text.
pub(crate) fn line_front(text: &[u8]) -> Option<LineFront<'_>>
    ensures number { IfSome result (λ front. (1 ≤ front.who) × (front.who ≤ 8)) }
    ensures is { IfSome result (λ front.
        text.now ≡ fronted (48 + front.who) (kind_code front.kind) front.rest.now) }
{
    let Some((digit, letter, rest)) = front_of(text) else {
        return None;
    };
    let Some(who) = who_in(digit) else {
        return None;
    };
    let Some(kind) = kind_in(letter) else {
        return None;
    };
    Some(LineFront { who, kind, rest })
}

/// Whether a request's line is a functional one; None of a line of ticks.
pub(crate) fn is_functional(kind: Kind) -> Option<bool>
    ensures some { IfSome result (λ functional. kind ≡ request_kind functional) }
    ensures none { IfNone result (kind ≡ Kind.Ticks) }
{
    match kind {
        Kind::Physical => Some(false),
        Kind::Functional => Some(true),
        Kind::Ticks => None,
    }
}

/// The number in decimal at the front of a text, if it has no leading zero and isn't far above 60000.
fn number_front(text: &[u8]) -> Option<NumberFront<'_>>
    ensures { IfSome result (λ front. text.now ≡ decimal front.number ++ front.rest.now) }
{
    let [first, tail @ ..] = text else {
        return None;
    };
    if !first.is_ascii_digit() || *first == b'0' {
        return None;
    }
    let mut number = u32::from(*first - b'0');
    let mut rest = tail;
    while let [digit, tail @ ..] = rest {
        if !digit.is_ascii_digit() || u32::from(TickCount::MAX) / 10 < number {
            break;
        }
        number = number * 10 + u32::from(*digit - b'0');
        rest = tail;
    }
    Some(NumberFront { number, rest })
}

/// The count of ticks and the line's end at the front of a text.
pub(crate) fn count_front(text: &[u8]) -> Option<CountFront<'_>>
    ensures count { IfSome result (λ front. (1 ≤ front.count) × (front.count ≤ 60000)) }
    ensures is { IfSome result (λ front. text.now ≡ decimal front.count ++ 10 ∷ front.rest.now) }
{
    let Some(front) = number_front(text) else {
        return None;
    };
    let Some(rest) = behind(b'\n', front.rest) else {
        return None;
    };
    if u32::from(TickCount::MAX) < front.number {
        return None;
    }
    let Some(count) = TickCount::new(front.number as u16) else {
        return None;
    };
    Some(CountFront { count, rest })
}

/// Reads the upper-case hex at the front of a text, in place of what the list had, and gives what follows it.
pub(crate) fn read_front<'a>(bytes: &mut Vec<u8>, text: &'a [u8]) -> Result<&'a [u8], AllocError>
    ensures { IfOk result (λ rest. text.now ≡ encode_upper bytes.new.items ++ rest.now) }
{
    bytes.clear();
    let mut rest = text;
    while let [high, low, tail @ ..] = rest {
        let value = pair_value(*high, *low);
        if 255 < value {
            return Ok(rest);
        }
        bytes.push(value as u8)?;
        rest = tail;
    }
    Ok(rest)
}

/// Reads the upper-case hex of a request for one identifier, and the space behind it, at the front of a text.
#[inline(always)]
pub(crate) fn read_request(text: &[u8]) -> Option<ReadFront<'_>>
    ensures { IfSome result (λ front. text.now
        ≡ encode_upper (0x22 ∷ front.high ∷ front.low ∷ []) ++ 32 ∷ front.rest.now) }
{
    match text {
        [b'2', b'2', a, b, c, d, b' ', rest @ ..] => read_digits(*a, *b, *c, *d, rest),
        _ => None,
    }
}

/// The identifier of four digits, and what follows these and a space.
#[inline(always)]
fn read_digits(a: u8, b: u8, c: u8, d: u8, rest: &[u8]) -> Option<ReadFront<'_>>
    ensures { IfSome result (λ front. 50 ∷ 50 ∷ a ∷ b ∷ c ∷ d ∷ 32 ∷ rest.now
        ≡ encode_upper (0x22 ∷ front.high ∷ front.low ∷ []) ++ 32 ∷ front.rest.now) }
{
    let high = pair_value(a, b);
    let low = pair_value(c, d);
    if 255 < high || 255 < low {
        return None;
    }
    Some(ReadFront {
        high: high as u8,
        low: low as u8,
        rest,
    })
}

/// The bytes whose upper-case hex stands at the front of a text, as many as a frame could carry; none where fewer than
/// sixteen bytes are left of the text. What follows their hex comes with them.
#[inline(always)]
pub(crate) fn short_front(text: &[u8]) -> (FrameBytes, &[u8])
    ensures { text.now ≡ encode_upper result.0 ++ result.1.now }
{
    let Some(front) = text.first_chunk::<16>() else {
        return (FrameBytes::new(), text);
    };
    let bytes = upper_front(front);
    let end = 2 * bytes.len();
    (bytes, &text[end..])
}

/// What follows a byte at the front of a text, where it stands there.
pub(crate) fn behind(byte: u8, text: &[u8]) -> Option<&[u8]>
    ensures { IfSome result (λ rest. text.now ≡ byte ∷ rest.now) }
{
    match text {
        [first, rest @ ..] if *first == byte => Some(rest),
        _ => None,
    }
}

/// What follows the upper-case hex of these bytes at the front of a text, where it stands there: that of eight bytes is
/// looked at together.
#[inline(always)]
pub(crate) fn behind_hex<'a>(bytes: &[u8], text: &'a [u8]) -> Option<&'a [u8]>
    ensures { IfSome result (λ rest. text.now ≡ encode_upper bytes.now ++ rest.now) }
{
    let mut left = bytes;
    let mut rest = text;
    while let Some((eight, tail)) = left.split_first_chunk::<8>() {
        let Some((digits, behind)) = rest.split_first_chunk::<16>() else {
            return None;
        };
        if !is_upper_of(digits, eight) {
            return None;
        }
        left = tail;
        rest = behind;
    }
    behind_pairs(left, rest)
}

/// The same, pair by pair.
#[inline(always)]
fn behind_pairs<'a>(bytes: &[u8], text: &'a [u8]) -> Option<&'a [u8]>
    ensures { IfSome result (λ rest. text.now ≡ encode_upper bytes.now ++ rest.now) }
{
    let end = 2 * bytes.len();
    if text.len() < end {
        return None;
    }
    for (i, byte) in bytes.iter().enumerate() {
        // (two digits are compared as one number)
        let digits = [text[2 * i], text[2 * i + 1]];
        if u16::from_le_bytes(digits) != u16::from_le_bytes(hex_digits(*byte)) {
            return None;
        }
    }
    Some(&text[end..])
}

/// What follows the text of a reply at the front of a text, where it stands there; the reply's value is lent.
#[inline(always)]
pub(crate) fn behind_lent<'a>(lent: Option<Lent<'_>>, text: &'a [u8]) -> Option<&'a [u8]>
    requires { IfSome lent (λ lent. length lent.value.now ≤ 255) }
    ensures reply { IsReply (option_map lent_bytes lent.entry) }
    ensures text { IfSome result (λ rest.
        text.now ≡ reply_text (option_map lent_bytes lent.entry) ++ rest.now) }
{
    match lent {
        Some(lent) => {
            tell_bytes(&lent.head);
            tell_bytes(lent.value);
            match behind_pairs(&lent.head, text) {
                Some(text) => behind_hex(lent.value, text),
                None => None,
            }
        }
        None => behind(b'-', text),
    }
}

/// What follows the text of a reply at the front of a text, where it stands there.
pub(crate) fn behind_reply<'a>(reply: Option<&Message>, text: &'a [u8]) -> Option<&'a [u8]>
    ensures reply { IsReply (option_copied reply.entry) }
    ensures text { IfSome result (λ rest.
        text.now ≡ reply_text (option_copied reply.entry) ++ rest.now) }
{
    match bytes_of(reply) {
        Some(bytes) => behind_hex(bytes, text),
        None => behind(b'-', text),
    }
}
