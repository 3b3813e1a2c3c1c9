//! What a line says, and what it is to a tester.

ghost use Rattle.std.specs.Prelude.{◌≡◌, option_map};
ghost use Rattle.std.specs.List.{list_all};
ghost use Rattle.diag_can.specs.Stamp.{is_digit};
ghost use Rattle.diag_can.specs.Line.{is_decimal, ticks_of, tick_count, stamped, stamped_frame, text_frame, line_says, frame_for, addressed};

use crate::bus_line::BusLine;
use crate::fault::LineFault;
use crate::frame::{Ids, KnownId, TickCount};
use crate::frame_text::FrameText;
use crate::lent_bytes::LentBytes;
use crate::lent_event::LentEvent;
use crate::line::text_frame;
use crate::moment_text::MomentText;
use crate::stamp::{behind_name, decimal_value, is_digit, stamp_of};
use crate::usual::text_place;

/// Whether each byte is a decimal digit.
fn is_all_digits(text: &[u8]) -> bool
    ensures { result ≡ list_all is_digit text.now }
{
    text.iter().all(|c| is_digit(*c))
}

/// Whether this is a decimal number without leading zero.
fn is_decimal(text: &[u8]) -> bool
    ensures { result ≡ is_decimal text.now }
{
    match text.first() {
        None => false,
        Some(c) => *c != b'0' && is_all_digits(text),
    }
}

/// That many ticks, 1 to 60000.
pub fn ticks_of(count: u64) -> Option<TickCount>
    ensures { result ≡ ticks_of count }
{
    if count <= u64::from(TickCount::MAX) {
        TickCount::new(count as u16)
    } else {
        None
    }
}

/// The count of a `tick` line, after these four letters.
pub fn tick_count(text: &[u8]) -> Option<TickCount>
    ensures { result ≡ tick_count text.now }
{
    match text.split_first() {
        None => TickCount::new(1),
        Some((space, digits)) if *space == b' ' && is_decimal(digits) => {
            ticks_of(decimal_value(digits))
        }
        Some(_) => None,
    }
}

/// A frame's moment and text, from a whole line.
fn stamped_frame(line: &[u8]) -> Option<(u64, &[u8])>
    ensures { option_map (λ r. (r.0, r.1.now)) result ≡ stamped_frame line.now }
{
    let (moment, text) = stamp_of(line)?;
    let text = behind_name(text)?;
    Some((moment, text))
}

/// What a line says whose frame was seen at this moment and has this text.
fn framed_says<'a>(
    known: &[KnownId],
    moment: MomentText<'a>,
    text: &'a [u8],
) -> Result<BusLine<'a>, LineFault>
    ensures { result ≡ stamped moment.entry (text_frame known.now text.now) }
{
    let frame = text_frame(known, text)?;
    Ok(BusLine::Stamped { moment, frame })
}

/// What a line without its end says, whatever its form is, where these identifiers are read. Most stamps and names are of the
/// usual form.
pub fn line_says<'a>(known: &[KnownId], line: &'a [u8]) -> Result<BusLine<'a>, LineFault>
    ensures { result ≡ line_says known.now line.now }
{
    match text_place(line) {
        Some(place) => framed_says(known, MomentText::usual(line), &line[place..]),
        None => other_says(known, line),
    }
}

/// The same part by part.
#[inline(never)]
fn other_says<'a>(known: &[KnownId], line: &'a [u8]) -> Result<BusLine<'a>, LineFault>
    ensures { result ≡ line_says known.now line.now }
{
    if line.is_empty() {
        return Ok(BusLine::Empty);
    }
    if line.starts_with(b"tick") {
        return match tick_count(&line[4..]) {
            None => Err(LineFault::BadTick),
            Some(count) => Ok(BusLine::Ticks(count)),
        };
    }
    match stamped_frame(line) {
        None => Err(LineFault::BadLine),
        Some((moment, text)) => framed_says(known, MomentText::read(moment), text),
    }
}

/// Which identifier of a tester's link a frame has that a tester sends.
#[derive(Clone, Copy, Debug, PartialEq, Eq)]
pub enum Addressing {
    /// The request identifier.
    Physical,
    /// The functional identifier.
    Functional,
}

impl Addressing {
    /// The event of a frame with that identifier and these bytes.
    pub fn event(self, bytes: LentBytes<'_>) -> LentEvent<'_>
        ensures { result ≡ addressed self bytes.entry }
    {
        match self {
            Addressing::Physical => LentEvent::physical(bytes),
            Addressing::Functional => LentEvent::functional(bytes),
        }
    }
}

/// The frame, if it has the tester's request identifier or the functional one, and which of the two. Its bytes aren't decoded yet.
#[inline(always)]
pub fn frame_for<'f, 'a>(
    frame: &'f Option<FrameText<'a>>,
    ids: &Ids,
) -> Option<(Addressing, &'f FrameText<'a>)>
    ensures { option_map (λ r. addressed r.0 r.1.now.bytes) result ≡ frame_for ids.now frame.now }
{
    let Some(frame) = frame else {
        return None;
    };
    if frame.id() == ids.request {
        Some((Addressing::Physical, frame))
    } else if frame.id() == ids.functional {
        Some((Addressing::Functional, frame))
    } else {
        None
    }
}
