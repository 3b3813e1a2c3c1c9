//! The texts that a run writes.

ghost use Rattle.std.specs.Prelude.{◌≡◌, ◌+◌, ◌-◌, ◌++◌, ◌≤◌, ◌<◌, length, map, take, drop, IfOk, OnOk};
ghost use Rattle.std.specs.List.{concat};
ghost use Rattle.std.specs.Thread.{IsSync};
ghost use Rattle.diag_text.specs.Part.{IsPart, part_lines};
ghost use Rattle.diag_text.specs.Text.{lines_of, lines_from, journal_part, holder_name, held_lines, holder_lines, session_name, code_line, code_lines, end_text, whole_text, replay_text};

use diag_can::{LineWriter, Timing, write_hex};
use diag_desk::{Journal, journal_text, journal_text_at};
use diag_ecu::Ecu;
use diag_setup::{Setup, TesterId};
use diag_store::DtcMemory;
use diag_tp::SentFrames;
use diag_world::Played;
use std::alloc::{AllocError, Global};
use std::thread::{Threads, join};

/// All that a play writes, in one piece: the reply lines of each tester, the journal, and the end.
///
/// # Errors
/// `AllocError` where memory is refused.
pub fn play_text(
    alloc: Global,
    setup: &Setup,
    played: &Played,
    timing: Timing,
) -> Result<Vec<u8>, AllocError>
    requires { length played.now.sent.items ≡ length setup.now.testers }
    ensures { IfOk result (λ text. text.items ≡ whole_text timing setup.now played.now.desk
        (map (λ sent. sent.items) played.now.sent.items)) }
{
    let lines = lines_in_turn(alloc, setup, played.sent.as_slice())?;
    let journal = journal_part(alloc, timing, played.desk.journal())?;
    let end = end_text(alloc, setup, played.desk.ecu())?;
    let parts = with_end(lines, journal, end)?;
    one_text(alloc, parts.as_slice())
}

/// The parts as one text.
fn one_text(alloc: Global, parts: &[Vec<u8>]) -> Result<Vec<u8>, AllocError>
    ensures { IfOk result (λ text. text.items ≡ concat (map (λ part. part.items) parts.now)) }
{
    let mut text = Vec::new(alloc);
    for part in parts {
        text.extend_from_slice(part.as_slice())?;
    }
    Ok(text)
}

/// The same text in parts that are made beside each other.
///
/// # Errors
/// `AllocError` where memory is refused.
pub fn play_parts_beside<R: Threads + Sync>(
    rt: &R,
    alloc: Global,
    setup: &Setup,
    played: &Played,
    timing: Timing,
) -> Result<Vec<Vec<u8>>, AllocError>
    requires { length played.now.sent.items ≡ length setup.now.testers }
    ensures { IfOk result (λ parts. concat (map (λ part. part.items) parts.items)
        ≡ whole_text timing setup.now played.now.desk
        (map (λ sent. sent.items) played.now.sent.items)) }
{
    let _at_most_8 = setup.testers();
    let sent = played.sent.as_slice();
    let journal = played.desk.journal();
    let (lines, journal) = join(
        rt,
        move || -> Result<Vec<Vec<u8>>, AllocError>
            requires { IsSync R.row
                × (length sent.now ≡ length setup.now.testers)
                × (length setup.now.testers ≤ 8) }
            ensures { IfOk result (λ parts. concat (map (λ part. part.items) parts.items)
                ≡ lines_from setup.entry.now 1 (map (λ frames. frames.items) sent.entry.now)) }
        { lines_beside(rt, alloc, setup, 0, sent) },
        move || -> Result<Vec<u8>, AllocError>
            ensures { IfOk result (λ text.
                text.items ≡ journal_part timing journal.entry.now.entries) }
        { journal_part(alloc, timing, journal) },
    );
    let end = end_text(alloc, setup, played.desk.ecu())?;
    with_end(lines?, journal?, end)
}

/// The parts of the reply lines, and behind them the journal and the end.
fn with_end(
    mut parts: Vec<Vec<u8>>,
    journal: Vec<u8>,
    end: Vec<u8>,
) -> Result<Vec<Vec<u8>>, AllocError>
    ensures { IfOk result (λ all. concat (map (λ part. part.items) all.items)
        ≡ concat (map (λ part. part.items) parts.items) ++ (journal.items ++ end.items)) }
{
    add_part(&mut parts, journal)?;
    add_part(&mut parts, end)?;
    Ok(parts)
}

/// Frames of a list, from an index on and before another.
#[derive(Clone, Copy)]
struct Part {
    from: usize,
    end: usize,
}

/// The reply lines of the testers from this index on, 0 for all, in parts that are made beside each other.
fn lines_beside<R: Threads + Sync>(
    rt: &R,
    alloc: Global,
    setup: &Setup,
    index: usize,
    sent: &[SentFrames],
) -> Result<Vec<Vec<u8>>, AllocError>
    requires index { index + length sent.now ≡ length setup.now.testers }
    requires few { length setup.now.testers ≤ 8 }
    ensures { IfOk result (λ parts. concat (map (λ part. part.items) parts.items)
        ≡ lines_from setup.now (index + 1) (map (λ frames. frames.items) sent.now)) }
{
    let Some((frames, rest)) = sent.split_first() else {
        return Ok(Vec::new(alloc));
    };
    let count = frames.len();
    let (own, others) = join(
        rt,
        move || -> Result<Vec<Vec<u8>>, AllocError>
            requires { IsSync R.row
                × (index < length setup.now.testers)
                × (count ≤ length frames.now.items) }
            ensures { IfOk result (λ parts. concat (map (λ part. part.items) parts.items)
                ≡ part_lines setup.entry.now (index + 1) frames.entry.now (record { from = 0; end = count })) }
        {
            let all = Part {
                from: 0,
                end: count,
            };
            lines_halved(rt, alloc, setup, index, frames, all, MOST_PARTS)
        },
        move || -> Result<Vec<Vec<u8>>, AllocError>
            requires { IsSync R.row
                × (index + 1 + length rest.now ≡ length setup.now.testers)
                × (length setup.now.testers ≤ 8) }
            ensures { IfOk result (λ parts. concat (map (λ part. part.items) parts.items)
                ≡ lines_from setup.entry.now (index + 1 + 1)
                (map (λ frames. frames.items) rest.entry.now)) }
        { lines_beside(rt, alloc, setup, index + 1, rest) },
    );
    both(own?, others?)
}

/// The most parts that one tester's lines are made in.
const MOST_PARTS: u8 = 4;

/// So few lines are not worth a thread.
const FEW_LINES: usize = 65_536;

/// The reply lines of one tester; where there are many, in halves that are made beside each other, so many parts at
/// most.
fn lines_halved<R: Threads + Sync>(
    rt: &R,
    alloc: Global,
    setup: &Setup,
    index: usize,
    sent: &SentFrames,
    part: Part,
    most: u8,
) -> Result<Vec<Vec<u8>>, AllocError>
    requires index { index < length setup.now.testers }
    requires part { IsPart part sent.now }
    ensures { IfOk result (λ parts. concat (map (λ part. part.items) parts.items)
        ≡ part_lines setup.now (index + 1) sent.now part) }
{
    if most < 2 || part.end - part.from <= FEW_LINES {
        return lines_alone(alloc, setup, index, sent, part);
    }
    let (from, end) = (part.from, part.end);
    let (middle, half) = (from + (end - from) / 2, most / 2);
    let (first, second) = join(
        rt,
        move || -> Result<Vec<Vec<u8>>, AllocError>
            requires { IsSync R.row
                × (index < length setup.now.testers)
                × (from ≤ middle)
                × (middle ≤ length sent.now.items) }
            ensures { IfOk result (λ parts. concat (map (λ part. part.items) parts.items)
                ≡ part_lines setup.entry.now (index + 1) sent.entry.now (record { from = from; end = middle })) }
        {
            let front = Part { from, end: middle };
            lines_halved(rt, alloc, setup, index, sent, front, half)
        },
        move || -> Result<Vec<Vec<u8>>, AllocError>
            requires { IsSync R.row
                × (index < length setup.now.testers)
                × (middle ≤ end)
                × (end ≤ length sent.now.items) }
            ensures { IfOk result (λ parts. concat (map (λ part. part.items) parts.items)
                ≡ part_lines setup.entry.now (index + 1) sent.entry.now (record { from = middle; end = end })) }
        {
            let back = Part { from: middle, end };
            lines_halved(rt, alloc, setup, index, sent, back, half)
        },
    );
    both(first?, second?)
}

/// The reply lines of one tester, in one part.
fn lines_alone(
    alloc: Global,
    setup: &Setup,
    index: usize,
    sent: &SentFrames,
    part: Part,
) -> Result<Vec<Vec<u8>>, AllocError>
    requires index { index < length setup.now.testers }
    requires part { IsPart part sent.now }
    ensures { IfOk result (λ parts. concat (map (λ part. part.items) parts.items)
        ≡ part_lines setup.now (index + 1) sent.now part) }
{
    let who = setup.who(index);
    let lines = tester_lines(alloc, setup, who, sent, part)?;
    one_part(alloc, lines)
}

/// The parts of one text and then those of another.
fn both(mut parts: Vec<Vec<u8>>, mut others: Vec<Vec<u8>>) -> Result<Vec<Vec<u8>>, AllocError>
    ensures { IfOk result (λ all. concat (map (λ part. part.items) all.items)
        ≡ concat (map (λ part. part.items) parts.items)
        ++ concat (map (λ part. part.items) others.items)) }
{
    parts.append(&mut others)?;
    Ok(parts)
}

/// Adds a part.
fn add_part(parts: &mut Vec<Vec<u8>>, part: Vec<u8>) -> Result<(), AllocError>
    ensures { OnOk result (concat (map (λ part. part.items) parts.new.items)
        ≡ concat (map (λ part. part.items) parts.old.items) ++ part.items) }
{
    parts.push(part)?;
    Ok(())
}

/// A text in one part.
///
/// # Errors
/// `AllocError` where memory is refused.
pub fn one_part(alloc: Global, text: Vec<u8>) -> Result<Vec<Vec<u8>>, AllocError>
    ensures { IfOk result (λ parts. concat (map (λ part. part.items) parts.items) ≡ text.items) }
{
    let mut parts = Vec::new(alloc);
    parts.push(text)?;
    Ok(parts)
}

/// The lines of these of the frames that one tester was sent.
fn tester_lines(
    alloc: Global,
    setup: &Setup,
    who: TesterId,
    sent: &SentFrames,
    part: Part,
) -> Result<Vec<u8>, AllocError>
    requires who { who ≤ length setup.now.testers }
    requires part { IsPart part sent.now }
    ensures { IfOk result (λ text. text.items ≡ part_lines setup.now who sent.now part) }
{
    let name = setup.name(who);
    let count = part.end - part.from;
    let room = count.saturating_mul(name.len().saturating_add(USUAL_LINE));
    let mut text = Vec::with_capacity(alloc, room)?;
    if count > 0 {
        let id = sent.get(part.from).id;
        let mut writer = LineWriter::new(alloc, name, id, setup.flags(who))?;
        add_lines(&mut text, &mut writer, sent, part)?;
    }
    Ok(text)
}

/// What a line of eight bytes has beside its name, where its time is below 10,000,000,000 seconds.
const USUAL_LINE: usize = 42;

/// The reply lines of each tester, a part each.
fn lines_in_turn(
    alloc: Global,
    setup: &Setup,
    sent: &[SentFrames],
) -> Result<Vec<Vec<u8>>, AllocError>
    requires { length sent.now ≡ length setup.now.testers }
    ensures { IfOk result (λ parts. concat (map (λ part. part.items) parts.items)
        ≡ lines_from setup.now 1 (map (λ frames. frames.items) sent.now)) }
{
    let mut parts = Vec::new(alloc);
    for (index, frames) in sent.iter().enumerate() {
        let who = setup.who(index);
        let part = Part {
            from: 0,
            end: frames.len(),
        };
        let lines = tester_lines(alloc, setup, who, frames, part)?;
        add_part(&mut parts, lines)?;
    }
    Ok(parts)
}

/// Adds the lines of these of the frames that one tester was sent.
fn add_lines(
    text: &mut Vec<u8>,
    writer: &mut LineWriter,
    sent: &SentFrames,
    part: Part,
) -> Result<(), AllocError>
    requires { IsPart part sent.now }
    ensures { OnOk result (text.new.items
        ≡ text.old.items ++ lines_of writer.old (take (part.end - part.from) (drop part.from sent.now.items))) }
{
    for index in part.from..part.end {
        let frame = sent.get(index);
        writer.write(text, frame.at, frame.id, frame.bytes)?;
    }
    Ok(())
}

/// The journal's text: of version 2 where stamps carry time, else of version 1.
///
/// # Errors
/// `AllocError` where memory is refused.
pub fn journal_part(alloc: Global, timing: Timing, journal: &Journal) -> Result<Vec<u8>, AllocError>
    ensures { IfOk result (λ text. text.items ≡ journal_part timing journal.now.entries) }
{
    match timing {
        Timing::Lines => journal_text(alloc, journal),
        Timing::Stamps => journal_text_at(alloc, journal),
    }
}

/// The end of a run: the session, its holder, and each DTC with its status as kept.
///
/// # Errors
/// `AllocError` where memory is refused.
#[tactic(auto, unfolding(crate::specs::Text::end_text))]
pub fn end_text(alloc: Global, setup: &Setup, ecu: &Ecu) -> Result<Vec<u8>, AllocError>
    ensures { IfOk result (λ text. text.items ≡ end_text setup.now ecu.now) }
{
    let mut text = Vec::new(alloc);
    add_holder(&mut text, setup, ecu)?;
    add_codes(&mut text, ecu.dtcs())?;
    Ok(text)
}

/// Adds the lines of the session and of its holder.
fn add_holder(text: &mut Vec<u8>, setup: &Setup, ecu: &Ecu) -> Result<(), AllocError>
    ensures { OnOk result
        (text.new.items ≡ text.old.items ++ holder_lines setup.now ecu.now ecu.now.holder) }
{
    match ecu.holder() {
        None => text.extend_from_slice(b"session default\nholder none\n"),
        Some(who) => add_held(text, setup, who, ecu.session_of(who)),
    }
}

/// Adds the lines of the session that this tester holds, and of the tester.
fn add_held(text: &mut Vec<u8>, setup: &Setup, who: TesterId, session: u8) -> Result<(), AllocError>
    ensures { OnOk result
        (text.new.items ≡ text.old.items ++ held_lines setup.now who session) }
{
    text.extend_from_slice(b"session ")?;
    add_session(text, session)?;
    text.extend_from_slice(b"\nholder ")?;
    add_name(text, setup, who)?;
    text.extend_from_slice(b"\n")
}

/// Adds the name of a session other than the default one (ISO 14229-1:2013, 9.2); its number, where it has none.
fn add_session(text: &mut Vec<u8>, session: u8) -> Result<(), AllocError>
    ensures { OnOk result (text.new.items ≡ text.old.items ++ session_name session) }
{
    match session {
        0x02 => text.extend_from_slice(b"programming"),
        0x03 => text.extend_from_slice(b"extended"),
        0x04 => text.extend_from_slice(b"safety"),
        _ => write_hex(text, &[session]),
    }
}

/// Adds a tester's name; its number, where the setup has no such tester.
fn add_name(text: &mut Vec<u8>, setup: &Setup, who: TesterId) -> Result<(), AllocError>
    ensures { OnOk result (text.new.items ≡ text.old.items ++ holder_name setup.now who) }
{
    if usize::from(who.number()) <= setup.testers() {
        text.extend_from_slice(setup.name(who))
    } else {
        text.push(b'0' + who.number())?;
        Ok(())
    }
}

/// Adds a line for each DTC.
fn add_codes(text: &mut Vec<u8>, dtcs: &DtcMemory) -> Result<(), AllocError>
    ensures { OnOk result (text.new.items ≡ text.old.items ++ code_lines dtcs.now) }
{
    for index in 0..dtcs.len() {
        let Some((code, status)) = dtcs.at(index) else {
            unreachable!()
        };
        add_code(text, code, status)?;
    }
    Ok(())
}

/// Adds the line of one DTC.
fn add_code(text: &mut Vec<u8>, code: u32, status: u8) -> Result<(), AllocError>
    ensures { OnOk result (text.new.items ≡ text.old.items ++ code_line code status) }
{
    let [_, high, middle, low] = code.to_be_bytes();
    text.extend_from_slice(b"code ")?;
    write_hex(text, &[high, middle, low])?;
    text.extend_from_slice(b" ")?;
    write_hex(text, &[status])?;
    text.extend_from_slice(b"\n")
}

/// What a replay writes: the number of entries, and the end.
///
/// # Errors
/// `AllocError` where memory is refused.
pub fn replay_text(
    alloc: Global,
    setup: &Setup,
    journal: &Journal,
    ecu: &Ecu,
) -> Result<Vec<u8>, AllocError>
    ensures { IfOk result (λ text.
        text.items ≡ replay_text setup.now (length journal.now.entries) ecu.now) }
{
    counted_text(alloc, setup, journal.len(), ecu)
}

/// The same of a replay that counted the entries and kept none.
///
/// # Errors
/// `AllocError` where memory is refused.
pub fn counted_text(
    alloc: Global,
    setup: &Setup,
    count: usize,
    ecu: &Ecu,
) -> Result<Vec<u8>, AllocError>
    ensures { IfOk result (λ text. text.items ≡ replay_text setup.now count ecu.now) }
{
    let mut text = format!(in alloc; "entries {count}\n")?.into_bytes();
    let end = end_text(alloc, setup, ecu)?;
    text.extend_from_slice(end.as_slice())?;
    Ok(text)
}
