//! Writing the text of a journal, in one buffer.
ghost use Rattle.std.specs.Prelude.{◌≡◌, ◌≤◌, ◌<◌, ◌+◌, ◌*◌, ◌^◌, ◌++◌, [], None, length, OnOk, OnErr, IfOk, IfSome, codes, decimal, option_copied, unwrap_or, vec_len, vec_capacity};
ghost use Rattle.diag_desk.specs.Entries.{entry};
ghost use Rattle.diag_pdu.specs.Request.{request_of};
ghost use Rattle.diag_pdu.specs.declared.step.Step.{Step as AStep};
ghost use Rattle.diag_desk.specs.Entry.{entry_seen, messages_len, step_seen};
ghost use Rattle.diag_desk.specs.Text.{ended, entry_line, header, journal_text, journal_text_at, reply_text, stamped_line, text_of, ticks_in};

use crate::clocks::Clocks;
use crate::entry::{EntryRef, StepRef};
use crate::journal::Journal;
use crate::version::JournalVersion;
use diag_can::{TickCount, add_bytes, add_decimal, add_hex};
use diag_setup::TesterId;
use std::alloc::{AllocError, Global};
use std::mem;

/// The text of version 1: the line `diag-journal 1`, then a line for each entry, each ended by LF.
///
/// A physical request is `N P REQ REPLY`, a functional one `N F REQ REPLY`, ticks are `N T COUNT`. N is the tester's
/// number; a message is in upper-case hex, no reply is `-`. There is none where memory is refused.
pub fn journal_text(alloc: Global, journal: &Journal) -> Result<Vec<u8>, AllocError>
    ensures { IfOk result (λ text. text.items ≡ journal_text journal.now.entries) }
{
    write_all(alloc, journal, JournalVersion::Plain)
}

/// The text of version 2: the line `diag-journal 2`, then the lines of version 1, each with the ticks of its tester up
/// to and with it, and a space, before it. There is none where memory is refused.
pub fn journal_text_at(alloc: Global, journal: &Journal) -> Result<Vec<u8>, AllocError>
    ensures { IfOk result (λ text. text.items ≡ journal_text_at journal.now.entries) }
{
    write_all(alloc, journal, JournalVersion::Stamped)
}

/// Appends the line of an entry in this version; `before` is the ticks of its tester before it.
///
/// After an error the bytes that stood there are as before.
#[inline(always)]
pub fn write_entry(
    text: &mut Vec<u8>,
    version: JournalVersion,
    before: u64,
    entry: &EntryRef<'_>,
) -> Result<(), AllocError>
    requires { before ≤ 2 ^ 63 }
    ensures ok { OnOk result (text.new.items ≡ text.old.items
        ++ ended (stamped_line version (before + ticks_in (step_seen entry.now.step))
        (entry_line (entry_seen entry.now)))) }
    ensures err { OnErr result (text.new.items ≡ text.old.items) }
{
    match entry.step {
        StepRef::Request { functional, bytes } => {
            write_request(
                text,
                version,
                before,
                entry.who,
                functional,
                bytes,
                entry.reply,
            )
        }
        StepRef::Ticks(count) => write_ticks(text, version, before, entry.who, count),
    }
}

/// The line of a request; `clock` is the ticks of its tester. (Not inlined: a step of which no line is written is quicker so.)
#[inline(never)]
fn write_request(
    text: &mut Vec<u8>,
    version: JournalVersion,
    clock: u64,
    who: TesterId,
    functional: bool,
    bytes: &[u8],
    reply: Option<&[u8]>,
) -> Result<(), AllocError>
    ensures ok { OnOk result (text.new.items ≡ text.old.items
        ++ ended (stamped_line version clock
        (entry_line (entry who (AStep.Request (request_of functional bytes.now)) (option_copied reply.entry))))) }
    ensures err { OnErr result (text.new.items ≡ text.old.items) }
{
    let step = StepRef::Request { functional, bytes };
    write_line(text, version, clock, who, &step, reply)
}

/// The line of so many ticks.
#[inline(never)]
fn write_ticks(
    text: &mut Vec<u8>,
    version: JournalVersion,
    before: u64,
    who: TesterId,
    count: TickCount,
) -> Result<(), AllocError>
    requires { before ≤ 2 ^ 63 }
    ensures ok { OnOk result (text.new.items ≡ text.old.items
        ++ ended (stamped_line version (before + count) (entry_line (entry who (AStep.Ticks count) None)))) }
    ensures err { OnErr result (text.new.items ≡ text.old.items) }
{
    let step = StepRef::of_ticks(count);
    write_line(text, version, before + ticks_in(&step), who, &step, None)
}

fn write_all(
    alloc: Global,
    journal: &Journal,
    version: JournalVersion,
) -> Result<Vec<u8>, AllocError>
    ensures { IfOk result (λ text. text.items ≡ text_of version journal.now.entries) }
{
    let mut text = Vec::with_capacity(alloc, journal.text_room(version))?;
    write_header(&mut text, version)?;
    let mut clocks = Clocks::new();
    for index in 0..journal.len() {
        let Some(entry) = journal.get(index) else {
            unreachable!();
        };
        let clock = clocks.at(entry.who) + ticks_in(&entry.step);
        write_line(
            &mut text,
            version,
            clock,
            entry.who,
            &entry.step,
            entry.reply,
        )?;
        clocks.set(entry.who, clock);
    }
    Ok(text)
}

/// Appends the header of this version.
///
/// After an error the bytes that stood there are as before.
pub fn write_header(text: &mut Vec<u8>, version: JournalVersion) -> Result<(), AllocError>
    ensures ok { OnOk result (text.new.items ≡ text.old.items ++ ended (header version)) }
    ensures err { OnErr result (text.new.items ≡ text.old.items) }
{
    match version {
        JournalVersion::Plain => text.extend_from_slice(b"diag-journal 1\n"),
        JournalVersion::Stamped => text.extend_from_slice(b"diag-journal 2\n"),
    }
}

/// The ticks of a step.
fn ticks_in(step: &StepRef<'_>) -> u64
    ensures same { result ≡ ticks_in (step_seen step.now) }
    ensures bound { result ≤ 60000 }
{
    match *step {
        StepRef::Request { .. } => 0,
        StepRef::Ticks(count) => u64::from(count.get()),
    }
}

/// Appends the line of an entry, in version 2 behind its stamp; room for the whole line is made first.
#[inline(always)]
fn write_line(
    text: &mut Vec<u8>,
    version: JournalVersion,
    clock: u64,
    who: TesterId,
    step: &StepRef<'_>,
    reply: Option<&[u8]>,
) -> Result<(), AllocError>
    ensures ok { OnOk result (text.new.items ≡ text.old.items
        ++ ended (stamped_line version clock
        (entry_line (entry who (step_seen step.now) (option_copied reply.entry))))) }
    ensures err { OnErr result (text.new.items ≡ text.old.items) }
{
    let Some(room) = line_room(step, reply) else {
        return Err(AllocError);
    };
    text.reserve(room)?;
    let alloc = *text.allocator();
    // (in a variable of its own, so that the text's place and length stay in registers)
    let mut line = mem::replace(text, Vec::new(alloc));
    if let JournalVersion::Stamped = version {
        add_stamp(&mut line, clock);
    }
    add_entry(&mut line, who, step, reply);
    *text = line;
    Ok(())
}

/// More bytes than a line has beside the hex of its messages.
const LINE_ROOM: usize = 64;

/// More bytes than the messages of a line have: so many that their hex has a length.
const MOST_BYTES: usize = usize::MAX / 4;

/// No fewer bytes than a line has.
#[inline(always)]
fn line_room(step: &StepRef<'_>, reply: Option<&[u8]>) -> Option<usize>
    ensures { IfSome result (λ room. room
        ≡ 64 + 2 * messages_len (step_seen step.now) (option_copied reply.entry)) }
{
    let bytes = match *step {
        StepRef::Request { bytes, .. } => message_len(Some(bytes)) + message_len(reply),
        StepRef::Ticks(_) => 0,
    };
    if bytes > MOST_BYTES {
        return None;
    }
    Some(2 * bytes + LINE_ROOM)
}

/// How many bytes a message has.
#[inline(always)]
fn message_len(message: Option<&[u8]>) -> usize
    ensures len { result ≡ length (unwrap_or (option_copied message.entry) []) }
    ensures fits { result < 2 ^ 63 }
{
    match message {
        Some(bytes) => bytes.len(),
        None => 0,
    }
}

/// Appends a stamp and its space, where there is room.
#[inline(always)]
fn add_stamp(text: &mut Vec<u8>, clock: u64)
    requires { vec_len text.old + 21 ≤ vec_capacity text.old }
    ensures items { text.new.items ≡ text.old.items ++ (decimal clock ++ codes " ") }
    ensures len { vec_len text.new ≤ vec_len text.old + 21 }
    ensures capacity { vec_capacity text.new ≡ vec_capacity text.old }
{
    add_decimal(text, clock);
    text.push_reserved(b' ');
}

/// Appends the line of an entry, where there is room.
#[inline(always)]
fn add_entry(text: &mut Vec<u8>, who: TesterId, step: &StepRef<'_>, reply: Option<&[u8]>)
    requires { vec_len text.old
        + (32 + 2 * messages_len (step_seen step.now) (option_copied reply))
        ≤ vec_capacity text.old }
    ensures { text.new.items ≡ text.old.items
        ++ ended (entry_line (entry who (step_seen step.now) (option_copied reply.entry))) }
{
    match *step {
        StepRef::Request { functional, bytes } => {
            let kind = if functional { b'F' } else { b'P' };
            add_bytes(text, &[b'0' + who.number(), b' ', kind, b' ']);
            add_hex(text, bytes);
            text.push_reserved(b' ');
            add_reply(text, reply);
        }
        StepRef::Ticks(count) => {
            add_bytes(text, &[b'0' + who.number(), b' ', b'T', b' ']);
            add_decimal(text, u64::from(count.get()));
        }
    }
    text.push_reserved(b'\n');
}

/// Appends the text of a reply, where there is room.
#[inline(always)]
fn add_reply(text: &mut Vec<u8>, reply: Option<&[u8]>)
    requires { vec_len text.old + (1 + 2 * length (unwrap_or (option_copied reply) []))
        ≤ vec_capacity text.old }
    ensures items { text.new.items ≡ text.old.items ++ reply_text (option_copied reply.entry) }
    ensures len { vec_len text.new
        ≤ vec_len text.old + (1 + 2 * length (unwrap_or (option_copied reply.entry) [])) }
    ensures capacity { vec_capacity text.new ≡ vec_capacity text.old }
{
    match reply {
        Some(bytes) => add_hex(text, bytes),
        None => text.push_reserved(b'-'),
    }
}
