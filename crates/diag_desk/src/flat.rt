//! How the journal keeps its entries: a small head for each, and the bytes of all messages in one list.
ghost use Rattle.std.specs.Prelude.{◌≡◌, ◌≤◌, ◌+◌, ◌++◌, [], length, OnErr, IfOk, ◌/◌, option_map, option_copied, unwrap_or, vec_len, vec_capacity};
ghost use Rattle.diag_desk.specs.Entries.{entry};
ghost use Rattle.diag_desk.specs.Entry.{entry_seen, step_seen, step_len, entry_bytes, IsEntry, IsMessage, IsReply, IsStep};
ghost use Rattle.hex.specs.Hex.{IsBytes};
ghost use Rattle.diag_desk.specs.Flat.{HeadFits, entry_of};
ghost use Rattle.diag_desk.specs.Line.{HasHex, IsHex, IsHexReply, decoded, line_entry};

use crate::entry::{EntryRef, StepRef};
use crate::line::{Line, LineStep};
use diag_can::{TickCount, add_bytes, read_hex};
use diag_pdu::{Message, Step};
use diag_setup::TesterId;
use std::alloc::AllocError;

/// Where the bytes of an entry stand: the reply's right after the request's.
#[derive(Clone, Copy, Drop)]
pub(crate) enum Head {
    /// A request with its reply.
    Answered {
        who: TesterId,
        functional: bool,
        request_len: u16,
        reply_len: u16,
        start: usize,
    },
    /// A request without a reply.
    Silent {
        who: TesterId,
        functional: bool,
        request_len: u16,
        start: usize,
    },
    Ticks {
        who: TesterId,
        count: TickCount,
    },
}

const _: () = prove!(size_of::<Head>() <= 16);

/// The number of bytes of a step's message.
pub(crate) fn step_len(step: &Step) -> usize
    ensures same { result ≡ step_len step.now }
    ensures bound { result ≤ 65535 }
{
    match step {
        Step::Request(request) => request.message.bytes().len(),
        Step::Ticks(_) => 0,
    }
}

/// Tells that bytes are numbers below 256.
pub(crate) fn tell_bytes(bytes: &[u8])
    ensures { IsBytes bytes.now }
{}

/// The bytes of a message.
pub(crate) fn message_bytes(message: &Message) -> &[u8]
    ensures same { result.now ≡ message.now }
    ensures message { IsMessage message.now }
{
    let bytes = message.bytes();
    tell_bytes(bytes);
    bytes
}

/// The bytes of a reply, if there is one.
pub(crate) fn bytes_of(reply: Option<&Message>) -> Option<&[u8]>
    ensures same { option_copied result ≡ option_copied reply.entry }
    ensures reply { IsReply (option_copied result) }
    ensures bound { length (unwrap_or (option_copied result) []) ≤ 65535 }
{
    match reply {
        Some(message) => Some(message_bytes(message)),
        None => None,
    }
}

/// The length of a reply, if there is one.
#[inline(always)]
pub(crate) fn len_of(reply: Option<&Message>) -> usize
    ensures same { result ≡ length (unwrap_or (option_copied reply.entry) []) }
    ensures bound { result ≤ 65535 }
{
    match reply {
        Some(message) => message.bytes().len(),
        None => 0,
    }
}

/// The most bytes that are appended one by one, for which a call that copies them costs more.
const FEW: usize = 8;

/// Appends bytes where there is room.
fn append(bytes: &mut Vec<u8>, more: &[u8])
    requires { vec_len bytes.old + length more.now ≤ vec_capacity bytes.old }
    ensures items { bytes.new.items ≡ bytes.old.items ++ more.now }
    ensures room { vec_capacity bytes.old ≤ vec_capacity bytes.new }
{
    if more.len() <= FEW {
        add_bytes(bytes, more);
        return;
    }
    // There is room, so no memory is asked for.
    let _ = bytes.extend_from_slice(more);
}

/// Appends the bytes of an entry, and gives its head.
#[inline(always)]
pub(crate) fn head_of(
    bytes: &mut Vec<u8>,
    who: TesterId,
    step: &StepRef<'_>,
    reply: Option<&[u8]>,
) -> Head
    requires room { vec_len bytes.old
        + (step_len (step_seen step.now) + length (unwrap_or (option_copied reply) []))
        ≤ vec_capacity bytes.old }
    requires step { IsStep (step_seen step.now) (option_copied reply) }
    ensures items { bytes.new.items
        ≡ bytes.old.items ++ entry_bytes (step_seen step.now) (option_copied reply.entry) }
    ensures fits { HeadFits result (length bytes.new.items) }
    ensures same { entry_of bytes.new.items result
        ≡ entry who (step_seen step.now) (option_copied reply.entry) }
    ensures entry { IsEntry (entry who (step_seen step.now) (option_copied reply.entry)) }
{
    // (for its contract: a tester's number is at most 8)
    let _number = who.number();
    match *step {
        StepRef::Ticks(count) => Head::Ticks { who, count },
        StepRef::Request {
            functional,
            bytes: request,
        } => {
            let start = bytes.len();
            append(bytes, request);
            match reply {
                Some(reply) => {
                    append(bytes, reply);
                    Head::Answered {
                        who,
                        functional,
                        request_len: request.len() as u16,
                        reply_len: reply.len() as u16,
                        start,
                    }
                }
                None => Head::Silent {
                    who,
                    functional,
                    request_len: request.len() as u16,
                    start,
                },
            }
        }
    }
}

/// Appends the messages of a line, and gives the head of its entry; after an error the bytes are as before.
pub(crate) fn head_of_line(bytes: &mut Vec<u8>, line: &Line<'_>) -> Result<Head, AllocError>
    requires hex { HasHex line.now.step }
    requires entry { IsEntry (line_entry line.now) }
    ensures items { IfOk result (λ _. bytes.new.items
        ≡ bytes.old.items ++ entry_bytes (line_entry line.now).step (line_entry line.now).reply) }
    ensures fits { IfOk result (λ head. HeadFits head (length bytes.new.items)) }
    ensures entry { IfOk result (λ head. entry_of bytes.new.items head ≡ line_entry line.now) }
    ensures err { OnErr result (bytes.new.items ≡ bytes.old.items) }
{
    match line.step {
        LineStep::Ticks(count) => Ok(Head::Ticks {
            who: line.who,
            count,
        }),
        LineStep::Request {
            functional,
            message,
            reply,
        } => {
            let start = bytes.len();
            bytes.reserve(decoded_len(message) + reply_len(reply))?;
            append_hex(bytes, message);
            match reply {
                Some(text) => {
                    append_hex(bytes, text);
                    Ok(Head::Answered {
                        who: line.who,
                        functional,
                        request_len: decoded_len(message) as u16,
                        reply_len: decoded_len(text) as u16,
                        start,
                    })
                }
                None => Ok(Head::Silent {
                    who: line.who,
                    functional,
                    request_len: decoded_len(message) as u16,
                    start,
                }),
            }
        }
    }
}

/// The number of bytes that hex text says.
pub(crate) fn decoded_len(text: &[u8]) -> usize
    requires { IsHex text.now }
    ensures same { result ≡ length (decoded text.now) }
    ensures half { result ≡ length text.now / 2 }
    ensures bound { (1 ≤ result) × (result ≤ 65535) }
{
    text.len() / 2
}

/// The number of bytes that a reply's hex text says.
fn reply_len(text: Option<&[u8]>) -> usize
    requires { IsHexReply (option_copied text) }
    ensures same { result ≡ length (unwrap_or (option_map decoded (option_copied text.entry)) []) }
    ensures bound { result ≤ 65535 }
{
    match text {
        Some(text) => decoded_len(text),
        None => 0,
    }
}

/// Appends the bytes of a message's hex text where there is room.
pub(crate) fn append_hex(bytes: &mut Vec<u8>, text: &[u8])
    requires hex { IsHex text.now }
    requires room { vec_len bytes.old + length (decoded text.now) ≤ vec_capacity bytes.old }
    ensures items { bytes.new.items ≡ bytes.old.items ++ decoded text.now }
    ensures room { vec_capacity bytes.old ≤ vec_capacity bytes.new }
{
    read_hex(bytes, text);
}

/// The entry of a head.
pub(crate) fn entry_at<'a>(head: Head, bytes: &'a [u8]) -> EntryRef<'a>
    requires { HeadFits head (length bytes.now) }
    ensures same { entry_seen result ≡ entry_of bytes.now head }
{
    match head {
        Head::Answered {
            who,
            functional,
            request_len,
            reply_len,
            start,
        } => {
            let end = start + usize::from(request_len);
            EntryRef {
                who,
                step: StepRef::Request {
                    functional,
                    bytes: &bytes[start..end],
                },
                reply: Some(&bytes[end..end + usize::from(reply_len)]),
            }
        }
        Head::Silent {
            who,
            functional,
            request_len,
            start,
        } => EntryRef {
            who,
            step: StepRef::Request {
                functional,
                bytes: &bytes[start..start + usize::from(request_len)],
            },
            reply: None,
        },
        Head::Ticks { who, count } => EntryRef {
            who,
            step: StepRef::Ticks(count),
            reply: None,
        },
    }
}
