//! The line of an exchange.

ghost use Rattle.std.specs.Prelude.{◌≡◌, ◌<◌, ◌≤◌, ◌+◌, ◌*◌, ◌/◌, ◌%◌, ◌^◌, ◌∷◌, [], ◌++◌, codes, decimal, length, drop, option_copied, vec_len, vec_capacity, IfSome, IfNone, OnOk, OnErr};
ghost use Rattle.hex.specs.Hex.{encode_upper};
ghost use Rattle.diag_can.specs.Reply.{stamp_digits};
ghost use Rattle.diag_exchange.specs.Agreeing.{marks, waited};
ghost use Rattle.diag_told.specs.Told.{byte_text, bytes_text, capture_line_told, expected_text, kind_text, message_text, pendings_told, reply_text, request_text, sent_text, time_text, told_room, told_text};

use diag_can::{KeptStamp, add_bytes, add_decimal, add_hex, add_late_digits, hex_digits};
use diag_exchange::{CaptureLine, Expected, Over, OverKind};
use diag_pdu::Message;
use std::alloc::AllocError;
use std::mem;

/// More bytes than a line has beside its tester's name and its messages.
const LINE_ROOM: usize = 128;

/// Adds the line of an exchange of a tester of this name, by the bus's time of its line, in milliseconds; `same` says whether
/// it agrees. Its stamp is kept for the next.
///
/// # Errors
/// `AllocError` where the text has no room for a line of so many bytes, and memory is refused; it stays as it was.
pub fn tell(
    text: &mut Vec<u8>,
    last: &mut KeptStamp,
    name: &[u8],
    moment: u64,
    over: &Over,
    same: bool,
) -> Result<(), AllocError>
    ensures ok { OnOk result (text.new.items ≡ text.old.items ++ told_text name.now moment same over.now) }
    ensures err { OnErr result (text.new.items ≡ text.old.items) }
    ensures full { OnErr result (vec_capacity text.old < vec_len text.old + told_room name.now same over.now) }
{
    let room = line_room(name, over, same).ok_or(AllocError)?;
    text.reserve(room)?;
    let alloc = *text.allocator();
    // (in a variable of its own, so that the text's place and length stay in registers)
    let mut line = mem::replace(text, Vec::new(alloc));
    add_front(&mut line, last, name, moment, over);
    add_expected(&mut line, over, same);
    add_numbers(&mut line, over);
    *text = line;
    Ok(())
}

/// As many bytes as a line may have, where that is a number.
#[inline(always)]
fn line_room(name: &[u8], over: &Over, same: bool) -> Option<usize>
    ensures room { IfSome result (λ room. room ≡ told_room name.now same over.now) }
    ensures many { IfNone result (2 ^ 64 ≤ told_room name.now same over.now) }
{
    let messages = count_of(request(over)) + count_of(sent(over)) + expected_count(over, same);
    name.len().checked_add(messages + LINE_ROOM)
}

/// Adds line, stamp, tester, kind, request and what the unit sent, each before a space, where there is room.
#[inline(always)]
fn add_front(text: &mut Vec<u8>, last: &mut KeptStamp, name: &[u8], moment: u64, over: &Over)
    requires { vec_len text.old + (length name.now + length (request_text over.now) + length (sent_text over.now) + 80)
        ≤ vec_capacity text.old }
    ensures items { text.new.items ≡ text.old.items ++ (decimal (capture_line_told over.now).number ++ codes " "
        ++ stamp_digits moment ++ codes " " ++ name.now ++ codes " " ++ kind_text over.now ++ codes " "
        ++ request_text over.now ++ codes " " ++ sent_text over.now ++ codes " ") }
    ensures len { vec_len text.new ≤ vec_len text.old
        + (length name.now + length (request_text over.now) + length (sent_text over.now) + 80) }
    ensures capacity { vec_capacity text.new ≡ vec_capacity text.old }
{
    add_head(
        text,
        last,
        name,
        moment,
        capture_line(over).number,
        kind(over),
    );
    add_message(text, request(over));
    text.push_reserved(b' ');
    add_message(text, sent(over));
    text.push_reserved(b' ');
}

/// Adds line, stamp, tester and kind, each before a space, where there is room.
#[inline(always)]
fn add_head(text: &mut Vec<u8>, last: &mut KeptStamp, name: &[u8], moment: u64, line: u64, kind: u8)
    requires { vec_len text.old + (length name.now + 78) ≤ vec_capacity text.old }
    ensures items { text.new.items ≡ text.old.items ++ (decimal line ++ codes " " ++ stamp_digits moment ++ codes " "
        ++ name.now ++ codes " " ++ kind ∷ codes " ") }
    ensures len { vec_len text.new ≤ vec_len text.old + (length name.now + 78) }
    ensures capacity { vec_capacity text.new ≡ vec_capacity text.old }
{
    add_decimal(text, line);
    text.push_reserved(b' ');
    add_stamp(text, last, moment);
    text.push_reserved(b' ');
    add_bytes(text, name);
    add_bytes(text, &[b' ', kind, b' ']);
}

/// Adds the time until the answer, and how often response pending came, each behind a space, and ends the line, where there
/// is room.
#[inline(always)]
fn add_numbers(text: &mut Vec<u8>, over: &Over)
    requires { vec_len text.old + 48 ≤ vec_capacity text.old }
    ensures items { text.new.items ≡ text.old.items
        ++ (codes " " ++ time_text (waited over.now) ++ codes " " ++ decimal (pendings_told over.now) ++ codes "\n") }
    ensures len { vec_len text.new ≤ vec_len text.old + 48 }
    ensures capacity { vec_capacity text.new ≡ vec_capacity text.old }
{
    text.push_reserved(b' ');
    add_time(text, over.waited());
    text.push_reserved(b' ');
    add_decimal(text, pendings(over));
    text.push_reserved(b'\n');
}

/// Adds the time until the answer, where there is one, and where there is room.
#[inline(always)]
fn add_time(text: &mut Vec<u8>, waited: Option<u64>)
    requires { vec_len text.old + 20 ≤ vec_capacity text.old }
    ensures items { text.new.items ≡ text.old.items ++ time_text waited }
    ensures len { vec_len text.new ≤ vec_len text.old + 20 }
    ensures capacity { vec_capacity text.new ≡ vec_capacity text.old }
{
    match waited {
        Some(ms) => add_decimal(text, ms),
        None => text.push_reserved(b'-'),
    }
}

/// The line that an exchange is told by: the request's, or that of the first frame of a message that none asked.
pub fn capture_line(over: &Over) -> CaptureLine
    ensures { result ≡ capture_line_told over.now }
{
    match over.kind() {
        OverKind::Exchange { request, .. } => request.at,
        OverKind::Unasked(heard) => heard.start.at,
    }
}

fn kind(over: &Over) -> u8
    ensures { result ∷ [] ≡ kind_text over.now }
{
    match over.kind() {
        OverKind::Exchange { request, .. } => { if request.functional { b'F' } else { b'P' } }
        OverKind::Unasked(_) => b'U',
    }
}

fn pendings(over: &Over) -> u64
    ensures { result ≡ pendings_told over.now }
{
    match over.kind() {
        OverKind::Exchange { pendings, .. } => pendings,
        OverKind::Unasked(_) => 0,
    }
}

/// The request; none of a message that no request asked.
fn request(over: &Over) -> Option<&Message>
    ensures { message_text (option_copied result) ≡ request_text over.now }
{
    match over.kind() {
        OverKind::Exchange { request, .. } => Some(&request.bytes),
        OverKind::Unasked(_) => None,
    }
}

/// What the unit sent.
fn sent(over: &Over) -> Option<&Message>
    ensures { message_text (option_copied result) ≡ sent_text over.now }
{
    match over.kind() {
        OverKind::Exchange {
            answer: Some(heard),
            ..
        } => Some(&heard.bytes),
        OverKind::Exchange { answer: None, .. } => None,
        OverKind::Unasked(heard) => Some(&heard.bytes),
    }
}

/// By how many bytes a message is told.
#[inline(always)]
fn count_of(message: Option<&Message>) -> usize
    ensures count { result ≡ length (message_text (option_copied message.entry)) }
    ensures most { result ≤ 131070 }
{
    match message {
        Some(message) => 2 * message.bytes().len(),
        None => 1,
    }
}

/// By how many bytes it is told what was expected.
#[inline(always)]
fn expected_count(over: &Over, same: bool) -> usize
    ensures count { result ≡ length (expected_text same over.now) }
    ensures most { result ≤ 131070 }
{
    match over.kind() {
        OverKind::Exchange { request, .. } if !same && !request.expected.ignored => {
            count_of(request.expected.reply.as_ref())
        }
        _ => 1,
    }
}

/// Adds a message, where there is one, and where there is room.
#[inline(always)]
fn add_message(text: &mut Vec<u8>, message: Option<&Message>)
    requires { vec_len text.old + length (message_text (option_copied message)) ≤ vec_capacity text.old }
    ensures items { text.new.items ≡ text.old.items ++ message_text (option_copied message.entry) }
    ensures len { vec_len text.new ≡ vec_len text.old + length (message_text (option_copied message.entry)) }
    ensures capacity { vec_capacity text.new ≡ vec_capacity text.old }
{
    match message {
        Some(message) => add_hex(text, message.bytes()),
        None => text.push_reserved(b'-'),
    }
}

/// Adds what was expected, where there is room.
#[inline(always)]
fn add_expected(text: &mut Vec<u8>, over: &Over, same: bool)
    requires { vec_len text.old + length (expected_text same over.now) ≤ vec_capacity text.old }
    ensures items { text.new.items ≡ text.old.items ++ expected_text same over.now }
    ensures len { vec_len text.new ≡ vec_len text.old + length (expected_text same over.now) }
    ensures capacity { vec_capacity text.new ≡ vec_capacity text.old }
{
    match over.kind() {
        OverKind::Exchange { request, .. } => {
            if request.expected.ignored {
                return text.push_reserved(b'~');
            }
            if same {
                return text.push_reserved(b'=');
            }
            // (what a call borrows lies in memory)
            let alloc = *text.allocator();
            let mut line = mem::replace(text, Vec::new(alloc));
            add_reply(&mut line, &request.expected);
            *text = line;
        }
        OverKind::Unasked(_) => text.push_reserved(b'-'),
    }
}

/// Adds the server's reply, where there is one, and where there is room.
#[inline(never)]
fn add_reply(text: &mut Vec<u8>, expected: &Expected)
    requires { vec_len text.old + length (reply_text (marks expected.now.varies) expected.now.reply) ≤ vec_capacity text.old }
    ensures items { text.new.items ≡ text.old.items
        ++ reply_text (marks expected.now.varies) expected.now.reply }
    ensures len { vec_len text.new ≡ vec_len text.old + length (reply_text (marks expected.now.varies) expected.now.reply) }
    ensures capacity { vec_capacity text.new ≡ vec_capacity text.old }
{
    let Some(reply) = &expected.reply else {
        return text.push_reserved(b'-');
    };
    match &expected.varies {
        Some(marks) => add_marked(text, marks.bytes(), reply.bytes()),
        None => add_hex(text, reply.bytes()),
    }
}

/// Adds bytes beside their marks, where there is room.
fn add_marked(text: &mut Vec<u8>, marks: &[u8], bytes: &[u8])
    requires { vec_len text.old + 2 * length bytes.now ≤ vec_capacity text.old }
    ensures items { text.new.items ≡ text.old.items ++ bytes_text marks.now bytes.now }
    ensures len { vec_len text.new ≡ vec_len text.old + 2 * length bytes.now }
    ensures capacity { vec_capacity text.new ≡ vec_capacity text.old }
{
    let count = marks.len().min(bytes.len());
    for at in 0..count {
        add_byte(text, marks[at], bytes[at]);
    }
    add_hex(text, &bytes[count..]);
}

/// Adds a byte, or that it is left open, where there is room.
fn add_byte(text: &mut Vec<u8>, mark: u8, byte: u8)
    requires { vec_len text.old + 2 ≤ vec_capacity text.old }
    ensures items { text.new.items ≡ text.old.items ++ byte_text mark byte }
    ensures len { vec_len text.new ≡ vec_len text.old + 2 }
    ensures capacity { vec_capacity text.new ≡ vec_capacity text.old }
{
    if mark == 2 {
        add_bytes(text, b"??");
    } else {
        add_bytes(text, &hex_digits(byte));
    }
}

/// Adds a moment, where there is room: seconds with ten digits, and microseconds with six.
#[inline(always)]
fn add_stamp(text: &mut Vec<u8>, last: &mut KeptStamp, at: u64)
    requires { vec_len text.old + 44 ≤ vec_capacity text.old }
    ensures items { text.new.items ≡ text.old.items ++ stamp_digits at }
    ensures len { vec_len text.new ≤ vec_len text.old + 44 }
    ensures capacity { vec_capacity text.new ≡ vec_capacity text.old }
{
    if last.set(at) {
        last.add_digits(text);
    } else {
        add_late_digits(text, at);
    }
}
