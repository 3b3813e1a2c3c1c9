//! What the server answers at an entry of a journal, for the note behind an entry that differs.

use diag_can::TickCount;
use diag_desk::{Desk, StepFault};
use diag_pdu::{Message, MessageFault, Request, Step};
use diag_setup::{Setup, TesterId};
use std::alloc::{AllocError, Global};
use std::{fmt, str};

/// What the server says to an entry.
#[derive(Drop)]
pub enum Answer {
    /// It answers with this message, or with none.
    Reply(Option<Message>),
    /// It has no such tester.
    NoTester,
}

impl fmt::Display for Answer {
    fn fmt<W: fmt::Write>(&self, f: &mut fmt::Formatter<W>) -> fmt::Result {
        match self {
            Answer::Reply(Some(message)) => {
                write!(f, "the server answers ")?;
                for byte in message.bytes() {
                    write!(f, "{byte:02X}")?;
                }
                Ok(())
            }
            Answer::Reply(None) => write!(f, "the server answers nothing"),
            Answer::NoTester => write!(f, "the setup has no such tester"),
        }
    }
}

/// What the server of a setup answers at the entry of this number, from 1, where it has gone through those before it in
/// the text of a journal. None where the text has no such entry.
///
/// # Errors
/// `Memory` where memory is refused, `JournalFull` behind 1,000,000 entries.
pub fn answer_at(
    alloc: Global,
    setup: &Setup,
    text: &[u8],
    number: u64,
) -> Result<Option<Answer>, StepFault> {
    let mut desk = Desk::new(alloc, setup)?;
    let mut lines = text.split(|c| *c == b'\n');
    let is_stamped = lines
        .next()
        .is_some_and(|header| header.ends_with(b" 2".as_slice()));
    let mut answer = None;
    for _ in 0..number {
        let line = lines.next().unwrap_or(b"");
        let line = str::from_utf8(line).unwrap_or("");
        let Some((who, step)) = entry_of(alloc, line, is_stamped)? else {
            return Ok(None);
        };
        if usize::from(who.number()) > setup.testers() {
            return Ok(Some(Answer::NoTester));
        }
        answer = Some(Answer::Reply(desk.step(who, &step)?));
    }
    Ok(answer)
}

/// The tester and the step of an entry's line.
fn entry_of(
    alloc: Global,
    line: &str,
    is_stamped: bool,
) -> Result<Option<(TesterId, Step)>, AllocError> {
    let mut parts = line.split(' ');
    if is_stamped {
        let _stamp = parts.next();
    }
    let (Some(place), Some(kind), Some(body)) = (parts.next(), parts.next(), parts.next()) else {
        return Ok(None);
    };
    let (Some(who), Some(step)) = (tester_of(place), step_of(alloc, kind, body)?) else {
        return Ok(None);
    };
    Ok(Some((who, step)))
}

fn tester_of(place: &str) -> Option<TesterId> {
    TesterId::new(u8::from_str_radix(place, 10).ok()?)
}

/// The step that an entry's line tells.
fn step_of(alloc: Global, kind: &str, body: &str) -> Result<Option<Step>, AllocError> {
    if kind == "T" {
        let count = u16::from_str_radix(body, 10).ok();
        return Ok(count.and_then(TickCount::new).map(Step::Ticks));
    }
    let message = match message_of(alloc, body) {
        Ok(message) => message,
        Err(MessageFault::Memory) => return Err(AllocError),
        Err(_) => return Ok(None),
    };
    let functional = kind == "F";
    Ok(Some(Step::Request(Request {
        functional,
        message,
    })))
}

/// The message of a text in hex.
fn message_of(alloc: Global, digits: &str) -> Result<Message, MessageFault> {
    let Ok(bytes) = hex::decode(alloc, digits) else {
        return Err(MessageFault::Memory);
    };
    Message::new(alloc, bytes.as_slice())
}
