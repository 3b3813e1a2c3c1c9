//! Texts that give no journal: the line at fault is told, and not that memory is refused.

use crate::trouble::{Trouble, holds};
use diag_desk::{JournalFault, MOST_ENTRIES, read_journal};
use std::alloc::Global;

/// Texts, and the line of each that is the first at fault.
const AT_FAULT: [(&str, usize); 7] = [
    ("", 1),
    ("diag-journal 1", 1),
    ("diag-journal 3\n1 T 1\n", 1),
    ("diag-journal 1\n1 T 1\n1 T 01\n1 T 1\n", 3),
    (
        "diag-journal 1\n1 P 1003 5003003201F4\n1 P 1003 5003003201f4\n",
        3,
    ),
    ("diag-journal 2\n1 1 T 1\n2 1 T 1\n2 1 T 1\n", 4),
    ("diag-journal 1\n1 T 1\n1 T 1", 3),
];

/// Whether this line of a text is told to be the first at fault.
fn is_at_fault(alloc: Global, text: &[u8], line: usize) -> Result<bool, Trouble> {
    match read_journal(alloc, text) {
        Ok(_) => Ok(false),
        Err(JournalFault::Line(number)) => Ok(number == line),
        Err(JournalFault::Memory) => Err(Trouble::Memory),
    }
}

#[test]
fn bad_line_is_told(rt: HostRuntime) -> Result<(), Trouble> {
    for (text, line) in &AT_FAULT {
        holds(is_at_fault(rt.alloc(), text.as_bytes(), *line))?;
    }
    Ok(())
}

/// A line of an entry.
const ENTRY: &[u8] = b"1 T 1\n";

/// The text of one entry more than a journal holds.
fn text_too_long(alloc: Global) -> Result<Vec<u8>, Trouble> {
    let mut thousand = Vec::new(alloc);
    for _ in 0..1000 {
        thousand.extend_from_slice(ENTRY)?;
    }
    let mut text = Vec::from_slice(alloc, b"diag-journal 1\n")?;
    for _ in 0..MOST_ENTRIES / 1000 {
        text.extend_from_slice(thousand.as_slice())?;
    }
    text.extend_from_slice(ENTRY)?;
    Ok(text)
}

/// Whether the line of the entry past the most is the first at fault.
fn one_too_many(alloc: Global) -> Result<bool, Trouble> {
    let text = text_too_long(alloc)?;
    is_at_fault(alloc, text.as_slice(), MOST_ENTRIES + 2)
}

#[test]
fn one_entry_too_many_is_told(rt: HostRuntime) -> Result<(), Trouble> {
    holds(one_too_many(rt.alloc()))
}
