//! What is wrong with a line of a journal.

use crate::line::FoundLine;

/// The number of the last line that a journal may have: its header, and 1,000,000 entries.
const LAST_LINE: u64 = 1_000_001;

/// What was expected of the journal's line of this number, from 1.
pub fn expected(number: u64, line: &FoundLine) -> &'static str {
    let text = std::str::from_utf8(line.bytes.as_slice()).unwrap_or("");
    if number > LAST_LINE {
        "a journal has at most 1000000 entries"
    } else if text.starts_with('(') {
        "it is a line of a recording: replay takes the journal that bus, serial or play writes with --journal"
    } else if text.ends_with('\r') {
        "it ends with CR LF: a line of a journal ends with LF"
    } else if !line.is_ended {
        "it is the last line and has no end: each line of a journal ends with LF"
    } else if number == 1 {
        "the first line is diag-journal 1 or diag-journal 2"
    } else if text.starts_with("diag-journal ") {
        "another journal begins here: replay takes one"
    } else if !text.starts_with(|c: char| c.is_ascii_digit()) {
        "behind its first line a journal has entries alone: the end of a run isn't part of it"
    } else if text.contains("  ") {
        "one space stands between its parts"
    } else if text.split(' ').any(is_lower) {
        "hex digits are in upper case"
    } else {
        "a line is N P REQ REPLY, N F REQ REPLY or N T COUNT, with the ticks so far before it under diag-journal 2"
    }
}

/// Whether a part of an entry has letters in lower case. (One letter alone is the kind of the entry, and no hex digits.)
fn is_lower(part: &str) -> bool {
    part.len() > 1 && part.bytes().any(|c| c.is_ascii_lowercase())
}
