//! What a line looks like that isn't one of `candump -L`.

use crate::form::{has_form, interface_and_frame, is_beginning, is_digits, is_hex};
use crate::line::FoundLine;

/// What a file is by its first bytes, where it is none of lines of ASCII, and what helps.
pub fn file_kind(first: &[u8]) -> Option<&'static str> {
    recorder_kind(first).or(packed_kind(first)).or(match first {
        [0xFF, 0xFE, ..] | [0xFE, 0xFF, ..] | [_, 0, _, 0, ..] | [0, _, 0, _, ..] => {
            Some("UTF-16: save it as ASCII")
        }
        _ => None,
    })
}

/// What a recording of other tools is whose first bytes are no text.
fn recorder_kind(first: &[u8]) -> Option<&'static str> {
    match first {
        [b'L', b'O', b'G', b'G', ..] => {
            Some("BLF: convert it with can_logconvert of python-can")
        }
        [0x0A, 0x0D, 0x0D, 0x0A, ..]
        | [0xD4, 0xC3, 0xB2, 0xA1, ..]
        | [0xA1, 0xB2, 0xC3, 0xD4, ..]
        | [0x4D, 0x3C, 0xB2, 0xA1, ..]
        | [0xA1, 0xB2, 0x3C, 0x4D, ..] => Some(
            "a capture of Wireshark: convert it with tshark and awk, as docs/USE.md shows, or record with candump -L",
        ),
        [b'M', b'D', b'F', b' ', ..] => {
            Some("MDF: export it as ASC, which asc2log of can-utils converts")
        }
        [b'S', b'Q', b'L', b'i', b't', b'e', b' ', ..] => {
            Some("a data base, as python-can writes one: convert it with can_logconvert")
        }
        _ => None,
    }
}

/// What packed a file.
fn packed_kind(first: &[u8]) -> Option<&'static str> {
    match first {
        [0x1F, 0x8B, ..] => Some(
            "packed by gzip: unpack it, or pipe what zcat writes into bus, verify or compare",
        ),
        [0xFD, b'7', b'z', b'X', b'Z', 0, ..] => Some(
            "packed by xz: unpack it, or pipe what xzcat writes into bus, verify or compare",
        ),
        [0x28, 0xB5, 0x2F, 0xFD, ..] => Some(
            "packed by zstd: unpack it, or pipe what zstdcat writes into bus, verify or compare",
        ),
        [b'B', b'Z', b'h', b'1'..=b'9', ..] => Some(
            "packed by bzip2: unpack it, or pipe what bzcat writes into bus, verify or compare",
        ),
        [b'P', b'K', 3, 4, ..] => Some("packed by zip: unpack it"),
        _ => None,
    }
}

/// What is told of a line of a capture that has more bytes than it may have.
pub const TOO_LONG: &str =
    "it has more than 4096 bytes, which no line of a capture may have: does each line end with LF?";

/// What a line of a log or of a capture looks like, and what helps. `is_recorded` says that other lines of its file are those
/// of a recording.
pub fn looks(line: &FoundLine, is_recorded: bool) -> &'static str {
    let bytes = line.bytes.as_slice();
    let text = std::str::from_utf8(bytes).unwrap_or("");
    if bytes.starts_with(&[0xEF, 0xBB, 0xBF]) {
        "it begins with a byte order mark: save the recording without one"
    } else if !line.is_ended && line.length == bytes.len() && is_beginning(text) {
        "it is the last line and has no end: was the recording cut off?"
    } else if is_comment(text, is_recorded) {
        "it is a comment, of which a recording has none: a line has the form (1.000000) can0 7E0#021003, as candump -L writes it"
    } else {
        by_text(text)
    }
}

/// Whether a line is no more than a text for a reader. One that begins with # may be that of a setup.
fn is_comment(line: &str, is_recorded: bool) -> bool {
    line.starts_with(';') && !line.starts_with(";$") || is_recorded && line.starts_with('#')
}

fn by_text(line: &str) -> &'static str {
    let text = line.trim_start();
    if line.starts_with("tick") {
        "a tick line is tick, or tick and a number from 1 to 60000 behind one space"
    } else if is_screen(line) {
        "it is what candump shows on the screen: record with candump -L, which has the form (1.000000) can0 7E0#021003"
    } else if is_journal(line) {
        "it is a journal: uds_play replay CONFIG JOURNAL takes one"
    } else if is_compared(line) {
        "it is what compare writes: the recording itself is wanted"
    } else if is_printed(line) {
        "it is what python-can prints, on the screen or into a .txt, and can't read again: record with can_logger -f bus.log"
    } else if is_asc(line) {
        "it is ASC: convert it with asc2log of can-utils"
    } else if line.starts_with(";$") {
        "it is TRC: convert it with can_logconvert of python-can"
    } else if is_setup(line) {
        "it is no frame, but as a line of a setup: the setup comes first, then the recording"
    } else if text.starts_with('(') {
        in_its_form(line)
    } else if text.starts_with('{') || text.starts_with("[{") {
        "it is JSON: a line has the form (1.000000) can0 7E0#021003, as candump -L writes it"
    } else if line.contains(',') || line.contains(';') {
        "it is CSV: a line has the form (1.000000) can0 7E0#021003, as candump -L writes it"
    } else {
        "a line has the form (1.000000) can0 7E0#021003, as candump -L writes it"
    }
}

/// What is wrong with a line that begins as `candump -L` writes one.
fn in_its_form(line: &str) -> &'static str {
    let (stamp, rest) = line.split_once(')').unwrap_or((line, ""));
    if rest.contains('[') {
        "it is what candump shows on the screen: record with candump -L, which has the form (1.000000) can0 7E0#021003"
    } else if line.starts_with(' ') {
        "a line begins with its stamp, and not with a space"
    } else if stamp.contains(',') {
        "its stamp has a comma: seconds, a point and 6 to 9 digits"
    } else if !has_form(stamp.strip_prefix('(').unwrap_or("")) {
        "its stamp isn't 1 to 12 digits, a point and 6 to 9 digits"
    } else {
        behind_stamp(rest)
    }
}

/// What is wrong behind the stamp of a line.
fn behind_stamp(rest: &str) -> &'static str {
    let Some((before, _)) = rest.split_once('#') else {
        return "it has no identifier and #, as 7E0#021003";
    };
    if rest.contains('\t') {
        "its parts stand apart by a tab, where a space is wanted"
    } else if before.ends_with(' ') {
        "a space stands before #: the identifier and # stand together, as in 7E0#021003"
    } else if !rest.starts_with(' ') {
        "behind its stamp a space is wanted, as in (1.000000) can0 7E0#021003"
    } else {
        match interface_and_frame(rest) {
            Some((_, frame)) if frame.contains('#') => in_frame(frame),
            _ => {
                "it has no interface: its name stands before the identifier, as in (1.000000) can0 7E0#021003"
            }
        }
    }
}

/// What is wrong with a frame and what stands behind it.
fn in_frame(frame: &str) -> &'static str {
    let (frame, _) = frame.split_once(' ').unwrap_or((frame, ""));
    let (id, data) = frame.split_once('#').unwrap_or((frame, ""));
    if data.contains("0x") {
        "bytes have no 0x: two hex digits each behind #, as 7E0#021003"
    } else if id.contains("0x") {
        "an identifier has no 0x: 3 hex digits up to 7FF, or 8, as 7E0#021003"
    } else if data.starts_with('#') {
        "behind ## stand a digit of flags and the bytes of a frame of CAN FD, two hex digits each: 0 to 8, 12, 16, 20, 24, 32, 48 or 64"
    } else if has_many_digits(data) {
        "a frame of more than 8 bytes is one of CAN FD: ## and a digit of flags stand before its bytes, as 7E0##1"
    } else {
        "behind # stand 0 to 8 bytes, two hex digits each; an identifier has 3 hex digits up to 7FF, or 8"
    }
}

/// Whether more hex digits stand behind `#` than a classic frame has.
fn has_many_digits(data: &str) -> bool {
    data.bytes().take_while(|c| c.is_ascii_hexdigit()).count() > 16
}

/// Whether a line is an interface, maybe a direction with two flags, an identifier, and a length in brackets.
fn is_screen(line: &str) -> bool {
    let mut words = line.split_ascii_whitespace();
    let (name, second) = (words.next(), words.next());
    let is_directed = second.is_some_and(|word| word == "RX" || word == "TX");
    let id = if is_directed {
        let (_, _) = (words.next(), words.next());
        words.next()
    } else {
        second
    };
    let length = words.next();
    name.is_some() && id.is_some_and(is_hex) && length.is_some_and(is_length)
}

/// Whether a word is digits in brackets.
fn is_length(word: &str) -> bool {
    let digits = word.strip_prefix('[').unwrap_or("").strip_suffix(']');
    digits.is_some_and(|digits| is_digits(digits, 1, 2))
}

fn is_journal(line: &str) -> bool {
    let mut words = line.split_ascii_whitespace();
    let (place, kind) = (words.next(), words.next());
    line.starts_with("diag-journal")
        || (place.is_some_and(|place| is_digits(place, 1, 1))
            && kind.is_some_and(|kind| kind == "P" || kind == "F" || kind == "T"))
}

/// Whether a line begins as one of an exchange: with a line's number and its stamp.
fn is_compared(line: &str) -> bool {
    let mut words = line.split_ascii_whitespace();
    let (number, stamp) = (words.next(), words.next());
    number.is_some_and(|number| is_digits(number, 1, 20)) && stamp.is_some_and(has_form)
}

/// Whether a line is a message as python-can's Printer writes it.
fn is_printed(line: &str) -> bool {
    line.starts_with("Timestamp: ") && line.contains(" ID: ")
}

fn is_asc(line: &str) -> bool {
    line.starts_with("date ")
        || line.starts_with("base ")
        || line.starts_with("Begin Trigger")
        || line.contains(" Rx ")
        || line.contains(" Tx ")
}

/// Whether a line is a key of a setup, or the head of a list.
fn is_setup(line: &str) -> bool {
    line.starts_with("[[") || line.starts_with("# ") || line.contains(" = ")
}

/// What stands where a setup is wanted.
#[derive(Clone, Copy, PartialEq, Eq, Debug)]
pub enum Instead {
    Recording,
    Journal,
}

/// What a file is that is no setup, as far as its first bytes tell.
pub fn instead_of_setup(text: &[u8]) -> Option<Instead> {
    if is_recording(text) || is_other_recording(text) {
        Some(Instead::Recording)
    } else if text.starts_with(b"diag-journal ".as_slice()) {
        Some(Instead::Journal)
    } else {
        None
    }
}

/// Whether a file is a recording in another form than that of `candump -L`, as far as its first bytes tell.
fn is_other_recording(text: &[u8]) -> bool {
    let first = text.split(|c| *c == b'\n').next().unwrap_or(b"");
    recorder_kind(text).is_some()
        || first.starts_with(b"date ".as_slice())
        || first.starts_with(b";$".as_slice())
        || is_line_of_others(std::str::from_utf8(first).unwrap_or(""))
}

/// Whether a line is one that candump shows, or that python-can prints.
fn is_line_of_others(line: &str) -> bool {
    is_screen(line) || is_printed(line)
}

/// Whether the first line of a text that is neither empty nor a comment is one of a recording.
pub fn is_recording(text: &[u8]) -> bool {
    let mut lines = text.split(|c| *c == b'\n');
    let first = lines.find(|line| !matches!(line, [] | [b'\r'] | [b'#' | b';', ..]));
    first.is_some_and(|line| {
        line.starts_with(b"(".as_slice()) || line.starts_with(b"tick".as_slice())
    })
}
