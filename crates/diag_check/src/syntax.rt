//! What is wrong with a text that is no TOML.

use crate::finding::{Finding, MOST_SHOWN, is_hex, is_plain};
use crate::keys::{KEYS, Kind, Table};
use crate::places::{open_since, path_of};
use diag_config::ConfigFault;
use std::alloc::{AllocError, Global};
use std::fmt;
use std::fmt::InlineText;
use toml::de::Error;

/// The fault of a text that `toml` refuses: where, what `toml` says, and what helps. A byte order mark at its beginning is no
/// column.
pub fn slip(alloc: Global, text: &str, error: &Error) -> Result<Finding, AllocError> {
    let told = format!(in alloc; "{error}")?;
    let (at, message) = told.as_str().split_once('\n').unwrap_or(("", ""));
    let at = at.strip_prefix("TOML parse error at line ").unwrap_or(at);
    let (line, column) = at.split_once(", column ").unwrap_or(("", ""));
    let line = number(line);
    let unmarked = text.strip_prefix('\u{FEFF}').unwrap_or(text);
    let mark = text.len().saturating_sub(unmarked.len());
    let before = usize::from(mark > 0 && line == Some(1));
    let column = number(column).unwrap_or(1).saturating_sub(before).max(1);
    let message = message.trim_end();
    let hint = Hint::of(unmarked, start_of(error).saturating_sub(mark), message);
    let place = format!(in alloc; "column {column}: {message}{hint}")?;
    Ok(Finding {
        fault: ConfigFault::Syntax,
        line,
        place,
    })
}

/// Where in the text an error is.
fn start_of(error: &Error) -> usize {
    match error.span() {
        Some(span) => span.start,
        None => 0,
    }
}

fn number(text: &str) -> Option<usize> {
    match text.parse::<usize>() {
        Ok(number) => Some(number),
        Err(_) => None,
    }
}

/// What helps where a text is no TOML.
#[derive(Clone, Copy)]
enum Hint<'a> {
    Recording,
    Journal,
    Json,
    Xml,
    Yaml,
    /// A comment that doesn't begin with #.
    Comment,
    /// Quotes that aren't those of TOML.
    Quotes,
    /// More than a comment behind a value.
    Behind,
    /// A CR where no LF follows.
    LineEnd,
    /// A key that stands twice in the table of this list; of the whole unit its path is empty.
    Twice(&'static str),
    /// A list or a table that begins on this line, from 1, and is still open.
    Open(usize),
    /// What a key wants, and what stands behind it.
    Value(Kind, &'a str),
    Nothing,
}

impl<'a> Hint<'a> {
    /// What helps with a text that is no TOML from this byte on, of which `toml` says so.
    fn of(text: &'a str, start: usize, message: &str) -> Hint<'a> {
        let (before, behind) = text.split_at_checked(start).unwrap_or((text, ""));
        let (above, head) = before.rsplit_once('\n').unwrap_or(("", before));
        let line = line_behind(text, before.len().saturating_sub(head.len()));
        match other_format(text, line) {
            Some(hint) => hint,
            None if begins_with_cr_alone(behind) => Hint::LineEnd,
            None => in_line(above, head, line, message),
        }
    }
}

/// Whether a text begins with a CR that no LF follows.
fn begins_with_cr_alone(text: &str) -> bool {
    text.starts_with('\r') && !text.starts_with("\r\n")
}

/// What a text is that isn't TOML as a whole; `line` is the first that isn't.
fn other_format<'a>(text: &str, line: &str) -> Option<Hint<'a>> {
    if is_recording(text) {
        Some(Hint::Recording)
    } else if text.starts_with("diag-journal ") {
        Some(Hint::Journal)
    } else if text.trim_start().starts_with('{') {
        Some(Hint::Json)
    } else if text.trim_start().starts_with('<') {
        Some(Hint::Xml)
    } else if text.starts_with("---") || is_yaml(line) {
        Some(Hint::Yaml)
    } else {
        None
    }
}

/// What helps with a line that is no TOML from behind its head on, below this text.
fn in_line<'a>(above: &str, head: &str, line: &'a str, message: &str) -> Hint<'a> {
    let (said, _) = line.split_once('#').unwrap_or((line, ""));
    if line.trim_start().starts_with("//") || line.trim_start().starts_with(';') {
        Hint::Comment
    } else if said.contains(CURLY) {
        Hint::Quotes
    } else if message.starts_with("duplicate key") {
        Hint::Twice(open_table(above).map_or("", |table| table.path()))
    } else if !head.contains('=') {
        match open_since(above) {
            Some(line) if is_no_item(said) => Hint::Open(line),
            _ => Hint::Nothing,
        }
    } else if message.starts_with("unexpected key or value") {
        Hint::Behind
    } else {
        value_hint(above, line)
    }
}

/// Whether a line has nothing, begins with a key, or is the head of a table, and so is no item of a list.
fn is_no_item(said: &str) -> bool {
    let has_key = match said.split_once('=') {
        Some((name, _)) => name.split('.').all(|part| is_plain(part.trim())),
        None => false,
    };
    let head = said.trim().strip_prefix('[').unwrap_or("");
    said.trim().is_empty() || has_key || Table::of(path_of(head)).is_some()
}

/// The quotes that a word processor makes.
const CURLY: [char; 6] = [
    '\u{2018}', '\u{2019}', '\u{201A}', '\u{201C}', '\u{201D}', '\u{201E}',
];

/// Whether a text begins as a recording of `candump -L` does.
fn is_recording(text: &str) -> bool {
    text.starts_with('(') || text.starts_with("tick")
}

/// Whether a line is a key, a colon, and maybe a value behind a space.
fn is_yaml(line: &str) -> bool {
    let line = line.trim();
    let (name, value) = line
        .strip_prefix("- ")
        .unwrap_or(line)
        .split_once(':')
        .unwrap_or(("", ""));
    is_plain(name) && (value.is_empty() || value.starts_with(' '))
}

/// The line of a text that begins at this byte.
fn line_behind(text: &str, start: usize) -> &str {
    let (_, line) = text.split_at_checked(start).unwrap_or(("", ""));
    line.split_once('\n').map_or(line, |(line, _)| line)
}

/// What helps where the value on a line can't be read: a known key of the table that is open there stands before it.
fn value_hint<'a>(above: &str, line: &'a str) -> Hint<'a> {
    let (name, rest) = line.split_once('=').unwrap_or(("", ""));
    let (value, _) = rest.split_once('#').unwrap_or((rest, ""));
    let value = value.trim();
    let table = open_table(above);
    let name = name.trim();
    match KEYS
        .iter()
        .find(|key| Some(key.table) == table && key.name == name)
    {
        Some(key) if stands_bare(value) => Hint::Value(key.kind, value),
        _ => Hint::Nothing,
    }
}

/// The table whose keys stand behind a text; none where it isn't one of a setup.
fn open_table(text: &str) -> Option<Table> {
    let mut table = Some(Table::Unit);
    for line in text.split('\n') {
        if let Some(head) = line.trim_start().strip_prefix('[') {
            table = Table::of(path_of(head));
        }
    }
    table
}

/// Whether a value begins neither as a text nor as a list or a table.
fn stands_bare(value: &str) -> bool {
    !value.is_empty() && !value.starts_with(['"', '\'', '[', '{'])
}

impl fmt::Display for Hint<'_> {
    fn fmt<W: fmt::Write>(&self, f: &mut fmt::Formatter<W>) -> fmt::Result {
        match self {
            Hint::Recording => write!(f, "; this is a recording, and no setup"),
            Hint::Journal => write!(f, "; this is a journal, and no setup"),
            Hint::Json => write!(f, "; this is JSON: {IS_TOML}"),
            Hint::Xml => write!(f, "; this is XML: {IS_TOML}"),
            Hint::Yaml => write!(f, "; this is YAML: {IS_TOML}"),
            Hint::Comment => write!(f, "; a comment begins with #"),
            Hint::Quotes => write!(f, "; quotes are \" or ', and not those of a word processor"),
            Hint::Behind => write!(
                f,
                "; behind a value stands nothing but a comment, which begins with #"
            ),
            Hint::LineEnd => write!(f, "; a line ends with LF or CR LF, and not with CR alone"),
            Hint::Twice("") => write!(f, "; it stands above, too"),
            Hint::Twice(path) => write!(
                f,
                "; it stands above, too: [[{path}]] begins the next one"
            ),
            Hint::Open(line) => write!(
                f,
                "; the list or table that begins on line {line} is still open"
            ),
            Hint::Value(kind, value) => write_wanted(f, *kind, value),
            Hint::Nothing => Ok(()),
        }
    }
}

/// What a setup is instead.
const IS_TOML: &str =
    "a setup is TOML, with KEY = VALUE, and [[tester]] above the keys of each tester";

/// What a key of this kind wants, where what stands behind it is no value of TOML.
fn write_wanted<W: fmt::Write>(f: &mut fmt::Formatter<W>, kind: Kind, value: &str) -> fmt::Result {
    match kind {
        Kind::Truth => write!(f, "; true or false"),
        Kind::Bytes(..) | Kind::Seed => {
            write!(f, "; bytes stand in quotes")?;
            write_bytes(f, value)
        }
        Kind::Name => write!(f, "; a text stands in quotes"),
        Kind::Pattern => write!(f, "; a pattern stands in quotes"),
        Kind::Templates | Kind::Patterns => {
            write!(
                f,
                "; a list stands between [ and ], and its items in quotes"
            )
        }
        Kind::Rows(..) => Ok(()),
        _ => {
            write!(
                f,
                "; a number in hex begins with 0x, and one in decimal has no 0 before it"
            )
        }
    }
}

/// How bytes stand in quotes that stand there without.
fn write_bytes<W: fmt::Write>(f: &mut fmt::Formatter<W>, value: &str) -> fmt::Result {
    let digits = value.bytes().filter(|c| *c != b' ').count();
    if digits % 2 == 1 || value.len() > MOST_SHOWN || !value.split(' ').all(is_hex) {
        return write!(f, ", two hex digits each");
    }
    write!(f, ": \"")?;
    for part in value.split(' ') {
        f.write_str(part)?;
    }
    write!(f, "\"")
}
