//! What is found, and how it is told.

ghost use Rattle.std.specs.Prelude.{Some};
ghost use Rattle.diag_check.specs.Report.{finding_text, line_text};

use crate::keys::{Kind, MOST_CODE, Table};
use crate::value::{is_spaced_pattern, may_be_meant};
use diag_config::ConfigFault;
use std::alloc::{AllocError, Global};
use std::fmt;
use std::fmt::InlineText;
use toml::Value;

/// The line of a setup that is told first, where it is known.
#[derive(Clone, Copy)]
struct Line(Option<usize>);

impl fmt::Display for Line {
    ghost output = { λ line. Some (line_text line.0) };

    fn fmt<W: fmt::Write>(&self, f: &mut fmt::Formatter<W>) -> fmt::Result {
        match self.0 {
            Some(line) => write!(f, "line {line}: "),
            None => Ok(()),
        }
    }
}

/// A fault of a setup, and where it is.
#[derive(Drop)]
pub struct Finding {
    /// The fault, as a run tells it.
    pub fault: ConfigFault,
    /// The line of the setup, from 1, where it is known.
    pub line: Option<usize>,
    /// Which key of which row, what stands there, and what is allowed.
    pub place: String,
}

impl Finding {
    /// It, as no fault.
    pub fn remark(&self, alloc: Global) -> Result<Remark, AllocError> {
        let fault = self.fault;
        let place = self.place.as_str();
        Ok(Remark {
            line: self.line,
            text: format!(in alloc; "{fault}: {place}")?,
        })
    }
}

impl fmt::Display for Finding {
    ghost output = { λ finding. Some (finding_text finding) };

    fn fmt<W: fmt::Write>(&self, f: &mut fmt::Formatter<W>) -> fmt::Result {
        let line = Line(self.line);
        let fault = self.fault;
        let place = self.place.as_str();
        write!(f, "{line}{fault}: {place}")
    }
}

/// What is told of a setup that is no fault of it.
#[derive(Drop)]
pub struct Remark {
    /// The line of the setup, from 1, where it is known.
    pub line: Option<usize>,
    pub text: String,
}

impl fmt::Display for Remark {
    fn fmt<W: fmt::Write>(&self, f: &mut fmt::Formatter<W>) -> fmt::Result {
        let line = Line(self.line);
        let text = self.text.as_str();
        write!(f, "{line}{text}")
    }
}

/// A table of the setup, by its list and its number there, from 1.
#[derive(Clone, Copy)]
pub struct Row {
    pub table: Table,
    pub number: usize,
    /// Of a seed with its key: the number of its level.
    pub level: usize,
}

impl Row {
    /// The whole unit.
    pub const UNIT: Row = Row {
        table: Table::Unit,
        number: 0,
        level: 0,
    };

    /// The table of this number of a list of the unit.
    pub fn of(table: Table, number: usize) -> Row {
        Row {
            table,
            number,
            level: 0,
        }
    }

    /// A key of it.
    pub fn key(self, name: &str) -> Spot<'_> {
        Spot {
            row: self,
            name: Some(name),
        }
    }

    /// The table as a whole.
    pub fn whole(self) -> Spot<'static> {
        Spot {
            row: self,
            name: None,
        }
    }
}

/// What of a setup something is told of: a table, or one of its keys.
#[derive(Clone, Copy)]
pub struct Spot<'a> {
    pub row: Row,
    pub name: Option<&'a str>,
}

/// As it stands behind the name of a key.
impl fmt::Display for Row {
    fn fmt<W: fmt::Write>(&self, f: &mut fmt::Formatter<W>) -> fmt::Result {
        let path = self.table.path();
        let number = self.number;
        let level = self.level;
        match self.table {
            Table::Unit => Ok(()),
            Table::LevelRow => write!(f, " of [[{path}]] {number} of [[level]] {level}"),
            _ => write!(f, " of [[{path}]] {number}"),
        }
    }
}

/// The most bytes of a value, or of a key, that are told.
pub const MOST_SHOWN: usize = 60;

/// A value as it is told: on one line, and not all of a long one.
#[derive(Drop)]
pub struct Shown<'a>(pub &'a Value);

impl fmt::Display for Shown<'_> {
    fn fmt<W: fmt::Write>(&self, f: &mut fmt::Formatter<W>) -> fmt::Result {
        match self.0 {
            Value::Integer(n) if *n > 9 => write!(f, "{n} (0x{n:X})"),
            Value::String(text) => {
                let text = InlineText::<MOST_SHOWN>::of(text.as_str());
                let start = text.as_str();
                write!(f, "{start:?}")
            }
            Value::Array(items) => {
                let count = items.len();
                write!(f, "a list of {count}")
            }
            Value::Table(_) => write!(f, "a table"),
            value => write!(f, "{value}"),
        }
    }
}

/// How a value of another kind may be meant; nothing where there is no guess.
#[derive(Drop)]
pub struct Meant<'a>(pub Kind, pub &'a Value);

impl fmt::Display for Meant<'_> {
    fn fmt<W: fmt::Write>(&self, f: &mut fmt::Formatter<W>) -> fmt::Result {
        match (self.0, self.1) {
            (Kind::Rows(table, _), Value::Table(_)) => {
                let path = table.path();
                write!(f, "; [[{path}]] begins each of them")
            }
            (kind, Value::Float(_)) if kind.is_number() => {
                write!(f, "; a number in hex begins with 0x")
            }
            (kind, Value::String(text)) => write_meant(f, kind, text.as_str()),
            _ => Ok(()),
        }
    }
}

/// How a text may be meant that stands where a value of this kind belongs.
fn write_meant<W: fmt::Write>(f: &mut fmt::Formatter<W>, kind: Kind, text: &str) -> fmt::Result {
    if text.is_empty() || text.len() > MOST_SHOWN {
        return Ok(());
    }
    match kind {
        Kind::Bytes(..) | Kind::Seed => write_meant_bytes(f, kind, text),
        Kind::Pattern if is_spaced_pattern(text) => {
            write!(f, "; ")?;
            write_digits(f, text)?;
            write!(f, "?")
        }
        Kind::Templates | Kind::Patterns => write!(f, "; a list stands between [ and ]"),
        _ if kind.is_number() => match code_of(kind, text) {
            Some(code) => write!(f, "; 0x{code:06X}, without quotes?"),
            None => write_number(f, kind, text),
        },
        _ => Ok(()),
    }
}

/// How a text may be meant that stands where bytes belong.
fn write_meant_bytes<W: fmt::Write>(
    f: &mut fmt::Formatter<W>,
    kind: Kind,
    text: &str,
) -> fmt::Result {
    let digits = digits_of(text);
    if text.split(' ').all(is_pairs) {
        write!(f, "; ")?;
        write_digits(f, text)?;
        write!(f, "?")
    } else if !digits.is_empty() && is_hex(digits) {
        write!(f, "; hex digits come in pairs: is one missing?")
    } else if let Kind::Bytes(..) = kind {
        write_letters(f, text)
    } else {
        Ok(())
    }
}

/// A text without the `0x` before it.
pub fn digits_of(text: &str) -> &str {
    text.strip_prefix("0x").unwrap_or(text)
}

/// Whether a text is pairs of hex digits, with or without `0x` before them.
fn is_pairs(text: &str) -> bool {
    let digits = digits_of(text);
    !digits.is_empty() && digits.len() % 2 == 0 && is_hex(digits)
}

/// Whether a text is hex digits alone.
pub fn is_hex(text: &str) -> bool {
    text.bytes().all(|c| c.is_ascii_hexdigit())
}

/// The digits of a text's parts, with no space between them.
fn write_digits<W: fmt::Write>(f: &mut fmt::Formatter<W>, text: &str) -> fmt::Result {
    for part in text.split(' ') {
        f.write_str(digits_of(part))?;
    }
    Ok(())
}

/// The bytes of a text in hex.
fn write_letters<W: fmt::Write>(f: &mut fmt::Formatter<W>, text: &str) -> fmt::Result {
    write!(f, "; the letters of this text are ")?;
    for byte in text.as_bytes() {
        write!(f, "{byte:02X}")?;
    }
    Ok(())
}

/// The number of a DTC that stands by its name (ISO 15031-6), with the failure type 00.
fn code_of(kind: Kind, text: &str) -> Option<u32> {
    let can_be_code = matches!(kind, Kind::Identifier(MOST_CODE) | Kind::KnownCode);
    let (group, digits) = match text.split_at_checked(1) {
        Some(("P", digits)) => (0, digits),
        Some(("C", digits)) => (1, digits),
        Some(("B", digits)) => (2, digits),
        Some(("U", digits)) => (3, digits),
        _ => return None,
    };
    if !can_be_code || digits.len() != 4 || !is_hex(digits) {
        return None;
    }
    let number = u32::from_str_radix(digits, 16).ok()?;
    (number <= 0x3FFF).then_some((group << 22) | (number << 8))
}

/// A number that stands in quotes: in hex where its kind is usually so or its text is no decimal number, else in decimal.
/// A number that its key may not hold is not told.
fn write_number<W: fmt::Write>(f: &mut fmt::Formatter<W>, kind: Kind, text: &str) -> fmt::Result {
    let digits = digits_of(text);
    if !is_hex(digits) {
        return Ok(());
    }
    let hex = u32::from_str_radix(digits, 16).ok();
    let decimal = u32::from_str_radix(text, 10).ok();
    let is_in_hex = kind.is_in_hex() || decimal.is_none();
    if is_in_hex && hex.is_some_and(|n| may_be_meant(kind, n)) {
        return write!(f, "; 0x{digits}, without quotes?");
    }
    match decimal {
        Some(n) if may_be_meant(kind, n) => write!(f, "; {n}, without quotes?"),
        _ => Ok(()),
    }
}

/// A key as it is told.
#[derive(Drop)]
pub struct ShownKey<'a>(pub &'a str);

impl fmt::Display for ShownKey<'_> {
    fn fmt<W: fmt::Write>(&self, f: &mut fmt::Formatter<W>) -> fmt::Result {
        let is_plain = is_plain(self.0);
        let name = InlineText::<MOST_SHOWN>::of(self.0);
        let name = name.as_str();
        if is_plain {
            f.write_str(name)
        } else {
            write!(f, "{name:?}")
        }
    }
}

/// Whether a key may stand without quotes.
pub fn is_plain(name: &str) -> bool {
    !name.is_empty()
        && name
            .as_bytes()
            .iter()
            .all(|c| c.is_ascii_alphanumeric() || *c == b'_' || *c == b'-')
}
