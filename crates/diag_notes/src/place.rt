//! The place that the line of a fault names.

/// Where a fault is.
#[derive(Clone, Copy, PartialEq, Eq, Debug)]
pub enum Place {
    /// In the setup.
    Setup,
    /// In a file that can't be read, by its number: 0 is the setup.
    File(usize),
    /// In a line of a log or of a capture: the file's number and the line's, both from 1.
    Line(usize, u64),
    /// In a line of a journal, from 1.
    JournalLine(u64),
    /// In an entry of a journal, from 1.
    Entry(u64),
    /// In how many files were given.
    Files,
    /// Nowhere in a file.
    Nowhere,
}

impl Place {
    /// The place in the line of a fault, as a run tells it.
    pub fn of(told: &str) -> Place {
        let text = told.strip_prefix("uds_play: ").unwrap_or(told);
        if text.starts_with("config: ") {
            return Place::Setup;
        }
        if text.contains(" files wanted, ") {
            return Place::Files;
        }
        in_file(text)
            .or(in_line(text))
            .or(in_journal(text))
            .unwrap_or(Place::Nowhere)
    }
}

fn in_file(text: &str) -> Option<Place> {
    let file = number(text.strip_prefix("cannot read file ")?)?;
    Some(Place::File(file as usize))
}

fn in_line(text: &str) -> Option<Place> {
    if let Some(line) = text.strip_prefix("capture line ") {
        return Some(Place::Line(1, number(line)?));
    }
    let (file, line) = text.strip_prefix("log ")?.split_once(" line ")?;
    Some(Place::Line(number(file)? as usize, number(line)?))
}

fn in_journal(text: &str) -> Option<Place> {
    if let Some(line) = text.strip_prefix("journal line ") {
        return Some(Place::JournalLine(number(line)?));
    }
    Some(Place::Entry(number(text.strip_prefix("entry ")?)?))
}

/// The number that a text begins with.
fn number(text: &str) -> Option<u64> {
    let mut value = None;
    for c in text.bytes() {
        if !c.is_ascii_digit() {
            break;
        }
        let digit = u64::from(c - b'0');
        value = Some(
            value
                .unwrap_or(0u64)
                .saturating_mul(10)
                .saturating_add(digit),
        );
    }
    value
}
