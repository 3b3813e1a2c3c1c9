//! What the stamps of a recording tell, where its run takes the time of them.

use memchr::memchr;
use std::alloc::{AllocError, Global};

/// The fewest microseconds of a step back that are told as one: lines of several channels may stand in another order.
const LEAST_BACK: u64 = 1_000_000;

/// The fewest microseconds by which a line comes late: time passes in whole milliseconds.
const LEAST_LATE: u64 = 1_000;

/// The fewest microseconds of a step forward that are told.
const LEAST_FORWARD: u64 = 86_400_000_000;

/// A line whose stamp is far from the greatest one before it.
#[derive(Clone, Copy)]
struct Step {
    /// The line's number, from 1.
    line: u64,
    /// By how many microseconds.
    by: u64,
}

impl Step {
    fn seconds(self) -> u64 {
        self.by / 1_000_000
    }

    fn millis(self) -> u64 {
        self.by / 1_000 % 1_000
    }
}

/// What the stamps of a recording tell.
#[derive(Drop)]
pub struct Stamps<'a> {
    /// How many lines were seen.
    lines: u64,
    /// The first line with a stamp.
    first: &'a [u8],
    /// The greatest stamp, in microseconds.
    greatest: Option<u64>,
    /// Whether it is greater than the first one.
    is_passing: bool,
    /// The first step back.
    back: Option<Step>,
    /// Whether that is to the first line again.
    is_again: bool,
    /// The first line that comes late, by less than a step back.
    late: Option<Step>,
    /// How many lines come late.
    late_lines: u64,
    /// The first step forward.
    forward: Option<Step>,
}

impl<'a> Stamps<'a> {
    /// No line.
    pub fn new() -> Stamps<'a> {
        Stamps {
            lines: 0,
            first: b"",
            greatest: None,
            is_passing: false,
            back: None,
            is_again: false,
            late: None,
            late_lines: 0,
            forward: None,
        }
    }

    /// One line more.
    pub fn take(&mut self, line: &'a [u8]) {
        self.lines = self.lines.saturating_add(1);
        let Some(stamp) = stamp_of(line) else {
            return;
        };
        let Some(greatest) = self.greatest else {
            self.first = line;
            self.greatest = Some(stamp);
            return;
        };
        if stamp < greatest {
            self.take_late(line, greatest - stamp);
        } else {
            self.is_passing = self.is_passing || stamp > greatest;
            self.take_forward(stamp - greatest);
            self.greatest = Some(stamp);
        }
    }

    /// A line whose stamp is less than the greatest one, by so many microseconds.
    fn take_late(&mut self, line: &[u8], by: u64) {
        let step = Step {
            line: self.lines,
            by,
        };
        if by >= LEAST_BACK {
            if self.back.is_none() {
                self.back = Some(step);
                self.is_again = line == self.first;
            }
        } else if by >= LEAST_LATE {
            self.late = self.late.or(Some(step));
            self.late_lines = self.late_lines.saturating_add(1);
        }
    }

    /// A line whose stamp is greater than the greatest one, by so many microseconds.
    fn take_forward(&mut self, by: u64) {
        if by >= LEAST_FORWARD && self.forward.is_none() {
            self.forward = Some(Step {
                line: self.lines,
                by,
            });
        }
    }

    /// Whether equal lines are one line: the stamps tell moments apart (those of a live run's record are all 0), and the
    /// recording doesn't begin once more.
    pub fn tell_moments(&self) -> bool {
        self.is_passing && !self.is_again
    }

    /// A line for each thing that a reader should know. Behind a step back all lines come late, so then these aren't told.
    pub fn notes(&self, alloc: Global, notes: &mut Vec<String>) -> Result<(), AllocError> {
        match (self.back, self.late) {
            (Some(back), _) => self.note_back(alloc, back, notes)?,
            (None, Some(late)) => self.note_late(alloc, late, notes)?,
            (None, None) => {}
        }
        match self.forward {
            Some(forward) => note_forward(alloc, forward, notes),
            None => Ok(()),
        }
    }

    /// That the stamps go back, and where the recording begins anew there.
    fn note_back(
        &self,
        alloc: Global,
        back: Step,
        notes: &mut Vec<String>,
    ) -> Result<(), AllocError> {
        let line = back.line;
        let seconds = back.seconds();
        let millis = back.millis();
        notes.push(format!(in alloc;
            "the stamps go back at line {line}, by {seconds}.{millis:03} s: no time passes until they are greater than before"
        )?)?;
        if self.is_again {
            let before = line.saturating_sub(1);
            notes.push(format!(in alloc;
                "at line {line} the recording begins once more: head -n {before} takes it once"
            )?)?;
        }
        Ok(())
    }

    /// That lines come late, and what puts them in order.
    fn note_late(
        &self,
        alloc: Global,
        late: Step,
        notes: &mut Vec<String>,
    ) -> Result<(), AllocError> {
        let line = late.line;
        let count = self.late_lines;
        let seconds = late.seconds();
        let millis = late.millis();
        notes.push(format!(in alloc;
            "lines whose stamps are less than one before: {count}, the first is line {line}, by {seconds}.{millis:03} s; LC_ALL=C sort -s -k1.2,1n sorts them"
        )?)?;
        Ok(())
    }
}

/// That the stamps go forward as no test does.
fn note_forward(alloc: Global, forward: Step, notes: &mut Vec<String>) -> Result<(), AllocError> {
    let line = forward.line;
    let seconds = forward.seconds();
    let millis = forward.millis();
    notes.push(format!(in alloc;
        "the stamps go forward at line {line}, by {seconds}.{millis:03} s, and the unit's time with them: was the clock set?"
    )?)?;
    Ok(())
}

/// A line's stamp in microseconds.
fn stamp_of(line: &[u8]) -> Option<u64> {
    let [b'(', rest @ ..] = line else {
        return None;
    };
    let (stamp, _) = parted(rest, b')')?;
    let (seconds, fraction) = parted(stamp, b'.')?;
    let micros = decimal_number(fraction.get(..6)?)?;
    decimal_number(seconds)?
        .checked_mul(1_000_000)?
        .checked_add(micros)
}

/// What stands before the first such byte, and what behind it.
pub fn parted(text: &[u8], mark: u8) -> Option<(&[u8], &[u8])> {
    let at = memchr(mark, text)?;
    Some((text.get(..at)?, text.get(at.saturating_add(1)..)?))
}

/// The number of decimal digits; none where there is another byte, or the number is too great.
fn decimal_number(digits: &[u8]) -> Option<u64> {
    let mut number: u64 = 0;
    for c in digits {
        let digit = char::from(*c).to_digit(10)?;
        number = number.checked_mul(10)?.checked_add(u64::from(digit))?;
    }
    Some(number)
}
