//! What of a level's rows, or of a row of answers, depends on more than one key.

use crate::finding::{Row, Shown};
use crate::keys::{MOST_STANDARD, Table};
use crate::look::{Look, list_at};
use crate::pairs::{is_extended, number_at};
use crate::value::{greatest_index, pattern_items};
use diag_setup::SetupFault;
use std::alloc::AllocError;
use toml::{Table as Tree, Value};

/// The most templates of a setup.
const MOST_TEMPLATES: usize = 65_536;

/// How often *response pending* comes before an answer at most.
const MOST_PENDINGS: u64 = 255;

impl Look<'_> {
    /// What isn't there: a tester, or the rows of a level.
    pub fn empties(&mut self, tree: &Tree) -> Result<(), AllocError> {
        if is_empty(tree, "tester") {
            let place = String::from_str(self.alloc, "there is no [[tester]]")?;
            self.refuse(SetupFault::Empty, Row::UNIT.key("tester"), place)?;
        }
        for (index, level) in list_at(tree, "level").iter().enumerate() {
            if let Value::Table(level) = level {
                self.empty_level(level, index.saturating_add(1))?;
            }
        }
        Ok(())
    }

    fn empty_level(&mut self, level: &Tree, number: usize) -> Result<(), AllocError> {
        if is_empty(level, "row") {
            let place = format!(in self.alloc; "[[level]] {number} has no [[level.row]]")?;
            let row = Row::of(Table::Level, number);
            self.refuse(SetupFault::Empty, row.whole(), place)?;
        }
        Ok(())
    }

    /// The lengths of a level's seeds, and of its keys.
    pub fn lengths(&mut self, level: &Tree, number: usize) -> Result<(), AllocError> {
        self.lengths_of(level, number, "seed")?;
        self.lengths_of(level, number, "key")
    }

    /// Tells of the first row of a level whose seed or key has another length than the one before it.
    fn lengths_of(&mut self, level: &Tree, number: usize, name: &str) -> Result<(), AllocError> {
        let mut before = None;
        for (index, row) in list_at(level, "row").iter().enumerate() {
            let bytes = bytes_of(row, name);
            if before.is_some() && bytes.is_some() && before != bytes {
                let row = Row {
                    table: Table::LevelRow,
                    number: index.saturating_add(1),
                    level: number,
                };
                let place = format!(in self.alloc;
                    "{name}{row} is longer or shorter than the one before it: all of a level have one length"
                )?;
                return self.refuse(SetupFault::Range, row.key(name), place);
            }
            before = bytes.or(before);
        }
        Ok(())
    }

    /// Tells of a tester's identifiers of 29 bits, where it says 11.
    pub fn own_identifiers(&mut self, tester: &Tree, row: Row) -> Result<(), AllocError> {
        if is_extended(tester) {
            return Ok(());
        }
        for name in ["request", "response", "functional"] {
            match tester.get(name) {
                Some(value) if number_at(tester, name).is_some_and(|id| id > MOST_STANDARD) => {
                    let shown = Shown(value);
                    let place = format!(in self.alloc;
                        "{name}{row} is {shown}: 0 to 0x7FF, or extended = true and 29 bits"
                    )?;
                    self.refuse(SetupFault::Range, row.key(name), place)?;
                }
                _ => {}
            }
        }
        Ok(())
    }

    /// What of a row of answers depends on more than one key. `latest` is the most milliseconds after which an answer
    /// goes.
    pub fn answer(&mut self, answer: &Tree, row: Row, latest: u64) -> Result<(), AllocError> {
        if let Some(enter) = number_at(answer, "enter") {
            if enter > 0 && answer.get("reply").is_none() {
                let place = format!(in self.alloc;
                    "enter{row} is {enter}: it is 0 where there is no reply"
                )?;
                self.refuse(SetupFault::Range, row.key("enter"), place)?;
            }
        }
        if let Some(after_ms) = number_at(answer, "after_ms") {
            if u64::from(after_ms) > latest {
                let place = format!(in self.alloc;
                    "after_ms{row} is {after_ms}: at most p2_ms and {MOST_PENDINGS} times p2_star_10ms, 10 ms each, which is {latest}"
                )?;
                self.refuse(SetupFault::Range, row.key("after_ms"), place)?;
            }
        }
        self.templates(answer, row)
    }

    /// Tells of each template that names a byte beyond its pattern.
    fn templates(&mut self, answer: &Tree, row: Row) -> Result<(), AllocError> {
        let Some(count) = answer.get("request").and_then(pattern_items) else {
            return Ok(());
        };
        for (position, template) in list_at(answer, "reply").iter().enumerate() {
            let index = greatest_index(template);
            if index.is_some_and(|index| index as usize >= count) {
                let number = position.saturating_add(1);
                let shown = Shown(template);
                let place = format!(in self.alloc;
                    "reply{row} has as number {number} {shown}, which names a byte that its pattern of {count} items doesn't have: they count from $0"
                )?;
                self.refuse(SetupFault::Range, row.key("reply"), place)?;
            }
        }
        Ok(())
    }

    /// The templates of all rows of answers.
    pub fn all_templates(&mut self, tree: &Tree) -> Result<(), AllocError> {
        let mut count = 0usize;
        for answer in list_at(tree, "answer") {
            if let Value::Table(answer) = answer {
                count = count.saturating_add(list_at(answer, "reply").len());
            }
        }
        if count > MOST_TEMPLATES {
            let place = format!(in self.alloc;
                "the replies of all [[answer]] are {count} templates: at most {MOST_TEMPLATES}"
            )?;
            self.refuse(SetupFault::Range, Row::UNIT.whole(), place)?;
        }
        Ok(())
    }
}

/// The most milliseconds after which an answer goes, by the times of the unit.
pub fn latest_answer_ms(tree: &Tree) -> u64 {
    let p2_ms = number_at(tree, "p2_ms").unwrap_or(50);
    let p2_star_10ms = number_at(tree, "p2_star_10ms").unwrap_or(500);
    let between_ms = (10 * u64::from(p2_star_10ms)).max(1);
    u64::from(p2_ms) + MOST_PENDINGS * between_ms
}

fn is_empty(tree: &Tree, name: &str) -> bool {
    match tree.get(name) {
        Some(Value::Array(items)) => items.is_empty(),
        Some(_) => false,
        None => true,
    }
}

/// How many bytes the hex text at a key of a row has.
fn bytes_of(row: &Value, name: &str) -> Option<usize> {
    match row {
        Value::Table(row) => match row.get(name) {
            Some(Value::String(text)) => Some(text.len() / 2),
            _ => None,
        },
        _ => None,
    }
}
