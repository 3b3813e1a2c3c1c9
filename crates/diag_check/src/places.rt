//! On which line of a setup's text a table begins, or a key stands.
//!
//! The parser's tree has no places, so the text is looked at by itself. What stands at the beginning of a line counts, where
//! no bracket is open: the head of a table, or a plain key. A table or a key that is written otherwise, as inline, dotted or in
//! quotes, has no line, and in a text with strings of several lines nothing has one: a wrong line is worse than none.

use crate::finding::{Row, Spot, is_plain};
use crate::keys::Table;
use crate::look::list_at;
use std::alloc::{AllocError, Global};
use std::collections::BTreeMap;
use toml::{Table as Tree, Value};

/// What stands behind the head of a table, or before the first one.
#[derive(Drop)]
struct Part {
    /// The line of the head.
    line: usize,
    /// The lines of its plain keys.
    keys: BTreeMap<String, usize>,
    /// Of a level the parts of its rows, in their order.
    rows: Vec<usize>,
}

/// The lines of a text's tables and keys, from 1.
#[derive(Drop)]
pub struct Places {
    alloc: Global,
    /// The unit's own part, then one for each head.
    parts: Vec<Part>,
    /// The parts behind the heads of a path, in their order, but for those of levels' rows.
    heads: BTreeMap<String, Vec<usize>>,
}

impl Places {
    /// The places of a text that is TOML.
    pub fn of(alloc: Global, text: &str) -> Result<Places, AllocError> {
        let mut places = Places {
            alloc,
            parts: Vec::new(alloc),
            heads: BTreeMap::new(alloc),
        };
        places.part(1)?;
        if !has_long_quotes(text) {
            places.read(text.strip_prefix('\u{FEFF}').unwrap_or(text))?;
        }
        Ok(places)
    }

    fn read(&mut self, text: &str) -> Result<(), AllocError> {
        let mut open = 0;
        for (index, line) in text.split('\n').enumerate() {
            if open == 0 {
                self.line(line.trim_start(), index.saturating_add(1))?;
            }
            open = open_behind(open, line);
        }
        Ok(())
    }

    /// Takes the line of a number, without the spaces before it.
    fn line(&mut self, line: &str, number: usize) -> Result<(), AllocError> {
        match line.strip_prefix('[') {
            Some(head) => self.head(path_of(head), number),
            None => self.key(line, number),
        }
    }

    fn key(&mut self, line: &str, number: usize) -> Result<(), AllocError> {
        let (name, _) = line.split_once('=').unwrap_or(("", ""));
        let name = name.trim_end();
        if is_plain(name) {
            let name = String::from_str(self.alloc, name)?;
            if let Some(part) = self.parts.last_mut() {
                part.keys.insert(name, number)?;
            }
        }
        Ok(())
    }

    fn head(&mut self, path: &str, number: usize) -> Result<(), AllocError> {
        let part = self.parts.len();
        self.part(number)?;
        if path == Table::LevelRow.path() {
            self.row(part)
        } else {
            self.table(path, part)
        }
    }

    /// Begins a part at this line.
    fn part(&mut self, line: usize) -> Result<(), AllocError> {
        self.parts.push(Part {
            line,
            keys: BTreeMap::new(self.alloc),
            rows: Vec::new(self.alloc),
        })?;
        Ok(())
    }

    fn row(&mut self, part: usize) -> Result<(), AllocError> {
        let level = match self.heads.get(Table::Level.path()) {
            Some(levels) => levels.last().copied().unwrap_or(0),
            None => 0,
        };
        if let Some(level) = self.parts.get_mut(level) {
            level.rows.push(part)?;
        }
        Ok(())
    }

    fn table(&mut self, path: &str, part: usize) -> Result<(), AllocError> {
        match self.heads.get_mut(path) {
            Some(parts) => parts.push(part)?,
            None => {
                let path = String::from_str(self.alloc, path)?;
                let parts = vec![in self.alloc; part]?;
                self.heads.insert(path, parts)?;
            }
        }
        Ok(())
    }

    /// The line of a spot of the tree that the text makes.
    pub fn of_spot(&self, tree: &Tree, spot: Spot<'_>) -> Option<usize> {
        let is_unit = spot.row.table == Table::Unit;
        let part = self.parts.get(self.number(tree, spot.row)?)?;
        match spot.name {
            None if is_unit => None,
            None => Some(part.line),
            Some(name) => match part.keys.get(name) {
                Some(line) => Some(*line),
                None if is_unit => self.first_head(tree, name),
                None => None,
            },
        }
    }

    /// The number of a table's part.
    fn number(&self, tree: &Tree, row: Row) -> Option<usize> {
        match row.table {
            Table::Unit => Some(0),
            Table::LevelRow => {
                let level = self
                    .parts
                    .get(self.number_in_list(tree, Table::Level, row.level)?)?;
                nth(
                    level.rows.as_slice(),
                    rows_of(tree, row.level).len(),
                    row.number,
                )
            }
            list => self.number_in_list(tree, list, row.number),
        }
    }

    /// The number of the part of a table in a list of the unit.
    fn number_in_list(&self, tree: &Tree, list: Table, number: usize) -> Option<usize> {
        let parts = self.heads.get(list.path())?;
        nth(parts.as_slice(), list_at(tree, list.path()).len(), number)
    }

    /// The line of the first head of this path, where all tables of the unit's key have heads.
    fn first_head(&self, tree: &Tree, name: &str) -> Option<usize> {
        let count = match tree.get(name)? {
            Value::Array(items) => items.len(),
            Value::Table(_) => 1,
            _ => return None,
        };
        let part = nth(self.heads.get(name)?.as_slice(), count, 1)?;
        Some(self.parts.get(part)?.line)
    }
}

/// The part of this number, from 1, where the list has so many tables as heads.
fn nth(parts: &[usize], count: usize, number: usize) -> Option<usize> {
    if parts.len() != count {
        return None;
    }
    parts.get(number.checked_sub(1)?).copied()
}

/// The rows of the level of this number.
fn rows_of(tree: &Tree, level: usize) -> &[Value] {
    let index = level.saturating_sub(1);
    match list_at(tree, Table::Level.path()).get(index) {
        Some(Value::Table(level)) => list_at(level, "row"),
        _ => &[],
    }
}

/// The path in the head of a table or of a list's table, without its first bracket.
pub fn path_of(head: &str) -> &str {
    let head = head.strip_prefix('[').unwrap_or(head);
    head.split_once(']').map_or("", |(path, _)| path)
}

/// Where a place of a line is.
#[derive(Clone, Copy)]
enum Within {
    Plain,
    /// Between two of these quotes.
    Quotes(u8),
    /// Behind the backslash in a text.
    Escape,
}

/// Whether a text may have strings of several lines.
fn has_long_quotes(text: &str) -> bool {
    text.contains("\"\"\"") || text.contains("'''")
}

/// The line, from 1, on which the list or the table begins that is still open behind a text; none where nothing is, or the
/// text may have strings of several lines.
pub fn open_since(text: &str) -> Option<usize> {
    if has_long_quotes(text) {
        return None;
    }
    let mut open = 0;
    let mut since = 0;
    for (index, line) in text.split('\n').enumerate() {
        if open == 0 {
            since = index.saturating_add(1);
        }
        open = open_behind(open, line);
    }
    (open > 0).then_some(since)
}

/// How many brackets are open behind a line, where so many are before it.
fn open_behind(before: usize, line: &str) -> usize {
    let mut open = before;
    let mut within = Within::Plain;
    for byte in line.bytes() {
        within = match (within, byte) {
            (Within::Plain, b'#') => return open,
            (Within::Plain, b'"' | b'\'') => Within::Quotes(byte),
            (Within::Plain, b'[' | b'{') => {
                open = open.saturating_add(1);
                Within::Plain
            }
            (Within::Plain, b']' | b'}') => {
                open = open.saturating_sub(1);
                Within::Plain
            }
            (Within::Quotes(b'"'), b'\\') => Within::Escape,
            (Within::Quotes(quote), _) if byte == quote => Within::Plain,
            (Within::Escape, _) => Within::Quotes(b'"'),
            (same, _) => same,
        };
    }
    open
}
