//! Rows of answers, as far as they say which requests they decide, and what becomes of the session.

use crate::keys::MOST_ANSWERS;
use crate::odd::is_never_met;
use crate::value::{number, pattern_parts};
use std::alloc::{AllocError, Global};
use toml::{Table as Tree, Value};

/// For which requests a row of answers is, and what it does.
#[derive(Clone, Copy)]
pub struct Rule<'a> {
    /// Its number, from 1.
    pub number: usize,
    /// Its pattern, as the setup has it.
    pub pattern: &'a Value,
    /// The pattern's items, of two characters each.
    items: &'a [u8],
    /// Whether a request may have more bytes behind those.
    more: bool,
    /// The session that it is for; 0 is any.
    pub session: u32,
    /// The level that it needs; 0 is open.
    pub level: u32,
    /// Whether it answers by itself, and not the server.
    replies: bool,
    /// The session that it enters; 0 is none.
    pub enter: u32,
}

impl<'a> Rule<'a> {
    /// That of the row of a number. None where a value of it isn't what it has to be.
    pub fn of(row: &'a Value, number: usize) -> Option<Rule<'a>> {
        let Value::Table(row) = row else {
            return None;
        };
        let pattern = row.get("request")?;
        let (items, more) = pattern_parts(pattern)?;
        Some(Rule {
            number,
            pattern,
            items,
            more,
            session: condition(row, "session")?,
            level: condition(row, "level")?,
            replies: row.get("reply").is_some(),
            enter: condition(row, "enter")?,
        })
    }

    /// It, for a session; 0 is any.
    pub fn within(self, session: u32) -> Rule<'a> {
        let mut rule = self;
        rule.session = session;
        rule
    }

    /// Whether it may apply in a session.
    fn is_in(&self, session: u32) -> bool {
        (self.session == 0 || self.session == session) && !is_never_met(session, self.level)
    }

    /// Whether its pattern fits a request.
    fn fits(&self, request: &[u8]) -> bool {
        let count = self.items.len() / 2;
        let has_length = if self.more {
            count <= request.len()
        } else {
            count == request.len()
        };
        has_length
            && self
                .items
                .chunks(2)
                .zip(request)
                .all(|(item, byte)| is_for_byte(item, *byte))
    }

    /// Whether it takes every request that another row is for.
    pub fn takes(&self, other: &Rule<'_>) -> bool {
        self.takes_lengths(other)
            && (self.session == 0 || self.session == other.session)
            && (self.level == 0 || self.level == other.level)
            && self
                .items
                .chunks(2)
                .zip(other.items.chunks(2))
                .all(|(own, other)| takes_item(own, other))
    }

    /// Whether a request as long as another row wants it has a length that this one takes.
    fn takes_lengths(&self, other: &Rule<'_>) -> bool {
        if self.more {
            self.items.len() <= other.items.len()
        } else {
            !other.more && self.items.len() == other.items.len()
        }
    }
}

/// The rules of a setup's rows of answers, in their order. Of more rows than a setup may have they are those of the first.
pub fn rules(alloc: Global, rows: &[Value]) -> Result<Vec<Rule<'_>>, AllocError> {
    let mut rules = Vec::new(alloc);
    for (index, row) in rows.iter().enumerate().take(MOST_ANSWERS) {
        if let Some(rule) = Rule::of(row, index.saturating_add(1)) {
            rules.push(rule)?;
        }
    }
    Ok(rules)
}

/// Whether rows leave a request in a session to the server, be it with a level unlocked.
pub fn leave_to_server(rules: &[Rule<'_>], request: &[u8], session: u32) -> bool {
    for (index, rule) in rules.iter().enumerate() {
        if rule.fits(request) && rule.is_in(session) {
            if !rule.replies && !has_level_before(rules, index, request, session) {
                return true;
            }
            if rule.replies && rule.level == 0 {
                return false;
            }
        }
    }
    true
}

/// Whether one of the rows before that of an index decides its request for its level.
fn has_level_before(rules: &[Rule<'_>], index: usize, request: &[u8], session: u32) -> bool {
    let Some(own) = rules.get(index) else {
        return false;
    };
    let level = own.level;
    rules.iter().take(index).any(|rule| rule.level == level
        && rule.fits(request)
        && rule.is_in(session))
}

/// The number at a key of a row that is 0 where it is left out; none where it is no number.
fn condition(row: &Tree, name: &str) -> Option<u32> {
    match row.get(name) {
        Some(value) => number(value),
        None => Some(0),
    }
}

/// Whether an item of a pattern is for every byte that another is for.
fn takes_item(own: &[u8], other: &[u8]) -> bool {
    matches!(own, [b'.', b'.']) || own.eq_ignore_ascii_case(other)
}

/// Whether an item of a pattern is for a byte.
fn is_for_byte(item: &[u8], byte: u8) -> bool {
    match item {
        [b'.', b'.'] => true,
        [high, low] => byte_of(*high, *low) == Some(u32::from(byte)),
        _ => false,
    }
}

/// The byte that two hex digits say.
pub fn byte_of(high: u8, low: u8) -> Option<u32> {
    let high = char::from(high).to_digit(16)?;
    let low = char::from(low).to_digit(16)?;
    Some(16 * high + low)
}
