//! Rows of answers for a session that nothing leads to.

use crate::finding::Row;
use crate::keys::{MOST_ANSWERS, Table};
use crate::look::{Look, list_at};
use crate::odd::is_never_met;
use crate::pairs::number_at;
use crate::rule::{Rule, byte_of, leave_to_server};
use crate::value::pattern_parts;
use std::alloc::{AllocError, Global};
use std::collections::BTreeMap;
use toml::{Table as Tree, Value};

/// The session that a tester begins in, which unlocks no level.
const DEFAULT: u32 = 1;

/// The session that the server enters by itself (ISO 14229-1:2013, 9.2).
const EXTENDED: u32 = 3;

/// The greatest number of a session.
const MOST_SESSION: u32 = 126;

/// The service that a session is asked for by: DiagnosticSessionControl.
const CONTROL: u8 = 0x10;

/// The first byte of its positive response, and that of every negative one.
const GRANTED: u32 = 0x50;

const REFUSED: u32 = 0x7F;

/// The sub-functions by which the server is asked for its session: with bit 7 its answer isn't sent.
pub const ASKED: &[u8] = &[0x03, 0x83];

/// That without bit 7 alone.
pub const ASKED_ALOUD: &[u8] = &[0x03];

/// The sessions that a tester comes to.
#[derive(Drop)]
pub struct Sessions {
    /// Them, the default one among them.
    reached: BTreeMap<u32, ()>,
    /// How many they are.
    count: usize,
    /// The one that was found last.
    last: u32,
}

impl Sessions {
    /// Those of a setup with these rows of answers and their rules, where the server is asked for its own session by these
    /// sub-functions: the default one, and each that the server or a row enters in one of them. A row is taken for one that
    /// applies unless one before it takes all of its requests, or its session isn't reached.
    pub fn of(
        alloc: Global,
        rows: &[Value],
        rules: &[Rule<'_>],
        asked: &[u8],
    ) -> Result<Sessions, AllocError> {
        let mut sessions = Sessions::begun(alloc, rows)?;
        for _ in 0..MOST_SESSION {
            if !sessions.spread(rules, asked)? {
                break;
            }
        }
        Ok(sessions)
    }

    /// The default one, and those of rows that aren't what they have to be, of which nobody knows when they apply.
    fn begun(alloc: Global, rows: &[Value]) -> Result<Sessions, AllocError> {
        let mut sessions = Sessions {
            reached: BTreeMap::new(alloc),
            count: 0,
            last: DEFAULT,
        };
        sessions.add(DEFAULT)?;
        for (index, row) in rows.iter().enumerate() {
            if index >= MOST_ANSWERS || Rule::of(row, index).is_none() {
                sessions.add(enter_of(row))?;
            }
        }
        Ok(sessions)
    }

    /// Adds a session, and says whether it is a new one; 0 is none.
    fn add(&mut self, session: u32) -> Result<bool, AllocError> {
        if self.has(session) {
            return Ok(false);
        }
        self.reached.insert(session, ())?;
        self.count = self.count.saturating_add(1);
        self.last = session;
        Ok(true)
    }

    /// Adds what the server and the rows enter in these sessions, and says whether one came to them.
    fn spread(&mut self, rules: &[Rule<'_>], asked: &[u8]) -> Result<bool, AllocError> {
        let is_served = asked.iter().any(|sub| self.is_served(rules, *sub));
        let mut is_more = is_served && self.add(EXTENDED)?;
        for (index, rule) in rules.iter().enumerate() {
            if !self.has(rule.enter) && self.lets(rules, index) {
                is_more = self.add(rule.enter)? || is_more;
            }
        }
        Ok(is_more)
    }

    /// Whether in one of these sessions the rows leave it to the server to enter its own.
    fn is_served(&self, rules: &[Rule<'_>], sub: u8) -> bool {
        for session in DEFAULT..=MOST_SESSION {
            if self.has(session) && leave_to_server(rules, &[CONTROL, sub], session) {
                return true;
            }
        }
        false
    }

    /// Whether the row with this rule applies in one of these sessions, and none before it takes all of its requests.
    fn lets(&self, rules: &[Rule<'_>], index: usize) -> bool {
        let is_met = rules
            .get(index)
            .is_some_and(|rule| self.narrowed(rule).is_some());
        is_met && self.taker(rules, index).is_none()
    }

    /// The first rule before that of this index that takes all of its requests in these sessions; none where it never applies.
    pub fn taker<'a>(&self, rules: &[Rule<'a>], index: usize) -> Option<Rule<'a>> {
        let own = self.narrowed(rules.get(index)?)?;
        for first in rules.iter().take(index) {
            if let Some(first) = self.narrowed(first) {
                if first.takes(&own) {
                    return Some(first);
                }
            }
        }
        None
    }

    /// A rule with the one session in which it applies, where there is no more than one; none where it never applies.
    fn narrowed<'a>(&self, rule: &Rule<'a>) -> Option<Rule<'a>> {
        if is_never_met(rule.session, rule.level) || !self.has(rule.session) {
            return None;
        }
        let session = match (rule.session, rule.level) {
            (0, 0) => self.only(),
            (0, _) => self.only_of_levels()?,
            (session, _) => session,
        };
        Some(rule.within(session))
    }

    /// The only session; 0 where there are several.
    fn only(&self) -> u32 {
        if self.count > 1 { 0 } else { DEFAULT }
    }

    /// The only session in which levels are unlocked; 0 where there are several, and none where there is none.
    fn only_of_levels(&self) -> Option<u32> {
        match self.count {
            0 | 1 => None,
            2 => Some(self.last),
            _ => Some(0),
        }
    }

    /// Whether a tester comes to this session; 0 is any.
    fn has(&self, session: u32) -> bool {
        session == 0 || self.reached.get(&session).is_some()
    }
}

/// The session that a row of answers is for; 0 is any.
fn session_of(row: &Tree) -> u32 {
    number_at(row, "session").unwrap_or(0)
}

/// The session that a row of answers enters; 0 is none.
fn enter_of(row: &Value) -> u32 {
    match row {
        Value::Table(row) => number_at(row, "enter").unwrap_or(0),
        _ => 0,
    }
}

impl Look<'_> {
    /// Rows of answers for the server's own session, to which its request with bit 7 alone leads.
    pub fn quietly_reached(
        &mut self,
        rows: &[Value],
        sessions: &Sessions,
        aloud: &Sessions,
    ) -> Result<(), AllocError> {
        if !sessions.has(EXTENDED) || aloud.has(EXTENDED) {
            return Ok(());
        }
        for (index, row) in rows.iter().enumerate() {
            if let Value::Table(tree) = row {
                if session_of(tree) == EXTENDED {
                    self.quietly_reached_one(rows, index.saturating_add(1))?;
                }
            }
        }
        Ok(())
    }

    fn quietly_reached_one(&mut self, rows: &[Value], number: usize) -> Result<(), AllocError> {
        let row = Row::of(Table::Answer, number);
        let mut text = format!(in self.alloc;
            "session{row} is {EXTENDED}: 10 83 alone leads to session {EXTENDED}, for 10 03 is answered by a row"
        )?;
        if let Some(index) = rows.iter().position(|row| may_enter(row, EXTENDED)) {
            let other = index.saturating_add(1);
            write!(text, "; enter = {EXTENDED} in [[answer]] {other}?")?;
        }
        self.remark(row.key("session"), text)
    }

    /// Rows of answers for a session that nothing leads to.
    pub fn unreached(&mut self, rows: &[Value], sessions: &Sessions) -> Result<(), AllocError> {
        for (index, row) in rows.iter().enumerate() {
            if let Value::Table(row) = row {
                let session = session_of(row);
                if session <= MOST_SESSION && !sessions.has(session) {
                    self.unreached_one(rows, session, index.saturating_add(1))?;
                }
            }
        }
        Ok(())
    }

    fn unreached_one(
        &mut self,
        rows: &[Value],
        session: u32,
        number: usize,
    ) -> Result<(), AllocError> {
        let row = Row::of(Table::Answer, number);
        let mut text = format!(in self.alloc;
            "session{row} is {session}: the row never applies, for nothing leads to session {session}"
        )?;
        let asked = rows.iter().position(|row| may_enter(row, session));
        let is_entered = rows.iter().any(|row| enter_of(row) == session);
        match asked {
            Some(index) => {
                let other = index.saturating_add(1);
                write!(text, "; enter = {session} in [[answer]] {other}?")?;
            }
            None if is_entered => {
                write!(
                    text,
                    ": each row with enter = {session} never applies either"
                )?;
            }
            None if session == EXTENDED => {
                write!(
                    text,
                    ": rows answer 10 03 and 10 83, and a row with enter = {session} would"
                )?;
            }
            None => write!(text, ": a row with enter = {session} would")?,
        }
        self.remark(row.key("session"), text)
    }
}

/// Whether a row grants the request for a session, and enters none.
fn may_enter(row: &Value, session: u32) -> bool {
    let Value::Table(row) = row else {
        return false;
    };
    let (items, _) = row
        .get("request")
        .and_then(pattern_parts)
        .unwrap_or((b"", false));
    is_control(items, session)
        && grants(list_at(row, "reply"))
        && number_at(row, "enter").unwrap_or(0) == 0
}

/// Whether templates are positive responses to DiagnosticSessionControl, be it one of them alone, and none is negative.
fn grants(templates: &[Value]) -> bool {
    templates
        .iter()
        .any(|template| begins_with(template, GRANTED))
        && !templates
            .iter()
            .any(|template| begins_with(template, REFUSED))
}

/// Whether a template begins with this byte.
fn begins_with(template: &Value, byte: u32) -> bool {
    match template {
        Value::String(text) => match text.as_bytes() {
            [high, low, ..] => byte_of(*high, *low) == Some(byte),
            _ => false,
        },
        _ => false,
    }
}

/// Whether the items of a pattern are those of DiagnosticSessionControl for a session.
fn is_control(items: &[u8], session: u32) -> bool {
    match items {
        [b'1', b'0', high, low] => byte_of(*high, *low) == Some(session),
        _ => false,
    }
}
