//! Rows of answers that never apply: for a session that nothing leads to, or for requests that a row before them takes.

use crate::finding::{Row, Shown};
use crate::keys::Table;
use crate::look::{Look, list_at};
use crate::rule::{Rule, rules};
use crate::sessions::{ASKED, ASKED_ALOUD, Sessions};
use std::alloc::AllocError;
use toml::Table as Tree;

impl Look<'_> {
    /// Rows of answers that never apply, but for those of which their own session and level tell it.
    pub fn idle_rows(&mut self, tree: &Tree) -> Result<(), AllocError> {
        let rows = list_at(tree, Table::Answer.path());
        let rules = rules(self.alloc, rows)?;
        let sessions = Sessions::of(self.alloc, rows, rules.as_slice(), ASKED)?;
        self.unreached(rows, &sessions)?;
        self.taken(rules.as_slice(), &sessions)?;
        let aloud = Sessions::of(self.alloc, rows, rules.as_slice(), ASKED_ALOUD)?;
        self.quietly_reached(rows, &sessions, &aloud)
    }

    /// Rows of answers all of whose requests an earlier one takes.
    fn taken(&mut self, rules: &[Rule<'_>], sessions: &Sessions) -> Result<(), AllocError> {
        for (index, rule) in rules.iter().enumerate() {
            if let Some(first) = sessions.taker(rules, index) {
                self.taken_one(rule, &first)?;
            }
        }
        Ok(())
    }

    fn taken_one(&mut self, rule: &Rule<'_>, first: &Rule<'_>) -> Result<(), AllocError> {
        let row = Row::of(Table::Answer, rule.number);
        let own = Shown(rule.pattern);
        let number = first.number;
        let other = Shown(first.pattern);
        let text = format!(in self.alloc;
            "request{row} is {own}: the row never applies, for [[answer]] {number} with {other} takes all of its requests"
        )?;
        self.remark(row.key("request"), text)
    }
}
