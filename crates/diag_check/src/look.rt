//! The look at a setup: its faults, the keys that are passed over, and what is odd.

use crate::across::latest_answer_ms;
use crate::finding::{Finding, Meant, Remark, Row, Shown, ShownKey, Spot};
use crate::item::item_hint;
use crate::keys::{KEYS, Key, Kind, Need, Table, Wanted};
use crate::near::hint;
use crate::places::Places;
use crate::value::{is_allowed, is_of_kind, is_pattern, is_template, items};
use diag_config::ConfigFault;
use diag_setup::SetupFault;
use std::alloc::{AllocError, Global};
use toml::{Table as Tree, Value};

/// What was found so far in a text.
#[derive(Drop)]
pub struct Look<'a> {
    pub alloc: Global,
    pub text: &'a str,
    /// What the text says.
    tree: &'a Tree,
    /// Where it says it, once something is found.
    places: Option<Places>,
    /// The faults.
    pub faults: Vec<Finding>,
    /// The keys that are passed over.
    pub passed: Vec<Remark>,
    /// What is odd, and no fault.
    pub odd: Vec<Remark>,
}

impl<'a> Look<'a> {
    /// Nothing found in a text, which makes this tree.
    pub fn new(alloc: Global, text: &'a str, tree: &'a Tree) -> Look<'a> {
        Look {
            alloc,
            text,
            tree,
            places: None,
            faults: Vec::new(alloc),
            passed: Vec::new(alloc),
            odd: Vec::new(alloc),
        }
    }

    /// Looks at the whole setup. The faults come in the order in which a run looks for them, and the rest in that of the text.
    pub fn setup(&mut self) -> Result<(), AllocError> {
        self.unit(self.tree)?;
        self.faults.sort_by_key(|finding| phase(finding.fault))?;
        self.passed
            .sort_by_key(|remark| remark.line.unwrap_or(usize::MAX))?;
        self.odd
            .sort_by_key(|remark| remark.line.unwrap_or(usize::MAX))
    }

    /// The line of a spot of the setup.
    fn line(&mut self, spot: Spot<'_>) -> Result<Option<usize>, AllocError> {
        if self.places.is_none() {
            self.places = Some(Places::of(self.alloc, self.text)?);
        }
        match &self.places {
            Some(places) => Ok(places.of_spot(self.tree, spot)),
            None => Ok(None),
        }
    }

    /// Adds a fault.
    pub fn tell(
        &mut self,
        fault: ConfigFault,
        spot: Spot<'_>,
        place: String,
    ) -> Result<(), AllocError> {
        let line = self.line(spot)?;
        self.faults.push(Finding { fault, line, place })?;
        Ok(())
    }

    /// Adds a fault that `check` of the setup finds.
    pub fn refuse(
        &mut self,
        fault: SetupFault,
        spot: Spot<'_>,
        place: String,
    ) -> Result<(), AllocError> {
        self.tell(ConfigFault::Setup(fault), spot, place)
    }

    /// Adds what is odd.
    pub fn remark(&mut self, spot: Spot<'_>, text: String) -> Result<(), AllocError> {
        let line = self.line(spot)?;
        self.odd.push(Remark { line, text })?;
        Ok(())
    }

    /// Looks at the keys of a table, each by itself, but for those of lists.
    pub fn table(&mut self, tree: &Tree, row: Row) -> Result<(), AllocError> {
        for key in &KEYS {
            if key.table == row.table && !key.is_list() {
                self.key(tree, key, row)?;
            }
        }
        self.names(tree, row)
    }

    /// Looks at the names of all that a table has.
    fn names(&mut self, tree: &Tree, row: Row) -> Result<(), AllocError> {
        for (name, value) in tree.iter() {
            self.name(tree, name.as_str(), value, row)?;
        }
        Ok(())
    }

    fn key(&mut self, tree: &Tree, key: &Key, row: Row) -> Result<(), AllocError> {
        match tree.get(key.name) {
            None if is_needed(tree, key) => {
                let name = key.name;
                let place = format!(in self.alloc; "{name}{row}")?;
                self.tell(ConfigFault::Missing(key.path), row.whole(), place)
            }
            Some(value) if counts(tree, key) => self.value(key, value, row),
            _ => Ok(()),
        }
    }

    fn value(&mut self, key: &Key, value: &Value, row: Row) -> Result<(), AllocError> {
        let name = key.name;
        let kind = key.kind;
        let shown = Shown(value);
        if !is_of_kind(kind, value) {
            self.other_kind(key, value, row)
        } else if !is_allowed(kind, value) {
            let place = format!(in self.alloc; "{name}{row} is {shown}: {kind}")?;
            self.refuse(SetupFault::Range, row.key(name), place)
        } else {
            Ok(())
        }
    }

    /// Tells of a value of another kind than its key's.
    fn other_kind(&mut self, key: &Key, value: &Value, row: Row) -> Result<(), AllocError> {
        if has_texts(key.kind) && value.is_array() {
            return self.bad_items(key, value, row);
        }
        let name = key.name;
        let what = Wanted(key.kind);
        let shown = Shown(value);
        let meant = Meant(key.kind, value);
        let place = format!(in self.alloc; "{name}{row} is {shown}: {what}{meant}")?;
        self.tell(ConfigFault::BadValue(key.path), row.key(name), place)
    }

    /// Tells of each item of a list of templates or patterns that is none.
    fn bad_items(&mut self, key: &Key, value: &Value, row: Row) -> Result<(), AllocError> {
        for (index, item) in items(value).iter().enumerate() {
            if is_bad_item(key.kind, item) {
                self.bad_item(key, item, index.saturating_add(1), row)?;
            }
        }
        Ok(())
    }

    /// Tells of the item of this number, from 1, of a key's list.
    fn bad_item(
        &mut self,
        key: &Key,
        item: &Value,
        number: usize,
        row: Row,
    ) -> Result<(), AllocError> {
        let name = key.name;
        let what = Wanted(key.kind);
        let shown = Shown(item);
        let hint = item_hint(self.alloc, key.kind, item)?;
        let hint = hint.as_str();
        let place = format!(in self.alloc;
            "{name}{row} has as number {number} {shown}: {what}{hint}"
        )?;
        self.tell(ConfigFault::BadValue(key.path), row.key(name), place)
    }

    /// Tells of a key that is passed over.
    fn name(&mut self, tree: &Tree, name: &str, value: &Value, row: Row) -> Result<(), AllocError> {
        if is_known(tree, name, row.table) {
            return Ok(());
        }
        let hint = hint(self.alloc, name, value, row.table)?;
        let hint = hint.as_str();
        let shown = ShownKey(name);
        let text = format!(in self.alloc; "{shown}{row}: passed over{hint}")?;
        let line = self.line(row.key(name))?;
        self.passed.push(Remark { line, text })?;
        Ok(())
    }

    /// The tables of a list of the unit.
    fn list(&mut self, tree: &Tree, key: &Key, list: Table) -> Result<(), AllocError> {
        self.key(tree, key, Row::UNIT)?;
        let latest_ms = latest_answer_ms(tree);
        for (index, item) in list_at(tree, key.name).iter().enumerate() {
            let row = Row::of(list, index.saturating_add(1));
            self.item(key, Row::UNIT, item, row)?;
            if let Value::Table(tree) = item {
                self.beside(tree, row, latest_ms)?;
            }
        }
        Ok(())
    }

    /// A table of the list at a key by itself, or what stands in its place.
    fn item(&mut self, key: &Key, of: Row, item: &Value, row: Row) -> Result<(), AllocError> {
        match item {
            Value::Table(tree) => self.table(tree, row),
            _ => {
                let path = key.path;
                let number = row.number;
                let shown = Shown(item);
                let place = format!(in self.alloc;
                    "{path} {number}{of} is {shown}: a table, as [[{path}]] begins one"
                )?;
                self.tell(ConfigFault::BadValue(path), of.key(key.name), place)
            }
        }
    }

    /// What of a table depends on more than one of its keys.
    fn beside(&mut self, tree: &Tree, row: Row, latest_ms: u64) -> Result<(), AllocError> {
        match row.table {
            Table::Tester => {
                self.own_identifiers(tree, row)?;
                self.tester(tree, row)
            }
            Table::Did => self.did(tree, row),
            Table::Level => {
                self.level_rows(tree, row)?;
                self.lengths(tree, row.number)
            }
            Table::Answer => {
                self.answer(tree, row, latest_ms)?;
                self.never_applies(tree, row)
            }
            Table::Unit | Table::Code | Table::Routine | Table::LevelRow => Ok(()),
        }
    }

    /// The rows of a level.
    fn level_rows(&mut self, level: &Tree, of: Row) -> Result<(), AllocError> {
        let Some(key) = KEYS.iter().find(|key| key.path == "level.row") else {
            return Ok(());
        };
        self.key(level, key, of)?;
        for (index, item) in list_at(level, key.name).iter().enumerate() {
            let row = Row {
                table: Table::LevelRow,
                number: index.saturating_add(1),
                level: of.number,
            };
            self.item(key, of, item, row)?;
        }
        Ok(())
    }

    /// Looks at a whole setup.
    fn unit(&mut self, tree: &Tree) -> Result<(), AllocError> {
        self.table(tree, Row::UNIT)?;
        for key in &KEYS {
            if let (Table::Unit, Kind::Rows(list, _)) = (key.table, key.kind) {
                self.list(tree, key, list)?;
            }
        }
        self.decimal(tree, "functional", Row::UNIT)?;
        self.without_fd(tree)?;
        self.all_templates(tree)?;
        self.idle_rows(tree)?;
        self.empties(tree)?;
        self.doubles(tree)?;
        self.references(tree)
    }
}

/// When a run looks for a fault.
fn phase(fault: ConfigFault) -> u8 {
    match fault {
        ConfigFault::Syntax | ConfigFault::Memory => 0,
        ConfigFault::Missing(_) | ConfigFault::BadValue(_) => 1,
        ConfigFault::Setup(SetupFault::Range) => 2,
        ConfigFault::Setup(SetupFault::Empty) => 3,
        ConfigFault::Setup(SetupFault::DuplicateId) => 4,
        ConfigFault::Setup(SetupFault::UnknownCode) => 5,
        ConfigFault::Setup(SetupFault::UnknownLevel) => 6,
    }
}

/// Whether a key of a kind holds a list of texts.
fn has_texts(kind: Kind) -> bool {
    matches!(kind, Kind::Templates | Kind::Patterns)
}

/// Whether an item of a list of templates or patterns is none.
fn is_bad_item(kind: Kind, item: &Value) -> bool {
    match kind {
        Kind::Templates => !is_template(item),
        Kind::Patterns => !is_pattern(item),
        _ => false,
    }
}

/// The items of the list at a key; none where it is no list.
pub fn list_at<'a>(tree: &'a Tree, name: &str) -> &'a [Value] {
    tree.get(name).map_or(&[], items)
}

/// Whether a key counts in its table.
fn counts(tree: &Tree, key: &Key) -> bool {
    match key.need {
        Need::Must | Need::May => true,
        Need::Beside(other) => tree.get(other).is_some(),
    }
}

fn is_needed(tree: &Tree, key: &Key) -> bool {
    match key.need {
        Need::Must => true,
        Need::May => false,
        Need::Beside(_) => counts(tree, key),
    }
}

fn is_known(tree: &Tree, name: &str, table: Table) -> bool {
    KEYS.iter().any(|key| key.table == table && key.name == name && counts(tree, key))
}
