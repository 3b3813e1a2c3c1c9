//! Numbers that stand twice, and numbers that are named and aren't there.

use crate::finding::Row;
use crate::keys::Table;
use crate::look::{Look, list_at};
use crate::value::number;
use diag_setup::SetupFault;
use std::alloc::{AllocError, Global};
use std::collections::BTreeMap;
use toml::{Table as Tree, Value};

/// The identifier of functional requests where a setup says none.
const FUNCTIONAL: u32 = 0x7DF;

/// The same of 29 bits (ISO 15765-4).
pub const FUNCTIONAL_EXTENDED: u32 = 0x18DB_33F1;

/// Where an identifier stood first: its key, and the number of its row.
type Place = (&'static str, usize);

/// The requests and responses of a setup, each by its number and whether it is of 29 bits.
type Seen = BTreeMap<(u32, bool), Place>;

/// The number at a key, where it is one.
pub fn number_at(tree: &Tree, name: &str) -> Option<u32> {
    match tree.get(name) {
        Some(value) => number(value),
        None => None,
    }
}

/// Whether a tester's identifiers are of 29 bits.
pub fn is_extended(tester: &Tree) -> bool {
    is_true_at(tester, "extended")
}

/// Whether a tester talks by CAN FD.
pub fn is_fd(tester: &Tree) -> bool {
    is_true_at(tester, "fd")
}

/// Whether it talks by classic CAN; not where what it has at `fd` is neither.
fn is_classic(tester: &Tree) -> bool {
    matches!(tester.get("fd"), None | Some(Value::Boolean(false)))
}

fn is_true_at(tree: &Tree, name: &str) -> bool {
    matches!(tree.get(name), Some(Value::Boolean(true)))
}

/// The functional identifier of a tester, and whether it is of 29 bits, where the unit has this one of 11 bits.
fn functional_id(tester: &Tree, shared: u32) -> (u32, bool) {
    let is_extended = is_extended(tester);
    let default = if is_extended {
        FUNCTIONAL_EXTENDED
    } else {
        shared
    };
    let id = number_at(tester, "functional").unwrap_or(default);
    (id, is_extended)
}

/// Whether the functional identifier of a tester stands nowhere in the setup.
fn is_by_default(tree: &Tree, tester: &Tree) -> bool {
    let shared = if is_extended(tester) {
        None
    } else {
        number_at(tree, "functional")
    };
    number_at(tester, "functional").or(shared).is_none()
}

impl Look<'_> {
    /// Names, numbers and identifiers that stand twice.
    pub fn doubles(&mut self, tree: &Tree) -> Result<(), AllocError> {
        self.double_names(tree)?;
        self.double_numbers(tree, Table::Did, "id")?;
        self.double_numbers(tree, Table::Code, "code")?;
        self.double_numbers(tree, Table::Routine, "id")?;
        self.double_numbers(tree, Table::Level, "sub")?;
        self.double_identifiers(tree)
    }

    /// Two equal identifiers among all requests and responses, and one of these that is a functional one.
    fn double_identifiers(&mut self, tree: &Tree) -> Result<(), AllocError> {
        let mut seen = BTreeMap::new(self.alloc);
        for (index, tester) in list_at(tree, "tester").iter().enumerate() {
            if let Value::Table(tester) = tester {
                let row = index.saturating_add(1);
                self.identifier(&mut seen, tester, ("request", row))?;
                self.identifier(&mut seen, tester, ("response", row))?;
            }
        }
        let shared = number_at(tree, "functional").unwrap_or(FUNCTIONAL);
        self.functional_identifiers(tree, shared, &mut seen)?;
        self.mixed_identifiers(tree, shared)
    }

    fn identifier(
        &mut self,
        seen: &mut Seen,
        tester: &Tree,
        place: Place,
    ) -> Result<(), AllocError> {
        let (name, row) = place;
        let Some(id) = number_at(tester, name) else {
            return Ok(());
        };
        let key = (id, is_extended(tester));
        let Some((other, first)) = seen.get(&key).copied() else {
            seen.insert(key, place)?;
            return Ok(());
        };
        let place = format!(in self.alloc;
            "{name} of [[tester]] {row} is 0x{id:X}, as {other} of [[tester]] {first}"
        )?;
        let row = Row::of(Table::Tester, row);
        self.refuse(SetupFault::DuplicateId, row.key(name), place)
    }

    /// Requests and responses that are a functional identifier; several testers may have one of these.
    fn functional_identifiers(
        &mut self,
        tree: &Tree,
        shared: u32,
        seen: &mut Seen,
    ) -> Result<(), AllocError> {
        for (index, tester) in list_at(tree, "tester").iter().enumerate() {
            if let Value::Table(tester) = tester {
                let key = functional_id(tester, shared);
                if let Some((name, row)) = seen.remove(&key) {
                    let (id, _) = key;
                    let other = index.saturating_add(1);
                    let by = if is_by_default(tree, tester) {
                        ", by default"
                    } else {
                        ""
                    };
                    let place = format!(in self.alloc;
                        "{name} of [[tester]] {row} is 0x{id:X}, as the functional identifier of [[tester]] {other}{by}"
                    )?;
                    let row = Row::of(Table::Tester, row);
                    self.refuse(SetupFault::DuplicateId, row.key(name), place)?;
                }
            }
        }
        Ok(())
    }

    /// Testers that talk by CAN FD, and have the functional identifier of one that doesn't.
    fn mixed_identifiers(&mut self, tree: &Tree, shared: u32) -> Result<(), AllocError> {
        let classic = classic_testers(self.alloc, tree, shared)?;
        for (index, tester) in list_at(tree, "tester").iter().enumerate() {
            if let Value::Table(tester) = tester {
                let key = functional_id(tester, shared);
                let first = classic.get(&key).copied();
                if let (true, Some(first)) = (is_fd(tester), first) {
                    let (id, _) = key;
                    let row = Row::of(Table::Tester, index.saturating_add(1));
                    let place = format!(in self.alloc;
                        "fd{row} is true: its functional identifier is 0x{id:X}, as that of [[tester]] {first}, which is of classic CAN"
                    )?;
                    self.refuse(SetupFault::DuplicateId, row.key("fd"), place)?;
                }
            }
        }
        Ok(())
    }

    fn double_names(&mut self, tree: &Tree) -> Result<(), AllocError> {
        let mut seen = BTreeMap::new(self.alloc);
        for (index, tester) in list_at(tree, "tester").iter().enumerate() {
            let Some(name) = name_of(tester) else {
                continue;
            };
            let row = index.saturating_add(1);
            match seen.get(&name).copied() {
                None => {
                    seen.insert(name, row)?;
                }
                Some(first) => {
                    let place = format!(in self.alloc;
                        "name of [[tester]] {row} is {name:?}, as that of [[tester]] {first}"
                    )?;
                    let row = Row::of(Table::Tester, row);
                    self.refuse(SetupFault::DuplicateId, row.key("name"), place)?;
                }
            }
        }
        Ok(())
    }

    fn double_numbers(&mut self, tree: &Tree, list: Table, name: &str) -> Result<(), AllocError> {
        let path = list.path();
        let mut seen = BTreeMap::new(self.alloc);
        for (index, item) in list_at(tree, path).iter().enumerate() {
            let Some(number) = number_of(item, name) else {
                continue;
            };
            let row = index.saturating_add(1);
            match seen.get(&number).copied() {
                None => {
                    seen.insert(number, row)?;
                }
                Some(first) => {
                    let place = format!(in self.alloc;
                        "{name} of [[{path}]] {row} is 0x{number:X}, as that of [[{path}]] {first}"
                    )?;
                    let row = Row::of(list, row);
                    self.refuse(SetupFault::DuplicateId, row.key(name), place)?;
                }
            }
        }
        Ok(())
    }

    /// Codes and levels that are named and aren't there.
    pub fn references(&mut self, tree: &Tree) -> Result<(), AllocError> {
        let codes = numbers(self.alloc, tree, "code", "code")?;
        self.unknown(tree, Table::Routine, "code", &codes)?;
        let mut levels = numbers(self.alloc, tree, "level", "sub")?;
        levels.insert(0, ())?;
        self.unknown(tree, Table::Did, "read_level", &levels)?;
        self.unknown(tree, Table::Did, "write_level", &levels)?;
        self.unknown(tree, Table::Routine, "level", &levels)?;
        self.unknown(tree, Table::Answer, "level", &levels)
    }

    fn unknown(
        &mut self,
        tree: &Tree,
        list: Table,
        name: &str,
        known: &BTreeMap<u32, ()>,
    ) -> Result<(), AllocError> {
        for (index, item) in list_at(tree, list.path()).iter().enumerate() {
            let Some(number) = number_of(item, name) else {
                continue;
            };
            if known.get(&number).is_none() {
                let row = Row::of(list, index.saturating_add(1));
                self.unknown_one(row, name, number)?;
            }
        }
        Ok(())
    }

    fn unknown_one(&mut self, row: Row, name: &str, number: u32) -> Result<(), AllocError> {
        if name == "code" {
            let place = format!(in self.alloc;
                "{name}{row} is 0x{number:06X}, which no [[code]] has"
            )?;
            self.refuse(SetupFault::UnknownCode, row.key(name), place)
        } else {
            let place = format!(in self.alloc;
                "{name}{row} is {number}, which no [[level]] has as its sub"
            )?;
            self.refuse(SetupFault::UnknownLevel, row.key(name), place)
        }
    }
}

/// The first tester of each functional identifier that a tester of classic CAN has, by its number.
fn classic_testers(
    alloc: Global,
    tree: &Tree,
    shared: u32,
) -> Result<BTreeMap<(u32, bool), usize>, AllocError> {
    let mut classic = BTreeMap::new(alloc);
    for (index, tester) in list_at(tree, "tester").iter().enumerate() {
        if let Value::Table(tester) = tester {
            let key = functional_id(tester, shared);
            if is_classic(tester) && classic.get(&key).is_none() {
                classic.insert(key, index.saturating_add(1))?;
            }
        }
    }
    Ok(classic)
}

fn name_of(tester: &Value) -> Option<&str> {
    match tester {
        Value::Table(tester) => match tester.get("name") {
            Some(Value::String(name)) => Some(name.as_str()),
            _ => None,
        },
        _ => None,
    }
}

fn number_of(item: &Value, name: &str) -> Option<u32> {
    match item {
        Value::Table(row) => number_at(row, name),
        _ => None,
    }
}

/// The numbers at a key of a list's rows.
fn numbers(
    alloc: Global,
    tree: &Tree,
    list: &str,
    name: &str,
) -> Result<BTreeMap<u32, ()>, AllocError> {
    let mut all = BTreeMap::new(alloc);
    for item in list_at(tree, list) {
        if let Some(number) = number_of(item, name) {
            all.insert(number, ())?;
        }
    }
    Ok(all)
}
