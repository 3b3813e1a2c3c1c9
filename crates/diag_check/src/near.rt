//! What a key that is passed over may be meant to be.

use crate::keys::{KEYS, Key, Need, Table};
use std::alloc::{AllocError, Global};
use strsim::osa_distance;
use toml::Value;

/// The longest name that is compared, in bytes.
const MOST_COMPARED: usize = 32;

/// Words of the standard, or of other formats, for a key of a table.
const WORDS: [(Table, &str, &str); 8] = [
    (Table::Unit, "dtc", "code"),
    (Table::Unit, "dtcs", "code"),
    (Table::Code, "dtc", "code"),
    (Table::Code, "id", "code"),
    (Table::Did, "data", "value"),
    (Table::Did, "did", "id"),
    (Table::Answer, "response", "reply"),
    (Table::Level, "level", "sub"),
];

/// What helps with a key of a table that is passed over, and its value: the key of this name there, but for the case of its
/// letters, or what it is called there, else where a key or tables of this name belong, else the nearest one.
pub fn hint(alloc: Global, name: &str, value: &Value, table: Table) -> Result<String, AllocError> {
    let lower = name.to_ascii_lowercase(alloc)?;
    let lower = lower.as_str();
    let own = KEYS
        .iter()
        .find(|key| key.table == table && key.name == lower);
    if let Some(key) = own {
        return own_hint(alloc, key, name);
    }
    if let (Some(key), true) = (list_named(lower), may_be_tables(value)) {
        return list_hint(alloc, key);
    }
    if let (Table::Did, "level") = (table, lower) {
        return format!(in alloc; "; read_level or write_level?");
    }
    if let Some(own) = called(lower, table) {
        return format!(in alloc; "; {own}?");
    }
    if is_of_unit(lower) {
        return unit_hint(alloc, lower);
    }
    let owners = owners(alloc, lower)?;
    if !owners.is_empty() {
        let owners = owners.as_str();
        return format!(in alloc; "; it belongs to {owners}");
    }
    match list_named(lower) {
        Some(key) => list_hint(alloc, key),
        None => near_hint(alloc, lower, table),
    }
}

/// Whether a value may be meant as the tables of a list.
fn may_be_tables(value: &Value) -> bool {
    value.is_table() || value.is_array()
}

/// The key of this name that holds a list of tables.
fn list_named(name: &str) -> Option<&'static Key> {
    KEYS.iter().find(|key| key.is_list() && key.name == name)
}

/// Where the tables of a list belong.
fn list_hint(alloc: Global, key: &Key) -> Result<String, AllocError> {
    let path = key.path;
    let owner = key.table.path();
    match key.table {
        Table::Unit => format!(in alloc; "; it belongs to the whole unit, as [[{path}]]"),
        _ => format!(in alloc; "; it belongs to [[{owner}]], as [[{path}]]"),
    }
}

/// Where a key belongs that the whole unit has, and maybe tables of a list, too.
fn unit_hint(alloc: Global, name: &str) -> Result<String, AllocError> {
    let owners = owners(alloc, name)?;
    let joint = if owners.is_empty() { "" } else { ", or to " };
    let owners = owners.as_str();
    format!(in alloc; "; it belongs to the whole unit, before the first [[..]]{joint}{owners}")
}

/// The nearest key of a table, else one of the whole unit that begins so.
fn near_hint(alloc: Global, name: &str, table: Table) -> Result<String, AllocError> {
    if let Some(near) = nearest(alloc, name, table)? {
        return format!(in alloc; "; {near}?");
    }
    match begun(name, Table::Unit) {
        Some(own) => {
            format!(in alloc; "; {own}? it belongs to the whole unit, before the first [[..]]")
        }
        None => Ok(String::new(alloc)),
    }
}

/// The key of a table that is called by another word, or by less of its name.
fn called(word: &str, table: Table) -> Option<&'static str> {
    let own = WORDS
        .iter()
        .find(|(at, other, _)| *at == table && *other == word);
    match own {
        Some((_, _, name)) => Some(*name),
        None => begun(word, table),
    }
}

/// The first key of a table whose name begins with this word and `_`.
fn begun(word: &str, table: Table) -> Option<&'static str> {
    for key in &KEYS {
        let behind = key.name.strip_prefix(word).unwrap_or("");
        if key.table == table && !word.is_empty() && behind.starts_with('_') {
            return Some(key.name);
        }
    }
    None
}

/// What helps where a table has this key, and what stands there is passed over.
fn own_hint(alloc: Global, key: &Key, name: &str) -> Result<String, AllocError> {
    let own = key.name;
    match key.need {
        Need::Beside(other) if own == name => {
            format!(in alloc; "; it counts beside {other} alone")
        }
        _ => format!(in alloc; "; {own}?"),
    }
}

/// Whether the whole unit has a key of this name, but for those of lists.
fn is_of_unit(name: &str) -> bool {
    KEYS.iter().any(|key| key.table == Table::Unit && key.name == name && !key.is_list())
}

/// The lists whose tables have a key of this name that is no list, as `[[did]] or [[routine]]`; empty where none has.
fn owners(alloc: Global, name: &str) -> Result<String, AllocError> {
    let mut owners = String::new(alloc);
    for key in &KEYS {
        if key.table != Table::Unit && key.name == name && !key.is_list() {
            let joint = if owners.is_empty() { "" } else { " or " };
            let path = key.table.path();
            write!(owners, "{joint}[[{path}]]")?;
        }
    }
    Ok(owners)
}

/// The name of the nearest key of a table, where one is near: by one edit, or by two that leave some of the name.
fn nearest(alloc: Global, name: &str, table: Table) -> Result<Option<&'static str>, AllocError> {
    if name.len() > MOST_COMPARED {
        return Ok(None);
    }
    let mut nearest = None;
    let mut least = 3usize;
    for key in &KEYS {
        if key.table == table {
            let edits = osa_distance(alloc, name, key.name)?;
            let most = key.name.len().min(name.len().max(2));
            if edits < least.min(most) {
                least = edits;
                nearest = Some(key.name);
            }
        }
    }
    Ok(nearest)
}
