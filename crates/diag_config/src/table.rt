//! The keys of a table.

ghost use Rattle.std.specs.Prelude.{◌≡◌, option_map, Err, IsTrue, Option, Result};
ghost use Rattle.toml.specs.Data.{get_member, Members};
ghost use Rattle.toml.specs.View.{view, table_view, items_view};
ghost use Rattle.diag_config.specs.Key.{Fault, KeyGives, is_list, is_taken};
ghost use Rattle.diag_config.specs.Setup.{at_top, each, list, optional, required, row, with_default};

use crate::fault::KeyFault;
use crate::value::FromValue;
use diag_setup::Items;
use std::alloc::Global;
use toml::{Table, Value};

/// What a table has under a name.
fn find<'a>(table: &'a Table, name: &str) -> Option<&'a Value>
    ensures { option_map (λ v. view v.now) result ≡ get_member name.now (table_view table.now) }
{
    table.get(name)
}

/// What a key that may be left out says. In the text its name is the last part of the key.
#[tactic(auto, unfolding(crate::specs::Setup::optional))]
pub fn optional<K: FromValue>(
    alloc: Global,
    table: &Table,
    name: &str,
    key: &'static str,
) -> Result<Option<K>, KeyFault>
    ensures gives { KeyGives (option_map K.said) result
        (optional K.kind (table_view table.now) name.now key.now) }
    ensures memory { result ≡ Err KeyFault.Memory
        → IsTrue (is_taken K.takes (get_member name.now (table_view table.now))) }
{
    match find(table, name) {
        None => Ok(None),
        Some(value) => Ok(Some(K::from_value(alloc, key, value)?)),
    }
}

/// What a key that may be left out says, or the default. In the text its name is the last part of the key.
#[tactic(auto, unfolding(crate::specs::Setup::with_default))]
pub fn with_default<K: FromValue>(
    alloc: Global,
    table: &Table,
    name: &str,
    key: &'static str,
    default: K,
) -> Result<K, KeyFault>
    ensures gives { KeyGives K.said result
        (with_default K.kind (table_view table.now) name.now key.now (K.said default)) }
    ensures memory { result ≡ Err KeyFault.Memory
        → IsTrue (is_taken K.takes (get_member name.now (table_view table.now))) }
{
    match find(table, name) {
        None => Ok(default),
        Some(value) => K::from_value(alloc, key, value),
    }
}

/// What a key at the top of the setup says, or the default. Its name in the text is the whole key.
pub fn at_top<K: FromValue>(
    alloc: Global,
    table: &Table,
    key: &'static str,
    default: K,
) -> Result<K, KeyFault>
    ensures gives { KeyGives K.said result (at_top K.kind (table_view table.now) key.now (K.said default)) }
    ensures memory { result ≡ Err KeyFault.Memory
        → IsTrue (is_taken K.takes (get_member key.now (table_view table.now))) }
{
    with_default(alloc, table, key, key, default)
}

/// What a key that may not be left out says. In the text its name is the last part of the key.
#[tactic(auto, unfolding(crate::specs::Setup::required))]
pub fn required<K: FromValue>(
    alloc: Global,
    table: &Table,
    name: &str,
    key: &'static str,
) -> Result<K, KeyFault>
    ensures gives { KeyGives K.said result (required K.kind (table_view table.now) name.now key.now) }
    ensures memory { result ≡ Err KeyFault.Memory
        → IsTrue (is_taken K.takes (get_member name.now (table_view table.now))) }
{
    match find(table, name) {
        None => Err(KeyFault::Missing(key)),
        Some(value) => K::from_value(alloc, key, value),
    }
}

/// A row: a table, read by its own keys.
pub trait FromTable: Sized + Drop {
    // what its keys say, or the first fault among them
    ghost at: { Members → Result Self Fault };

    fn from_table(alloc: Global, table: &Table) -> Result<Self, KeyFault>
        ensures { KeyGives (λ x. x) result (at (table_view table.now)) };
}

/// What a row says.
fn row<R: FromTable>(alloc: Global, key: &'static str, value: &Value) -> Result<R, KeyFault>
    ensures { KeyGives (λ x. x) result (row R.at key.now (view value.now)) }
{
    match value {
        Value::Table(table) => R::from_table(alloc, table),
        _ => Err(KeyFault::BadValue(key)),
    }
}

/// What the rows of a list say, one after the other.
fn each<R: FromTable>(
    alloc: Global,
    key: &'static str,
    items: &[Value],
) -> Result<Items<R>, KeyFault>
    ensures { KeyGives (λ rows. rows) result (each (row R.at key.now) (items_view items.now)) }
{
    let mut read = Items::new(alloc);
    for item in items {
        read.push(row(alloc, key, item)?)?;
    }
    Ok(read)
}

impl<R: FromTable> FromValue for Items<R> {
    ghost use Rattle.std.specs.Prelude.{List};

    ghost Said = { List R };

    ghost said = { λ rows. rows };

    ghost kind = { list (row R.at) };

    ghost takes = { is_list };

    fn from_value(alloc: Global, key: &'static str, value: &Value) -> Result<Items<R>, KeyFault> {
        match value {
            Value::Array(items) => each(alloc, key, items.as_slice()),
            _ => Err(KeyFault::BadValue(key)),
        }
    }
}
