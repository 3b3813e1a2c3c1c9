//! Rows with a key of their own.

ghost use Rattle.std.specs.Prelude.{◌≡◌, ◌≤◌, false, length, map};
ghost use Rattle.std.specs.List.Sorted.{IsNonDecreasingBy};
ghost use Rattle.diag_setup.specs.Rows.{has_key, has_repeat, in_order};
ghost use Rattle.diag_setup.specs.Setup.{did_id, dtc_code, routine_id, level_sub, itself};

use crate::raw::{Keyed, RawDid, RawDtc, RawLevel, RawRoutine};
use arrayvec::ArrayVec;

/// The most rows of a table whose keys differ.
const MOST_ROWS: usize = 4096;

impl Keyed for RawDid {
    ghost key_of = { did_id };

    fn key(&self) -> u32 {
        self.id
    }
}

impl Keyed for RawDtc {
    ghost key_of = { dtc_code };

    fn key(&self) -> u32 {
        self.code
    }
}

impl Keyed for RawRoutine {
    ghost key_of = { routine_id };

    fn key(&self) -> u32 {
        self.id
    }
}

impl Keyed for RawLevel {
    ghost key_of = { level_sub };

    fn key(&self) -> u32 {
        self.request_seed
    }
}

impl Keyed for u32 {
    ghost key_of = { itself };

    fn key(&self) -> u32 {
        *self
    }
}

/// Whether a table has a row of the key.
pub fn has_key<T: Keyed>(rows: &[T], key: u32) -> bool
    ensures { result ≡ has_key T.key_of rows.now key }
{
    rows.iter().any(|row| row.key() == key)
}

/// The keys of rows.
fn keys_of<T: Keyed>(rows: &[T]) -> ArrayVec<u32, MOST_ROWS>
    requires { length rows.now ≤ 4096 }
    ensures { result.items ≡ map T.key_of rows.now }
{
    let mut keys = ArrayVec::new();
    for row in rows {
        keys.push(row.key());
    }
    keys
}

/// Whether two of these numbers, which don't fall, are equal.
fn has_equal(numbers: &[u32]) -> bool
    requires { IsNonDecreasingBy itself numbers.now }
    ensures { result ≡ has_repeat itself numbers.now }
{
    let mut rest = numbers;
    while let [first, tail @ ..] = rest {
        let [second, ..] = tail else {
            return false;
        };
        if *first == *second {
            return true;
        }
        rest = tail;
    }
    false
}

/// Whether two rows have one key.
pub fn has_repeat<T: Keyed>(rows: &[T]) -> bool
    requires { length rows.now ≤ 4096 }
    ensures { result ≡ has_repeat T.key_of rows.now }
{
    let mut keys = keys_of(rows);
    let sorted = keys.as_mut_slice();
    sorted.sort_unstable();
    has_equal(sorted)
}

/// Sorts rows of which no two have one key, where they stand.
pub fn sort_rows<T: Keyed>(rows: &mut [T])
    requires { has_repeat T.key_of rows.old ≡ false }
    ensures { rows.new ≡ in_order T.key_of rows.old }
{
    rows.sort_unstable_by_key(|row| row.key());
}
