//! Lists of rows and of bytes.

ghost use Rattle.std.specs.Prelude.{◌≡◌, ◌∷◌, [], ◌++◌, length, is_ok, if◌then◌else◌, false};
ghost use Rattle.diag_setup.specs.Rows.{has_repeat, in_order};

use crate::keyed::sort_rows;
use crate::raw::Keyed;
use std::alloc::{AllocError, Global};
use std::marker::Model;

/// The rows of a table, or the bytes of a value: a `Vec`, seen as the list of its items.
#[derive(Drop)]
pub struct Items<T> {
    kept: Vec<T>,
}

impl<T> Model for Items<T> {
    ghost use Rattle.std.specs.Prelude.{List};

    ghost Value = { List T };

    ghost view = { λ i. i.kept.items };
}

impl<T> Items<T> {
    /// No rows.
    pub fn new(alloc: Global) -> Items<T>
        ensures { result ≡ [] }
    {
        Items {
            kept: Vec::new(alloc),
        }
    }

    /// These rows or bytes.
    pub fn from_vec(kept: Vec<T>) -> Items<T>
        ensures { result ≡ kept.items }
    {
        Items { kept }
    }

    /// How many there are.
    pub fn len(&self) -> usize
        ensures { result ≡ length self.now }
    {
        self.kept.len()
    }

    /// All of them in order.
    pub fn as_slice(&self) -> &[T]
        ensures { result.now ≡ self.now }
    {
        self.kept.as_slice()
    }
}

impl<T: Drop> Items<T> {
    /// Adds an item at the end; one for which there is no memory is dropped.
    pub fn push(&mut self, item: T) -> Result<(), AllocError>
        ensures { self.new ≡ (if is_ok result then self.old ++ item ∷ [] else self.old) }
    {
        self.kept.push(item)?;
        Ok(())
    }
}

impl<T: Keyed> Items<T> {
    /// Sorts rows of which no two have one key, where they stand.
    pub(crate) fn sort(&mut self)
        requires { has_repeat T.key_of self.old ≡ false }
        ensures { self.new ≡ in_order T.key_of self.old }
    {
        sort_rows(&mut self.kept);
    }
}
