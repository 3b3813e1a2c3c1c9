//! The seeds and keys of the security levels (ISO 14229-1:2013, 9.4).

ghost use Rattle.std.specs.Prelude.{◌≡◌, ◌≤◌, ◌+◌, ◌%◌, true, option_and_then, option_copied, find, position, length, map, slice_get, IfOk, IsTrue};
ghost use Rattle.std.specs.List.{All};
ghost use Rattle.diag_setup.specs.Fits.{LevelFits, KeyRowFits};
ghost use Rattle.diag_setup.specs.Rows.{is_rising};
ghost use Rattle.diag_setup.specs.Setup.{level_sub};
ghost use Rattle.diag_store.specs.Rows.{change_first};
ghost use Rattle.diag_store.specs.Security.{has_sub, sub_of, first_key_len, moved_on};
ghost use Rattle.diag_store.specs.Opening.{level_row, key_row};

use crate::bytes::bytes_of;
use crate::search::{find_place, find_row};
use arrayvec::ArrayVec;
use diag_setup::{Keyed, RawKeyRow, RawLevel};
use std::alloc::{AllocError, Global};
use std::marker::Model;

/// A seed with its key.
#[derive(Clone, Drop)]
pub struct KeyRow {
    /// securitySeed.
    pub seed: ArrayVec<u8, 255>,
    /// The securityKey that it asks for.
    pub key: ArrayVec<u8, 255>,
}

/// The rows of a level, one at least.
#[derive(Drop)]
pub struct KeyRows {
    rows: Vec<KeyRow>,
}

impl Model for KeyRows {
    ghost use Rattle.std.specs.Prelude.{List, length, ◌≤◌};
    ghost use Rattle.diag_store.specs.declared.levels.KeyRow.{KeyRow};

    ghost Value = { List KeyRow };

    ghost view = { λ d. d.rows.items };

    ghost invariant = { λ d. (1 ≤ length d.rows.items) × (length d.rows.items ≤ 64) };
}

/// A security level: its odd sub-function, its rows, and which row is next.
#[derive(Drop)]
pub struct Level {
    /// The sub-function requestSeed.
    pub request_seed: u8,
    /// Whether every key of the length of its keys is right.
    pub any_key: bool,
    /// The seeds with their keys.
    pub rows: KeyRows,
    /// The row of the next new seed, from 0.
    pub next: u8,
}

/// The security levels.
#[derive(Drop)]
pub struct Levels {
    rows: Vec<Level>,
}

impl Model for Levels {
    ghost use Rattle.std.specs.Prelude.{List, length, ◌≤◌};
    ghost use Rattle.diag_store.specs.declared.levels.Level.{Level};

    ghost Value = { List Level };

    ghost view = { λ d. d.rows.items };

    ghost use Rattle.std.specs.Prelude.{◌≡◌, true};
    ghost use Rattle.diag_setup.specs.Rows.{is_rising};
    ghost use Rattle.diag_store.specs.Security.{sub_of};

    ghost invariant = { λ d. (length d.rows.items ≤ 4) × (is_rising sub_of d.rows.items ≡ true) };
}

impl Keyed for Level {
    ghost key_of = { sub_of };

    fn key(&self) -> u32 {
        u32::from(self.request_seed)
    }
}

impl Levels {
    pub(crate) fn new(alloc: Global, levels: &[RawLevel]) -> Result<Levels, AllocError>
        requires few { length levels.now ≤ 4 }
        requires rising { IsTrue (is_rising level_sub levels.now) }
        requires fit { All LevelFits levels.now }
        ensures { IfOk result (λ made. made ≡ map level_row levels.now) }
    {
        let mut rows = Vec::new(alloc);
        for level in levels {
            rows.push(level_row(alloc, level)?)?;
        }
        Ok(Levels { rows })
    }

    pub(crate) fn try_copy(&self) -> Result<Levels, AllocError>
        ensures { IfOk result (λ copy. copy ≡ self.now) }
    {
        let mut rows = Vec::new(*self.rows.allocator());
        for level in &self.rows {
            rows.push(level.try_copy()?)?;
        }
        Ok(Levels { rows })
    }

    pub(crate) fn find(&self, sub: u8) -> Option<&Level>
        ensures { option_copied result ≡ find (has_sub sub) self.now }
    {
        find_row(&self.rows, u32::from(sub))
    }

    /// A row of a level.
    pub(crate) fn row_at(&self, sub: u8, row: u8) -> Option<&KeyRow>
        ensures { option_copied result
            ≡ option_and_then (λ level. slice_get level.rows row) (find (has_sub sub) self.now) }
    {
        let level = self.find(sub)?;
        level.rows.get(row)
    }

    /// Goes to the next row of a level, after the last to the first.
    pub(crate) fn move_on(&mut self, sub: u8)
        ensures { self.new ≡ change_first (has_sub sub) moved_on self.old }
    {
        move_on(&mut self.rows, sub);
    }
}

fn level_row(alloc: Global, level: &RawLevel) -> Result<Level, AllocError>
    requires { LevelFits level.now }
    ensures { IfOk result (λ made. made ≡ level_row level.now) }
{
    let rows = KeyRows::new(alloc, level.rows.as_slice())?;
    Ok(Level {
        request_seed: level.request_seed as u8,
        any_key: level.any_key,
        rows,
        next: 0,
    })
}

impl Level {
    fn try_copy(&self) -> Result<Level, AllocError>
        ensures { IfOk result (λ copy. copy ≡ self.now) }
    {
        let rows = self.rows.try_copy()?;
        Ok(Level {
            request_seed: self.request_seed,
            any_key: self.any_key,
            rows,
            next: self.next,
        })
    }
}

impl KeyRows {
    fn try_copy(&self) -> Result<KeyRows, AllocError>
        ensures { IfOk result (λ copy. copy ≡ self.now) }
    {
        let rows = self.rows.clone()?;
        Ok(KeyRows { rows })
    }

    fn new(alloc: Global, key_rows: &[RawKeyRow]) -> Result<KeyRows, AllocError>
        requires some { 1 ≤ length key_rows.now }
        requires few { length key_rows.now ≤ 64 }
        requires fit { All KeyRowFits key_rows.now }
        ensures { IfOk result (λ made. made ≡ map key_row key_rows.now) }
    {
        let mut rows = Vec::new(alloc);
        for row in key_rows {
            rows.push(key_row(row))?;
        }
        Ok(KeyRows { rows })
    }

    fn len(&self) -> usize
        ensures same { result ≡ length self.now }
        ensures some { 1 ≤ result }
        ensures fits { result ≤ 64 }
    {
        self.rows.len()
    }

    fn get(&self, row: u8) -> Option<&KeyRow>
        ensures { option_copied result ≡ slice_get self.now row }
    {
        self.rows.get(row as usize)
    }

    pub(crate) fn key_len(&self) -> usize
        ensures { result ≡ first_key_len self.now }
    {
        match self.rows.as_slice() {
            [first, ..] => first.key.len(),
            [] => 0,
        }
    }
}

#[tactic(auto, using(crate::proofs::RowLemmas::change_at))]
fn move_on(levels: &mut [Level], sub: u8)
    requires { is_rising sub_of levels.old ≡ true }
    ensures { levels.new ≡ change_first (has_sub sub) moved_on levels.old }
{
    if let Some(place) = place_of(levels, sub) {
        let level = &mut levels[place];
        level.next = row_after(level.next, level.rows.len());
    }
}

/// The index of a level.
fn place_of(levels: &[Level], sub: u8) -> Option<usize>
    requires { is_rising sub_of levels.now ≡ true }
    ensures { result ≡ position (has_sub sub) levels.now }
{
    find_place(levels, u32::from(sub))
}

/// The row after, and after the last the first.
fn row_after(row: u8, rows: usize) -> u8
    requires { (1 ≤ rows) × (rows ≤ 64) }
    ensures { result ≡ (row + 1) % rows }
{
    ((row as usize + 1) % rows) as u8
}

fn key_row(row: &RawKeyRow) -> KeyRow
    requires { KeyRowFits row.now }
    ensures { result ≡ key_row row.now }
{
    KeyRow {
        seed: bytes_of(row.seed.as_slice()),
        key: bytes_of(row.key.as_slice()),
    }
}
