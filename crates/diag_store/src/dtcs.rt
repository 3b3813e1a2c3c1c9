//! The DTCs (ISO 14229-1:2013, 11.2 and 11.3).

ghost use Rattle.std.specs.Prelude.{IsTrue, ◌≡◌, ◌≤◌, ℕ, true, IfOk, is_some, option_map, length, map, slice_get};
ghost use Rattle.std.specs.Bool.{OnFalse};
ghost use Rattle.diag_setup.specs.Rows.{is_rising};
ghost use Rattle.diag_store.specs.Dtcs.{code_of, status_of, with_status, set_status, is_known_group, cleared, cleared_status, matching, row_pair};
ghost use Rattle.diag_store.specs.Opening.{opening_codes, dtc_row};

use crate::search::{find_place, find_row};
use diag_setup::{Keyed, RawDtc, Setup};
use std::alloc::{AllocError, Global};
use std::marker::Model;

/// A DTC with its status byte.
#[derive(Clone, Copy, PartialEq, Eq, Debug, Drop)]
pub struct Dtc {
    /// The code of three bytes.
    pub code: u32,
    /// statusOfDTC (D.2).
    pub status: u8,
}

impl Keyed for Dtc {
    ghost key_of = { code_of };

    fn key(&self) -> u32 {
        self.code
    }
}

/// The DTCs, in rising order.
#[derive(Drop)]
pub struct DtcMemory {
    rows: Vec<Dtc>,
}

impl Model for DtcMemory {
    ghost use Rattle.std.specs.Prelude.{List, length, ◌≤◌};
    ghost use Rattle.diag_store.specs.declared.dtcs.Dtc.{Dtc};

    ghost Value = { List Dtc };

    ghost view = { λ d. d.rows.items };

    ghost use Rattle.std.specs.Prelude.{◌≡◌, true};
    ghost use Rattle.diag_setup.specs.Rows.{is_rising};
    ghost use Rattle.diag_store.specs.Dtcs.{code_of};

    ghost invariant = { λ d.
        (length d.rows.items ≤ 4096) × (is_rising code_of d.rows.items ≡ true) };
}

/// groupOfDTC of all DTCs (ISO 14229-1:2013, D.1).
pub const ALL_GROUPS: u32 = 0xFF_FFFF;

/// statusOfDTC after clearing: bits 4 and 6, testNotCompletedSinceLastClear and testNotCompletedThisOperationCycle
/// (D.2).
const CLEARED_STATUS: u8 = 0x50;

impl DtcMemory {
    /// The DTCs with their status at the opening, where memory isn't refused.
    pub fn new(alloc: Global, setup: &Setup) -> Result<DtcMemory, AllocError>
        ensures { IfOk result (λ dtcs. dtcs ≡ opening_codes setup.now) }
    {
        let dtcs = setup.dtcs();
        let mut rows = Vec::new(alloc);
        for row in dtcs {
            rows.push(dtc_row(row))?;
        }
        Ok(DtcMemory { rows })
    }

    /// Another memory with the same DTCs, where memory isn't refused.
    pub fn try_copy(&self) -> Result<DtcMemory, AllocError>
        ensures { IfOk result (λ copy. copy ≡ self.now) }
    {
        let rows = self.rows.clone()?;
        Ok(DtcMemory { rows })
    }

    /// How many DTCs there are; they stand in rising order, each once.
    pub fn len(&self) -> usize
        ensures same { result ≡ length self.now }
        ensures fits { result ≤ 4096 }
        ensures rising { IsTrue (is_rising code_of self.now) }
    {
        self.rows.len()
    }

    /// A DTC with its status, by its place in rising order.
    pub fn at(&self, i: usize) -> Option<(u32, u8)>
        ensures { result ≡ option_map row_pair (slice_get self.now i) }
    {
        let row = self.rows.get(i)?;
        Some((row.code, row.status))
    }

    /// The status of a DTC.
    pub fn status(&self, code: u32) -> Option<u8>
        ensures { result ≡ status_of self.now code }
    {
        let row = find_row(&self.rows, code)?;
        Some(row.status)
    }

    /// Gives a DTC another status; whether the DTC is known.
    #[tactic(auto, using(crate::proofs::TableLemmas::with_status_unknown))]
    pub fn set(&mut self, code: u32, status: u8) -> bool
        ensures answer { result ≡ is_some (status_of self.old code) }
        ensures state { self.new ≡ with_status self.old code status }
        ensures unknown { OnFalse result (self.new ≡ self.old) }
    {
        let known = self.status(code).is_some();
        put_status(&mut self.rows, code, status);
        known
    }

    /// Clears a DTC, or all DTCs; whether the group is known.
    pub fn clear(&mut self, group: u32) -> bool
        ensures answer { result ≡ is_known_group self.old group }
        ensures state { self.new ≡ cleared self.old group }
        ensures unknown { OnFalse result (self.new ≡ self.old) }
    {
        if group == ALL_GROUPS {
            clear_all(&mut self.rows);
            return true;
        }
        self.set(group, CLEARED_STATUS)
    }

    /// How many DTCs have a bit of the mask.
    pub fn count(&self, mask: u8) -> u16
        ensures { result ≡ length (matching self.now mask) }
    {
        count_matching(&self.rows, mask)
    }
}

/// Puts a status in the row of a DTC, if there is one.
#[tactic(auto, using(crate::proofs::RowLemmas::change_at))]
fn put_status(rows: &mut [Dtc], code: u32, status: u8)
    requires { is_rising code_of rows.old ≡ true }
    ensures { rows.new ≡ with_status rows.old code status }
{
    if let Some(place) = find_place(rows, code) {
        rows[place].status = status;
    }
}

fn clear_all(rows: &mut [Dtc])
    ensures { rows.new ≡ map (set_status cleared_status) rows.old }
{
    for row in rows.iter_mut() {
        row.status = CLEARED_STATUS;
    }
}

fn count_matching(rows: &[Dtc], mask: u8) -> u16
    requires { length rows.now ≤ 4096 }
    ensures { result ≡ length (matching rows.now mask) }
{
    rows.iter().filter(|row| row.status & mask != 0).count() as u16
}

pub(crate) fn dtc_row(row: &RawDtc) -> Dtc
    requires { row.now.status ≤ 0xFF }
    ensures { result ≡ dtc_row row.now }
{
    Dtc {
        code: row.code,
        status: row.status as u8,
    }
}
