//! The data identifiers (ISO 14229-1:2013, 10.2 and 10.7).

ghost use Rattle.std.specs.Prelude.{◌≡◌, ◌≤◌, true, OnOk, OnErr, IfOk, IsTrue, option_copied, position, length, Some};
ghost use Rattle.diag_store.specs.Dids.{id_of, has_id, row_of, value_of, rule_of, write_answer, with_value};
ghost use Rattle.diag_store.specs.Fault.{did_fault_text};
ghost use Rattle.diag_setup.specs.Fits.{DidFits};
ghost use Rattle.diag_setup.specs.Rows.{is_rising};
ghost use Rattle.diag_store.specs.Opening.{opening_dids, did_row};

use crate::bytes::bytes_of;
use crate::search::{find_place, find_row};
use arrayvec::ArrayVec;
use diag_setup::{Keyed, RawDid, Setup};
use std::alloc::{AllocError, Global};
use std::error::Error;
use std::fmt;
use std::marker::Model;

/// Who may read and write a data identifier.
#[derive(Clone, Copy, PartialEq, Eq, Debug, Drop)]
pub struct DidRule {
    /// The odd sub-function of the level that reading needs; 0 is open.
    pub read_level: u8,
    /// Whether it can be written.
    pub write: bool,
    /// The odd sub-function of the level that writing needs; 0 is open.
    pub write_level: u8,
}

/// A data identifier with its value.
#[derive(Clone, Drop)]
pub struct DidRow {
    /// dataIdentifier.
    pub id: u16,
    /// Its value now.
    pub value: ArrayVec<u8, 255>,
    /// Who may read and write it.
    pub rule: DidRule,
}

/// Why a value was not written.
#[derive(Clone, Copy, PartialEq, Eq, Debug, Drop)]
pub enum DidFault {
    /// No such identifier.
    Unknown,
    /// Another length than the value kept.
    Length,
}

impl fmt::Display for DidFault {
    ghost output = { λ x. Some (did_fault_text x) };

    fn fmt<W: fmt::Write>(&self, f: &mut fmt::Formatter<W>) -> fmt::Result {
        match self {
            DidFault::Unknown => write!(f, "no such identifier"),
            DidFault::Length => write!(f, "another length than the value kept"),
        }
    }
}

impl Error for DidFault {}

impl Keyed for DidRow {
    ghost key_of = { id_of };

    fn key(&self) -> u32 {
        u32::from(self.id)
    }
}

/// The data identifiers, in rising order.
#[derive(Drop)]
pub struct Dids {
    rows: Vec<DidRow>,
}

impl Model for Dids {
    ghost use Rattle.std.specs.Prelude.{List, length, ◌≤◌};
    ghost use Rattle.diag_store.specs.declared.dids.DidRow.{DidRow};

    ghost Value = { List DidRow };

    ghost view = { λ d. d.rows.items };

    ghost use Rattle.std.specs.Prelude.{◌≡◌, true};
    ghost use Rattle.diag_setup.specs.Rows.{is_rising};
    ghost use Rattle.diag_store.specs.Dids.{id_of};

    ghost invariant = { λ d. (length d.rows.items ≤ 1024) × (is_rising id_of d.rows.items ≡ true) };
}

impl Dids {
    /// The identifiers with their values at the opening, where memory isn't refused.
    pub fn new(alloc: Global, setup: &Setup) -> Result<Dids, AllocError>
        ensures { IfOk result (λ dids. dids ≡ opening_dids setup.now) }
    {
        let dids = setup.dids();
        let mut rows = Vec::new(alloc);
        for did in dids {
            rows.push(did_row(did))?;
        }
        Ok(Dids { rows })
    }

    /// Another table with the same rows, where memory isn't refused.
    pub fn try_copy(&self) -> Result<Dids, AllocError>
        ensures { IfOk result (λ copy. copy ≡ self.now) }
    {
        let rows = self.rows.clone()?;
        Ok(Dids { rows })
    }

    /// The allocator that the table was made with.
    pub fn alloc(&self) -> Global {
        *self.rows.allocator()
    }

    /// The row of an identifier, with its value and its rule.
    pub fn row(&self, id: u16) -> Option<&DidRow>
        ensures { option_copied result ≡ row_of self.now id }
    {
        find_row(&self.rows, u32::from(id))
    }

    /// The value of an identifier; each stands once, in rising order.
    pub fn get(&self, id: u16) -> Option<&[u8]>
        ensures same { option_copied result ≡ value_of self.now id }
        ensures few { length self.now ≤ 1024 }
        ensures rising { IsTrue (is_rising id_of self.now) }
    {
        let row = find_row(&self.rows, u32::from(id))?;
        Some(row.value.as_slice())
    }

    /// Who may read and write an identifier.
    pub fn rule(&self, id: u16) -> Option<DidRule>
        ensures { result ≡ rule_of self.now id }
    {
        let row = self.row(id)?;
        Some(row.rule)
    }

    /// Writes a value of the same length; after an error all is as before.
    pub fn write(&mut self, id: u16, value: &[u8]) -> Result<(), DidFault>
        ensures answer { result ≡ write_answer self.old id value.now }
        ensures ok { OnOk result (self.new ≡ with_value self.old id value.now) }
        ensures err { OnErr result (self.new ≡ self.old) }
    {
        let Some(row) = find_row(&self.rows, u32::from(id)) else {
            return Err(DidFault::Unknown);
        };
        if row.value.len() != value.len() {
            return Err(DidFault::Length);
        }
        set_value(&mut self.rows, id, value);
        Ok(())
    }
}

/// Puts a value in the row of an identifier, if there is one.
#[tactic(auto, using(crate::proofs::RowLemmas::change_at))]
fn set_value(rows: &mut [DidRow], id: u16, value: &[u8])
    requires rising { is_rising id_of rows.old ≡ true }
    requires fits { length value.now ≤ 255 }
    ensures { rows.new ≡ with_value rows.old id value.now }
{
    if let Some(place) = place_of(rows, id) {
        rows[place].value = bytes_of(value);
    }
}

/// The index of the row of an identifier.
fn place_of(rows: &[DidRow], id: u16) -> Option<usize>
    requires { is_rising id_of rows.now ≡ true }
    ensures { result ≡ position (has_id id) rows.now }
{
    find_place(rows, u32::from(id))
}

fn did_row(did: &RawDid) -> DidRow
    requires { DidFits did.now }
    ensures { result ≡ did_row did.now }
{
    DidRow {
        id: did.id as u16,
        value: bytes_of(did.value.as_slice()),
        rule: DidRule {
            read_level: did.read_level as u8,
            write: did.write,
            write_level: did.write_level as u8,
        },
    }
}
