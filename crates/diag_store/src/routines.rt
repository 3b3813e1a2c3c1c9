//! The routines (ISO 14229-1:2013, 13.2).

ghost use Rattle.std.specs.Prelude.{◌≡◌, ◌≤◌, true, length, option_map, IsTrue, IfOk, IfSome, is_some, option_copied, position, if◌then◌else◌};
ghost use Rattle.diag_store.specs.Routines.{id_of, has_id, routine_of, state_of, routine_level, result_of, started, stopped, all_idle, state_after_tick, ends_now, rows_after_tick, quiet_in, quiet_ticks, state_later, rows_later, reported, codes_after_tick};
ghost use Rattle.diag_setup.specs.Fits.{RoutineFits, OnDoneFits};
ghost use Rattle.diag_setup.specs.Rows.{is_rising};
ghost use Rattle.diag_store.specs.Opening.{dtc_row, opening_routines, routine_row};

use crate::bytes::bytes_of;
use crate::dtcs::{Dtc, DtcMemory, dtc_row};
use crate::search::{find_place, find_row};
use arrayvec::ArrayVec;
use diag_setup::{Keyed, RawDtc, RawRoutine, Setup};
use std::alloc::{AllocError, Global};
use std::marker::Model;

/// What a routine does now.
#[derive(Clone, Copy, PartialEq, Eq, Debug, Drop)]
pub enum RoutineState {
    /// Not started, or stopped.
    Idle,
    /// Started: so many ticks (milliseconds) are left.
    Running(u32),
    /// It ran to its end.
    Done,
}

/// A routine.
#[derive(Clone, Drop)]
pub struct Routine {
    /// routineIdentifier.
    pub id: u16,
    /// How long it runs, in milliseconds.
    pub time_ms: u32,
    /// What it gives when it is done.
    pub result: ArrayVec<u8, 32>,
    /// The odd sub-function of the level that it needs; 0 is open.
    pub level: u8,
    /// The DTC that it gives a status when it is done.
    pub on_done: Option<Dtc>,
    /// What it does now.
    pub state: RoutineState,
}

impl Keyed for Routine {
    ghost key_of = { id_of };

    fn key(&self) -> u32 {
        u32::from(self.id)
    }
}

/// The routines, in rising order.
#[derive(Drop)]
pub struct Routines {
    rows: Vec<Routine>,
}

impl Model for Routines {
    ghost use Rattle.std.specs.Prelude.{List, length, ◌≤◌};
    ghost use Rattle.diag_store.specs.declared.routines.Routine.{Routine};

    ghost Value = { List Routine };

    ghost view = { λ d. d.rows.items };

    ghost use Rattle.std.specs.Prelude.{◌≡◌, true};
    ghost use Rattle.diag_setup.specs.Rows.{is_rising};
    ghost use Rattle.diag_store.specs.Routines.{id_of};

    ghost invariant = { λ d. (length d.rows.items ≤ 256) × (is_rising id_of d.rows.items ≡ true) };
}

impl Routines {
    /// The routines, all idle, where memory isn't refused.
    pub fn new(alloc: Global, setup: &Setup) -> Result<Routines, AllocError>
        ensures { IfOk result (λ routines. routines ≡ opening_routines setup.now) }
    {
        let routines = setup.routines();
        let mut rows = Vec::new(alloc);
        for routine in routines {
            rows.push(routine_row(routine))?;
        }
        Ok(Routines { rows })
    }

    /// Other routines, equal to these, where memory isn't refused.
    pub fn try_copy(&self) -> Result<Routines, AllocError>
        ensures { IfOk result (λ copy. copy ≡ self.now) }
    {
        let rows = self.rows.clone()?;
        Ok(Routines { rows })
    }

    /// What a routine does now; each identifier stands once, in rising order.
    pub fn state(&self, id: u16) -> Option<RoutineState>
        ensures same { result ≡ state_of self.now id }
        ensures few { length self.now ≤ 256 }
        ensures rising { IsTrue (is_rising id_of self.now) }
    {
        let row = find_row(&self.rows, u32::from(id))?;
        Some(row.state)
    }

    /// The level that a routine needs; 0 is open.
    pub fn level(&self, id: u16) -> Option<u8>
        ensures { result ≡ routine_level self.now id }
    {
        let row = find_row(&self.rows, u32::from(id))?;
        Some(row.level)
    }

    /// What a routine gives when it is done.
    pub fn result(&self, id: u16) -> Option<&[u8]>
        ensures same { option_copied result ≡ result_of self.now id }
        ensures short { IfSome result (λ bytes. length bytes.now ≤ 32) }
    {
        let row = find_row(&self.rows, u32::from(id))?;
        Some(row.result.as_slice())
    }

    /// Starts a routine that the table has.
    pub fn start(&mut self, id: u16)
        requires { IsTrue (is_some (routine_of self.old id)) }
        ensures { self.new ≡ started self.old id }
    {
        run(&mut self.rows, id);
    }

    /// Makes a routine that the table has idle.
    pub fn stop(&mut self, id: u16)
        requires { IsTrue (is_some (routine_of self.old id)) }
        ensures { self.new ≡ stopped self.old id }
    {
        make_idle(&mut self.rows, id);
    }

    /// One tick of the running routines; with the DTC setting on, those that end set the status of their DTCs.
    pub fn tick(&mut self, dtcs: &mut DtcMemory, setting: bool)
        ensures rows { self.new ≡ rows_after_tick self.old }
        ensures dtcs { dtcs.new
            ≡ (if setting then codes_after_tick self.old dtcs.old else dtcs.old) }
    {
        if setting {
            report(&self.rows, dtcs);
        }
        tick_all(&mut self.rows);
    }

    /// How many ticks pass at least before one ends a routine: all but the last of the one that ends first; `u32::MAX`
    /// where none runs.
    pub fn quiet_ticks(&self) -> u32
        ensures { result ≡ quiet_ticks self.now }
    {
        quiet_ticks(&self.rows)
    }

    /// So many ticks that end no routine, in one move.
    pub fn pass(&mut self, count: u32)
        requires { count ≤ quiet_ticks self.old }
        ensures { self.new ≡ rows_later count self.old }
    {
        pass_all(&mut self.rows, count);
    }

    /// Makes all routines idle.
    pub fn idle_all(&mut self)
        ensures { self.new ≡ all_idle self.old }
    {
        make_all_idle(&mut self.rows);
    }
}

impl Routine {
    fn ends_now(&self) -> bool
        ensures { result ≡ ends_now self.now.state }
    {
        match self.state {
            RoutineState::Running(left) => left <= 1,
            RoutineState::Idle | RoutineState::Done => false,
        }
    }
}

impl RoutineState {
    fn after_tick(self) -> RoutineState
        ensures { result ≡ state_after_tick self }
    {
        match self {
            RoutineState::Running(left) if left <= 1 => RoutineState::Done,
            RoutineState::Running(left) => RoutineState::Running(left - 1),
            other => other,
        }
    }

    /// How many ticks don't end the routine.
    fn quiet_ticks(self) -> u32
        ensures { result ≡ quiet_in self }
    {
        match self {
            RoutineState::Running(left) => left.saturating_sub(1),
            RoutineState::Idle | RoutineState::Done => u32::MAX,
        }
    }

    /// The state so many ticks later.
    fn later(self, count: u32) -> RoutineState
        ensures { result ≡ state_later count self }
    {
        match self {
            RoutineState::Running(left) => RoutineState::Running(left.saturating_sub(count)),
            other => other,
        }
    }
}

/// The index of the row of a routine.
fn place_of(rows: &[Routine], id: u16) -> Option<usize>
    requires { is_rising id_of rows.now ≡ true }
    ensures { result ≡ position (has_id id) rows.now }
{
    find_place(rows, u32::from(id))
}

#[tactic(auto, using(crate::proofs::RowLemmas::change_at))]
fn run(rows: &mut [Routine], id: u16)
    requires { is_rising id_of rows.old ≡ true }
    ensures { rows.new ≡ started rows.old id }
{
    if let Some(place) = place_of(rows, id) {
        let row = &mut rows[place];
        row.state = RoutineState::Running(row.time_ms);
    }
}

#[tactic(auto, using(crate::proofs::RowLemmas::change_at))]
fn make_idle(rows: &mut [Routine], id: u16)
    requires { is_rising id_of rows.old ≡ true }
    ensures { rows.new ≡ stopped rows.old id }
{
    if let Some(place) = place_of(rows, id) {
        rows[place].state = RoutineState::Idle;
    }
}

fn make_all_idle(rows: &mut [Routine])
    ensures { rows.new ≡ all_idle rows.old }
{
    for row in rows.iter_mut() {
        row.state = RoutineState::Idle;
    }
}

fn tick_all(rows: &mut [Routine])
    ensures { rows.new ≡ rows_after_tick rows.old }
{
    for row in rows.iter_mut() {
        row.state = row.state.after_tick();
    }
}

fn quiet_ticks(rows: &[Routine]) -> u32
    ensures { result ≡ quiet_ticks rows.now }
{
    let mut least = u32::MAX;
    for row in rows {
        least = least.min(row.state.quiet_ticks());
    }
    least
}

fn pass_all(rows: &mut [Routine], count: u32)
    ensures { rows.new ≡ rows_later count rows.old }
{
    for row in rows.iter_mut() {
        row.state = row.state.later(count);
    }
}

/// Sets the DTCs of the routines that end at this tick, in order.
fn report(rows: &[Routine], dtcs: &mut DtcMemory)
    ensures { dtcs.new ≡ codes_after_tick rows.now dtcs.old }
{
    for row in rows {
        if row.ends_now() {
            report_one(row.on_done, dtcs);
        }
    }
}

fn report_one(on_done: Option<Dtc>, dtcs: &mut DtcMemory)
    ensures { dtcs.new ≡ reported dtcs.old on_done }
{
    if let Some(on_done) = on_done {
        dtcs.set(on_done.code, on_done.status);
    }
}

fn routine_row(routine: &RawRoutine) -> Routine
    requires { RoutineFits routine.now }
    ensures { result ≡ routine_row routine.now }
{
    Routine {
        id: routine.id as u16,
        time_ms: routine.time_ms,
        result: bytes_of(routine.result.as_slice()),
        level: routine.level as u8,
        on_done: on_done_row(&routine.on_done),
        state: RoutineState::Idle,
    }
}

fn on_done_row(on_done: &Option<RawDtc>) -> Option<Dtc>
    requires { OnDoneFits on_done.now }
    ensures { result ≡ option_map dtc_row on_done.now }
{
    match on_done {
        Some(row) => Some(dtc_row(row)),
        None => None,
    }
}
