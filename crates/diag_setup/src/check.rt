//! The tests that a raw setup has to pass.

ghost use Rattle.std.specs.Prelude.{◌≡◌, ◌==◌, ◌≤◌, ◌&&◌, Bool, IsTrue, length, nat_le, not};
ghost use Rattle.std.specs.List.{All, list_all, list_any};
ghost use Rattle.std.specs.Bool.{OnTrue};
ghost use Rattle.diag_setup.specs.Rows.{is_between, have_one_length};
ghost use Rattle.diag_setup.specs.Setup.{can_ids, has_name, has_repeated_name, has_no_rows, is_known_level, done_code_is_known, did_levels_are_known, routine_level_is_known, answer_level_is_known, lacks_rows, has_duplicates, names_unknown_code, names_unknown_level, key_of, seed_of, fault_of, is_in_range, times_are_in_range, link_is_in_range, server_is_in_range, tester_is_in_range, did_is_in_range, dtc_is_in_range, routine_is_in_range, key_row_is_in_range, level_is_in_range, is_st_min, is_tx_dl, is_name_byte, is_can_id, is_wide_id, is_id_by, is_own_id, id_by, functional_number, functional_of, asks_by, mixes_with, mixes_among, has_repeated_id, pattern_is_in_range};
ghost use Rattle.diag_setup.specs.Fits.{IdFits, TesterFits};

use crate::fault::SetupFault;
use crate::keyed::{has_key, has_repeat};
use crate::raw::{
    RawAnswer, RawDid, RawDtc, RawKeyRow, RawLevel, RawPattern, RawRoutine, RawSetup, RawTester,
};
use arrayvec::ArrayVec;
use diag_pdu::DataLength;

/// The most testers of a setup.
const MOST_TESTERS: usize = 8;

/// The most data identifiers.
const MOST_DIDS: usize = 1024;

/// The most DTCs.
const MOST_DTCS: usize = 4096;

/// The most routines.
const MOST_ROUTINES: usize = 256;

/// The most security levels.
const MOST_LEVELS: usize = 4;

/// The most rows of a level.
const MOST_KEY_ROWS: usize = 64;

/// The most patterns of requests that aren't compared.
const MOST_IGNORED: usize = 256;

impl RawSetup {
    fn times_are_in_range(&self) -> bool
        ensures { result ≡ times_are_in_range self.now }
    {
        self.p2_ms <= 0xFFFF
            && self.p2_star_10ms <= 0xFFFF
            && is_between(1, 600_000, self.s3_ms)
            && is_between(1, 60_000, self.n_bs_ms)
            && is_between(1, 60_000, self.n_cr_ms)
    }

    fn link_is_in_range(&self) -> bool
        ensures { result ≡ link_is_in_range self.now }
    {
        self.block_size <= 0xFF
            && is_st_min(self.st_min)
            && is_between(8, 0xFFFF, self.max_request)
            && self.pad_byte <= 0xFF
            && is_tx_dl(self.tx_dl)
            && self.fd_flags <= 15
            && is_can_id(self.functional)
    }

    fn server_is_in_range(&self) -> bool
        ensures { result ≡ server_is_in_range self.now }
    {
        self.availability <= 0xFF
            && is_between(1, 0xFF, self.attempts)
            && is_between(1, 600_000, self.delay_ms)
    }

    fn is_in_range(&self) -> bool
        ensures answer { result ≡ is_in_range self.now }
        ensures testers { OnTrue result (length self.now.testers ≤ 8) }
        ensures dids { OnTrue result (length self.now.dids ≤ 1024) }
        ensures dtcs { OnTrue result (length self.now.dtcs ≤ 4096) }
        ensures routines { OnTrue result (length self.now.routines ≤ 256) }
        ensures levels { OnTrue result (length self.now.levels ≤ 4) }
    {
        self.times_are_in_range()
            && self.link_is_in_range()
            && self.server_is_in_range()
            && are_in_range(self.testers.as_slice(), MOST_TESTERS)
            && are_in_range(self.dids.as_slice(), MOST_DIDS)
            && are_in_range(self.dtcs.as_slice(), MOST_DTCS)
            && are_in_range(self.routines.as_slice(), MOST_ROUTINES)
            && are_in_range(self.levels.as_slice(), MOST_LEVELS)
            && self.answers_are_in_range()
            && are_in_range(self.ignore.as_slice(), MOST_IGNORED)
    }
}

/// What may stand in a setup only within a range.
pub(crate) trait Ranged {
    ghost in_range: { Self → Bool };

    /// Whether it is within its range.
    fn is_in_range(&self) -> bool
        ensures { result ≡ in_range self.now };
}

/// Whether there are at most so many rows, each within its range.
pub(crate) fn are_in_range<T: Ranged>(rows: &[T], most: usize) -> bool
    ensures answer { result
        ≡ (nat_le (length rows.now) most && list_all T.in_range rows.now) }
    ensures few { OnTrue result (length rows.now ≤ most) }
{
    rows.len() <= most && all_in_range(rows)
}

/// Whether each row is within its range.
fn all_in_range<T: Ranged>(rows: &[T]) -> bool
    ensures { result ≡ list_all T.in_range rows.now }
{
    rows.iter().all(|row| row.is_in_range())
}

impl Ranged for RawTester {
    ghost in_range = { tester_is_in_range };

    fn is_in_range(&self) -> bool {
        is_between_len(1, 16, self.name.len())
            && is_name(self.name.as_slice())
            && is_id_by(self.extended, self.request)
            && is_id_by(self.extended, self.response)
            && is_own_id(self.extended, &self.functional)
    }
}

impl Ranged for RawDid {
    ghost in_range = { did_is_in_range };

    fn is_in_range(&self) -> bool {
        self.id <= 0xFFFF && is_between_len(1, 255, self.value.len())
    }
}

impl Ranged for RawDtc {
    ghost in_range = { dtc_is_in_range };

    fn is_in_range(&self) -> bool {
        self.code <= 0xFF_FFFE && self.status <= 0xFF
    }
}

impl Ranged for RawRoutine {
    ghost in_range = { routine_is_in_range };

    fn is_in_range(&self) -> bool {
        self.id <= 0xFFFF
            && is_between(1, 600_000, self.time_ms)
            && self.result.len() <= 32
            && match &self.on_done {
                Some(row) => row.status <= 0xFF,
                None => true,
            }
    }
}

impl Ranged for RawKeyRow {
    ghost in_range = { key_row_is_in_range };

    fn is_in_range(&self) -> bool {
        is_between_len(1, 255, self.seed.len())
            && has_a_bit(self.seed.as_slice())
            && is_between_len(1, 255, self.key.len())
    }
}

impl Ranged for RawPattern {
    ghost in_range = { pattern_is_in_range };

    fn is_in_range(&self) -> bool {
        is_between_len(1, 64, self.items.len())
    }
}

impl Ranged for RawLevel {
    ghost in_range = { level_is_in_range };

    fn is_in_range(&self) -> bool {
        is_between(1, 65, self.request_seed)
            && self.request_seed % 2 == 1
            && self.rows.len() <= MOST_KEY_ROWS
            && all_in_range(self.rows.as_slice())
            && seeds_have_one_length(self.rows.as_slice())
            && keys_have_one_length(self.rows.as_slice())
    }
}

fn seeds_have_one_length(rows: &[RawKeyRow]) -> bool
    ensures { result ≡ have_one_length seed_of rows.now }
{
    let length = match rows {
        [first, ..] => first.seed.len(),
        [] => 0,
    };
    rows.iter().all(|row| row.seed.len() == length)
}

fn keys_have_one_length(rows: &[RawKeyRow]) -> bool
    ensures { result ≡ have_one_length key_of rows.now }
{
    let length = match rows {
        [first, ..] => first.key.len(),
        [] => 0,
    };
    rows.iter().all(|row| row.key.len() == length)
}

fn is_between(low: u32, high: u32, n: u32) -> bool
    ensures { result ≡ is_between low high n }
{
    low <= n && n <= high
}

pub(crate) fn is_between_len(low: usize, high: usize, n: usize) -> bool
    ensures { result ≡ is_between low high n }
{
    low <= n && n <= high
}

fn is_st_min(st: u32) -> bool
    ensures { result ≡ is_st_min st }
{
    st <= 127 || is_between(241, 249, st)
}

/// Whether frames of segmented messages may have so many bytes.
fn is_tx_dl(bytes: u32) -> bool
    ensures { result ≡ is_tx_dl bytes }
{
    DataLength::of(bytes as usize).is_some()
}

fn is_wide_id(id: u32) -> bool
    ensures { result ≡ is_wide_id id }
{
    id <= 0x1FFF_FFFF
}

/// Whether this is the number of an identifier of 29 bits, or of 11.
fn is_id_by(wide: bool, id: u32) -> bool
    ensures { result ≡ is_id_by wide id }
{
    if wide { is_wide_id(id) } else { is_can_id(id) }
}

/// The same of one that may be left out.
fn is_own_id(wide: bool, id: &Option<u32>) -> bool
    ensures { result ≡ is_own_id wide id.now }
{
    match id {
        Some(id) => is_id_by(wide, *id),
        None => true,
    }
}

fn is_can_id(id: u32) -> bool
    ensures { result ≡ is_can_id id }
{
    id <= 0x7FF
}

fn is_name_byte(byte: u8) -> bool
    ensures { result ≡ is_name_byte byte }
{
    matches!(byte, b'0'..=b'9' | b'A'..=b'Z' | b'a'..=b'z' | b'_')
}

fn is_name(bytes: &[u8]) -> bool
    ensures { result ≡ list_all is_name_byte bytes.now }
{
    bytes.iter().all(|byte| is_name_byte(*byte))
}

fn has_a_bit(bytes: &[u8]) -> bool
    ensures { result ≡ list_any (λ b. not (b == 0)) bytes.now }
{
    bytes.iter().any(|byte| *byte != 0)
}

/// The identifier of a number, among those of both kinds.
fn id_by(wide: bool, number: u32) -> u32
    requires { IdFits wide number }
    ensures { result ≡ id_by wide number }
{
    if wide { 0x800 + number } else { number }
}

/// The identifiers of requests and responses.
fn can_ids(testers: &[RawTester]) -> ArrayVec<u32, 16>
    requires few { length testers.now ≤ 8 }
    requires fit { All TesterFits testers.now }
    ensures { result.items ≡ can_ids testers.now }
{
    let mut ids = ArrayVec::new();
    for tester in testers {
        ids.push(id_by(tester.extended, tester.request));
        ids.push(id_by(tester.extended, tester.response));
    }
    ids
}

impl RawTester {
    /// The number of the identifier of its functional requests, where the setup has this one of 11 bits.
    pub(crate) fn functional_number(&self, shared: u32) -> u32
        ensures { result ≡ functional_number shared self.now }
    {
        match self.functional {
            Some(number) => number,
            None if self.extended => 0x18DB_33F1,
            None => shared,
        }
    }

    /// Its functional identifier, among those of both kinds.
    fn functional_id(&self, shared: u32) -> u32
        requires fits { TesterFits self.now }
        requires shared { shared ≤ 0x7FF }
        ensures { result ≡ functional_of shared self.now }
    {
        id_by(self.extended, self.functional_number(shared))
    }

    /// Whether its functional identifier is one of these.
    fn asks_by(&self, ids: &[u32], shared: u32) -> bool
        requires fits { TesterFits self.now }
        requires shared { shared ≤ 0x7FF }
        ensures { result ≡ asks_by ids.now shared self.now }
    {
        has_key(ids, self.functional_id(shared))
    }

    /// Whether it talks by CAN FD and another one doesn't, and both have one functional identifier.
    fn mixes_with(&self, other: &RawTester, shared: u32) -> bool
        requires fits { TesterFits self.now }
        requires other { TesterFits other.now }
        requires shared { shared ≤ 0x7FF }
        ensures { result ≡ mixes_with shared self.now other.now }
    {
        self.fd && !other.fd && self.functional_id(shared) == other.functional_id(shared)
    }

    /// The same of any of these.
    fn mixes_among(&self, others: &[RawTester], shared: u32) -> bool
        requires fits { TesterFits self.now }
        requires others { All TesterFits others.now }
        requires shared { shared ≤ 0x7FF }
        ensures { result ≡ mixes_among others.now shared self.now }
    {
        let mut rest = others;
        while let [first, tail @ ..] = rest {
            if self.mixes_with(first, shared) {
                return true;
            }
            rest = tail;
        }
        false
    }
}

/// Whether the functional identifier of any of these testers is one of these.
fn any_asks_by(ids: &[u32], shared: u32, testers: &[RawTester]) -> bool
    requires fit { All TesterFits testers.now }
    requires shared { shared ≤ 0x7FF }
    ensures { result ≡ list_any (asks_by ids.now shared) testers.now }
{
    let mut rest = testers;
    while let [first, tail @ ..] = rest {
        if first.asks_by(ids, shared) {
            return true;
        }
        rest = tail;
    }
    false
}

/// Whether a tester that talks by CAN FD has the functional identifier of another that doesn't.
fn any_mixes(testers: &[RawTester], shared: u32) -> bool
    requires fit { All TesterFits testers.now }
    requires shared { shared ≤ 0x7FF }
    ensures { result ≡ list_any (mixes_among testers.now shared) testers.now }
{
    let mut rest = testers;
    while let [first, tail @ ..] = rest {
        if first.mixes_among(testers, shared) {
            return true;
        }
        rest = tail;
    }
    false
}

/// Whether an identifier has two uses.
fn has_repeated_id(testers: &[RawTester], shared: u32) -> bool
    requires few { length testers.now ≤ 8 }
    requires fit { All TesterFits testers.now }
    requires shared { shared ≤ 0x7FF }
    ensures { result ≡ has_repeated_id testers.now shared }
{
    let ids = can_ids(testers);
    has_repeat(ids.as_slice())
        || any_asks_by(ids.as_slice(), shared, testers)
        || any_mixes(testers, shared)
}

fn has_name(testers: &[RawTester], name: &[u8]) -> bool
    ensures { result ≡ has_name testers.now name.now }
{
    testers.iter().any(|tester| tester.name.as_slice() == name)
}

fn has_repeated_name(testers: &[RawTester]) -> bool
    ensures { result ≡ has_repeated_name testers.now }
{
    let mut rest = testers;
    while let [first, tail @ ..] = rest {
        if has_name(tail, first.name.as_slice()) {
            return true;
        }
        rest = tail;
    }
    false
}

impl RawLevel {
    fn has_no_rows(&self) -> bool
        ensures { result ≡ has_no_rows self.now }
    {
        self.rows.len() == 0
    }
}

fn any_level_has_no_rows(levels: &[RawLevel]) -> bool
    ensures { result ≡ list_any has_no_rows levels.now }
{
    levels.iter().any(|level| level.has_no_rows())
}

fn is_known_level(levels: &[RawLevel], level: u32) -> bool
    ensures { result ≡ is_known_level levels.now level }
{
    level == 0 || has_key(levels, level)
}

fn done_code_is_known(dtcs: &[RawDtc], routine: &RawRoutine) -> bool
    ensures { result ≡ done_code_is_known dtcs.now routine.now }
{
    match &routine.on_done {
        Some(row) => has_key(dtcs, row.code),
        None => true,
    }
}

fn done_codes_are_known(dtcs: &[RawDtc], routines: &[RawRoutine]) -> bool
    ensures { result ≡ list_all (done_code_is_known dtcs.now) routines.now }
{
    routines
        .iter()
        .all(|routine| done_code_is_known(dtcs, routine))
}

fn did_levels_are_known(levels: &[RawLevel], did: &RawDid) -> bool
    ensures { result ≡ did_levels_are_known levels.now did.now }
{
    is_known_level(levels, did.read_level) && is_known_level(levels, did.write_level)
}

fn all_did_levels_are_known(levels: &[RawLevel], dids: &[RawDid]) -> bool
    ensures { result ≡ list_all (did_levels_are_known levels.now) dids.now }
{
    dids.iter().all(|did| did_levels_are_known(levels, did))
}

fn routine_level_is_known(levels: &[RawLevel], routine: &RawRoutine) -> bool
    ensures { result ≡ routine_level_is_known levels.now routine.now }
{
    is_known_level(levels, routine.level)
}

fn routine_levels_are_known(levels: &[RawLevel], routines: &[RawRoutine]) -> bool
    ensures { result ≡ list_all (routine_level_is_known levels.now) routines.now }
{
    routines
        .iter()
        .all(|routine| routine_level_is_known(levels, routine))
}

fn answer_level_is_known(levels: &[RawLevel], row: &RawAnswer) -> bool
    ensures { result ≡ answer_level_is_known levels.now row.now }
{
    is_known_level(levels, row.level)
}

fn answer_levels_are_known(levels: &[RawLevel], rows: &[RawAnswer]) -> bool
    ensures { result ≡ list_all (answer_level_is_known levels.now) rows.now }
{
    rows.iter().all(|row| answer_level_is_known(levels, row))
}

impl RawSetup {
    fn lacks_rows(&self) -> bool
        ensures { result ≡ lacks_rows self.now }
    {
        self.testers.len() == 0 || any_level_has_no_rows(self.levels.as_slice())
    }

    fn has_duplicates(&self) -> bool
        requires ranged { IsTrue (is_in_range self.now) }
        requires testers { length self.now.testers ≤ 8 }
        requires dids { length self.now.dids ≤ 4096 }
        requires dtcs { length self.now.dtcs ≤ 4096 }
        requires routines { length self.now.routines ≤ 4096 }
        requires levels { length self.now.levels ≤ 4096 }
        ensures { result ≡ has_duplicates self.now }
    {
        has_repeated_name(self.testers.as_slice())
            || has_repeated_id(self.testers.as_slice(), self.functional)
            || has_repeat(self.dids.as_slice())
            || has_repeat(self.dtcs.as_slice())
            || has_repeat(self.routines.as_slice())
            || has_repeat(self.levels.as_slice())
    }

    fn names_unknown_code(&self) -> bool
        ensures { result ≡ names_unknown_code self.now }
    {
        !done_codes_are_known(self.dtcs.as_slice(), self.routines.as_slice())
    }

    fn names_unknown_level(&self) -> bool
        ensures { result ≡ names_unknown_level self.now }
    {
        !(all_did_levels_are_known(self.levels.as_slice(), self.dids.as_slice())
            && routine_levels_are_known(self.levels.as_slice(), self.routines.as_slice())
            && answer_levels_are_known(self.levels.as_slice(), self.answers.as_slice()))
    }

    /// The first fault of the setup, in the order in which it is looked at.
    pub(crate) fn first_fault(&self) -> Option<SetupFault>
        ensures { result ≡ fault_of self.now }
    {
        if !self.is_in_range() {
            return Some(SetupFault::Range);
        }
        if self.lacks_rows() {
            return Some(SetupFault::Empty);
        }
        if self.has_duplicates() {
            return Some(SetupFault::DuplicateId);
        }
        if self.names_unknown_code() {
            return Some(SetupFault::UnknownCode);
        }
        if self.names_unknown_level() {
            return Some(SetupFault::UnknownLevel);
        }
        None
    }
}
