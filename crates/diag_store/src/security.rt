//! The security access of the testers: seeds, keys, and the delay after too many wrong keys (ISO 14229-1:2013, 9.4).

ghost use Rattle.std.specs.Prelude.{◌≡◌, ◌≤◌, ◌<◌, false, bytes_eq, is_some, replicate, length, Some, IsTrue, IfOk, IfSome};
ghost use Rattle.diag_store.specs.Security.{IsSecurity, is_unlocked, level_of, key_len, locked, is_delayed, nobody_is_delayed, outstanding_row, seed_at, key_at, next_row, seed_answer, seed_told, after_seed, is_right_key, key_answer, after_key, after_wrong_key, after_tick, after_ticks};
ghost use Rattle.diag_store.specs.Opening.{opening_security};

use crate::levels::Levels;
use diag_setup::{Setup, TesterId};
use std::alloc::{AllocError, Global};
use std::marker::Model;
use std::simd::prelude::*;

/// The seed that is outstanding: the one that a tester was given last. The zeros of an unlocked level are none.
#[derive(Clone, Copy, PartialEq, Eq, Debug, Drop)]
pub struct Outstanding {
    /// The odd sub-function of its level.
    pub level: u8,
    /// Its row in that level, from 0.
    pub row: u8,
}

/// The answer to a request for a seed.
#[derive(Clone, Copy, Debug)]
pub enum SeedAnswer<'a> {
    /// requiredTimeDelayNotExpired (0x37): the tester's delay is not over.
    Delayed,
    /// The seed, where it stands; zeros where the level is unlocked.
    Seed(&'a [u8]),
}

/// The answer to a key.
#[derive(Clone, Copy, PartialEq, Eq, Debug, Drop)]
pub enum KeyAnswer {
    /// requiredTimeDelayNotExpired (0x37): the tester's delay is not over.
    Delayed,
    /// requestSequenceError (0x24): no seed of this level is outstanding.
    NoSeed,
    /// The level is unlocked.
    Right,
    /// invalidKey (0x35).
    Wrong,
    /// exceedNumberOfAttempts (0x36): one wrong key too many, and the delay begins.
    TooMany,
}

/// The security levels, and what the testers did with them.
#[derive(Drop)]
pub struct SecurityState {
    /// Wrong keys until the delay, at least 1.
    pub attempts: u8,
    /// The delay after them, in milliseconds, at least 1.
    pub delay_ms: u32,
    /// The levels with their seeds and keys.
    pub levels: Levels,
    /// The odd sub-function of the unlocked level.
    pub unlocked: Option<u8>,
    /// The seed that waits for its key.
    pub outstanding: Option<Outstanding>,
    /// The wrong keys of each tester, by its index.
    pub wrong_keys: [u8; 8],
    /// The ticks (milliseconds) that are left of each tester's delay, by its index; 0 is none.
    pub delays: [u32; 8],
}

/// The security access of all testers.
#[derive(Drop)]
pub struct Security {
    state: SecurityState,
}

impl Model for Security {
    ghost use Rattle.diag_store.specs.declared.security.SecurityState.{SecurityState};
    ghost use Rattle.diag_store.specs.Security.{IsSecurity};

    ghost Value = { SecurityState };

    ghost view = { λ s. s.state };

    ghost invariant = { λ s. IsSecurity s.state };
}

impl Security {
    ghost use Rattle.std.specs.Borrow.{sem};
    ghost use Rattle.std.specs.Io.BufRead.{Rests};
    ghost use Rattle.diag_store.specs.contracts.security.Security.{the_row};

    /// The levels at the opening, where memory isn't refused: nothing is unlocked, and nobody is delayed.
    pub fn new(alloc: Global, setup: &Setup) -> Result<Security, AllocError>
        ensures { IfOk result (λ security. security ≡ opening_security setup.now) }
    {
        let levels = Levels::new(alloc, setup.levels())?;
        let raw = setup.raw();
        let state = SecurityState {
            attempts: raw.attempts as u8,
            delay_ms: raw.delay_ms,
            levels,
            unlocked: None,
            outstanding: None,
            wrong_keys: [0; 8],
            delays: [0; 8],
        };
        Ok(Security { state })
    }

    /// Other levels, equal to these, where memory isn't refused.
    pub fn try_copy(&self) -> Result<Security, AllocError>
        ensures { IfOk result (λ copy. copy ≡ self.now) }
    {
        let levels = self.state.levels.try_copy()?;
        let state = SecurityState {
            attempts: self.state.attempts,
            delay_ms: self.state.delay_ms,
            levels,
            unlocked: self.state.unlocked,
            outstanding: self.state.outstanding,
            wrong_keys: self.state.wrong_keys,
            delays: self.state.delays,
        };
        Ok(Security { state })
    }

    /// The unlocked level, if one is.
    pub fn unlocked(&self) -> Option<u8>
        ensures { result ≡ self.now.unlocked }
    {
        self.state.unlocked
    }

    /// The length of a level's keys.
    pub fn key_len(&self, sub: u8) -> Option<usize>
        ensures { result ≡ key_len self.now sub }
    {
        let level = self.state.levels.find(sub)?;
        Some(level.rows.key_len())
    }

    /// Takes a tester's request for the seed of a level.
    pub fn seed(&mut self, who: TesterId, sub: u8) -> SeedAnswer<'_>
        requires { IsTrue (is_some (level_of self.old sub)) }
        ensures answer { seed_told result ≡ seed_answer self.old who sub }
        ensures* state { sem 𝓛 (Rests the_row self.entry (λ new. new ≡ after_seed self.old who sub)) }
    {
        self.give_seed(who, sub);
        self.seed_answer(who, sub)
    }

    /// What a request for the seed of a level is answered; nothing changes.
    pub fn seed_answer(&self, who: TesterId, sub: u8) -> SeedAnswer<'_>
        requires { IsTrue (is_some (level_of self.now sub)) }
        ensures same { seed_told result ≡ seed_answer self.now who sub }
        ensures fits { IfSome (seed_told result) (λ seed. length seed ≤ 255) }
    {
        self.state.seed_answer(who, sub)
    }

    /// Gives a tester the seed of a level, of which `seed_answer` tells the answer.
    pub fn give_seed(&mut self, who: TesterId, sub: u8)
        requires { IsTrue (is_some (level_of self.old sub)) }
        ensures { self.new ≡ after_seed self.old who sub }
    {
        self.state.give_seed(who, sub);
    }

    /// Takes a tester's key for a level.
    pub fn key(&mut self, who: TesterId, sub: u8, key: &[u8]) -> KeyAnswer
        requires { IsTrue (is_some (level_of self.old sub)) }
        ensures answer { result ≡ key_answer self.old who sub key.now }
        ensures state { self.new ≡ after_key self.old who sub key.now }
    {
        self.state.key(who, sub, key)
    }

    /// What a tester's key for a level is answered; nothing changes.
    pub fn key_answer(&self, who: TesterId, sub: u8, key: &[u8]) -> KeyAnswer
        requires { IsTrue (is_some (level_of self.now sub)) }
        ensures { result ≡ key_answer self.now who sub key.now }
    {
        self.state.key_answer(who, sub, key)
    }

    /// Counts a wrong key of a tester: the seed isn't outstanding any more, and the delay begins where they are too many.
    pub fn count_wrong_key(&mut self, who: TesterId)
        requires { is_delayed self.old who ≡ false }
        ensures { self.new ≡ after_wrong_key self.old who }
    {
        self.state.count_wrong_key(who);
    }

    /// One tick of a tester's delay.
    pub fn tick(&mut self, who: TesterId)
        ensures { self.new ≡ after_tick self.old who }
    {
        self.state.tick(who);
    }

    /// So many ticks of a tester's delay, in one move.
    pub fn pass(&mut self, who: TesterId, count: u32)
        ensures { self.new ≡ after_ticks self.old who count }
    {
        self.state.pass(who, count);
    }

    /// Whether no tester is delayed: all are looked at together.
    pub fn nobody_is_delayed(&self) -> bool
        ensures { result ≡ nobody_is_delayed self.now }
    {
        let delays = u32x8::from_array(self.state.delays);
        delays.simd_ne(u32x8::splat(0)).to_bitmask() == 0
    }

    /// Nothing is unlocked and no seed is outstanding.
    pub fn lock(&mut self)
        ensures { self.new ≡ locked self.old }
    {
        self.state.unlocked = None;
        self.state.outstanding = None;
    }
}

impl SecurityState {
    fn is_delayed(&self, who: TesterId) -> bool
        ensures { result ≡ is_delayed self.now who }
    {
        self.delays[who.index()] > 0
    }

    fn is_unlocked(&self, sub: u8) -> bool
        ensures { result ≡ is_unlocked self.now sub }
    {
        match self.unlocked {
            Some(level) => level == sub,
            None => false,
        }
    }

    /// The outstanding row, where it is one of this level.
    fn outstanding_row(&self, sub: u8) -> Option<u8>
        ensures { result ≡ outstanding_row self.now.outstanding sub }
    {
        match self.outstanding {
            Some(seed) if seed.level == sub => Some(seed.row),
            _ => None,
        }
    }

    /// The seed of a row of a level.
    fn seed_at(&self, sub: u8, row: u8) -> &[u8]
        ensures same { result.now ≡ seed_at self.now sub row }
        ensures fits { length result.now ≤ 255 }
    {
        match self.levels.row_at(sub, row) {
            Some(row) => row.seed.as_slice(),
            None => &[],
        }
    }

    /// Whether a key is right for the outstanding row of a level.
    fn is_right_key(&self, sub: u8, row: u8, key: &[u8]) -> bool
        requires { outstanding_row self.now.outstanding sub ≡ Some row }
        ensures { result ≡ is_right_key self.now sub key.now }
    {
        match self.levels.find(sub) {
            Some(level) if level.any_key => key.len() == level.rows.key_len(),
            _ => self.is_key_at(sub, row, key),
        }
    }

    /// Whether a key is that of a row of a level.
    fn is_key_at(&self, sub: u8, row: u8, key: &[u8]) -> bool
        ensures { result ≡ bytes_eq key.now (key_at self.now sub row) }
    {
        match self.levels.row_at(sub, row) {
            Some(row) => key == row.key.as_slice(),
            None => key.is_empty(),
        }
    }

    fn next_row(&self, sub: u8) -> u8
        ensures { result ≡ next_row self.now sub }
    {
        match self.levels.find(sub) {
            Some(level) => level.next,
            None => 0,
        }
    }

    fn give_seed(&mut self, who: TesterId, sub: u8)
        ensures { self.new ≡ after_seed self.old who sub }
    {
        if self.is_delayed(who) || self.is_unlocked(sub) || self.outstanding_row(sub).is_some() {
            return;
        }
        let row = self.next_row(sub);
        self.outstanding = Some(Outstanding { level: sub, row });
        self.levels.move_on(sub);
    }

    fn seed_answer(&self, who: TesterId, sub: u8) -> SeedAnswer<'_>
        ensures same { seed_told result ≡ seed_answer self.now who sub }
        ensures fits { IfSome (seed_told result) (λ seed. length seed ≤ 255) }
    {
        if self.is_delayed(who) {
            return SeedAnswer::Delayed;
        }
        if self.is_unlocked(sub) {
            return SeedAnswer::Seed(zeros(self.seed_at(sub, 0).len()));
        }
        let row = match self.outstanding_row(sub) {
            Some(row) => row,
            None => self.next_row(sub),
        };
        SeedAnswer::Seed(self.seed_at(sub, row))
    }

    fn key_answer(&self, who: TesterId, sub: u8, key: &[u8]) -> KeyAnswer
        requires { IsSecurity self.now }
        ensures { result ≡ key_answer self.now who sub key.now }
    {
        if self.is_delayed(who) {
            return KeyAnswer::Delayed;
        }
        let Some(row) = self.outstanding_row(sub) else {
            return KeyAnswer::NoSeed;
        };
        if self.is_right_key(sub, row, key) {
            return KeyAnswer::Right;
        }
        if u32::from(self.wrong_keys[who.index()]) + 1 < u32::from(self.attempts) {
            KeyAnswer::Wrong
        } else {
            KeyAnswer::TooMany
        }
    }

    fn key(&mut self, who: TesterId, sub: u8, key: &[u8]) -> KeyAnswer
        requires { IsSecurity self.old }
        ensures answer { result ≡ key_answer self.old who sub key.now }
        ensures state { self.new ≡ after_key self.old who sub key.now }
    {
        let answer = self.key_answer(who, sub, key);
        match answer {
            KeyAnswer::Delayed | KeyAnswer::NoSeed => {}
            KeyAnswer::Right => {
                self.unlocked = Some(sub);
                self.outstanding = None;
                self.wrong_keys[who.index()] = 0;
            }
            KeyAnswer::Wrong | KeyAnswer::TooMany => self.count_wrong_key(who),
        }
        answer
    }

    fn count_wrong_key(&mut self, who: TesterId)
        requires valid { IsSecurity self.old }
        requires not_delayed { is_delayed self.old who ≡ false }
        ensures { self.new ≡ after_wrong_key self.old who }
    {
        let tester = who.index();
        self.wrong_keys[tester] += 1;
        if self.wrong_keys[tester] >= self.attempts {
            self.delays[tester] = self.delay_ms;
        }
        self.outstanding = None;
    }

    #[tactic(auto, using(crate::proofs::DelayLemmas::no_delay, crate::proofs::DelayLemmas::shorter, crate::proofs::DelayLemmas::over))]
    fn pass(&mut self, who: TesterId, count: u32)
        requires { IsSecurity self.old }
        ensures state { self.new ≡ after_ticks self.old who count }
        ensures keeps { IsSecurity self.new }
    {
        let tester = who.index();
        let left = self.delays[tester];
        if left == 0 {
            return;
        }
        if count < left {
            self.delays[tester] = left - count;
        } else {
            self.delays[tester] = 0;
            self.wrong_keys[tester] = 0;
        }
    }

    fn tick(&mut self, who: TesterId)
        ensures { self.new ≡ after_tick self.old who }
    {
        let tester = who.index();
        let left = self.delays[tester];
        if left == 0 {
            return;
        }
        self.delays[tester] = left - 1;
        if left == 1 {
            self.wrong_keys[tester] = 0;
        }
    }
}

/// The zeros that the longest seed of an unlocked level is.
static ZEROS: [u8; 255] = [0; 255];

/// So many zeros.
fn zeros(count: usize) -> &'static [u8]
    requires { count ≤ 255 }
    ensures { result.now ≡ replicate count 0 }
{
    &ZEROS[..count]
}
