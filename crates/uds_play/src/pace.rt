//! What the clock of a live run tells, beside the machine's.

ghost use Rattle.std.specs.Prelude.{◌≡◌, ◌≤◌, ◌⊎◌, ◌+◌, ◌*◌, max, min, true, false};
ghost use Rattle.std.specs.Duration.{as_nanos, max_nanos};
ghost use Rattle.uds_play.specs.Pace.{GoesOnFrom, MayHaveDrawn, nowhere, shown};

use std::time::Duration;

/// The clock of a live run: the machine's, but no faster than separation times allow.
///
/// While a block is under way it stops at the moment at which a frame may fall due, and goes on from there once the frame
/// was written. By what it is behind then it stays behind, until no block is under way.
#[derive(Drop)]
pub struct Pace {
    /// By how much it is behind the machine's clock.
    behind: Duration,
    /// Where it stops, in milliseconds: nowhere is 2^64 - 1.
    stop: u64,
    /// What it told last, in milliseconds.
    told: u64,
    /// Whether a block may have begun at what it told last.
    began: bool,
}

impl Pace {
    /// A clock that goes with the machine's.
    pub fn new() -> Pace
        ensures goes { (as_nanos result.behind ≡ 0) × (result.stop ≡ nowhere) }
    {
        Pace {
            behind: Duration::ZERO,
            stop: u64::MAX,
            told: 0,
            began: false,
        }
    }

    /// A turn begins at this time of the machine's clock: all that was due is written. While a block is under way, nothing falls
    /// due before this moment, and the clock stops there.
    pub fn begin(&mut self, elapsed: Duration, until: u64, in_block: bool)
        ensures free { in_block ≡ false → (as_nanos self.new.behind ≡ 0) × (self.new.stop ≡ nowhere) }
        ensures stop { in_block ≡ true → self.new.stop ≡ until }
        ensures paced { in_block ≡ true → MayHaveDrawn self.old
            → GoesOnFrom self.new self.old.told (as_nanos elapsed) }
        ensures kept { in_block ≡ true → self.new.behind ≡ self.old.behind ⊎ MayHaveDrawn self.old }
        ensures told { self.new.told ≡ self.old.told }
    {
        if !in_block {
            self.behind = Duration::ZERO;
            self.stop = u64::MAX;
        } else {
            if self.began || self.told >= self.stop || self.stop == u64::MAX {
                self.behind = elapsed.saturating_sub(Duration::from_millis(self.told));
            }
            self.stop = until;
        }
        self.began = false;
    }

    /// At what it tells next a block may begin.
    pub fn let_begin(&mut self)
        ensures { self.new ≡ record { behind = self.old.behind; stop = self.old.stop; told = self.old.told; began = true } }
    {
        self.began = true;
    }

    /// The moment at this time of the machine's clock, in milliseconds.
    pub fn moment(&self, elapsed: Duration) -> u64
        ensures { result ≡ shown self.now (as_nanos elapsed) }
    {
        let shown = elapsed.saturating_sub(self.behind).as_millis();
        u64::try_from(shown).unwrap_or(u64::MAX).min(self.stop)
    }

    /// The same, which it tells.
    pub fn tell(&mut self, elapsed: Duration) -> u64
        ensures result { result ≡ max self.old.told (shown self.old (as_nanos elapsed)) }
        ensures told { self.new.told ≡ result }
        ensures same { (self.new.behind ≡ self.old.behind) × (self.new.stop ≡ self.old.stop) × (self.new.began ≡ self.old.began) }
    {
        self.told = self.told.max(self.moment(elapsed));
        self.told
    }

    /// The time of the machine's clock at which a moment comes, unless it stops before.
    pub fn time_of(&self, moment: u64) -> Duration
        ensures { as_nanos result ≡ min (as_nanos self.now.behind + moment * 1_000_000) max_nanos }
    {
        self.behind.saturating_add(Duration::from_millis(moment))
    }
}
