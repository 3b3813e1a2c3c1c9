//! A watch that holds each tester's first step until the other tester was called.

use crate::trouble::Trouble;
use diag_setup::TesterId;
use diag_workers::Watch;
use std::sync::atomic::{AtomicU64, Ordering};
use std::thread::yield_now;

/// How often each of two testers was called, and how many of them waited in vain. The second waits for the first's first
/// call, the first for so many calls of the second.
#[derive(Drop)]
pub(crate) struct Meeting {
    first: AtomicU64,
    second: AtomicU64,
    late: AtomicU64,
    calls: u64,
}

impl Meeting {
    pub fn new(calls: u64) -> Meeting {
        Meeting {
            first: AtomicU64::new(0),
            second: AtomicU64::new(0),
            late: AtomicU64::new(0),
            calls,
        }
    }

    /// Whether the two were called so often. It fails where one of them waited in vain.
    pub fn is_met(&self, first: u64, second: u64) -> Result<bool, Trouble> {
        if self.late.load(Ordering::SeqCst) > 0 {
            return Err(Trouble::NotMet);
        }
        Ok(
            self.first.load(Ordering::SeqCst) == first
                && self.second.load(Ordering::SeqCst) == second,
        )
    }

    fn meet(&self, mine: &AtomicU64, other: &AtomicU64, calls: u64) {
        if mine.fetch_add(1, Ordering::SeqCst) > 0 {
            return;
        }
        for _ in 0..1_000_000u32 {
            if other.load(Ordering::SeqCst) >= calls {
                return;
            }
            yield_now();
        }
        self.late.fetch_add(1, Ordering::SeqCst);
    }
}

impl Watch for Meeting {
    fn called(&self, who: TesterId) {
        if who.number() == 1 {
            self.meet(&self.first, &self.second, self.calls);
        } else {
            self.meet(&self.second, &self.first, 1);
        }
    }
}
