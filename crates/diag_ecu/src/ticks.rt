//! Time on the timers of a tester.
ghost use Rattle.std.specs.Prelude.{◌≡◌, ◌-◌, ◌≤◌, is_some, length, min, IsTrue};
ghost use Rattle.diag_store.specs.Routines.{quiet_ticks};
ghost use Rattle.diag_ecu.specs.Elapse.{elapse, elapse_each, session_ticked, session_elapsed, s3_ticked};

use crate::ecu::Ecu;
use diag_can::TickCount;
use diag_setup::{Setup, TesterId};

impl Ecu {
    /// Ticks of a tester: its delay, and where it is the holder the routines and S3.
    ///
    /// It costs by what ends on the way, and not by how many ticks there are.
    pub fn ticks(&mut self, who: TesterId, count: TickCount)
        ensures { self.new ≡ elapse self.old who count }
    {
        let count = u32::from(count.get());
        self.security.pass(who, count);
        if self.is_holder(who) {
            self.pass_session(count);
        }
    }

    /// So many ticks of each tester of a setup, in order.
    ///
    /// They change nothing while nobody is the holder and nobody delayed, and then no tester is looked at.
    #[inline(always)]
    pub fn ticks_each(&mut self, setup: &Setup, count: TickCount)
        ensures { self.new ≡ elapse_each self.old (length setup.now.testers) count }
    {
        if self.holder.is_none() && self.security.nobody_is_delayed() {
            return;
        }
        self.ticks_one_by_one(setup, count);
    }

    /// The same, one tester behind the other.
    #[inline(never)]
    fn ticks_one_by_one(&mut self, setup: &Setup, count: TickCount)
        ensures { self.new ≡ elapse_each self.old (length setup.now.testers) count }
    {
        for index in 0..setup.testers() {
            let who = setup.who(index);
            self.ticks(who, count);
        }
    }

    /// So many ticks of the session: again and again those in which nothing ends, and the next one.
    fn pass_session(&mut self, count: u32)
        ensures { self.new ≡ session_elapsed self.old count }
    {
        let mut left = count;
        while left > 0 && self.holder.is_some() {
            let quiet = self.quiet_ticks().min(left - 1);
            self.pass_quiet(quiet);
            self.tick_session();
            left = left - quiet - 1;
        }
    }

    /// How many ticks end neither a routine nor the session.
    fn quiet_ticks(&self) -> u32
        ensures { result ≡ min (quiet_ticks self.now.routines) (self.now.s3_left - 1) }
    {
        let routines = u64::from(self.routines.quiet_ticks());
        routines.min(self.s3_left.saturating_sub(1)) as u32
    }

    /// So many ticks of the session, in which nothing ends.
    #[tactic(auto, using(crate::proofs::TickLemmas::quiet_session))]
    fn pass_quiet(&mut self, count: u32)
        requires held { IsTrue (is_some self.old.holder) }
        requires quiet { count ≤ quiet_ticks self.old.routines }
        requires lasts { count ≤ self.old.s3_left - 1 }
        ensures state { self.new ≡ session_elapsed self.old count }
        ensures holder { self.new.holder ≡ self.old.holder }
    {
        self.routines.pass(count);
        self.s3_left -= u64::from(count);
    }

    /// One tick of the session: of its routines, then of S3.
    fn tick_session(&mut self)
        requires { IsTrue (is_some self.old.holder) }
        ensures { self.new ≡ session_ticked self.old }
    {
        self.routines.tick(&mut self.dtcs, self.dtc_setting_on);
        self.tick_s3();
    }

    /// One tick of S3, which may end the session.
    fn tick_s3(&mut self)
        ensures { self.new ≡ s3_ticked self.old }
    {
        if self.s3_left <= 1 {
            self.end_session();
        } else {
            self.s3_left -= 1;
        }
    }
}
