//! The clock of a recording.

ghost use Rattle.diag_setup.specs.declared.raw.RawSetup.{RawSetup};
ghost use Rattle.std.specs.Prelude.{◌≡◌, ◌+◌, ◌≤◌, ◌<◌, ℕ, Some, None, Ok, IfOk, IfErr, OnErr, OnOk};
ghost use Rattle.diag_can.specs.Log.{silence, waited};
ghost use Rattle.diag_can.specs.declared.log.Timing.TheVariants.{Stamps};
ghost use Rattle.diag_can.specs.Reading.{later};
ghost use Rattle.diag_world.specs.Server.{closing_time};
ghost use Rattle.diag_bus.specs.Clock.{GoesOn, SaidBelow, StartsBelow, started_at};
ghost use Rattle.diag_bus.specs.Events.{span_said, time_said};

use crate::fault::BusFault;
use diag_can::BusLine;
use diag_world::CLOSING_TIME;

/// Where the bus's time begins.
#[derive(Clone, Copy)]
pub struct Start {
    /// The moment of the first stamped line, in milliseconds.
    pub moment: u64,
    /// The time that tick lines before it gave.
    pub before: u64,
}

/// What is kept of the time of the lines so far.
#[derive(Clone, Copy)]
pub struct Clock {
    /// The greatest moment of the stamped lines.
    pub reference: Option<u64>,
    /// Where the bus's time begins, once a stamped line came.
    pub start: Option<Start>,
    /// What each tester's clock tells: the time that the lines gave.
    pub time: u64,
}

impl Clock {
    /// The clock before the first line.
    pub(crate) fn new() -> Clock
        ensures { result ≡ record { reference = None; start = None; time = 0 } }
    {
        Clock {
            reference: None,
            start: None,
            time: 0,
        }
    }

    /// Advances by this line, and returns by how many milliseconds. It takes no memory.
    ///
    /// # Errors
    /// `Late` where each tester's clock would tell a time behind its last one; the clock stays.
    #[inline(always)]
    pub(crate) fn go_on(&mut self, said: &BusLine) -> Result<u64, BusFault>
        ensures on { OnOk result ((setup : RawSetup) → GoesOn setup self.old said.now self.new) }
        ensures span { IfOk result (λ span. span ≡ span_said self.old.reference (Ok said.now)) }
        ensures waits { IfOk result (λ span. waited span ≡ time_said self.old.reference said.now) }
        ensures early { OnOk result (self.old.time + span_said self.old.reference (Ok said.now) ≤ closing_time) }
        ensures start { (most : ℕ) → StartsBelow self.old.start most → SaidBelow said.now most
            → StartsBelow self.new.start most }
        ensures late { IfErr result (λ fault. (fault ≡ BusFault.Late)
            × (closing_time < self.old.time + span_said self.old.reference (Ok said.now))) }
        ensures same { OnErr result (self.new ≡ self.old) }
    {
        match said {
            BusLine::Empty => self.pass(0),
            BusLine::Ticks(count) => self.pass(u64::from(count.get())),
            BusLine::Stamped { moment, frame: _ } => self.go_on_to(moment.ms()),
        }
    }

    /// Lets so many milliseconds pass.
    #[inline(always)]
    fn pass(&mut self, span: u64) -> Result<u64, BusFault>
        ensures ok { IfOk result (λ passed. passed ≡ span) }
        ensures on { OnOk result (self.new ≡ record self.old { time = self.old.time + span }) }
        ensures early { OnOk result (self.old.time + span ≤ closing_time) }
        ensures late { IfErr result (λ fault.
            (fault ≡ BusFault.Late) × (closing_time < self.old.time + span)) }
        ensures same { OnErr result (self.new ≡ self.old) }
    {
        let time = self.time.saturating_add(span);
        if time > CLOSING_TIME {
            return Err(BusFault::Late);
        }
        self.time = time;
        Ok(span)
    }

    /// Goes on by a line of this moment, and answers by how many milliseconds.
    #[inline(always)]
    fn go_on_to(&mut self, moment: u64) -> Result<u64, BusFault>
        ensures span { IfOk result (λ span. span ≡ silence Stamps self.old.reference (Some moment)) }
        ensures reference { OnOk result (self.new.reference ≡ later self.old.reference (Some moment)) }
        ensures time { OnOk result (self.new.time ≡ self.old.time + silence Stamps self.old.reference (Some moment)) }
        ensures start { OnOk result (self.new.start ≡ started_at self.old.start moment self.old.time) }
        ensures early { OnOk result (self.old.time + silence Stamps self.old.reference (Some moment) ≤ closing_time) }
        ensures late { IfErr result (λ fault.
            (fault ≡ BusFault.Late) × (closing_time < self.old.time + silence Stamps self.old.reference (Some moment))) }
        ensures same { OnErr result (self.new ≡ self.old) }
    {
        let before = self.time;
        let reference = self.reference.unwrap_or(moment);
        let span = self.pass(moment.saturating_sub(reference))?;
        self.reference = Some(reference.max(moment));
        if self.start.is_none() {
            self.start = Some(Start { moment, before });
        }
        Ok(span)
    }
}
