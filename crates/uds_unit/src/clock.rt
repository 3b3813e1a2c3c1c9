//! The moments that a unit is given.

ghost use Rattle.std.specs.Prelude.{◌≡◌, ◌≤◌, ◌-◌, Some};
ghost use Rattle.diag_can.specs.Log.{silence};
ghost use Rattle.diag_can.specs.declared.log.Timing.{Timing};
ghost use Rattle.uds_unit.specs.Moments.{clock_at, moment_us, reference_of, span_at};

/// The first moment that was given and the latest so far, in milliseconds.
#[derive(Clone, Copy, Debug, PartialEq, Eq)]
pub struct Clock {
    /// The first: the time 0 of each tester's link.
    pub start: u64,
    /// The latest.
    pub latest: u64,
}

impl Clock {
    /// The clock at a moment; one that is earlier than the latest counts as the latest.
    pub fn at(before: Option<Clock>, moment: u64) -> Clock
        ensures { result ≡ clock_at before moment }
    {
        match before {
            None => Clock {
                start: moment,
                latest: moment,
            },
            Some(clock) => Clock {
                start: clock.start,
                latest: clock.latest.max(moment),
            },
        }
    }

    /// How many milliseconds pass up to a moment: none before the first, and none where it is earlier than the latest.
    pub fn span(before: Option<Clock>, moment: u64) -> u64
        ensures { result ≡ span_at before moment }
    {
        match before {
            None => 0,
            Some(clock) => moment.saturating_sub(clock.latest),
        }
    }
}

/// A time in milliseconds behind a moment in milliseconds, in microseconds: at most 2^64 - 1.
pub fn moment_us(start: u64, time: u64) -> u64
    ensures { result ≡ moment_us start time }
{
    start.saturating_add(time).saturating_mul(1000)
}
