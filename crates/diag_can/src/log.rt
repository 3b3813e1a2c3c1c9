//! What the lines of a log give, one after the other.

ghost use Rattle.std.specs.Prelude.{◌≡◌, ◌≢◌, ◌<◌, ◌≤◌, ◌⊎◌, [], ◌∷◌, ◌++◌, length, Ok, Err, Some, IfErr, OnOk, OnErr};
ghost use Rattle.diag_can.specs.Line.{event_for, moment_for};
ghost use Rattle.diag_can.specs.Log.{event_list, line_gives, without_return, waited, most_events};
ghost use Rattle.diag_can.specs.Reading.{fault_with, given_at};

use crate::bus_line::BusLine;
use crate::event_log::Log;
use crate::fault::{Limit, LogFault};
use crate::frame::{Ids, TickCount};
use crate::moment_text::MomentText;
use crate::read::{frame_for, line_says};

/// Whether the stamps of a log carry time.
#[derive(Clone, Copy, Debug, PartialEq, Eq)]
pub enum Timing {
    /// Time is what the `tick` lines say.
    Lines,
    /// Beside the `tick` lines, the stamps of the tester's own frames carry time.
    Stamps,
}

/// What was read so far.
#[derive(Drop)]
pub(crate) struct Reading {
    pub(crate) events: Log,
    /// The greatest moment among the lines that gave a frame.
    pub(crate) reference: Option<u64>,
}

/// The line without one CR at its end.
pub fn without_return(line: &[u8]) -> &[u8]
    ensures { result.now ≡ without_return line.now }
{
    if line.ends_with(b"\r") {
        &line[..line.len() - 1]
    } else {
        line
    }
}

/// Adds that many milliseconds of time.
fn push_time(events: &mut Log, ms: u64) -> Result<(), Limit>
    requires { length events.old.items ≤ most_events }
    ensures ok { OnOk result (events.new.items ≡ events.old.items ++ waited ms) }
    ensures few { OnOk result (length events.new.items ≤ most_events) }
    ensures err { IfErr result (λ limit.
        ((limit ≡ Limit.Events) × (most_events < length (events.old.items ++ waited ms)))
        ⊎ ((limit ≡ Limit.Memory) × (length events.old.items < most_events))) }
    ensures some { OnErr result (ms ≢ 0) }
{
    if ms == 0 {
        return Ok(());
    }
    for _ in 0..ms / u64::from(TickCount::MAX) {
        events.push_ticks(TickCount::longest())?;
    }
    match TickCount::new((ms % u64::from(TickCount::MAX)) as u16) {
        None => Ok(()),
        Some(rest) => events.push_ticks(rest),
    }
}

impl Reading {
    ghost use Rattle.diag_can.specs.Took.{Grown, Took};

    /// Lets the time pass from the reference to a later moment, which is the reference then.
    #[inline(never)]
    fn pass_to(&mut self, moment: u64) -> Result<(), Limit>
        requires { length self.old.events.items ≤ most_events }
        ensures ok { OnOk result (Grown Timing.Stamps self.old self.new (Some moment) []) }
        ensures err { IfErr result (λ limit.
            ((limit ≡ Limit.Events) × (most_events < length (self.old.events.items
            ++ given_at Timing.Stamps self.old.reference (Some moment) [])))
            ⊎ ((limit ≡ Limit.Memory) × (length self.old.events.items < most_events))) }
    {
        let reference = self.reference.unwrap_or(moment);
        push_time(&mut self.events, moment.saturating_sub(reference))?;
        self.reference = Some(reference.max(moment));
        Ok(())
    }

    /// Takes what a line says.
    #[inline(always)]
    pub(crate) fn take(&mut self, timing: Timing, ids: &Ids, said: &BusLine) -> Result<(), Limit>
        requires { length self.old.events.items ≤ most_events }
        ensures took { OnOk result (Grown timing self.old self.new (moment_for ids.now (Ok said.now))
            (event_list (Ok (event_for ids.now said.now)))) }
        ensures err { IfErr result (λ limit.
            ((limit ≡ Limit.Events) × (most_events < length (self.old.events.items
            ++ given_at timing self.old.reference (moment_for ids.now (Ok said.now)) (event_list (Ok (event_for ids.now said.now))))))
            ⊎ ((limit ≡ Limit.Memory)
            × (length self.old.events.items < most_events)
            × (given_at timing self.old.reference (moment_for ids.now (Ok said.now)) (event_list (Ok (event_for ids.now said.now))) ≢ []))) }
    {
        match said {
            BusLine::Empty => Ok(()),
            BusLine::Ticks(count) => self.events.push_ticks(*count),
            BusLine::Stamped { moment, frame } => match frame_for(frame, ids) {
                None => Ok(()),
                Some((addressing, frame)) => match timing {
                    Timing::Lines => self.events.push_frame(addressing, frame),
                    Timing::Stamps => {
                        self.pass_to(moment.ms())?;
                        self.events.push_frame(addressing, frame)
                    }
                },
            },
        }
    }

    /// Takes the line of this number, given without its CR, whatever its form is.
    #[inline(never)]
    pub(crate) fn take_line(
        &mut self,
        timing: Timing,
        ids: &Ids,
        number: u32,
        line: &[u8],
    ) -> Result<(), LogFault>
        requires { length self.old.events.items ≤ most_events }
        ensures took { OnOk result (Took timing ids.now self.old self.new line.now) }
        ensures fault { IfErr result (λ fault. fault ≢ LogFault.Memory
            → fault_with timing ids.now self.old.events.items self.old.reference number line.now
            ≡ Some fault) }
        ensures memory { result ≡ Err LogFault.Memory
            → (length self.old.events.items < most_events)
            × (line_gives timing self.old.reference ids.now line.now ≢ []) }
    {
        match line_says(&ids.known(), line) {
            Ok(said) => match self.take(timing, ids, &said) {
                Ok(()) => Ok(()),
                Err(limit) => Err(limit.fault()),
            },
            Err(fault) => Err(LogFault::Line(number, fault)),
        }
    }
}
