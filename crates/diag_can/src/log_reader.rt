//! The log of a tester's link, whole or as its lines come.

ghost use Rattle.std.specs.Prelude.{◌≡◌, ◌≢◌, ◌<◌, ◌≤◌, ◌+◌, ℕ, List, [], ◌∷◌, ◌++◌, length, Some, None, Ok, Err, IfOk, IfSome, IfErr, OnOk, OnErr};
ghost use Rattle.diag_can.specs.BusLine.{HasNoFeed};
ghost use Rattle.diag_can.specs.Fault.{fault_of};
ghost use Rattle.diag_can.specs.Growing.{GivesMore, HasEvent};
ghost use Rattle.diag_can.specs.HasRead.{AreRead, HasLines, HasRead};
ghost use Rattle.diag_can.specs.Line.{known_to, line_says};
ghost use Rattle.diag_can.specs.Log.{events, fault_after, most_events, most_lines, without_return};
ghost use Rattle.diag_can.specs.Pieces.{TakesLines};
ghost use Rattle.diag_can.specs.declared.log.Timing.{Timing};

use crate::bus_line::BusLine;
use crate::event_log::{Log, MAX_EVENTS};
use crate::fault::{Limit, LogFault};
use crate::frame::Ids;
use crate::front::first_line;
use crate::log::{Reading, Timing, without_return};
use std::alloc::{AllocError, Global};

/// The most lines of a log.
const MAX_LINES: u32 = 1_000_000;

/// Most lines of a log have more bytes than this.
const SHORT_LINE: usize = 32;

/// A log (candump's log format) that is read as its lines come: what its lines so far give, or the first fault among
/// them. It is `read_log`, of a text that comes in pieces: split at LF, one CR at the end of a line dropped.
#[derive(Drop)]
pub struct LogReader {
    /// The first fault: what follows it is not looked at.
    fault: Option<LogFault>,
    /// How many lines were read.
    lines: u32,
    reading: Reading,
}

impl LogReader {
    /// A log of which nothing was read.
    pub fn new(alloc: Global) -> LogReader
        ensures { (ids : Ids) (timing : Timing) → HasRead ids timing result [] }
    {
        LogReader::with_log(Log::new(alloc))
    }

    /// The same, which reads into a log with no events.
    fn with_log(events: Log) -> LogReader
        requires { events.items ≡ [] }
        ensures { (ids : Ids) (timing : Timing) → HasRead ids timing result [] }
    {
        LogReader {
            fault: None,
            lines: 0,
            reading: Reading {
                events,
                reference: None,
            },
        }
    }

    /// Takes the whole lines at the front of what follows in the log, each ended by an LF, and gives what is begun behind
    /// them. Behind a fault nothing is looked at, and all is taken.
    ///
    /// # Errors
    /// `AllocError` where memory is refused: it is asked for an event and its bytes only. The reader can't go on then.
    pub fn take_lines<'a>(
        &mut self,
        ids: &Ids,
        timing: Timing,
        text: &'a [u8],
    ) -> Result<&'a [u8], AllocError>
        requires { (seen : List ℕ) × HasRead ids.now timing self.old seen }
        ensures took { IfOk result (λ rest. TakesLines (HasRead ids.now timing self.old)
            (HasRead ids.now timing self.new) text.now rest.now) }
        ensures memory { OnErr result ((seen more : List ℕ)
            → HasRead ids.now timing self.old seen
            → HasEvent timing ids.now (seen ++ (text.now ++ more))) }
    {
        if self.fault.is_some() {
            return Ok(&[]);
        }
        match self.take_well(ids, timing, text) {
            Ok(rest) => Ok(rest),
            Err(fault) => match fault {
                LogFault::Memory => Err(AllocError),
                _ => {
                    self.fault = Some(fault);
                    Ok(&[])
                }
            },
        }
    }

    /// The same up to the first line at fault.
    fn take_well<'a>(
        &mut self,
        ids: &Ids,
        timing: Timing,
        text: &'a [u8],
    ) -> Result<&'a [u8], LogFault>
        requires { (seen : List ℕ) × HasLines ids.now timing self.old seen }
        ensures ok { IfOk result (λ rest. TakesLines (HasLines ids.now timing self.old)
            (HasLines ids.now timing self.new) text.now rest.now) }
        ensures fault { IfErr result (λ fault. fault ≢ LogFault.Memory → (seen more : List ℕ)
            → HasLines ids.now timing self.old seen
            → events (seen ++ (text.now ++ more)) ids.now timing ≡ Err fault) }
        ensures memory { result ≡ Err LogFault.Memory → (seen more : List ℕ)
            → HasLines ids.now timing self.old seen
            → HasEvent timing ids.now (seen ++ (text.now ++ more)) }
        ensures still { self.new.fault ≡ self.old.fault }
    {
        let known = ids.known();
        let mut rest = text;
        while let Some(first) = first_line(&known, rest) {
            match &first.said {
                Some(said) => {
                    if let Err(limit) = self.take_said(ids, timing, said) {
                        return Err(limit.fault());
                    }
                }
                None => self.take_line(ids, timing, first.line)?,
            }
            rest = first.after;
        }
        Ok(rest)
    }

    /// Takes the line that comes next, by what it says. (It matches on that at once, so that the compiler doesn't join the ways of
    /// frames and of ticks.)
    #[inline(always)]
    fn take_said(&mut self, ids: &Ids, timing: Timing, said: &BusLine) -> Result<(), Limit>
        requires { (past : List (List ℕ)) × AreRead ids.now timing self.old past }
        ensures took { OnOk result ((past : List (List ℕ)) (line : List ℕ)
            → line_says (known_to ids.now) line ≡ Ok said.now
            → AreRead ids.now timing self.old past
            → AreRead ids.now timing self.new (past ++ line ∷ [])) }
        ensures fault { IfErr result (λ limit. limit ≢ Limit.Memory → (past : List (List ℕ)) (line : List ℕ)
            → line_says (known_to ids.now) line ≡ Ok said.now
            → AreRead ids.now timing self.old past
            → fault_after timing ids.now past line ≡ Some (fault_of limit)) }
        ensures memory { result ≡ Err Limit.Memory → (past : List (List ℕ)) (line : List ℕ)
            → line_says (known_to ids.now) line ≡ Ok said.now
            → AreRead ids.now timing self.old past
            → GivesMore timing ids.now past line }
        ensures still { self.new.fault ≡ self.old.fault }
    {
        let Some(number) = self.next_number() else {
            return Err(Limit::Lines);
        };
        self.lines = number;
        self.reading.take(timing, ids, said)
    }

    /// Takes the line that comes next, whatever its form is.
    #[inline(never)]
    fn take_line(&mut self, ids: &Ids, timing: Timing, line: &[u8]) -> Result<(), LogFault>
        requires { (past : List (List ℕ)) × AreRead ids.now timing self.old past }
        ensures took { OnOk result ((past : List (List ℕ))
            → AreRead ids.now timing self.old past
            → AreRead ids.now timing self.new (past ++ without_return line.now ∷ [])) }
        ensures fault { IfErr result (λ fault. fault ≢ LogFault.Memory → (past : List (List ℕ))
            → AreRead ids.now timing self.old past
            → fault_after timing ids.now past (without_return line.now) ≡ Some fault) }
        ensures memory { result ≡ Err LogFault.Memory → (past : List (List ℕ))
            → AreRead ids.now timing self.old past
            → GivesMore timing ids.now past (without_return line.now) }
        ensures still { self.new.fault ≡ self.old.fault }
    {
        let Some(number) = self.next_number() else {
            return Err(LogFault::TooManyLines);
        };
        self.lines = number;
        self.reading
            .take_line(timing, ids, number, without_return(line))
    }

    /// The number of the line that comes next, from 1; none behind the last that a log may have.
    #[inline(always)]
    fn next_number(&self) -> Option<u32>
        ensures number { IfSome result (λ number. number ≡ self.now.lines + 1) }
        ensures room { IfSome result (λ number. self.now.lines < most_lines) }
        ensures none { result ≡ None → most_lines ≤ self.now.lines }
    {
        if self.lines >= MAX_LINES {
            return None;
        }
        Some(self.lines + 1)
    }

    /// The log's events, where these bytes of a line, or none, end it.
    ///
    /// # Errors
    /// As `read_log`.
    pub fn finish(mut self, ids: &Ids, timing: Timing, begun: &[u8]) -> Result<Log, LogFault>
        requires taken { (seen : List ℕ) × HasRead ids.now timing self seen }
        requires line { HasNoFeed begun.now }
        ensures ok { IfOk result (λ log. (seen : List ℕ) → HasRead ids.now timing self seen
            → events (seen ++ begun.now) ids.now timing ≡ Ok log.items) }
        ensures err { IfErr result (λ fault. fault ≢ LogFault.Memory → (seen : List ℕ)
            → HasRead ids.now timing self seen
            → events (seen ++ begun.now) ids.now timing ≡ Err fault) }
        ensures memory { result ≡ Err LogFault.Memory → (seen : List ℕ)
            → HasRead ids.now timing self seen
            → HasEvent timing ids.now (seen ++ begun.now) }
        ensures few { IfOk result (λ log. length log.items ≤ most_events) }
    {
        if let Some(fault) = self.fault {
            return Err(fault);
        }
        if begun.is_empty() {
            return Ok(self.reading.events);
        }
        self.take_line(ids, timing, begun)?;
        Ok(self.reading.events)
    }
}

/// The events of a log (candump's log format) to the tester of these identifiers: split at LF, one CR at the end of a line
/// dropped, in one pass. A line gives time for `tick` and `tick N`; a frame for `(SECONDS.FRACTION) NAME ID#BYTES`, and for
/// `(SECONDS.FRACTION) NAME ID##FLAGSBYTES` of a tester that talks by CAN FD, where the identifier is the tester's request
/// identifier or the functional one; nothing for every other identifier, for remote frames, for CAN FD frames that the tester
/// doesn't read, and where it is empty. A line with eight digits of an identifier is passed over, whatever follows, unless the
/// tester has it. With `Timing::Stamps` a line that gives a frame gives before it the milliseconds by which its stamp is later
/// than the latest stamp of a frame before, as Ticks of 60000 and last the rest; else stamps are checked for form alone.
///
/// # Errors
/// The first of these in the order of the lines: `Line`, the line's number from 1 and its fault; `TooManyEvents`, at a
/// line with whose events there are more than 1,000,000; `TooManyLines`, where a line follows the 1,000,000th. `Memory`
/// where memory is refused: it is asked for an event and its bytes alone, once its line is found well and there is room for
/// one event more.
pub fn read_log(alloc: Global, text: &[u8], ids: &Ids, timing: Timing) -> Result<Log, LogFault>
    ensures ok { IfOk result (λ log. events text.now ids.now timing ≡ Ok log.items) }
    ensures err { IfErr result (λ fault.
        fault ≢ LogFault.Memory → events text.now ids.now timing ≡ Err fault) }
    ensures memory { result ≡ Err LogFault.Memory → HasEvent timing ids.now text.now }
    ensures few { IfOk result (λ log. length log.items ≤ most_events) }
{
    let mut reader = LogReader::with_log(with_room(alloc, text));
    match reader.take_lines(ids, timing, text) {
        Ok(begun) => reader.finish(ids, timing, begun),
        Err(_) => Err(LogFault::Memory),
    }
}

/// No events, and room for those of a text of usual lines: where there are more, or there isn't so much room at once, the
/// log grows.
fn with_room(alloc: Global, text: &[u8]) -> Log
    ensures { result.items ≡ [] }
{
    Log::with_room(alloc, (text.len() / SHORT_LINE).min(MAX_EVENTS))
}
