//! What is kept of a recording, and the lines of exchanges that are over.

ghost use Rattle.std.specs.Prelude.{◌≡◌, ◌<◌, ◌≤◌, ◌+◌, ◌^◌, ◌∷◌, [], ◌++◌, ℕ, List, length, option_copied, IfOk, OnOk, OnErr, Ok};
ghost use Rattle.diag_can.specs.declared.bus_line.BusLine.{BusLine as ABusLine};
ghost use Rattle.diag_desk.specs.Entries.{asks};
ghost use Rattle.diag_desk.specs.declared.entry.Entry.{Entry};
ghost use Rattle.diag_ecu.specs.State.{State};
ghost use Rattle.diag_setup.specs.declared.raw.RawSetup.{RawSetup};
ghost use Rattle.diag_desk.specs.Legal.{after};
ghost use Rattle.diag_bus.specs.Events.{frame_said};
ghost use Rattle.diag_bus.specs.ResponseIds.{AreResponsesOf};
ghost use Rattle.diag_bus.specs.Text.{ecu_after};
ghost use Rattle.diag_port.specs.Port.{Grew};
ghost use Rattle.diag_compare.specs.Hearing.{unit_side};
ghost use Rattle.diag_comparing.specs.Idle.{AreIdleOutside, HasNoneOutside, IsOutside, IsWider};
ghost use Rattle.diag_comparing.specs.Keeping.{HasTaken, IsUnitFrame, TakesEach, TakesEnd, bytes_to};
ghost use Rattle.diag_judge.specs.Judging.{IsIdle, bytes_in};

use crate::range::Range;
use crate::stamps::Stamps;
use crate::telling::write_batch;
use diag_bus::{Clock, ResponseIds};
use diag_can::{BusLine, FrameText, KeptStamp, TickCount};
use diag_ecu::Ecu;
use diag_exchange::{CaptureLine, Spare};
use diag_expect::Entered;
use diag_judge::{Judged, Tester};
use diag_pdu::{LinkSetup, Message, Request};
use diag_setup::{Setup, TesterId};
use std::alloc::{AllocError, Global};

/// What is kept of a recording: of each tester the exchanges that aren't over, and how many were.
///
/// It doesn't grow with the recording. Its contract is the relation `HasTaken`, to the lines that it took.
#[derive(Drop)]
pub struct ExchangeLines {
    /// Whether the lines of exchanges that agree are left out.
    pub differences: bool,
    /// How many lines were taken.
    pub lines: u64,
    /// Where the bus's time begins.
    pub stamps: Stamps,
    /// To which tester a frame of the unit's is.
    pub responses: ResponseIds,
    /// The testers, in the setup's order.
    pub testers: Vec<Tester>,
    /// Outside it all testers are idle.
    pub busy: Range,
    /// What is over with a line.
    pub batch: Vec<Judged>,
    /// Boxes for exchanges to come.
    pub spare: Spare,
    /// The last stamp that was told.
    pub last: KeptStamp,
}

/// The longest message that a listener takes, in bytes.
const LONGEST: u16 = 65_535;

/// By what the frames of the unit to a tester are read: a listener takes the longest message, and doesn't judge times.
fn unit_side(setup: &Setup, who: TesterId) -> LinkSetup
    requires { who ≤ length setup.now.testers }
    ensures { result ≡ unit_side setup.now who }
{
    LinkSetup {
        max_request: LONGEST,
        n_cr: TickCount::longest(),
        ..setup.link(who)
    }
}

/// A frame of the unit to a tester.
#[derive(Drop)]
struct UnitFrame<'a, 'b> {
    who: TesterId,
    frame: &'a FrameText<'b>,
}

/// A line's frame, where it is one of the unit's.
#[inline(always)]
fn unit_frame<'a, 'b>(
    responses: &ResponseIds,
    setup: &Setup,
    said: &'a BusLine<'b>,
) -> Option<UnitFrame<'a, 'b>>
    requires { AreResponsesOf setup.now responses.now }
    ensures { IsUnitFrame setup.now (frame_said said.now) result }
{
    match said {
        BusLine::Empty | BusLine::Ticks(_) => None,
        BusLine::Stamped { moment: _, frame } => match frame {
            Some(frame) => match responses.responder(setup, frame.id()) {
                Some(who) => Some(UnitFrame { who, frame }),
                None => None,
            },
            None => None,
        },
    }
}

/// Its text, where it is to this tester.
#[inline(always)]
fn frame_to<'a, 'b>(sent: Option<&UnitFrame<'a, 'b>>, who: TesterId) -> Option<&'a FrameText<'b>>
    ensures { bytes_in (option_copied result) ≡ bytes_to (option_copied sent.entry) who }
{
    match sent {
        Some(sent) => {
            if sent.who == who {
                Some(sent.frame)
            } else {
                None
            }
        }
        None => None,
    }
}

/// The number behind this one.
fn next(number: u64) -> Result<u64, AllocError>
    ensures { IfOk result (λ next. next ≡ number + 1) }
{
    number.checked_add(1).ok_or(AllocError)
}

/// Which testers may have something to take with a line: those that may be busy, and the one that the frame is to.
fn asked(busy: Range, sent: Option<&UnitFrame<'_, '_>>) -> Range
    ensures busy { IsWider busy result }
    ensures sent { HasNoneOutside result (option_copied sent.entry) }
{
    match sent {
        Some(sent) => busy.with(sent.who.index()),
        None => busy,
    }
}

/// Gives the end of a line to each tester that it may concern, which are those in a range; what is over with it is put
/// behind `judged`, one tester behind the other. The range that is returned has those that aren't idle then.
fn take_each(
    testers: &mut Vec<Tester>,
    range: Range,
    sent: Option<&UnitFrame<'_, '_>>,
    setup: &Setup,
    at: CaptureLine,
    said: &BusLine,
    span: u64,
    judged: &mut Vec<Judged>,
) -> Result<Range, AllocError>
    requires many { length testers.old.items ≡ length setup.now.testers }
    requires sent { IsUnitFrame setup.now (frame_said said.now) (option_copied sent) }
    requires none { HasNoneOutside range (option_copied sent) }
    requires idle { AreIdleOutside range testers.old.items }
    ensures each { OnOk result (TakesEach setup.now at said.now span
        testers.old.items testers.new.items judged.old.items judged.new.items) }
    ensures many { length testers.new.items ≡ length testers.old.items }
    ensures left { IfOk result (λ left. AreIdleOutside left testers.new.items) }
    ensures idle { AreIdleOutside range testers.new.items }
{
    // (for its contract: the frame is that of this line)
    let _said = said;
    let end = range.end.min(testers.len());
    let first = range.first.min(end);
    let mut left = Range::none();
    for index in first..end {
        let who = setup.who(index);
        let frame = frame_to(sent, who);
        testers[index].take_line(setup, who, at, span, frame, judged)?;
        left = left_with(left, index, &testers[index]);
    }
    Ok(left)
}

/// A range that has this tester too, unless it is idle.
#[inline(always)]
fn left_with(left: Range, index: usize, tester: &Tester) -> Range
    requires { index < 2 ^ 63 }
    ensures wider { IsWider left result }
    ensures has { IsOutside result index → IsIdle tester.now }
{
    if tester.is_idle() {
        left
    } else {
        left.with(index)
    }
}

/// Gives back the boxes of exchanges that were told, and leaves none.
#[inline(always)]
fn give_back(told: &mut Vec<Judged>, spare: &mut Spare)
    ensures { told.new.items ≡ [] }
{
    for _turn in 0..told.len() {
        let one = told.take_last();
        spare.take_back(one.over);
    }
}

impl ExchangeLines {
    /// What is kept before a setup is known.
    pub fn new(alloc: Global, differences: bool) -> ExchangeLines
        ensures differences { result.differences ≡ differences }
        ensures none { (result.lines ≡ 0) × (result.testers.items ≡ []) }
    {
        ExchangeLines {
            differences,
            lines: 0,
            stamps: Stamps::new(),
            responses: ResponseIds {
                testers: Vec::new(alloc),
            },
            testers: Vec::new(alloc),
            busy: Range::none(),
            batch: Vec::new(alloc),
            spare: Spare::new(alloc),
            last: KeptStamp::new(),
        }
    }

    /// Begins for the testers of a setup.
    ///
    /// # Errors
    /// `AllocError` where memory is refused, and then nothing has changed.
    pub fn set_up(&mut self, alloc: Global, setup: &Setup) -> Result<(), AllocError>
        ensures taken { OnOk result (HasTaken self.new setup.now [] []) }
        ensures responses { OnOk result (AreResponsesOf setup.now self.new.responses) }
        ensures idle { OnOk result (AreIdleOutside self.new.busy self.new.testers.items) }
        ensures err { OnErr result (self.new ≡ self.old) }
        ensures differences { self.new.differences ≡ self.old.differences }
    {
        let mut testers = Vec::new(alloc);
        for index in 0..setup.testers() {
            let who = setup.who(index);
            testers.push(Tester::new(alloc, unit_side(setup, who)))?;
        }
        let responses = ResponseIds::new(alloc, setup)?;
        self.responses = responses;
        self.testers = testers;
        self.busy = Range::none();
        self.lines = 0;
        self.stamps = Stamps::new();
        Ok(())
    }

    /// Takes a request with its reply; `ecu` is the ECU before it.
    ///
    /// # Errors
    /// `AllocError` where memory is refused; what was taken before is as it was.
    pub fn enter(
        &mut self,
        ecu: &Ecu,
        who: TesterId,
        request: &Request,
        reply: Option<&Message>,
    ) -> Result<(), AllocError>
        ensures taken { OnOk result ((setup : RawSetup) (lines : List (List ℕ)) (K : List Entry)
            → ecu.now ≡ after (ecu_after setup lines) K
            → HasTaken self.old setup lines K
            → HasTaken self.new setup lines (K ++ asks who request.now (option_copied reply.entry) ∷ [])) }
        ensures err { OnErr result ((setup : RawSetup) (lines : List (List ℕ)) (K : List Entry)
            → HasTaken self.old setup lines K → HasTaken self.new setup lines K) }
        ensures many { length self.new.testers.items ≡ length self.old.testers.items }
        ensures idle { AreIdleOutside self.old.busy self.old.testers.items
            → AreIdleOutside self.new.busy self.new.testers.items }
        ensures responses { self.new.responses ≡ self.old.responses }
        ensures differences { self.new.differences ≡ self.old.differences }
    {
        let index = who.index();
        if index >= self.testers.len() {
            return Ok(());
        }
        let entered = Entered::of(&mut self.spare, ecu, who, request, reply)?;
        self.busy = self.busy.with(index);
        self.testers[index].enter(entered)
    }

    /// Takes the end of a line that says this, by which so many milliseconds passed and behind which the clock is this; adds
    /// the lines of exchanges that are over with it.
    ///
    /// # Errors
    /// `AllocError` where memory is refused: the text is as it was, and of what was taken nothing is said then.
    pub fn take_end(
        &mut self,
        setup: &Setup,
        said: &BusLine,
        span: u64,
        clock: &Clock,
        text: &mut Vec<u8>,
    ) -> Result<(), AllocError>
        requires many { length self.old.testers.items ≡ length setup.now.testers }
        requires responses { AreResponsesOf setup.now self.old.responses }
        requires idle { AreIdleOutside self.old.busy self.old.testers.items }
        ensures taken { OnOk result (Grew text.old.items text.new.items
            (TakesEnd setup.now self.old self.new said.now span clock.now)) }
        ensures err { OnErr result (text.new.items ≡ text.old.items) }
        ensures many { length self.new.testers.items ≡ length self.old.testers.items }
        ensures idle { AreIdleOutside self.new.busy self.new.testers.items }
        ensures responses { self.new.responses ≡ self.old.responses }
        ensures differences { self.new.differences ≡ self.old.differences }
    {
        let line = next(self.lines)?;
        let at = CaptureLine {
            number: line,
            moment: clock.time,
        };
        give_back(&mut self.batch, &mut self.spare);
        let sent = unit_frame(&self.responses, setup, said);
        self.busy = asked(self.busy, sent.as_ref());
        self.busy = take_each(
            &mut self.testers,
            self.busy,
            sent.as_ref(),
            setup,
            at,
            said,
            span,
            &mut self.batch,
        )?;
        self.stamps.take(line, clock);
        self.lines = line;
        if self.batch.is_empty() {
            return Ok(());
        }
        write_batch(
            setup,
            &self.stamps,
            self.differences,
            &mut self.batch,
            &mut self.last,
            text,
        )?;
        Ok(())
    }
}
