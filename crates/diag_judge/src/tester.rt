//! A tester of a recording.

ghost use Rattle.std.specs.Prelude.{◌≡◌, ◌≤◌, ◌<◌, ◌+◌, None, [], ◌∷◌, ◌++◌, List, length, map, take, option_copied, ◌↔◌, IsOk, IsTrue, OnErr, OnOk, IfOk};
ghost use Rattle.diag_can.specs.Event.{Physical};
ghost use Rattle.diag_exchange.specs.Agreeing.{agrees};
ghost use Rattle.diag_exchange.specs.Over.{Over as AnOver};
ghost use Rattle.diag_listen.specs.Listening.{Hears};
ghost use Rattle.diag_judge.specs.Judging.{AreCounts, EndsCounted, EndsJudged, HearsLine, HearsRequests, IsIdle, Judges, JudgesLine, bytes_in, judged_for};

use diag_can::{FrameText, LentBytes};
use diag_exchange::{CaptureLine, Over};
use diag_expect::Entered;
use diag_listen::Listener;
use diag_pdu::LinkSetup;
use diag_setup::{Setup, TesterId};
use std::alloc::{AllocError, Global};

/// An exchange of a tester that is over.
#[derive(Drop)]
pub struct Judged {
    /// The tester.
    pub who: TesterId,
    /// The exchange.
    pub over: Over,
    /// Whether it agrees.
    pub agrees: bool,
}

/// What is counted of exchanges.
#[derive(Clone, Copy, Drop)]
pub struct Counts {
    /// How many they are.
    pub count: u64,
    /// How many of them differ.
    pub differ: u64,
    /// Whether there is a message of the unit to compare.
    pub compared: bool,
}

/// A tester of a recording: its exchanges, and how many were over.
#[derive(Drop)]
pub struct Tester {
    /// The unit's side, and the exchanges that aren't over.
    pub listener: Listener,
    /// The requests of the line that is under way.
    pub entered: Vec<Entered>,
    /// Room for what is over with a line.
    pub over: Vec<Over>,
    /// What is counted of the exchanges that were over.
    pub counts: Counts,
}

/// Hears requests that are complete at a line, and leaves none; what is over with them is put behind `over`.
fn hear_requests(
    listener: &mut Listener,
    setup: &Setup,
    at: CaptureLine,
    entered: &mut Vec<Entered>,
    over: &mut Vec<Over>,
) -> Result<(), AllocError>
    ensures heard { OnOk result (HearsRequests setup.now at listener.old listener.new over.old.items over.new.items
        entered.old.items) }
    ensures none { OnOk result (entered.new.items ≡ []) }
    ensures link_setup { listener.new.setup ≡ listener.old.setup }
{
    let alloc = *over.allocator();
    entered.reverse();
    for _turn in 0..entered.len() {
        let one = entered.take_last();
        let asked = one.into_exchange(alloc, setup, at)?;
        listener.ask(asked, over)?;
    }
    Ok(())
}

/// Hears a frame of the unit; what is over with it is put behind `over`.
#[inline(always)]
fn hear_frame(
    listener: &mut Listener,
    at: CaptureLine,
    frame: &FrameText<'_>,
    over: &mut Vec<Over>,
) -> Result<(), AllocError>
    ensures heard { OnOk result (Hears listener.old listener.new over.old.items over.new.items at
        (Physical frame.now.bytes ∷ [])) }
    ensures link_setup { listener.new.setup ≡ listener.old.setup }
{
    if frame.is_long() {
        return hear_long(listener, at, frame, over);
    }
    listener.take(at, &LentBytes::short(&frame.bytes()), over)
}

/// The same of a frame of more than 8 bytes.
#[cold]
#[inline(never)]
fn hear_long(
    listener: &mut Listener,
    at: CaptureLine,
    frame: &FrameText<'_>,
    over: &mut Vec<Over>,
) -> Result<(), AllocError>
    requires { 8 < length frame.now.bytes }
    ensures heard { OnOk result (Hears listener.old listener.new over.old.items over.new.items at
        (Physical frame.now.bytes ∷ [])) }
    ensures link_setup { listener.new.setup ≡ listener.old.setup }
{
    let bytes = frame.long_bytes();
    listener.take(at, &LentBytes::long(bytes.as_slice()), over)
}

/// Lets all go that is in a list, where something is.
#[inline(always)]
fn empty(over: &mut Vec<Over>)
    ensures { over.new.items ≡ [] }
{
    if over.is_empty() {
        return;
    }
    over.clear();
}

/// The number behind this one.
fn next(number: u64) -> Result<u64, AllocError>
    ensures { IfOk result (λ next. next ≡ number + 1) }
{
    number.checked_add(1).ok_or(AllocError)
}

impl Tester {
    /// A tester that heard nothing, whose frames are read by these settings.
    pub fn new(alloc: Global, link_setup: LinkSetup) -> Tester
        ensures judges { Judges result [] [] }
        ensures entered { result.entered.items ≡ [] }
        ensures link_setup { result.listener.setup ≡ link_setup }
    {
        Tester {
            listener: Listener::new(alloc, link_setup),
            entered: Vec::new(alloc),
            over: Vec::new(alloc),
            counts: Counts::new(),
        }
    }

    /// Takes a request of the line that is under way.
    ///
    /// # Errors
    /// `AllocError` where memory is refused; the requests are as they were.
    #[inline(always)]
    pub fn enter(&mut self, entered: Entered) -> Result<(), AllocError>
        ensures entered { OnOk result (self.new.entered.items ≡ self.old.entered.items ++ entered ∷ []) }
        ensures err { OnErr result (self.new.entered.items ≡ self.old.entered.items) }
        ensures listener { self.new.listener ≡ self.old.listener }
        ensures counts { self.new.counts ≡ self.old.counts }
    {
        self.entered.reserve(1)?;
        self.entered.push_reserved(entered);
        Ok(())
    }

    /// Takes the end of a line: so many milliseconds, the requests that were entered, and a frame of the unit, where the
    /// line has one. What is over with it is put behind `judged`. Where the tester is idle and there is no frame, nothing
    /// changes.
    ///
    /// # Errors
    /// `AllocError` where memory is refused; of what was taken nothing is said then, and some of what is over may be there.
    #[inline(always)]
    pub fn take_line(
        &mut self,
        setup: &Setup,
        who: TesterId,
        at: CaptureLine,
        span: u64,
        frame: Option<&FrameText<'_>>,
        judged: &mut Vec<Judged>,
    ) -> Result<(), AllocError>
        ensures judges { OnOk result (JudgesLine setup.now at who self.old self.new judged.old.items judged.new.items span
            (bytes_in (option_copied frame.entry))) }
        ensures entered { OnOk result (self.new.entered.items ≡ []) }
        ensures idle { option_copied frame.entry ≡ None → IsIdle self.old
            → IsOk result × (self.new ≡ self.old) × (judged.new ≡ judged.old) }
        ensures front { take (length judged.old.items) judged.new.items ≡ judged.old.items }
        ensures link_setup { self.new.listener.setup ≡ self.old.listener.setup }
    {
        if frame.is_none() && self.is_idle() {
            return Ok(());
        }
        self.take(setup, who, at, span, frame, judged)
    }

    /// Whether time alone changes nothing: no request was entered, and no message is coming in.
    #[inline(always)]
    pub fn is_idle(&self) -> bool
        ensures { IsTrue result ↔ IsIdle self.now }
    {
        self.entered.is_empty() && self.listener.exchanges.coming.is_none()
    }

    /// Takes the end of a line by which something happens.
    #[inline(never)]
    fn take(
        &mut self,
        setup: &Setup,
        who: TesterId,
        at: CaptureLine,
        span: u64,
        frame: Option<&FrameText<'_>>,
        judged: &mut Vec<Judged>,
    ) -> Result<(), AllocError>
        ensures judges { OnOk result (JudgesLine setup.now at who self.old self.new judged.old.items judged.new.items span
            (bytes_in (option_copied frame.entry))) }
        ensures entered { OnOk result (self.new.entered.items ≡ []) }
        ensures front { take (length judged.old.items) judged.new.items ≡ judged.old.items }
        ensures link_setup { self.new.listener.setup ≡ self.old.listener.setup }
    {
        self.hear(setup, at, span, frame)?;
        if self.over.is_empty() {
            return Ok(());
        }
        self.counts
            .judge(*judged.allocator(), who, &mut self.over, judged)
    }

    /// Hears a line, and keeps what is over with it.
    #[inline(always)]
    fn hear(
        &mut self,
        setup: &Setup,
        at: CaptureLine,
        span: u64,
        frame: Option<&FrameText<'_>>,
    ) -> Result<(), AllocError>
        ensures heard { OnOk result (HearsLine setup.now at self.old.listener self.new.listener [] self.new.over.items
            span self.old.entered.items (bytes_in (option_copied frame.entry))) }
        ensures entered { OnOk result (self.new.entered.items ≡ []) }
        ensures link_setup { self.new.listener.setup ≡ self.old.listener.setup }
        ensures counts { self.new.counts ≡ self.old.counts }
    {
        empty(&mut self.over);
        self.listener.wait(at, span, &mut self.over)?;
        hear_requests(
            &mut self.listener,
            setup,
            at,
            &mut self.entered,
            &mut self.over,
        )?;
        match frame {
            Some(frame) => hear_frame(&mut self.listener, at, frame, &mut self.over),
            None => Ok(()),
        }
    }

    /// Where all was taken, what is counted of all exchanges; those that aren't over are put behind `judged`.
    ///
    /// # Errors
    /// `AllocError` where memory is refused; then some of them may be there.
    pub fn end(
        &self,
        alloc: Global,
        who: TesterId,
        judged: &mut Vec<Judged>,
    ) -> Result<Counts, AllocError>
        ensures judged { OnOk result (EndsJudged self.now who judged.old.items judged.new.items) }
        ensures counts { IfOk result (EndsCounted self.now) }
        ensures front { take (length judged.old.items) judged.new.items ≡ judged.old.items }
    {
        let mut over = Vec::new(alloc);
        self.listener.left(alloc, &mut over)?;
        let mut counts = self.counts;
        counts.judge(alloc, who, &mut over, judged)?;
        Ok(counts)
    }
}

impl Counts {
    /// Nothing was counted.
    fn new() -> Counts
        ensures { AreCounts result [] }
    {
        Counts {
            count: 0,
            differ: 0,
            compared: false,
        }
    }

    /// Counts what is over, and judges it.
    fn judge(
        &mut self,
        alloc: Global,
        who: TesterId,
        over: &mut Vec<Over>,
        judged: &mut Vec<Judged>,
    ) -> Result<(), AllocError>
        ensures judged { OnOk result
            (judged.new.items ≡ judged.old.items ++ map (judged_for who) over.old.items) }
        ensures front { take (length judged.old.items) judged.new.items ≡ judged.old.items }
        ensures counts { OnOk result ((before : List AnOver) → AreCounts self.old before
            → AreCounts self.new (before ++ over.old.items)) }
    {
        judged.reserve(over.len())?;
        over.reverse();
        for _turn in 0..over.len() {
            let agrees = self.judge_last(alloc, over.as_slice())?;
            judged.push_reserved(Judged {
                who,
                over: over.take_last(),
                agrees,
            });
        }
        Ok(())
    }

    /// Counts the last of some exchanges, and says whether it agrees.
    #[inline(always)]
    fn judge_last(&mut self, alloc: Global, over: &[Over]) -> Result<bool, AllocError>
        requires { 1 ≤ length over.now }
        ensures agrees { IfOk result (λ same. (less : List AnOver) (one : AnOver) → over.now ≡ less ++ one ∷ []
            → same ≡ agrees one) }
        ensures counts { OnOk result ((less : List AnOver) (one : AnOver) → over.now ≡ less ++ one ∷ []
            → (before : List AnOver) → AreCounts self.old before → AreCounts self.new (before ++ one ∷ [])) }
    {
        let one = &over[over.len() - 1];
        let same = one.agrees(alloc)?;
        self.note(one, same)?;
        Ok(same)
    }

    /// Counts an exchange that is over.
    fn note(&mut self, over: &Over, same: bool) -> Result<(), AllocError>
        requires { same ≡ agrees over.now }
        ensures { OnOk result ((before : List AnOver) → AreCounts self.old before
            → AreCounts self.new (before ++ over.now ∷ [])) }
    {
        self.count = next(self.count)?;
        if !same {
            self.differ = next(self.differ)?;
        }
        self.compared = self.compared || over.is_compared();
        Ok(())
    }
}
