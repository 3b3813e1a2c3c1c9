//! What is kept of a recording and of the frames that the server sends, to compare the two.

ghost use Rattle.std.specs.Prelude.{◌≡◌, ◌≢◌, ◌≤◌, ℕ, List, [], ◌∷◌, ◌++◌, ◌+◌, length, map, slice_get, option_copied, Ok, Some, IfSome, IsOk, IsSomeAnd, OnOk, OnErr, IfOk};
ghost use Rattle.hex.specs.Hex.{decode_of};
ghost use Rattle.diag_bus.specs.Comparing.{Compares, ComparesLines, Disagrees, EachExpects, EachRecords, Expects, IsLack, IsVerdict, Records, RecordsCounted, TakesLine, shown};
ghost use Rattle.diag_bus.specs.Filled.{AreFilled};
ghost use Rattle.diag_bus.specs.Node.{lists_of};
ghost use Rattle.diag_bus.specs.RequestIds.{IsWithin};
ghost use Rattle.diag_bus.specs.ResponseIds.{AreResponsesOf, IsResponder};
ghost use Rattle.diag_bus.specs.Verdict.{at_line, difference, expected_of, first_difference, is_pending, recorded};
ghost use Rattle.diag_bus.specs.declared.comparing.Comparison.{Comparison as AComparison};
ghost use Rattle.diag_bus.specs.declared.verdict.Recorded.{Recorded as ARecorded};
ghost use Rattle.diag_setup.specs.declared.raw.RawSetup.{RawSetup};

use crate::clock::Clock;
use crate::filled::Filled;
use crate::line_frames::LineFrames;
use crate::response_ids::ResponseIds;
use crate::sink::Sink;
use crate::verdict::{Difference, LentDifference, Recorded, Verdict, earlier};
use diag_can::{BusLine, FdBytes, FrameBytes, FrameText, KeptBytes, TickCount};
use diag_ecu::Ecu;
use diag_pdu::{Message, Request};
use diag_setup::{Setup, TesterId};
use diag_tp::SentFrames;
use std::alloc::{AllocError, Global};
use std::collections::VecDeque;

/// What is kept of a tester's frames: those by which the recording and the server are apart.
///
/// Its contract is the relation `Compares`, to the frames that the recording had and those that the server sent.
#[derive(Drop)]
pub struct Comparison {
    /// Frames of the recording that the server has yet to send.
    pub ahead: VecDeque<Recorded>,
    /// Frames of the server that the recording has yet to have.
    pub behind: VecDeque<KeptBytes>,
    /// How many frames the recording had.
    pub count: u64,
    /// The first difference, once the frame that the server sends at its index is known. Nothing is kept behind it.
    pub difference: Option<Difference>,
}

impl Comparison {
    /// Nothing was recorded, and nothing sent.
    fn new(alloc: Global) -> Comparison
        ensures { Compares result [] [] }
    {
        Comparison {
            ahead: VecDeque::new(alloc),
            behind: VecDeque::new(alloc),
            count: 0,
            difference: None,
        }
    }

    /// Takes a frame that the server sends.
    #[inline(always)]
    fn expect(&mut self, bytes: &[u8]) -> Result<(), AllocError>
        requires { length bytes.now ≤ 64 }
        ensures { OnOk result (Expects self.old self.new (bytes.now ∷ [])) }
    {
        if self.difference.is_some() {
            return Ok(());
        }
        if !self.ahead.is_empty() {
            return self.expect_recorded(bytes);
        }
        keep(&mut self.behind, bytes)
    }

    /// The same where the recording has a frame at its index: it is compared in place, and dropped if it is the same.
    #[inline(never)]
    fn expect_recorded(&mut self, bytes: &[u8]) -> Result<(), AllocError>
        requires fits { length bytes.now ≤ 64 }
        requires agrees { self.old.difference ≡ None }
        requires some { 1 ≤ length self.old.ahead.items }
        ensures { OnOk result (Expects self.old self.new (bytes.now ∷ [])) }
    {
        let Some(frame) = self.ahead.front() else {
            unreachable!()
        };
        if !frame.bytes.is(bytes) {
            return self.expect_other(bytes);
        }
        let _ = self.ahead.pop_front();
        Ok(())
    }

    /// The same where that is another frame: the first difference.
    #[cold]
    #[inline(never)]
    fn expect_other(&mut self, bytes: &[u8]) -> Result<(), AllocError>
        requires fits { length bytes.now ≤ 64 }
        requires agrees { self.old.difference ≡ None }
        requires other { IsSomeAnd (slice_get self.old.ahead.items 0) (λ frame. frame.bytes ≢ bytes.now) }
        ensures { OnOk result (Expects self.old self.new (bytes.now ∷ [])) }
    {
        let bytes = KeptBytes::of(*self.behind.allocator(), bytes)?;
        let Some(frame) = self.ahead.pop_front() else {
            unreachable!()
        };
        self.settle(frame, bytes);
        Ok(())
    }

    /// Takes the frame of the recording's line of that number, unless it says response pending.
    #[inline(always)]
    fn record_frame(&mut self, line: u64, frame: &FrameText) -> Result<(), AllocError>
        ensures { OnOk result (Records self.old self.new (shown line frame.now.bytes)) }
    {
        if frame.is_long() {
            return self.record_long(line, frame.digits());
        }
        let bytes = frame.bytes();
        self.record(line, bytes.as_slice())
    }

    /// The same of a frame of more than 8 bytes, by its digits.
    #[cold]
    #[inline(never)]
    fn record_long(&mut self, line: u64, digits: &[u8]) -> Result<(), AllocError>
        requires hex { IsOk (decode_of digits.now) }
        requires few { length digits.now ≤ 128 }
        ensures { OnOk result ((bytes : List ℕ) → decode_of digits.now ≡ Ok bytes
            → Records self.old self.new (shown line bytes)) }
    {
        let mut bytes = FdBytes::new();
        bytes.set_digits(digits);
        self.record(line, bytes.as_slice())
    }

    /// The same of a frame of these bytes.
    #[inline(never)]
    fn record(&mut self, line: u64, bytes: &[u8]) -> Result<(), AllocError>
        requires { length bytes.now ≤ 64 }
        ensures { OnOk result (Records self.old self.new (shown line bytes.now)) }
    {
        if is_pending(bytes) {
            return Ok(());
        }
        self.count = next(self.count)?;
        if self.difference.is_some() {
            return Ok(());
        }
        let Some(expected) = self.behind.front() else {
            return self.record_other(line, bytes);
        };
        if !expected.is_full(bytes) {
            return self.record_expected(line, bytes);
        }
        self.meet();
        Ok(())
    }

    /// The recorded frame, counted already, is the server's next: that one is dropped.
    #[inline(always)]
    fn meet(&mut self)
        requires agrees { self.old.difference ≡ None }
        requires some { 1 ≤ length self.old.behind.items }
        ensures { (frame : ARecorded) → slice_get self.old.behind.items 0 ≡ Some frame.bytes
            → RecordsCounted self.old self.new frame }
    {
        let _ = self.behind.pop_front();
    }

    /// Takes a recorded frame, counted already, where the server has sent one at its index: it is compared in place.
    #[inline(never)]
    fn record_expected(&mut self, line: u64, bytes: &[u8]) -> Result<(), AllocError>
        requires fits { length bytes.now ≤ 64 }
        requires agrees { self.old.difference ≡ None }
        requires some { 1 ≤ length self.old.behind.items }
        ensures { OnOk result (RecordsCounted self.old self.new (at_line line bytes.now)) }
    {
        let Some(expected) = self.behind.front() else {
            unreachable!()
        };
        if !expected.is(bytes) {
            return self.record_other(line, bytes);
        }
        self.meet();
        Ok(())
    }

    /// Takes a recorded frame, counted already, where the server has sent none or another at its index.
    #[inline(never)]
    fn record_other(&mut self, line: u64, bytes: &[u8]) -> Result<(), AllocError>
        requires fits { length bytes.now ≤ 64 }
        requires agrees { self.old.difference ≡ None }
        requires other { IfSome (slice_get self.old.behind.items 0) (λ expected. expected ≢ bytes.now) }
        ensures { OnOk result (RecordsCounted self.old self.new (at_line line bytes.now)) }
    {
        let bytes = KeptBytes::of(*self.ahead.allocator(), bytes)?;
        let frame = Recorded { line, bytes };
        match self.behind.pop_front() {
            Some(expected) => self.settle(frame, expected),
            None => self.ahead.push_back(frame)?,
        }
        Ok(())
    }

    /// This is the first difference. Nothing is kept behind it.
    #[cold]
    #[inline(never)]
    fn settle(&mut self, frame: Recorded, bytes: KeptBytes)
        ensures difference { self.new.difference ≡ Some (record {
          line = frame.line;
          sent = frame.bytes;
          expected = Some bytes;
        }) }
        ensures ahead { self.new.ahead.items ≡ [] }
        ensures behind { self.new.behind.items ≡ [] }
        ensures count { self.new.count ≡ self.old.count }
    {
        self.difference = Some(Difference {
            line: frame.line,
            sent: frame.bytes,
            expected: Some(bytes),
        });
        self.ahead.clear();
        self.behind.clear();
    }

    /// Takes the frames that the server sends with a line, those left out that say response pending.
    fn expect_each(&mut self, sent: &SentFrames) -> Result<(), AllocError>
        ensures { OnOk result (Expects self.old self.new (expected_of sent.now.items)) }
    {
        for index in 0..sent.len() {
            let next = sent.get(index);
            if !is_pending(next.bytes) {
                self.expect(next.bytes)?;
            }
        }
        Ok(())
    }

    /// The first difference, where the recording ends here.
    fn difference(&self) -> Option<LentDifference<'_>>
        ensures { (recorded : List ARecorded) (expected : List (List ℕ))
            → Compares self.now recorded expected
            → result ≡ difference recorded expected }
    {
        if let Some(settled) = &self.difference {
            return Some(settled.lent());
        }
        match self.ahead.front() {
            Some(frame) => Some(LentDifference {
                line: frame.line,
                sent: &frame.bytes,
                expected: None,
            }),
            None => None,
        }
    }

    /// The next frame that the recording lacks, where it differs nowhere.
    fn lack(&self) -> Option<&KeptBytes>
        ensures { (recorded : List ARecorded) (expected : List (List ℕ))
            → Compares self.now recorded expected
            → difference recorded expected ≡ None
            → option_copied result ≡ slice_get expected (length recorded) }
    {
        self.behind.front()
    }
}

/// What is kept of all testers' frames, to judge the unit's own frames in the capture. Nothing is written.
#[derive(Drop)]
pub struct Comparisons {
    /// How many lines the recording had.
    pub lines: u64,
    /// Of each tester, in order.
    pub testers: Vec<Comparison>,
    /// To which tester a frame of the unit's is.
    pub responses: ResponseIds,
}

impl Comparisons {
    /// Of no tester anything: what `verify` begins with.
    pub fn new(alloc: Global) -> Comparisons {
        Comparisons {
            lines: 0,
            testers: Vec::new(alloc),
            responses: ResponseIds {
                testers: Vec::new(alloc),
            },
        }
    }

    /// How many frames of a tester were recorded.
    pub fn recorded(&self, who: TesterId) -> u64
        ensures { (setup : RawSetup) (lines : List (List ℕ)) → ComparesLines setup self.now lines
            → who ≤ length setup.testers → result ≡ length (recorded setup lines who) }
    {
        let index = who.index();
        match self.testers.get(index) {
            Some(own) => own.count,
            None => 0,
        }
    }

    /// Takes a line that says this and draws these frames. It looks at the testers alone that these are for, and at the one
    /// that the line's frame is to where it is one of the unit's.
    #[inline(always)]
    fn take_line(
        &mut self,
        setup: &Setup,
        said: &BusLine,
        drawn: &LineFrames,
    ) -> Result<(), AllocError>
        requires in_setup { length self.old.testers.items ≡ length setup.now.testers }
        requires responses { AreResponsesOf setup.now self.old.responses }
        requires lists { length drawn.now.lists.items ≡ length setup.now.testers }
        requires filled { AreFilled drawn.now.filled (lists_of drawn.now) }
        ensures ok { OnOk result (TakesLine setup.now self.old self.new said.now (lists_of drawn.now)) }
        ensures shape { length self.new.testers.items ≡ length self.old.testers.items }
        ensures responses { self.new.responses ≡ self.old.responses }
    {
        let line = next(self.lines)?;
        self.lines = line;
        expect(&mut self.testers, drawn)?;
        match said {
            BusLine::Empty | BusLine::Ticks(_) => Ok(()),
            BusLine::Stamped { moment: _, frame } => match frame {
                Some(frame) => {
                    let responder = self.responses.responder(setup, frame.id());
                    record(&mut self.testers, responder, line, frame)
                }
                None => Ok(()),
            },
        }
    }

    /// The first difference in the order of the lines, and its tester.
    fn first_difference(&self, setup: &Setup) -> Option<(TesterId, LentDifference<'_>)>
        requires { length self.now.testers.items ≤ length setup.now.testers }
        ensures { (lines : List (List ℕ)) → ComparesLines setup.now self.now lines
            → result ≡ first_difference setup.now lines }
    {
        let mut first = None;
        for index in 0..self.testers.len() {
            let who = setup.who(index);
            first = earlier(first, who, self.testers[index].difference());
        }
        first
    }

    /// What is to be said where no line differs: the first tester of whom frames are missing, if there is one.
    fn first_lack(&self, setup: &Setup) -> Result<Verdict, AllocError>
        requires { length self.now.testers.items ≤ length setup.now.testers }
        ensures ok { IfOk result (IsLack setup.now self.now) }
        ensures err { OnErr result (Disagrees (IsLack setup.now self.now)) }
    {
        for index in 0..self.testers.len() {
            let who = setup.who(index);
            let own = &self.testers[index];
            if let Some(next) = own.lack() {
                return Ok(Verdict::Lacks {
                    who,
                    count: own.count,
                    next: next.try_copy()?,
                });
            }
        }
        Ok(Verdict::Agrees)
    }

    /// The verdict, where the recording ends here.
    ///
    /// # Errors
    /// `AllocError` where memory is refused for a frame of more than 8 bytes that the verdict names: it isn't that all agree.
    pub fn verdict(&self, setup: &Setup) -> Result<Verdict, AllocError>
        requires { length self.now.testers.items ≤ length setup.now.testers }
        ensures ok { IfOk result (IsVerdict setup.now self.now) }
        ensures err { OnErr result (Disagrees (IsVerdict setup.now self.now)) }
    {
        match self.first_difference(setup) {
            Some((who, difference)) => Ok(Verdict::Differs(who, difference.copy()?)),
            None => self.first_lack(setup),
        }
    }
}

impl Sink for Comparisons {
    ghost use Rattle.std.specs.Prelude.{◌≡◌, [], false, length};
    ghost use Rattle.diag_bus.specs.Comparing.{ComparesLines};
    ghost use Rattle.diag_bus.specs.ResponseIds.{AreResponsesOf};

    ghost is_for = { λ kept setup. (length kept.testers.items ≡ length setup.testers)
        × AreResponsesOf setup kept.responses };

    ghost took = { λ kept setup lines _. ComparesLines setup kept lines };

    ghost Aim = { Unit {0} };

    ghost aim = { λ _. tt };

    ghost written = { λ _ _ _. [] };

    ghost wants_ticks = { false };

    fn begin(&mut self, alloc: Global, setup: &Setup) -> Result<(), AllocError> {
        let testers = no_frames(alloc, setup.testers())?;
        let responses = ResponseIds::new(alloc, setup)?;
        *self = Comparisons {
            lines: 0,
            testers,
            responses,
        };
        Ok(())
    }

    fn write_header(&self, _: &mut Vec<u8>) -> Result<(), AllocError> {
        Ok(())
    }

    #[inline(always)]
    fn wants_ticks(&self) -> bool {
        false
    }

    #[inline(always)]
    fn enter_request(
        &mut self,
        _: &Ecu,
        _: u64,
        _: TesterId,
        _: &Request,
        _: Option<&Message>,
    ) -> Result<(), AllocError> {
        Ok(())
    }

    #[inline(always)]
    fn enter_ticks(
        &mut self,
        _: &Ecu,
        _: u64,
        _: TesterId,
        _: TickCount,
    ) -> Result<(), AllocError> {
        Ok(())
    }

    #[inline(always)]
    fn end_line(
        &mut self,
        setup: &Setup,
        said: &BusLine,
        _: u64,
        _: &Clock,
        drawn: &LineFrames,
        _: &mut Vec<u8>,
    ) -> Result<(), AllocError> {
        self.take_line(setup, said, drawn)
    }

    ghost skips_ticks = { λ _ _ _ _ _ _ _ took. took };
}

/// Of so many testers nothing was recorded, and nothing sent.
fn no_frames(alloc: Global, count: usize) -> Result<Vec<Comparison>, AllocError>
    ensures many { IfOk result (λ testers. length testers.items ≡ count) }
    ensures each { IfOk result (λ testers. (i : ℕ) (own : AComparison)
        → slice_get testers.items i ≡ Some own → Compares own [] []) }
{
    let mut testers = Vec::with_capacity(alloc, count)?;
    for made in 0..count {
        testers.push(Comparison::new(alloc))?;
    }
    Ok(testers)
}

/// Takes the frames that the server sends with a line, of the testers who are sent some.
#[inline(always)]
fn expect(testers: &mut Vec<Comparison>, drawn: &LineFrames) -> Result<(), AllocError>
    requires lists { length drawn.now.lists.items ≡ length testers.old.items }
    requires filled { AreFilled drawn.now.filled (lists_of drawn.now) }
    ensures ok { OnOk result (EachExpects (lists_of drawn.now) testers.old.items testers.new.items) }
    ensures shape { length testers.new.items ≡ length testers.old.items }
{
    match drawn.filled {
        Filled::Nowhere => Ok(()),
        Filled::At(index) => testers[index].expect_each(&drawn.lists[index]),
        Filled::Anywhere => expect_all(testers, drawn.lists.as_slice()),
    }
}

/// The same of all testers.
#[inline(never)]
fn expect_all(testers: &mut Vec<Comparison>, drawn: &[SentFrames]) -> Result<(), AllocError>
    requires { length drawn.now ≡ length testers.old.items }
    ensures ok { OnOk result (EachExpects (map (λ frames. frames.items) drawn.now) testers.old.items testers.new.items) }
    ensures shape { length testers.new.items ≡ length testers.old.items }
{
    for index in 0..testers.len() {
        testers[index].expect_each(&drawn[index])?;
    }
    Ok(())
}

/// Takes the frame of the line of that number: where this tester has its identifier as the response identifier, it is one of
/// the unit's, unless it says response pending.
#[inline(always)]
fn record(
    testers: &mut Vec<Comparison>,
    responder: Option<TesterId>,
    line: u64,
    frame: &FrameText,
) -> Result<(), AllocError>
    requires { IfSome responder (IsWithin (length testers.old.items)) }
    ensures ok { OnOk result ((setup : RawSetup) → IsResponder setup frame.now.id (length testers.old.items) responder
        → EachRecords setup line (Some frame.now) testers.old.items testers.new.items) }
    ensures shape { length testers.new.items ≡ length testers.old.items }
{
    let Some(who) = responder else {
        return Ok(());
    };
    testers[who.index()].record_frame(line, frame)
}

/// Keeps a frame that the server sends. (One of eight bytes, as most have, is written straight to where it is kept.)
#[inline(always)]
fn keep(behind: &mut VecDeque<KeptBytes>, bytes: &[u8]) -> Result<(), AllocError>
    requires { length bytes.now ≤ 64 }
    ensures { OnOk result (behind.new.items ≡ behind.old.items ++ bytes.now ∷ []) }
{
    let Some(eight) = bytes.as_array::<8>() else {
        return keep_other(behind, bytes);
    };
    behind.reserve(1)?;
    behind.push_back_reserved(KeptBytes::short(FrameBytes::full(*eight)));
    Ok(())
}

/// The same, however many bytes it has.
#[inline(never)]
fn keep_other(behind: &mut VecDeque<KeptBytes>, bytes: &[u8]) -> Result<(), AllocError>
    requires { length bytes.now ≤ 64 }
    ensures { OnOk result (behind.new.items ≡ behind.old.items ++ bytes.now ∷ []) }
{
    let kept = KeptBytes::of(*behind.allocator(), bytes)?;
    behind.push_back(kept)?;
    Ok(())
}

/// Whether a frame says response pending.
fn is_pending(bytes: &[u8]) -> bool
    ensures { result ≡ is_pending bytes.now }
{
    bytes.len() <= 8 && matches!(bytes, [0x03, 0x7F, _, 0x78, ..])
}

/// The number behind this one.
fn next(number: u64) -> Result<u64, AllocError>
    ensures { IfOk result (λ next. next ≡ number + 1) }
{
    number.checked_add(1).ok_or(AllocError)
}
