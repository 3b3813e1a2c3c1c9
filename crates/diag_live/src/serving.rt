//! What is kept of a live run between two calls of its bench.

ghost use Rattle.std.specs.Prelude.{◌≡◌, ◌≢◌, ◌⊎◌, ◌<◌, ◌↔◌, ℕ, ◌-◌, ◌+◌, ◌^◌, max, min, IsTrue, [], length, Err, IfOk, IfErr, OnOk};
ghost use Rattle.diag_bus.specs.Bus.{TookLines};
ghost use Rattle.diag_text.specs.Bytes.{Sends};
ghost use Rattle.diag_world.specs.Block.{some_in_block};
ghost use Rattle.diag_world.specs.Server.{quiet_of};
ghost use Rattle.diag_live.specs.Live.{capture_of, passed, record_text};
ghost use Rattle.diag_live.specs.Serving.{numbered};
ghost use Rattle.diag_run.specs.Wanted.{any_lines};

use crate::hearing::{HearFault, Hearing};
use crate::restamp::add_time;
use diag_bus::{Bus, BusFault, Replies};
use diag_run::{Capture, CaptureFault, run_fault};
use diag_text::{RunFault, Target, write_text};
use std::alloc::{AllocError, Global};

/// What is kept of a live run between two calls of its bench.
#[derive(Drop)]
pub(crate) struct Serving {
    hearing: Hearing,
    capture: Capture<Replies>,
    /// What the capture grows by.
    text: Vec<u8>,
    /// The moment up to which the time was passed.
    told: u64,
}

impl Serving {
    ghost use Rattle.diag_live.specs.Serving.{Delivered, ServingGoesOn, ServingHalts, ServingStands, Undelivered};
    ghost use Rattle.diag_live.specs.Pace.{last_feed};

    /// A run that begins at this moment.
    pub(crate) fn begin(alloc: Global, bus: Bus<Replies>, now: u64) -> Result<Serving, AllocError>
        requires { TookLines any_lines bus [] }
        ensures stands { IfOk result (λ serving. (s : ServingStands serving [] [] []) × (s.taken ≡ [])) }
        ensures told { IfOk result (λ serving. serving.told ≡ now) }
        ensures setup { IfOk result (λ serving. serving.capture.bus.setup ≡ bus.setup) }
        ensures lines { IfOk result (λ serving. serving.capture.lines ≡ 0) }
    {
        let capture = Capture::begin(alloc, bus)?;
        Ok(Serving {
            hearing: Hearing::new(alloc),
            capture,
            text: Vec::new(alloc),
            told: now,
        })
    }

    /// The moment at which something falls due or ends; 2^64 - 1 where nothing is waited for.
    pub(crate) fn due(&self) -> u64
        ensures { result
            ≡ min (self.now.told + quiet_of self.now.capture.bus.server.ports) (2 ^ 64 - 1) }
    {
        self.told.saturating_add(self.capture.quiet())
    }

    /// Whether a block is under way: to some tester a ConsecutiveFrame of a reply is still to go, behind its separation
    /// time.
    pub(crate) fn is_in_block(&self) -> bool
        ensures { result ≡ some_in_block self.now.capture.bus.server.ports }
    {
        self.capture.is_in_block()
    }

    /// Passes the time up to this moment, and takes a piece: the record has it, what it draws was written, and both were flushed.
    pub(crate) fn serve<W: Target, R: Target>(
        &mut self,
        now: u64,
        piece: &[u8],
        out: &mut W,
        recorder: &mut R,
    ) -> Result<(), RunFault>
        ensures ok { OnOk result (Sends (W.contents out.old) (W.contents out.new) (λ sent.
            Sends (R.contents recorder.old) (R.contents recorder.new) (λ noted.
            ServingGoesOn self.old self.new now piece.now sent noted))) }
        ensures err { IfErr result (λ fault. Sends (W.contents out.old) (W.contents out.new) (λ sent.
            Sends (R.contents recorder.old) (R.contents recorder.new) (λ noted.
            ServingHalts self.old fault piece.now sent noted))) }
        ensures write { result ≡ Err RunFault.Write → W.failed out.new ⊎ R.failed recorder.new }
        ensures unfailed { result ≢ Err RunFault.Write
            → (W.sound out.old → W.sound out.new) × (R.sound recorder.old → R.sound recorder.new) }
        ensures flushed { OnOk result (W.flushed out.new × R.flushed recorder.new) }
    {
        let heard = self.hearing.lines();
        let ticks = self.pass(now)?;
        let first = self.capture.lines().saturating_add(ticks);
        let known = self.capture.bus().known();
        match self.hearing.take_piece(known, piece, &mut self.text) {
            Ok(()) => self.deliver(heard, first, out, recorder),
            Err(HearFault::Line(number, fault)) => {
                if let Err(earlier) = self.deliver(heard, first, out, recorder) {
                    return Err(earlier);
                }
                Err(RunFault::Capture(number, BusFault::Line(fault)))
            }
            Err(HearFault::Memory) => Err(RunFault::Memory),
        }
    }

    /// Passes the time up to this moment, and takes a line that is begun as the last.
    pub(crate) fn end<W: Target, R: Target>(
        &mut self,
        now: u64,
        out: &mut W,
        recorder: &mut R,
    ) -> Result<(), RunFault>
        ensures ok { OnOk result (Sends (W.contents out.old) (W.contents out.new) (λ sent.
            Sends (R.contents recorder.old) (R.contents recorder.new) (λ noted.
            ServingGoesOn self.old self.new now (last_feed self.old.hearing.kept.items) sent noted))) }
        ensures err { IfErr result (λ fault. Sends (W.contents out.old) (W.contents out.new) (λ sent.
            Sends (R.contents recorder.old) (R.contents recorder.new) (λ noted.
            ServingHalts self.old fault (last_feed self.old.hearing.kept.items) sent noted))) }
        ensures write { result ≡ Err RunFault.Write → W.failed out.new ⊎ R.failed recorder.new }
        ensures unfailed { result ≢ Err RunFault.Write
            → (W.sound out.old → W.sound out.new) × (R.sound recorder.old → R.sound recorder.new) }
        ensures flushed { OnOk result (W.flushed out.new × R.flushed recorder.new) }
    {
        if self.hearing.is_begun() {
            self.serve(now, b"\n", out, recorder)
        } else {
            self.serve(now, &[], out, recorder)
        }
    }

    /// Begins what the capture grows by, with the time up to this moment; answers how many lines that are.
    fn pass(&mut self, now: u64) -> Result<u64, AllocError>
        ensures text { IfOk result (λ ticks.
            (self.new.text.items ≡ record_text (capture_of (passed (now - self.old.told))))
            × (ticks ≡ length (passed (now - self.old.told)))) }
        ensures told { IfOk result (λ _. self.new.told ≡ max self.old.told now) }
        ensures hearing { self.new.hearing ≡ self.old.hearing }
        ensures capture { self.new.capture ≡ self.old.capture }
    {
        self.text.clear();
        let ticks = add_time(&mut self.text, now.saturating_sub(self.told))?;
        self.told = self.told.max(now);
        Ok(ticks)
    }

    /// Writes what the capture grows by to the record, and takes it. So many lines had been heard, when so many stood in
    /// the capture before those that were heard now.
    fn deliver<W: Target, R: Target>(
        &mut self,
        heard: u64,
        first: u64,
        out: &mut W,
        recorder: &mut R,
    ) -> Result<(), RunFault>
        ensures ok { OnOk result (Sends (W.contents out.old) (W.contents out.new) (λ sent.
            Sends (R.contents recorder.old) (R.contents recorder.new) (λ noted.
            Delivered self.old.capture self.new.capture self.old.text.items sent noted))) }
        ensures err { IfErr result (λ fault. Sends (W.contents out.old) (W.contents out.new) (λ sent.
            Sends (R.contents recorder.old) (R.contents recorder.new) (λ noted.
            Undelivered self.old.capture heard first self.old.text.items sent noted fault))) }
        ensures write { result ≡ Err RunFault.Write → W.failed out.new ⊎ R.failed recorder.new }
        ensures unfailed { result ≢ Err RunFault.Write
            → (W.sound out.old → W.sound out.new) × (R.sound recorder.old → R.sound recorder.new) }
        ensures flushed { OnOk result (W.flushed out.new × R.flushed recorder.new) }
        ensures hearing { self.new.hearing ≡ self.old.hearing }
        ensures told { self.new.told ≡ self.old.told }
    {
        if !is_countable(self.capture.lines(), self.text.len()) {
            return Err(RunFault::Memory);
        }
        if write_text(recorder, self.text.as_slice()).is_err() {
            return Err(RunFault::Write);
        }
        match self.capture.take_piece(self.text.as_slice(), out) {
            Ok(()) => Ok(()),
            Err(fault) => Err(numbered(heard, first, fault)),
        }
    }
}

/// Whether the lines of a piece of so many bytes can be counted behind so many.
fn is_countable(lines: u64, bytes: usize) -> bool
    ensures { IsTrue result ↔ lines + bytes + 1 < 2 ^ 64 }
{
    match lines.checked_add(bytes as u64) {
        Some(sum) => sum < u64::MAX,
        None => false,
    }
}

/// The fault of the capture as one of the input, of which so many lines had been heard when so many stood in the capture
/// before those that are heard now.
fn numbered(heard: u64, first: u64, fault: CaptureFault) -> RunFault
    ensures { result ≡ numbered heard first fault }
{
    match fault {
        CaptureFault::Line(number, fault) => {
            let behind = number.saturating_sub(first).max(1);
            RunFault::Capture(heard.saturating_add(behind), fault)
        }
        fault => run_fault(fault),
    }
}
