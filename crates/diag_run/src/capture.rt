//! A capture that comes piece by piece: its lines go to the bus, and what they write goes out.

ghost use Rattle.std.specs.Prelude.{◌≡◌, ◌≢◌, ◌⊎◌, ◌+◌, ◌<◌, ◌≤◌, ◌^◌, ◌∷◌, [], ◌++◌, ℕ, List, length, vec_len, Ok, Err, IsOk, IfOk, IfSome, IfErr, OnErr, OnOk};
ghost use Rattle.std.specs.Io.KnownBytes.{Appends};
ghost use Rattle.diag_can.specs.BusLine.{HasNoFeed, ended_lines};
ghost use Rattle.diag_bus.specs.Bus.{AnswersLine, TookLines};
ghost use Rattle.diag_bus.specs.Events.{line_said};
ghost use Rattle.diag_text.specs.Bytes.{AppendsFront, Sends};
ghost use Rattle.diag_world.specs.Block.{some_in_block};
ghost use Rattle.diag_world.specs.Server.{quiet_of};
ghost use Rattle.diag_run.specs.Faults.{fault_at};
ghost use Rattle.diag_run.specs.Capture.{IsFrontOf};
ghost use Rattle.diag_run.specs.Wanted.{IsEndFault, end_with, wanted};
ghost use Rattle.diag_port.specs.Port.{Grew};

use crate::ending::Ending;
use diag_bus::{Bus, BusFault, Sink};
use diag_can::{BusLine, LONGEST_LINE, LineFault, first_line};
use diag_text::{Target, write_text};
use std::alloc::{AllocError, Global};

/// The most bytes of text that wait for the end of a piece.
const TEXT_LIMIT: usize = 65_536;

/// Why a capture could not be followed to its end.
#[derive(Debug, PartialEq, Eq, Drop)]
pub enum CaptureFault {
    /// The line of that number, from 1, is the first at fault.
    Line(u64, BusFault),
    /// Memory was refused.
    Memory,
    /// The capture could not be read.
    Read,
    /// The text could not be written.
    Write,
    /// The unit in the recording answered otherwise than the server: what is told of the first difference, where there
    /// was memory for it.
    Otherwise(Option<Vec<u8>>),
}

impl From<AllocError> for CaptureFault {
    ghost use Rattle.diag_run.specs.declared.capture.CaptureFault.TheVariants as fault;

    ghost from_gives = { λ _ f. f ≡ fault.Memory };

    fn from(_refused: AllocError) -> CaptureFault {
        CaptureFault::Memory
    }
}

/// What is kept of a capture between two reads.
#[derive(Drop)]
pub struct Capture<S: Sink> {
    bus: Bus<S>,
    /// The line that is begun at the end of what was read.
    kept: Vec<u8>,
    /// What is still to be written.
    text: Vec<u8>,
    /// How many lines the bus took.
    lines: u64,
    ghost short: { vec_len kept ≤ 4096 },
}

impl<S: Ending> Capture<S> {
    ghost use Rattle.diag_run.specs.Capturing.{Closes, ClosesEnded, GoesOn, HaltsAtEnd, HaltsEnded, HaltsIn, IsTold, IsWritings, SeesFault, Stands};

    /// A capture of which nothing was read. What stands before its first line is still to be written.
    ///
    /// # Errors
    /// Memory was refused; the bus is let go.
    pub fn begin(alloc: Global, bus: Bus<S>) -> Result<Capture<S>, AllocError>
        requires { TookLines S.took bus [] }
        ensures stands { IfOk result (λ capture. Stands S.took (wanted S.written S.ends S.aim) capture [] []) }
        ensures bus { IfOk result (λ capture. capture.bus ≡ bus) }
        ensures lines { IfOk result (λ capture. capture.lines ≡ 0) }
    {
        let mut text = Vec::new(alloc);
        bus.begin(&mut text)?;
        Ok(Capture {
            bus,
            kept: Vec::new(alloc),
            text,
            lines: 0,
        })
    }

    /// How many lines were taken.
    pub fn lines(&self) -> u64
        ensures { result ≡ self.now.lines }
    {
        self.lines
    }

    /// For how many milliseconds of ticks nothing falls due and nothing ends before the last of them.
    pub fn quiet(&self) -> u64
        ensures is { result ≡ quiet_of self.now.bus.server.ports }
        ensures some { 1 ≤ result }
    {
        self.bus.quiet()
    }

    /// Whether to some tester a ConsecutiveFrame of a reply is still to go, behind its separation time.
    pub fn is_in_block(&self) -> bool
        ensures { result ≡ some_in_block self.now.bus.server.ports }
    {
        self.bus.is_in_block()
    }

    /// Takes a piece of the capture. On Ok what the whole lines so far write was written and flushed.
    ///
    /// # Errors
    /// `Line` with the first line at fault, behind what the lines before it write; `Memory`, and `Write`, behind a front
    /// of what the lines so far write. Whatever follows the piece, that is the fault. Nothing is told of the capture then.
    pub fn take_piece<W: Target>(&mut self, piece: &[u8], out: &mut W) -> Result<(), CaptureFault>
        requires { self.old.lines + length piece.now + 1 < 2 ^ 64 }
        ensures ok { OnOk result (Sends (W.contents out.old) (W.contents out.new)
            (GoesOn S.took (wanted S.written S.ends S.aim) self.old self.new piece.now)) }
        ensures written { OnOk result (self.new.text.items ≡ []) }
        ensures lines { OnOk result (self.new.lines ≤ self.old.lines + length piece.now) }
        ensures err { IfErr result (λ fault. Sends (W.contents out.old) (W.contents out.new)
            (HaltsIn S.took (wanted S.written S.ends S.aim) self.old fault piece.now)) }
        ensures device { IsWritings W.failed W.sound out.old out.new result }
        ensures flushed { OnOk result (W.flushed out.new) }
    {
        if self.kept.is_empty() {
            return self.take_lines(piece, out);
        }
        match first_line(self.bus.known(), piece) {
            Some(first) => {
                self.take_line(first.line, None, out)?;
                self.take_lines(first.after, out)
            }
            None => self.take_begun(piece, out),
        }
    }

    /// Takes a piece before which nothing is kept. (So no line of it is asked whether something is.)
    ///
    /// # Errors
    /// As `take_piece`.
    fn take_lines<W: Target>(&mut self, piece: &[u8], out: &mut W) -> Result<(), CaptureFault>
        requires room { self.old.lines + length piece.now + 1 < 2 ^ 64 }
        requires none { self.old.kept.items ≡ [] }
        ensures ok { OnOk result (Sends (W.contents out.old) (W.contents out.new)
            (GoesOn S.took (wanted S.written S.ends S.aim) self.old self.new piece.now)) }
        ensures written { OnOk result (self.new.text.items ≡ []) }
        ensures lines { OnOk result (self.new.lines ≤ self.old.lines + length piece.now) }
        ensures err { IfErr result (λ fault. Sends (W.contents out.old) (W.contents out.new)
            (HaltsIn S.took (wanted S.written S.ends S.aim) self.old fault piece.now)) }
        ensures device { IsWritings W.failed W.sound out.old out.new result }
        ensures flushed { OnOk result (W.flushed out.new) }
    {
        let mut rest = piece;
        while let Some(first) = first_line(self.bus.known(), rest) {
            if let Err(fault) = self.take_line(first.line, first.said, out) {
                return Err(fault);
            }
            rest = first.after;
        }
        self.take_begun(rest, out)
    }

    /// Takes the line that these bytes and an LF end. Where nothing is kept of it, what they say may be told. What is to be
    /// written is written where it is much.
    #[inline(always)]
    fn take_line<W: Target>(
        &mut self,
        bytes: &[u8],
        said: Option<BusLine>,
        out: &mut W,
    ) -> Result<(), CaptureFault>
        requires room { self.old.lines + 1 < 2 ^ 64 }
        requires line { HasNoFeed bytes.now }
        requires none { IfSome said (λ _. self.old.kept.items ≡ []) }
        requires says { IfSome said (λ said. line_said self.old.bus.setup bytes.now ≡ Ok said) }
        ensures ok { OnOk result (Sends (W.contents out.old) (W.contents out.new)
            (GoesOn S.took (wanted S.written S.ends S.aim) self.old self.new (bytes.now ++ 10 ∷ []))) }
        ensures lines { OnOk result (self.new.lines ≡ self.old.lines + 1) }
        ensures kept { OnOk result (self.new.kept.items ≡ []) }
        ensures err { IfErr result (λ fault. Sends (W.contents out.old) (W.contents out.new)
            (HaltsIn S.took (wanted S.written S.ends S.aim) self.old fault (bytes.now ++ 10 ∷ []))) }
        ensures seen { SeesFault S.took self.old bytes.now (IsTold (self.old.lines + 1) result) }
        ensures device { IsWritings W.failed W.sound out.old out.new result }
    {
        let number = self.lines + 1;
        if let Err(fault) = self.end_line(bytes, said) {
            return Err(stop(fault_at(number, fault), &mut self.text, out));
        }
        if self.text.len() > TEXT_LIMIT {
            return write_out(&mut self.text, out);
        }
        Ok(())
    }

    /// Keeps the bytes behind the last LF of a piece, and writes what is to be written.
    fn take_begun<W: Target>(&mut self, bytes: &[u8], out: &mut W) -> Result<(), CaptureFault>
        requires room { self.old.lines + 1 < 2 ^ 64 }
        requires line { HasNoFeed bytes.now }
        ensures ok { OnOk result (Sends (W.contents out.old) (W.contents out.new)
            (GoesOn S.took (wanted S.written S.ends S.aim) self.old self.new bytes.now)) }
        ensures written { OnOk result (self.new.text.items ≡ []) }
        ensures lines { OnOk result (self.new.lines ≡ self.old.lines) }
        ensures err { IfErr result (λ fault. Sends (W.contents out.old) (W.contents out.new)
            (HaltsIn S.took (wanted S.written S.ends S.aim) self.old fault bytes.now)) }
        ensures long { 4096 < length self.old.kept.items + length bytes.now
            → IsTold (self.old.lines + 1) result (BusFault.Line LineFault.BadLine) }
        ensures device { IsWritings W.failed W.sound out.old out.new result }
        ensures flushed { OnOk result (W.flushed out.new) }
    {
        let number = self.lines + 1;
        if let Err(fault) = keep(&mut self.kept, bytes) {
            return Err(stop(fault_at(number, fault), &mut self.text, out));
        }
        write_out(&mut self.text, out)
    }

    /// Gives the bus the line that these bytes and an LF end, behind what is kept of it. (What it says decides at once, so
    /// that the lines of each front go on by themselves.)
    #[inline(always)]
    fn end_line(&mut self, bytes: &[u8], said: Option<BusLine>) -> Result<(), BusFault>
        requires room { self.old.lines + 1 < 2 ^ 64 }
        requires line { HasNoFeed bytes.now }
        requires none { IfSome said (λ _. self.old.kept.items ≡ []) }
        requires says { IfSome said (λ said. line_said self.old.bus.setup bytes.now ≡ Ok said) }
        ensures ok { OnOk result (GoesOn S.took (wanted S.written S.ends S.aim) self.old self.new (bytes.now ++ 10 ∷ []) []) }
        ensures lines { OnOk result (self.new.lines ≡ self.old.lines + 1) }
        ensures kept { OnOk result (self.new.kept.items ≡ []) }
        ensures err { IfErr result (λ fault.
            HaltsIn S.took (wanted S.written S.ends S.aim) self.old (fault_at (self.old.lines + 1) fault) (bytes.now ++ 10 ∷ []) self.new.text.items) }
        ensures seen { SeesFault S.took self.old bytes.now (λ fault. result ≡ Err fault) }
    {
        match said {
            Some(said) => self.take_told(bytes, said),
            None => self.take_other(bytes),
        }
    }

    /// Gives the bus a line of which nothing is kept, and which says this.
    #[inline(always)]
    fn take_told(&mut self, line: &[u8], said: BusLine) -> Result<(), BusFault>
        requires room { self.old.lines + 1 < 2 ^ 64 }
        requires line { HasNoFeed line.now }
        requires says { line_said self.old.bus.setup line.now ≡ Ok said }
        requires none { self.old.kept.items ≡ [] }
        ensures ok { OnOk result (GoesOn S.took (wanted S.written S.ends S.aim) self.old self.new (line.now ++ 10 ∷ []) []) }
        ensures lines { OnOk result (self.new.lines ≡ self.old.lines + 1) }
        ensures kept { OnOk result (self.new.kept.items ≡ []) }
        ensures err { IfErr result (λ fault.
            HaltsIn S.took (wanted S.written S.ends S.aim) self.old (fault_at (self.old.lines + 1) fault) (line.now ++ 10 ∷ []) self.new.text.items) }
        ensures seen { SeesFault S.took self.old line.now (λ fault. result ≡ Err fault) }
    {
        if let Err(fault) = give(&mut self.bus, line, said, &mut self.text) {
            return Err(fault);
        }
        self.lines += 1;
        Ok(())
    }

    /// Gives the bus the line that these bytes end, behind what is kept of it, whatever it says.
    #[inline(never)]
    fn take_other(&mut self, bytes: &[u8]) -> Result<(), BusFault>
        requires room { self.old.lines + 1 < 2 ^ 64 }
        requires line { HasNoFeed bytes.now }
        ensures ok { OnOk result (GoesOn S.took (wanted S.written S.ends S.aim) self.old self.new (bytes.now ++ 10 ∷ []) []) }
        ensures lines { OnOk result (self.new.lines ≡ self.old.lines + 1) }
        ensures kept { OnOk result (self.new.kept.items ≡ []) }
        ensures err { IfErr result (λ fault.
            HaltsIn S.took (wanted S.written S.ends S.aim) self.old (fault_at (self.old.lines + 1) fault) (bytes.now ++ 10 ∷ []) self.new.text.items) }
        ensures seen { SeesFault S.took self.old bytes.now (λ fault. result ≡ Err fault) }
    {
        if self.kept.is_empty() {
            self.take_untold(bytes)
        } else {
            self.take_kept(bytes)
        }
    }

    /// Gives the bus a line of which nothing is kept.
    fn take_untold(&mut self, bytes: &[u8]) -> Result<(), BusFault>
        requires room { self.old.lines + 1 < 2 ^ 64 }
        requires line { HasNoFeed bytes.now }
        requires none { self.old.kept.items ≡ [] }
        ensures ok { OnOk result (GoesOn S.took (wanted S.written S.ends S.aim) self.old self.new (bytes.now ++ 10 ∷ []) []) }
        ensures lines { OnOk result (self.new.lines ≡ self.old.lines + 1) }
        ensures kept { OnOk result (self.new.kept.items ≡ []) }
        ensures err { IfErr result (λ fault.
            HaltsIn S.took (wanted S.written S.ends S.aim) self.old (fault_at (self.old.lines + 1) fault) (bytes.now ++ 10 ∷ []) self.new.text.items) }
        ensures seen { SeesFault S.took self.old bytes.now (λ fault. result ≡ Err fault) }
    {
        self.bus.take_line(bytes, &mut self.text)?;
        self.lines += 1;
        Ok(())
    }

    /// Gives the bus the line that is kept and that these bytes end.
    fn take_kept(&mut self, bytes: &[u8]) -> Result<(), BusFault>
        requires begun { 0 < length self.old.kept.items }
        requires room { self.old.lines + 1 < 2 ^ 64 }
        requires line { HasNoFeed bytes.now }
        ensures ok { OnOk result (GoesOn S.took (wanted S.written S.ends S.aim) self.old self.new (bytes.now ++ 10 ∷ []) []) }
        ensures lines { OnOk result (self.new.lines ≡ self.old.lines + 1) }
        ensures kept { OnOk result (self.new.kept.items ≡ []) }
        ensures err { IfErr result (λ fault.
            HaltsIn S.took (wanted S.written S.ends S.aim) self.old (fault_at (self.old.lines + 1) fault) (bytes.now ++ 10 ∷ []) self.new.text.items) }
        ensures seen { SeesFault S.took self.old bytes.now (λ fault. result ≡ Err fault) }
    {
        keep(&mut self.kept, bytes)?;
        self.bus.take_line(self.kept.as_slice(), &mut self.text)?;
        self.kept.clear();
        self.lines += 1;
        Ok(())
    }

    /// Takes a line that is begun as the last, and writes what is to be written and what the capture's end adds; answers the
    /// status of the run. The bus can be asked behind it.
    ///
    /// # Errors
    /// Those of `take_piece`, `Line` with the line that is begun; and `Otherwise` with what is told in place of what the end adds,
    /// behind what the lines write.
    pub fn finish<W: Target>(&mut self, alloc: Global, out: &mut W) -> Result<u8, CaptureFault>
        requires { self.old.lines + 1 < 2 ^ 64 }
        ensures ok { IfOk result (λ status. Sends (W.contents out.old) (W.contents out.new)
            (Closes S.took (wanted S.written S.ends S.aim) self.old self.new status)) }
        ensures err { IfErr result (λ fault. Sends (W.contents out.old) (W.contents out.new)
            (HaltsAtEnd S.took (wanted S.written S.ends S.aim) self.old fault)) }
        ensures device { IsWritings W.failed W.sound out.old out.new result }
        ensures flushed { IfOk result (λ _. W.flushed out.new) }
    {
        if self.kept.is_empty() {
            return self.close(alloc, out);
        }
        self.take_line(&[], None, out)?;
        self.close(alloc, out)
    }

    /// Writes what is to be written and what the capture's end adds; answers the status of the run.
    fn close<W: Target>(&mut self, alloc: Global, out: &mut W) -> Result<u8, CaptureFault>
        ensures ok { IfOk result (λ status. Sends (W.contents out.old) (W.contents out.new)
            (ClosesEnded S.took (wanted S.written S.ends S.aim) self.old self.new status)) }
        ensures err { IfErr result (λ fault. Sends (W.contents out.old) (W.contents out.new)
            (HaltsEnded S.took (wanted S.written S.ends S.aim) self.old fault)) }
        ensures device { IsWritings W.failed W.sound out.old out.new result }
        ensures flushed { IfOk result (λ _. W.flushed out.new) }
    {
        match add_end(alloc, &self.bus, &mut self.text) {
            Ok(status) => {
                write_out(&mut self.text, out)?;
                Ok(status)
            }
            Err(fault) => Err(stop(fault, &mut self.text, out)),
        }
    }

    /// What was taken.
    pub fn bus(&self) -> &Bus<S>
        ensures { result.now ≡ self.now.bus }
    {
        &self.bus
    }
}

/// Adds what the end of the bus's capture adds, and answers the status of the run.
fn add_end<S: Ending>(alloc: Global, bus: &Bus<S>, text: &mut Vec<u8>) -> Result<u8, CaptureFault>
    ensures ok { IfOk result (λ status. Grew text.old.items text.new.items (λ more.
        (lines : List (List ℕ)) → TookLines S.took bus.now lines
        → S.ends bus.now.sink bus.now.setup lines ≡ Ok (end_with more status))) }
    ensures err { IfErr result (IsEndFault
        (λ result. (lines : List (List ℕ)) → TookLines S.took bus.now lines
        → S.ends bus.now.sink bus.now.setup lines ≡ result)
        ((lines : List (List ℕ)) → TookLines S.took bus.now lines → IsOk (S.ends bus.now.sink bus.now.setup lines))) }
    ensures kept { OnErr result (text.new.items ≡ text.old.items) }
{
    bus.sink().add_end(alloc, bus.setup(), bus.ecu(), text)
}

/// Gives the bus a line, which says this.
#[inline(always)]
fn give<S: Sink>(
    bus: &mut Bus<S>,
    line: &[u8],
    said: BusLine,
    text: &mut Vec<u8>,
) -> Result<(), BusFault>
    requires { line_said bus.old.setup line.now ≡ Ok said }
    ensures { AnswersLine S.took S.aim S.written bus.old bus.new line.now text.old.items text.new.items result }
{
    // (for its contract: it is the line that says this)
    let _ = line;
    bus.take(&said, text)
}

/// Adds bytes to the line that is kept.
///
/// # Errors
/// `Line` exactly where it is longer than a line may be, which is looked at first; `Memory`, where there are bytes.
fn keep(kept: &mut Vec<u8>, bytes: &[u8]) -> Result<(), BusFault>
    requires { vec_len kept.old ≤ 4096 }
    ensures ok { OnOk result (kept.new.items ≡ kept.old.items ++ bytes.now) }
    ensures short { vec_len kept.new ≤ 4096 }
    ensures err { IfErr result (λ fault. (fault ≡ BusFault.Memory)
        ⊎ ((fault ≡ BusFault.Line LineFault.BadLine)
        × (4096 < length kept.old.items + length bytes.now))) }
    ensures long { 4096 < length kept.old.items + length bytes.now → result ≡ Err (BusFault.Line LineFault.BadLine) }
    ensures some { OnErr result (0 < length bytes.now) }
{
    if bytes.is_empty() {
        return Ok(());
    }
    if bytes.len() > LONGEST_LINE - kept.len() {
        return Err(BusFault::Line(LineFault::BadLine));
    }
    kept.extend_from_slice(bytes)?;
    Ok(())
}

/// What is told of a fault at the line of this number.
fn fault_at(number: u64, fault: BusFault) -> CaptureFault
    ensures { result ≡ fault_at number fault }
{
    match fault {
        BusFault::Memory => CaptureFault::Memory,
        BusFault::Line(_) | BusFault::Late => CaptureFault::Line(number, fault),
    }
}

/// Writes what is to be written, and flushes.
fn write_out<W: Target>(text: &mut Vec<u8>, out: &mut W) -> Result<(), CaptureFault>
    ensures ok { OnOk result (Appends (W.contents out.old) (W.contents out.new) text.old.items) }
    ensures none { OnOk result (text.new.items ≡ []) }
    ensures err { IfErr result (λ fault. (fault ≡ CaptureFault.Write)
        × AppendsFront (W.contents out.old) (W.contents out.new) text.old.items) }
    ensures flushed { OnOk result (W.flushed out.new) }
    ensures failed { OnErr result (W.failed out.new) }
    ensures sound { OnOk result (W.sound out.old → W.sound out.new) }
{
    if write_text(out, text.as_slice()).is_err() {
        return Err(CaptureFault::Write);
    }
    text.clear();
    Ok(())
}

/// Writes what is to be written before a fault is answered; the fault of the writing goes before it.
fn stop<W: Target>(fault: CaptureFault, text: &mut Vec<u8>, out: &mut W) -> CaptureFault
    ensures sent { Sends (W.contents out.old) (W.contents out.new) (λ sent.
        ((result ≡ fault) × (sent ≡ text.old.items))
        ⊎ ((result ≡ CaptureFault.Write) × IsFrontOf sent text.old.items)) }
    ensures failed { result ≡ CaptureFault.Write → fault ≢ CaptureFault.Write → W.failed out.new }
    ensures sound { result ≢ CaptureFault.Write → W.sound out.old → W.sound out.new }
{
    match write_out(text, out) {
        Ok(()) => fault,
        Err(fault) => fault,
    }
}
