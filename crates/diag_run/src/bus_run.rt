//! A run of a whole bus's recording: the config and the capture in, what is due out, as it falls due.

ghost use Rattle.std.specs.Prelude.{◌≡◌, ◌≢◌, ◌⊎◌, ◌+◌, ◌<◌, ◌≤◌, ◌^◌, [], length, take, Err, IfOk, IfErr, IfSome, OnErr, OnOk};
ghost use Rattle.std.specs.Io.KnownBytes.{Consumes, IsAtEnd, Keeps};
ghost use Rattle.diag_bus.specs.Bus.{TookLines};
ghost use Rattle.diag_text.specs.Bytes.{Sends, Takes};
ghost use Rattle.diag_run.specs.Capture.{Followed, Stops};
ghost use Rattle.diag_run.specs.Capturing.{GoesOn, IsWritings, StopsWithin, fault_of, most_counted, FollowedFrom, StopsFrom};
ghost use Rattle.diag_run.specs.Devices.{TellsBusReads, TellsConfig, TellsWrites, fault_in};
ghost use Rattle.diag_run.specs.Run.{DoneOf, EndsOf};
ghost use Rattle.diag_run.specs.Wanted.{wanted};

use crate::capture::{Capture, CaptureFault};
use crate::ending::Ending;
use crate::file_run::Outcome;
use crate::files::read_config;
use diag_bus::Bus;
use diag_text::{RunFault, Source, Target};
use std::alloc::Global;

/// The most bytes of a read.
const PIECE: usize = 65_536;

/// The most lines before a read, so that those of the next piece can be counted.
const LINES_BEFORE_A_READ: u64 = u64::MAX - 65_537;

/// Reads a setup and then the recording of a whole bus, as it comes and to its end, and writes what is due as it falls
/// due and nothing else: before each further read, what the whole lines so far write was written and flushed. It answers
/// the status that the program ends with.
///
/// # Errors
/// The first fault in this order: the config, the capture in the order of its bytes, and last, where a verdict is wanted,
/// that the unit answered otherwise. After a fault of the config nothing was written, nor before the `Otherwise` of a verdict.
/// Before a fault of a line, and after a read that failed, what the lines before write was written; after `Memory` and `Write`
/// a front of it. `Read(0)` is the config, `Read(1)` the capture: each just where a read of it failed, the latter also behind
/// so many bytes that the lines of more can't be counted. `Write` just where a write or a flush failed.
pub fn run_bus<S: Ending, R: Source, W: Target>(
    alloc: Global,
    sink: S,
    config: &mut R,
    capture: &mut R,
    out: &mut W,
) -> Result<u8, RunFault>
    ensures done { IfOk result (Followed (wanted S.written S.ends S.aim sink) (R.remaining config.old) (R.remaining config.new)
        (R.remaining capture.old) (R.remaining capture.new)
        (W.contents out.old) (W.contents out.new)) }
    ensures fault { IfErr result (Stops R.remaining (wanted S.written S.ends S.aim sink) config.old config.new
        capture.old capture.new (W.contents out.old) (W.contents out.new)) }
    ensures tells_config { TellsConfig R.failed R.sound config.old config.new (fault_in result) }
    ensures tells_reads { TellsBusReads R.remaining R.failed R.sound capture.old capture.new (fault_in result) }
    ensures tells_writes { TellsWrites W.failed W.sound out.old out.new (fault_in result) }
    ensures flushed { IfOk result (λ _. W.flushed out.new) }
{
    let setup = read_config(alloc, config)?;
    let bus = Bus::new(alloc, setup, sink)?;
    match run_capture(alloc, bus, capture, out) {
        Ok(status) => Ok(status),
        Err(fault) => Err(run_fault(fault)),
    }
}

/// The fault of a capture as one of a run.
pub fn run_fault(fault: CaptureFault) -> RunFault
    ensures { result ≡ fault_of fault }
{
    match fault {
        CaptureFault::Line(n, fault) => RunFault::Capture(n, fault),
        CaptureFault::Memory => RunFault::Memory,
        CaptureFault::Read => RunFault::Read(1),
        CaptureFault::Write => RunFault::Write,
        CaptureFault::Otherwise(told) => RunFault::Otherwise(told),
    }
}

/// Runs a capture from its first read to its end, and answers the status of the run.
///
/// # Errors
/// As those of `run_bus` behind the config. `Read` only where a read failed, or behind so many lines that those of a next
/// piece can't be counted; and `Write` only where the writing failed.
fn run_capture<S: Ending, R: Source, W: Target>(
    alloc: Global,
    bus: Bus<S>,
    capture: &mut R,
    out: &mut W,
) -> Result<u8, CaptureFault>
    requires { TookLines S.took bus [] }
    ensures done { IfOk result (FollowedFrom (wanted S.written S.ends S.aim bus.sink) bus.setup
        (R.remaining capture.old) (R.remaining capture.new)
        (W.contents out.old) (W.contents out.new)) }
    ensures fault { IfErr result (StopsFrom (wanted S.written S.ends S.aim bus.sink) bus.setup
        (R.remaining capture.old) (R.remaining capture.new)
        (W.contents out.old) (W.contents out.new)) }
    ensures read { result ≡ Err CaptureFault.Read → R.failed capture.new
        ⊎ Takes (R.remaining capture.old) (R.remaining capture.new) (λ bytes. most_counted < length bytes) }
    ensures sound { result ≢ Err CaptureFault.Read → R.sound capture.old → R.sound capture.new }
    ensures write { result ≡ Err CaptureFault.Write → W.failed out.new }
    ensures unfailed { result ≢ Err CaptureFault.Write → W.sound out.old → W.sound out.new }
    ensures flushed { IfOk result (λ _. W.flushed out.new) }
{
    let mut buffer = [0u8; PIECE];
    let count = read_piece(capture, &mut buffer)?;
    let mut taking = Capture::begin(alloc, bus)?;
    taking.take_piece(&buffer[..count], out)?;
    if count == 0 {
        return taking.finish(alloc, out);
    }
    follow(&mut taking, capture, out)?;
    taking.finish(alloc, out)
}

/// Reads a capture further, to its end. Before each read what the whole lines so far write was written and flushed.
///
/// # Errors
/// Those of `take_piece`, and `Read` where a read failed, or where the lines of a next piece can't be counted.
fn follow<S: Ending, R: Source, W: Target>(
    taking: &mut Capture<S>,
    capture: &mut R,
    out: &mut W,
) -> Result<(), CaptureFault>
    requires written { taking.old.text.items ≡ [] }
    requires flushed { W.flushed out.old }
    ensures ok { OnOk result (Takes (R.remaining capture.old) (R.remaining capture.new) (λ bytes.
        Sends (W.contents out.old) (W.contents out.new) (GoesOn S.took (wanted S.written S.ends S.aim) taking.old taking.new bytes))) }
    ensures end { OnOk result (IsAtEnd (R.remaining capture.new)) }
    ensures lines { OnOk result (taking.new.lines + 1 < 2 ^ 64) }
    ensures err { IfErr result (λ fault.
        Takes (R.remaining capture.old) (R.remaining capture.new) (λ bytes.
        Sends (W.contents out.old) (W.contents out.new) (StopsWithin S.took (wanted S.written S.ends S.aim) taking.old fault bytes))) }
    ensures read { result ≡ Err CaptureFault.Read → R.failed capture.new
        ⊎ Takes (R.remaining capture.old) (R.remaining capture.new) (λ bytes. most_counted < taking.old.lines + length bytes) }
    ensures sound { result ≢ Err CaptureFault.Read → R.sound capture.old → R.sound capture.new }
    ensures write { result ≡ Err CaptureFault.Write → W.failed out.new }
    ensures unfailed { result ≢ Err CaptureFault.Write → W.sound out.old → W.sound out.new }
    ensures flushed { OnOk result (W.flushed out.new) }
{
    let mut buffer = [0u8; PIECE];
    for turn in 0..u64::MAX {
        if taking.lines() > LINES_BEFORE_A_READ {
            return Err(CaptureFault::Read);
        }
        let count = read_next(capture, &mut buffer, out)?;
        if count == 0 {
            return Ok(());
        }
        taking.take_piece(&buffer[..count], out)?;
    }
    Err(CaptureFault::Read)
}

/// Reads a next piece of the capture: no byte at its end. All that was written was flushed.
fn read_next<R: Source, W: Target>(
    capture: &mut R,
    buffer: &mut [u8],
    out: &W,
) -> Result<usize, CaptureFault>
    requires room { 0 < length buffer.old }
    requires flushed { W.flushed out.now }
    ensures read { IfOk result (λ count.
        Consumes (R.remaining capture.old) (R.remaining capture.new) (take count buffer.new)) }
    ensures within { IfOk result (λ count. count ≤ length buffer.new) }
    ensures end { IfOk result (λ count. count ≡ 0 → IsAtEnd (R.remaining capture.new)) }
    ensures err { IfErr result (λ fault. (fault ≡ CaptureFault.Read)
        × Keeps (R.remaining capture.old) (R.remaining capture.new)) }
    ensures failed { OnErr result (R.failed capture.new) }
    ensures sound { IfOk result (λ _. R.sound capture.old → R.sound capture.new) }
{
    // (for its contract: what was written was flushed)
    let _ = out;
    read_piece(capture, buffer)
}

/// Reads a piece of the capture: no byte at its end.
///
/// # Errors
/// `Read` where the read failed.
fn read_piece<R: Source>(capture: &mut R, buffer: &mut [u8]) -> Result<usize, CaptureFault>
    requires { 0 < length buffer.old }
    ensures read { IfOk result (λ count.
        Consumes (R.remaining capture.old) (R.remaining capture.new) (take count buffer.new)) }
    ensures within { IfOk result (λ count. count ≤ length buffer.new) }
    ensures end { IfOk result (λ count. count ≡ 0 → IsAtEnd (R.remaining capture.new)) }
    ensures err { IfErr result (λ fault. (fault ≡ CaptureFault.Read)
        × Keeps (R.remaining capture.old) (R.remaining capture.new)) }
    ensures failed { OnErr result (R.failed capture.new) }
    ensures sound { IfOk result (λ _. R.sound capture.old → R.sound capture.new) }
{
    match capture.read_some(buffer) {
        Ok(count) => Ok(count),
        Err(_) => Err(CaptureFault::Read),
    }
}

/// Runs, and says how it ended: with the whole text written and the status of its end, or with the line and the status of
/// the run's fault.
pub fn run_bus_and_tell<S: Ending, R: Source, W: Target>(
    alloc: Global,
    sink: S,
    config: &mut R,
    capture: &mut R,
    out: &mut W,
) -> Outcome
    ensures done { DoneOf (Followed (wanted S.written S.ends S.aim sink) (R.remaining config.old) (R.remaining config.new)
        (R.remaining capture.old) (R.remaining capture.new)
        (W.contents out.old) (W.contents out.new)) result }
    ensures fault { EndsOf (λ came. IfSome came (Stops R.remaining (wanted S.written S.ends S.aim sink) config.old config.new
        capture.old capture.new (W.contents out.old) (W.contents out.new))
        × TellsConfig R.failed R.sound config.old config.new came
        × TellsBusReads R.remaining R.failed R.sound capture.old capture.new came
        × TellsWrites W.failed W.sound out.old out.new came) result }
    ensures flushed { DoneOf (λ _. W.flushed out.new) result }
{
    match run_bus(alloc, sink, config, capture, out) {
        Ok(status) => Outcome::Done { status },
        Err(fault) => Outcome::of(alloc, &fault),
    }
}
