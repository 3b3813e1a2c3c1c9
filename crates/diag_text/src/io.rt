//! Reading a whole file and writing a whole text, by loops of their own.

ghost use Rattle.std.specs.Prelude.{◌≡◌, ◌≢◌, ◌+◌, ◌++◌, ◌<◌, ◌^◌, ◌≤◌, ℕ, List, length, map, IfOk, IfSome, OnOk, OnErr, IsOk, IsErr, Err, Some};
ghost use Rattle.std.specs.Io.KnownBytes.{Appends, Consumes, IsAtEnd};
ghost use Rattle.std.specs.List.{concat};
ghost use Rattle.diag_text.specs.Bytes.{AppendsFront, Takes};
ghost use Rattle.diag_text.specs.Devices.{read_fault_text, write_fault_text};

use crate::source::Source;
use crate::taking::TakePieces;
use crate::target::Target;
use std::alloc::Global;
use std::error::Error;
use std::{fmt, io};

/// Why a file was not read whole.
#[derive(Clone, Copy, Debug, PartialEq, Eq)]
pub enum ReadFault {
    /// A read failed.
    Device,
    /// The file is longer than its limit.
    Long,
    /// There was no memory.
    Memory,
}

impl fmt::Display for ReadFault {
    ghost output = { λ fault. Some (read_fault_text fault) };

    fn fmt<W: fmt::Write>(&self, f: &mut fmt::Formatter<W>) -> fmt::Result {
        match self {
            ReadFault::Device => write!(f, "cannot read"),
            ReadFault::Long => write!(f, "too long"),
            ReadFault::Memory => write!(f, "memory"),
        }
    }
}

impl Error for ReadFault {}

/// A write or a flush failed, or a write took no byte.
#[derive(Clone, Copy, Debug, PartialEq, Eq)]
pub struct WriteFault;

impl fmt::Display for WriteFault {
    ghost output = { λ _. Some write_fault_text };

    fn fmt<W: fmt::Write>(&self, f: &mut fmt::Formatter<W>) -> fmt::Result {
        write!(f, "cannot write")
    }
}

impl Error for WriteFault {}

/// Has a taker take all that a reader has left, in at most limit + 1 reads.
///
/// # Errors
/// `Long` where more than the limit was read, and only then; `Device` where a read failed before, and only then;
/// `Memory` where the taker was refused memory.
pub fn read_into<R: Source, P: TakePieces>(
    reader: &mut R,
    taker: &mut P,
    limit: usize,
) -> Result<(), ReadFault>
    requires limit { limit < 2 ^ 32 }
    requires taken { (seen : List ℕ) × P.took taker.old seen }
    ensures read { OnOk result (Takes (R.remaining reader.old) (R.remaining reader.new) (λ bytes.
        (length bytes ≤ limit)
        × ((seen : List ℕ) → P.took taker.old seen → P.took taker.new (seen ++ bytes)))) }
    ensures end { OnOk result (IsAtEnd (R.remaining reader.new)) }
    ensures aim { OnOk result (P.aim taker.new ≡ P.aim taker.old) }
    ensures seen { result ≡ Err ReadFault.Long
        → Takes (R.remaining reader.old) (R.remaining reader.new) (λ bytes. limit < length bytes) }
    ensures unread { result ≡ Err ReadFault.Device
        → Takes (R.remaining reader.old) (R.remaining reader.new) (λ bytes. length bytes ≤ limit) }
    ensures refused { result ≡ Err ReadFault.Memory
        → Takes (R.remaining reader.old) (R.remaining reader.new) (λ bytes. length bytes ≤ limit) }
    ensures failed { result ≡ Err ReadFault.Device → R.failed reader.new }
    ensures sound { result ≢ Err ReadFault.Device → R.sound reader.old → R.sound reader.new }
    ensures memory { result ≡ Err ReadFault.Memory → P.refused taker.new }
{
    let mut buffer = [0u8; 65_536];
    let mut taken = 0;
    for turn in 0..limit + 1 {
        let Ok(count) = reader.read_some(&mut buffer) else {
            return Err(ReadFault::Device);
        };
        if count == 0 {
            return Ok(());
        }
        if count > limit - taken {
            return Err(ReadFault::Long);
        }
        match taker.take_piece(&buffer[..count]) {
            Ok(()) => taken += count,
            Err(_) => return Err(ReadFault::Memory),
        }
    }
    Err(ReadFault::Long)
}

/// All that a reader has left, in at most limit + 1 reads.
///
/// # Errors
/// `Long` where more than the limit was read, and only then; `Device` where a read failed before, and only then;
/// `Memory`.
pub fn read_whole<R: Source>(
    alloc: Global,
    reader: &mut R,
    limit: usize,
) -> Result<Vec<u8>, ReadFault>
    requires { limit < 2 ^ 32 }
    ensures whole { IfOk result (λ v. IfSome (R.remaining reader.old) (λ bytes. v.items ≡ bytes)) }
    ensures within { IfOk result (λ v. length v.items ≤ limit) }
    ensures end { OnOk result (IsAtEnd (R.remaining reader.new)) }
    ensures long { result ≡ Err ReadFault.Long
        → IfSome (R.remaining reader.old) (λ bytes. limit < length bytes) }
    ensures read { IfOk result (λ v.
        Consumes (R.remaining reader.old) (R.remaining reader.new) v.items) }
    ensures seen { result ≡ Err ReadFault.Long
        → Takes (R.remaining reader.old) (R.remaining reader.new) (λ bytes. limit < length bytes) }
    ensures unread { result ≡ Err ReadFault.Device
        → Takes (R.remaining reader.old) (R.remaining reader.new) (λ bytes. length bytes ≤ limit) }
    ensures refused { result ≡ Err ReadFault.Memory
        → Takes (R.remaining reader.old) (R.remaining reader.new) (λ bytes. length bytes ≤ limit) }
    ensures failed { result ≡ Err ReadFault.Device → R.failed reader.new }
    ensures sound { result ≢ Err ReadFault.Device → R.sound reader.old → R.sound reader.new }
{
    let mut bytes = Vec::new(alloc);
    read_into(reader, &mut bytes, limit)?;
    Ok(bytes)
}

/// Writes the parts of a text, one behind the other, and flushes. After a fault a front of the text went out.
///
/// # Errors
/// A write or the flush failed, or a write took no byte.
pub fn write_whole<W: Target>(out: &mut W, parts: &[Vec<u8>]) -> Result<(), WriteFault>
    ensures whole { OnOk result (Appends (W.contents out.old) (W.contents out.new)
        (concat (map (λ part. part.items) parts.now))) }
    ensures front { OnErr result (AppendsFront (W.contents out.old) (W.contents out.new)
        (concat (map (λ part. part.items) parts.now))) }
    ensures flushed { OnOk result (W.flushed out.new) }
    ensures failed { OnErr result (W.failed out.new) }
    ensures sound { OnOk result (W.sound out.old → W.sound out.new) }
{
    for part in parts {
        write_part(out, part.as_slice())?;
    }
    flushed(out.flush_all())
}

/// Writes a text and flushes. After a fault a front of the text went out.
///
/// # Errors
/// A write or the flush failed, or a write took no byte.
pub fn write_text<W: Target>(out: &mut W, text: &[u8]) -> Result<(), WriteFault>
    ensures whole { OnOk result (Appends (W.contents out.old) (W.contents out.new) text.now) }
    ensures front { OnErr result (AppendsFront (W.contents out.old) (W.contents out.new) text.now) }
    ensures flushed { OnOk result (W.flushed out.new) }
    ensures failed { OnErr result (W.failed out.new) }
    ensures sound { OnOk result (W.sound out.old → W.sound out.new) }
{
    write_part(out, text)?;
    flushed(out.flush_all())
}

/// What a flush said: well only where it was.
fn flushed(said: io::Result<()>) -> Result<(), WriteFault>
    ensures well { OnOk result (IsOk said) }
    ensures fault { OnErr result (IsErr said) }
{
    match said {
        Ok(()) => Ok(()),
        Err(_) => Err(WriteFault),
    }
}

/// Writes all of a part. After a fault a front of it went out.
fn write_part<W: Target>(out: &mut W, text: &[u8]) -> Result<(), WriteFault>
    ensures whole { OnOk result (Appends (W.contents out.old) (W.contents out.new) text.now) }
    ensures front { OnErr result (AppendsFront (W.contents out.old) (W.contents out.new) text.now) }
    ensures failed { OnErr result (W.failed out.new) }
    ensures sound { OnOk result (W.sound out.old → W.sound out.new) }
{
    let mut written = 0;
    while written < text.len() {
        let count = match out.write_some(&text[written..]) {
            Ok(count) => count,
            Err(_) => return Err(WriteFault),
        };
        if count == 0 {
            return Err(WriteFault);
        }
        written += count;
    }
    Ok(())
}
