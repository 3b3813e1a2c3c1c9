//! The lines that are heard, piece by piece.

ghost use Rattle.std.specs.Prelude.{◌<◌, ◌↔◌, ◌+◌, ◌^◌, IsTrue, ◌≡◌, ◌≤◌, ◌∷◌, [], ◌++◌, length, vec_len, Err, IfErr, OnOk};
ghost use Rattle.diag_can.specs.BusLine.{HasNoFeed};
ghost use Rattle.diag_port.specs.Port.{Grew};

use crate::restamp::add_restamped;
use diag_can::{KnownId, LONGEST_LINE, LineFault, read_bus_line};
use memchr::memchr;
use std::alloc::{AllocError, Global};

/// Why the lines that were heard can't be followed.
#[derive(Clone, Copy, Drop)]
pub(crate) enum HearFault {
    /// The line of that number, from 1, is the first at fault.
    Line(u64, LineFault),
    /// Memory was refused.
    Memory,
}

impl From<AllocError> for HearFault {
    ghost use Rattle.diag_live.specs.declared.hearing.HearFault.TheVariants as fault;

    ghost from_gives = { λ _ f. f ≡ fault.Memory };

    fn from(_refused: AllocError) -> HearFault {
        HearFault::Memory
    }
}

/// What is kept of the lines between two pieces.
#[derive(Drop)]
pub(crate) struct Hearing {
    /// The line that is begun.
    kept: Vec<u8>,
    /// How many lines were heard.
    lines: u64,
    ghost short: { vec_len kept ≤ 4096 },
}

impl Hearing {
    ghost use Rattle.diag_live.specs.Hearing.{HasHeard, HeardLines, IsLineTooLong, Refuses, SeesBad};

    /// Nothing was heard.
    pub(crate) fn new(alloc: Global) -> Hearing
        ensures { HasHeard result [] }
    {
        Hearing {
            kept: Vec::new(alloc),
            lines: 0,
        }
    }

    /// How many lines were heard.
    pub(crate) fn lines(&self) -> u64
        ensures { result ≡ self.now.lines }
    {
        self.lines
    }

    /// Takes a piece, and adds to the capture the lines that it ends. At a line at fault it stops behind those before it.
    /// These identifiers are read that are passed over otherwise.
    pub(crate) fn take_piece(
        &mut self,
        known: &[KnownId],
        piece: &[u8],
        text: &mut Vec<u8>,
    ) -> Result<(), HearFault>
        ensures ok { OnOk result (Grew text.old.items text.new.items
            (HeardLines known.now self.old self.new piece.now)) }
        ensures err { IfErr result (Refuses known.now self.old piece.now text.old.items text.new.items) }
    {
        let mut rest = piece;
        while let Some(end) = memchr(b'\n', rest) {
            self.take_line(known, &rest[..end], text)?;
            rest = &rest[end + 1..];
        }
        self.keep(rest)
    }

    /// Whether a line is begun.
    pub(crate) fn is_begun(&self) -> bool
        ensures { IsTrue result ↔ 0 < length self.now.kept.items }
    {
        !self.kept.is_empty()
    }

    /// Takes the line that these bytes and an LF end, and adds it to the capture.
    fn take_line(
        &mut self,
        known: &[KnownId],
        bytes: &[u8],
        text: &mut Vec<u8>,
    ) -> Result<(), HearFault>
        requires line { HasNoFeed bytes.now }
        ensures ok { OnOk result (Grew text.old.items text.new.items
            (HeardLines known.now self.old self.new (bytes.now ++ 10 ∷ []))) }
        ensures kept { OnOk result (self.new.kept.items ≡ []) }
        ensures err { IfErr result
            (Refuses known.now self.old (bytes.now ++ 10 ∷ []) text.old.items text.new.items) }
        ensures seen { SeesBad known.now self.old bytes.now result }
    {
        if self.kept.is_empty() {
            self.take_whole(known, bytes, text)
        } else {
            self.take_kept(known, bytes, text)
        }
    }

    /// Takes a line that came as one piece. Whether it is at fault is looked at before memory is asked for.
    fn take_whole(
        &mut self,
        known: &[KnownId],
        bytes: &[u8],
        text: &mut Vec<u8>,
    ) -> Result<(), HearFault>
        requires none { self.old.kept.items ≡ [] }
        requires line { HasNoFeed bytes.now }
        ensures ok { OnOk result (Grew text.old.items text.new.items
            (HeardLines known.now self.old self.new (bytes.now ++ 10 ∷ []))) }
        ensures kept { OnOk result (self.new.kept.items ≡ []) }
        ensures err { IfErr result
            (Refuses known.now self.old (bytes.now ++ 10 ∷ []) text.old.items text.new.items) }
        ensures seen { SeesBad known.now self.old bytes.now result }
    {
        let Some(number) = self.lines.checked_add(1) else {
            return Err(HearFault::Memory);
        };
        if let Err(fault) = read_bus_line(known, bytes) {
            return Err(HearFault::Line(number, fault));
        }
        add_restamped(text, bytes)?;
        self.lines = number;
        Ok(())
    }

    /// Takes the line that is begun, which these bytes and an LF end.
    fn take_kept(
        &mut self,
        known: &[KnownId],
        bytes: &[u8],
        text: &mut Vec<u8>,
    ) -> Result<(), HearFault>
        requires begun { 0 < length self.old.kept.items }
        requires line { HasNoFeed bytes.now }
        ensures ok { OnOk result (Grew text.old.items text.new.items
            (HeardLines known.now self.old self.new (bytes.now ++ 10 ∷ []))) }
        ensures kept { OnOk result (self.new.kept.items ≡ []) }
        ensures err { IfErr result
            (Refuses known.now self.old (bytes.now ++ 10 ∷ []) text.old.items text.new.items) }
        ensures seen { SeesBad known.now self.old bytes.now result }
    {
        self.keep(bytes)?;
        let Some(number) = self.lines.checked_add(1) else {
            return Err(HearFault::Memory);
        };
        if let Err(fault) = read_bus_line(known, self.kept.as_slice()) {
            return Err(HearFault::Line(number, fault));
        }
        add_restamped(text, self.kept.as_slice())?;
        self.kept.clear();
        self.lines = number;
        Ok(())
    }

    /// Adds bytes to the line that is kept.
    ///
    /// # Errors
    /// `Line` exactly where it is longer than a line may be, which is looked at first, and its number is one of 64 bits;
    /// `Memory`.
    fn keep(&mut self, bytes: &[u8]) -> Result<(), HearFault>
        ensures ok { OnOk result (self.new.kept.items ≡ self.old.kept.items ++ bytes.now) }
        ensures lines { self.new.lines ≡ self.old.lines }
        ensures err { IfErr result (IsLineTooLong self.old bytes.now) }
        ensures long { 4096 < length self.old.kept.items + length bytes.now → self.old.lines + 1 < 2 ^ 64
            → result ≡ Err (HearFault.Line (self.old.lines + 1) LineFault.BadLine) }
    {
        if bytes.len() > LONGEST_LINE - self.kept.len() {
            let Some(number) = self.lines.checked_add(1) else {
                return Err(HearFault::Memory);
            };
            return Err(HearFault::Line(number, LineFault::BadLine));
        }
        self.kept.extend_from_slice(bytes)?;
        Ok(())
    }
}
