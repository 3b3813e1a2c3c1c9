//! Which of the lines that are heard are a tester's flow control.

ghost use Rattle.std.specs.List.{list_any};
ghost use Rattle.std.specs.Prelude.{◌≡◌, ◌≤◌, ◌==◌, length, IfOk, IfSome, IsOk, Ok};
ghost use Rattle.diag_can.specs.BusLine.{HasNoFeed, bus_line};
ghost use Rattle.uds_play.specs.FlowLines.{is_flow, reads_flow, says_flow};

use diag_can::{BusLine, CanId, FrameText, KnownId, LONGEST_LINE, first_line, read_bus_line};
use diag_setup::Setup;
use std::alloc::{AllocError, Global};

/// Looks for flow control of a tester (ISO 15765-2:2016, 9.6.5) in lines that come piece by piece.
#[derive(Drop)]
pub struct FlowLines {
    /// The identifiers of the testers' requests.
    requests: Vec<CanId>,
    /// The identifiers of which lines are read that are passed over otherwise: of 29 bits, or by CAN FD.
    known: Vec<KnownId>,
    /// The line that is begun, where it may still become one; a line that is too long never does.
    begun: Vec<u8>,
}

impl FlowLines {
    /// Those of the testers of a setup.
    pub fn new(alloc: Global, setup: &Setup) -> Result<FlowLines, AllocError> {
        let mut requests = Vec::new(alloc);
        for index in 0..setup.testers() {
            let who = setup.who(index);
            requests.push(setup.ids(who).request)?;
        }
        let known = setup.known_ids(alloc)?;
        Ok(FlowLines {
            requests,
            known,
            begun: Vec::new(alloc),
        })
    }

    /// The place in a piece at which the first line that is flow control has its first byte, 0 where that came before; the
    /// piece is then seen so far. Without one it is seen to its end.
    pub fn find(&mut self, piece: &[u8]) -> Result<Option<usize>, AllocError>
        ensures { IfOk result (λ found. IfSome found (λ place. place ≤ length piece.now)) }
    {
        let mut rest = piece;
        while let Some(first) = first_line(self.known.as_slice(), rest) {
            if self.ends_flow(first.line, first.said)? {
                return Ok(Some(piece.len() - rest.len()));
            }
            self.begun.clear();
            rest = first.after;
        }
        self.keep(rest)?;
        Ok(None)
    }

    /// Sees a piece in which flow control isn't looked for.
    pub fn pass(&mut self, piece: &[u8]) -> Result<(), AllocError> {
        let mut rest = piece;
        while let Some(first) = first_line(self.known.as_slice(), rest) {
            self.begun.clear();
            rest = first.after;
        }
        self.keep(rest)
    }

    /// Whether the line that these bytes end is flow control. Without a line begun it says this, where that is known.
    fn ends_flow(&mut self, bytes: &[u8], said: Option<BusLine>) -> Result<bool, AllocError> {
        if self.begun.is_empty() {
            return match said {
                Some(said) => Ok(self.is_flow(&said)),
                None => Ok(self.is_flow_line(bytes)),
            };
        }
        let kept = self.begun.len();
        self.keep(bytes)?;
        let ends = self.is_flow_line(self.begun.as_slice());
        self.begun.truncate(kept);
        Ok(ends)
    }

    /// Keeps bytes of the line that is begun.
    fn keep(&mut self, bytes: &[u8]) -> Result<(), AllocError> {
        if bytes.len() <= LONGEST_LINE.saturating_sub(self.begun.len()) {
            self.begun.extend_from_slice(bytes)?;
        }
        Ok(())
    }

    /// Whether a line is flow control of a tester.
    fn is_flow_line(&self, line: &[u8]) -> bool
        ensures { result ≡ reads_flow self.now.requests.items (bus_line self.now.known.items line.now) }
    {
        match read_bus_line(self.known.as_slice(), line) {
            Ok(said) => self.is_flow(&said),
            Err(_) => false,
        }
    }

    /// Whether what a line says is flow control of a tester.
    fn is_flow(&self, said: &BusLine) -> bool
        ensures { result ≡ says_flow self.now.requests.items said.now }
    {
        let BusLine::Stamped {
            frame: Some(frame),
            ..
        } = said
        else {
            return false;
        };
        self.is_request(frame.id()) && says_flow_control(frame)
    }

    /// Whether an identifier is that of a tester's requests.
    fn is_request(&self, id: CanId) -> bool
        ensures { result ≡ list_any (λ own. own == id) self.now.requests.items }
    {
        self.requests.iter().any(|request| *request == id)
    }
}

/// Whether a frame of either kind is flow control.
fn says_flow_control(frame: &FrameText) -> bool
    ensures { result ≡ is_flow frame.now.bytes }
{
    if frame.is_long() {
        return is_flow_control(frame.long_bytes().as_slice());
    }
    is_flow_control(frame.bytes().as_slice())
}

/// Whether a frame is flow control, by the high half of its first byte (9.6.5.1).
fn is_flow_control(bytes: &[u8]) -> bool
    ensures { result ≡ is_flow bytes.now }
{
    match bytes {
        [control, _, _, ..] => *control / 16 == 3,
        _ => false,
    }
}
