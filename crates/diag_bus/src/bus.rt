//! The bus: a clock, the unit, and a sink for what is made of the capture.

ghost use Rattle.diag_setup.specs.Setup.{known_ids};
ghost use Rattle.diag_bus.specs.Events.{line_said};
ghost use Rattle.std.specs.Prelude.{◌≡◌, ◌≤◌, [], ◌++◌, ℕ, List, length, IfOk, OnOk, OnErr, Ok};
ghost use Rattle.std.specs.List.{All};
ghost use Rattle.diag_port.specs.Port.{Grew};
ghost use Rattle.diag_world.specs.Block.{some_in_block};
ghost use Rattle.diag_world.specs.Server.{quiet_of};
ghost use Rattle.diag_bus.specs.Bus.{AnswersLine, IsItsFault, IsRefused, TookLine, TookLines};
ghost use Rattle.diag_bus.specs.Text.{ecu_after};

use crate::clock::Clock;
use crate::fault::BusFault;
use crate::filled::Filled;
use crate::line_frames::LineFrames;
use crate::node::Node;
use crate::request_ids::RequestIds;
use crate::sink::Sink;
use diag_can::{BusLine, KnownId, read_bus_line};
use diag_ecu::Ecu;
use diag_setup::Setup;
use diag_tp::SentFrames;
use diag_world::Server;
use std::alloc::{AllocError, Global};
use std::marker::Model;

/// A bus between two lines of a capture: its clock, the unit with its setup, and the sink.
///
/// It takes a capture line by line, of any length, and keeps neither its lines nor a journal nor the frames that were
/// sent. Its contract is the relation `TookLines`, to every list of lines that it may have taken.
pub struct Bus<S: Sink> {
    setup: Setup,
    ids: RequestIds,
    node: Node,
    clock: Clock,
    sink: S,
}

// Written out: where a bus is dropped there is one call then, and not the code for each field.
impl<S: Sink> Drop for Bus<S> {
    fn drop(self) {
        let Bus {
            setup: _,
            ids: _,
            node: _,
            clock: _,
            sink: _,
        } = self;
    }
}

impl<S: Sink> Model for Bus<S> {
    ghost use Rattle.diag_world.specs.Server.{server_of};
    ghost use Rattle.diag_bus.specs.Bus.{AreSound, BusState};
    ghost use Rattle.diag_bus.specs.RequestIds.{AreRequestsOf};

    ghost Value = { BusState S };

    ghost view = { λ b. record {
      setup = b.setup;
      server = server_of b.node.server;
      clock = b.clock;
      sink = b.sink;
    } };

    ghost invariant = { λ b.
        AreSound b.setup b.node b.clock × AreRequestsOf b.setup b.ids × S.is_for b.sink b.setup };
}

impl<S: Sink> Bus<S> {
    /// A bus that took no line, where memory isn't refused. The sink begins.
    pub fn new(alloc: Global, setup: Setup, mut sink: S) -> Result<Bus<S>, AllocError>
        ensures took { IfOk result (λ bus. TookLines S.took bus []) }
        ensures setup { IfOk result (λ bus. bus.setup ≡ setup) }
        ensures aim { IfOk result (λ bus. S.aim bus.sink ≡ S.aim sink) }
    {
        let server = Server::new(alloc, &setup)?;
        let lists = empty_lists(alloc, setup.testers())?;
        let ids = RequestIds::new(alloc, &setup)?;
        sink.begin(alloc, &setup)?;
        Ok(Bus {
            node: Node {
                server,
                drawn: LineFrames {
                    lists,
                    filled: Filled::Anywhere,
                },
                rest: 0,
            },
            setup,
            ids,
            clock: Clock::new(),
            sink,
        })
    }

    /// Adds what is written before the first line, as the header of a journal. Refused, the text is as it was.
    pub fn begin(&self, text: &mut Vec<u8>) -> Result<(), AllocError>
        ensures ok { OnOk result
            (text.new.items ≡ text.old.items ++ S.written (S.aim self.now.sink) self.now.setup []) }
        ensures err { OnErr result (text.new.items ≡ text.old.items) }
    {
        self.sink.write_header(text)
    }

    /// Takes a line, given without its LF, and adds to the text what it writes.
    ///
    /// # Errors
    /// `Line` and `Late` exactly where the line is at fault, which is looked at before memory is asked for; `Memory`
    /// where memory is refused, or 2^40 replies wait. Refused, the text is as it was, and the bus can't go on: of what
    /// it took nothing is said then.
    pub fn take_line(&mut self, line: &[u8], text: &mut Vec<u8>) -> Result<(), BusFault>
        ensures took { OnOk result
            (Grew text.old.items text.new.items (TookLine S.took S.aim S.written self.old self.new line.now)) }
        ensures fault { IsItsFault S.took self.old line.now result }
        ensures first { IsRefused S.took self.old line.now result }
        ensures err { OnErr result (text.new.items ≡ text.old.items) }
        ensures setup { self.new.setup ≡ self.old.setup }
        ensures aim { S.aim self.new.sink ≡ S.aim self.old.sink }
    {
        match read_bus_line(self.ids.known(), line) {
            Ok(said) => self.take(&said, text),
            Err(fault) => Err(BusFault::Line(fault)),
        }
    }

    /// Takes a line that says this.
    ///
    /// # Errors
    /// As `take_line`.
    #[inline(always)]
    pub fn take(&mut self, said: &BusLine, text: &mut Vec<u8>) -> Result<(), BusFault>
        requires { (line : List ℕ) × (line_said self.old.setup line ≡ Ok said.now) }
        ensures { (line : List ℕ) → line_said self.old.setup line ≡ Ok said.now
            → AnswersLine S.took S.aim S.written self.old self.new line text.old.items text.new.items result }
    {
        // (first: no link's clock is ahead of the bus's, also where the line is refused)
        let span = self.clock.go_on(said)?;
        self.node.begin();
        self.node
            .take(&self.setup, &self.ids, span, said, &mut self.sink)?;
        self.sink.end_line(&self.setup, said, span, &self.clock, &self.node.drawn, text)?;
        Ok(())
    }

    /// For how many milliseconds of ticks no port does anything before the last of them: no frame and no held reply falls
    /// due, and no reception or wait ends. At least 1, and 2^64 - 1 where nothing is waited for.
    pub fn quiet(&self) -> u64
        ensures is { result ≡ quiet_of self.now.server.ports }
        ensures some { 1 ≤ result }
    {
        self.node.server.quiet()
    }

    /// The identifiers of which lines are read that are passed over otherwise: those of 29 bits that a tester has, and all of
    /// testers that talk by CAN FD.
    pub fn known(&self) -> &[KnownId]
        ensures { result.now ≡ known_ids self.now.setup }
    {
        self.ids.known()
    }

    /// Whether to some tester a ConsecutiveFrame of a reply is still to go, behind its separation time.
    pub fn is_in_block(&self) -> bool
        ensures { result ≡ some_in_block self.now.server.ports }
    {
        self.node.server.is_in_block()
    }

    /// The setup of the ECU and its testers.
    pub fn setup(&self) -> &Setup
        ensures { result.now ≡ self.now.setup }
    {
        &self.setup
    }

    /// What is made of the capture.
    pub fn sink(&self) -> &S
        ensures is { result.now ≡ self.now.sink }
        ensures begun { S.is_for result.now self.now.setup }
    {
        &self.sink
    }

    /// The ECU as the lines have made it.
    pub fn ecu(&self) -> &Ecu
        ensures { (lines : List (List ℕ)) → TookLines S.took self.now lines
            → result.now ≡ ecu_after self.now.setup lines }
    {
        self.node.server.ecu()
    }
}

/// So many empty lists.
///
/// # Errors
/// `AllocError` where memory is refused.
pub fn empty_lists(alloc: Global, count: usize) -> Result<Vec<SentFrames>, AllocError>
    ensures many { IfOk result (λ lists. length lists.items ≡ count) }
    ensures empty { IfOk result (λ lists. All (λ list. list.items ≡ []) lists.items) }
{
    let mut lists = Vec::new(alloc);
    for made in 0..count {
        lists.push(SentFrames::new(alloc))?;
    }
    Ok(lists)
}
