//! A unit on a bus: the server, the clock, and what is due.

ghost use Rattle.std.specs.Prelude.{◌≡◌, ◌≤◌, [], length, IfOk, IfSome, IfNone, Some, OnOk, OnErr, is_some, option_map, slice_get};
ghost use Rattle.std.specs.Bool.{OnFalse};
ghost use Rattle.diag_can.specs.Line.{is_fd_among};
ghost use Rattle.diag_setup.specs.Setup.{did_id, is_fd_of, known_ids};
ghost use Rattle.diag_store.specs.Dids.{write_answer};
ghost use Rattle.diag_store.specs.Dtcs.{status_of};
ghost use Rattle.diag_world.specs.Server.{quiet_of, server_of};
ghost use Rattle.uds_unit.specs.Device.{HandedOut, Ran, SameUnit, ToldJournal, TookCall, latest_ms};
ghost use Rattle.uds_unit.specs.History.{At, SetStatus, SetValue};
ghost use Rattle.uds_unit.specs.Journal.{entered};
ghost use Rattle.uds_unit.specs.Moments.{clock_at, due_us, start_of};

use crate::clock::{Clock, moment_us};
use crate::frames::queue_drawn;
use crate::given::GivenFrame;
use crate::node::Node;
use diag_bus::{Drawn, RequestIds, empty_lists};
use diag_can::CanId;
use diag_desk::{JournalVersion, write_header};
use diag_ecu::Ecu;
use diag_setup::{Setup, TesterId};
use diag_store::DidFault;
use diag_world::Server;
use std::alloc::{AllocError, Global};
use std::collections::VecDeque;
use std::marker::Model;

/// A unit on a bus: it takes moments and frames, and keeps neither the calls nor the frames that were handed out. Its
/// contract is the relation `Ran`, to every list of calls that it may have taken.
pub struct Device {
    setup: Setup,
    ids: RequestIds,
    node: Node,
    clock: Option<Clock>,
    /// Room to put a call's frames in order.
    batch: Vec<Drawn>,
    /// The frames that are due and were not handed out.
    waiting: VecDeque<Drawn>,
}

// Written out, so that a function which lets a unit go makes one call, and doesn't go through all that it owns.
impl Drop for Device {
    fn drop(self) {
        let Device {
            setup: _,
            ids: _,
            node: _,
            clock: _,
            batch: _,
            waiting: _,
        } = self;
    }
}

impl Model for Device {
    ghost use Rattle.diag_bus.specs.RequestIds.{AreRequestsOf};
    ghost use Rattle.uds_unit.specs.Device.{AreSound, DeviceState};

    ghost Value = { DeviceState };

    ghost view = { λ d. record {
      setup = d.setup;
      server = d.node.server;
      wanted = d.node.wanted;
      text = d.node.text.items;
      clock = d.clock;
      waiting = d.waiting.items;
    } };

    ghost invariant = { λ d. AreSound d.setup d.node d.clock × AreRequestsOf d.setup d.ids };
}

impl Device {
    /// A unit that took no call, where memory isn't refused.
    pub fn new(alloc: Global, setup: Setup, wanted: bool) -> Result<Device, AllocError>
        ensures ran { IfOk result (λ unit. Ran unit [] [] []) }
        ensures setup { IfOk result (λ unit. unit.setup ≡ setup) }
        ensures wanted { IfOk result (λ unit. unit.wanted ≡ wanted) }
    {
        let server = Server::new(alloc, &setup)?;
        let drawn = empty_lists(alloc, setup.testers())?;
        let ids = RequestIds::new(alloc, &setup)?;
        let text = first_text(alloc, wanted)?;
        Ok(Device {
            setup,
            ids,
            node: Node {
                server,
                wanted,
                drawn,
                text,
            },
            clock: None,
            batch: Vec::new(alloc),
            waiting: VecDeque::new(alloc),
        })
    }

    /// Takes a moment in milliseconds, and the frame then, if there is one. An earlier moment counts as the latest so far.
    ///
    /// # Errors
    /// Where memory is refused, or 2^40 replies wait. Then nothing is said of what the unit took but that its clock is at the
    /// moment.
    pub fn take(&mut self, moment: u64, frame: Option<GivenFrame<'_>>) -> Result<(), AllocError>
        requires { moment ≤ latest_ms }
        ensures took { OnOk result (TookCall self.old self.new (At moment frame.entry)) }
        ensures clock { self.new.clock ≡ Some (clock_at self.old.clock moment) }
        ensures same { SameUnit self.old self.new }
    {
        let span = Clock::span(self.clock, moment);
        // (first: no link's clock is ahead of the unit's, also where the call is refused)
        self.clock = Some(Clock::at(self.clock, moment));
        self.node.begin();
        self.node.take(&self.setup, &self.ids, span, frame)?;
        queue_drawn(
            &self.setup,
            self.node.drawn.as_slice(),
            &mut self.batch,
            &mut self.waiting,
        )
    }

    /// Hands out the next frame that is due, with its tester, and its time on the tester's link.
    pub fn next(&mut self) -> Option<Drawn>
        ensures frame { IfSome result (λ drawn. HandedOut self.old self.new drawn) }
        ensures none { IfNone result ((self.old.waiting ≡ []) × (self.new ≡ self.old)) }
        ensures same { SameUnit self.old self.new }
        ensures clock { self.new.clock ≡ self.old.clock }
    {
        self.waiting.pop_front()
    }

    /// Whether frames of more than 8 bytes are read of an identifier: it is that of a tester that talks by CAN FD.
    pub fn reads_long(&self, id: CanId) -> bool
        ensures { result ≡ is_fd_among (known_ids self.now.setup) id }
    {
        self.ids.known().iter().any(|k| k.id == id && k.fd)
    }

    /// Whether a tester and the unit talk by CAN FD.
    pub fn is_fd(&self, who: TesterId) -> bool
        ensures { result ≡ is_fd_of self.now.setup who }
    {
        match self.setup.raw().testers.as_slice().get(who.index()) {
            Some(tester) => tester.fd,
            None => false,
        }
    }

    /// The text of the journal that was not handed out.
    pub fn text(&self) -> &[u8]
        ensures { result.now ≡ self.now.text }
    {
        self.node.text.as_slice()
    }

    /// Lets the text of the journal go, which was handed out.
    pub fn text_was_told(&mut self)
        ensures told { ToldJournal self.old self.new self.old.text }
        ensures same { SameUnit self.old self.new }
    {
        self.node.text.clear();
    }

    /// The moment in milliseconds at which each tester's link had its time 0.
    pub fn start(&self) -> u64
        ensures { result ≡ start_of self.now.clock }
    {
        match self.clock {
            None => 0,
            Some(clock) => clock.start,
        }
    }

    /// The next moment at which a frame may fall due, in microseconds, where nothing comes in before; 2^64 - 1 where nothing
    /// is waited for.
    pub fn due_us(&self) -> u64
        ensures { result ≡ due_us self.now.clock (quiet_of (server_of self.now.server).ports) }
    {
        match self.clock {
            None => u64::MAX,
            Some(clock) => moment_us(clock.latest, self.node.server.quiet()),
        }
    }

    /// The ECU.
    pub fn ecu(&self) -> &Ecu
        ensures { result.now ≡ self.now.server.ecu }
    {
        self.node.server.ecu()
    }

    /// A data identifier of the setup, by its place in rising order, from 0.
    pub fn identifier(&self, index: usize) -> Option<u16>
        ensures { result ≡ option_map did_id (slice_get self.now.setup.dids index) }
    {
        let did = self.setup.dids().get(index)?;
        Some(did.id as u16)
    }

    /// Gives a data identifier another value, of the length that it has.
    ///
    /// # Errors
    /// `Unknown` where there is no such identifier, `Length` where the value has another length. All is as before then.
    pub fn set_value(&mut self, id: u16, value: &[u8]) -> Result<(), DidFault>
        ensures answer { result ≡ write_answer self.old.server.ecu.dids id value.now }
        ensures ok { OnOk result (TookCall self.old self.new (SetValue id value.now)) }
        ensures err { OnErr result (self.new ≡ self.old) }
        ensures same { SameUnit self.old self.new }
    {
        self.node.server.set_value(id, value)
    }

    /// Gives a DTC another status; whether the DTC is known.
    pub fn set_status(&mut self, code: u32, status: u8) -> bool
        ensures known { result ≡ is_some (status_of self.old.server.ecu.dtcs code) }
        ensures set { TookCall self.old self.new (SetStatus code status) }
        ensures unknown { OnFalse result (self.new ≡ self.old) }
        ensures same { SameUnit self.old self.new }
    {
        self.node.server.set_status(code, status)
    }
}

/// The text of a journal without entries, where one is wanted.
fn first_text(alloc: Global, wanted: bool) -> Result<Vec<u8>, AllocError>
    ensures { IfOk result (λ text. text.items ≡ entered wanted []) }
{
    let mut text = Vec::new(alloc);
    if wanted {
        write_header(&mut text, JournalVersion::Stamped)?;
    }
    Ok(text)
}
