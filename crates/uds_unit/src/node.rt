//! What a call gives the server: time to every tester, and a frame to those it is for.

ghost use Rattle.std.specs.Prelude.{◌≡◌, ◌≤◌, ◌<◌, ◌-◌, ℕ, List, [], ◌∷◌, ◌++◌, Some, length, map, slice_get, OnOk, OnErr};
ghost use Rattle.std.specs.List.{flat_map};
ghost use Rattle.diag_can.specs.Event.{Event as AnEvent};
ghost use Rattle.diag_can.specs.Log.{waited};
ghost use Rattle.diag_pdu.specs.Cut.{counted_from};
ghost use Rattle.diag_tp.specs.declared.sent.Sent.{Sent as ASent};
ghost use Rattle.diag_world.specs.Server.{IsEarly, each_of};
ghost use Rattle.diag_bus.specs.Events.{frame_to};
ghost use Rattle.diag_bus.specs.Node.{HasTime, Lasts, OneWentOn, TookTime};
ghost use Rattle.diag_bus.specs.RequestIds.{AreRequestsOf, IsOwner, functional_to, functional_to_all, given};

use crate::entries::Entries;
use crate::given::GivenFrame;
use diag_bus::{Owner, RequestIds, clear_all};
use diag_can::{CanId, FrameBytes, LentBytes, LentEvent, TickCount};
use diag_setup::{Setup, TesterId};
use diag_tp::SentFrames;
use diag_world::Server;
use std::alloc::AllocError;

/// The most milliseconds that one count of ticks gives.
const LONGEST_COUNT: u64 = TickCount::MAX as u64;

/// The server in the midst of a call, with what the call has drawn and entered so far.
#[derive(Drop)]
pub struct Node {
    /// The ECU and each tester's port.
    pub server: Server,
    /// Whether a journal is wanted.
    pub wanted: bool,
    /// The frames that each tester is sent with this call.
    pub drawn: Vec<SentFrames>,
    /// The text of the entries that was not handed out.
    pub text: Vec<u8>,
}

impl Node {
    ghost use Rattle.uds_unit.specs.Node.{Gave, IsReady, Passed, SameShape, lists_of};

    /// Begins a call: nothing was drawn.
    pub fn begin(&mut self)
        ensures empty { (i : ℕ) (frames : List ASent)
            → slice_get (lists_of self.new) i ≡ Some frames → frames ≡ [] }
        ensures text { self.new.text.items ≡ self.old.text.items }
        ensures server { self.new.server ≡ self.old.server }
        ensures shape { SameShape self.old self.new }
    {
        clear_all(&mut self.drawn);
    }

    /// Gives the server an event of a tester.
    fn give(&mut self, who: TesterId, event: &LentEvent<'_>) -> Result<(), AllocError>
        requires in_setup { who ≤ length self.old.server.ports }
        requires lists { length self.old.drawn.items ≡ length self.old.server.ports }
        requires early { IsEarly self.old.server (who - 1) }
        ensures ok { OnOk result (Gave self.old self.new ((who, event.now) ∷ [])) }
        ensures shape { SameShape self.old self.new }
        ensures pace { (span : ℕ) → Lasts event.now span
            → OneWentOn self.old.server self.new.server (who - 1) span }
    {
        let index = who.index();
        let out = &mut self.drawn[index];
        let mut entries = Entries {
            wanted: self.wanted,
            text: &mut self.text,
        };
        self.server.take(who, event, &mut entries, out)?;
        Ok(())
    }

    /// Gives the server an event of each tester, in order.
    fn give_to_each(&mut self, setup: &Setup, event: &LentEvent<'_>) -> Result<(), AllocError>
        requires in_setup { length self.old.server.ports ≡ length setup.now.testers }
        requires lists { length self.old.drawn.items ≡ length setup.now.testers }
        requires early { HasTime self.old.server 0 }
        ensures ok { OnOk result
            (Gave self.old self.new (each_of (length setup.now.testers) event.now)) }
        ensures shape { SameShape self.old self.new }
        ensures pace { (span : ℕ) → Lasts event.now span
            → TookTime self.old.server self.new.server span }
    {
        for index in 0..setup.testers() {
            let who = setup.who(index);
            self.give(who, event)?;
        }
        Ok(())
    }

    /// Gives the server so many ticks of each tester, in order: all at once where no port does anything before the last of
    /// them, and no entry of theirs is wanted.
    fn give_each(&mut self, setup: &Setup, count: TickCount) -> Result<(), AllocError>
        requires { IsReady self.old (length setup.now.testers) count }
        ensures { Passed self.old self.new count
            (each_of (length setup.now.testers) (AnEvent.Ticks count)) result }
    {
        if !self.wanted && u64::from(count.get()) < self.server.quiet() {
            self.server.pass_quietly(setup, count);
            return Ok(());
        }
        self.give_to_each(setup, &LentEvent::ticks(count))
    }

    /// Lets so many milliseconds pass for each tester: by the longest count each, and last the rest.
    fn pass(&mut self, setup: &Setup, ms: u64) -> Result<(), AllocError>
        requires { IsReady self.old (length setup.now.testers) ms }
        ensures { Passed self.old self.new ms
            (flat_map (each_of (length setup.now.testers)) (waited ms)) result }
    {
        for part in 0..ms / LONGEST_COUNT {
            self.give_each(setup, TickCount::longest())?;
        }
        match TickCount::new((ms % LONGEST_COUNT) as u16) {
            None => Ok(()),
            Some(rest) => self.give_each(setup, rest),
        }
    }

    /// Gives the server a frame of these bytes, by whose it is.
    fn give_bytes(
        &mut self,
        setup: &Setup,
        owner: Owner,
        id: CanId,
        bytes: &[u8],
    ) -> Result<(), AllocError>
        requires fits { length bytes.now ≤ 64 }
        requires in_setup { length self.old.server.ports ≡ length setup.now.testers }
        requires lists { length self.old.drawn.items ≡ length setup.now.testers }
        requires owner { IsOwner setup.now id (length setup.now.testers) owner }
        requires early { HasTime self.old.server 0 }
        ensures { Passed self.old self.new 0
            (given setup.now id (length setup.now.testers) owner bytes.now) result }
    {
        if bytes.len() > 8 {
            return self.give_frame(setup, owner, id, &LentBytes::long(bytes));
        }
        let short = FrameBytes::from_slice(bytes);
        self.give_frame(setup, owner, id, &LentBytes::short(&short))
    }

    /// Gives the server a frame, by whose it is.
    fn give_frame(
        &mut self,
        setup: &Setup,
        owner: Owner,
        id: CanId,
        bytes: &LentBytes<'_>,
    ) -> Result<(), AllocError>
        requires in_setup { length self.old.server.ports ≡ length setup.now.testers }
        requires lists { length self.old.drawn.items ≡ length setup.now.testers }
        requires owner { IsOwner setup.now id (length setup.now.testers) owner }
        requires early { HasTime self.old.server 0 }
        ensures { Passed self.old self.new 0
            (given setup.now id (length setup.now.testers) owner bytes.now) result }
    {
        match owner {
            Owner::Nobody => Ok(()),
            Owner::Tester(who) => self.give(who, &LentEvent::physical(bytes.copy())),
            Owner::Functional => self.give_functional(setup, id, bytes),
        }
    }

    /// Gives the server a functional frame: it is for each tester that has this functional identifier, in order.
    fn give_functional(
        &mut self,
        setup: &Setup,
        id: CanId,
        bytes: &LentBytes<'_>,
    ) -> Result<(), AllocError>
        requires in_setup { length self.old.server.ports ≡ length setup.now.testers }
        requires lists { length self.old.drawn.items ≡ length setup.now.testers }
        requires early { HasTime self.old.server 0 }
        ensures { Passed self.old self.new 0
            (functional_to_all setup.now id (length setup.now.testers) bytes.now) result }
    {
        for index in 0..setup.testers() {
            let who = setup.who(index);
            self.give_functional_to(setup, who, id, bytes)?;
        }
        Ok(())
    }

    /// The same to one tester.
    fn give_functional_to(
        &mut self,
        setup: &Setup,
        who: TesterId,
        id: CanId,
        bytes: &LentBytes<'_>,
    ) -> Result<(), AllocError>
        requires known { who ≤ length setup.now.testers }
        requires in_setup { who ≤ length self.old.server.ports }
        requires lists { length self.old.drawn.items ≡ length self.old.server.ports }
        requires early { HasTime self.old.server 0 }
        ensures { Passed self.old self.new 0 (functional_to setup.now id bytes.now who) result }
    {
        if id == setup.ids(who).functional {
            self.give(who, &LentEvent::functional(bytes.copy()))
        } else {
            Ok(())
        }
    }

    /// Gives the server so many milliseconds, and then the frame, if there is one.
    pub fn take(
        &mut self,
        setup: &Setup,
        ids: &RequestIds,
        ms: u64,
        frame: Option<GivenFrame<'_>>,
    ) -> Result<(), AllocError>
        requires ready { IsReady self.old (length setup.now.testers) ms }
        requires ids { AreRequestsOf setup.now ids.now }
        ensures { Passed self.old self.new ms (flat_map (each_of (length setup.now.testers)) (waited ms)
            ++ flat_map (frame_to setup.now frame.entry) (counted_from 1 (length setup.now.testers))) result }
    {
        self.pass(setup, ms)?;
        match frame {
            Some(frame) => {
                self.give_bytes(setup, ids.owner(setup, frame.id), frame.id, frame.bytes)
            }
            None => Ok(()),
        }
    }
}
