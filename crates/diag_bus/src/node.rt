//! The unit on the bus: it is given what a line says, its time to every tester, and its frame to those it is for.

ghost use Rattle.std.specs.Prelude.{◌≡◌, ◌≢◌, ◌≤◌, ◌<◌, ◌-◌, ℕ, List, Option, [], ◌∷◌, ◌++◌, Ok, Some, length, false, nat_lt, slice_get, IfSome, IsOk, IsSome, OnOk};
ghost use Rattle.std.specs.List.{flat_map};
ghost use Rattle.hex.specs.Hex.{decode_of};
ghost use Rattle.diag_can.specs.Event.{Event as AnEvent};
ghost use Rattle.diag_can.specs.Log.{waited};
ghost use Rattle.diag_pdu.specs.Cut.{counted_from};
ghost use Rattle.diag_tp.specs.declared.sent.Sent.{Sent as ASent};
ghost use Rattle.diag_setup.specs.declared.raw.RawSetup.{RawSetup};
ghost use Rattle.diag_world.specs.Server.{closing_time, each_of};
ghost use Rattle.diag_bus.specs.Events.{frame_said, frame_to};
ghost use Rattle.diag_bus.specs.Filled.{AreFilled};
ghost use Rattle.diag_bus.specs.RequestIds.{AreRequestsOf, IsOwner, functional_to, functional_to_all, given};

use crate::entering::Entering;
use crate::line_frames::LineFrames;
use crate::request_ids::{Owner, RequestIds};
use crate::sink::Sink;
use diag_can::{BusLine, CanId, FdBytes, FrameText, LentBytes, LentEvent, TickCount};
use diag_setup::{Setup, TesterId};
use diag_world::Server;
use std::alloc::AllocError;

/// The most milliseconds that one count of ticks gives.
const LONGEST_COUNT: u64 = TickCount::MAX as u64;

/// The unit on the bus: the server, and the frames that it sends with a line.
#[derive(Drop)]
pub struct Node {
    /// The ECU and each tester's port.
    pub server: Server,
    /// The frames that each tester is sent with the line.
    pub drawn: LineFrames,
    /// For at least so many ticks no port does anything before the last.
    pub rest: u64,
}

impl Node {
    ghost use Rattle.diag_bus.specs.Node.{Gave, HasTime, IsReady, IsRest, Lasts, OneSentIn, OneWentOn, Passed, SameShape, SentIn, TookTime, lists_of};
    ghost use Rattle.diag_bus.specs.Sink.{StaysFor};
    ghost use Rattle.diag_world.specs.Server.{IsEarly};

    /// Begins a line: nothing was drawn.
    pub fn begin(&mut self)
        requires filled { AreFilled self.old.drawn.filled (lists_of self.old.drawn) }
        ensures empty { (i : ℕ) (frames : List ASent)
            → slice_get (lists_of self.new.drawn) i ≡ Some frames → frames ≡ [] }
        ensures server { self.new.server ≡ self.old.server }
        ensures shape { SameShape self.old self.new }
    {
        self.drawn.clear();
    }

    /// Gives the server an event of a tester.
    #[inline(never)]
    fn give<S: Sink>(
        &mut self,
        who: TesterId,
        event: &LentEvent<'_>,
        sink: &mut S,
    ) -> Result<(), AllocError>
        requires in_setup { who ≤ length self.old.server.ports }
        requires lists { length self.old.drawn.lists.items ≡ length self.old.server.ports }
        requires early { IsEarly self.old.server (who - 1) }
        ensures ok { OnOk result (Gave S.took self.old sink.old self.new sink.new ((who, event.now) ∷ [])) }
        ensures kept { StaysFor S.is_for S.aim sink.old sink.new }
        ensures shape { SameShape self.old self.new }
        ensures pace { (span : ℕ) → Lasts event.now span
            → OneWentOn self.old.server self.new.server (who - 1) span }
        ensures sent { OnOk result ((span : ℕ) → Lasts event.now span
            → OneSentIn self.old self.new (who - 1) span) }
    {
        let index = who.index();
        let out = &mut self.drawn.lists[index];
        let mut entering = Entering { sink: &mut *sink };
        self.server.take(who, event, &mut entering, out)?;
        self.drawn.filled = self.drawn.filled.after(index, out.is_empty());
        self.rest = self.rest.min(self.server.quiet_at(who));
        Ok(())
    }

    /// Gives the server so many ticks of each tester, in order. Those in which no port does anything pass in one move.
    #[inline(always)]
    pub fn give_each<S: Sink>(
        &mut self,
        setup: &Setup,
        count: TickCount,
        sink: &mut S,
    ) -> Result<(), AllocError>
        requires { IsReady self.old (length setup.now.testers) count }
        ensures { Passed S.took (StaysFor S.is_for S.aim) self.old sink.old self.new sink.new count
            (each_of (length setup.now.testers) (AnEvent.Ticks count)) result }
    {
        let ms = u64::from(count.get());
        if sink.wants_ticks() || !self.is_quiet(ms) {
            return self.give_ticks(setup, count, sink);
        }
        self.server.pass_quietly(setup, count);
        self.rest -= ms;
        Ok(())
    }

    /// Whether no port does anything before the last of so many ticks. Where `rest` doesn't say so, the ports are asked again.
    #[inline(always)]
    fn is_quiet(&mut self, ms: u64) -> bool
        requires { IsRest self.old.server self.old.rest }
        ensures quiet { result ≡ nat_lt ms self.new.rest }
        ensures rest { IsRest self.new.server self.new.rest }
        ensures server { self.new.server ≡ self.old.server }
        ensures drawn { self.new.drawn ≡ self.old.drawn }
    {
        if self.rest <= ms {
            self.rest = self.server.quiet();
        }
        ms < self.rest
    }

    /// The same, where some port does something or the sink wants the ticks.
    #[inline(never)]
    fn give_ticks<S: Sink>(
        &mut self,
        setup: &Setup,
        count: TickCount,
        sink: &mut S,
    ) -> Result<(), AllocError>
        requires { IsReady self.old (length setup.now.testers) count }
        ensures { Passed S.took (StaysFor S.is_for S.aim) self.old sink.old self.new sink.new count
            (each_of (length setup.now.testers) (AnEvent.Ticks count)) result }
    {
        self.give_to_each(setup, &LentEvent::ticks(count), sink)
    }

    /// Lets so many milliseconds pass for each tester.
    #[inline(always)]
    fn pass<S: Sink>(&mut self, setup: &Setup, ms: u64, sink: &mut S) -> Result<(), AllocError>
        requires { IsReady self.old (length setup.now.testers) ms }
        ensures { Passed S.took (StaysFor S.is_for S.aim) self.old sink.old self.new sink.new ms
            (flat_map (each_of (length setup.now.testers)) (waited ms)) result }
    {
        if ms >= LONGEST_COUNT {
            return self.pass_parts(setup, ms, sink);
        }
        match TickCount::new(ms as u16) {
            None => Ok(()),
            Some(count) => self.give_each(setup, count, sink),
        }
    }

    /// The same by the longest count each, and last the rest.
    #[inline(never)]
    fn pass_parts<S: Sink>(
        &mut self,
        setup: &Setup,
        ms: u64,
        sink: &mut S,
    ) -> Result<(), AllocError>
        requires { IsReady self.old (length setup.now.testers) ms }
        ensures { Passed S.took (StaysFor S.is_for S.aim) self.old sink.old self.new sink.new ms
            (flat_map (each_of (length setup.now.testers)) (waited ms)) result }
    {
        for part in 0..ms / LONGEST_COUNT {
            self.give_each(setup, TickCount::longest(), sink)?;
        }
        match TickCount::new((ms % LONGEST_COUNT) as u16) {
            None => Ok(()),
            Some(rest) => self.give_each(setup, rest, sink),
        }
    }

    /// Gives the server a frame, by whose it is. Its bytes are decoded where it is somebody's.
    #[inline(always)]
    fn give_frame<S: Sink>(
        &mut self,
        setup: &Setup,
        ids: &RequestIds,
        owner: Owner,
        frame: &FrameText,
        sink: &mut S,
    ) -> Result<(), AllocError>
        requires in_setup { length self.old.server.ports ≡ length setup.now.testers }
        requires lists { length self.old.drawn.lists.items ≡ length setup.now.testers }
        requires owner { IsOwner setup.now frame.now.id (length setup.now.testers) owner }
        requires ids { AreRequestsOf setup.now ids.now }
        requires early { HasTime self.old.server 0 }
        ensures { Passed S.took (StaysFor S.is_for S.aim) self.old sink.old self.new sink.new 0
            (given setup.now frame.now.id (length setup.now.testers) owner frame.now.bytes) result }
    {
        if let Owner::Nobody = owner {
            return Ok(());
        }
        if frame.is_long() {
            return self.give_long(setup, ids, owner, frame.id(), frame.digits(), sink);
        }
        let bytes = frame.bytes();
        self.give_bytes(
            setup,
            ids,
            owner,
            frame.id(),
            &LentBytes::short(&bytes),
            sink,
        )
    }

    /// The same of a frame of more than 8 bytes, by its identifier and its digits.
    #[cold]
    #[inline(never)]
    fn give_long<S: Sink>(
        &mut self,
        setup: &Setup,
        ids: &RequestIds,
        owner: Owner,
        id: CanId,
        digits: &[u8],
        sink: &mut S,
    ) -> Result<(), AllocError>
        requires hex { IsOk (decode_of digits.now) }
        requires long { (bytes : List ℕ) → decode_of digits.now ≡ Ok bytes → 8 < length bytes }
        requires few { length digits.now ≤ 128 }
        requires in_setup { length self.old.server.ports ≡ length setup.now.testers }
        requires lists { length self.old.drawn.lists.items ≡ length setup.now.testers }
        requires owner { IsOwner setup.now id (length setup.now.testers) owner }
        requires ids { AreRequestsOf setup.now ids.now }
        requires early { HasTime self.old.server 0 }
        ensures { (bytes : List ℕ) → decode_of digits.now ≡ Ok bytes
            → Passed S.took (StaysFor S.is_for S.aim) self.old sink.old self.new sink.new 0
            (given setup.now id (length setup.now.testers) owner bytes) result }
    {
        let mut bytes = FdBytes::new();
        bytes.set_digits(digits);
        self.give_bytes(
            setup,
            ids,
            owner,
            id,
            &LentBytes::long(bytes.as_slice()),
            sink,
        )
    }

    /// Gives the server a frame of this identifier and these bytes, by whose it is.
    #[inline(always)]
    fn give_bytes<S: Sink>(
        &mut self,
        setup: &Setup,
        ids: &RequestIds,
        owner: Owner,
        id: CanId,
        bytes: &LentBytes<'_>,
        sink: &mut S,
    ) -> Result<(), AllocError>
        requires in_setup { length self.old.server.ports ≡ length setup.now.testers }
        requires lists { length self.old.drawn.lists.items ≡ length setup.now.testers }
        requires owner { IsOwner setup.now id (length setup.now.testers) owner }
        requires ids { AreRequestsOf setup.now ids.now }
        requires early { HasTime self.old.server 0 }
        ensures { Passed S.took (StaysFor S.is_for S.aim) self.old sink.old self.new sink.new 0
            (given setup.now id (length setup.now.testers) owner bytes.now) result }
    {
        match owner {
            Owner::Nobody => Ok(()),
            Owner::Tester(who) => self.give(who, &LentEvent::physical(bytes.copy()), sink),
            Owner::Functional => {
                // (a copy: what is borrowed is put into memory, and a tester's own frame would pay for that too)
                let lent = bytes.copy();
                let event = LentEvent::functional(lent.copy());
                self.give_functional(setup, ids, id, &lent, &event, sink)
            }
        }
    }

    /// Gives the server the event of a functional frame with this identifier: it is for each tester whose functional identifier
    /// that is, in order.
    #[inline(never)]
    fn give_functional<S: Sink>(
        &mut self,
        setup: &Setup,
        ids: &RequestIds,
        id: CanId,
        bytes: &LentBytes<'_>,
        event: &LentEvent<'_>,
        sink: &mut S,
    ) -> Result<(), AllocError>
        requires event { event.now ≡ AnEvent.Functional bytes.now }
        requires in_setup { length self.old.server.ports ≡ length setup.now.testers }
        requires lists { length self.old.drawn.lists.items ≡ length setup.now.testers }
        requires ids { AreRequestsOf setup.now ids.now }
        requires early { HasTime self.old.server 0 }
        ensures { Passed S.took (StaysFor S.is_for S.aim) self.old sink.old self.new sink.new 0
            (functional_to_all setup.now id (length setup.now.testers) bytes.now) result }
    {
        // (for its contract: they are the event's)
        let _ = bytes;
        for index in 0..setup.testers() {
            let who = setup.who(index);
            self.give_functional_to(setup, ids, who, id, event, sink)?;
        }
        Ok(())
    }

    /// The same to one tester.
    #[inline(always)]
    fn give_functional_to<S: Sink>(
        &mut self,
        setup: &Setup,
        ids: &RequestIds,
        who: TesterId,
        id: CanId,
        event: &LentEvent<'_>,
        sink: &mut S,
    ) -> Result<(), AllocError>
        requires known { who ≤ length setup.now.testers }
        requires in_setup { who ≤ length self.old.server.ports }
        requires lists { length self.old.drawn.lists.items ≡ length self.old.server.ports }
        requires ids { AreRequestsOf setup.now ids.now }
        requires early { HasTime self.old.server 0 }
        ensures { (bytes : List ℕ) → event.now ≡ AnEvent.Functional bytes
            → Passed S.took (StaysFor S.is_for S.aim) self.old sink.old self.new sink.new 0
            (functional_to setup.now id bytes who) result }
    {
        if id == ids.functional(setup, who) {
            self.give(who, event, sink)
        } else {
            Ok(())
        }
    }

    /// Gives the server an event of each tester, in order.
    fn give_to_each<S: Sink>(
        &mut self,
        setup: &Setup,
        event: &LentEvent<'_>,
        sink: &mut S,
    ) -> Result<(), AllocError>
        requires in_setup { length self.old.server.ports ≡ length setup.now.testers }
        requires lists { length self.old.drawn.lists.items ≡ length setup.now.testers }
        requires early { HasTime self.old.server 0 }
        ensures ok { OnOk result
            (Gave S.took self.old sink.old self.new sink.new (each_of (length setup.now.testers) event.now)) }
        ensures kept { StaysFor S.is_for S.aim sink.old sink.new }
        ensures shape { SameShape self.old self.new }
        ensures pace { (span : ℕ) → Lasts event.now span
            → TookTime self.old.server self.new.server span }
        ensures sent { OnOk result ((span : ℕ) → Lasts event.now span
            → SentIn self.old self.new span) }
    {
        for index in 0..setup.testers() {
            let who = setup.who(index);
            self.give(who, event, sink)?;
        }
        Ok(())
    }

    /// Gives the server what a line says: so many milliseconds, and its frame.
    #[inline(always)]
    pub fn take<S: Sink>(
        &mut self,
        setup: &Setup,
        ids: &RequestIds,
        ms: u64,
        said: &BusLine,
        sink: &mut S,
    ) -> Result<(), AllocError>
        requires ready { IsReady self.old (length setup.now.testers) ms }
        requires ids { AreRequestsOf setup.now ids.now }
        ensures { Passed S.took (StaysFor S.is_for S.aim) self.old sink.old self.new sink.new ms (flat_map (each_of (length setup.now.testers)) (waited ms)
            ++ flat_map (frame_to setup.now (frame_said said.now)) (counted_from 1 (length setup.now.testers))) result }
    {
        self.pass(setup, ms, sink)?;
        match said {
            BusLine::Empty | BusLine::Ticks(_) => Ok(()),
            BusLine::Stamped { moment: _, frame } => match frame {
                Some(frame) => {
                    let owner = ids.owner(setup, frame.id());
                    self.give_frame(setup, ids, owner, frame, sink)
                }
                None => Ok(()),
            },
        }
    }
}
