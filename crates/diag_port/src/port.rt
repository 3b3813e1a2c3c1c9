//! One tester's port.

ghost use Rattle.std.specs.Prelude.{◌≡◌, ◌≤◌, ◌<◌, ◌↔◌, [], IsTrue, IsSome};
ghost use Rattle.diag_tp.specs.Gives.{gives};
ghost use Rattle.diag_tp.specs.Link.{EachHistory};
ghost use Rattle.diag_port.specs.Port.{IsAtRest, Passed, port_of, port_later, port_quiet, whole_later};
ghost use Rattle.diag_port.specs.Block.{port_in_block};
ghost use Rattle.diag_port.specs.Standing.{PortStands};

use crate::held::Held;
use crate::pace::Pace;
use diag_can::{EventKind, LentEvent};
use diag_pdu::LinkSetup;
use diag_tp::{Link, gives_law};
use std::alloc::Global;

/// One tester's link, and the messages that are held until they may go.
#[derive(Drop)]
pub struct Port {
    pub(crate) link: Link,
    pub(crate) held: Held,
    pub(crate) pace: Pace,
}

impl Port {
    /// A port whose link has these settings, on which nothing has happened.
    pub fn new(alloc: Global, setup: LinkSetup, pace: Pace) -> Port
        ensures stands { PortStands setup pace (port_of result) [] [] }
        ensures rest { IsAtRest result }
        ensures time { result.link.state.now ≡ 0 }
    {
        let link = Link::new(alloc, setup);
        let drained = link.is_drained();
        prove!(drained);
        Port {
            link,
            held: Held::new(alloc),
            pace,
        }
    }

    /// The ticks so far; at the greatest number they stay.
    #[inline(always)]
    pub fn now(&self) -> u64
        ensures { result ≡ self.now.link.state.now }
    {
        self.link.now()
    }

    /// Whether the event gives a step.
    pub fn gives_step(&self, event: &LentEvent<'_>) -> bool
        ensures { EachHistory self.now.link.state (λ s E A Q.
            IsTrue result ↔ IsSome (gives s E event.now)) }
    {
        gives_law();
        match event.kind() {
            EventKind::Ticks(_) => true,
            EventKind::Physical(_) | EventKind::Functional(_) => self.link.completes(event),
        }
    }

    /// For how many ticks nothing falls due and nothing ends before the last of them; at least 1.
    #[inline(always)]
    pub(crate) fn quiet(&self) -> u64
        requires rest { IsAtRest self.now }
        ensures is { result ≡ port_quiet (port_of self.now) }
        ensures some { 1 ≤ result }
    {
        self.link
            .drained_quiet()
            .min(self.held.until_due(self.link.now()))
    }

    /// The same once so many ticks have passed in which nothing falls due and nothing ends; they don't pass.
    #[inline(always)]
    pub fn quiet_after(&self, passed: u64) -> u64
        requires rest { IsAtRest self.now }
        ensures is { result ≡ port_quiet (port_later passed (port_of self.now)) }
    {
        let quiet = self.link.quiet_after(passed);
        if self.held.is_empty() {
            return quiet;
        }
        let then = self.link.now().saturating_add(passed);
        quiet.min(self.held.until_due(then))
    }

    /// Whether a ConsecutiveFrame of a reply is still to go, behind its separation time.
    #[inline(always)]
    pub fn is_in_block(&self) -> bool
        ensures { result ≡ port_in_block (port_of self.now) }
    {
        self.link.is_in_block()
    }

    /// So many ticks, in one move, in which nothing falls due and nothing ends. They may be none, and more than a `TickCount`
    /// has.
    #[inline(always)]
    pub fn advance_quietly(&mut self, count: u64)
        requires rest { IsAtRest self.old }
        requires quiet { count < port_quiet (port_of self.old) }
        ensures later { self.new ≡ whole_later count self.old }
        ensures rest { IsAtRest self.new }
        ensures passed { Passed (port_of self.old) (port_of self.new) count [] }
    {
        self.link.advance_quietly(count);
    }
}
