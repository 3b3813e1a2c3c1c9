//! A tester's port that takes ticks late in which it does nothing.

ghost use Rattle.std.specs.Prelude.{◌≡◌, ◌≤◌, ◌↔◌, [], IsTrue};
ghost use Rattle.diag_port.specs.Block.{port_in_block};
ghost use Rattle.diag_port.specs.Port.{port_of, port_quiet};
ghost use Rattle.diag_port.specs.Standing.{PortStands};
ghost use Rattle.diag_world.specs.LazyPort.{caught_up, IsLazy};
ghost use Rattle.diag_world.specs.Server.{closing_time};

use crate::server::CLOSING_TIME;
use diag_pdu::LinkSetup;
use diag_port::{Pace, Port};
use std::alloc::Global;

/// A tester's port, and how many of the ticks it has taken that have passed for all testers.
///
/// In the others it does nothing, so it stands for what it is once it has caught up, in one move.
#[derive(Drop)]
pub(crate) struct LazyPort {
    pub(crate) port: Port,
    pub(crate) taken: u64,
}

impl LazyPort {
    /// A port whose link has these settings, on which nothing has happened.
    pub(crate) fn new(alloc: Global, setup: LinkSetup, pace: Pace) -> LazyPort
        ensures lazy { IsLazy 0 result }
        ensures stands { PortStands setup pace (port_of (caught_up 0 result)) [] [] }
    {
        LazyPort {
            port: Port::new(alloc, setup, pace),
            taken: 0,
        }
    }

    /// Takes what it hasn't taken of so many ticks that have passed.
    #[inline(always)]
    pub(crate) fn catch_up(&mut self, passed: u64)
        requires lazy { IsLazy passed self.old }
        ensures port { self.new.port ≡ caught_up passed self.old }
        ensures taken { self.new.taken ≡ passed }
        ensures lazy { IsLazy passed self.new }
    {
        if self.taken == passed {
            return;
        }
        self.port.advance_quietly(passed - self.taken);
        self.taken = passed;
    }

    /// Whether it hasn't come past its closing time.
    pub(crate) fn is_early(&self, passed: u64) -> bool
        requires lazy { IsLazy passed self.now }
        ensures { IsTrue result ↔ (caught_up passed self.now).link.state.now ≤ closing_time }
    {
        is_in_time(self.port.now().saturating_add(passed - self.taken))
    }

    /// For how many ticks more it does nothing before the last of them; at least 1.
    #[inline(always)]
    pub(crate) fn quiet(&self, passed: u64) -> u64
        requires lazy { IsLazy passed self.now }
        ensures is { result ≡ port_quiet (port_of (caught_up passed self.now)) }
        ensures some { 1 ≤ result }
    {
        self.port.quiet_after(passed - self.taken)
    }

    /// Whether a ConsecutiveFrame of a reply is still to go, behind its separation time; the ticks that it hasn't taken leave that so.
    #[inline(always)]
    pub(crate) fn is_in_block(&self) -> bool
        ensures { result ≡ port_in_block (port_of self.now.port) }
    {
        self.port.is_in_block()
    }
}

/// Whether a link whose clock tells this hasn't come past its closing time.
fn is_in_time(now: u64) -> bool
    ensures { IsTrue result ↔ now ≤ closing_time }
{
    now <= CLOSING_TIME
}
