//! An event whose bytes are lent.

ghost use Rattle.std.specs.Prelude.{◌≡◌, ◌≤◌, length};
ghost use Rattle.diag_can.specs.LentEvent.{data_of, event_of};
ghost use Rattle.diag_can.specs.Event as event;

use crate::frame::TickCount;
use crate::lent_bytes::LentBytes;
use std::marker::Model;

/// What happens on a tester's link: a frame, whose bytes, up to 64, are lent, or unit ticks.
#[derive(Drop)]
pub struct LentEvent<'a> {
    kind: EventKind<'a>,
}

/// What an event is.
#[derive(Drop)]
pub enum EventKind<'a> {
    /// A frame with the tester's request identifier.
    Physical(LentBytes<'a>),
    /// A frame with the functional identifier.
    Functional(LentBytes<'a>),
    /// That many unit ticks pass.
    Ticks(TickCount),
}

impl<'a> Model for LentEvent<'a> {
    ghost use Rattle.std.specs.Prelude.{◌≤◌, length};
    ghost use Rattle.diag_can.specs.LentEvent.{data_of, event_of};
    ghost use Rattle.diag_can.specs.Event.{Event};

    ghost Value = { Event };

    ghost view = { λ e. event_of e.kind };

    ghost invariant = { λ e. length (data_of (event_of e.kind)) ≤ 64 };
}

impl<'a> LentEvent<'a> {
    /// A frame of these bytes with the tester's request identifier.
    #[inline(always)]
    pub fn physical(bytes: LentBytes<'a>) -> LentEvent<'a>
        ensures { result ≡ event.Physical bytes.entry }
    {
        LentEvent {
            kind: EventKind::Physical(bytes),
        }
    }

    /// A frame of these bytes with the functional identifier.
    #[inline(always)]
    pub fn functional(bytes: LentBytes<'a>) -> LentEvent<'a>
        ensures { result ≡ event.Functional bytes.entry }
    {
        LentEvent {
            kind: EventKind::Functional(bytes),
        }
    }

    /// That many unit ticks.
    #[inline(always)]
    pub fn ticks(count: TickCount) -> LentEvent<'a>
        ensures { result ≡ event.Ticks count }
    {
        LentEvent {
            kind: EventKind::Ticks(count),
        }
    }

    /// What it is.
    #[inline(always)]
    pub fn kind(&self) -> EventKind<'a>
        ensures is { event_of result ≡ self.now }
        ensures fits { length (data_of self.now) ≤ 64 }
    {
        match &self.kind {
            EventKind::Physical(bytes) => EventKind::Physical(bytes.copy()),
            EventKind::Functional(bytes) => EventKind::Functional(bytes.copy()),
            EventKind::Ticks(count) => EventKind::Ticks(*count),
        }
    }
}
