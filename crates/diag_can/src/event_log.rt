//! The events of a log.

ghost use Rattle.std.specs.Prelude.{◌≡◌, ◌<◌, ◌≤◌, ◌⊎◌, ℕ, List, [], ◌∷◌, ◌++◌, length, slice_get, Some, Ok, IsOk, IfErr, OnOk};
ghost use Rattle.hex.specs.Hex.{decode_of};
ghost use Rattle.diag_can.specs.Event as event;
ghost use Rattle.diag_can.specs.EventLog.{FitsIn, IsRefused, event_in};
ghost use Rattle.diag_can.specs.Line.{addressed};
ghost use Rattle.diag_can.specs.Log.{most_events};

use crate::fault::Limit;
use crate::fd_bytes::FdBytes;
use crate::frame::{FrameBytes, TickCount};
use crate::frame_text::FrameText;
use crate::lent_bytes::LentBytes;
use crate::lent_event::LentEvent;
use crate::read::Addressing;
use std::alloc::{AllocError, Global};
use std::marker::Model;

/// The most events of a log.
pub(crate) const MAX_EVENTS: usize = 1_000_000;

/// An event as it is kept.
#[derive(Drop)]
enum KeptEvent {
    /// A frame of up to 8 bytes with the tester's request identifier.
    Physical(FrameBytes),
    /// One with the functional identifier.
    Functional(FrameBytes),
    /// That many unit ticks.
    Ticks(TickCount),
    /// A frame of more than 8 bytes.
    Long(LongFrame),
}

const _: () = prove!(size_of::<KeptEvent>() <= 12);

/// Where the bytes of a frame stand among those of all long frames, and which identifier it has.
#[derive(Clone, Copy)]
struct LongFrame {
    from: u32,
    len: u8,
    addressing: Addressing,
}

/// The events of a log, in order, at most 1,000,000. A frame of more than 8 bytes takes memory for them beside its event.
#[derive(Drop)]
pub struct Log {
    events: Vec<KeptEvent>,
    /// The bytes of the long frames, one behind the other.
    long: Vec<u8>,
}

impl Model for Log {
    ghost use Rattle.std.specs.Prelude.{◌≤◌, ◌*◌, length, map};
    ghost use Rattle.std.specs.List.{All};
    ghost use Rattle.diag_can.specs.EventLog.{Events, FitsIn, event_in};
    ghost use Rattle.diag_can.specs.Log.{most_events};

    ghost Value = { Events };

    ghost view = { λ a. record { items = map (event_in a.long.items) a.events.items } };

    ghost invariant = { λ a. All (FitsIn a.long.items) a.events.items
        × (length a.events.items ≤ most_events)
        × (length a.long.items ≤ 64 * length a.events.items) };
}

impl Log {
    /// No events.
    pub fn new(alloc: Global) -> Log
        ensures { result.items ≡ [] }
    {
        Log {
            events: Vec::new(alloc),
            long: Vec::new(alloc),
        }
    }

    /// No events, and room for so many, where there is so much at once.
    pub(crate) fn with_room(alloc: Global, count: usize) -> Log
        ensures { result.items ≡ [] }
    {
        match Vec::with_capacity(alloc, count) {
            Ok(events) => Log {
                events,
                long: Vec::new(alloc),
            },
            Err(_) => Log::new(alloc),
        }
    }

    /// Whether one event more has room: there are 1,000,000 at most.
    #[inline(always)]
    fn find_room(&self) -> Result<(), Limit>
        ensures room { OnOk result (length self.now.items < most_events) }
        ensures err { IfErr result (λ limit.
            (limit ≡ Limit.Events) × (most_events ≤ length self.now.items)) }
    {
        if self.events.len() >= MAX_EVENTS {
            return Err(Limit::Events);
        }
        Ok(())
    }

    /// Adds an event that isn't a long frame.
    #[inline(always)]
    fn push(&mut self, kept: KeptEvent) -> Result<(), Limit>
        requires short { FitsIn [] kept }
        ensures ok { OnOk result (self.new.items ≡ self.old.items ++ event_in [] kept ∷ []) }
        ensures room { OnOk result (length self.old.items < most_events) }
        ensures err { IfErr result (IsRefused self.old.items) }
    {
        self.find_room()?;
        match self.events.push(kept) {
            Ok(()) => Ok(()),
            Err(_) => Err(Limit::Memory),
        }
    }

    /// Adds that many ticks. A full log is refused before memory is asked for.
    pub(crate) fn push_ticks(&mut self, count: TickCount) -> Result<(), Limit>
        ensures ok { OnOk result (self.new.items ≡ self.old.items ++ event.Ticks count ∷ []) }
        ensures room { OnOk result (length self.old.items < most_events) }
        ensures err { IfErr result (IsRefused self.old.items) }
    {
        self.push(KeptEvent::Ticks(count))
    }

    /// Adds a frame. A full log is refused before memory is asked for.
    #[inline(always)]
    pub(crate) fn push_frame(
        &mut self,
        addressing: Addressing,
        frame: &FrameText,
    ) -> Result<(), Limit>
        ensures ok { OnOk result (self.new.items ≡ self.old.items ++ addressed addressing frame.now.bytes ∷ []) }
        ensures room { OnOk result (length self.old.items < most_events) }
        ensures err { IfErr result (IsRefused self.old.items) }
    {
        if frame.is_long() {
            return self.push_long(addressing, frame);
        }
        match addressing {
            Addressing::Physical => self.push(KeptEvent::Physical(frame.bytes())),
            Addressing::Functional => self.push(KeptEvent::Functional(frame.bytes())),
        }
    }

    /// Adds a frame of more than 8 bytes, by its digits.
    #[inline(always)]
    fn push_long(&mut self, addressing: Addressing, frame: &FrameText) -> Result<(), Limit>
        requires long { 8 < length frame.now.bytes }
        ensures ok { OnOk result (self.new.items ≡ self.old.items ++ addressed addressing frame.now.bytes ∷ []) }
        ensures room { OnOk result (length self.old.items < most_events) }
        ensures err { IfErr result (IsRefused self.old.items) }
    {
        self.find_room()?;
        match self.add_digits(addressing, frame.digits()) {
            Ok(()) => Ok(()),
            Err(_) => Err(Limit::Memory),
        }
    }

    /// The same of these digits, where there is room for the event.
    #[cold]
    #[inline(never)]
    fn add_digits(&mut self, addressing: Addressing, digits: &[u8]) -> Result<(), AllocError>
        requires room { length self.old.items < most_events }
        requires hex { IsOk (decode_of digits.now) }
        requires long { (bytes : List ℕ) → decode_of digits.now ≡ Ok bytes → 8 < length bytes }
        requires few { length digits.now ≤ 128 }
        ensures { OnOk result ((bytes : List ℕ) → decode_of digits.now ≡ Ok bytes
            → self.new.items ≡ self.old.items ++ addressed addressing bytes ∷ []) }
    {
        let mut bytes = FdBytes::new();
        bytes.set_digits(digits);
        self.add_long(addressing, bytes.as_slice())
    }

    /// The same of these bytes.
    fn add_long(&mut self, addressing: Addressing, bytes: &[u8]) -> Result<(), AllocError>
        requires room { length self.old.items < most_events }
        requires long { 8 < length bytes.now }
        requires few { length bytes.now ≤ 64 }
        ensures { OnOk result (self.new.items ≡ self.old.items ++ addressed addressing bytes.now ∷ []) }
    {
        self.events.reserve(1)?;
        let from = self.long.len();
        self.long.extend_from_slice(bytes)?;
        self.events.push_reserved(KeptEvent::Long(LongFrame {
            addressing,
            from: from as u32,
            len: bytes.len() as u8,
        }));
        Ok(())
    }

    /// How many there are.
    #[inline(always)]
    pub fn len(&self) -> usize
        ensures count { result ≡ length self.now.items }
        ensures few { result ≤ most_events }
    {
        self.events.len()
    }

    /// The event at this index, from 0.
    #[inline(always)]
    pub fn get(&self, index: usize) -> LentEvent<'_>
        requires { index < length self.now.items }
        ensures { slice_get self.now.items index ≡ Some result }
    {
        match &self.events[index] {
            KeptEvent::Physical(bytes) => LentEvent::physical(LentBytes::short(bytes)),
            KeptEvent::Functional(bytes) => LentEvent::functional(LentBytes::short(bytes)),
            KeptEvent::Ticks(count) => LentEvent::ticks(*count),
            KeptEvent::Long(frame) => {
                let from = frame.from as usize;
                let bytes = &self.long[from..from + usize::from(frame.len)];
                frame.addressing.event(LentBytes::long(bytes))
            }
        }
    }
}
