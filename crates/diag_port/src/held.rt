//! Messages that are held until they may go.

ghost use Rattle.std.specs.Prelude.{
  ◌≡◌,
  ◌<◌,
  ◌≤◌,
  ◌+◌,
  ◌-◌,
  ◌∷◌,
  [],
  ◌++◌,
  length,
  sum_by,
  OnErr,
  OnOk,
  IfSome,
  IfNone,
  IsTrue,
  false,
  ◌↔◌,
};
ghost use Rattle.diag_pdu.specs.Cut.{frames_of};
ghost use Rattle.diag_port.specs.Late.{IsDue, NoneIsDue, laters, most_pendings, pendings, pending_message};
ghost use Rattle.diag_port.specs.Held.{held_frames, until_due};
ghost use Rattle.diag_port.specs.Port.{IsEarly};

use crate::pace::Pace;
use diag_can::FrameBytes;
use diag_pdu::{DataLength, Message, frames_of};
use std::alloc::{AllocError, Global};
use std::collections::VecDeque;
use std::marker::Model;

/// How many messages are held at most. Each has fewer than 10000 frames, so that a `u64` counts the frames of all.
const MOST_HELD: usize = 1 << 40;

/// How many times *response pending* goes before an answer at most.
pub(crate) const MOST_PENDINGS: u32 = 255;

/// A message, and the time from which on it may go.
#[derive(Drop)]
pub struct Later {
    /// The time of the tester's link, in ticks.
    pub due: u64,
    /// What goes.
    pub message: Message,
}

/// Messages that are held, in the order in which they go.
#[derive(Drop)]
pub struct Held {
    messages: VecDeque<Later>,
    /// How many frames of 8 bytes they have: longer frames are no more.
    frames: u64,
}

impl Model for Held {
    ghost use Rattle.std.specs.Prelude.{◌≡◌, ◌≤◌, ◌-◌, length, sum_by, min, All};
    ghost use Rattle.std.specs.VecDeque.{deque_len, deque_capacity};
    ghost use Rattle.diag_port.specs.Held.{HeldState, frames_of_later, most_held};

    ghost Value = { HeldState };

    ghost view = { λ a. record {
      messages = a.messages.items;
      room = min (deque_capacity a.messages) most_held - deque_len a.messages;
    } };

    ghost invariant = { λ a.
        (a.frames ≡ sum_by frames_of_later a.messages.items)
        × All (λ l. frames_of_later l ≤ 10000) a.messages.items
        × (length a.messages.items ≤ most_held) };
}

impl Held {
    /// Nothing is held.
    pub fn new(alloc: Global) -> Held
        ensures { result.messages ≡ [] }
    {
        Held {
            messages: VecDeque::new(alloc),
            frames: 0,
        }
    }

    /// Makes room for so many more messages. Refused where memory is, and where so many more can't be held.
    pub fn make_room(&mut self, count: usize) -> Result<(), AllocError>
        ensures ok { OnOk result (count ≤ self.new.room) }
        ensures err { OnErr result (self.old.room < count) }
        ensures kept { self.old.room ≤ self.new.room }
        ensures same { self.new.messages ≡ self.old.messages }
    {
        let len = self.messages.len();
        if count <= self.messages.capacity().min(MOST_HELD).saturating_sub(len) {
            return Ok(());
        }
        if count > MOST_HELD.saturating_sub(len) {
            return Err(AllocError);
        }
        self.messages.reserve(count)
    }

    /// Adds a message behind the others.
    pub(crate) fn push(&mut self, due: u64, message: Message)
        requires room { 0 < self.old.room }
        ensures added { self.new.messages ≡ self.old.messages ++ record { due = due; message = message } ∷ [] }
        ensures room { self.old.room ≤ self.new.room + 1 }
    {
        let frames = frames_of(DataLength::Dl8, &message);
        self.messages.push_back_reserved(Later { due, message });
        self.frames += u64::from(frames);
    }

    /// Takes a reply out of its place, if there is one, and adds it: it goes so many ticks from now, and its *response
    /// pending* before it.
    pub(crate) fn hold_reply(
        &mut self,
        now: u64,
        pace: Pace,
        after: u32,
        sid: u8,
        reply: &mut Option<Message>,
    )
        requires room { most_pendings + 1 ≤ self.old.room }
        ensures held { IsEarly now
            → self.new.messages ≡ self.old.messages ++ laters pace now after sid reply.old }
        ensures few { length self.new.messages ≤ length self.old.messages + (most_pendings + 1) }
    {
        if let Some(message) = reply.take() {
            self.hold_pendings(now, pace, after, sid);
            self.push(now.saturating_add(u64::from(after)), message);
        }
    }

    /// Adds the *response pending* before a reply.
    fn hold_pendings(&mut self, now: u64, pace: Pace, after: u32, sid: u8)
        requires room { most_pendings ≤ self.old.room }
        ensures held { IsEarly now
            → self.new.messages ≡ self.old.messages ++ pendings pace now after sid most_pendings 0 }
        ensures few { length self.new.messages ≤ length self.old.messages + most_pendings }
        ensures room { self.old.room ≤ self.new.room + most_pendings }
    {
        for i in 0..MOST_PENDINGS {
            let wait = u64::from(pace.first) + u64::from(i) * u64::from(pace.step);
            if wait >= u64::from(after) {
                return;
            }
            self.push(now.saturating_add(wait), pending_message(sid));
        }
    }

    /// Takes the first message, where it is due.
    pub(crate) fn pop_due(&mut self, now: u64) -> Option<Later>
        ensures some { IfSome result (λ later. (self.old.messages ≡ later ∷ self.new.messages) × (later.due ≤ now)) }
        ensures none { IfNone result (NoneIsDue now self.old.messages × (self.new ≡ self.old)) }
        ensures room { self.old.room ≤ self.new.room }
    {
        if !self.is_due(now) {
            return None;
        }
        self.pop()
    }

    /// Takes the first message.
    fn pop(&mut self) -> Option<Later>
        ensures some { IfSome result (λ later. self.old.messages ≡ later ∷ self.new.messages) }
        ensures none { IfNone result ((self.old.messages ≡ []) × (self.new ≡ self.old)) }
        ensures room { self.old.room ≤ self.new.room }
    {
        let later = self.messages.pop_front()?;
        self.frames -= u64::from(frames_of(DataLength::Dl8, &later.message));
        Some(later)
    }

    /// Whether the first message is due.
    #[inline(always)]
    fn is_due(&self, now: u64) -> bool
        ensures no { result ≡ false → NoneIsDue now self.now.messages }
        ensures yes { IsTrue result → IsDue now self.now.messages }
    {
        match self.messages.front() {
            Some(later) => later.due <= now,
            None => false,
        }
    }

    /// In how many ticks the first message is due, at the earliest in one; 2^64 - 1 where nothing is held.
    #[inline(always)]
    pub(crate) fn until_due(&self, now: u64) -> u64
        ensures is { result ≡ until_due now self.now.messages }
    {
        match self.messages.front() {
            Some(later) => later.due.saturating_sub(now),
            None => u64::MAX,
        }
    }

    /// Whether nothing is held.
    #[inline(always)]
    pub fn is_empty(&self) -> bool
        ensures { IsTrue result ↔ (self.now.messages ≡ []) }
    {
        self.messages.is_empty()
    }

    /// How many messages are held.
    #[inline(always)]
    pub fn len(&self) -> usize
        ensures { result ≡ length self.now.messages }
    {
        self.messages.len()
    }

    /// How many frames of 8 bytes they have.
    #[inline(always)]
    pub fn frames(&self) -> u64
        ensures count { result ≡ held_frames self.now.messages }
    {
        self.frames
    }
}

/// *response pending* to a request of this service.
fn pending_message(sid: u8) -> Message
    ensures { result ≡ pending_message sid }
{
    Message::in_place(FrameBytes::made_of(&[0x7F, sid, 0x78]))
}
