//! The sending side of a link: one reply after another (ISO 15765-2:2016, 9.2 and 9.3).

ghost use Rattle.std.specs.Prelude.{
  ◌≡◌,
  ◌<◌,
  ◌≤◌,
  ◌+◌,
  ◌-◌,
  ◌↔◌,
  [],
  ◌∷◌,
  length,
  sum_by,
  Some,
  None,
  OnErr,
  OnOk,
  IfSome,
  IfNone,
  IsNone,
  IsSome,
  IsTrue,
};
ghost use Rattle.diag_pdu.specs.declared.setup.LinkSetup.{LinkSetup as ALinkSetup};
ghost use Rattle.diag_sides.specs.Block.{is_in_block};
ghost use Rattle.diag_sides.specs.Quiet.{sender_quiet, current_later};
ghost use Rattle.diag_sides.specs.Flow.{flow_decision};
ghost use Rattle.diag_pdu.specs.Cut.{frames_of};
ghost use Rattle.diag_sides.specs.Sender.{fields_left, IsSound, settled_in, replied, before_these, IsNextFrame, goes_on_from, ticked_fields, flowed_fields};

use crate::queue::Queue;
use crate::sending::{Phase, Sending};
use diag_pdu::{FramePlace, Framing, LinkSetup, Message};
use std::alloc::{AllocError, Global};
use std::marker::Model;

/// The sending side of a link.
#[derive(Drop)]
pub struct Sender {
    current: Option<Sending>,
    waiting: Queue,
    framing: Framing,
}

impl Model for Sender {
    ghost use Rattle.std.specs.Prelude.{◌≡◌, IfSome};
    ghost use Rattle.diag_sides.specs.Sender.{SenderFields, IsSound};

    ghost Value = { SenderFields };

    ghost view = { λ a. record {
      current = a.current;
      waiting = a.waiting.replies;
      room = a.waiting.room;
      framing = a.framing;
    } };

    ghost invariant = { λ a. IfSome a.current (λ c. IsSound a.framing.tx_dl c)
        × (a.waiting.tx_dl ≡ a.framing.tx_dl) };
}

impl Sender {
    /// A sender without messages, which makes frames so.
    pub fn new(alloc: Global, framing: Framing) -> Sender
        ensures current { result.current ≡ None }
        ensures waiting { result.waiting ≡ [] }
        ensures framing { result.framing ≡ framing }
    {
        Sender {
            current: None,
            waiting: Queue::new(alloc, framing.tx_dl),
            framing,
        }
    }

    /// Makes room for one more reply.
    ///
    /// # Errors
    /// `AllocError` where there is none, and memory is refused or the queue is full; the replies stay.
    #[inline(always)]
    pub fn make_room(&mut self) -> Result<(), AllocError>
        ensures ok { OnOk result (0 < self.new.room) }
        ensures err { OnErr result (self.old.room ≡ 0) }
        ensures kept { self.old.room ≤ self.new.room }
        ensures current { self.new.current ≡ self.old.current }
        ensures waiting { self.new.waiting ≡ self.old.waiting }
        ensures framing { self.new.framing ≡ self.old.framing }
    {
        self.waiting.make_room()
    }

    /// Makes room for so many more replies.
    ///
    /// # Errors
    /// `AllocError` where there is less, and memory is refused or so many more can't wait; the replies stay.
    pub fn make_rooms(&mut self, count: usize) -> Result<(), AllocError>
        ensures ok { OnOk result (count ≤ self.new.room) }
        ensures err { OnErr result (self.old.room < count) }
        ensures kept { self.old.room ≤ self.new.room }
        ensures current { self.new.current ≡ self.old.current }
        ensures waiting { self.new.waiting ≡ self.old.waiting }
        ensures framing { self.new.framing ≡ self.old.framing }
    {
        self.waiting.make_rooms(count)
    }

    /// Places a reply: it begins where the sender is free, and waits otherwise.
    #[tactic(auto, using(crate::proofs::Settled::settled_reply))]
    pub fn answer(&mut self, setup: &LinkSetup, message: Message)
        requires room { 0 < self.old.room }
        ensures room { self.old.room ≤ self.new.room + 1 }
        ensures framing { self.new.framing ≡ self.old.framing }
        ensures settled { settled_in setup.now self.new.current self.new.waiting
            ≡ replied setup.now message
            (settled_in setup.now self.old.current self.old.waiting) }
    {
        if self.is_free() {
            self.current = Some(Sending::begun(setup, message));
        } else {
            self.waiting.push(message);
        }
    }

    /// Whether there is no message, neither one that is being sent nor one that waits.
    #[inline(always)]
    pub fn is_free(&self) -> bool
        ensures { IsTrue result ↔ ((self.now.current ≡ None) × (self.now.waiting ≡ [])) }
    {
        self.current.is_none() && self.waiting.is_empty()
    }

    /// The current message is over.
    #[inline(never)]
    fn end(&mut self)
        ensures current { self.new.current ≡ None }
        ensures waiting { self.new.waiting ≡ self.old.waiting }
        ensures room { self.new.room ≡ self.old.room }
        ensures framing { self.new.framing ≡ self.old.framing }
    {
        self.current = None;
    }

    /// So many ticks, before the last of which nothing falls due.
    #[inline(always)]
    pub fn pass(&mut self, setup: &LinkSetup, count: u16)
        ensures current { self.new.current ≡ ticked_fields setup.now count self.old.current }
        ensures waiting { self.new.waiting ≡ self.old.waiting }
        ensures room { self.new.room ≡ self.old.room }
        ensures framing { self.new.framing ≡ self.old.framing }
    {
        if let Some(sending) = &mut self.current
            && !sending.tick(setup, count)
        {
            self.end();
        }
    }

    /// A flow control frame.
    pub fn flow(&mut self, setup: &LinkSetup, flow_status: u8, block_size: u8, st_min: u8)
        requires framing { setup.now.framing ≡ self.old.framing }
        ensures current { self.new.current
            ≡ flowed_fields setup.now (flow_decision flow_status block_size st_min) self.old.current }
        ensures waiting { self.new.waiting ≡ self.old.waiting }
        ensures room { self.new.room ≡ self.old.room }
        ensures framing { self.new.framing ≡ self.old.framing }
    {
        if let Some(sending) = &mut self.current
            && !sending.decide(setup, flow_status, block_size, st_min)
        {
            self.end();
        }
    }

    /// The next frame that is due, made in this place.
    #[tactic(auto, using(crate::proofs::Settled::settled_next, crate::proofs::Settled::drained_fields, crate::proofs::Settled::fields_drained))]
    pub fn next_frame<P: FramePlace>(&mut self, setup: &LinkSetup, place: &mut P) -> Option<P::Made>
        requires framing { setup.now.framing ≡ self.old.framing }
        requires fits { P.is_for setup.now.framing }
        ensures some { IfSome result (λ frame.
            settled_in setup.now self.old.current self.old.waiting
            ≡ before_these (P.bytes place.new frame ∷ [])
            (settled_in setup.now self.new.current self.new.waiting)) }
        ensures none { IsNone result
            ↔ ((settled_in setup.now self.old.current self.old.waiting).due ≡ []) }
        ensures same { IfNone result (self.new ≡ self.old) }
        ensures place { IfNone result (place.new ≡ place.old) }
        ensures room { self.old.room ≤ self.new.room }
        ensures framing { self.new.framing ≡ self.old.framing }
    {
        self.take_frame(setup, place)
    }

    /// The next frame that is due, field by field.
    fn take_frame<P: FramePlace>(&mut self, setup: &LinkSetup, place: &mut P) -> Option<P::Made>
        requires framing { setup.now.framing ≡ self.old.framing }
        requires fits { P.is_for setup.now.framing }
        ensures sound { IfSome self.old.current (λ c. IsSound setup.now.framing.tx_dl c) }
        ensures some { IfSome result (λ frame.
            IsNextFrame setup.now self.old self.new (P.bytes place.new frame)) }
        ensures none { IsNone result
            ↔ (IfSome self.old.current (λ c. c.due ≡ 0)
            × (self.old.current ≡ None → self.old.waiting ≡ [])) }
        ensures same { IfNone result (self.new ≡ self.old) }
        ensures place { IfNone result (place.new ≡ place.old) }
        ensures room { self.old.room ≤ self.new.room }
        ensures framing { self.new.framing ≡ self.old.framing }
    {
        if self.current.is_none() {
            let Some(message) = self.waiting.pop() else {
                return None;
            };
            self.current = Some(Sending::begun(setup, message));
        }
        self.current_frame(setup, place)
    }

    /// The next frame of the current message, if one is due.
    fn current_frame<P: FramePlace>(&mut self, setup: &LinkSetup, place: &mut P) -> Option<P::Made>
        requires framing { setup.now.framing ≡ self.old.framing }
        requires fits { P.is_for setup.now.framing }
        ensures sound { IfSome self.old.current (λ c. IsSound setup.now.framing.tx_dl c) }
        ensures some { IfSome result (λ frame. IfSome self.old.current (λ c.
            goes_on_from setup.now c self.old.waiting self.new (P.bytes place.new frame))) }
        ensures none { IsNone result ↔ IfSome self.old.current (λ c. c.due ≡ 0) }
        ensures same { IfNone result (self.new ≡ self.old) }
        ensures place { IfNone result (place.new ≡ place.old) }
        ensures found { IfSome result (λ _. IsSome self.old.current) }
        ensures room { self.new.room ≡ self.old.room }
        ensures framing { self.new.framing ≡ self.old.framing }
    {
        let sending = self.current.as_mut()?;
        if sending.due == 0 {
            return None;
        }
        let frame = place.put(&sending.message, sending.next, &setup.framing);
        if !sending.go(P::tx_dl(&setup.framing)) {
            self.end();
        }
        Some(frame)
    }

    /// So many ticks, in which nothing happens to the current message.
    #[inline(always)]
    pub fn pass_quietly(&mut self, count: u64)
        requires few { count ≤ sender_quiet self.old.current }
        ensures current { self.new.current ≡ current_later count self.old.current }
        ensures waiting { self.new.waiting ≡ self.old.waiting }
        ensures room { self.new.room ≡ self.old.room }
        ensures framing { self.new.framing ≡ self.old.framing }
    {
        if let Some(sending) = &mut self.current {
            sending.phase.pass_quietly(count);
        }
    }

    /// In how many ticks something happens to the current message, once so many have passed; without one, in 2^64 - 1.
    #[inline(always)]
    pub fn quiet(&self, passed: u64) -> u64
        ensures ticks { result ≡ sender_quiet (current_later passed self.now.current) }
    {
        match &self.current {
            Some(sending) => u64::from(sending.phase.ticks()).saturating_sub(passed),
            None => u64::MAX,
        }
    }

    /// Whether a ConsecutiveFrame of the current message is still to go, behind its separation time.
    #[inline(always)]
    pub fn is_in_block(&self) -> bool
        ensures { result ≡ is_in_block self.now.current }
    {
        match &self.current {
            Some(sending) => matches!(sending.phase, Phase::InBlock { .. }),
            None => false,
        }
    }

    /// How many frames of the current message and of those that wait have not gone.
    #[inline(always)]
    pub fn backlog(&self) -> u64
        ensures count { result ≡ fields_left self.now.framing.tx_dl self.now.current
            + sum_by (frames_of self.now.framing.tx_dl) self.now.waiting }
    {
        let left = match &self.current {
            Some(sending) => sending.left(self.framing.tx_dl),
            None => 0,
        };
        self.waiting.frames() + u64::from(left)
    }

    /// How many replies have not begun: those that begin with a frame that is due have.
    #[tactic(auto, using(crate::proofs::Settled::settled_waits, crate::proofs::Settled::settled_begins))]
    pub fn waiting(&self) -> usize
        ensures { (s : ALinkSetup) → s.framing ≡ self.now.framing
            → result ≡ length (settled_in s self.now.current self.now.waiting).left.waiting }
    {
        match &self.current {
            Some(sending) if sending.due < sending.left(self.framing.tx_dl) => self.waiting.len(),
            _ => self.waiting.still_waiting(),
        }
    }

    /// Whether no frame is due.
    #[inline(always)]
    pub fn is_drained(&self) -> bool
        ensures sound { IfSome self.now.current (λ c. IsSound self.now.framing.tx_dl c) }
        ensures drained { IsTrue result
            ↔ (IfSome self.now.current (λ c. c.due ≡ 0)
            × (self.now.current ≡ None → self.now.waiting ≡ [])) }
    {
        match &self.current {
            Some(sending) => sending.due == 0,
            None => self.waiting.is_empty(),
        }
    }
}
