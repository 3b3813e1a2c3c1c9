//! Replies that wait for the sender.

ghost use Rattle.std.specs.Prelude.{
  ◌≡◌,
  ◌<◌,
  ◌≤◌,
  ◌+◌,
  ◌*◌,
  [],
  ◌∷◌,
  ◌++◌,
  length,
  sum_by,
  OnErr,
  OnOk,
  IfSome,
  IfNone,
  IsTrue,
  ◌↔◌,
};
ghost use Rattle.diag_pdu.specs.declared.setup.LinkSetup.{LinkSetup as ALinkSetup};
ghost use Rattle.diag_pdu.specs.Cut.{frames_of};
ghost use Rattle.diag_sides.specs.Queue.{most_waiting};
ghost use Rattle.diag_sides.specs.Sender.{started};

use diag_pdu::{DataLength, Message, frames_of, single_most};
use std::alloc::{AllocError, Global};
use std::collections::VecDeque;
use std::marker::Model;

/// How many replies a queue holds at most. Each has fewer than 10000 frames, so that a `u64` counts the frames of all.
const MOST_WAITING: usize = 1 << 40;

/// Replies that wait, in order.
#[derive(Drop)]
pub(crate) struct Queue {
    replies: VecDeque<Message>,
    /// How long their frames are.
    tx_dl: DataLength,
    /// How many frames the replies have.
    frames: u64,
}

impl Model for Queue {
    ghost use Rattle.std.specs.Prelude.{◌≡◌, ◌≤◌, ◌-◌, length, sum_by, min, All};
    ghost use Rattle.std.specs.VecDeque.{deque_len, deque_capacity};
    ghost use Rattle.diag_pdu.specs.Cut.{frames_of};
    ghost use Rattle.diag_sides.specs.Queue.{QueueState, most_waiting};

    ghost Value = { QueueState };

    ghost view = { λ a. record {
      replies = a.replies.items;
      tx_dl = a.tx_dl;
      room = min (deque_capacity a.replies) most_waiting - deque_len a.replies;
    } };

    ghost invariant = { λ a.
        (a.frames ≡ sum_by (frames_of a.tx_dl) a.replies.items)
        × All (λ P. frames_of a.tx_dl P ≤ 10000) a.replies.items
        × (length a.replies.items ≤ most_waiting) };
}

impl Queue {
    /// No replies.
    pub(crate) fn new(alloc: Global, tx_dl: DataLength) -> Queue
        ensures none { result.replies ≡ [] }
        ensures tx_dl { result.tx_dl ≡ tx_dl }
    {
        Queue {
            replies: VecDeque::new(alloc),
            tx_dl,
            frames: 0,
        }
    }

    /// Makes room for one more reply. Refused where memory is, and where the queue is full. Nearly always there is room.
    #[inline(always)]
    pub(crate) fn make_room(&mut self) -> Result<(), AllocError>
        ensures ok { OnOk result (0 < self.new.room) }
        ensures err { OnErr result (self.old.room ≡ 0) }
        ensures kept { self.old.room ≤ self.new.room }
        ensures same { self.new.replies ≡ self.old.replies }
        ensures tx_dl { self.new.tx_dl ≡ self.old.tx_dl }
    {
        if self.replies.len() < self.replies.capacity().min(MOST_WAITING) {
            return Ok(());
        }
        self.grow()
    }

    /// The same where there is none.
    #[inline(never)]
    fn grow(&mut self) -> Result<(), AllocError>
        ensures ok { OnOk result (0 < self.new.room) }
        ensures kept { self.old.room ≤ self.new.room }
        ensures same { self.new.replies ≡ self.old.replies }
        ensures tx_dl { self.new.tx_dl ≡ self.old.tx_dl }
    {
        if self.replies.len() >= MOST_WAITING {
            return Err(AllocError);
        }
        self.replies.reserve(1)
    }

    /// Makes room for so many more replies. Refused where memory is, and where so many more can't wait.
    pub(crate) fn make_rooms(&mut self, count: usize) -> Result<(), AllocError>
        ensures ok { OnOk result (count ≤ self.new.room) }
        ensures err { OnErr result (self.old.room < count) }
        ensures kept { self.old.room ≤ self.new.room }
        ensures same { self.new.replies ≡ self.old.replies }
        ensures tx_dl { self.new.tx_dl ≡ self.old.tx_dl }
    {
        let len = self.replies.len();
        if count
            <= self
                .replies
                .capacity()
                .min(MOST_WAITING)
                .saturating_sub(len)
        {
            return Ok(());
        }
        if count > MOST_WAITING.saturating_sub(len) {
            return Err(AllocError);
        }
        self.replies.reserve(count)
    }

    /// Adds a reply.
    pub(crate) fn push(&mut self, message: Message)
        requires room { 0 < self.old.room }
        ensures added { self.new.replies ≡ self.old.replies ++ message ∷ [] }
        ensures room { self.old.room ≤ self.new.room + 1 }
        ensures tx_dl { self.new.tx_dl ≡ self.old.tx_dl }
    {
        let frames = frames_of(self.tx_dl, &message);
        self.replies.push_back_reserved(message);
        self.frames += u64::from(frames);
    }

    /// Takes the first reply.
    pub(crate) fn pop(&mut self) -> Option<Message>
        ensures some { IfSome result (λ message. self.old.replies ≡ message ∷ self.new.replies) }
        ensures none { IfNone result ((self.old.replies ≡ []) × (self.new ≡ self.old)) }
        ensures room { self.old.room ≤ self.new.room }
        ensures tx_dl { self.new.tx_dl ≡ self.old.tx_dl }
    {
        let message = self.replies.pop_front()?;
        self.frames -= u64::from(frames_of(self.tx_dl, &message));
        Some(message)
    }

    /// How many replies there are.
    #[inline(always)]
    pub(crate) fn len(&self) -> usize
        ensures { result ≡ length self.now.replies }
    {
        self.replies.len()
    }

    /// Whether there is none.
    #[inline(always)]
    pub(crate) fn is_empty(&self) -> bool
        ensures { IsTrue result ↔ (self.now.replies ≡ []) }
    {
        self.replies.is_empty()
    }

    /// How many still wait where the first begins, and after one of a single frame the next. It looks at each reply up to
    /// the first longer one.
    pub(crate) fn still_waiting(&self) -> usize
        ensures { (s : ALinkSetup) → s.framing.tx_dl ≡ self.now.tx_dl
            → result ≡ length (started s self.now.replies).left.waiting }
    {
        let len = self.replies.len();
        let most = usize::from(single_most(self.tx_dl));
        for first in 0..len {
            if self.replies[first].bytes().len() > most {
                return len - first - 1;
            }
        }
        0
    }

    /// How many frames the replies have.
    #[inline(always)]
    pub(crate) fn frames(&self) -> u64
        ensures count { result ≡ sum_by (frames_of self.now.tx_dl) self.now.replies }
        ensures few { result ≤ 10000 * most_waiting }
    {
        self.frames
    }
}
