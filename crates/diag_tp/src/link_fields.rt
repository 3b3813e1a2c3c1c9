//! What a link does with an event, field by field: the histories that it stands for come in at its public calls.

ghost use Rattle.std.specs.Prelude.{◌≡◌, ◌↔◌, ◌≤◌, ◌+◌, [], ◌∷◌, length, if◌then◌else◌, is_some, Some, min, max, None, option_and_then, IfSome, IsNone, IsSome, IfNone, IfOk, OnErr, OnOk, IsTrue, ◌⊎◌, ◌<◌, true, false};
ghost use Rattle.diag_can.specs.Event.{Event as AnEvent};
ghost use Rattle.diag_pdu.specs.Request.{request_of};
ghost use Rattle.diag_pdu.specs.Cut.{cut};
ghost use Rattle.diag_pdu.specs.Kind.{Single, kind, says, IsRead, single_only, room_to_begin, needed_for};
ghost use Rattle.diag_tp.specs.Gives.{is_request};
ghost use Rattle.diag_sides.specs.Sender.{settled};
ghost use Rattle.diag_tp.specs.Kept.{sender_event, sender_frame, sender_ticks};
ghost use Rattle.diag_sides.specs.Receiver.{open_after, completed_by, granted_by, ticks_later, ask_of};
ghost use Rattle.diag_tp.specs.State.{due};
ghost use Rattle.diag_tp.specs.Taken.{IsTaken, FitsIn, LacksFor, LacksMemory, asked_in, left_in, left_of_kind, once_settled};
ghost use Rattle.diag_sides.specs.Quiet.{reception_quiet, sender_quiet, reception_later, current_later};
ghost use Rattle.diag_tp.specs.Link.{is_frame, last_tick, pending, quiet, view_later, needed, peek_needs, asked_of, partial_after, grant_after, step_after, IsReadHere, IsIdle};

use crate::link::Link;
use crate::taken::Taken;
use diag_can::{EventKind, FrameBytes, LentBytes, LentEvent};
use diag_pdu::{FramePlace, Message, Pci, Request, lone_frame};
use std::alloc::AllocError;

impl Link {
    /// The bytes of the next frame, made in this place: flow control goes first.
    #[inline(always)]
    pub(crate) fn next_bytes<P: FramePlace>(&mut self, place: &mut P) -> Option<P::Made>
        requires fits { P.is_for self.old.state.setup.framing }
        ensures some { IfSome result (λ frame.
            due self.old.state ≡ P.bytes place.new frame ∷ due self.new.state) }
        ensures none { IsNone result ↔ (due self.old.state ≡ []) }
        ensures same { IfNone result (self.new ≡ self.old) }
        ensures place { IfNone result (place.new ≡ place.old) }
        ensures left { (settled self.new.state.setup self.new.state.sender).left
            ≡ (settled self.old.state.setup self.old.state.sender).left }
        ensures partial { self.new.state.partial ≡ self.old.state.partial }
        ensures room { self.new.room ≡ self.old.room }
        ensures reply_room { self.old.reply_room ≤ self.new.reply_room }
        ensures setup { self.new.state.setup ≡ self.old.state.setup }
        ensures now { self.new.state.now ≡ self.old.state.now }
    {
        if self.grant.is_some() {
            let grant = self.grant.take()?;
            return Some(place.put_short(grant));
        }
        self.sender.next_frame(&self.setup, place)
    }

    /// The bytes of a reply's frame, where it has a single one and nothing else is to be sent.
    #[inline(always)]
    pub(crate) fn lone_bytes(&self, message: &Message) -> Option<FrameBytes>
        ensures some { IfSome result (λ bytes.
            cut self.now.state.setup.framing message.now ≡ bytes ∷ []) }
        ensures found { IsSome result
            ↔ (IsIdle self.now.state × (length message.now ≤ 7)) }
    {
        if self.grant.is_none() && self.sender.is_free() {
            return lone_frame(message, &self.setup.framing);
        }
        None
    }

    /// Whether neither flow control nor a frame of a message is due.
    #[tactic(auto, using(crate::proofs::Views::drained_iff))]
    #[inline(always)]
    pub(crate) fn has_none_due(&self) -> bool
        ensures { IsTrue result ↔ (length (due self.now.state) ≡ 0) }
    {
        self.grant.is_none() && self.sender.is_drained()
    }

    /// What a frame is to this side.
    #[inline(always)]
    fn read<'f>(&self, frame: &LentBytes<'f>) -> Pci<'f>
        ensures kind { says result ≡ kind frame.now self.now.state.setup.max_request }
        ensures read { IsRead self.now.state.setup.max_request (says result) }
    {
        Pci::read(frame.as_slice(), self.setup.max_request)
    }

    /// Whether the event completes a request, from the fields.
    pub(crate) fn gives_request(&self, event: &LentEvent<'_>) -> bool
        ensures value { result
            ≡ is_request (step_after self.now.state.setup self.now.state.partial event.now) }
        ensures ticks { IsTrue result → IsTrue (is_frame event.now) }
    {
        match event.kind() {
            EventKind::Physical(bytes) => match self.read(&bytes) {
                Pci::Single(_) => true,
                Pci::Consecutive {
                    sequence_number,
                    part,
                } => self.receiver.completes(sequence_number, part),
                _ => false,
            },
            EventKind::Functional(bytes) => matches!(self.read(&bytes), Pci::Single(_)),
            EventKind::Ticks(_) => false,
        }
    }

    /// What feeding this event would answer, from the fields.
    pub(crate) fn peek_request(&self, event: &LentEvent<'_>) -> Result<Option<Request>, AllocError>
        requires frame { IsTrue (is_frame event.now) }
        ensures ok { IfOk result (λ request.
            asked_of request ≡ step_after self.now.state.setup self.now.state.partial event.now) }
        ensures err { OnErr result (IsTrue (peek_needs self.now.state event.now)) }
    {
        match event.kind() {
            EventKind::Physical(bytes) => Ok(asked(false, self.receiver.peek(self.read(&bytes))?)),
            EventKind::Functional(bytes) => match self.read(&bytes) {
                Pci::Single(payload) => { Ok(asked(true, Some(Message::of(self.alloc, payload)?))) }
                _ => Ok(None),
            },
            EventKind::Ticks(_) => Ok(None),
        }
    }

    /// Reads a frame and makes room for it, from the fields.
    #[inline(always)]
    pub(crate) fn take_up<'f>(&mut self, event: &LentEvent<'f>) -> Result<Taken<'f>, AllocError>
        requires frame { IsTrue (is_frame event.now) }
        ensures same { self.new.state ≡ self.old.state }
        ensures room { OnOk result (0 < self.new.reply_room) }
        ensures err { OnErr result (LacksMemory self.old event.now ⊎ (self.old.reply_room ≡ 0)) }
        ensures request { IfOk result (λ taken. asked_of (asked_in self.new taken)
            ≡ step_after self.old.state.setup self.old.state.partial event.now) }
        ensures taken { IfOk result (λ taken. IsTaken self.old.state event.now taken) }
        ensures fits { IfOk result (λ taken. FitsIn self.new taken) }
        ensures kept { self.old.room ≤ self.new.room }
        ensures reply_kept { self.old.reply_room ≤ self.new.reply_room }
    {
        self.sender.make_room()?;
        match event.kind() {
            EventKind::Physical(bytes) => {
                let pci = self.read(&bytes);
                self.take_up_own(&bytes, pci)
            }
            EventKind::Functional(bytes) => match self.read(&bytes) {
                Pci::Single(payload) => {
                    self.note(true, &bytes, payload)?;
                    Ok(Taken::Functional)
                }
                _ => Ok(Taken::Ignored),
            },
            EventKind::Ticks(_) => unreachable!(),
        }
    }

    /// Makes room for the message of a frame with the tester's own identifier, and notes or stages what it completes.
    #[tactic(auto, using(crate::proofs::Takings::taken_other))]
    #[inline(always)]
    fn take_up_own<'f>(
        &mut self,
        bytes: &LentBytes<'f>,
        pci: Pci<'f>,
    ) -> Result<Taken<'f>, AllocError>
        requires kind { says pci ≡ kind bytes.now self.old.state.setup.max_request }
        requires read { IsRead self.old.state.setup.max_request (says pci) }
        ensures same { self.new.state ≡ self.old.state }
        ensures err { OnErr result (LacksFor self.old.room (says pci.entry)) }
        ensures request { IfOk result (λ taken. asked_in self.new taken
            ≡ ask_of false (completed_by self.old.state.partial (says pci.entry))) }
        ensures taken { IfOk result (λ taken. left_in taken
            ≡ left_of_kind self.old.state.partial (says pci.entry)) }
        ensures fits { IfOk result (λ taken. FitsIn self.new taken) }
        ensures kept { self.old.room ≤ self.new.room }
        ensures reply_room { self.new.reply_room ≡ self.old.reply_room }
    {
        if let Pci::Single(payload) = pci {
            self.note(false, bytes, payload)?;
            return Ok(Taken::Single);
        }
        match pci {
            Pci::First { len, .. } => self.receiver.reserve(len)?,
            Pci::Consecutive {
                sequence_number,
                part,
            } if self.receiver.stage(sequence_number, part) => return Ok(Taken::Last),
            _ => {}
        }
        Ok(Taken::Other(pci))
    }

    /// Makes room for the message of a frame: a FirstFrame of the tester's own identifier needs some, and a SingleFrame of
    /// more than 8 bytes.
    #[inline(always)]
    pub(crate) fn make_room_for(&mut self, event: &LentEvent<'_>) -> Result<(), AllocError>
        ensures ok { OnOk result (needed self.new.state.setup event.now ≤ self.new.room) }
        ensures err { OnErr result (self.old.room < needed self.old.state.setup event.now) }
        ensures read { IsReadHere self.new.state.setup event.now }
        ensures kept { self.old.room ≤ self.new.room }
        ensures same { self.new.state ≡ self.old.state }
        ensures reply_room { self.new.reply_room ≡ self.old.reply_room }
    {
        match event.kind() {
            EventKind::Physical(bytes) => match self.read(&bytes) {
                Pci::First { len, .. } => self.receiver.reserve(len),
                pci => self.make_room_for_single(pci),
            },
            EventKind::Functional(bytes) => self.make_room_for_single(self.read(&bytes)),
            EventKind::Ticks(_) => Ok(()),
        }
    }

    /// Makes room for the message of a SingleFrame: one of up to 8 bytes needs none.
    #[inline(always)]
    fn make_room_for_single(&mut self, pci: Pci<'_>) -> Result<(), AllocError>
        requires read { IsRead 65535 (says pci) }
        ensures ok { OnOk result (needed_for (single_only (says pci.entry)) ≤ self.new.room) }
        ensures err { OnErr result (self.old.room < needed_for (single_only (says pci.entry))) }
        ensures kept { self.old.room ≤ self.new.room }
        ensures same { self.new.state ≡ self.old.state }
        ensures reply_room { self.new.reply_room ≡ self.old.reply_room }
    {
        match pci {
            Pci::Single(payload) if payload.len() > 8 => {
                self.receiver.reserve(payload.len() as u16)
            }
            _ => Ok(()),
        }
    }

    /// Notes the request of a SingleFrame, in the place of the one before. Those of a classic frame are moved together.
    #[tactic(auto, using(crate::proofs::Takings::payload_inside, crate::proofs::Takings::payload_same))]
    #[inline(always)]
    fn note(
        &mut self,
        functional: bool,
        frame: &LentBytes<'_>,
        payload: &[u8],
    ) -> Result<(), AllocError>
        requires single { kind frame.now self.old.state.setup.max_request ≡ Single payload.now }
        requires some { 1 ≤ length payload.now }
        requires few { length payload.now ≤ 62 }
        ensures noted { OnOk result (self.new.noted ≡ request_of functional payload.now) }
        ensures err { OnErr result (8 < length payload.now) }
        ensures same { self.new.state ≡ self.old.state }
        ensures room { self.new.room ≡ self.old.room }
        ensures reply_room { self.new.reply_room ≡ self.old.reply_room }
    {
        let message = &mut self.noted.message;
        if frame.as_slice().len() <= 8 {
            message.set_in_place(frame.part(1, payload.len()));
        } else {
            message.set(self.alloc, payload)?;
        }
        self.noted.functional = functional;
        Ok(())
    }

    /// Takes what is left of a frame, field by field.
    #[inline(always)]
    pub(crate) fn finish(&mut self, taken: Taken<'_>)
        requires fits { FitsIn self.old taken }
        ensures state { self.new.state ≡ once_settled taken.entry self.old.state }
        ensures reply_room { self.new.reply_room ≡ self.old.reply_room }
    {
        match taken {
            Taken::Functional | Taken::Ignored => self.grant = None,
            Taken::Single | Taken::Last => {
                self.receiver.end();
                self.grant = None;
            }
            Taken::Other(pci) => self.take_pci(pci),
        }
    }

    /// Takes a frame, field by field.
    pub(crate) fn receive(&mut self, event: &LentEvent<'_>) -> Option<Request>
        requires frame { IsTrue (is_frame event.now) }
        requires room { needed self.old.state.setup event.now ≤ self.old.room }
        ensures answer { asked_of result
            ≡ step_after self.old.state.setup self.old.state.partial event.now }
        ensures read { IsReadHere self.old.state.setup event.now }
        ensures partial { self.new.state.partial
            ≡ partial_after self.old.state.setup self.old.state.partial event.now }
        ensures grant { self.old.state.grant ≡ None
            → self.new.state.grant
            ≡ grant_after self.old.state.setup self.old.state.partial event.now }
        ensures reply_room { self.new.reply_room ≡ self.old.reply_room }
        ensures setup { self.new.state.setup ≡ self.old.state.setup }
        ensures now { self.new.state.now ≡ self.old.state.now }
        ensures sender { self.new.state.sender ≡ sender_event self.old.state.setup
            event.now self.old.state.sender.current self.old.state.sender.waiting }
    {
        match event.kind() {
            EventKind::Physical(bytes) => {
                let pci = self.read(&bytes);
                let message = self.receiver.complete(pci);
                self.take_pci(pci);
                asked(false, message)
            }
            EventKind::Functional(bytes) => match self.read(&bytes) {
                Pci::Single(payload) => asked(true, Some(self.receiver.single(payload))),
                _ => None,
            },
            EventKind::Ticks(_) => None,
        }
    }

    /// Takes a frame of this kind with the tester's own identifier, whose message, if any, was handed over.
    #[inline(always)]
    fn take_pci(&mut self, pci: Pci<'_>)
        requires read { IsRead self.old.state.setup.max_request (says pci) }
        requires room { room_to_begin (says pci) ≤ self.old.room }
        ensures partial { self.new.state.partial
            ≡ open_after self.old.state.partial (says pci.entry) }
        ensures grant { self.new.state.grant
            ≡ granted_by self.old.state.setup self.old.state.partial (says pci.entry) }
        ensures reply_room { self.new.reply_room ≡ self.old.reply_room }
        ensures setup { self.new.state.setup ≡ self.old.state.setup }
        ensures now { self.new.state.now ≡ self.old.state.now }
        ensures sender { self.new.state.sender
            ≡ sender_frame self.old.state.setup (says pci.entry)
            self.old.state.sender.current self.old.state.sender.waiting }
    {
        if let Pci::FlowControl {
            flow_status,
            block_size,
            st_min,
        } = pci
        {
            self.sender
                .flow(&self.setup, flow_status, block_size, st_min);
        }
        // (each in its arm: where there is none, no bytes are copied)
        match self.receiver.take(&self.setup, pci) {
            Some(frame) => self.grant = Some(frame),
            None => self.grant = None,
        }
    }

    /// So many ticks, before the last of which nothing falls due.
    #[inline(always)]
    pub(crate) fn pass(&mut self, count: u16)
        ensures partial { self.new.state.partial
            ≡ option_and_then (ticks_later self.old.state.setup.n_cr count) self.old.state.partial }
        ensures grant { self.new.state.grant ≡ self.old.state.grant }
        ensures sender { self.new.state.sender
            ≡ sender_ticks self.old.state.setup count
            self.old.state.sender.current self.old.state.sender.waiting }
        ensures room { self.old.room ≤ self.new.room }
        ensures reply_room { self.new.reply_room ≡ self.old.reply_room }
        ensures setup { self.new.state.setup ≡ self.old.state.setup }
        ensures now { self.new.state.now ≡ min (self.old.state.now + count) last_tick }
        ensures later { self.old.state.now ≤ self.new.state.now }
    {
        self.ticks = self.ticks.saturating_add(u64::from(count));
        self.receiver.pass(self.setup.n_cr.get(), count);
        self.sender.pass(&self.setup, count);
    }

    /// So many ticks, in which nothing falls due and nothing ends.
    #[tactic(auto, using(crate::proofs::Silence::quiet_drained), unfolding(crate::specs::Link::quiet_later))]
    #[inline(always)]
    pub(crate) fn pass_quietly(&mut self, count: u64)
        requires drained { pending self.old.state ≡ 0 }
        requires quiet { count < quiet self.old.state }
        ensures { self.new ≡ view_later count self.old }
    {
        let n_cr = self.setup.n_cr.get();
        prove!(n_cr <= 60000);
        let ticks = &mut self.ticks;
        *ticks = ticks.saturating_add(count);
        self.receiver.pass_quietly(count);
        self.sender.pass_quietly(count);
    }
}

/// The request of this message, if there is one.
fn asked(functional: bool, message: Option<Message>) -> Option<Request>
    ensures { result ≡ ask_of functional message }
{
    Some(Request {
        functional,
        message: message?,
    })
}
