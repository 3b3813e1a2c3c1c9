//! The unit's side to a tester, as it is heard.

ghost use Rattle.std.specs.Prelude.{◌≡◌, ◌≤◌, ◌<◌, [], ◌∷◌, ◌++◌, length, take, is_some, None, Some, IsOk, IsSome, IsTrue, OnErr, OnOk};
ghost use Rattle.diag_can.specs.Event.{Event as AnEvent};
ghost use Rattle.diag_can.specs.Log.{waited};
ghost use Rattle.diag_pdu.specs.Kind.{Consecutive, IsRead, Single, kind, says};
ghost use Rattle.diag_pdu.specs.Cut.{head_size};
ghost use Rattle.diag_pdu.specs.Length.{single_most};
ghost use Rattle.diag_sides.specs.Receiver.{begun_receiving, open_after};
ghost use Rattle.diag_exchange.specs.Streaming.{opened};
ghost use Rattle.diag_exchange.specs.Taking.{Ended, IsUnchanged};
ghost use Rattle.diag_exchange.specs.declared.happening.Happening.TheVariants.{Began, Came};
ghost use Rattle.diag_listen.specs.Listening.{Hears, HearsRequest, Listens, Moves, RefusedLost, TookEach, after_ticks, began, kind_happens, lost_if, may_refuse, part_happens, ticks_happen};

use diag_can::{LentBytes, TickCount};
use diag_exchange::{CaptureLine, Exchanges, OpenBox, Over, Start};
use diag_pdu::{DataLength, LinkSetup, Message, Pci};
use diag_sides::Receiver;
use std::alloc::{AllocError, Global};

/// The unit's side to a tester: the message that the unit sends it, and the exchanges that aren't over.
///
/// It sends nothing: what the tester's own flow control says it passes over. Its contract is the relation `Listens`, to
/// the events of the unit's side that it heard and to what happened.
#[derive(Drop)]
pub struct Listener {
    /// What frames are read by: the longest message, and N_Cr.
    pub setup: LinkSetup,
    /// The message that is coming in.
    pub receiver: Receiver,
    /// The exchanges that aren't over.
    pub exchanges: Exchanges,
}

/// The first frame of a message, which has these bytes of it.
fn start_of(at: CaptureLine, bytes: &[u8]) -> Start
    requires { 1 ≤ length bytes.now }
    ensures { Began result ≡ began at bytes.now }
{
    Start {
        at,
        first: bytes[0],
        second: bytes.get(1).copied(),
    }
}

impl Listener {
    /// Nothing was heard.
    pub fn new(alloc: Global, setup: LinkSetup) -> Listener
        ensures listens { Listens result [] [] }
        ensures setup { result.setup ≡ setup }
    {
        Listener {
            setup,
            receiver: Receiver::new(alloc),
            exchanges: Exchanges::new(alloc),
        }
    }

    /// Hears so much time, in milliseconds; what is over with it is put behind `over`.
    ///
    /// # Errors
    /// `AllocError` where memory is refused for what is over where the message that was coming in breaks off. Its reception has
    /// ended then, but the exchanges and `over` are as they were.
    #[inline(always)]
    pub fn wait(&mut self, at: CaptureLine, ms: u64, over: &mut Vec<Over>) -> Result<(), AllocError>
        ensures heard { OnOk result
            (Hears self.old self.new over.old.items over.new.items at (waited ms)) }
        ensures err { OnErr result (RefusedLost self.old self.new over.old.items over.new.items) }
        ensures setup { self.new.setup ≡ self.old.setup }
    {
        // (for its contract: the time is that of this line, and N_Cr is within the longest count)
        let _ = at;
        let _n_cr = self.setup.n_cr.get();
        if self.exchanges.coming.is_none() {
            return Ok(());
        }
        // (a reception ends within the longest count)
        match TickCount::new(ms.min(u64::from(TickCount::MAX)) as u16) {
            Some(count) => self.pass(count, over),
            None => Ok(()),
        }
    }

    /// Hears so many ticks.
    fn pass(&mut self, count: TickCount, over: &mut Vec<Over>) -> Result<(), AllocError>
        ensures moves { OnOk result (Moves self.old self.new over.old.items over.new.items
            (ticks_happen self.old.setup count self.old.receiver.partial)
            (after_ticks self.old.setup count self.old.receiver.partial)) }
        ensures err { OnErr result (RefusedLost self.old self.new over.old.items over.new.items) }
        ensures setup { self.new.setup ≡ self.old.setup }
    {
        self.receiver.pass(self.setup.n_cr.get(), count.get());
        if self.is_receiving() {
            return Ok(());
        }
        self.lose(over)
    }

    /// Hears a frame of the unit, of either kind.
    ///
    /// # Errors
    /// `AllocError` where memory is refused; of what was heard nothing is said then. Flow control, and a frame that is ignored,
    /// need none; no more does what goes on with a message or breaks it off where none is coming in.
    #[inline(always)]
    pub fn take(
        &mut self,
        at: CaptureLine,
        frame: &LentBytes<'_>,
        over: &mut Vec<Over>,
    ) -> Result<(), AllocError>
        ensures heard { OnOk result (Hears self.old self.new over.old.items over.new.items at
            (AnEvent.Physical frame.now ∷ [])) }
        ensures err { OnErr result (IsTrue (may_refuse self.old.exchanges.coming
            (kind frame.now self.old.setup.max_request))) }
        ensures setup { self.new.setup ≡ self.old.setup }
    {
        let pci = Pci::read(frame.as_slice(), self.setup.max_request);
        self.take_pci(at, frame, pci, over)
    }

    /// Hears a request of the tester, complete, of which nothing was heard.
    ///
    /// # Errors
    /// `AllocError` where memory is refused, and then nothing has changed.
    #[inline(always)]
    pub fn ask(&mut self, asked: OpenBox, over: &mut Vec<Over>) -> Result<(), AllocError>
        requires { asked ≡ opened asked.request }
        ensures heard { OnOk result
            (HearsRequest self.old self.new over.old.items over.new.items asked.request) }
        ensures err { OnErr result (IsUnchanged self.old.exchanges self.new.exchanges) }
        ensures out { OnErr result (over.new.items ≡ over.old.items) }
        ensures receiver { self.new.receiver ≡ self.old.receiver }
        ensures setup { self.new.setup ≡ self.old.setup }
    {
        self.exchanges.ask(asked, over)
    }

    /// Where all was heard, the exchanges that aren't over are put behind `over`, in memory of their own.
    ///
    /// # Errors
    /// `AllocError` where memory is refused; then some of them may be there. Where all are over, none is asked for.
    pub fn left(&self, alloc: Global, over: &mut Vec<Over>) -> Result<(), AllocError>
        ensures ok { OnOk result (Ended self.now.exchanges over.old.items over.new.items) }
        ensures front { take (length over.old.items) over.new.items ≡ over.old.items }
        ensures none { self.now.exchanges.live.items ≡ [] → IsOk result }
    {
        self.exchanges.left(alloc, over)
    }

    /// Hears a frame of this kind.
    #[inline(always)]
    fn take_pci(
        &mut self,
        at: CaptureLine,
        frame: &LentBytes<'_>,
        pci: Pci<'_>,
        over: &mut Vec<Over>,
    ) -> Result<(), AllocError>
        requires read { IsRead self.old.setup.max_request (says pci) }
        requires kind { says pci ≡ kind frame.now self.old.setup.max_request }
        ensures moves { OnOk result (Moves self.old self.new over.old.items over.new.items
            (kind_happens self.old.receiver.partial at (says pci.entry))
            (open_after self.old.receiver.partial (says pci.entry))) }
        ensures err { OnErr result (IsTrue (may_refuse self.old.exchanges.coming (says pci.entry))) }
        ensures setup { self.new.setup ≡ self.old.setup }
    {
        match pci {
            Pci::Single(payload) => {
                let start = start_of(at, payload);
                if frame.as_slice().len() > 8 {
                    return self.take_long_single(start, payload, over);
                }
                let message = self.short_message(frame, payload);
                self.take_single(start, message, over)
            }
            Pci::First { len, rx_dl, head } => self.take_first(at, len, rx_dl, head, over),
            Pci::Overflow => self.lose(over),
            Pci::Consecutive {
                sequence_number,
                part,
            } => self.take_part(pci, sequence_number, part, over),
            Pci::FlowControl { .. } | Pci::Ignored => Ok(()),
        }
    }

    /// The message of a classic SingleFrame, whose bytes are moved together.
    #[tactic(auto, using(diag_tp::proofs::Takings::payload_inside, diag_tp::proofs::Takings::payload_same))]
    #[inline(always)]
    fn short_message(&self, frame: &LentBytes<'_>, payload: &[u8]) -> Message
        requires single { kind frame.now self.now.setup.max_request ≡ Single payload.now }
        requires some { 1 ≤ length payload.now }
        requires short { length frame.now ≤ 8 }
        ensures { result ≡ payload.now }
    {
        Message::in_place(frame.part(1, payload.len()))
    }

    /// A message of one frame of more than 8 bytes.
    #[cold]
    #[inline(never)]
    fn take_long_single(
        &mut self,
        start: Start,
        payload: &[u8],
        over: &mut Vec<Over>,
    ) -> Result<(), AllocError>
        requires { (1 ≤ length payload.now) × (length payload.now ≤ 62) }
        ensures moves { OnOk result (Moves self.old self.new over.old.items over.new.items
            (lost_if (is_some self.old.receiver.partial) ++ Began start ∷ Came payload.now ∷ []) None) }
        ensures setup { self.new.setup ≡ self.old.setup }
    {
        let message = Message::of(*over.allocator(), payload)?;
        self.take_single(start, message, over)
    }

    /// A message of one frame.
    #[inline(always)]
    fn take_single(
        &mut self,
        start: Start,
        message: Message,
        over: &mut Vec<Over>,
    ) -> Result<(), AllocError>
        ensures moves { OnOk result (Moves self.old self.new over.old.items over.new.items
            (lost_if (is_some self.old.receiver.partial) ++ Began start ∷ Came message ∷ []) None) }
        ensures setup { self.new.setup ≡ self.old.setup }
    {
        self.lose(over)?;
        self.exchanges.begin(start);
        self.exchanges.come(message, over)
    }

    /// The first frame of a message of several frames.
    fn take_first(
        &mut self,
        at: CaptureLine,
        len: u16,
        rx_dl: DataLength,
        head: &[u8],
        over: &mut Vec<Over>,
    ) -> Result<(), AllocError>
        requires long { single_most rx_dl < len }
        requires head { length head.now ≡ head_size rx_dl len }
        ensures moves { OnOk result (Moves self.old self.new over.old.items over.new.items
            (lost_if (is_some self.old.receiver.partial) ++ began at head.now ∷ [])
            (Some (begun_receiving len rx_dl head.now))) }
        ensures setup { self.new.setup ≡ self.old.setup }
    {
        self.lose(over)?;
        self.receiver.reserve(len)?;
        self.receiver.begin(len, rx_dl, head);
        self.exchanges.begin(start_of(at, head));
        Ok(())
    }

    /// A ConsecutiveFrame: it completes the message, or goes on with it, or breaks it off.
    fn take_part(
        &mut self,
        pci: Pci<'_>,
        sequence_number: u8,
        part: &[u8],
        over: &mut Vec<Over>,
    ) -> Result<(), AllocError>
        requires kind { says pci ≡ Consecutive sequence_number part.now }
        requires few { length part.now ≤ 63 }
        ensures moves { OnOk result (Moves self.old self.new over.old.items over.new.items
            (part_happens self.old.receiver.partial (Consecutive sequence_number part.now))
            (open_after self.old.receiver.partial (Consecutive sequence_number part.now))) }
        ensures err { OnErr result (IsSome self.old.exchanges.coming) }
        ensures setup { self.new.setup ≡ self.old.setup }
    {
        let message = self.receiver.complete(pci);
        let _grant = self
            .receiver
            .consecutive(&self.setup, sequence_number, part);
        match message {
            Some(message) => self.come(message, over),
            None if self.is_receiving() => Ok(()),
            None => self.lose(over),
        }
    }

    /// The message that was coming in is complete.
    fn come(&mut self, message: Message, over: &mut Vec<Over>) -> Result<(), AllocError>
        ensures took { OnOk result (IsSome self.old.exchanges.coming → TookEach self.old.exchanges self.new.exchanges
            over.old.items over.new.items (Came message ∷ [])) }
        ensures coming { OnOk result (self.new.exchanges.coming ≡ None) }
        ensures err { OnErr result (IsSome self.old.exchanges.coming) }
        ensures receiver { self.new.receiver ≡ self.old.receiver }
        ensures setup { self.new.setup ≡ self.old.setup }
    {
        if self.exchanges.coming.is_none() {
            return Ok(());
        }
        self.exchanges.come(message, over)
    }

    /// The message that was coming in, if any, never will be complete.
    fn lose(&mut self, over: &mut Vec<Over>) -> Result<(), AllocError>
        ensures took { OnOk result (TookEach self.old.exchanges self.new.exchanges
            over.old.items over.new.items (lost_if (is_some self.old.exchanges.coming))) }
        ensures err { OnErr result (RefusedLost self.old self.new over.old.items over.new.items) }
        ensures coming { OnOk result (self.new.exchanges.coming ≡ None) }
        ensures partial { self.new.receiver.partial ≡ None }
        ensures setup { self.new.setup ≡ self.old.setup }
    {
        self.receiver.end();
        if self.exchanges.coming.is_none() {
            return Ok(());
        }
        self.exchanges.lose(over)
    }

    /// Whether a message of several frames is coming in.
    fn is_receiving(&self) -> bool
        ensures { result ≡ is_some self.now.receiver.partial }
    {
        self.receiver.quiet(0, 0) == 0
    }
}
