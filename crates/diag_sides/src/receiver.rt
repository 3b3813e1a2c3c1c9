//! The receiving side of a link: messages of one frame and of several (ISO 15765-2:2016, 9.2, 9.3, 9.6.4 and 9.8.3).

ghost use Rattle.std.specs.Prelude.{◌≡◌, ◌≤◌, ◌<◌, ◌+◌, ◌-◌, ◌%◌, ◌++◌, [], false, length, min, Some, None, take, vec_capacity, OnErr, OnOk, IfOk, IfSome, IfNone, IsSome, option_and_then, option_copied, is_some, if◌then◌else◌, ◌&&◌, ◌==◌, nat_lt, IsTrue, IsFalse};
ghost use Rattle.diag_pdu.specs.declared.setup.LinkSetup.{LinkSetup as ALinkSetup};
ghost use Rattle.diag_sides.specs.Quiet.{reception_quiet, reception_later};
ghost use Rattle.diag_pdu.specs.Cut.{head_size, consecutive_count};
ghost use Rattle.diag_pdu.specs.Length.{in_bytes, single_most};
ghost use Rattle.diag_sides.specs.PartialBytes.{IsHeld};
ghost use Rattle.diag_sides.specs.declared.receiver.PartialBytes.{PartialBytes};
ghost use Rattle.diag_sides.specs.Receiver.{ask_of, kept_bytes, begun_receiving, expects, with_bytes, ends_block, ticks_later, open_after, completed_by, needs_copy, granted_by, go_on};
ghost use Rattle.diag_pdu.specs.Request.{request_of};
ghost use Rattle.diag_pdu.specs.Kind.{Single, Consecutive, IsRead, says, single_only, room_to_begin, needed_for};

use diag_can::{FrameBytes, add_bytes};
use diag_pdu::{
    DataLength, LinkSetup, Message, Pci, Request, consecutive_count, flow_frame, gone_with, padded,
};
use std::alloc::{AllocError, Global};
use std::marker::Model;
use std::mem;

/// The bytes of a reception.
#[derive(Drop)]
enum PartialBytes {
    /// Those that came, with room for the whole message.
    Growing(Vec<u8>),
    /// The whole message, staged as the request that it is: with the last Consecutive, which wasn't taken yet.
    Staged(Request),
}

/// A message of `len` bytes, in frames of that length, of which the First and `count` of `total` Consecutives came, `silence`
/// ticks after the last of them.
#[derive(Drop)]
struct Receiving {
    held: PartialBytes,
    len: u16,
    rx_dl: DataLength,
    total: u16,
    count: u16,
    silence: u16,
}

impl Model for Receiving {
    ghost use Rattle.std.specs.Prelude.{◌≡◌};
    ghost use Rattle.diag_pdu.specs.Cut.{consecutive_count};
    ghost use Rattle.diag_sides.specs.Receiver.{ReceivingView};
    ghost use Rattle.diag_sides.specs.PartialBytes.{bytes_held, staged_in, IsHeld};

    ghost Value = { ReceivingView };

    ghost view = { λ a. record {
      seen = record {
        len = a.len;
        rx_dl = a.rx_dl;
        count = a.count;
        bytes = bytes_held a.rx_dl a.len a.count a.held;
        silence = a.silence;
      };
      staged = staged_in a.held;
    } };

    ghost invariant = { λ a. IsHeld a.rx_dl a.len a.count a.held × (a.total ≡ consecutive_count a.rx_dl a.len) };
}

impl Receiving {
    /// Whether this is the number of the next Consecutive: after 15 comes 0.
    #[inline(always)]
    fn is_next_number(&self, sequence_number: u8) -> bool
        ensures { result ≡ (sequence_number == (self.now.seen.count + 1) % 16) }
    {
        u32::from(sequence_number) == (u32::from(self.count) + 1) % 16
    }

    /// Whether a Consecutive of this number and size is the next one.
    #[inline(never)]
    fn expects(&self, sequence_number: u8, size: usize) -> bool
        ensures { result ≡ expects self.now.seen sequence_number size }
    {
        let left = usize::from(self.len).saturating_sub(gone_with(
            self.rx_dl, self.len, self.count,
        ));
        let most = self.most();
        self.is_next_number(sequence_number) && left.min(most) <= size && size <= most
    }

    /// How many bytes a Consecutive has that isn't the last.
    #[inline(always)]
    fn most(&self) -> usize
        ensures value { result ≡ in_bytes self.now.seen.rx_dl - 1 }
        ensures fits { (7 ≤ result) × (result ≤ 63) }
    {
        usize::from(self.rx_dl.in_bytes()) - 1
    }

    /// Adds the bytes of the next Consecutive, which isn't the last.
    #[inline(never)]
    fn add(&mut self, part: &[u8])
        requires more { self.old.seen.count + 1 < consecutive_count self.old.seen.rx_dl self.old.seen.len }
        requires size { length part.now ≡ in_bytes self.old.seen.rx_dl - 1 }
        ensures { self.new.seen ≡ with_bytes self.old.seen part.now }
    {
        self.count += 1;
        self.silence = 0;
        match &mut self.held {
            PartialBytes::Growing(bytes) => add_part(bytes, part),
            PartialBytes::Staged(_) => unreachable!(),
        }
    }

    /// Stages the message with the bytes of the last Consecutive. What is seen of the reception stays.
    #[inline(never)]
    fn stage(&mut self, part: &[u8])
        requires last { self.old.seen.count + 1 ≡ consecutive_count self.old.seen.rx_dl self.old.seen.len }
        requires fits { self.old.seen.len ≤ length self.old.seen.bytes + length part.now }
        ensures seen { self.new.seen ≡ self.old.seen }
        ensures staged { self.new.staged
            ≡ Some (request_of false (with_bytes self.old.seen part.now).bytes) }
    {
        match &mut self.held {
            PartialBytes::Growing(bytes) => {
                let begun = mem::replace(bytes, Vec::new(*bytes.allocator()));
                self.held = PartialBytes::Staged(Request {
                    functional: false,
                    message: whole(begun, self.len, part),
                });
            }
            PartialBytes::Staged(request) => {
                set_last(request, self.rx_dl, self.len, self.count, part)
            }
        }
    }

    /// Whether a block ends here, and more is to come.
    fn ends_block(&self, setup: &LinkSetup) -> bool
        ensures { result ≡ ends_block setup.now self.now.seen }
    {
        let block = u16::from(setup.block_size);
        block > 0 && self.count % block == 0 && self.count < self.total
    }

    /// Whether a Consecutive of this number and size is the next one, and the last.
    #[inline(always)]
    fn is_completed_by(&self, sequence_number: u8, size: usize) -> bool
        ensures is { result ≡ ((self.now.seen.count + 1 == consecutive_count self.now.seen.rx_dl self.now.seen.len)
            && expects self.now.seen sequence_number size) }
        ensures fits { IsTrue result
            → self.now.seen.len ≤ length self.now.seen.bytes + size }
    {
        u32::from(self.count) + 1 == u32::from(self.total) && self.expects(sequence_number, size)
    }

    /// Whether a Consecutive of this number and size is the next one, and not the last.
    #[inline(always)]
    fn goes_on_with(&self, sequence_number: u8, size: usize) -> bool
        ensures is { result ≡ (expects self.now.seen sequence_number size
            && nat_lt (self.now.seen.count + 1) (consecutive_count self.now.seen.rx_dl self.now.seen.len)) }
    {
        u32::from(self.count) + 1 < u32::from(self.total)
            && self.is_next_number(sequence_number)
            && size == self.most()
    }

    /// The bytes that came.
    fn bytes(&self) -> &[u8]
        ensures same { result.now ≡ self.now.seen.bytes }
        ensures size { length result.now ≤ self.now.seen.len }
        ensures some { 1 ≤ length result.now }
    {
        match &self.held {
            PartialBytes::Growing(bytes) => bytes.as_slice(),
            PartialBytes::Staged(request) => &request.message.bytes()[..kept_bytes(
                self.rx_dl, self.len, self.count,
            )],
        }
    }

    /// The message with the bytes of the last Consecutive, in memory of its own.
    fn copy_with(&self, alloc: Global, part: &[u8]) -> Result<Message, AllocError>
        ensures { IfOk result (λ message. message ≡ (with_bytes self.now.seen part.now).bytes) }
    {
        let mut bytes = Vec::with_capacity(alloc, usize::from(self.len))?;
        bytes.extend_from_slice(self.bytes())?;
        Ok(whole(bytes, self.len, part))
    }

    /// The message of the request that is staged.
    fn into_message(self) -> Option<Message>
        ensures { ask_of false result ≡ self.staged }
    {
        match self.held {
            PartialBytes::Growing(_) => None,
            PartialBytes::Staged(request) => Some(request.message),
        }
    }

    /// The memory of the message, which isn't wanted.
    fn into_memory(self) -> Option<Vec<u8>>
        ensures room { IfSome result (λ bytes. self.seen.len ≤ vec_capacity bytes) }
        ensures found { 8 < self.seen.len → IsSome result }
    {
        match self.held {
            PartialBytes::Growing(bytes) => Some(bytes),
            PartialBytes::Staged(request) => request.message.into_vec(),
        }
    }
}

/// The receiving side of a link: the message that comes, if any, and memory for the next one.
///
/// A reception that ends without handing its message out leaves its memory for the next one. So a receiver has at most two
/// lists: that of the reception, and a spare one.
#[derive(Drop)]
pub struct Receiver {
    alloc: Global,
    partial: Option<Receiving>,
    spare: Vec<u8>,
}

impl Model for Receiver {
    ghost use Rattle.std.specs.Prelude.{◌≡◌, ◌<◌, [], vec_capacity, IfSome, option_map, option_and_then};
    ghost use Rattle.diag_sides.specs.Receiver.{ReceiverState};
    ghost use Rattle.diag_pdu.specs.Cut.{consecutive_count};

    ghost Value = { ReceiverState };

    ghost view = { λ a. record {
      partial = option_map (λ p. p.seen) a.partial;
      room = vec_capacity a.spare;
      staged = option_and_then (λ p. p.staged) a.partial;
    } };

    ghost invariant = { λ a. (a.spare.items ≡ [])
        × IfSome a.partial (λ p. p.seen.count < consecutive_count p.seen.rx_dl p.seen.len) };
}

impl Receiver {
    /// A receiver without a reception, and without room.
    pub fn new(alloc: Global) -> Receiver
        ensures partial { result.partial ≡ None }
        ensures room { result.room ≡ 0 }
        ensures staged { result.staged ≡ None }
    {
        Receiver {
            alloc,
            partial: None,
            spare: Vec::new(alloc),
        }
    }

    /// Makes room for a message of this length.
    ///
    /// # Errors
    /// `AllocError` where memory is refused: there wasn't so much room then, and all is as it was.
    #[inline(always)]
    pub fn reserve(&mut self, len: u16) -> Result<(), AllocError>
        ensures ok { OnOk result (len ≤ self.new.room) }
        ensures err { OnErr result (self.old.room < len) }
        ensures left { OnErr result (self.new ≡ self.old) }
        ensures kept { self.old.room ≤ self.new.room }
        ensures same { self.new.partial ≡ self.old.partial }
        ensures staged { self.new.staged ≡ self.old.staged }
    {
        self.spare.reserve_exact(usize::from(len))
    }

    /// Takes a frame whose message, if it completes one, was handed over, and answers the flow control that it draws.
    #[inline(always)]
    pub fn take(&mut self, setup: &LinkSetup, pci: Pci<'_>) -> Option<FrameBytes>
        requires read { IsRead setup.now.max_request (says pci) }
        requires room { room_to_begin (says pci) ≤ self.old.room }
        ensures partial { self.new.partial ≡ open_after self.old.partial (says pci.entry) }
        ensures grant { result ≡ granted_by setup.now self.old.partial (says pci.entry) }
        ensures kept { room_to_begin (says pci.entry) ≡ 0 → self.old.room ≤ self.new.room }
    {
        match pci {
            Pci::Single(_) => {
                self.end();
                None
            }
            Pci::First { len, rx_dl, head } => {
                self.begin(len, rx_dl, head);
                Some(go_on(setup))
            }
            Pci::Overflow => {
                self.end();
                Some(padded(flow_frame(2, 0, 0), setup.framing.pad))
            }
            Pci::Consecutive {
                sequence_number,
                part,
            } if self.consecutive(setup, sequence_number, part) => Some(go_on(setup)),
            Pci::Consecutive { .. } | Pci::FlowControl { .. } | Pci::Ignored => None,
        }
    }

    /// The message that this frame completes, taken out of the reception, which it ends.
    pub fn complete(&mut self, pci: Pci<'_>) -> Option<Message>
        requires read { IsRead 65535 (says pci) }
        requires room { needed_for (single_only (says pci)) ≤ self.old.room }
        ensures message { result ≡ completed_by self.old.partial (says pci.entry) }
        ensures partial { open_after self.new.partial (says pci.entry)
            ≡ open_after self.old.partial (says pci.entry) }
        ensures grant { (s : ALinkSetup) → granted_by s self.new.partial (says pci.entry)
            ≡ granted_by s self.old.partial (says pci.entry) }
        ensures same { IfNone result (self.new ≡ self.old) }
        ensures room { needed_for (single_only (says pci.entry)) ≡ 0 → self.new.room ≡ self.old.room }
    {
        match pci {
            Pci::Single(payload) => Some(self.single(payload)),
            Pci::Consecutive {
                sequence_number,
                part,
            } if self.completes(sequence_number, part) => {
                let Some(mut whole) = self.partial.take() else {
                    return None;
                };
                whole.stage(part);
                whole.into_message()
            }
            _ => None,
        }
    }

    /// The message of a SingleFrame, which takes all the room that was made where it is longer than 8 bytes.
    pub fn single(&mut self, payload: &[u8]) -> Message
        requires read { (1 ≤ length payload.now) × (length payload.now ≤ 62) }
        requires room { needed_for (Single payload.now) ≤ self.old.room }
        ensures message { result ≡ payload.now }
        ensures partial { self.new.partial ≡ self.old.partial }
        ensures staged { self.new.staged ≡ self.old.staged }
        ensures room { needed_for (Single payload.now) ≡ 0 → self.new.room ≡ self.old.room }
        ensures taken { 8 < length payload.now → self.new.room ≡ 0 }
    {
        if payload.len() <= 8 {
            return Message::in_place(FrameBytes::from_slice(payload));
        }
        let mut bytes = mem::replace(&mut self.spare, Vec::new(self.alloc));
        let taken = bytes.extend_from_slice(payload).is_ok();
        prove!(taken);
        Message::from_vec(bytes)
    }

    /// Whether this Consecutive would complete a message.
    #[inline(always)]
    pub fn completes(&self, sequence_number: u8, part: &[u8]) -> bool
        ensures { result
            ≡ is_some (completed_by self.now.partial (Consecutive sequence_number part.now)) }
    {
        match &self.partial {
            Some(partial) => partial.is_completed_by(sequence_number, part.len()),
            None => false,
        }
    }

    /// The message that this frame would complete.
    ///
    /// # Errors
    /// `AllocError` where memory is refused, which a message needs that isn't a SingleFrame's of up to 8 bytes.
    pub fn peek(&self, pci: Pci<'_>) -> Result<Option<Message>, AllocError>
        requires read { IsRead 65535 (says pci) }
        ensures ok { IfOk result (λ message. message ≡ completed_by self.now.partial (says pci.entry)) }
        ensures err { OnErr result (IsTrue (needs_copy self.now.partial (says pci.entry))) }
    {
        match pci {
            Pci::Single(payload) => Ok(Some(Message::of(self.alloc, payload)?)),
            Pci::Consecutive {
                sequence_number,
                part,
            } => match &self.partial {
                Some(partial) if partial.is_completed_by(sequence_number, part.len()) => {
                    Ok(Some(partial.copy_with(self.alloc, part)?))
                }
                _ => Ok(None),
            },
            _ => Ok(None),
        }
    }

    /// Stages the message that this Consecutive completes; whether it completes one. What is seen of the reception stays.
    #[inline(always)]
    pub fn stage(&mut self, sequence_number: u8, part: &[u8]) -> bool
        ensures is { result
            ≡ is_some (completed_by self.old.partial (Consecutive sequence_number part.now)) }
        ensures staged { IsTrue result → self.new.staged
            ≡ ask_of false (completed_by self.old.partial (Consecutive sequence_number part.now)) }
        ensures partial { self.new.partial ≡ self.old.partial }
        ensures room { self.new.room ≡ self.old.room }
        ensures same { IsFalse result → self.new ≡ self.old }
    {
        let Some(partial) = &mut self.partial else {
            return false;
        };
        if !partial.is_completed_by(sequence_number, part.len()) {
            return false;
        }
        partial.stage(part);
        true
    }

    /// The request that is staged.
    pub fn staged(&self) -> Option<&Request>
        ensures { option_copied result ≡ self.now.staged }
    {
        match &self.partial {
            Some(
                Receiving {
                    held: PartialBytes::Staged(request),
                    ..
                },
            ) => Some(request),
            _ => None,
        }
    }

    /// Ends the reception that is open, if any: mostly there is none, and nothing is written then.
    #[inline(always)]
    pub fn end(&mut self)
        ensures partial { self.new.partial ≡ None }
        ensures room { self.old.room ≤ self.new.room }
        ensures memory { IfSome self.old.partial (λ p. 8 < p.len → p.len ≤ self.new.room) }
    {
        if self.partial.is_some() {
            self.close();
        }
    }

    /// Ends the reception, whose memory is for the next one then.
    #[inline(never)]
    fn close(&mut self)
        ensures partial { self.new.partial ≡ None }
        ensures room { self.old.room ≤ self.new.room }
        ensures memory { IfSome self.old.partial (λ p. 8 < p.len → p.len ≤ self.new.room) }
    {
        let Some(partial) = self.partial.take() else {
            return;
        };
        if let Some(bytes) = partial.into_memory() {
            self.take_back(bytes);
        }
    }

    /// Keeps this memory for the next message, where it is more than there is.
    fn take_back(&mut self, mut bytes: Vec<u8>)
        ensures partial { self.new.partial ≡ self.old.partial }
        ensures kept { self.old.room ≤ self.new.room }
        ensures taken { vec_capacity bytes ≤ self.new.room }
    {
        if self.spare.capacity() < bytes.capacity() {
            bytes.clear();
            self.spare = bytes;
        }
    }

    /// A reception begins, in the place of the one that is open, if any.
    pub fn begin(&mut self, len: u16, rx_dl: DataLength, head: &[u8])
        requires long { single_most rx_dl < len }
        requires head { length head.now ≡ head_size rx_dl len }
        requires room { len ≤ self.old.room }
        ensures partial { self.new.partial ≡ Some (begun_receiving len rx_dl head.now) }
        ensures memory { IfSome self.old.partial (λ p. 8 < p.len → p.len ≤ self.new.room) }
    {
        let mut bytes = mem::replace(&mut self.spare, Vec::new(self.alloc));
        add_head(&mut bytes, head);
        self.end();
        self.partial = Some(Receiving {
            held: PartialBytes::Growing(bytes),
            len,
            rx_dl,
            total: consecutive_count(rx_dl, len),
            count: 0,
            silence: 0,
        });
    }

    /// A Consecutive: the next one adds its part, any other ends the reception, and so does the last. Whether the sender is to
    /// be let go on.
    #[inline(always)]
    pub fn consecutive(&mut self, setup: &LinkSetup, sequence_number: u8, part: &[u8]) -> bool
        ensures partial { self.new.partial
            ≡ open_after self.old.partial (Consecutive sequence_number part.now) }
        ensures grant { (if result then Some (go_on setup.now) else None)
            ≡ granted_by setup.now self.old.partial (Consecutive sequence_number part.now) }
        ensures room { self.old.room ≤ self.new.room }
        ensures memory { self.new.partial ≡ None
            → IfSome self.old.partial (λ p. 8 < p.len → p.len ≤ self.new.room) }
    {
        let Some(partial) = &mut self.partial else {
            return false;
        };
        if !partial.goes_on_with(sequence_number, part.len()) {
            self.end();
            return false;
        }
        partial.add(part);
        partial.ends_block(setup)
    }

    /// So many ticks.
    #[inline(always)]
    pub fn pass(&mut self, n_cr: u16, count: u16)
        ensures partial { self.new.partial
            ≡ option_and_then (ticks_later n_cr count) self.old.partial }
        ensures room { self.old.room ≤ self.new.room }
        ensures memory { self.new.partial ≡ None
            → IfSome self.old.partial (λ p. 8 < p.len → p.len ≤ self.new.room) }
    {
        if let Some(partial) = &mut self.partial {
            if u32::from(partial.silence) + u32::from(count) < u32::from(n_cr) {
                partial.silence += count;
            } else {
                self.end();
            }
        }
    }

    /// So many ticks, before the end of the reception.
    #[inline(always)]
    pub fn pass_quietly(&mut self, count: u64)
        requires few { 0 < count → IfSome self.old.partial (λ p. p.silence + count ≤ 65535) }
        ensures partial { self.new.partial ≡ reception_later count self.old.partial }
        ensures room { self.new.room ≡ self.old.room }
        ensures staged { self.new.staged ≡ self.old.staged }
    {
        if let Some(partial) = &mut self.partial {
            partial.silence += count as u16;
        }
    }

    /// In how many ticks the reception ends, once so many have passed; without one, in 2^64 - 1.
    #[inline(always)]
    pub fn quiet(&self, n_cr: u16, passed: u64) -> u64
        ensures { result ≡ reception_quiet n_cr (reception_later passed self.now.partial) }
    {
        match &self.partial {
            Some(partial) => u64::from(n_cr.saturating_sub(partial.silence)).saturating_sub(passed),
            None => u64::MAX,
        }
    }
}

/// Adds the bytes of a First, where there is room: mostly there are six, which are read before any is written. Nothing is
/// called, so that the list moves from registers.
#[inline(always)]
fn add_head(bytes: &mut Vec<u8>, head: &[u8])
    requires room { length bytes.old.items + length head.now ≤ vec_capacity bytes.old }
    ensures items { bytes.new.items ≡ bytes.old.items ++ head.now }
    ensures kept { vec_capacity bytes.old ≤ vec_capacity bytes.new }
{
    match head.as_array::<6>() {
        Some(&six) => add_bytes(bytes, &six),
        None => add_bytes(bytes, head),
    }
}

/// Flow control that lets the sender go on.
#[inline(never)]
pub fn go_on(setup: &LinkSetup) -> FrameBytes
    ensures { result ≡ go_on setup.now }
{
    padded(
        flow_frame(0, setup.block_size, setup.st_min),
        setup.framing.pad,
    )
}

/// Adds the part of a Consecutive that isn't the last, where there is room: mostly there are seven bytes, and room for the
/// last part, too. Then nothing is called.
#[inline(always)]
fn add_part(bytes: &mut Vec<u8>, part: &[u8])
    requires room { length bytes.old.items + length part.now ≤ vec_capacity bytes.old }
    ensures items { bytes.new.items ≡ bytes.old.items ++ part.now }
    ensures kept { vec_capacity bytes.old ≤ vec_capacity bytes.new }
{
    match part.as_array::<7>() {
        Some(seven) if bytes.capacity() - bytes.len() >= 8 => add_seven(bytes, seven),
        _ => add_all(bytes, part),
    }
}

/// Adds seven bytes, where there is room for eight: with an eighth, which is taken back, they go by registers, and not by the
/// stack.
#[inline(always)]
fn add_seven(bytes: &mut Vec<u8>, seven: &[u8; 7])
    requires room { length bytes.old.items + 8 ≤ vec_capacity bytes.old }
    ensures items { bytes.new.items ≡ bytes.old.items ++ seven.now }
    ensures kept { vec_capacity bytes.old ≤ vec_capacity bytes.new }
{
    let [a, b, c, d, e, f, g] = *seven;
    let taken = bytes.extend_from_slice(&[a, b, c, d, e, f, g, 0]).is_ok();
    prove!(taken);
    bytes.take_last();
}

/// Adds any bytes, where there is room.
#[cold]
#[inline(never)]
fn add_all(bytes: &mut Vec<u8>, part: &[u8])
    requires room { length bytes.old.items + length part.now ≤ vec_capacity bytes.old }
    ensures items { bytes.new.items ≡ bytes.old.items ++ part.now }
    ensures kept { vec_capacity bytes.old ≤ vec_capacity bytes.new }
{
    let taken = bytes.extend_from_slice(part).is_ok();
    prove!(taken);
}

/// How many bytes came with the First and so many Consecutives.
fn kept_bytes(rx_dl: DataLength, len: u16, count: u16) -> usize
    ensures { result ≡ kept_bytes rx_dl len count }
{
    usize::from(len).min(gone_with(rx_dl, len, count))
}

/// The message of this length that begins with these bytes and ends with a part; what goes past it is padding.
fn whole(mut bytes: Vec<u8>, len: u16, part: &[u8]) -> Message
    requires some { 1 ≤ length bytes.items }
    requires fits { length bytes.items ≤ len }
    requires room { len ≤ vec_capacity bytes }
    ensures { result ≡ take len (bytes.items ++ part.now) }
{
    let left = usize::from(len) - bytes.len();
    let taken = bytes
        .extend_from_slice(&part[..left.min(part.len())])
        .is_ok();
    prove!(taken);
    Message::from_vec(bytes)
}

/// Puts another last part into a request that is staged.
fn set_last(request: &mut Request, rx_dl: DataLength, len: u16, count: u16, part: &[u8])
    requires whole { IsHeld rx_dl len count (PartialBytes.Staged request.old) }
    requires fits { len ≤ kept_bytes rx_dl len count + length part.now }
    ensures whole { IsHeld rx_dl len count (PartialBytes.Staged request.new) }
    ensures staged { request.new ≡ request_of false
        (take len (take (kept_bytes rx_dl len count) request.old.message ++ part.now)) }
{
    let left = usize::from(len) - kept_bytes(rx_dl, len, count);
    request.message.set_end(&part[..left]);
}
