//! Lists of frames that were sent.

ghost use Rattle.std.specs.Prelude.{◌≡◌, ◌<◌, ◌≤◌, ◌+◌, ◌++◌, [], ◌∷◌, length, slice_get, Some, OnErr, OnOk, IfOk, ◌⊎◌, IsFalse, IsTrue, ◌↔◌, ◌^◌, vec_len, vec_capacity};
ghost use Rattle.diag_tp.specs.declared.sent.Sent.{Sent as ASent};
ghost use Rattle.diag_tp.specs.Link.{pending};
ghost use Rattle.diag_pdu.specs.declared.length.DataLength.TheVariants.{Dl8};
ghost use Rattle.diag_tp.specs.SentFrames.{HasPlaces, HasRoom, LacksPlaces, TookNext, TookNone};

use crate::link::Link;
use diag_can::{CanId, FdBytes, Frame, FrameBytes};
use diag_pdu::DataLength;
use std::alloc::{AllocError, Global};
use std::marker::Model;

/// A classic frame, and the time in ticks at which it goes. Each field is written as one word, and nothing is between them.
#[derive(Drop)]
struct ShortSent {
    at: u64,
    id: CanId,
    len: u32,
    bytes: [u8; 8],
}

impl Model for ShortSent {
    ghost use Rattle.std.specs.Prelude.{take, ◌≤◌};
    ghost use Rattle.diag_tp.specs.declared.sent.Sent.{Sent as ASent};

    ghost Value = { ASent };

    ghost view = { λ s. record { at = s.at; frame = record { id = s.id; bytes = take s.len s.bytes } } };

    ghost invariant = { λ s. s.len ≤ 8 };
}

impl ShortSent {
    /// A frame that goes at this time.
    #[inline(always)]
    fn of(at: u64, frame: Frame) -> ShortSent
        ensures { result ≡ record { at = at; frame = frame } }
    {
        ShortSent {
            at,
            id: frame.id,
            len: frame.bytes.len() as u32,
            bytes: *frame.bytes.places(),
        }
    }

    /// The bytes of the frame.
    #[inline(always)]
    fn as_slice(&self) -> &[u8]
        ensures bytes { result.now ≡ self.now.frame.bytes }
        ensures fits { length result.now ≤ 8 }
    {
        &self.bytes[..self.len as usize]
    }
}

/// A frame of either kind, and the time in ticks at which it goes.
#[derive(Drop)]
struct LongSent {
    at: u64,
    id: CanId,
    bytes: FdBytes,
}

impl Model for LongSent {
    ghost use Rattle.diag_tp.specs.declared.sent.Sent.{Sent as ASent};

    ghost Value = { ASent };

    ghost view = { λ s. record { at = s.at; frame = record { id = s.id; bytes = s.bytes } } };
}

/// Frames of up to 8 bytes, or of up to 64.
#[derive(Drop)]
enum FrameList {
    Short(Vec<ShortSent>),
    Long(Vec<LongSent>),
}

/// Frames that a tester was sent, in order. Where they are classic frames, as nearly all are, they take no more room than
/// these; `reserve` for longer ones moves the list over, once.
#[derive(Drop)]
pub struct SentFrames {
    list: FrameList,
}

impl Model for SentFrames {
    ghost use Rattle.diag_tp.specs.SentFrames.{SentList, list_of};

    ghost Value = { SentList };

    ghost view = { λ a. list_of a.list };
}

impl SentFrames {
    /// No frames, no room, and none of more than 8 bytes to come.
    pub fn new(alloc: Global) -> SentFrames
        ensures items { result.items ≡ [] }
        ensures room { result.room ≡ 0 }
        ensures short { IsFalse result.is_long }
    {
        SentFrames {
            list: FrameList::Short(Vec::new(alloc)),
        }
    }

    /// Makes room for so many more frames of a side that sends frames of up to this length.
    ///
    /// # Errors
    /// `AllocError` where so much room isn't there, and memory is refused; all is as it was then.
    #[inline(always)]
    pub fn reserve(&mut self, tx_dl: DataLength, count: usize) -> Result<(), AllocError>
        ensures same { self.new.items ≡ self.old.items }
        ensures room { OnOk result (HasRoom tx_dl count self.new) }
        ensures err { OnErr result (LacksPlaces tx_dl count self.old) }
        ensures left { OnErr result (self.new ≡ self.old) }
        ensures small { self.new.room < 2 ^ 63 }
    {
        match &mut self.list {
            FrameList::Short(list) if matches!(tx_dl, DataLength::Dl8) => list.reserve(count),
            FrameList::Short(_) => self.lengthen(count),
            FrameList::Long(list) => list.reserve(count),
        }
    }

    /// Makes room for so many more frames, longer ones too. Refused where memory is; the frames stay.
    #[cold]
    #[inline(never)]
    fn lengthen(&mut self, count: usize) -> Result<(), AllocError>
        ensures same { self.new.items ≡ self.old.items }
        ensures room { OnOk result (count ≤ self.new.room) }
        ensures long { OnOk result (IsTrue self.new.is_long) }
        ensures err { OnErr result ((self.old.room < count) ⊎ IsFalse self.old.is_long) }
        ensures left { OnErr result (self.new ≡ self.old) }
        ensures small { self.new.room < 2 ^ 63 }
    {
        match &mut self.list {
            FrameList::Short(list) => {
                self.list = FrameList::Long(lengthened(list.as_slice(), *list.allocator(), count)?);
                Ok(())
            }
            FrameList::Long(list) => list.reserve(count),
        }
    }

    /// Adds a classic frame, which goes at this time.
    #[inline(always)]
    pub fn push(&mut self, at: u64, frame: Frame)
        requires { 0 < self.old.room }
        ensures items { self.new.items ≡ self.old.items ++ record { at = at; frame = frame } ∷ [] }
        ensures room { self.old.room ≡ self.new.room + 1 }
        ensures long { self.new.is_long ≡ self.old.is_long }
    {
        match &mut self.list {
            FrameList::Short(list) => list.push_reserved(ShortSent::of(at, frame)),
            FrameList::Long(list) => push_lengthened(list, at, frame.id, frame.bytes),
        }
    }

    /// Takes the next frame that is due of a link, which goes at this time; whether there is one.
    #[tactic(auto, using(crate::proofs::Places::is_classic))]
    #[inline(always)]
    pub fn take_next(&mut self, at: u64, link: &mut Link) -> bool
        requires places { HasPlaces link.old.state.setup.framing.tx_dl self.old }
        requires room { 0 < pending link.old.state → 0 < self.old.room }
        ensures took { IsTrue result → TookNext at link.old link.new self.old.items self.new.items }
        ensures room { IsTrue result → self.old.room ≡ self.new.room + 1 }
        ensures none { IsFalse result → TookNone link.old link.new }
        ensures same { IsFalse result → self.new ≡ self.old }
        ensures long { self.new.is_long ≡ self.old.is_long }
    {
        match &mut self.list {
            FrameList::Short(list) => push_short(list, at, link),
            FrameList::Long(list) => push_long(list, at, link),
        }
    }

    /// Takes all frames out; the room for them stays.
    #[inline(always)]
    pub fn clear(&mut self)
        ensures items { self.new.items ≡ [] }
        ensures room { self.old.room ≤ self.new.room }
        ensures long { self.new.is_long ≡ self.old.is_long }
    {
        match &mut self.list {
            FrameList::Short(list) => list.clear(),
            FrameList::Long(list) => list.clear(),
        }
    }

    /// Whether there are none.
    #[inline(always)]
    pub fn is_empty(&self) -> bool
        ensures { IsTrue result ↔ (self.now.items ≡ []) }
    {
        match &self.list {
            FrameList::Short(list) => list.is_empty(),
            FrameList::Long(list) => list.is_empty(),
        }
    }

    /// How many there are.
    #[inline(always)]
    pub fn len(&self) -> usize
        ensures { result ≡ length self.now.items }
    {
        match &self.list {
            FrameList::Short(list) => list.len(),
            FrameList::Long(list) => list.len(),
        }
    }

    /// The frame at this index, from 0.
    #[inline(always)]
    pub fn get(&self, index: usize) -> SentFrame<'_>
        requires { index < length self.now.items }
        ensures { slice_get self.now.items index ≡ Some result }
    {
        match &self.list {
            FrameList::Short(list) => {
                let sent = &list[index];
                SentFrame {
                    at: sent.at,
                    id: sent.id,
                    bytes: sent.as_slice(),
                }
            }
            FrameList::Long(list) => {
                let sent = &list[index];
                SentFrame {
                    at: sent.at,
                    id: sent.id,
                    bytes: sent.bytes.as_slice(),
                }
            }
        }
    }
}

/// A frame that was sent, with its time in ticks; its bytes are lent.
#[derive(Drop)]
pub struct SentFrame<'a> {
    /// The ticks of its tester until then.
    pub at: u64,
    /// Its identifier, the tester's response identifier.
    pub id: CanId,
    /// Its data, up to 64 bytes.
    pub bytes: &'a [u8],
}

impl<'a> Model for SentFrame<'a> {
    ghost use Rattle.std.specs.Prelude.{length, ◌≤◌};
    ghost use Rattle.diag_tp.specs.declared.sent.Sent.{Sent as ASent};

    ghost Value = { ASent };

    ghost view = { λ s. record { at = s.at; frame = record { id = s.id; bytes = s.bytes.now } } };

    ghost invariant = { λ s. length s.bytes.now ≤ 64 };
}

/// Adds a classic frame of these bytes, where longer ones have room, too.
#[cold]
#[inline(never)]
fn push_lengthened(list: &mut Vec<LongSent>, at: u64, id: CanId, bytes: FrameBytes)
    requires { vec_len list.old < vec_capacity list.old }
    ensures items { list.new.items ≡ list.old.items
        ++ record { at = at; frame = record { id = id; bytes = bytes } } ∷ [] }
    ensures len { vec_len list.new ≡ vec_len list.old + 1 }
    ensures capacity { vec_capacity list.new ≡ vec_capacity list.old }
{
    match bytes.as_slice().as_array::<8>() {
        Some(eight) => push_bytes(list, at, id, eight),
        None => push_bytes(list, at, id, bytes.as_slice()),
    }
}

/// Adds a frame of these bytes. (Inlined, the eight that most have are moved together, to where they stay.)
#[inline(always)]
fn push_bytes(list: &mut Vec<LongSent>, at: u64, id: CanId, bytes: &[u8])
    requires room { vec_len list.old < vec_capacity list.old }
    requires fits { length bytes.now ≤ 64 }
    ensures items { list.new.items ≡ list.old.items
        ++ record { at = at; frame = record { id = id; bytes = bytes.now } } ∷ [] }
    ensures len { vec_len list.new ≡ vec_len list.old + 1 }
    ensures capacity { vec_capacity list.new ≡ vec_capacity list.old }
{
    list.push_reserved(LongSent {
        at,
        id,
        bytes: FdBytes::from_slice(bytes),
    });
}

/// Adds the next frame that is due of a link that sends classic frames, if there is one.
#[inline(always)]
fn push_short(list: &mut Vec<ShortSent>, at: u64, link: &mut Link) -> bool
    requires classic { link.old.state.setup.framing.tx_dl ≡ Dl8 }
    requires room { 0 < pending link.old.state → vec_len list.old < vec_capacity list.old }
    ensures took { IsTrue result → TookNext at link.old link.new list.old.items list.new.items }
    ensures len { IsTrue result → vec_len list.new ≡ vec_len list.old + 1 }
    ensures capacity { vec_capacity list.new ≡ vec_capacity list.old }
    ensures none { IsFalse result → TookNone link.old link.new }
    ensures same { IsFalse result → list.new ≡ list.old }
{
    let Some(frame) = link.next_frame() else {
        return false;
    };
    list.push_reserved(ShortSent::of(at, frame));
    true
}

/// Adds the next frame that is due of a link that sends frames of any length, if there is one. It is made where it stays.
#[inline(never)]
fn push_long(list: &mut Vec<LongSent>, at: u64, link: &mut Link) -> bool
    requires room { 0 < pending link.old.state → vec_len list.old < vec_capacity list.old }
    ensures took { IsTrue result → TookNext at link.old link.new list.old.items list.new.items }
    ensures len { IsTrue result → vec_len list.new ≡ vec_len list.old + 1 }
    ensures capacity { vec_capacity list.new ≡ vec_capacity list.old }
    ensures none { IsFalse result → TookNone link.old link.new }
    ensures same { IsFalse result → list.new ≡ list.old }
{
    if link.is_drained() {
        return false;
    }
    let index = list.len();
    list.push_reserved(LongSent {
        at,
        id: link.setup.ids.response,
        bytes: FdBytes::new(),
    });
    let _id = link.next_long_frame(&mut list[index].bytes);
    true
}

/// These frames where longer ones have room, too, and room for so many more.
#[cold]
#[inline(never)]
fn lengthened(list: &[ShortSent], alloc: Global, count: usize) -> Result<Vec<LongSent>, AllocError>
    ensures { IfOk result (λ longer. (longer.items ≡ list.now)
        × (length list.now + count ≤ vec_capacity longer)) }
{
    let mut longer = Vec::with_capacity(alloc, list.len().saturating_add(count))?;
    for sent in list {
        longer.push_reserved(LongSent {
            at: sent.at,
            id: sent.id,
            bytes: FdBytes::from_slice(sent.as_slice()),
        });
    }
    Ok(longer)
}
