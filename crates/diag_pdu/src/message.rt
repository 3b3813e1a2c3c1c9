//! Messages of the transport: requests and replies of a diagnostic service.

ghost use Rattle.std.specs.Prelude.{◌≡◌, ◌<◌, ◌≤◌, ◌⊎◌, ◌↔◌, ◌-◌, ◌++◌, length, take, OnOk, OnErr, IfOk, IsOk, IfSome, IsSome, Some, Err};
ghost use Rattle.diag_pdu.specs.Fault.{message_fault_text};
ghost use Rattle.diag_pdu.specs.Message.{IsInRange};

use diag_can::FrameBytes;
use std::alloc::{AllocError, Global};
use std::error::Error;
use std::fmt;
use std::marker::Model;

/// Why there is no message.
#[derive(Clone, Copy, Debug, PartialEq, Eq)]
pub enum MessageFault {
    /// There are no bytes, or more than 65535.
    Length,
    /// Memory was refused.
    Memory,
}

impl fmt::Display for MessageFault {
    ghost output = { λ x. Some (message_fault_text x) };

    fn fmt<W: fmt::Write>(&self, f: &mut fmt::Formatter<W>) -> fmt::Result {
        match self {
            MessageFault::Length => write!(f, "a message has 1 to 65535 bytes"),
            MessageFault::Memory => write!(f, "no memory for a message"),
        }
    }
}

impl Error for MessageFault {}

/// The most bytes that a message keeps in place: those of a frame.
const IN_PLACE: usize = 8;

/// The bytes of a message that stand in place. They begin where a word does and have words alone, so that a message moves word by
/// word.
#[derive(Drop)]
struct InPlace {
    at_a_word: [u64; 0],
    places: [u8; IN_PLACE],
    len: u64,
}

impl Model for InPlace {
    ghost use Rattle.std.specs.Prelude.{ℕ, List, take, ◌≤◌};

    ghost Value = { List ℕ };

    ghost view = { λ a. take a.len a.places };

    ghost invariant = { λ a. a.len ≤ 8 };
}

impl InPlace {
    /// Bytes of a frame.
    #[inline(always)]
    fn of(bytes: FrameBytes) -> InPlace
        ensures { result ≡ bytes }
    {
        InPlace {
            at_a_word: [],
            places: *bytes.places(),
            len: bytes.len() as u64,
        }
    }

    /// How many they are.
    #[inline(always)]
    fn len(&self) -> usize
        ensures count { result ≡ length self.now }
        ensures fits { result ≤ 8 }
    {
        self.len as usize
    }

    /// The bytes as those of a frame.
    #[inline(always)]
    fn frame(&self) -> FrameBytes
        ensures { result ≡ self.now }
    {
        FrameBytes::full(self.places).part(0, self.len())
    }

    /// The bytes as a slice.
    #[inline(always)]
    fn as_slice(&self) -> &[u8]
        ensures bytes { result.now ≡ self.now }
        ensures fits { length result.now ≤ 8 }
    {
        &self.places[..self.len()]
    }
}

/// The bytes of a message: where a frame could carry them in place, else in memory of their own.
#[derive(Drop)]
enum Bytes {
    Short(InPlace),
    Long(Vec<u8>),
}

const _: () = prove!(size_of::<Message>() <= 32);

/// A message of 1 to 65535 bytes. One of up to eight bytes takes no memory, unless it was made of a `Vec`.
#[derive(Drop)]
pub struct Message {
    bytes: Bytes,
}

impl Model for Message {
    ghost use Rattle.std.specs.Prelude.{ℕ, List};
    ghost use Rattle.diag_pdu.specs.Message.{IsInRange};
    ghost use Rattle.diag_pdu.specs.Bytes.{bytes_of};

    ghost Value = { List ℕ };

    ghost view = { λ a. bytes_of a.bytes };

    ghost invariant = { λ a. IsInRange (bytes_of a.bytes) };
}

impl Message {
    /// The longest message, in bytes.
    pub const MAX: usize = 65535;

    /// The message of these bytes; `Length` where there are none or more than 65535, which is looked at first.
    pub fn new(alloc: Global, bytes: &[u8]) -> Result<Message, MessageFault>
        ensures value { IfOk result (λ message. message ≡ bytes.now) }
        ensures in_range { OnOk result (IsInRange bytes.now) }
        ensures length { result ≡ Err MessageFault.Length
            ↔ ((length bytes.now < 1) ⊎ (65535 < length bytes.now)) }
        ensures memory { result ≡ Err MessageFault.Memory → 8 < length bytes.now }
    {
        if bytes.is_empty() || bytes.len() > Message::MAX {
            return Err(MessageFault::Length);
        }
        match Message::of(alloc, bytes) {
            Ok(message) => Ok(message),
            Err(_) => Err(MessageFault::Memory),
        }
    }

    /// The message of bytes that a message can have.
    ///
    /// # Errors
    /// `AllocError` where memory is refused.
    pub fn of(alloc: Global, bytes: &[u8]) -> Result<Message, AllocError>
        requires some { 1 ≤ length bytes.now }
        requires fits { length bytes.now ≤ 65535 }
        ensures value { IfOk result (λ message. message ≡ bytes.now) }
        ensures in_place { length bytes.now ≤ 8 → IsOk result }
    {
        if bytes.len() <= IN_PLACE {
            return Ok(Message::in_place(FrameBytes::from_slice(bytes)));
        }
        let bytes = Vec::from_slice(alloc, bytes)?;
        Ok(Message::from_vec(bytes))
    }

    /// The message that these bytes of a frame are, which are handed over. It takes no memory.
    pub fn in_place(bytes: FrameBytes) -> Message
        requires { 1 ≤ length bytes }
        ensures { result ≡ bytes }
    {
        Message {
            bytes: Bytes::Short(InPlace::of(bytes)),
        }
    }

    /// The message that these bytes are, which are handed over and not copied.
    pub fn from_vec(bytes: Vec<u8>) -> Message
        requires some { 1 ≤ length bytes.items }
        requires fits { length bytes.items ≤ 65535 }
        ensures { result ≡ bytes.items }
    {
        Message {
            bytes: Bytes::Long(bytes),
        }
    }

    /// The bytes with their memory, where they have some.
    pub fn into_vec(self) -> Option<Vec<u8>>
        ensures bytes { IfSome result (λ bytes. bytes.items ≡ self) }
        ensures found { 8 < length self → IsSome result }
    {
        match self.bytes {
            Bytes::Short(short) => {
                let size = short.len();
                prove!(size <= IN_PLACE);
                None
            }
            Bytes::Long(bytes) => Some(bytes),
        }
    }

    /// Becomes the message that these bytes of a frame are.
    #[inline(always)]
    pub fn set_in_place(&mut self, bytes: FrameBytes)
        requires { 1 ≤ length bytes }
        ensures { self.new ≡ bytes }
    {
        match &mut self.bytes {
            Bytes::Short(short) => *short = InPlace::of(bytes),
            Bytes::Long(_) => self.bytes = Bytes::Short(InPlace::of(bytes)),
        }
    }

    /// Becomes the message of these bytes, in the memory that it has where that is enough. Up to eight bytes take no memory.
    ///
    /// # Errors
    /// `AllocError` where memory is refused; the message stays as it is then.
    #[inline(always)]
    pub fn set(&mut self, alloc: Global, bytes: &[u8]) -> Result<(), AllocError>
        requires some { 1 ≤ length bytes.now }
        requires fits { length bytes.now ≤ 65535 }
        ensures value { OnOk result (self.new ≡ bytes.now) }
        ensures same { OnErr result (self.new ≡ self.old) }
        ensures in_place { length bytes.now ≤ 8 → IsOk result }
    {
        if bytes.len() <= IN_PLACE {
            self.set_in_place(FrameBytes::from_slice(bytes));
            return Ok(());
        }
        self.set_long(alloc, bytes)
    }

    /// The same of more than eight bytes.
    #[inline(never)]
    fn set_long(&mut self, alloc: Global, bytes: &[u8]) -> Result<(), AllocError>
        requires some { 1 ≤ length bytes.now }
        requires fits { length bytes.now ≤ 65535 }
        ensures value { OnOk result (self.new ≡ bytes.now) }
        ensures same { OnErr result (self.new ≡ self.old) }
    {
        match &mut self.bytes {
            Bytes::Short(_) => {
                self.bytes = Bytes::Long(Vec::from_slice(alloc, bytes)?);
                Ok(())
            }
            Bytes::Long(kept) => put_over(kept, bytes),
        }
    }

    /// Puts these bytes in place of the last ones.
    pub fn set_end(&mut self, part: &[u8])
        requires { length part.now ≤ length self.old }
        ensures { self.new ≡ take (length self.old - length part.now) self.old ++ part.now }
    {
        match &mut self.bytes {
            Bytes::Short(short) => *short = InPlace::of(with_end(short.as_slice(), part)),
            Bytes::Long(bytes) => set_end(bytes.as_mut_slice(), part),
        }
    }

    /// A message of the same bytes.
    ///
    /// # Errors
    /// `AllocError` where memory is refused.
    pub fn try_copy(&self) -> Result<Message, AllocError>
        ensures value { IfOk result (λ message. message ≡ self.now) }
        ensures in_place { length self.now ≤ 8 → IsOk result }
    {
        match &self.bytes {
            Bytes::Short(short) => Ok(Message::in_place(short.frame())),
            Bytes::Long(bytes) => Message::of(*bytes.allocator(), bytes.as_slice()),
        }
    }

    /// Becomes a message of the same bytes, in the memory that it has where that is enough.
    ///
    /// # Errors
    /// `AllocError` where memory is refused; the message stays as it is then.
    #[inline(always)]
    pub fn set_copy(&mut self, other: &Message) -> Result<(), AllocError>
        ensures value { OnOk result (self.new ≡ other.now) }
        ensures same { OnErr result (self.new ≡ self.old) }
        ensures in_place { length other.now ≤ 8 → IsOk result }
    {
        match &other.bytes {
            Bytes::Short(short) => {
                self.set_in_place(short.frame());
                Ok(())
            }
            Bytes::Long(bytes) => self.set(*bytes.allocator(), bytes.as_slice()),
        }
    }

    /// The bytes as those of a frame, where they stand in place.
    #[inline(always)]
    pub(crate) fn in_frame(&self) -> Option<FrameBytes>
        ensures { IfSome result (λ bytes. bytes ≡ self.now) }
    {
        match &self.bytes {
            Bytes::Short(short) => Some(short.frame()),
            Bytes::Long(_) => None,
        }
    }

    /// The bytes.
    #[inline(always)]
    pub fn bytes(&self) -> &[u8]
        ensures same { result.now ≡ self.now }
        ensures fits { (1 ≤ length result.now) × (length result.now ≤ 65535) }
    {
        match &self.bytes {
            Bytes::Short(short) => short.as_slice(),
            Bytes::Long(bytes) => bytes.as_slice(),
        }
    }
}

/// Puts these bytes in place of all; where memory is refused they stay.
fn put_over(kept: &mut Vec<u8>, bytes: &[u8]) -> Result<(), AllocError>
    ensures value { OnOk result (kept.new.items ≡ bytes.now) }
    ensures same { OnErr result (kept.new.items ≡ kept.old.items) }
{
    kept.reserve_exact(bytes.len().saturating_sub(kept.len()))?;
    kept.clear();
    let taken = kept.extend_from_slice(bytes).is_ok();
    prove!(taken);
    Ok(())
}

/// Puts these bytes in place of the last ones.
fn set_end(bytes: &mut [u8], part: &[u8])
    requires { length part.now ≤ length bytes.old }
    ensures { bytes.new ≡ take (length bytes.old - length part.now) bytes.old ++ part.now }
{
    let kept = bytes.len() - part.len();
    bytes[kept..].copy_from_slice(part);
}

/// Bytes of a frame, these in place of the last ones.
fn with_end(bytes: &[u8], part: &[u8]) -> FrameBytes
    requires part { length part.now ≤ length bytes.now }
    requires few { length bytes.now ≤ 8 }
    ensures { result ≡ take (length bytes.now - length part.now) bytes.now ++ part.now }
{
    let mut whole = FrameBytes::from_slice(&bytes[..bytes.len() - part.len()]);
    whole.append(part);
    whole
}
