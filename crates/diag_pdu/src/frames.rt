//! Writing of frames of up to 8 bytes (ISO 15765-2:2016, 9.6), before padding, and the frames of a message where all have so
//! many (9.2 and 9.3).

ghost use Rattle.std.specs.Prelude.{◌≡◌, ℕ, List, ◌≤◌, ◌<◌, ◌+◌, ◌↔◌, [], ◌∷◌, Some, IfSome, IsSome, length, slice_get};
ghost use Rattle.diag_pdu.specs.Kind.{Single, First, Consecutive, FlowControl, kind};
ghost use Rattle.diag_pdu.specs.declared.length.DataLength.TheVariants.{Dl8};
ghost use Rattle.diag_pdu.specs.Length.{single_most};
ghost use Rattle.diag_pdu.specs.Cut.{head_size, padded, single_bytes, first_bytes, consecutive_bytes, flow_bytes, part_of, cut, frames_of};

use crate::framing::Framing;
use crate::kind::{consecutive_count, head_size, single_most};
use crate::length::DataLength;
use crate::message::Message;
use diag_can::FrameBytes;

/// The SingleFrame (9.6.2) of a message of 1 to 7 bytes.
#[tactic(auto, using(crate::proofs::CutFrames::single_read))]
pub fn single_frame(payload: &[u8]) -> FrameBytes
    requires few { (1 ≤ length payload.now) × (length payload.now ≤ 7) }
    ensures bytes { result ≡ single_bytes payload.now }
    ensures read { (max : ℕ) → kind result max ≡ Single payload.now }
{
    let mut frame = FrameBytes::new();
    frame.push(payload.len() as u8);
    frame.append(payload);
    frame
}

/// The FirstFrame (9.6.3) of a message of `len` bytes, from 8 on, the first 6 of which are `head`; for a length above
/// 4095, which is written in four bytes after a length of 0, the first 2.
#[tactic(auto, using(crate::proofs::CutFrames::first_read))]
pub fn first_frame(len: u16, head: &[u8]) -> FrameBytes
    requires long { 8 ≤ len }
    requires whole { length head.now ≡ head_size Dl8 len }
    ensures bytes { result ≡ first_bytes len head.now }
    ensures read { (max : ℕ) → len ≤ max → kind result max ≡ First len Dl8 head.now }
{
    first_of(len, head)
}

/// Its bytes. Those with the length in twelve bits are put together at once.
#[inline(always)]
fn first_of(len: u16, head: &[u8]) -> FrameBytes
    requires long { 8 ≤ len }
    requires whole { length head.now ≡ head_size Dl8 len }
    ensures { result ≡ first_bytes len head.now }
{
    let [high, low] = len.to_be_bytes();
    match head {
        [a, b, c, d, e, f] => FrameBytes::full([0x10 + high, low, *a, *b, *c, *d, *e, *f]),
        _ => {
            let mut frame = FrameBytes::made_of(&[0x10, 0, 0, 0, high, low]);
            frame.append(head);
            frame
        }
    }
}

/// A ConsecutiveFrame (9.6.4): the sequence number, 0 to 15, and at most 7 bytes of the message.
pub fn consecutive_frame(sequence_number: u8, part: &[u8]) -> FrameBytes
    requires nibble { sequence_number < 16 }
    requires few { length part.now ≤ 7 }
    ensures bytes { result ≡ consecutive_bytes sequence_number part.now }
    ensures read { (max : ℕ) → kind result max ≡ Consecutive sequence_number part.now }
{
    let mut frame = FrameBytes::new();
    frame.push(0x20 + sequence_number);
    frame.append(part);
    frame
}

/// A FlowControl (9.6.5): the flow status, 0 (continue to send), 1 (wait) or 2 (overflow), block size and STmin.
#[tactic(auto, using(crate::proofs::CutFrames::flow_read))]
pub fn flow_frame(flow_status: u8, block_size: u8, st_min: u8) -> FrameBytes
    requires nibble { flow_status < 16 }
    ensures bytes { result ≡ flow_bytes flow_status block_size st_min }
    ensures read { (max : ℕ) → kind result max ≡ FlowControl flow_status block_size st_min }
{
    FrameBytes::made_of(&[0x30 + flow_status, block_size, st_min])
}

/// The frame padded to 8 bytes with the pad byte, if any.
#[inline(always)]
pub fn padded(frame: FrameBytes, pad: Option<u8>) -> FrameBytes
    requires { length frame ≤ 8 }
    ensures { result ≡ padded pad frame }
{
    match pad {
        Some(byte) => padded_with(&frame, byte),
        None => frame,
    }
}

/// The frame padded to 8 bytes. (Not inlined, so that its bytes are read from memory as one word, and aren't taken apart.)
#[inline(never)]
fn padded_with(frame: &FrameBytes, byte: u8) -> FrameBytes
    requires { length frame.now ≤ 8 }
    ensures { result ≡ padded (Some byte) frame.now }
{
    let mut all = frame.copy();
    all.fill(byte);
    all
}

/// The part of the message that the `i`-th Consecutive carries, from 1.
fn part(message: &[u8], i: usize) -> &[u8]
    requires { (1 ≤ i) × (length message.now ≤ 65535) × (i ≤ 65535) }
    ensures part { result.now ≡ part_of Dl8 message.now i }
    ensures few { length result.now ≤ 7 }
{
    let start = usize::from(head_size(DataLength::Dl8, message.len() as u16)) + 7 * (i - 1);
    let rest = &message[start.min(message.len())..];
    &rest[..rest.len().min(7)]
}

/// The `i`-th ConsecutiveFrame of a message, from 1. One of 8 bytes, as most are, is moved at once, with the byte before its
/// part, whose place its first byte takes.
fn nth_consecutive(message: &[u8], i: u16, pad: Option<u8>) -> FrameBytes
    requires some { 1 ≤ i }
    requires fits { length message.now ≤ 65535 }
    ensures { result ≡ padded pad (consecutive_bytes i (part_of Dl8 message.now i)) }
{
    let sequence_number = (i % 16) as u8;
    let before = usize::from(head_size(DataLength::Dl8, message.len() as u16))
        + 7 * usize::from(i - 1)
        - 1;
    if let Some(eight) = message[before.min(message.len())..].first_chunk::<8>() {
        let mut whole = *eight;
        whole[0] = 0x20 + sequence_number;
        FrameBytes::full(whole)
    } else {
        padded(
            consecutive_frame(sequence_number, part(message, usize::from(i))),
            pad,
        )
    }
}

/// The `k`-th frame of the message, from 0, where frames have 8 bytes. The message has one.
#[tactic(auto, using(crate::proofs::CutFrames::short_single_at, crate::proofs::CutFrames::short_first_at, crate::proofs::CutFrames::short_part_at))]
pub fn frame_at(message: &Message, k: u16, framing: &Framing) -> FrameBytes
    requires classic { framing.now.tx_dl ≡ Dl8 }
    requires inside { k < frames_of framing.now.tx_dl message.now }
    ensures { slice_get (cut framing.now message.now) k ≡ Some result }
{
    let bytes = message.bytes();
    let len = bytes.len() as u16;
    if len <= 7 {
        padded(single_frame(bytes), framing.pad)
    } else if k == 0 {
        let head = &bytes[..usize::from(head_size(DataLength::Dl8, len))];
        padded(first_frame(len, head), framing.pad)
    } else {
        nth_consecutive(bytes, k, framing.pad)
    }
}

/// The frame of a message of up to 7 bytes, of whatever length others are; None of a longer one. Bytes that stand in place
/// are moved together.
#[tactic(auto, using(crate::proofs::CutFrames::short_lone))]
#[inline(always)]
pub fn lone_frame(message: &Message, framing: &Framing) -> Option<FrameBytes>
    ensures some { IfSome result (λ frame. cut framing.now message.now ≡ frame ∷ []) }
    ensures found { IsSome result ↔ (length message.now ≤ 7) }
{
    match message.in_frame() {
        Some(bytes) if bytes.len() <= 7 => {
            Some(padded(bytes.behind(bytes.len() as u8), framing.pad))
        }
        _ if message.bytes().len() > 7 => None,
        _ => lone_elsewhere(message, framing),
    }
}

/// The same, wherever the bytes stand.
#[tactic(auto, using(crate::proofs::CutFrames::short_lone))]
#[inline(never)]
fn lone_elsewhere(message: &Message, framing: &Framing) -> Option<FrameBytes>
    ensures some { IfSome result (λ frame. cut framing.now message.now ≡ frame ∷ []) }
    ensures found { IsSome result ↔ (length message.now ≤ 7) }
{
    let bytes = message.bytes();
    if bytes.len() <= 7 {
        Some(padded(single_frame(bytes), framing.pad))
    } else {
        None
    }
}

/// The `k`-th frame of the message, from 0, where frames have 8 bytes; None past the last. The first is a SingleFrame or a
/// FirstFrame, the others carry 7 bytes each and are numbered 1, 2, .., 15, 0, 1, ..
#[tactic(auto, using(crate::proofs::CutFrames::frame_past))]
pub fn frame_of(message: &Message, k: usize, framing: &Framing) -> Option<FrameBytes>
    requires { framing.now.tx_dl ≡ Dl8 }
    ensures { result ≡ slice_get (cut framing.now message.now) k }
{
    if k < usize::from(frames_of(framing.tx_dl, message)) {
        Some(frame_at(message, k as u16, framing))
    } else {
        None
    }
}

/// How many frames a message has.
#[tactic(auto, using(crate::proofs::CutFrames::few_frames))]
pub fn frames_of(tx_dl: DataLength, message: &Message) -> u16
    ensures count { result ≡ frames_of tx_dl message.now }
    ensures some { 1 ≤ result }
    ensures few { result < 10000 }
{
    let len = message.bytes().len() as u16;
    match tx_dl {
        DataLength::Dl8 => {
            if len <= 7 {
                1
            } else {
                consecutive_count(DataLength::Dl8, len) + 1
            }
        }
        longer => long_frames_of(longer, len),
    }
}

/// The same of a message of that length, whatever that of its frames.
#[tactic(auto, using(crate::proofs::Lengths::few_consecutives))]
#[inline(never)]
fn long_frames_of(tx_dl: DataLength, len: u16) -> u16
    ensures { (P : List ℕ) → length P ≡ len → result ≡ frames_of tx_dl P }
{
    if len <= single_most(tx_dl) {
        1
    } else {
        consecutive_count(tx_dl, len) + 1
    }
}
