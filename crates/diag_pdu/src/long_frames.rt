//! The frames of a message where they may have up to 64 bytes (CAN FD; ISO 15765-2:2016, 9.2, 9.3 and 9.6), each made in its
//! place.

ghost use Rattle.std.specs.Prelude.{◌≡◌, ◌≤◌, ◌<◌, Some, length, slice_get};
ghost use Rattle.diag_pdu.specs.Cut.{head_size, filled, single_bytes, first_bytes, consecutive_bytes, part_of, cut, frames_of};

use crate::framing::Framing;
use crate::kind::{gone_with, head_size, single_most};
use crate::length::{DataLength, next_length};
use crate::message::Message;
use diag_can::FdBytes;

/// Fills a frame: one of more than 8 bytes to the next length that there is, a shorter one as classic frames are padded.
fn fill(frame: &mut FdBytes, framing: &Framing)
    ensures { frame.new ≡ filled framing.now frame.old }
{
    let count = frame.len();
    if count > 8 {
        frame.fill_to(next_length(count), framing.fill);
    } else if let Some(byte) = framing.pad {
        frame.fill_to(8, byte);
    }
}

/// Makes the SingleFrame (9.6.2) of a message of at most 62 bytes, not filled: above 7 bytes the length stands in byte 1.
fn put_single(frame: &mut FdBytes, message: &[u8])
    requires { length message.now ≤ 62 }
    ensures { frame.new ≡ single_bytes message.now }
{
    frame.clear();
    if message.len() > 7 {
        frame.push(0);
    }
    frame.push(message.len() as u8);
    frame.append(message);
}

/// Makes the FirstFrame (9.6.3) of a message of that length, which `head` begins.
fn put_first(frame: &mut FdBytes, tx_dl: DataLength, len: u16, head: &[u8])
    requires { length head.now ≡ head_size tx_dl len }
    ensures { frame.new ≡ first_bytes len head.now }
{
    let [high, low] = len.to_be_bytes();
    frame.clear();
    if len <= 4095 {
        frame.push(0x10 + high);
        frame.push(low);
    } else {
        frame.append(&[0x10, 0, 0, 0, high, low]);
    }
    frame.append(head);
}

/// The part of the message that the `i`-th ConsecutiveFrame carries, from 1.
#[tactic(auto, using(crate::proofs::CutFrames::part_is))]
fn long_part(tx_dl: DataLength, message: &[u8], i: u16) -> &[u8]
    requires { (1 ≤ i) × (length message.now ≤ 65535) }
    ensures part { result.now ≡ part_of tx_dl message.now i }
    ensures few { length result.now ≤ 63 }
{
    let start = gone_with(tx_dl, message.len() as u16, i - 1);
    let rest = &message[start.min(message.len())..];
    &rest[..rest.len().min(usize::from(tx_dl.in_bytes()) - 1)]
}

/// Makes the `i`-th ConsecutiveFrame (9.6.4) of a message, from 1.
fn put_consecutive(frame: &mut FdBytes, i: u16, part: &[u8])
    requires { length part.now ≤ 63 }
    ensures { frame.new ≡ consecutive_bytes i part.now }
{
    frame.clear();
    frame.push(0x20 + (i % 16) as u8);
    frame.append(part);
}

/// Makes the `k`-th frame of a message, from 0, not filled. The message has one.
#[tactic(auto, using(crate::proofs::CutFrames::cut_single_at, crate::proofs::CutFrames::cut_first_at, crate::proofs::CutFrames::cut_part_at))]
fn put_frame(frame: &mut FdBytes, message: &[u8], k: u16, framing: &Framing)
    requires fits { length message.now ≤ 65535 }
    requires inside { k < frames_of framing.now.tx_dl message.now }
    ensures { slice_get (cut framing.now message.now) k ≡ Some (filled framing.now frame.new) }
{
    let tx_dl = framing.tx_dl;
    let len = message.len() as u16;
    if len <= single_most(tx_dl) {
        put_single(frame, message);
    } else if k == 0 {
        put_first(
            frame,
            tx_dl,
            len,
            &message[..usize::from(head_size(tx_dl, len))],
        );
    } else {
        put_consecutive(frame, k, long_part(tx_dl, message, k));
    }
}

/// Makes the `k`-th frame of the message, from 0, of whatever length. The message has one.
pub fn put_frame_at(frame: &mut FdBytes, message: &Message, k: u16, framing: &Framing)
    requires { k < frames_of framing.now.tx_dl message.now }
    ensures { slice_get (cut framing.now message.now) k ≡ Some frame.new }
{
    put_frame(frame, message.bytes(), k, framing);
    fill(frame, framing);
}
