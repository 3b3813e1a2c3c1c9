//! Where the frames of a message are made: a classic frame is handed out, one of CAN FD is made where it stays.

ghost use Rattle.std.specs.Prelude.{◌≡◌, ◌<◌, Some, slice_get};
ghost use Rattle.diag_pdu.specs.Cut.{cut, frames_of};

use crate::frames::frame_at;
use crate::framing::Framing;
use crate::length::DataLength;
use crate::long_frames::put_frame_at;
use crate::message::Message;
use diag_can::{FdBytes, FrameBytes};

/// Where a frame of a message is made: one of up to 8 bytes, or of up to 64.
pub trait FramePlace {
    ghost use Rattle.std.specs.Prelude.{ℕ, List};
    ghost use Rattle.diag_pdu.specs.declared.framing.Framing.{Framing};

    /// What is handed out of the frame.
    type Made;

    /// The frames of this framing can be made there.
    ghost is_for: { Framing → Type 0 };

    /// The frame's bytes, by the place and what was handed out.
    ghost bytes: { Self → Self.Made → List ℕ };

    /// TX_DL of that framing. Where frames have up to 8 bytes, it isn't looked at.
    fn tx_dl(framing: &Framing) -> DataLength
        requires fits { is_for framing.now }
        ensures { result ≡ framing.now.tx_dl };

    /// Makes the `k`-th frame of the message, from 0. The message has one.
    fn put(&mut self, message: &Message, k: u16, framing: &Framing) -> Self::Made
        requires fits { is_for framing.now }
        requires inside { k < frames_of framing.now.tx_dl message.now }
        ensures { slice_get (cut framing.now message.now) k ≡ Some (bytes self.new result) };

    /// Makes a frame of the same bytes.
    fn put_short(&mut self, frame: FrameBytes) -> Self::Made
        ensures { bytes self.new result ≡ frame };
}

/// The place of classic frames: each is handed out.
#[derive(Drop)]
pub struct InHand;

impl FramePlace for InHand {
    ghost use Rattle.std.specs.Prelude.{◌≡◌};
    ghost use Rattle.diag_pdu.specs.declared.length.DataLength.TheVariants.{Dl8};

    type Made = FrameBytes;

    ghost is_for = { λ framing. framing.tx_dl ≡ Dl8 };

    ghost bytes = { λ _ frame. frame };

    #[inline(always)]
    fn tx_dl(_framing: &Framing) -> DataLength {
        DataLength::Dl8
    }

    #[inline(always)]
    fn put(&mut self, message: &Message, k: u16, framing: &Framing) -> FrameBytes {
        frame_at(message, k, framing)
    }

    #[inline(always)]
    fn put_short(&mut self, frame: FrameBytes) -> FrameBytes {
        frame
    }
}

impl FramePlace for FdBytes {
    ghost use Rattle.std.specs.Prelude.{⊤};

    type Made = ();

    ghost is_for = { λ _. ⊤ };

    ghost bytes = { λ place _. place };

    fn tx_dl(framing: &Framing) -> DataLength {
        framing.tx_dl
    }

    fn put(&mut self, message: &Message, k: u16, framing: &Framing) {
        put_frame_at(self, message, k, framing);
    }

    fn put_short(&mut self, frame: FrameBytes) {
        self.clear();
        self.append(frame.as_slice());
    }
}
