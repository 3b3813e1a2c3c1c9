//! Messages, and the frames that carry them (ISO 15765-2:2016, 9.6).
#![tactic(auto)]

mod frame_place;
mod frames;
mod framing;
mod kind;
mod laws;
mod length;
mod long_frames;
mod message;
mod pci;
mod setup;
mod step;

pub use frame_place::{FramePlace, InHand};
pub use frames::{
    consecutive_frame, first_frame, flow_frame, frame_at, frame_of, frames_of, lone_frame, padded,
    single_frame,
};
pub use framing::Framing;
pub use kind::{consecutive_count, gone_with, head_size, single_most};
pub use laws::classic_law;
pub use length::DataLength;
pub use long_frames::put_frame_at;
pub use message::{Message, MessageFault};
pub use pci::Pci;
pub use setup::LinkSetup;
pub use step::{Request, Step};
