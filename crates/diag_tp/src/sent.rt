//! Frames that were sent.

use diag_can::Frame;

/// A frame, and the time in ticks at which it goes.
#[derive(Debug, Drop)]
pub struct Sent {
    /// The ticks of its tester until then.
    pub at: u64,
    /// The frame, on the tester's response identifier.
    pub frame: Frame,
}
