//! The server on a bus as it goes: lines as they come, the time from a clock, and a capture of both that says what was
//! written.
#![tactic(auto)]

mod bench;
mod hearing;
mod laws;
mod restamp;
mod running;
mod serving;

pub use bench::{Bench, Heard};
pub use laws::{record_law, restamp_law};
pub use running::{live, run_live_and_tell};
