//! A tester of a recording: what the unit sent it, which of its exchanges are over, and which of these differ.
#![tactic(auto)]

mod tester;

pub use tester::{Counts, Judged, Tester};
