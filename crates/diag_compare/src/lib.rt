//! What `compare` writes of a capture, and the status that it ends with, as definitions.
#![tactic(auto)]

mod laws;

pub use laws::{answers_law, asks_law, heads_law, heard_law, status_law, tells_law};
