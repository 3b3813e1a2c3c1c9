//! What the server makes of a request of a recording, and how a message of the unit is compared with it.
#![tactic(auto)]

mod entered;
mod expecting;
mod laws;

pub use entered::Entered;
pub use laws::{lengths_law, values_law};
