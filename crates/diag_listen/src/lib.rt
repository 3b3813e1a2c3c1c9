//! The unit's side of a recording, heard: of each tester the message that the unit sends it, and the exchanges that
//! aren't over.
#![tactic(auto)]

mod listener;

pub use listener::Listener;
