//! How an exchange is told: a line of text.
#![tactic(auto)]

mod telling;

pub use telling::{capture_line, tell};
