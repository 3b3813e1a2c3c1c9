//! The two sides of a link: one receives messages, the other sends them (ISO 15765-2:2016, 9.3 and 9.6.5).
#![tactic(auto)]

mod queue;
mod receiver;
mod sender;
mod sending;

pub use receiver::{Receiver, go_on};
pub use sender::Sender;
