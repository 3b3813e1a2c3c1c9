//! All testers' ports and the desk on one thread; the laws.
#![tactic(auto)]

mod channel;
mod keeper;
mod laws;
mod lazy_port;
mod serial_play;
mod server;
mod taking;
mod world;

pub use channel::Channel;
pub use keeper::{Keeper, NoJournal};
pub use laws::{interleaving_law, turns_law, weaving_law};
pub use serial_play::{Played, serial};
pub use server::{CLOSING_TIME, Server};
pub use taking::{TakeEvents, take_turns};
pub use world::World;
