//! The ways to one desk: a gate, which hands the whole desk to one tester's seat at a time, and doors over a gate or
//! over a lock.
#![tactic(auto)]

mod desk_box;
mod door;
mod fault;
mod gate;
mod lock;
mod view;

pub use desk_box::DeskBox;
pub use door::{Door, GateDoor};
pub use fault::TryFault;
pub use gate::{Gate, Guard, Host, Seat};
pub use lock::LockDoor;
pub use view::{OneHistory, View};
