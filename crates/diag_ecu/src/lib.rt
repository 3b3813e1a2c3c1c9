//! The diagnostic services of one ECU: a request or a tick is one move of the server.
#![tactic(auto)]

mod bytes;
mod checks;
mod dtcs;
mod ecu;
mod effect;
mod read_data;
mod routine_control;
mod rules;
mod security_access;
mod service;
mod session;
mod software;
mod ticks;
mod write_data;

pub use ecu::Ecu;
pub use effect::{Decision, Effect};
pub use read_data::Lent;
pub use service::{Busy, Lengths, Nrc, Service, ServiceRow, SubFunctions};
pub use session::DEFAULT_SESSION;
