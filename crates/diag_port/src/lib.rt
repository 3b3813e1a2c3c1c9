//! One tester's port: its link, and the replies that are held until they may go.
#![tactic(auto)]

mod held;
mod laws;
mod pace;
mod passing;
mod port;
mod stepping;
mod taking;

pub use laws::at_once_law;
pub use pace::Pace;
pub use port::Port;
pub use stepping::TakeSteps;
pub use taking::take;
