//! The lines of exchanges of a recording, written as the capture goes by.
#![tactic(auto)]

mod ending;
mod exchange_lines;
mod laws;
mod range;
mod run_end;
mod sink;
mod stamps;
mod telling;

pub use exchange_lines::ExchangeLines;
pub use laws::compared_law;
