//! What can be told of a file behind a fault, and of a recording behind a run.
#![tactic(auto)]

mod form;
mod journal;
mod kind;
mod limit;
mod line;
mod often;
mod place;
mod seen;
mod stamps;
mod twice;

pub use journal::expected;
pub use kind::{Instead, TOO_LONG, file_kind, instead_of_setup, is_recording, looks};
pub use limit::beyond;
pub use line::{FoundLine, ShownLine, line_at};
pub use place::Place;
pub use seen::{Recording, Side};
