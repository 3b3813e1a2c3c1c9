//! Exchanges of a recording: which messages of a unit answer which request, and whether it is what the server replies.
#![tactic(auto)]

mod agreeing;
mod exchanges;
mod happening;
mod laws;
mod open;
mod open_box;
mod over;
mod records;
mod spare;

pub use exchanges::Exchanges;
pub use happening::{AskedRequest, CaptureLine, Expected, Happening, Heard, Start, TakenRequest};
pub use laws::{agrees_law, few_law, once_law, over_law};
pub use open::Open;
pub use open_box::OpenBox;
pub use over::{Over, OverKind};
pub use spare::Spare;
