//! The setup of the server: as it was read, the tests that it has to pass, and what it tells.
#![tactic(auto)]

mod answers;
mod check;
mod fault;
mod items;
mod keyed;
mod raw;
mod setup;
mod tester_id;

pub use fault::SetupFault;
pub use items::Items;
pub use raw::{
    Keyed, PatternItem, RawAnswer, RawDid, RawDtc, RawKeyRow, RawLevel, RawPattern, RawRoutine,
    RawSetup, RawTester, TemplateItem,
};
pub use setup::{ServerParameters, Setup};
pub use tester_id::TesterId;
