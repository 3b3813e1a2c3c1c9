//! The tables of the ECU: data identifiers, DTCs, routines and security levels.
#![tactic(auto)]

mod answers;
mod bytes;
mod dids;
mod dtcs;
mod levels;
mod routines;
mod search;
mod security;

pub use answers::{Access, AnswerRow, Answers, Pattern, Template, Templates, fits};
pub use dids::{DidFault, DidRow, DidRule, Dids};
pub use dtcs::{ALL_GROUPS, Dtc, DtcMemory};
pub use levels::{KeyRow, KeyRows, Level, Levels};
pub use routines::{Routine, RoutineState, Routines};
pub use search::find_row;
pub use security::{KeyAnswer, Outstanding, Security, SecurityState, SeedAnswer};
