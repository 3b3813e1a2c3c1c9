//! Whole texts: what a run writes, what is told of its faults, and a text read or written whole.
#![tactic(auto)]

mod fault;
mod io;
mod source;
mod taking;
mod target;
mod text;
mod told;

pub use fault::{FaultLine, FixedLine, RunFault, fault_text, status};
pub use io::{ReadFault, WriteFault, read_into, read_whole, write_text, write_whole};
pub use source::Source;
pub use taking::{LineTaker, TakeLines, TakePieces};
pub use target::Target;
pub use text::{
    counted_text, end_text, journal_part, one_part, play_parts_beside, play_text, replay_text,
};
pub use told::{agreement_status, agreement_text, verdict_text};
