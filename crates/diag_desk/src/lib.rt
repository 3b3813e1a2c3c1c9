//! The desk: the ECU with its journal, the journal's text, and replay.
#![tactic(auto)]

mod clocks;
mod desk;
mod entry;
mod flat;
mod following;
mod journal;
mod laws;
mod line;
mod next;
mod read;
mod replaying;
mod sixteen;
mod table;
mod text;
mod usual;
mod version;

pub use desk::{Desk, StepFault};
pub use entry::{Entry, EntryRef, MOST_ENTRIES, StepRef};
pub use following::{Replayed, TextFault, TextReplay};
pub use journal::{Journal, JournalPush};
pub use laws::{legal_prefix_law, one_journal_law, unlock_law};
pub use read::{JournalFault, read_journal};
pub use replaying::{ReplayFault, replay};
pub use text::{journal_text, journal_text_at, write_entry, write_header};
pub use version::JournalVersion;
