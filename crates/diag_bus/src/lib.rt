//! The recording of a whole bus, line by line: what each line gives the server, and what it draws.
#![tactic(auto)]

mod bus;
mod clock;
mod comparing;
mod entering;
mod fault;
mod filled;
mod journal;
mod laws;
mod line_frames;
mod no_text;
mod node;
mod replies;
mod request_ids;
mod response_ids;
mod sink;
mod verdict;
mod writing;

pub use bus::{Bus, empty_lists};
pub use clock::{Clock, Start};
pub use comparing::Comparisons;
pub use fault::BusFault;
pub use filled::Filled;
pub use journal::Journal;
pub use laws::{clocks_law, run_law, verdict_law};
pub use line_frames::{LineFrames, clear_all};
pub use no_text::NoText;
pub use replies::Replies;
pub use request_ids::{Owner, RequestIds};
pub use response_ids::ResponseIds;
pub use sink::Sink;
pub use verdict::{Difference, Recorded, Verdict};
pub use writing::{Drawn, gather, sort_batch};
