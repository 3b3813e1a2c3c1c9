//! A run of the program: files in, text out.
#![tactic(auto)]

mod alone_run;
mod answer;
mod bus_run;
mod capture;
mod ending;
mod file_run;
mod files;
mod journal_lines;
mod laws;
mod logs;
mod playing;
mod replies;
mod serial;

pub use alone_run::{Alone, run_alone};
pub use bus_run::{run_bus, run_bus_and_tell, run_fault};
pub use capture::{Capture, CaptureFault};
pub use ending::Ending;
pub use file_run::{Job, Outcome, run, run_and_tell, run_text};
pub use files::read_config;
pub use laws::judged_law;
