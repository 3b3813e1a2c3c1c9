//! One worker a tester, all at the same time, and the plays of all testers' logs.
#![tactic(auto)]

mod agreeing;
mod crewing;
mod keeping;
mod playing;
mod reading;
mod seating;
mod watch;
mod working;

pub use agreeing::agree;
pub use crewing::crew;
pub use keeping::Keep;
pub use playing::{PlayFault, play};
pub use watch::{NoWatch, Watch};
pub use working::{WorkerRecord, work};
