//! Workers and plays in threads.

mod agreeing;
mod crews;
pub(crate) mod given;
mod meeting;
mod plays;
mod working;
