//! A unit on a CAN bus, for C and for what calls C.
#![tactic(auto)]

mod clock;
mod device;
mod entries;
mod exports;
mod frames;
mod given;
mod handle;
mod laws;
mod loose;
mod node;
mod status;
