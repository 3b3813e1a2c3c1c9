//! Tests of what no run of the program shows: `run` of each job with each read and each write failing in turn, writers whose
//! flush fails, faults that no file brings about, calls for who embeds the crates (a play that is kept, and a bus that is
//! given its lines), a capture of more than two million lines, and live runs on a scripted bench with a clock of its own, with
//! devices that fail and the record run again.
//! (The program makes a run's text and writes it by calls of its own: `test/devices.py` lets its reads and writes fail.)
#![tactic(auto)]

#[cfg(test)]
mod capture;
#[cfg(test)]
mod devices;
#[cfg(test)]
mod ending;
#[cfg(test)]
mod failing;
#[cfg(test)]
mod faults;
#[cfg(test)]
mod flushing;
#[cfg(test)]
mod given;
#[cfg(test)]
mod kept;
#[cfg(test)]
mod live;
#[cfg(test)]
mod long;
