//! Tests of the sequential server and of testers together, by public calls: what no run of the program shows of a link, a
//! message, the ECU and the desk, a world to which a refused event is given again, the gate with its doors, and the
//! workers. (What a play or a capture writes is run by the built program: `runs/`, `test/examples.py`, `test/twin.py`.)
//! Some of the callers are those that docs/EMBED.md shows, and so is a server without a journal.
//!
//! Where memory is refused, a test ends with that as its error: so each allocation can be refused in turn, and with
//! memory enough such an answer fails the test.
#![tactic(auto)]

#[cfg(test)]
mod delays;
#[cfg(test)]
mod desk;
#[cfg(test)]
mod ecu;
#[cfg(test)]
mod gate;
#[cfg(test)]
mod journal;
#[cfg(test)]
mod link;
#[cfg(test)]
mod server;
#[cfg(test)]
mod trouble;
#[cfg(test)]
mod unit;
#[cfg(test)]
mod workers;
#[cfg(test)]
mod world;
