//! A capture of the whole bus, line by line.

use crate::ending::{Trouble, holds};
use diag_bus::{Bus, BusFault, Replies};
use diag_stored::two_testers;
use std::alloc::{AllocError, Global};

/// Gives the bus the lines of a capture, and puts what they draw behind the text.
fn take_lines(bus: &mut Bus<Replies>, lines: &[&str], text: &mut Vec<u8>) -> Result<(), BusFault> {
    bus.begin(text)?;
    for line in lines {
        bus.take_line(line.as_bytes(), text)?;
    }
    Ok(())
}

const CAPTURE: [&str; 5] = [
    "(0000000100.000000) can0 7E0#021003",
    "(0000000100.000400) can0 7E8#065003003201F4CC",
    "(0000000100.010000) can0 7E1#021003",
    "(0000000100.020000) can0 7E0#021001",
    "(0000000100.030000) can0 7E1#021003",
];

const DRAWN: &[u8] = b"\
(0000000100.000000) A 7E8#065003003201F4CC
(0000000100.010000) B 7E9#037F1021CCCCCCCC
(0000000100.020000) A 7E8#065001003201F4CC
(0000000100.030000) B 7E9#065003003201F4CC
";

/// Whether the lines of the capture draw these.
fn draws(alloc: Global, bus: &mut Bus<Replies>) -> Result<bool, AllocError> {
    let mut text = Vec::new(alloc);
    match take_lines(bus, &CAPTURE, &mut text) {
        Ok(()) => Ok(text.as_slice() == DRAWN),
        Err(BusFault::Memory) => Err(AllocError),
        Err(BusFault::Line(_) | BusFault::Late) => Ok(false),
    }
}

fn opened(alloc: Global) -> Result<Bus<Replies>, AllocError> {
    let setup = two_testers(alloc)?;
    Bus::new(alloc, setup, Replies::new(alloc))
}

#[test]
fn each_line_draws_its_replies(rt: HostRuntime) -> Result<(), Trouble> {
    let mut bus = opened(rt.alloc())?;
    holds(draws(rt.alloc(), &mut bus))
}
