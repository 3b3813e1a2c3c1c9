//! A world of two testers, event by event: one that is refused for want of memory is given again.

ghost use Rattle.std.specs.Prelude.{◌≡◌, ◌≤◌, length};

use crate::trouble::{Trouble, holds};
use diag_can::{LentEvent, Timing, read_log, write_line};
use diag_desk::{StepFault, journal_text};
use diag_setup::{Setup, TesterId};
use diag_stored::{PLAYED, two_testers};
use diag_world::World;
use std::alloc::Global;

/// The events of both testers' logs in turn: the tester's place from 0, and its line.
const TURNS: [(usize, &[u8]); 13] = [
    (0, b"(0.000000) can0 7E0#021003"),
    (1, b"tick"),
    (0, b"(0.000000) can0 7E0#022701"),
    (1, b"tick"),
    (0, b"(0.000000) can0 7E0#062702AABBCCDD"),
    (1, b"tick"),
    (0, b"(0.000000) can0 7E0#10142EF190414243"),
    (1, b"(0.000000) can0 7E1#0322F190"),
    (0, b"(0.000000) can0 7E0#214445464748494A"),
    (1, b"(0.000000) can0 7E1#300000"),
    (0, b"(0.000000) can0 7E0#224B4C4D4E4F5051"),
    (1, b"(0.000000) can0 7E1#0322F190"),
    (1, b"(0.000000) can0 7E1#300000"),
];

/// Gives an event, and where memory is refused gives it once more.
fn give(world: &mut World, who: TesterId, event: &LentEvent<'_>) -> Result<(), StepFault>
    requires { who ≤ length world.old.sent }
    ensures { length world.new.sent ≡ length world.old.sent }
{
    match world.event(who, event) {
        Err(StepFault::Memory) => world.event(who, event),
        answer => answer,
    }
}

/// Gives the event of a tester's line.
fn give_line(
    alloc: Global,
    world: &mut World,
    setup: &Setup,
    index: usize,
    line: &[u8],
) -> Result<(), Trouble>
    requires { length world.old.sent ≡ length setup.now.testers }
    ensures { length world.new.sent ≡ length world.old.sent }
{
    if index >= setup.testers() {
        return Err(Trouble::Wrong);
    }
    let who = setup.who(index);
    let log = read_log(alloc, line, &setup.ids(who), Timing::Lines)?;
    if log.len() != 1 {
        return Err(Trouble::Wrong);
    }
    Ok(give(world, who, &log.get(0))?)
}

fn give_all(alloc: Global, world: &mut World, setup: &Setup) -> Result<(), Trouble>
    requires { length world.old.sent ≡ length setup.now.testers }
    ensures { length world.new.sent ≡ length world.old.sent }
{
    for (index, line) in &TURNS {
        give_line(alloc, world, setup, *index, line)?;
    }
    Ok(())
}

/// Adds the lines of the frames that a tester was sent.
fn add_frames(text: &mut Vec<u8>, world: &World, setup: &Setup, index: usize) -> Result<(), Trouble>
    requires { length world.now.sent ≡ length setup.now.testers }
{
    if index >= setup.testers() {
        return Err(Trouble::Wrong);
    }
    let who = setup.who(index);
    let sent = world.sent(who);
    for index in 0..sent.len() {
        let frame = sent.get(index);
        write_line(
            text,
            setup.name(who),
            setup.flags(who),
            frame.at,
            frame.id,
            frame.bytes,
        )?;
    }
    Ok(())
}

/// The frames of both testers and the journal.
fn told(alloc: Global, world: &World, setup: &Setup) -> Result<Vec<u8>, Trouble>
    requires { length world.now.sent ≡ length setup.now.testers }
{
    let mut text = Vec::new(alloc);
    add_frames(&mut text, world, setup, 0)?;
    add_frames(&mut text, world, setup, 1)?;
    text.extend_from_slice(journal_text(alloc, world.journal())?.as_slice())?;
    Ok(text)
}

/// Whether that is the text of the stored run.
fn tells(alloc: Global, world: &World, setup: &Setup) -> Result<bool, Trouble>
    requires { length world.now.sent ≡ length setup.now.testers }
{
    let text = told(alloc, world, setup)?;
    Ok(text.as_slice() == PLAYED.as_bytes())
}

/// The same behind all events.
fn tells_all(alloc: Global, world: &mut World, setup: &Setup) -> Result<bool, Trouble>
    requires { length world.old.sent ≡ length setup.now.testers }
{
    give_all(alloc, world, setup)?;
    tells(alloc, world, setup)
}

/// The same of a world of this setup.
fn plays(alloc: Global, setup: &Setup) -> Result<bool, Trouble> {
    let mut world = World::new(alloc, setup)?;
    tells_all(alloc, &mut world, setup)
}

fn stored_plays(alloc: Global) -> Result<bool, Trouble> {
    let setup = two_testers(alloc)?;
    plays(alloc, &setup)
}

#[test]
fn refused_event_again(rt: HostRuntime) -> Result<(), Trouble> {
    holds(stored_plays(rt.alloc()))
}
