//! The play of all testers' logs on one thread.

ghost use Rattle.std.specs.Prelude.{◌≡◌, ◌<◌, length, map, IfOk, Err};
ghost use Rattle.diag_desk.specs.Entry.{most_entries};
ghost use Rattle.diag_setup.specs.Setup.{link_of};
ghost use Rattle.diag_world.specs.Headline.{IsPlay};
ghost use Rattle.diag_world.specs.Weaving.{steps_of, turns};

use crate::laws::{interleaving_law, turns_law};
use crate::taking::take_turns;
use crate::world::World;
use diag_can::Log;
use diag_desk::{Desk, StepFault};
use diag_setup::Setup;
use diag_tp::SentFrames;
use std::alloc::Global;

/// What a play leaves: the desk, and the frames that each tester was sent, in the testers' order.
#[derive(Drop)]
pub struct Played {
    /// The ECU and the journal.
    pub desk: Desk,
    /// The frames of each tester.
    pub sent: Vec<SentFrames>,
}

/// Plays the testers' logs on one thread: one event of each in turn, in the testers' order, a log that has ended being
/// skipped.
///
/// # Errors
/// `JournalFull` where the logs give more steps than a journal has entries, `Memory` where memory is refused.
pub fn serial(alloc: Global, setup: &Setup, logs: &[Log]) -> Result<Played, StepFault>
    requires { length logs.now ≡ length setup.now.testers }
    ensures played { IfOk result (λ played. let events = map (λ log. log.items) logs.now in
        IsPlay setup.now (turns events) events played.desk (map (λ s. s.items) played.sent.items)) }
    ensures full { result ≡ Err StepFault.JournalFull
        → most_entries
        < length (steps_of (link_of setup.now) (turns (map (λ log. log.items) logs.now))) }
{
    let mut world = World::new(alloc, setup)?;
    take_turns(&mut world, setup, logs)?;
    interleaving_law();
    turns_law();
    let played = world.into_played(alloc)?;
    Ok(played)
}
