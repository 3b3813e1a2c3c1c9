//! All logs on one thread, one event of each in turn, with the text of the play as it goes.

ghost use Rattle.std.specs.Prelude.{◌≡◌, ◌<◌, Err, IfOk, length, map};
ghost use Rattle.diag_desk.specs.Entry.{most_entries};
ghost use Rattle.diag_setup.specs.Setup.{link_of};
ghost use Rattle.diag_world.specs.Weaving.{steps_of, turns};
ghost use Rattle.diag_run.specs.Run.{IsPlayedText, in_turn, joined};

use crate::playing::Playing;
use diag_can::{Log, Timing};
use diag_desk::StepFault;
use diag_setup::Setup;
use diag_world::{interleaving_law, take_turns, turns_law};
use std::alloc::Global;

/// Plays the testers' logs: one event of each in turn, in the testers' order, a log that has ended being skipped. What the
/// play writes is written as it goes.
///
/// # Errors
/// `JournalFull` where the logs give more steps than a journal has entries, `Memory` where memory is refused.
pub(crate) fn serial_text(
    alloc: Global,
    setup: &Setup,
    logs: &[Log],
    only_journal: bool,
    timing: Timing,
) -> Result<Vec<Vec<u8>>, StepFault>
    requires { length logs.now ≡ length setup.now.testers }
    ensures played { IfOk result (λ parts. IsPlayedText in_turn only_journal timing setup.now
        (map (λ log. log.items) logs.now) (joined parts)) }
    ensures full { result ≡ Err StepFault.JournalFull
        → most_entries
        < length (steps_of (link_of setup.now) (turns (map (λ log. log.items) logs.now))) }
{
    let mut playing = Playing::new(alloc, setup, only_journal, timing)?;
    take_turns(&mut playing, setup, logs)?;
    interleaving_law();
    turns_law();
    let parts = playing.into_parts(alloc, setup, only_journal)?;
    Ok(parts)
}
