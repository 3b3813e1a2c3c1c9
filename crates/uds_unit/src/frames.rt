//! The frames that a call draws, in the order of the bus.

ghost use Rattle.std.specs.Prelude.{◌≡◌, ◌++◌, length, map, OnOk};
ghost use Rattle.diag_setup.specs.Rows.{in_order};
ghost use Rattle.diag_bus.specs.Text.{gathered, time_of};

use diag_bus::{Drawn, gather, sort_batch};
use diag_setup::Setup;
use diag_tp::SentFrames;
use std::alloc::AllocError;
use std::collections::VecDeque;

/// Moves the frames of a batch to the end of those that are due.
fn queue(batch: &mut Vec<Drawn>, waiting: &mut VecDeque<Drawn>) -> Result<(), AllocError>
    ensures { OnOk result (waiting.new.items ≡ waiting.old.items ++ batch.old.items) }
{
    for drawn in batch.drain(..) {
        waiting.push_back(drawn)?;
    }
    Ok(())
}

/// Adds the frames of the testers' lists, in the order of the bus, at the end of those that are due: the earlier time
/// first, at one time the testers in order, of one tester as drawn. The batch is room to work in.
pub(crate) fn queue_drawn(
    setup: &Setup,
    drawn: &[SentFrames],
    batch: &mut Vec<Drawn>,
    waiting: &mut VecDeque<Drawn>,
) -> Result<(), AllocError>
    requires { length drawn.now ≡ length setup.now.testers }
    ensures { OnOk result (waiting.new.items ≡ waiting.old.items
        ++ in_order time_of (gathered 1 (map (λ f. f.items) drawn.now))) }
{
    batch.clear();
    gather(setup, drawn, batch)?;
    sort_batch(batch)?;
    queue(batch, waiting)
}
