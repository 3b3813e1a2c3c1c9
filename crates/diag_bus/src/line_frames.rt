//! The frames that a line draws.

ghost use Rattle.std.specs.Prelude.{◌≡◌, ℕ, List, [], Some, length, slice_get, map};
ghost use Rattle.diag_tp.specs.declared.sent.Sent.{Sent as ASent};
ghost use Rattle.diag_bus.specs.Filled.{AreFilled};

use crate::filled::Filled;
use diag_tp::SentFrames;

/// The frames that each tester is sent with a line.
#[derive(Drop)]
pub struct LineFrames {
    /// Of each tester, in order.
    pub lists: Vec<SentFrames>,
    /// Which of these may have some.
    pub filled: Filled,
}

impl LineFrames {
    ghost use Rattle.diag_bus.specs.Node.{lists_of};

    /// Empties the lists.
    pub(crate) fn clear(&mut self)
        requires filled { AreFilled self.old.filled (lists_of self.old) }
        ensures filled { self.new.filled ≡ Filled.Nowhere }
        ensures empty { (i : ℕ) (frames : List ASent)
            → slice_get (lists_of self.new) i ≡ Some frames → frames ≡ [] }
        ensures lists { length self.new.lists.items ≡ length self.old.lists.items }
    {
        clear(&mut self.lists, self.filled);
        self.filled = Filled::Nowhere;
    }
}

/// Empties the testers' lists, of which these may have frames.
fn clear(drawn: &mut Vec<SentFrames>, filled: Filled)
    requires filled { AreFilled filled (map (λ f. f.items) drawn.old.items) }
    ensures empty { (i : ℕ) (frames : List ASent)
        → slice_get (map (λ f. f.items) drawn.new.items) i ≡ Some frames → frames ≡ [] }
    ensures lists { length drawn.new.items ≡ length drawn.old.items }
{
    match filled {
        Filled::Nowhere => {}
        Filled::At(index) => drawn[index].clear(),
        Filled::Anywhere => clear_all(drawn),
    }
}

/// Empties each tester's list.
pub fn clear_all(drawn: &mut Vec<SentFrames>)
    ensures empty { (i : ℕ) (frames : List ASent)
        → slice_get (map (λ f. f.items) drawn.new.items) i ≡ Some frames → frames ≡ [] }
    ensures lists { length drawn.new.items ≡ length drawn.old.items }
{
    for index in 0..drawn.len() {
        drawn[index].clear();
    }
}
