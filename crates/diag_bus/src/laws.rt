//! Laws over the definitions alone.

ghost use Rattle.diag_bus.specs.Events.{ClocksLaw};
ghost use Rattle.diag_bus.specs.Text.{RunLaw};
ghost use Rattle.diag_bus.specs.Verdict.{VerdictLaw};

/// Every interleaving of the testers' events has one run: a journal that is legal from the opening and asks what the
/// events give, of each tester what its own events give. The journal and the frames that are computed are that run's.
pub fn run_law()
    ensures { RunLaw }
{}

/// The events of a capture take the same time at each tester: the time that its lines tell, in ticks of a millisecond.
pub fn clocks_law()
    ensures { ClocksLaw }
{}

/// A verdict means what it says: the line that it names is the first that has a frame of the unit's where the server sends
/// another, or none; the tester of whom it says that frames are missing is the first such where no line differs; and it
/// says that all agree exactly where of each tester the frames of the recording, without response pending, are those that the
/// server sends.
pub fn verdict_law()
    ensures { VerdictLaw }
{}
