//! A law over the definitions alone.

ghost use Rattle.diag_run.specs.Wanted.{JudgedLaw};

/// What a verdict's end adds means that of each tester the recording has just the frames that the server sends, without
/// response pending; and what is told in place of it that of some tester it hasn't, with the first difference.
pub fn judged_law()
    ensures { JudgedLaw }
{}
