//! A law over the definitions alone.

ghost use Rattle.diag_comparing.specs.Compared.{ComparedLaw};

/// What is written of a capture by its exchanges, and the status of the run, are those that are defined; and a status of 0
/// means that the unit sent to each request what the server replies, as `agrees` says, and nothing unasked.
pub fn compared_law()
    ensures { ComparedLaw }
{}
