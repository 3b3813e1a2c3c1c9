//! What holds of the definitions, as contracts.

ghost use Rattle.diag_exchange.specs.Taking.{FewLaw, OnceLaw, OverLaw};
ghost use Rattle.diag_exchange.specs.Meaning.{AgreesLaw};

/// What was handed out with each happening is, one behind the other, what is over.
pub fn over_law()
    ensures { OverLaw }
{}

/// Each request is told once, with what all that happened is to it.
pub fn once_law()
    ensures { OnceLaw }
{}

/// An exchange agrees exactly where it is ignored, or has the server's reply: but for bytes that vary, and the order of
/// records.
pub fn agrees_law()
    ensures { AgreesLaw }
{}

/// Of one first byte at most two exchanges are kept, and one more while a message comes in.
pub fn few_law()
    ensures { FewLaw }
{}
