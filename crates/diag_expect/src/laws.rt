//! What holds of the definitions, as contracts.

ghost use Rattle.diag_expect.specs.Varying.{LengthsLaw, ValuesLaw};

/// In each state of a run each identifier has a value as long as the setup's.
pub fn lengths_law()
    ensures { LengthsLaw }
{}

/// In a reply to ReadDataByIdentifier the bytes that vary are those of the values that vary.
pub fn values_law()
    ensures { ValuesLaw }
{}
