//! Laws over the definitions alone.

ghost use Rattle.uds_unit.specs.AsBus.{AsBusLaw};

/// What a unit makes of moments and frames is what `bus` makes of a capture whose lines say them: the same events, the same
/// journal, and its frames are those of the reply lines.
pub fn as_bus_law()
    ensures { AsBusLaw }
{}
