//! Laws over the definitions alone.

ghost use Rattle.diag_live.specs.Live.{RecordLaw, RestampLaw};

/// A line of the capture says what the line that was heard does, but for its moment, and a line of ticks its ticks.
pub fn restamp_law()
    ensures { RestampLaw }
{}

/// The record is the text of its lines: read again, it has just these.
pub fn record_law()
    ensures { RecordLaw }
{}
