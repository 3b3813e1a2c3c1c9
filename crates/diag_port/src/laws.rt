//! A law over the definitions alone.

ghost use Rattle.diag_port.specs.Laws.{AtOnceLaw};

/// Where no reply goes later than at once, each is placed at the moment that gave its step, and nothing is held.
pub fn at_once_law()
    ensures { AtOnceLaw }
{}
