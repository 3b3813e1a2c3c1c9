//! A frame that is given.

use diag_can::CanId;
use std::marker::Model;

/// A frame of the bus that a unit is given; its bytes are lent.
#[derive(Drop)]
pub struct GivenFrame<'a> {
    /// Its identifier.
    pub id: CanId,
    /// Its data, up to 64 bytes.
    pub bytes: &'a [u8],
}

impl<'a> Model for GivenFrame<'a> {
    ghost use Rattle.std.specs.Prelude.{length, ◌≤◌};
    ghost use Rattle.diag_can.specs.declared.frame.Frame.{Frame};

    ghost Value = { Frame };

    ghost view = { λ f. record { id = f.id; bytes = f.bytes.now } };

    ghost invariant = { λ f. length f.bytes.now ≤ 64 };
}
