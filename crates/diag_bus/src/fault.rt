//! Why a line of a capture was not taken.

ghost use Rattle.std.specs.Prelude.{◌≡◌};

use diag_can::LineFault;
use std::alloc::AllocError;
use thiserror::Error;

/// Why a line of a capture was not taken.
#[derive(Clone, Copy, PartialEq, Eq, Debug, Drop, Error)]
pub enum BusFault {
    /// The line is at fault.
    #[error("{0}")]
    Line(LineFault),
    /// Memory was refused, or 2^40 replies wait.
    #[error("memory")]
    Memory,
    /// By the line a tester's clock would pass 2^63 ms.
    #[error("too late")]
    Late,
}

impl From<AllocError> for BusFault {
    ghost use Rattle.diag_bus.specs.declared.fault.BusFault.TheVariants as fault;

    ghost from_gives = { λ e f. f ≡ fault.Memory };

    fn from(_refused: AllocError) -> BusFault {
        BusFault::Memory
    }
}
