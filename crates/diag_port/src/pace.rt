//! When *response pending* goes.

ghost use Rattle.std.specs.Prelude.{◌≡◌};
ghost use Rattle.diag_port.specs.Late.{pace_of};

use diag_setup::Setup;

/// When *response pending* goes, in ticks after the request: first after so many, and then again and again after so many
/// more (ISO 14229-1:2013, 9.2).
#[derive(Clone, Copy, Drop)]
pub struct Pace {
    /// P2Server_max.
    pub first: u32,
    /// P2*Server_max, at least 1.
    pub step: u32,
}

impl Pace {
    /// The pace of a setup.
    pub fn of(setup: &Setup) -> Pace
        ensures { result ≡ pace_of setup.now }
    {
        let values = setup.values();
        Pace {
            first: u32::from(values.p2_ms),
            step: (10 * u32::from(values.p2_star_10ms)).max(1),
        }
    }
}
