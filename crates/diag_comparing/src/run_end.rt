//! How a run ends that tells of exchanges.

use crate::exchange_lines::ExchangeLines;
use diag_ecu::Ecu;
use diag_run::{CaptureFault, Ending};
use diag_setup::Setup;
use std::alloc::Global;

/// The lines of the exchanges that aren't over, and those of the testers; the status says whether an exchange differs, and
/// whether one was compared.
impl Ending for ExchangeLines {
    ghost use Rattle.std.proofs.Common.{ap};
    ghost use Rattle.diag_comparing.specs.Compared.{compared_end};

    ghost ends = { λ own. compared_end own.differences };

    fn add_end(
        &self,
        alloc: Global,
        setup: &Setup,
        _: &Ecu,
        text: &mut Vec<u8>,
    ) -> Result<u8, CaptureFault> {
        match self.end(alloc, setup, text) {
            Ok(status) => Ok(status),
            Err(_) => Err(CaptureFault::Memory),
        }
    }

    ghost ends_as_asked = { λ _ _ same. ap compared_end same };
}
