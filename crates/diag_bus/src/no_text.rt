//! The sink that writes nothing.

use crate::clock::Clock;
use crate::line_frames::LineFrames;
use crate::sink::Sink;
use diag_can::{BusLine, TickCount};
use diag_ecu::Ecu;
use diag_pdu::{Message, Request};
use diag_setup::{Setup, TesterId};
use std::alloc::{AllocError, Global};

/// Writes nothing while the capture goes by: what is wanted is the end.
#[derive(Drop)]
pub struct NoText;

impl Sink for NoText {
    ghost use Rattle.std.specs.Prelude.{⊤, false, []};

    ghost is_for = { λ _ _. ⊤ };

    ghost took = { λ _ _ _ _. ⊤ };

    ghost Aim = { Unit {0} };

    ghost aim = { λ _. tt };

    ghost written = { λ _ _ _. [] };

    ghost wants_ticks = { false };

    fn begin(&mut self, _: Global, _: &Setup) -> Result<(), AllocError> {
        Ok(())
    }

    fn write_header(&self, _: &mut Vec<u8>) -> Result<(), AllocError> {
        Ok(())
    }

    #[inline(always)]
    fn wants_ticks(&self) -> bool {
        false
    }

    #[inline(always)]
    fn enter_request(
        &mut self,
        _: &Ecu,
        _: u64,
        _: TesterId,
        _: &Request,
        _: Option<&Message>,
    ) -> Result<(), AllocError> {
        Ok(())
    }

    #[inline(always)]
    fn enter_ticks(
        &mut self,
        _: &Ecu,
        _: u64,
        _: TesterId,
        _: TickCount,
    ) -> Result<(), AllocError> {
        Ok(())
    }

    #[inline(always)]
    fn end_line(
        &mut self,
        _: &Setup,
        _: &BusLine,
        _: u64,
        _: &Clock,
        _: &LineFrames,
        _: &mut Vec<u8>,
    ) -> Result<(), AllocError> {
        Ok(())
    }

    ghost skips_ticks = { λ _ _ _ _ _ _ _ _. tt };
}
