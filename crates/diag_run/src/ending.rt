//! What the end of a capture adds.

ghost use Rattle.std.specs.Prelude.{◌≡◌, Ok, IfErr, IfOk, OnErr};
ghost use Rattle.diag_port.specs.Port.{Grew};
ghost use Rattle.diag_run.specs.Wanted.{EndsAs, EndsWell, IsEndFault, end_with};

use crate::capture::CaptureFault;
use diag_bus::{Comparisons, Journal, NoText, Replies, Sink, Verdict};
use diag_ecu::Ecu;
use diag_setup::Setup;
use diag_text::{agreement_status, agreement_text, end_text, verdict_text};
use std::alloc::Global;

/// A sink with what the end of a capture adds.
pub trait Ending: Sink {
    ghost use Rattle.std.specs.Prelude.{ℕ, List, Result};
    ghost use Rattle.diag_setup.specs.declared.raw.RawSetup.{RawSetup};
    ghost use Rattle.diag_run.specs.Wanted.{End};

    /// What the capture's end adds, and the status of the run; or what is told in place of that, where the run ends otherwise.
    ghost ends: { Self → RawSetup → List (List ℕ) → Result End (List ℕ) };

    /// Adds what the capture's end adds, where the ECU is this, and answers the status of the run.
    ///
    /// # Errors
    /// `Memory`, and only where the run ends well; and `Otherwise` exactly where something is told in place of that, with
    /// what is told, where there is memory for it. The text is as it was.
    fn add_end(
        &self,
        alloc: Global,
        setup: &Setup,
        ecu: &Ecu,
        text: &mut Vec<u8>,
    ) -> Result<u8, CaptureFault>
        requires begun { Self.is_for self.now setup.now }
        ensures ok { IfOk result (λ status. Grew text.old.items text.new.items (λ more.
            EndsAs Self.took ends self.now setup.now ecu.now (Ok (end_with more status)))) }
        ensures err { IfErr result (IsEndFault (EndsAs Self.took ends self.now setup.now ecu.now)
            (EndsWell Self.took ends self.now setup.now ecu.now)) }
        ensures kept { OnErr result (text.new.items ≡ text.old.items) };

    /// It is that of what the sink is asked for.
    ghost ends_as_asked: { (a b : Self) → Self.aim a ≡ Self.aim b → ends a ≡ ends b };
}

impl Ending for Replies {
    ghost use Rattle.std.specs.Prelude.{[], Ok, refl};
    ghost use Rattle.diag_run.specs.Wanted.{end_with};

    ghost ends = { λ _ _ _. Ok (end_with [] 0) };

    fn add_end(&self, _: Global, _: &Setup, _: &Ecu, _: &mut Vec<u8>) -> Result<u8, CaptureFault> {
        Ok(0)
    }

    ghost ends_as_asked = { λ _ _ _. refl };
}

impl Ending for Journal {
    ghost use Rattle.std.specs.Prelude.{[], Ok, refl};
    ghost use Rattle.diag_run.specs.Wanted.{end_with};

    ghost ends = { λ _ _ _. Ok (end_with [] 0) };

    fn add_end(&self, _: Global, _: &Setup, _: &Ecu, _: &mut Vec<u8>) -> Result<u8, CaptureFault> {
        Ok(0)
    }

    ghost ends_as_asked = { λ _ _ _. refl };
}

/// The end of the run.
impl Ending for NoText {
    ghost use Rattle.std.specs.Prelude.{Ok, refl};
    ghost use Rattle.diag_bus.specs.Text.{ecu_after};
    ghost use Rattle.diag_text.specs.Text.{end_text};
    ghost use Rattle.diag_run.specs.Wanted.{end_with};

    ghost ends = { λ _ setup lines. Ok (end_with (end_text setup (ecu_after setup lines)) 0) };

    fn add_end(
        &self,
        alloc: Global,
        setup: &Setup,
        ecu: &Ecu,
        text: &mut Vec<u8>,
    ) -> Result<u8, CaptureFault> {
        let end = end_text(alloc, setup, ecu)?;
        text.extend_from_slice(end.as_slice())?;
        Ok(0)
    }

    ghost ends_as_asked = { λ _ _ _. refl };
}

/// How many frames agree, where all do, with status 9 where there is none; what is told of the first difference where one is.
impl Ending for Comparisons {
    ghost use Rattle.std.specs.Prelude.{refl};
    ghost use Rattle.diag_run.specs.Wanted.{judged};

    ghost ends = { λ _. judged };

    fn add_end(
        &self,
        alloc: Global,
        setup: &Setup,
        _: &Ecu,
        text: &mut Vec<u8>,
    ) -> Result<u8, CaptureFault> {
        let Ok(verdict) = self.verdict(setup) else {
            // (memory was refused for what it names, so for what is told of it)
            return Err(CaptureFault::Otherwise(None));
        };
        match verdict {
            Verdict::Agrees => {
                let agreed = agreement_text(alloc, setup, self)?;
                text.extend_from_slice(agreed.as_slice())?;
                Ok(agreement_status(setup, self))
            }
            verdict => {
                let told = verdict_text(alloc, setup, &verdict).ok();
                Err(CaptureFault::Otherwise(told))
            }
        }
    }

    ghost ends_as_asked = { λ _ _ _. refl };
}
