//! Laws over the definitions alone.

ghost use Rattle.std.specs.Prelude.{◌≡◌, ℕ, List};
ghost use Rattle.diag_pdu.specs.declared.length.DataLength.TheVariants.{Dl8};
ghost use Rattle.diag_pdu.specs.declared.framing.Framing.{Framing as AFraming};
ghost use Rattle.diag_pdu.specs.Cut.{cut};
ghost use Rattle.diag_pdu.specs.Classic.{classic_cut};

/// Where frames have up to 8 bytes, those of a message are those of classic CAN.
#[tactic(auto, using(crate::proofs::Classic::classic_frames))]
pub fn classic_law()
    ensures { (f : AFraming) (P : List ℕ) → f.tx_dl ≡ Dl8 → cut f P ≡ classic_cut P f.pad }
{}
