//! How a side makes its frames (ISO 15765-2:2016, 9.5).

ghost use Rattle.std.specs.Prelude.{◌≡◌};
ghost use Rattle.diag_pdu.specs.declared.length.DataLength.TheVariants.{Dl8};

use crate::length::DataLength;

/// How a side makes its frames.
#[derive(Clone, Copy)]
pub struct Framing {
    /// TX_DL: how long its frames are at most.
    pub tx_dl: DataLength,
    /// The byte that pads frames of up to 8 bytes; None where they aren't padded.
    pub pad: Option<u8>,
    /// The byte that fills a longer frame up to a length that frames of CAN FD have.
    pub fill: u8,
}

impl Framing {
    /// That of classic CAN.
    pub fn classic(pad: Option<u8>) -> Framing
        ensures length { result.tx_dl ≡ Dl8 }
        ensures pad { result.pad ≡ pad }
        ensures fill { result.fill ≡ 0 }
    {
        Framing {
            tx_dl: DataLength::Dl8,
            pad,
            fill: 0,
        }
    }
}
