//! Writing data by identifier (ISO 14229-1:2013, 10.7).
ghost use Rattle.std.specs.Prelude.{◌≡◌, ◌≤◌, ◌∷◌, length, drop, option_map, Some};
ghost use Rattle.diag_setup.specs.Setup.{first_holding};
ghost use Rattle.diag_store.specs.Dids.{value_of, with_value};
ghost use Rattle.diag_ecu.specs.Bytes.{number_16, bytes_16 as bytes_of};
ghost use Rattle.diag_ecu.specs.Respond.{write_checks};

use crate::bytes::{bytes_16, number_16_at};
use crate::ecu::{Ecu, say};
use crate::service::Nrc;
use diag_pdu::Message;
use diag_setup::TesterId;

impl Ecu {
    /// The NRC of the first check of a value to be written that holds.
    #[inline(never)]
    pub(crate) fn write_refusal(&self, who: TesterId, p: &[u8]) -> Option<Nrc>
        requires { 4 ≤ length p.now }
        ensures { result ≡ first_holding (write_checks self.now who p.now) }
    {
        let id = number_16_at(p, 1);
        let Some(rule) = self.dids.rule(id) else {
            return Some(Nrc::RequestOutOfRange);
        };
        if !rule.write {
            return Some(Nrc::RequestOutOfRange);
        }
        if !self.is_open(who, rule.write_level) {
            return Some(Nrc::SecurityAccessDenied);
        }
        match self.dids.get(id) {
            Some(kept) if kept.len() == p.len() - 3 => None,
            _ => Some(Nrc::IncorrectMessageLengthOrInvalidFormat),
        }
    }

    /// Writes a value of an identifier, of the length of the one that is kept.
    pub(crate) fn write_data(&mut self, p: &[u8])
        requires long { 4 ≤ length p.now }
        requires fits { option_map length (value_of self.old.dids (number_16 p.now 1))
            ≡ Some (length (drop 3 p.now)) }
        ensures { self.new ≡ record self.old {
          dids = with_value self.old.dids (number_16 p.now 1) (drop 3 p.now);
        } }
    {
        // It can't be refused: the identifier is in the setup, with a value of this length.
        let _ = self.dids.write(number_16_at(p, 1), &p[3..]);
    }
}

/// The reply to a value that is written: its identifier.
pub(crate) fn write_reply(p: &[u8]) -> Message
    requires { 4 ≤ length p.now }
    ensures { result ≡ 0x6E ∷ bytes_of (number_16 p.now 1) }
{
    let [high, low] = bytes_16(number_16_at(p, 1));
    say(&[0x6E, high, low])
}
