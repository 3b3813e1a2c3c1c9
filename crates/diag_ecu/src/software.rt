//! What the ECU's own software changes while it runs, without a request of a tester.

ghost use Rattle.std.specs.Prelude.{◌≡◌, OnOk, OnErr, is_some};
ghost use Rattle.std.specs.Bool.{OnFalse};
ghost use Rattle.diag_store.specs.Dids.{with_value, write_answer};
ghost use Rattle.diag_store.specs.Dtcs.{status_of, with_status};

use crate::ecu::Ecu;
use diag_store::DidFault;

impl Ecu {
    /// Gives a data identifier another value, of the length that it has, whoever may write it.
    ///
    /// # Errors
    /// `Unknown` where there is no such identifier, `Length` where the value has another length. All is as before then.
    pub fn set_value(&mut self, id: u16, value: &[u8]) -> Result<(), DidFault>
        ensures answer { result ≡ write_answer self.old.dids id value.now }
        ensures ok { OnOk result
            (self.new ≡ record self.old { dids = with_value self.old.dids id value.now }) }
        ensures err { OnErr result (self.new ≡ self.old) }
    {
        self.dids.write(id, value)
    }

    /// Gives a DTC another statusOfDTC, also where ControlDTCSetting holds status bits; whether the DTC is known. All is as
    /// before where it isn't.
    pub fn set_status(&mut self, code: u32, status: u8) -> bool
        ensures known { result ≡ is_some (status_of self.old.dtcs code) }
        ensures set { self.new ≡ record self.old { dtcs = with_status self.old.dtcs code status } }
        ensures unknown { OnFalse result (self.new ≡ self.old) }
    {
        self.dtcs.set(code, status)
    }
}
