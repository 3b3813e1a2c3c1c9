//! DTCs: clearing them, reading them, and the DTC setting (ISO 14229-1:2013, 11.2, 11.3 and
//! 9.9).
ghost use Rattle.std.specs.Prelude.{◌<◌, drop, ◌∷◌, [], ◌≡◌, ◌≤◌, ◌+◌, ◌++◌, ◌==◌, length, flat_map, OnOk, IfOk};
ghost use Rattle.diag_setup.specs.Setup.{first_holding};
ghost use Rattle.diag_store.specs.Dtcs.{matching, cleared};
ghost use Rattle.diag_ecu.specs.Bytes as spec;
ghost use Rattle.diag_ecu.specs.Respond.{sub, clear_checks, setting_checks, report, dtc_reply, counted_reply, all_reply};

use crate::bytes::{bytes_16, bytes_24, number_24, sub_of};
use crate::ecu::{Ecu, say};
use crate::service::Nrc;
use diag_pdu::Message;
use diag_store::ALL_GROUPS;
use std::alloc::AllocError;

impl Ecu {
    /// Refuses to clear a DTC that isn't known.
    #[inline(never)]
    pub(crate) fn clear_refusal(&self, p: &[u8]) -> Option<Nrc>
        requires { 4 ≤ length p.now }
        ensures { result ≡ first_holding (clear_checks self.now p.now) }
    {
        let group = number_24(p, 1);
        if group == ALL_GROUPS || self.dtcs.status(group).is_some() {
            None
        } else {
            Some(Nrc::RequestOutOfRange)
        }
    }

    /// Clears a DTC, or all DTCs.
    pub(crate) fn clear(&mut self, p: &[u8])
        requires { 4 ≤ length p.now }
        ensures { self.new
            ≡ record self.old { dtcs = cleared self.old.dtcs (spec.number_24 p.now 1) } }
    {
        self.dtcs.clear(number_24(p, 1));
    }

    /// Whether status bits are set from now on.
    pub(crate) fn control_setting(&mut self, p: &[u8])
        ensures { self.new ≡ record self.old { dtc_setting_on = sub p.now == 0x01 } }
    {
        self.dtc_setting_on = sub_of(p) == 0x01;
    }
}

/// Refuses a DTC setting for a part of the DTCs.
pub(crate) fn setting_refusal(p: &[u8]) -> Option<Nrc>
    ensures { result ≡ first_holding (setting_checks p.now) }
{
    if p.len() == 5 && number_24(p, 2) != ALL_GROUPS {
        Some(Nrc::RequestOutOfRange)
    } else {
        None
    }
}

impl Ecu {
    /// Reports DTCs: how many are counted, those, or all.
    #[inline(never)]
    pub(crate) fn codes_reply(&self, p: &[u8]) -> Result<Message, AllocError>
        requires { 2 ≤ length p.now }
        ensures { IfOk result (λ reply. reply ≡ dtc_reply self.now p.now) }
    {
        let availability = self.values.availability;
        let mask = match p {
            [_, _, mask, ..] => *mask & availability,
            _ => 0,
        };
        match sub_of(p) {
            0x01 => {
                let [high, low] = bytes_16(self.dtcs.count(mask));
                Ok(say(&[0x59, 0x01, availability, 0x01, high, low]))
            }
            0x02 => self.report_counted(mask),
            _ => self.report_all(),
        }
    }

    fn report_counted(&self, mask: u8) -> Result<Message, AllocError>
        ensures { IfOk result (λ reply. reply ≡ counted_reply self.now mask) }
    {
        let mut reply = self.report_head(0x02, usize::from(self.dtcs.count(mask)))?;
        for i in 0..self.dtcs.len() {
            self.report_if(&mut reply, i, mask)?;
        }
        Ok(Message::from_vec(reply))
    }

    fn report_all(&self) -> Result<Message, AllocError>
        ensures { IfOk result (λ reply. reply ≡ all_reply self.now) }
    {
        let mut reply = self.report_head(0x0A, self.dtcs.len())?;
        for i in 0..self.dtcs.len() {
            self.report_at(&mut reply, i)?;
        }
        Ok(Message::from_vec(reply))
    }

    /// The start of a report, with room for so many DTCs.
    fn report_head(&self, sub: u8, codes: usize) -> Result<Vec<u8>, AllocError>
        requires { codes ≤ 65535 }
        ensures { IfOk result (λ head.
            head.items ≡ 0x59 ∷ sub ∷ self.now.values.availability ∷ []) }
    {
        let mut head = Vec::with_capacity(self.alloc(), 3 + 4 * codes)?;
        head.extend_from_slice(&[0x59, sub, self.values.availability])?;
        Ok(head)
    }

    /// Adds the DTC at an index with its reported status.
    fn report_at(&self, reply: &mut Vec<u8>, i: usize) -> Result<(), AllocError>
        requires index { i < length self.now.dtcs }
        ensures text { OnOk result (reply.new.items
            ++ flat_map (report self.now.values.availability) (drop (i + 1) self.now.dtcs)
            ≡ reply.old.items
            ++ flat_map (report self.now.values.availability) (drop i self.now.dtcs)) }
        ensures len { OnOk result (length reply.new.items ≡ length reply.old.items + 4) }
    {
        match self.dtcs.at(i) {
            Some((code, status)) => append_report(reply, code, status & self.values.availability),
            None => unreachable!(),
        }
    }

    /// The same, where the status has a bit of the mask.
    fn report_if(&self, reply: &mut Vec<u8>, i: usize, mask: u8) -> Result<(), AllocError>
        requires index { i < length self.now.dtcs }
        ensures text { OnOk result (reply.new.items
            ++ flat_map (report self.now.values.availability)
            (matching (drop (i + 1) self.now.dtcs) mask)
            ≡ reply.old.items
            ++ flat_map (report self.now.values.availability)
            (matching (drop i self.now.dtcs) mask)) }
        ensures len { OnOk result (length reply.new.items ≤ length reply.old.items + 4) }
        ensures more { OnOk result (length reply.old.items ≤ length reply.new.items) }
    {
        match self.dtcs.at(i) {
            Some((code, status)) => {
                if status & mask != 0 {
                    append_report(reply, code, status & self.values.availability)
                } else {
                    Ok(())
                }
            }
            None => unreachable!(),
        }
    }
}

/// Adds a DTC with its reported status.
fn append_report(reply: &mut Vec<u8>, code: u32, status: u8) -> Result<(), AllocError>
    ensures text { OnOk result
        (reply.new.items ≡ reply.old.items ++ (spec.bytes_24 code ++ status ∷ [])) }
    ensures len { OnOk result (length reply.new.items ≡ length reply.old.items + 4) }
{
    let [high, middle, low] = bytes_24(code);
    reply.extend_from_slice(&[high, middle, low, status])
}
