//! Reading data by identifier (ISO 14229-1:2013, 10.2).
ghost use Rattle.std.specs.Prelude.{◌≡◌, ◌≤◌, ◌++◌, ◌∷◌, [], length, min, IfOk, IfErr, IfNone, IfSome, OnOk, None, Some, option_map};
ghost use Rattle.std.specs.List.{list_any, list_all};
ghost use Rattle.diag_setup.specs.Setup.{first_holding};
ghost use Rattle.diag_ecu.specs.Lent.{lent_bytes};
ghost use Rattle.diag_ecu.specs.Respond.{checks, ids_in, knows, may_read, data_records, data_reply, did_record, outcome, own_reply, read_checks, sent_negative, sent_positive};

use crate::bytes::{bytes_16, number_16};
use crate::ecu::Ecu;
use crate::effect::Effect;
use crate::service::{Nrc, Service};
use diag_can::{FrameBytes, add_bytes};
use diag_pdu::Message;
use diag_setup::TesterId;
use std::alloc::AllocError;

/// The reply to a request for one identifier: three bytes, and behind them the value where it stands.
#[derive(Clone, Copy)]
pub struct Lent<'a> {
    /// The service and the identifier, or a negative response.
    pub head: [u8; 3],
    /// The value; nothing of a negative response.
    pub value: &'a [u8],
}

/// What the identifiers of a request to read data come to.
#[derive(Drop)]
struct Reading {
    /// Whether one of them at least is known.
    any_known: bool,
    /// Whether the tester may read all that are known.
    all_open: bool,
    /// How many bytes the reply has, up to the first that is too many.
    length: usize,
}

impl Ecu {
    /// The NRC of the first check of the identifiers that holds.
    #[inline(never)]
    pub(crate) fn read_refusal(&self, who: TesterId, p: &[u8]) -> Option<Nrc>
        requires { 1 ≤ length p.now }
        ensures first { result ≡ first_holding (read_checks self.now who p.now) }
        ensures fits { IfNone result (length (data_reply self.now p.now) ≤ 65535) }
    {
        let reading = self.reading(who, &p[1..]);
        if !reading.any_known {
            return Some(Nrc::RequestOutOfRange);
        }
        if !reading.all_open {
            return Some(Nrc::SecurityAccessDenied);
        }
        if reading.length > Message::MAX {
            return Some(Nrc::ResponseTooLong);
        }
        None
    }

    /// The values of the known identifiers, in the order of the request.
    #[inline(never)]
    pub(crate) fn data_reply(&self, who: TesterId, p: &[u8]) -> Result<Message, AllocError>
        requires some { 1 ≤ length p.now }
        requires fits { length (data_reply self.now p.now) ≤ 65535 }
        ensures { IfOk result (λ reply. reply ≡ data_reply self.now p.now) }
    {
        let ids = &p[1..];
        let bytes = self.records(ids, self.reading(who, ids).length)?;
        Ok(Message::from_vec(bytes))
    }

    /// The NRC of the first check that holds of a request to read data; where none does, the reply is put in its
    /// place. Most requests ask for one identifier, which is looked for once.
    #[inline(always)]
    pub(crate) fn put_data(
        &self,
        who: TesterId,
        p: &[u8],
        answer: &mut Option<Message>,
    ) -> Result<Option<Nrc>, AllocError>
        ensures first { IfOk result (λ r.
            r ≡ first_holding (checks self.now who Service.ReadDataByIdentifier p.now)) }
        ensures reply { IfOk result (λ r. IfNone r
            (answer.new ≡ sent_positive self.now Service.ReadDataByIdentifier p.now)) }
    {
        let row = Service::ReadDataByIdentifier.row();
        if let Some(nrc) = self.common_refusal(who, row, p) {
            return Ok(Some(nrc));
        }
        match p {
            [_, high, low] => self.put_one(who, *high, *low, answer),
            _ => self.put_many(who, p, answer),
        }
    }

    /// The same of one identifier.
    #[inline(always)]
    fn put_one(
        &self,
        who: TesterId,
        high: u8,
        low: u8,
        answer: &mut Option<Message>,
    ) -> Result<Option<Nrc>, AllocError>
        ensures first { IfOk result (λ r.
            r ≡ first_holding (read_checks self.now who (0x22 ∷ high ∷ low ∷ []))) }
        ensures reply { IfOk result (λ r. IfNone r
            (answer.new ≡ Some (data_reply self.now (0x22 ∷ high ∷ low ∷ [])))) }
    {
        match self.value_for(who, high, low) {
            Ok(value) => {
                self.put_value(high, low, value, answer)?;
                Ok(None)
            }
            Err(nrc) => Ok(Some(nrc)),
        }
    }

    /// The same of any identifiers.
    #[inline(never)]
    fn put_many(
        &self,
        who: TesterId,
        p: &[u8],
        answer: &mut Option<Message>,
    ) -> Result<Option<Nrc>, AllocError>
        requires { 1 ≤ length p.now }
        ensures first { IfOk result (λ r. r ≡ first_holding (read_checks self.now who p.now)) }
        ensures reply { IfOk result (λ r. IfNone r (answer.new ≡ Some (data_reply self.now p.now))) }
    {
        match self.read_refusal(who, p) {
            Some(nrc) => Ok(Some(nrc)),
            None => {
                *answer = Some(self.data_reply(who, p)?);
                Ok(None)
            }
        }
    }

    /// Puts an identifier with its value in the reply's place. Up to eight bytes are put together at once.
    #[inline(always)]
    fn put_value(
        &self,
        high: u8,
        low: u8,
        value: &[u8],
        answer: &mut Option<Message>,
    ) -> Result<(), AllocError>
        requires { length value.now ≤ 255 }
        ensures { OnOk result (answer.new ≡ Some (0x62 ∷ high ∷ low ∷ value.now)) }
    {
        if value.len() > 5 {
            return self.put_long_value(high, low, value, answer);
        }
        let bytes = FrameBytes::made_of(value)
            .behind(low)
            .behind(high)
            .behind(0x62);
        *answer = Some(Message::in_place(bytes));
        Ok(())
    }

    /// The same of a value for which the reply takes memory. (Not inlined, to spare the caller's stack. It calls nothing once it
    /// has memory, so that the list is still in registers when it is moved.)
    #[inline(never)]
    fn put_long_value(
        &self,
        high: u8,
        low: u8,
        value: &[u8],
        answer: &mut Option<Message>,
    ) -> Result<(), AllocError>
        requires { length value.now ≤ 255 }
        ensures { OnOk result (answer.new ≡ Some (0x62 ∷ high ∷ low ∷ value.now)) }
    {
        let mut bytes = Vec::with_capacity(self.alloc(), 3 + value.len())?;
        add_bytes(&mut bytes, &[0x62, high, low]);
        add_bytes(&mut bytes, value);
        *answer = Some(Message::from_vec(bytes));
        Ok(())
    }

    /// The value of an identifier, or the NRC of the first check that holds of it.
    #[inline(always)]
    fn value_for(&self, who: TesterId, high: u8, low: u8) -> Result<&[u8], Nrc>
        ensures refused { IfErr result (λ nrc.
            first_holding (read_checks self.now who (0x22 ∷ high ∷ low ∷ [])) ≡ Some nrc) }
        ensures open { OnOk result
            (first_holding (read_checks self.now who (0x22 ∷ high ∷ low ∷ [])) ≡ None) }
        ensures value { IfOk result (λ value. 0x62 ∷ high ∷ low ∷ value.now
            ≡ data_reply self.now (0x22 ∷ high ∷ low ∷ [])) }
        ensures fits { IfOk result (λ value. length value.now ≤ 255) }
    {
        let Some(row) = self.dids.row(number_16(high, low)) else {
            return Err(Nrc::RequestOutOfRange);
        };
        if !self.is_open(who, row.rule.read_level) {
            return Err(Nrc::SecurityAccessDenied);
        }
        Ok(row.value.as_slice())
    }

    /// The services' own reply to a request for one identifier, or none where none is sent, with the value where it
    /// stands. None of the checks that every service has can hold of the request, and it does nothing.
    #[inline(always)]
    pub fn lent_reply(&self, who: TesterId, functional: bool, high: u8, low: u8) -> Option<Lent<'_>>
        ensures same { option_map lent_bytes result
            ≡ own_reply self.now who functional (0x22 ∷ high ∷ low ∷ []) }
        ensures fits { IfSome result (λ lent. length lent.value.now ≤ 255) }
        ensures nothing { (outcome self.now who (0x22 ∷ high ∷ low ∷ [])).effect ≡ Effect.Nothing }
    {
        match self.value_for(who, high, low) {
            Ok(value) => Some(Lent {
                head: [0x62, high, low],
                value,
            }),
            Err(nrc) => refused(functional, nrc),
        }
    }

    fn reading(&self, who: TesterId, ids: &[u8]) -> Reading
        ensures known { result.any_known ≡ list_any (knows self.now) (ids_in ids.now) }
        ensures open { result.all_open ≡ list_all (may_read self.now who) (ids_in ids.now) }
        ensures length { result.length
            ≡ min (length (data_records self.now (ids_in ids.now))) 65536 }
    {
        let mut any_known = false;
        let mut all_open = true;
        let mut length = 1;
        let mut rest = ids;
        while let [high, low, tail @ ..] = rest {
            if let Some(row) = self.dids.row(number_16(*high, *low)) {
                any_known = true;
                all_open = all_open && self.is_open(who, row.rule.read_level);
                length = (length + 2 + row.value.len()).min(Message::MAX + 1);
            }
            rest = tail;
        }
        Reading {
            any_known,
            all_open,
            length,
        }
    }

    /// The bytes of the reply, in room for so many.
    fn records(&self, ids: &[u8], length: usize) -> Result<Vec<u8>, AllocError>
        ensures { IfOk result (λ bytes. bytes.items ≡ data_records self.now (ids_in ids.now)) }
    {
        let mut bytes = Vec::with_capacity(self.alloc(), length)?;
        bytes.push(0x62)?;
        let mut rest = ids;
        while let [high, low, tail @ ..] = rest {
            let id = number_16(*high, *low);
            if let Some(value) = self.dids.get(id) {
                append_record(&mut bytes, id, value)?;
            }
            rest = tail;
        }
        Ok(bytes)
    }
}

/// Adds an identifier with its value.
fn append_record(bytes: &mut Vec<u8>, id: u16, value: &[u8]) -> Result<(), AllocError>
    ensures { OnOk result (bytes.new.items ≡ bytes.old.items ++ did_record id (Some value.now)) }
{
    bytes.extend_from_slice(&bytes_16(id))?;
    bytes.extend_from_slice(value)
}

/// What is sent where a negative response code is the answer to a request for one identifier.
#[inline(always)]
fn refused<'a>(functional: bool, nrc: Nrc) -> Option<Lent<'a>>
    ensures same { option_map lent_bytes result ≡ sent_negative functional 0x22 nrc }
    ensures fits { IfSome result (λ lent. length lent.value.now ≤ 255) }
{
    if functional && nrc.is_silent() {
        return None;
    }
    Some(Lent {
        head: [0x7F, 0x22, nrc.code()],
        value: &[],
    })
}
