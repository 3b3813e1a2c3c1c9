//! The ECU: what it holds, and what it does with a request.
ghost use Rattle.std.specs.Prelude.{◌≡◌, ◌≢◌, ◌≤◌, ◌+◌, ◌++◌, ◌↔◌, [], None, Some, false, length, option_map, IfOk, IfNone, IfSome, OnOk, OnErr};
ghost use Rattle.diag_setup.specs.Setup.{first_holding};
ghost use Rattle.diag_ecu.specs.State.{opening, is_holder, is_held_by_another, is_open};
ghost use Rattle.diag_ecu.specs.Respond.{common_checks, own_checks, checks, after_request, decision, delay, may_delay, own_reply, reply, outcome, effect, positive_reply, kept_alive, sent_positive, sent_negative, template_for};
ghost use Rattle.diag_ecu.specs.Service.{row as row_of};

use crate::bytes::sub_of;
use crate::dtcs::setting_refusal;
use crate::effect::{Decision, Effect};
use crate::service::{Nrc, Service, ServiceRow};
use crate::session::DEFAULT_SESSION;
use crate::write_data::write_reply;
use diag_can::FrameBytes;
use diag_pdu::Message;
use diag_setup::{ServerParameters, Setup, TemplateItem, TesterId};
use diag_store::{Answers, Dids, DtcMemory, Routines, Security};
use std::alloc::{AllocError, Global};

/// The ECU: the sequential server of all testers, of whom one at most is in a session other than the default one, the
/// holder.
pub struct Ecu {
    pub(crate) values: ServerParameters,
    pub(crate) dids: Dids,
    pub(crate) dtcs: DtcMemory,
    pub(crate) routines: Routines,
    pub(crate) security: Security,
    pub(crate) holder: Option<TesterId>,
    /// The number of the holder's session; that of the default one while nobody is the holder.
    pub(crate) session: u8,
    /// The ticks left of S3; 0 while nobody is the holder.
    pub(crate) s3_left: u64,
    /// Whether routines that are done set status bits (ISO 14229-1:2013, 9.9).
    pub(crate) dtc_setting_on: bool,
    /// The rows of answers, which are looked at before the services.
    pub(crate) answers: Answers,
}

// Written out: where an ECU is dropped there is one call then, and not the code for each field.
impl Drop for Ecu {
    fn drop(self) {
        let Ecu {
            values: _,
            dids: _,
            dtcs: _,
            routines: _,
            security: _,
            holder: _,
            session: _,
            s3_left: _,
            dtc_setting_on: _,
            answers: _,
        } = self;
    }
}

impl Ecu {
    /// The ECU of a setup at the opening: nobody is the holder, all is locked, and the routines are idle. There is none
    /// where memory is refused.
    pub fn new(alloc: Global, setup: &Setup) -> Result<Ecu, AllocError>
        ensures { IfOk result (λ ecu. ecu ≡ opening setup.now) }
    {
        let dids = Dids::new(alloc, setup)?;
        let dtcs = DtcMemory::new(alloc, setup)?;
        let routines = Routines::new(alloc, setup)?;
        let security = Security::new(alloc, setup)?;
        let answers = Answers::new(alloc, setup)?;
        Ok(Ecu {
            values: setup.values(),
            dids,
            dtcs,
            routines,
            security,
            holder: None,
            session: DEFAULT_SESSION,
            s3_left: 0,
            dtc_setting_on: true,
            answers,
        })
    }

    /// Another ECU in the same state, where memory isn't refused.
    pub fn try_copy(&self) -> Result<Ecu, AllocError>
        ensures { IfOk result (λ copy. copy ≡ self.now) }
    {
        let dids = self.dids.try_copy()?;
        let dtcs = self.dtcs.try_copy()?;
        let routines = self.routines.try_copy()?;
        let security = self.security.try_copy()?;
        let answers = self.answers.try_copy()?;
        Ok(Ecu {
            values: self.values,
            dids,
            dtcs,
            routines,
            security,
            holder: self.holder,
            session: self.session,
            s3_left: self.s3_left,
            dtc_setting_on: self.dtc_setting_on,
            answers,
        })
    }

    /// The tester in a session other than the default one, if there is one.
    pub fn holder(&self) -> Option<TesterId>
        ensures { result ≡ self.now.holder }
    {
        self.holder
    }

    /// The DTCs with their status.
    pub fn dtcs(&self) -> &DtcMemory
        ensures { result.now ≡ self.now.dtcs }
    {
        &self.dtcs
    }

    /// The data identifiers with their values.
    pub fn dids(&self) -> &Dids
        ensures { result.now ≡ self.now.dids }
    {
        &self.dids
    }

    /// The reply to a tester's request, or none where none is sent; an error where memory is refused. Nothing changes.
    #[inline(always)]
    pub fn reply(
        &self,
        who: TesterId,
        functional: bool,
        message: &Message,
    ) -> Result<Option<Message>, AllocError>
        ensures { IfOk result (λ r. r ≡ reply self.now who functional message.now) }
    {
        let mut answer = None;
        self.put_reply(who, functional, message.bytes(), &mut answer)?;
        Ok(answer)
    }

    /// How long after a request its answer goes, in milliseconds.
    #[inline(always)]
    pub fn delay(&self, who: TesterId, message: &Message) -> u32
        ensures { result ≡ delay self.now who message.now }
    {
        if self.answers.is_empty() {
            return 0;
        }
        self.ruled_delay(who, message.bytes())
    }

    /// The items of the template from which a request is answered, where a row does that, and not the services.
    #[inline(always)]
    pub fn template_for(&self, who: TesterId, p: &[u8]) -> Option<&[TemplateItem]>
        requires { 1 ≤ length p.now }
        ensures items { option_map (λ items. items.now) result ≡ template_for self.now who p.now }
        ensures few { IfSome result (λ items. length items.now ≤ 4095) }
    {
        if self.answers.is_empty() {
            return None;
        }
        self.ruled_template(who, p)
    }

    /// Whether there are rows of answers, which are looked at before the services.
    #[inline(always)]
    pub fn has_answers(&self) -> bool
        ensures { (result ≡ false) ↔ (self.now.answers ≡ []) }
    {
        !self.answers.is_empty()
    }

    /// Whether an answer may go later than at once: a row of answers says so.
    #[inline(always)]
    pub fn can_delay(&self) -> bool
        ensures { result ≡ may_delay self.now }
    {
        self.answers.any_late()
    }

    /// Puts the reply to a request of these bytes in its place, or none where none is sent, and tells what is decided of
    /// the request, which `apply` takes. The reply is made where it stays, and nothing changes yet.
    ///
    /// # Errors
    /// `AllocError` where memory is refused; what stands in the place then isn't told.
    #[inline(always)]
    pub fn put_reply(
        &self,
        who: TesterId,
        functional: bool,
        p: &[u8],
        answer: &mut Option<Message>,
    ) -> Result<Decision, AllocError>
        requires { 1 ≤ length p.now }
        ensures reply { OnOk result (answer.new ≡ reply self.now who functional p.now) }
        ensures decision { IfOk result (λ d. d ≡ decision self.now who p.now) }
    {
        if !self.answers.is_empty() {
            let decided = self.put_ruled(who, functional, p, answer)?;
            return Ok(decided);
        }
        let effect = self.put_own(who, functional, p, answer)?;
        Ok(Decision {
            effect,
            after_ms: 0,
        })
    }

    /// The same of the services alone: their reply, and what the request does.
    ///
    /// # Errors
    /// As `put_reply`.
    #[inline(always)]
    pub(crate) fn put_own(
        &self,
        who: TesterId,
        functional: bool,
        p: &[u8],
        answer: &mut Option<Message>,
    ) -> Result<Effect, AllocError>
        requires { 1 ≤ length p.now }
        ensures reply { OnOk result (answer.new ≡ own_reply self.now who functional p.now) }
        ensures effect { IfOk result (λ e. e ≡ (outcome self.now who p.now).effect) }
    {
        let Some(service) = Service::of(p[0]) else {
            *answer = negative_reply(functional, p[0], Nrc::ServiceNotSupported);
            return Ok(Effect::Nothing);
        };
        let (refusal, effect) = match service {
            Service::TesterPresent => (self.put_presence(who, p, answer), Effect::Nothing),
            Service::ReadDataByIdentifier => (self.put_data(who, p, answer)?, Effect::Nothing),
            service => (self.put_answer(who, service, p, answer)?, service.effect()),
        };
        match refusal {
            Some(nrc) => {
                *answer = negative_reply(functional, p[0], nrc);
                Ok(nrc.effect())
            }
            None => Ok(effect),
        }
    }

    /// Does what was decided of a request, and keeps S3 of the holder full from the answer on. It takes no memory.
    #[inline(always)]
    pub fn apply(&mut self, who: TesterId, p: &[u8], decided: Decision)
        requires some { 1 ≤ length p.now }
        requires told { decided ≡ decision self.old who p.now }
        ensures { self.new ≡ after_request self.old who p.now }
    {
        match decided.effect {
            Effect::Nothing => {}
            Effect::Serve(service) => self.serve(who, service, p),
            Effect::CountWrongKey => self.security.count_wrong_key(who),
            Effect::Answer(index) => self.answer_by(who, index),
        }
        self.keep_alive(who, decided.after_ms);
    }

    /// Goes to the state after a tester's request, which is the same for a functional and a physical one. It takes no
    /// memory, and asks the checks.
    pub fn settle(&mut self, who: TesterId, functional: bool, message: &Message)
        ensures { self.new ≡ after_request self.old who message.now }
    {
        // (it decides only what is sent)
        let _ = functional;
        let p = message.bytes();
        let decided = self.decision(who, p);
        self.apply(who, p, decided);
    }

    /// Answers a tester's request and goes to the state after it; where memory is refused, all is as before.
    pub fn request(
        &mut self,
        who: TesterId,
        functional: bool,
        message: &Message,
    ) -> Result<Option<Message>, AllocError>
        ensures reply { IfOk result (λ r. r ≡ reply self.old who functional message.now) }
        ensures state { OnOk result (self.new ≡ after_request self.old who message.now) }
        ensures refused { OnErr result (self.new ≡ self.old) }
    {
        let mut answer = None;
        let decided = self.put_reply(who, functional, message.bytes(), &mut answer)?;
        self.apply(who, message.bytes(), decided);
        Ok(answer)
    }
}

impl Ecu {
    /// What is decided of a request, by the rows of answers and the checks.
    fn decision(&self, who: TesterId, p: &[u8]) -> Decision
        requires { 1 ≤ length p.now }
        ensures { result ≡ decision self.now who p.now }
    {
        if !self.answers.is_empty() {
            return self.ruled_decision(who, p);
        }
        Decision {
            effect: self.effect(who, p),
            after_ms: 0,
        }
    }

    /// What a request does by the checks of the services alone.
    pub(crate) fn effect(&self, who: TesterId, p: &[u8]) -> Effect
        requires { 1 ≤ length p.now }
        ensures { result ≡ (outcome self.now who p.now).effect }
    {
        let Some(service) = Service::of(p[0]) else {
            return Effect::Nothing;
        };
        let row = service.row();
        if !row.changes {
            return Effect::Nothing;
        }
        match self.refusal(who, service, row, p) {
            Some(nrc) => nrc.effect(),
            None => service.effect(),
        }
    }

    /// The NRC of the first check that holds; where none does, the positive reply is put in its place, or none where
    /// the request asks for silence. (Two services have such a function of their own: `put_presence` and `put_data`.)
    #[inline(never)]
    fn put_answer(
        &self,
        who: TesterId,
        service: Service,
        p: &[u8],
        answer: &mut Option<Message>,
    ) -> Result<Option<Nrc>, AllocError>
        requires some { 1 ≤ length p.now }
        requires presence { service ≢ Service.TesterPresent }
        requires data { service ≢ Service.ReadDataByIdentifier }
        ensures first { IfOk result (λ r. r ≡ first_holding (checks self.now who service p.now)) }
        ensures reply { IfOk result (λ r. IfNone r (answer.new ≡ sent_positive self.now service p.now)) }
    {
        let row = service.row();
        match self.refusal(who, service, row, p) {
            Some(nrc) => return Ok(Some(nrc)),
            None if row.asks_for_silence(p) => *answer = None,
            None => *answer = self.positive_reply(who, service, p)?,
        }
        Ok(None)
    }

    /// The NRC of the first check of the service that holds.
    fn refusal(&self, who: TesterId, service: Service, row: &ServiceRow, p: &[u8]) -> Option<Nrc>
        requires some { 1 ≤ length p.now }
        requires row { row.now ≡ row_of service }
        requires presence { service ≢ Service.TesterPresent }
        requires data { service ≢ Service.ReadDataByIdentifier }
        ensures first { result ≡ first_holding (checks self.now who service p.now) }
        ensures common { IfNone result
            (first_holding (common_checks self.now who (row_of service) p.now) ≡ None) }
        ensures own { IfNone result (first_holding (own_checks self.now who service p.now) ≡ None) }
    {
        match self.common_refusal(who, row, p) {
            Some(nrc) => Some(nrc),
            None => self.own_refusal(who, service, p),
        }
    }

    /// The NRC of the first check of this service alone that holds.
    fn own_refusal(&self, who: TesterId, service: Service, p: &[u8]) -> Option<Nrc>
        requires some { 1 ≤ length p.now }
        requires presence { service ≢ Service.TesterPresent }
        requires data { service ≢ Service.ReadDataByIdentifier }
        requires passed { first_holding (common_checks self.now who (row_of service) p.now) ≡ None }
        ensures { result ≡ first_holding (own_checks self.now who service p.now) }
    {
        match service {
            Service::ClearDiagnosticInformation => self.clear_refusal(p),
            Service::SecurityAccess => self.security_refusal(who, p),
            Service::WriteDataByIdentifier => self.write_refusal(who, p),
            Service::RoutineControl => self.routine_refusal(who, p),
            Service::ControlDtcSetting => setting_refusal(p),
            Service::DiagnosticSessionControl | Service::EcuReset | Service::ReadDtcInformation =>
                None,
            Service::TesterPresent | Service::ReadDataByIdentifier => unreachable!(),
        }
    }

    /// The positive reply to a request that passes all checks, in the form of what is sent, so that it moves no more.
    fn positive_reply(
        &self,
        who: TesterId,
        service: Service,
        p: &[u8],
    ) -> Result<Option<Message>, AllocError>
        requires some { 1 ≤ length p.now }
        requires presence { service ≢ Service.TesterPresent }
        requires data { service ≢ Service.ReadDataByIdentifier }
        requires common { first_holding (common_checks self.now who (row_of service) p.now) ≡ None }
        requires own { first_holding (own_checks self.now who service p.now) ≡ None }
        ensures { IfOk result (λ reply. reply ≡ Some (positive_reply self.now service p.now)) }
    {
        match service {
            Service::DiagnosticSessionControl => Ok(Some(self.session_reply(p))),
            Service::EcuReset => Ok(Some(say(&[0x51, sub_of(p)]))),
            Service::ClearDiagnosticInformation => Ok(Some(say(&[0x54]))),
            Service::ReadDtcInformation => Ok(Some(self.codes_reply(p)?)),
            Service::SecurityAccess => self.security_reply(who, p),
            Service::WriteDataByIdentifier => Ok(Some(write_reply(p))),
            Service::RoutineControl => self.routine_reply(p),
            Service::ControlDtcSetting => Ok(Some(say(&[0xC5, sub_of(p)]))),
            Service::TesterPresent | Service::ReadDataByIdentifier => unreachable!(),
        }
    }

    /// Does what a service does, of whose checks none holds.
    #[inline(never)]
    fn serve(&mut self, who: TesterId, service: Service, p: &[u8])
        requires some { 1 ≤ length p.now }
        requires common { first_holding (common_checks self.old who (row_of service) p.now) ≡ None }
        requires own { first_holding (own_checks self.old who service p.now) ≡ None }
        ensures { self.new ≡ effect self.old who service p.now }
    {
        match service {
            Service::DiagnosticSessionControl => self.enter(who, sub_of(p)),
            Service::EcuReset => self.end_session(),
            Service::ClearDiagnosticInformation => self.clear(p),
            Service::SecurityAccess => self.access_security(who, p),
            Service::WriteDataByIdentifier => self.write_data(p),
            Service::RoutineControl => self.control_routine(p),
            Service::ControlDtcSetting => self.control_setting(p),
            Service::ReadDtcInformation | Service::ReadDataByIdentifier | Service::TesterPresent =>
                {}
        }
    }

    /// After every request of the holder S3 is full from its answer on, so many ticks later, or lasts longer already.
    fn keep_alive(&mut self, who: TesterId, after_ms: u32)
        ensures { self.new ≡ kept_alive self.old who after_ms }
    {
        if self.is_holder(who) {
            let full = u64::from(self.values.s3_ms) + u64::from(after_ms);
            self.s3_left = self.s3_left.max(full);
        }
    }
}

impl Ecu {
    /// Whether the tester is the holder.
    pub(crate) fn is_holder(&self, who: TesterId) -> bool
        ensures { result ≡ is_holder self.now who }
    {
        match self.holder {
            Some(holder) => holder.number() == who.number(),
            None => false,
        }
    }

    /// Whether another tester is the holder.
    pub(crate) fn is_held_by_another(&self, who: TesterId) -> bool
        ensures { result ≡ is_held_by_another self.now who }
    {
        self.holder.is_some() && !self.is_holder(who)
    }

    /// Whether a level that a row names is open to the tester.
    pub(crate) fn is_open(&self, who: TesterId, level: u8) -> bool
        ensures { result ≡ is_open self.now who level }
    {
        level == 0 || (self.is_holder(who) && self.security.unlocked() == Some(level))
    }

    /// The allocator that the ECU was made with.
    pub(crate) fn alloc(&self) -> Global {
        self.dids.alloc()
    }

    /// The reply of these bytes, the second part right after the first.
    #[inline(always)]
    pub(crate) fn say_with(&self, head: &[u8], tail: &[u8]) -> Result<Option<Message>, AllocError>
        requires some { 1 ≤ length head.now }
        requires fits { length head.now + length tail.now ≤ 65535 }
        ensures { IfOk result (λ reply. reply ≡ Some (head.now ++ tail.now)) }
    {
        if head.len() + tail.len() <= IN_PLACE {
            let mut bytes = FrameBytes::made_of(head);
            bytes.append(tail);
            return Ok(Some(Message::in_place(bytes)));
        }
        self.say_long(head, tail)
    }

    /// The reply of these bytes, in memory of its own.
    #[inline(never)]
    fn say_long(&self, head: &[u8], tail: &[u8]) -> Result<Option<Message>, AllocError>
        requires some { 1 ≤ length head.now }
        requires fits { length head.now + length tail.now ≤ 65535 }
        ensures { IfOk result (λ reply. reply ≡ Some (head.now ++ tail.now)) }
    {
        let mut bytes = Vec::with_capacity(self.alloc(), head.len() + tail.len())?;
        bytes.extend_from_slice(head)?;
        bytes.extend_from_slice(tail)?;
        Ok(Some(Message::from_vec(bytes)))
    }
}

/// The most bytes of a reply that takes no memory: those of a frame.
const IN_PLACE: usize = 8;

/// The reply of these bytes, which takes no memory.
#[inline(always)]
pub(crate) fn say(bytes: &[u8]) -> Message
    requires some { 1 ≤ length bytes.now }
    requires fits { length bytes.now ≤ 8 }
    ensures { result ≡ bytes.now }
{
    Message::in_place(FrameBytes::made_of(bytes))
}

/// What is sent where a negative response code is the answer.
pub(crate) fn negative_reply(functional: bool, sid: u8, nrc: Nrc) -> Option<Message>
    ensures { result ≡ sent_negative functional sid nrc }
{
    if functional && nrc.is_silent() {
        return None;
    }
    Some(say(&[0x7F, sid, nrc.code()]))
}
