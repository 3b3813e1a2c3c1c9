//! The rows of answers: which decides of a request, what it answers, and what that does. None of it is used where a setup
//! has no row.
ghost use Rattle.std.specs.Prelude.{◌≡◌, ◌≤◌, length, option_map, Some, IfOk, IfSome, OnOk};
ghost use Rattle.diag_store.specs.Answers.{row_reply};
ghost use Rattle.diag_ecu.specs.Respond.{access_of, answered, decision, delay, effect_by, index_for, is_barred, reply, reply_by, rule_for, template_for};

use crate::ecu::{Ecu, negative_reply};
use crate::effect::{Decision, Effect};
use crate::service::Nrc;
use crate::session::DEFAULT_SESSION;
use diag_pdu::Message;
use diag_setup::{TemplateItem, TesterId};
use diag_store::{Access, AnswerRow};
use std::alloc::AllocError;

impl Ecu {
    /// Puts the reply to a request in its place, where a row may decide, and tells what is decided.
    ///
    /// # Errors
    /// As `put_reply`.
    #[cold]
    #[inline(never)]
    pub(crate) fn put_ruled(
        &self,
        who: TesterId,
        functional: bool,
        p: &[u8],
        answer: &mut Option<Message>,
    ) -> Result<Decision, AllocError>
        requires { 1 ≤ length p.now }
        ensures reply { OnOk result (answer.new ≡ reply self.now who functional p.now) }
        ensures decision { IfOk result (λ d. d ≡ decision self.now who p.now) }
    {
        let Some((index, row)) = self.rule_for(who, p) else {
            let effect = self.put_own(who, functional, p, answer)?;
            return Ok(Decision {
                effect,
                after_ms: 0,
            });
        };
        let effect = self.put_by(who, functional, p, index, row, answer)?;
        Ok(Decision {
            effect,
            after_ms: row.after_ms,
        })
    }

    /// What is decided of a request, where a row may decide.
    #[cold]
    #[inline(never)]
    pub(crate) fn ruled_decision(&self, who: TesterId, p: &[u8]) -> Decision
        requires { 1 ≤ length p.now }
        ensures { result ≡ decision self.now who p.now }
    {
        match self.rule_for(who, p) {
            Some((index, row)) => Decision {
                effect: self.effect_by(who, p, index, row),
                after_ms: row.after_ms,
            },
            None => Decision {
                effect: self.effect(who, p),
                after_ms: 0,
            },
        }
    }

    /// How long after a request its answer goes, where a row may decide.
    #[cold]
    #[inline(never)]
    pub(crate) fn ruled_delay(&self, who: TesterId, p: &[u8]) -> u32
        requires { 1 ≤ length p.now }
        ensures { result ≡ delay self.now who p.now }
    {
        match self.rule_for(who, p) {
            Some((_, row)) => row.after_ms,
            None => 0,
        }
    }

    /// The row at an index answers: its next template moves on, and the tester goes to the row's session.
    #[cold]
    #[inline(never)]
    pub(crate) fn answer_by(&mut self, who: TesterId, index: u16)
        ensures { self.new ≡ answered self.old who index }
    {
        let enter = match self.answers.row(index) {
            Some(row) => row.enter,
            None => 0,
        };
        self.answers.move_on(index);
        self.enter(who, enter);
    }

    /// The items of the template from which a request is answered, where a row may decide.
    #[cold]
    #[inline(never)]
    pub(crate) fn ruled_template(&self, who: TesterId, p: &[u8]) -> Option<&[TemplateItem]>
        requires { 1 ≤ length p.now }
        ensures items { option_map (λ items. items.now) result ≡ template_for self.now who p.now }
        ensures few { IfSome result (λ items. length items.now ≤ 4095) }
    {
        let Some((_, row)) = self.rule_for(who, p) else {
            return None;
        };
        if !row.has_reply() || self.is_barred(who, row) {
            return None;
        }
        Some(row.template_now())
    }

    /// The row that decides, behind its index.
    fn rule_for(&self, who: TesterId, p: &[u8]) -> Option<(u16, &AnswerRow)>
        requires { 1 ≤ length p.now }
        ensures index { option_map (λ found. found.0) result ≡ index_for self.now who p.now }
        ensures row { option_map (λ found. found.1.now) result ≡ rule_for self.now who p.now }
    {
        self.answers.row_for(self.access_of(who), p)
    }

    /// What a tester has access to.
    fn access_of(&self, who: TesterId) -> Access
        ensures { result ≡ access_of self.now who }
    {
        Access {
            session: self.session_of(who),
            unlocked: self.unlocked_for(who),
        }
    }

    /// The level that is unlocked for a tester.
    fn unlocked_for(&self, who: TesterId) -> Option<u8>
        ensures { result ≡ (access_of self.now who).unlocked }
    {
        if self.is_holder(who) {
            self.security.unlocked()
        } else {
            None
        }
    }

    /// Whether the row would enter a session that another tester holds.
    fn is_barred(&self, who: TesterId, row: &AnswerRow) -> bool
        ensures { result ≡ is_barred self.now who row.now }
    {
        row.enter > DEFAULT_SESSION && self.is_held_by_another(who)
    }

    /// What a request does by the row at an index.
    fn effect_by(&self, who: TesterId, p: &[u8], index: u16, row: &AnswerRow) -> Effect
        requires { 1 ≤ length p.now }
        ensures { result ≡ effect_by self.now who p.now index row.now }
    {
        if !row.has_reply() {
            return self.effect(who, p);
        }
        if self.is_barred(who, row) {
            return Effect::Nothing;
        }
        Effect::Answer(index)
    }

    /// Puts the reply by the row at an index in its place, and tells what the request does.
    fn put_by(
        &self,
        who: TesterId,
        functional: bool,
        p: &[u8],
        index: u16,
        row: &AnswerRow,
        answer: &mut Option<Message>,
    ) -> Result<Effect, AllocError>
        requires { 1 ≤ length p.now }
        ensures reply { OnOk result
            (answer.new ≡ reply_by self.now who functional p.now (Some row.now)) }
        ensures effect { IfOk result (λ e. e ≡ effect_by self.now who p.now index row.now) }
    {
        if !row.has_reply() {
            return self.put_own(who, functional, p, answer);
        }
        if self.is_barred(who, row) {
            *answer = negative_reply(false, p[0], Nrc::BusyRepeatRequest);
            return Ok(Effect::Nothing);
        }
        *answer = self.row_reply(row, p)?;
        Ok(Effect::Answer(index))
    }

    /// What a row answers; no bytes are no message.
    fn row_reply(&self, row: &AnswerRow, p: &[u8]) -> Result<Option<Message>, AllocError>
        ensures { IfOk result (λ r. r ≡ row_reply row.now p.now) }
    {
        let bytes = row.filled(self.alloc(), p)?;
        if bytes.is_empty() {
            return Ok(None);
        }
        Ok(Some(Message::from_vec(bytes)))
    }
}
