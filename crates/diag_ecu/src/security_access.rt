//! Security access: seeds and keys (ISO 14229-1:2013, 9.4).
ghost use Rattle.std.specs.Prelude.{◌≡◌, ◌≤◌, length, false, IsTrue, IfOk, Some};
ghost use Rattle.diag_setup.specs.Setup.{first_holding};
ghost use Rattle.diag_store.specs.Security.{is_delayed};
ghost use Rattle.diag_ecu.specs.Respond.{security_checks, security_effect, positive_reply, is_sub_function, sub, seed_refusal, key_refusal};

use crate::bytes::sub_of;
use crate::ecu::{Ecu, say};
use crate::service::{Nrc, Service, SubFunctions};
use diag_pdu::Message;
use diag_setup::TesterId;
use diag_store::{KeyAnswer, SeedAnswer};
use std::alloc::AllocError;

impl Ecu {
    /// The NRC of the first check of a seed or key that holds.
    #[inline(never)]
    pub(crate) fn security_refusal(&self, who: TesterId, p: &[u8]) -> Option<Nrc>
        requires long { 2 ≤ length p.now }
        requires known { IsTrue (is_sub_function self.now SubFunctions.OfLevels (sub p.now)) }
        ensures { result ≡ first_holding (security_checks self.now who p.now) }
    {
        let sub = sub_of(p);
        if self.has_level(sub) {
            return seed_refusal(self.security.seed_answer(who, sub));
        }
        key_refusal(
            self.security
                .key_answer(who, sub.saturating_sub(1), &p[2..]),
        )
    }

    /// The seed, or the word that the key was right.
    #[inline(never)]
    pub(crate) fn security_reply(
        &self,
        who: TesterId,
        p: &[u8],
    ) -> Result<Option<Message>, AllocError>
        requires { is_delayed self.now.security who ≡ false }
        ensures { IfOk result (λ reply.
            reply ≡ Some (positive_reply self.now Service.SecurityAccess p.now)) }
    {
        let sub = sub_of(p);
        if self.has_level(sub)
            && let SeedAnswer::Seed(seed) = self.security.seed_answer(who, sub)
        {
            return self.say_with(&[0x67, sub], seed);
        }
        Ok(Some(say(&[0x67, sub])))
    }

    /// Gives a seed, or takes the right key.
    pub(crate) fn access_security(&mut self, who: TesterId, p: &[u8])
        requires long { 2 ≤ length p.now }
        requires known { IsTrue (is_sub_function self.old SubFunctions.OfLevels (sub p.now)) }
        ensures { self.new ≡ security_effect self.old who p.now }
    {
        let sub = sub_of(p);
        if self.has_level(sub) {
            self.security.give_seed(who, sub);
        } else {
            self.security.key(who, sub.saturating_sub(1), &p[2..]);
        }
    }
}

fn seed_refusal(answer: SeedAnswer<'_>) -> Option<Nrc>
    ensures { result ≡ seed_refusal answer.entry }
{
    match answer {
        SeedAnswer::Delayed => Some(Nrc::RequiredTimeDelayNotExpired),
        SeedAnswer::Seed(_) => None,
    }
}

fn key_refusal(answer: KeyAnswer) -> Option<Nrc>
    ensures { result ≡ key_refusal answer }
{
    match answer {
        KeyAnswer::Delayed => Some(Nrc::RequiredTimeDelayNotExpired),
        KeyAnswer::NoSeed => Some(Nrc::RequestSequenceError),
        KeyAnswer::Right => None,
        KeyAnswer::Wrong => Some(Nrc::InvalidKey),
        KeyAnswer::TooMany => Some(Nrc::ExceedNumberOfAttempts),
    }
}
