//! Routine control (ISO 14229-1:2013, 13.2).
ghost use Rattle.std.specs.Prelude.{◌≡◌, length, is_some, IfOk, IsTrue, Some};
ghost use Rattle.diag_setup.specs.Setup.{first_holding};
ghost use Rattle.diag_ecu.specs.Respond.{routine_checks, routine_of, routine_effect, positive_reply, sub};
ghost use Rattle.diag_ecu.specs.Bytes.{number_16};

use crate::bytes::{bytes_16, number_16_at, sub_of};
use crate::ecu::{Ecu, say};
use crate::service::{Nrc, Service};
use diag_pdu::Message;
use diag_setup::TesterId;
use diag_store::RoutineState;
use std::alloc::AllocError;

impl Ecu {
    /// The NRC of the first check of a routine that holds.
    #[inline(never)]
    pub(crate) fn routine_refusal(&self, who: TesterId, p: &[u8]) -> Option<Nrc>
        requires { length p.now ≡ 4 }
        ensures { result ≡ first_holding (routine_checks self.now who p.now) }
    {
        let id = number_16_at(p, 2);
        let starts = sub_of(p) == 0x01;
        let Some(level) = self.routines.level(id) else {
            return Some(Nrc::RequestOutOfRange);
        };
        if !self.is_open(who, level) {
            return Some(Nrc::SecurityAccessDenied);
        }
        match self.routines.state(id) {
            Some(RoutineState::Idle) if !starts => Some(Nrc::RequestSequenceError),
            Some(RoutineState::Running(_)) if starts => Some(Nrc::ConditionsNotCorrect),
            _ => None,
        }
    }

    /// The sub-function and the routine; where its result is asked for, 01 while it runs, and 00 and the result when it
    /// is done.
    #[tactic(auto, using(crate::proofs::ServiceLemmas::done_result))]
    #[inline(never)]
    pub(crate) fn routine_reply(&self, p: &[u8]) -> Result<Option<Message>, AllocError>
        requires { length p.now ≡ 4 }
        ensures { IfOk result (λ reply.
            reply ≡ Some (positive_reply self.now Service.RoutineControl p.now)) }
    {
        let id = number_16_at(p, 2);
        let sub = sub_of(p);
        let [high, low] = bytes_16(id);
        if sub == 0x03 {
            match self.routines.state(id) {
                Some(RoutineState::Running(_)) => {
                    return Ok(Some(say(&[0x71, sub, high, low, 0x01])));
                }
                Some(RoutineState::Done) => {
                    if let Some(result) = self.routines.result(id) {
                        return self.say_with(&[0x71, sub, high, low, 0x00], result);
                    }
                }
                _ => {}
            }
        }
        Ok(Some(say(&[0x71, sub, high, low])))
    }

    /// Starts or stops a routine.
    pub(crate) fn control_routine(&mut self, p: &[u8])
        requires long { length p.now ≡ 4 }
        requires known { IsTrue (is_some (routine_of self.old p.now)) }
        ensures { self.new ≡ routine_effect self.old (number_16 p.now 2) (sub p.now) }
    {
        let id = number_16_at(p, 2);
        match sub_of(p) {
            0x01 => self.routines.start(id),
            0x02 => self.routines.stop(id),
            _ => {}
        }
    }
}
