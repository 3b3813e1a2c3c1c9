//! DiagnosticSessionControl, ECUReset and TesterPresent (ISO 14229-1:2013, 9.2, 9.3 and 9.6).
ghost use Rattle.std.specs.Prelude.{◌≡◌, IfNone};
ghost use Rattle.diag_setup.specs.Setup.{first_holding};
ghost use Rattle.diag_ecu.specs.Respond.{checks, positive_reply, sent_positive};
ghost use Rattle.diag_ecu.specs.State.{entered, session_of, session_ended};

use crate::bytes::{bytes_16, sub_of};
use crate::ecu::{Ecu, say};
use crate::service::{Nrc, Service};
use diag_pdu::Message;
use diag_setup::TesterId;

/// defaultSession, in which all testers but the holder are.
pub const DEFAULT_SESSION: u8 = 0x01;

impl Ecu {
    /// The number of a tester's session: that of the holder, and for all others the default one.
    pub fn session_of(&self, who: TesterId) -> u8
        ensures { result ≡ session_of self.now who }
    {
        if self.is_holder(who) {
            self.session
        } else {
            DEFAULT_SESSION
        }
    }

    /// The reply to session control: the sub-function, P2 in milliseconds and P2* in units of 10 milliseconds.
    pub(crate) fn session_reply(&self, p: &[u8]) -> Message
        ensures { result ≡ positive_reply self.now Service.DiagnosticSessionControl p.now }
    {
        let [p2_high, p2_low] = bytes_16(self.values.p2_ms);
        let [star_high, star_low] = bytes_16(self.values.p2_star_10ms);
        say(&[0x50, sub_of(p), p2_high, p2_low, star_high, star_low])
    }

    /// The NRC of the first check that holds of TesterPresent; where none does, the reply is put in its place, or none
    /// where the request asks for silence.
    #[inline(always)]
    pub(crate) fn put_presence(
        &self,
        who: TesterId,
        p: &[u8],
        answer: &mut Option<Message>,
    ) -> Option<Nrc>
        ensures first { result ≡ first_holding (checks self.now who Service.TesterPresent p.now) }
        ensures reply { IfNone result
            (answer.new ≡ sent_positive self.now Service.TesterPresent p.now) }
    {
        let row = Service::TesterPresent.row();
        if let Some(nrc) = self.common_refusal(who, row, p) {
            return Some(nrc);
        }
        *answer = if row.asks_for_silence(p) {
            None
        } else {
            Some(say(&[0x7E, 0x00]))
        };
        None
    }

    /// Goes to a session, or to none where it is 0. The default one ends that of the holder; who enters another finds all
    /// locked.
    pub(crate) fn enter(&mut self, who: TesterId, session: u8)
        ensures { self.new ≡ entered self.old who session }
    {
        match session {
            0 => {}
            DEFAULT_SESSION => {
                if self.is_holder(who) {
                    self.end_session();
                }
            }
            _ => {
                self.security.lock();
                self.holder = Some(who);
                self.session = session;
                self.s3_left = u64::from(self.values.s3_ms);
            }
        }
    }

    /// The session ends: all is locked, the DTC setting is on, and the routines are idle.
    pub(crate) fn end_session(&mut self)
        ensures { self.new ≡ session_ended self.old }
    {
        self.security.lock();
        self.routines.idle_all();
        self.dtc_setting_on = true;
        self.holder = None;
        self.session = DEFAULT_SESSION;
        self.s3_left = 0;
    }
}
