//! What a request does and when its answer goes, told with its reply.
ghost use Rattle.std.specs.Prelude.{◌≡◌};
ghost use Rattle.diag_ecu.specs.Respond.{own_effect, refused_effect};

use crate::service::{Nrc, Service};

/// What a request does to the ECU besides S3: told with its reply.
#[derive(Clone, Copy)]
pub enum Effect {
    /// Nothing changes.
    Nothing,
    /// The request passed all checks: its service is done.
    Serve(Service),
    /// A wrong key counts, though it is refused.
    CountWrongKey,
    /// The row of answers at this index answers: its next template moves on, and the tester goes to the row's session.
    Answer(u16),
}

/// What is decided of a request: what it does, and how long after it its answer goes.
#[derive(Clone, Copy)]
pub struct Decision {
    /// What it does.
    pub effect: Effect,
    /// How long after it its answer goes, in milliseconds.
    pub after_ms: u32,
}

impl Service {
    /// What a request of the service does that passes all checks.
    pub(crate) fn effect(self) -> Effect
        ensures { result ≡ own_effect self }
    {
        if self.row().changes {
            Effect::Serve(self)
        } else {
            Effect::Nothing
        }
    }
}

impl Nrc {
    /// What a request does that is refused with the NRC.
    pub(crate) fn effect(self) -> Effect
        ensures { result ≡ refused_effect self }
    {
        match self {
            Nrc::InvalidKey | Nrc::ExceedNumberOfAttempts => Effect::CountWrongKey,
            _ => Effect::Nothing,
        }
    }
}
