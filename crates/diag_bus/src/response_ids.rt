//! To which tester a frame of the unit's own is, by its identifier.

ghost use Rattle.std.specs.Prelude.{◌≡◌, length, IfOk};
ghost use Rattle.diag_bus.specs.ResponseIds.{AreResponsesOf, IsResponder};

use diag_can::CanId;
use diag_setup::{Setup, TesterId};
use std::alloc::{AllocError, Global};

/// How many identifiers of 11 bits there are.
const IDENTIFIERS: u16 = 2048;

/// To which tester the unit's own frames of each identifier are, taken from the setup once.
#[derive(Drop)]
pub struct ResponseIds {
    /// By the identifier, of those of 11 bits.
    pub testers: Vec<Option<TesterId>>,
}

impl ResponseIds {
    /// Those of a setup.
    pub fn new(alloc: Global, setup: &Setup) -> Result<ResponseIds, AllocError>
        ensures { IfOk result (λ ids. AreResponsesOf setup.now ids) }
    {
        let mut testers = Vec::new(alloc);
        for number in 0..IDENTIFIERS {
            let Some(id) = CanId::new(number) else {
                unreachable!()
            };
            testers.push(responder_of(setup, id))?;
        }
        Ok(ResponseIds { testers })
    }

    /// The tester whose response identifier this is: those of 11 bits are looked up in a table.
    #[inline(always)]
    pub fn responder(&self, setup: &Setup, id: CanId) -> Option<TesterId>
        requires { AreResponsesOf setup.now self.now }
        ensures { IsResponder setup.now id (length setup.now.testers) result }
    {
        if id.is_extended() {
            return responder_of(setup, id);
        }
        self.testers[id.rank() as usize]
    }
}

/// The tester whose response identifier this is.
#[inline(never)]
fn responder_of(setup: &Setup, id: CanId) -> Option<TesterId>
    ensures { IsResponder setup.now id (length setup.now.testers) result }
{
    // (for its contract: no two testers have one identifier)
    let _ = setup.raw();
    let mut responder = None;
    for index in 0..setup.testers() {
        let who = setup.who(index);
        if setup.ids(who).response == id {
            responder = Some(who);
        }
    }
    responder
}
