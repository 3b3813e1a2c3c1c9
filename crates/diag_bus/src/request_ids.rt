//! Whose a frame of the bus is, by its identifier.

ghost use Rattle.std.specs.Prelude.{◌≡◌, ◌≤◌, length, IfOk};
ghost use Rattle.diag_setup.specs.Setup.{ids_of, known_ids};
ghost use Rattle.diag_setup.specs.declared.raw.RawSetup.{RawSetup};
ghost use Rattle.diag_bus.specs.RequestIds.{AreFunctional, AreRequestsOf, IsOwner};

use diag_can::{CanId, KnownId};
use diag_setup::{Setup, TesterId};
use std::alloc::{AllocError, Global};

/// How many identifiers of 11 bits there are.
const IDENTIFIERS: u16 = 2048;

/// Whose the frames of an identifier are.
#[derive(Clone, Copy)]
pub enum Owner {
    /// No tester's.
    Nobody,
    /// This tester's own requests.
    Tester(TesterId),
    /// The requests to every ECU, of the testers whose functional identifier it is.
    Functional,
}

/// Whose the frames of each identifier are, taken from the setup once.
#[derive(Drop)]
pub struct RequestIds {
    /// By the identifier, of those of 11 bits.
    pub owners: Vec<Owner>,
    /// Those of which lines are read that are passed over otherwise: of 29 bits, or by CAN FD.
    pub known: Vec<KnownId>,
    /// The functional identifier of each tester, in order.
    pub functional: Vec<CanId>,
}

impl RequestIds {
    /// Those of a setup.
    pub fn new(alloc: Global, setup: &Setup) -> Result<RequestIds, AllocError>
        ensures { IfOk result (λ ids. AreRequestsOf setup.now ids) }
    {
        let mut owners = Vec::new(alloc);
        for number in 0..IDENTIFIERS {
            let Some(id) = CanId::new(number) else {
                unreachable!()
            };
            owners.push(owner_of(setup, id))?;
        }
        let known = setup.known_ids(alloc)?;
        let functional = functional_ids(alloc, setup)?;
        Ok(RequestIds {
            owners,
            known,
            functional,
        })
    }

    /// The identifiers of which lines are read that are passed over otherwise.
    #[inline(always)]
    pub fn known(&self) -> &[KnownId]
        ensures { (setup : RawSetup) → AreRequestsOf setup self.now → result.now ≡ known_ids setup }
    {
        self.known.as_slice()
    }

    /// The functional identifier of a tester.
    #[inline(always)]
    pub fn functional(&self, setup: &Setup, who: TesterId) -> CanId
        requires ids { AreRequestsOf setup.now self.now }
        requires known { who ≤ length setup.now.testers }
        ensures { result ≡ (ids_of setup.now who).functional }
    {
        // (for its contract: the identifiers are those of its testers)
        let _ = setup;
        self.functional[who.index()]
    }

    /// Whose a frame of this identifier is: those of 11 bits are looked up in a table.
    #[inline(always)]
    pub fn owner(&self, setup: &Setup, id: CanId) -> Owner
        requires { AreRequestsOf setup.now self.now }
        ensures { IsOwner setup.now id (length setup.now.testers) result }
    {
        if id.is_extended() {
            return owner_of(setup, id);
        }
        self.owners[id.rank() as usize]
    }
}

/// The functional identifier of each tester of a setup, in order.
fn functional_ids(alloc: Global, setup: &Setup) -> Result<Vec<CanId>, AllocError>
    ensures { IfOk result (λ ids. AreFunctional setup.now ids.items (length setup.now.testers)) }
{
    let mut ids = Vec::new(alloc);
    for index in 0..setup.testers() {
        let who = setup.who(index);
        ids.push(setup.ids(who).functional)?;
    }
    Ok(ids)
}

/// Whose the frames of an identifier are.
#[inline(never)]
fn owner_of(setup: &Setup, id: CanId) -> Owner
    ensures { IsOwner setup.now id (length setup.now.testers) result }
{
    // (for its contract: no two testers have one identifier)
    let _ = setup.raw();
    let mut owner = Owner::Nobody;
    for index in 0..setup.testers() {
        let who = setup.who(index);
        let ids = setup.ids(who);
        if ids.request == id {
            owner = Owner::Tester(who);
        } else if ids.functional == id {
            owner = Owner::Functional;
        }
    }
    owner
}
