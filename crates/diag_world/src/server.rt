//! The server as it streams: the ECU and the testers' ports, and neither a journal nor the frames that were sent.

ghost use Rattle.std.specs.Prelude.{
  ◌≡◌,
  ◌≤◌,
  ◌<◌,
  ◌-◌,
  ◌+◌,
  ◌↔◌,
  [],
  length,
  IfErr,
  IfOk,
  IfSome,
  OnOk,
  OnErr,
  slice_get,
  is_some,
  IsSome,
  IsTrue,
};
ghost use Rattle.diag_store.specs.Dids.{with_value, write_answer};
ghost use Rattle.diag_store.specs.Dtcs.{status_of, with_status};
ghost use Rattle.diag_tp.specs.Gives.{gives};
ghost use Rattle.diag_setup.specs.Setup.{link_of};
ghost use Rattle.diag_world.specs.Weaving.{items_of};
ghost use Rattle.diag_port.specs.Fault.{IsFaultBy};
ghost use Rattle.diag_port.specs.Port.{IsAtRest, port_of, port_quiet};
ghost use Rattle.diag_port.specs.Standing.{GivesStep};
ghost use Rattle.std.specs.Bool.{OnFalse};
ghost use Rattle.std.specs.List.{list_any};
ghost use Rattle.diag_port.specs.Block.{port_in_block};
ghost use Rattle.diag_world.specs.Block.{some_in_block};
ghost use Rattle.diag_world.specs.Server.{closing_time, quiet_of, server_of, AreEarly, EachRun, IsEarly, TesterTook, Serves, ServerTook, TookNothing, Waited, WasSet};

use crate::keeper::Keeper;
use crate::lazy_port::LazyPort;
use diag_can::{LentEvent, TickCount};
use diag_ecu::Ecu;
use diag_pdu::{Message, Request};
use diag_port::{Pace, Port, TakeSteps, take};
use diag_setup::{Setup, TesterId};
use diag_store::DidFault;
use diag_tp::SentFrames;
use std::alloc::{AllocError, Global};
use std::marker::Model;

/// The last time of a link, in ticks, at which an event is taken.
pub const CLOSING_TIME: u64 = 1 << 63;

/// The ECU and each tester's port.
///
/// Ticks in which no port does anything are counted, and a port takes them with its next event.
///
/// It keeps no history: its contract is the relation `Serves`, from each interleaving and journal that it stands for to
/// those with one event more. `take` makes all growths, has the event answered and its entry kept by whoever keeps the
/// journal, and only then takes the event, which can't fail.
pub struct Server {
    ecu: Ecu,
    ports: Vec<LazyPort>,
    /// How many ticks have passed for all ports in which none did anything.
    passed: u64,
}

// Written out, so that a function which lets a server go makes one call, and doesn't go through all that it owns.
impl Drop for Server {
    fn drop(self) {
        let Server {
            ecu: _,
            ports: _,
            passed: _,
        } = self;
    }
}

impl Model for Server {
    ghost use Rattle.std.specs.Prelude.{map};
    ghost use Rattle.diag_world.specs.LazyPort.{caught_up, AreLazy};
    ghost use Rattle.diag_world.specs.Server.{ServerView};

    ghost Value = { ServerView };

    ghost view = { λ s.
        record { ecu = s.ecu; ports = map (λ lazy. caught_up s.passed lazy) s.ports.items } };

    ghost invariant = { λ s. AreLazy s.passed s.ports.items };
}

impl Server {
    /// A server to which nothing has happened, where memory isn't refused.
    pub fn new(alloc: Global, setup: &Setup) -> Result<Server, AllocError>
        ensures { IfOk result (λ server. Serves setup.now (server_of server) [] []) }
    {
        let ecu = Ecu::new(alloc, setup)?;
        let mut ports = Vec::with_capacity(alloc, setup.testers())?;
        for index in 0..setup.testers() {
            let who = setup.who(index);
            ports.push_reserved(LazyPort::new(alloc, setup.link(who), Pace::of(setup)));
        }
        Ok(Server {
            ecu,
            ports,
            passed: 0,
        })
    }

    /// Takes an event of a tester whose link hasn't come past its closing time, has the entry that it gives kept, and hands
    /// out the frames that it draws.
    ///
    /// # Errors
    /// That of memory where it is refused, or 2^40 replies wait; and the keeper's own where the event gives a step, whose
    /// entry it can't keep. The server and the frames are then as before, and so is what is kept.
    #[inline(always)]
    pub fn take<K: Keeper>(
        &mut self,
        who: TesterId,
        event: &LentEvent<'_>,
        keeper: &mut K,
        out: &mut SentFrames,
    ) -> Result<(), K::Fault>
        requires in_setup { who ≤ length self.old.ports }
        requires early { IsEarly self.old (who - 1) }
        ensures took { OnOk result (ServerTook K.keeps (server_of self.old) (server_of self.new)
            keeper.old keeper.new who event.now out.old.items out.new.items) }
        ensures target { K.target keeper.new ≡ K.target keeper.old }
        ensures err { OnErr result
            ((server_of self.new ≡ server_of self.old) × (out.new.items ≡ out.old.items)) }
        ensures unkept { OnErr result (K.unkept keeper.old keeper.new) }
        ensures full { IfErr result (IsFaultBy K.Fault.from_gives (K.is_full keeper.old
            × EachRun (server_of self.old) (λ setup M journal.
            IsSome (gives (link_of setup who) (items_of M who) event.now)))) }
    {
        let index = who.index();
        let lazy = &mut self.ports[index];
        lazy.catch_up(self.passed);
        take_at(&mut lazy.port, &mut self.ecu, who, event, keeper, out)
    }

    /// Whether a tester's link hasn't come past its closing time, so that it takes an event.
    pub fn is_early(&self, who: TesterId) -> bool
        requires in_setup { who ≤ length self.now.ports }
        ensures { IsTrue result ↔ IsEarly self.now (who - 1) }
    {
        let index = who.index();
        self.ports[index].is_early(self.passed)
    }

    /// Takes so many ticks of each tester, in order, in which no port does anything. The entries that they give have no
    /// reply, and aren't made.
    #[inline(always)]
    pub fn pass_quietly(&mut self, setup: &Setup, count: TickCount)
        requires in_setup { length self.old.ports ≡ length setup.now.testers }
        requires quiet { count < quiet_of (server_of self.old).ports }
        requires early { AreEarly (server_of self.old).ports }
        ensures waited { Waited (server_of self.old) (server_of self.new) (length setup.now.testers) count }
        ensures rest { quiet_of (server_of self.old).ports ≤ quiet_of (server_of self.new).ports + count }
    {
        self.passed = self.passed.saturating_add(u64::from(count.get()));
        self.ecu.ticks_each(setup, count);
    }

    /// For how many ticks of every tester no frame and no held reply falls due and no reception or wait ends, before the last
    /// of them: the least of the ports; at least 1, and 2^64 - 1 where nothing is waited for.
    #[inline(never)]
    pub fn quiet(&self) -> u64
        ensures is { result ≡ quiet_of (server_of self.now).ports }
        ensures some { 1 ≤ result }
    {
        let mut least = u64::MAX;
        for lazy in &self.ports {
            least = least.min(lazy.quiet(self.passed));
        }
        least
    }

    /// Whether to some tester a ConsecutiveFrame of a reply is still to go, behind its separation time.
    pub fn is_in_block(&self) -> bool
        ensures { result ≡ some_in_block (server_of self.now).ports }
    {
        some_in_block(self.ports.as_slice())
    }

    /// For how many ticks a tester's port does nothing before the last of them; at least 1.
    #[inline(always)]
    pub fn quiet_at(&self, who: TesterId) -> u64
        requires in_setup { who ≤ length self.now.ports }
        ensures is { IfSome (slice_get self.now.ports (who - 1)) (λ port. result ≡ port_quiet (port_of port)) }
        ensures some { 1 ≤ result }
    {
        let index = who.index();
        self.ports[index].quiet(self.passed)
    }

    /// The ECU as the run has made it.
    pub fn ecu(&self) -> &Ecu
        ensures { result.now ≡ self.now.ecu }
    {
        &self.ecu
    }

    /// Gives a data identifier another value, of the length that it has, as the ECU's own software does. It is no step of a
    /// tester: the law of legal runs speaks of the stretch before it and of the one behind it.
    ///
    /// # Errors
    /// As `Ecu::set_value`.
    pub fn set_value(&mut self, id: u16, value: &[u8]) -> Result<(), DidFault>
        ensures answer { result ≡ write_answer self.old.ecu.dids id value.now }
        ensures ok { OnOk result (WasSet (server_of self.old) (server_of self.new)
            (record self.old.ecu { dids = with_value self.old.ecu.dids id value.now })) }
        ensures err { OnErr result (self.new ≡ self.old) }
        ensures room { self.new.ports ≡ self.old.ports }
    {
        self.ecu.set_value(id, value)
    }

    /// Gives a DTC another status, as the ECU's own software does; whether the code is known. As `set_value` it is
    /// no step of a tester.
    pub fn set_status(&mut self, code: u32, status: u8) -> bool
        ensures known { result ≡ is_some (status_of self.old.ecu.dtcs code) }
        ensures set { WasSet (server_of self.old) (server_of self.new)
            (record self.old.ecu { dtcs = with_status self.old.ecu.dtcs code status }) }
        ensures unknown { OnFalse result (self.new ≡ self.old) }
        ensures room { self.new.ports ≡ self.old.ports }
    {
        self.ecu.set_status(code, status)
    }
}

/// Whether at one of these ports a ConsecutiveFrame of a reply is still to go.
fn some_in_block(ports: &[LazyPort]) -> bool
    ensures { result ≡ list_any (λ lazy. port_in_block (port_of lazy.port)) ports.now }
{
    ports.iter().any(|lazy| lazy.is_in_block())
}

/// A server's ECU, and who keeps the journal of what it answers.
#[derive(Drop)]
struct Answering<'a, K> {
    ecu: &'a mut Ecu,
    keeper: &'a mut K,
}

impl<'a, K: Keeper> TakeSteps for Answering<'a, K> {
    ghost use Rattle.std.specs.Prelude.{◌≡◌, ◌≤◌, refl};
    ghost use Rattle.diag_ecu.specs.Respond.{may_delay};
    ghost use Rattle.diag_world.specs.Server.{Answered, closing_time};

    type Fault = K::Fault;

    ghost allows = { λ _ _ before. before ≤ closing_time };

    ghost takes = { λ old before x new.
        Answered K.keeps old.ecu.now new.ecu.now old.keeper.now new.keeper.now before x };

    ghost can_delay = { λ answering. may_delay answering.ecu.now };

    ghost is_full = { λ answering. K.is_full answering.keeper.now };

    ghost refuses = { λ old new.
        (new.ecu.now ≡ old.ecu.now) × K.unkept old.keeper.now new.keeper.now };

    ghost stays = { λ old new. (new.ecu.ghost_name ≡ old.ecu.ghost_name)
        × (new.keeper.ghost_name ≡ old.keeper.ghost_name)
        × (K.target new.keeper.now ≡ K.target old.keeper.now) };

    #[inline(always)]
    fn can_delay(&self) -> bool {
        self.ecu.can_delay()
    }

    #[inline(always)]
    fn take_request(
        &mut self,
        before: u64,
        who: TesterId,
        request: &Request,
        reply: &mut Option<Message>,
    ) -> Result<u32, K::Fault> {
        let bytes = request.message.bytes();
        let decided = self.ecu.put_reply(who, request.functional, bytes, reply)?;
        self.keeper
            .keep_request(self.ecu, before, who, request, reply.as_ref())?;
        self.ecu.apply(who, bytes, decided);
        Ok(decided.after_ms)
    }

    #[inline(always)]
    fn take_ticks(&mut self, before: u64, who: TesterId, count: TickCount) -> Result<(), K::Fault> {
        self.keeper.keep_ticks(self.ecu, before, who, count)?;
        self.ecu.ticks(who, count);
        Ok(())
    }

    ghost refuses_none = { λ answering. (refl, K.unkept_same answering.keeper.now) };

    ghost stays_itself = { λ _. (refl, refl, refl) };
}

/// Takes an event at a port before its closing time, and has its entry kept. Refused, port, ECU and frames are as before.
#[inline(always)]
fn take_at<K: Keeper>(
    port: &mut Port,
    ecu: &mut Ecu,
    who: TesterId,
    event: &LentEvent<'_>,
    keeper: &mut K,
    out: &mut SentFrames,
) -> Result<(), K::Fault>
    requires rest { IsAtRest port.old }
    requires early { port.old.link.state.now ≤ closing_time }
    ensures took { OnOk result (TesterTook K.keeps ecu.old ecu.new (port_of port.old) (port_of port.new)
        keeper.old keeper.new who event.now out.old.items out.new.items) }
    ensures rest { IsAtRest port.new }
    ensures target { K.target keeper.new ≡ K.target keeper.old }
    ensures err { OnErr result
        (TookNothing K.unkept ecu.old ecu.new (port_of port.old) (port_of port.new) keeper.old keeper.new
        out.old.items out.new.items) }
    ensures full { IfErr result (IsFaultBy K.Fault.from_gives
        (K.is_full keeper.old × GivesStep port.old.link.state event.now)) }
{
    let mut answering = Answering { ecu, keeper };
    take(port, who, event, &mut answering, out)
}
