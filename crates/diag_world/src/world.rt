//! A desk with a channel for each tester.

ghost use Rattle.std.specs.Prelude.{
  ◌≡◌,
  ◌+◌,
  ◌≤◌,
  ◌∷◌,
  [],
  ◌++◌,
  length,
  map,
  IfOk,
  OnOk,
  OnErr,
  IsSome,
};
ghost use Rattle.diag_tp.specs.Gives.{gives};
ghost use Rattle.diag_setup.specs.Setup.{link_of};
ghost use Rattle.diag_desk.specs.Entry.{IsJournal, most_entries};
ghost use Rattle.diag_desk.specs.Legal.{IsOpening, Legal, after};
ghost use Rattle.diag_desk.specs.Timed.{own_timed, timed};
ghost use Rattle.diag_port.specs.Late.{pace_of};
ghost use Rattle.diag_port.specs.Releasing.{drawn};
ghost use Rattle.diag_world.specs.Channel.{channel_of, IsResting, EachChannelRun};
ghost use Rattle.diag_world.specs.Weaving.{items_of};
ghost use Rattle.diag_world.specs.World.{EachInterleaving, Stands, Took};

use crate::channel::Channel;
use crate::serial_play::Played;
use crate::taking::TakeEvents;
use diag_can::LentEvent;
use diag_desk::{Desk, Journal, StepFault};
use diag_ecu::Ecu;
use diag_port::Pace;
use diag_setup::{Setup, TesterId};
use diag_tp::SentFrames;
use std::alloc::{AllocError, Global};
use std::marker::Model;

/// A desk with a channel for each tester. Contracts see its ECU and ports as a server.
#[derive(Drop)]
pub struct World {
    desk: Desk,
    channels: Vec<Channel>,
}

impl Model for World {
    ghost use Rattle.std.specs.Prelude.{map};
    ghost use Rattle.diag_world.specs.Channel.{channel_of, AreResting};
    ghost use Rattle.diag_world.specs.World.{WorldState, world_of};

    ghost Value = { WorldState };

    ghost view = { λ w. world_of w.desk (map channel_of w.channels.items) };

    ghost invariant = { λ w. AreResting w.channels.items };
}

impl World {
    /// A world in which nothing has happened, where memory isn't refused.
    pub fn new(alloc: Global, setup: &Setup) -> Result<World, AllocError>
        ensures { IfOk result (λ world. Stands setup.now world []) }
    {
        let desk = Desk::new(alloc, setup)?;
        let mut channels = Vec::with_capacity(alloc, setup.testers())?;
        for index in 0..setup.testers() {
            let who = setup.who(index);
            channels.push_reserved(Channel::new(alloc, setup.link(who), Pace::of(setup)));
        }
        Ok(World { desk, channels })
    }

    /// Takes an event of a tester. Refused, nothing has changed.
    ///
    /// JournalFull comes where the event gives a step and the journal is full, which is looked at first; else all
    /// growths come before the step is taken.
    pub fn event(&mut self, who: TesterId, event: &LentEvent<'_>) -> Result<(), StepFault>
        requires in_setup { who ≤ length self.old.sent }
        ensures ok { OnOk result (EachInterleaving self.old (λ setup M.
            Stands setup self.new (M ++ (who, event.now) ∷ []))) }
        ensures testers { length self.new.sent ≡ length self.old.sent }
        ensures err { OnErr result (self.new ≡ self.old) }
        ensures full { result ≡ Err StepFault.JournalFull
            → (length self.old.desk.journal ≡ most_entries)
            × EachInterleaving self.old (λ setup M.
            IsSome (gives (link_of setup who) (items_of M who) event.now)) }
        ensures first { length self.old.desk.journal ≡ most_entries
            → EachInterleaving self.old (λ setup M.
            IsSome (gives (link_of setup who) (items_of M who) event.now)
            → result ≡ Err StepFault.JournalFull) }
    {
        let index = who.index();
        take(&mut self.desk, &mut self.channels[index], who, event)
    }

    /// The entries so far, which are a legal run from the opening, that of a checked setup.
    pub fn journal(&self) -> &Journal
        ensures list { result.now.entries ≡ self.now.desk.journal }
        ensures opened { IsOpening self.now.desk.opening }
        ensures legal { Legal self.now.desk.opening self.now.desk.journal }
        ensures journal { IsJournal self.now.desk.journal }
        ensures limit { length self.now.desk.journal ≤ most_entries }
    {
        self.desk.journal()
    }

    /// The ECU as the entries have made it.
    pub fn ecu(&self) -> &Ecu
        ensures { result.now ≡ after self.now.desk.opening self.now.desk.journal }
    {
        self.desk.ecu()
    }

    /// The frames that were sent to a tester, in order.
    pub fn sent(&self, who: TesterId) -> &SentFrames
        requires in_setup { who ≤ length self.now.sent }
        ensures { EachInterleaving self.now (λ setup M. result.now.items ≡ drawn
            (link_of setup who) (pace_of setup) (items_of M who)
            (own_timed (timed self.now.desk.opening self.now.desk.journal) who)) }
    {
        let index = who.index();
        self.channels[index].sent()
    }

    /// What the play leaves.
    pub(crate) fn into_played(self, alloc: Global) -> Result<Played, AllocError>
        ensures desk { IfOk result (λ played. played.desk ≡ self.desk) }
        ensures sent { IfOk result (λ played. map (λ s. s.items) played.sent.items ≡ self.sent) }
    {
        let World { desk, channels } = self;
        let sent = sent_of(alloc, channels)?;
        Ok(Played { desk, sent })
    }
}

impl TakeEvents for World {
    ghost use Rattle.diag_setup.specs.declared.raw.RawSetup.{RawSetup};
    ghost use Rattle.diag_world.specs.World.{Stands};

    ghost Terms = { RawSetup };

    ghost setup_of = { λ setup. setup };

    ghost took = { λ world setup M. Stands setup world M };

    fn take_event(&mut self, who: TesterId, event: &LentEvent<'_>) -> Result<(), StepFault> {
        self.event(who, event)
    }
}

/// The frames of each channel, in order.
fn sent_of(alloc: Global, channels: Vec<Channel>) -> Result<Vec<SentFrames>, AllocError>
    ensures { IfOk result (λ sent. map (λ s. s.items) sent.items
        ≡ map (λ channel. channel.sent) (map channel_of channels.items)) }
{
    let mut sent = Vec::new(alloc);
    for channel in channels {
        sent.push(channel.into_sent())?;
    }
    Ok(sent)
}

/// Takes an event of a tester at its channel, and has the desk take the step that it gives. Refused, nothing has
/// changed.
fn take(
    desk: &mut Desk,
    channel: &mut Channel,
    who: TesterId,
    event: &LentEvent<'_>,
) -> Result<(), StepFault>
    requires rest { IsResting channel.old }
    ensures ok { OnOk result
        (Took desk.old desk.new who event.now (channel_of channel.old) (channel_of channel.new)) }
    ensures journal { IsJournal desk.old.journal }
    ensures rest { IsResting channel.new }
    ensures err { OnErr result
        ((desk.new ≡ desk.old) × (channel_of channel.new ≡ channel_of channel.old)) }
    ensures full { result ≡ Err StepFault.JournalFull
        → (length desk.old.journal ≡ most_entries)
        × EachChannelRun (channel_of channel.old) (λ s pace E T. IsSome (gives s E event.now)) }
    ensures first { length desk.old.journal ≡ most_entries
        → EachChannelRun (channel_of channel.old) (λ s pace E T.
        IsSome (gives s E event.now) → result ≡ Err StepFault.JournalFull) }
{
    if desk.journal().is_full() && channel.gives_step(event) {
        return Err(StepFault::JournalFull);
    }
    channel.take(who, event, desk)?;
    // (for its contract: a desk's journal is legal)
    let _journal = desk.journal();
    Ok(())
}
