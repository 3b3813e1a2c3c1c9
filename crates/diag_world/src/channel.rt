//! One tester's channel: its port, and what it was sent.

ghost use Rattle.std.specs.Prelude.{
  ◌≡◌,
  [],
  IfErr,
  IsTrue,
  IsSome,
  OnErr,
  OnOk,
  ◌↔◌,
};
ghost use Rattle.diag_tp.specs.Gives.{gives};
ghost use Rattle.diag_port.specs.Fault.{IsFaultBy};
ghost use Rattle.diag_world.specs.Channel.{channel_of, IsResting, ChannelTook, EachChannelRun, ChannelStands};

use diag_can::LentEvent;
use diag_pdu::LinkSetup;
use diag_port::{Pace, Port, TakeSteps, take};
use diag_setup::TesterId;
use diag_tp::SentFrames;
use std::alloc::Global;

/// One tester's port, and the frames that the tester was sent.
#[derive(Drop)]
pub struct Channel {
    port: Port,
    sent: SentFrames,
}

impl Channel {
    /// The channel of a tester to whom nothing has happened.
    pub fn new(alloc: Global, setup: LinkSetup, pace: Pace) -> Channel
        ensures stands { ChannelStands setup pace (channel_of result) [] [] }
        ensures rest { IsResting result }
    {
        Channel {
            port: Port::new(alloc, setup, pace),
            sent: SentFrames::new(alloc),
        }
    }

    /// Whether an event gives a step.
    pub(crate) fn gives_step(&self, event: &LentEvent<'_>) -> bool
        ensures { EachChannelRun (channel_of self.now) (λ s pace E T.
            IsTrue result ↔ IsSome (gives s E event.now)) }
    {
        self.port.gives_step(event)
    }

    /// Takes an event of its tester: has the step that it gives taken, and sends what is due. Refused, nothing has changed.
    pub fn take<T: TakeSteps>(
        &mut self,
        who: TesterId,
        event: &LentEvent<'_>,
        taker: &mut T,
    ) -> Result<(), T::Fault>
        requires rest { IsResting self.old }
        requires allows { T.allows taker.old who (channel_of self.old).port.link.now }
        ensures took { OnOk result (ChannelTook T.takes (channel_of self.old) (channel_of self.new)
            taker.old taker.new who event.now) }
        ensures rest { IsResting self.new }
        ensures refused { OnErr result
            ((channel_of self.new ≡ channel_of self.old) × T.refuses taker.old taker.new) }
        ensures full { IfErr result (IsFaultBy T.Fault.from_gives (T.is_full taker.old
            × EachChannelRun (channel_of self.old) (λ s pace E T. IsSome (gives s E event.now)))) }
        ensures stays { T.stays taker.old taker.new }
    {
        take(&mut self.port, who, event, taker, &mut self.sent)
    }

    /// The frames that were sent, in order.
    pub(crate) fn sent(&self) -> &SentFrames
        ensures { result.now.items ≡ (channel_of self.now).sent }
    {
        &self.sent
    }

    /// The frames that were sent, in order.
    pub fn into_sent(self) -> SentFrames
        ensures { result.items ≡ (channel_of self).sent }
    {
        let Channel { port: _, sent } = self;
        sent
    }
}
