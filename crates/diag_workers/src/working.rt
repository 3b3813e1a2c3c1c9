//! One tester's worker.
ghost use Rattle.std.specs.Prelude.{◌≡◌, ◌≤◌, [], length, false, IfOk, OnOk, OnErr};
ghost use Rattle.diag_setup.specs.Setup.{link_of};
ghost use Rattle.diag_desk.specs.Entry.{HasNoReply};
ghost use Rattle.diag_gate.specs.Views.{HasNoDelay, timed_answer};
ghost use Rattle.diag_port.specs.Late.{pace_of};
ghost use Rattle.diag_world.specs.Channel.{channel_of, ChannelStands, IsResting};
ghost use Rattle.diag_workers.specs.Work.{AskedSome, CanKeep, HasAsked, PlayedLog, WorkerTook, holds};

use crate::keeping::Keep;
use diag_can::{LentEvent, Log, TickCount};
use diag_desk::{Journal, StepFault};
use diag_gate::Door;
use diag_pdu::{LinkSetup, Message, Request, Step};
use diag_port::{Pace, TakeSteps};
use diag_setup::{Setup, TesterId};
use diag_tp::SentFrames;
use diag_world::Channel;
use std::alloc::Global;

/// What one worker did: what it keeps of what it asked, and the frames that it sent.
#[derive(Drop)]
pub struct WorkerRecord<K = Journal> {
    /// What it asked, with the answers, in order.
    pub entries: K,
    /// The frames that it sent, in order, each with its time in ticks.
    pub sent: SentFrames,
}

/// Takes the events of one tester's log, and asks its door for each step that they give.
///
/// All growths for an event are made before the door is asked.
///
/// # Errors
/// `Memory` where memory is refused, here or at the door; `JournalFull` where the door's desk has a full journal. The
/// door is left with the first of the steps.
pub fn work<D: Door>(
    alloc: Global,
    setup: &Setup,
    who: TesterId,
    log: &Log,
    door: &mut D,
) -> Result<WorkerRecord, StepFault>
    requires in_setup { who ≤ length setup.now.testers }
    requires own_door { D.tester door.old ≡ who }
    ensures played { IfOk result (λ r. PlayedLog (link_of setup.now who) (pace_of setup.now) who
        log.now.items (D.given door.old) (D.given door.new) r.sent.items (holds r.entries)) }
    ensures refused { OnErr result
        (AskedSome (link_of setup.now who) who log.now.items (D.given door.old) (D.given door.new)) }
    ensures tester { D.tester door.new ≡ D.tester door.old }
    ensures home { D.home door.new ≡ D.home door.old }
{
    work_keeping(alloc, setup, who, log, door)
}

/// The same, with whatever is kept.
pub(crate) fn work_keeping<K: Keep + Drop, D: Door>(
    alloc: Global,
    setup: &Setup,
    who: TesterId,
    log: &Log,
    door: &mut D,
) -> Result<WorkerRecord<K>, StepFault>
    requires in_setup { who ≤ length setup.now.testers }
    requires own_door { D.tester door.old ≡ who }
    ensures played { IfOk result (λ r. PlayedLog (link_of setup.now who) (pace_of setup.now) who
        log.now.items (D.given door.old) (D.given door.new) r.sent.items (K.keeps r.entries)) }
    ensures refused { OnErr result
        (AskedSome (link_of setup.now who) who log.now.items (D.given door.old) (D.given door.new)) }
    ensures tester { D.tester door.new ≡ D.tester door.old }
    ensures home { D.home door.new ≡ D.home door.old }
{
    let mut worker = Worker::new(alloc, setup.link(who), Pace::of(setup));
    for index in 0..log.len() {
        worker.take(&log.get(index), door)?;
    }
    let Worker { channel, entries } = worker;
    Ok(WorkerRecord {
        entries,
        sent: channel.into_sent(),
    })
}

/// A worker between two events.
#[derive(Drop)]
struct Worker<K> {
    channel: Channel,
    entries: K,
}

impl<K: Keep> Worker<K> {
    fn new(alloc: Global, link: LinkSetup, pace: Pace) -> Worker<K>
        ensures stands { ChannelStands link pace (channel_of result.channel) [] [] }
        ensures rest { IsResting result.channel }
        ensures empty { K.keeps result.entries [] }
    {
        Worker {
            channel: Channel::new(alloc, link, pace),
            entries: K::none(alloc),
        }
    }

    /// Takes one event. All that can be refused but the door's step comes before it.
    fn take<D: Door>(&mut self, event: &LentEvent<'_>, door: &mut D) -> Result<(), StepFault>
        requires rest { IsResting self.old.channel }
        requires limit { CanKeep K.keeps self.old.entries }
        ensures took { OnOk result (WorkerTook (D.tester door.old)
            (channel_of self.old.channel) (channel_of self.new.channel) event.now
            (D.given door.old) (D.given door.new)
            (K.keeps self.old.entries) (K.keeps self.new.entries)) }
        ensures rest { IsResting self.new.channel }
        ensures refused { OnErr result (D.given door.new ≡ D.given door.old) }
        ensures tester { D.tester door.new ≡ D.tester door.old }
        ensures home { D.home door.new ≡ D.home door.old }
    {
        let who = door.who();
        let mut asking = Asking {
            entries: &mut self.entries,
            door,
        };
        self.channel.take(who, event, &mut asking)
    }
}

/// A door, and what is kept of what it is asked.
#[derive(Drop)]
struct Asking<'w, K, D> {
    entries: &'w mut K,
    door: &'w mut D,
}

impl<'w, K: Keep, D: Door> Asking<'w, K, D> {
    /// Asks the door for a step, and keeps its entry. All that can be refused here comes before the door is asked.
    fn ask(&mut self, step: &Step) -> Result<Option<Message>, StepFault>
        requires keep { CanKeep K.keeps self.old.entries.now }
        ensures asked { IfOk result (λ reply. HasAsked K.keeps (D.given self.old.door.now)
            (D.given self.new.door.now) self.old.entries.now self.new.entries.now
            (timed_answer (D.tester self.old.door.now) step.now reply (D.delay self.new.door.now))) }
        ensures ticks_unanswered { IfOk result (λ reply. HasNoReply step.now reply) }
        ensures ticks_at_once { OnOk result (HasNoDelay step.now (D.delay self.new.door.now)) }
        ensures at_once { D.can_delay self.old.door.now ≡ false
            → OnOk result (D.delay self.new.door.now ≡ 0) }
        ensures refused { OnErr result (D.given self.new.door.now ≡ D.given self.old.door.now) }
        ensures entries { self.new.entries.ghost_name ≡ self.old.entries.ghost_name }
        ensures door { self.new.door.ghost_name ≡ self.old.door.ghost_name }
        ensures tester { D.tester self.new.door.now ≡ D.tester self.old.door.now }
        ensures home { D.home self.new.door.now ≡ D.home self.old.door.now }
    {
        let who = self.door.who();
        self.entries.prepare(step)?;
        let reply = self.door.step(step)?;
        self.entries.enter(who, step, reply.as_ref());
        Ok(reply)
    }
}

impl<'w, K: Keep, D: Door> TakeSteps for Asking<'w, K, D> {
    ghost use Rattle.std.specs.Prelude.{◌≡◌, ⊤, refl};
    ghost use Rattle.diag_workers.specs.Work.{CanKeep, HasAsked};

    type Fault = StepFault;

    ghost allows = { λ asking who _.
        (D.tester asking.door.now ≡ who) × CanKeep K.keeps asking.entries.now };

    ghost takes = { λ old _ x new. HasAsked K.keeps (D.given old.door.now)
        (D.given new.door.now) old.entries.now new.entries.now x };

    ghost can_delay = { λ asking. D.can_delay asking.door.now };

    ghost is_full = { λ _. ⊤ };

    ghost refuses = { λ old new. D.given new.door.now ≡ D.given old.door.now };

    ghost stays = { λ old new. (new.entries.ghost_name ≡ old.entries.ghost_name)
        × (new.door.ghost_name ≡ old.door.ghost_name)
        × (D.tester new.door.now ≡ D.tester old.door.now)
        × (D.home new.door.now ≡ D.home old.door.now) };

    fn can_delay(&self) -> bool {
        self.door.can_delay()
    }

    fn take_request(
        &mut self,
        _before: u64,
        _who: TesterId,
        request: &Request,
        reply: &mut Option<Message>,
    ) -> Result<u32, StepFault> {
        // (a door is asked for a step, which owns its request)
        let step = Step::Request(request.try_copy()?);
        *reply = self.ask(&step)?;
        Ok(self.door.after_ms())
    }

    fn take_ticks(
        &mut self,
        _before: u64,
        _who: TesterId,
        count: TickCount,
    ) -> Result<(), StepFault> {
        self.ask(&Step::Ticks(count))?;
        Ok(())
    }

    ghost refuses_none = { λ _. refl };

    ghost stays_itself = { λ _. (refl, refl, refl, refl) };
}
