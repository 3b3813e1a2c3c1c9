//! Crews of two workers, at doors to no desk.

ghost use Rattle.std.specs.Prelude.{◌≡◌, length, map, IfOk};
ghost use Rattle.diag_pdu.specs.Cut.{counted_from};

use crate::trouble::{Trouble, holds};
use crate::workers::given::{events_of, setup_of_two};
use crate::workers::meeting::Meeting;
use crate::workers::plays::readers_play;
use diag_can::Log;
use diag_desk::{Journal, StepFault};
use diag_gate::Door;
use diag_pdu::{Message, Step};
use diag_setup::{Setup, TesterId};
use diag_workers::{Watch, crew};
use std::alloc::Global;
use std::sync::Wait;
use std::thread::Threads;

/// How many steps a door answers, and what it refuses the next with.
#[derive(Clone, Copy, Drop)]
struct Answers {
    steps: u32,
    then: StepFault,
}

/// A door to no desk. It keeps what it was asked, and tells a meeting of each step.
#[derive(Drop)]
struct LoneDoor<'a> {
    who: TesterId,
    given: Journal,
    meeting: &'a Meeting,
    left: Answers,
}

impl<'a> Door for LoneDoor<'a> {
    ghost use Rattle.std.specs.Prelude.{None, false, map};
    ghost use Rattle.diag_gate.specs.Views.{timed_answer};

    ghost given = { λ d. map (λ e. timed_answer e.who e.step e.reply 0) d.given.entries };

    ghost delay = { λ _. 0 };

    ghost can_delay = { λ _. false };

    ghost tester = { λ d. d.who };

    ghost home = { λ _. None };

    fn who(&self) -> TesterId {
        self.who
    }

    fn after_ms(&self) -> u32 {
        0
    }

    fn can_delay(&self) -> bool {
        false
    }

    fn step(&mut self, step: &Step) -> Result<Option<Message>, StepFault> {
        self.meeting.called(self.who);
        if self.left.steps == 0 {
            return Err(self.left.then);
        }
        self.left.steps -= 1;
        match self.given.push(self.who, step, None) {
            Ok(()) => Ok(None),
            Err(_refused) => Err(StepFault::Memory),
        }
    }
}

fn lone_door<'a>(alloc: Global, meeting: &'a Meeting, who: TesterId, left: Answers) -> LoneDoor<'a>
    ensures { result.who ≡ who }
{
    let given = Journal::new(alloc);
    LoneDoor {
        who,
        given,
        meeting,
        left,
    }
}

/// The doors of the two testers.
fn lone_doors<'a>(
    alloc: Global,
    meeting: &'a Meeting,
    left: [Answers; 2],
) -> Result<Vec<LoneDoor<'a>>, Trouble>
    ensures { IfOk result (λ doors. map (λ d. d.who) doors.items ≡ counted_from 1 2) }
{
    let (Some(one), Some(two)) = (TesterId::new(1), TesterId::new(2)) else {
        return Err(Trouble::Wrong);
    };
    let first = lone_door(alloc, meeting, one, left[0]);
    let second = lone_door(alloc, meeting, two, left[1]);
    Ok(Vec::from_array(alloc, [first, second])?)
}

/// A log of two ticks.
fn two_ticks(alloc: Global, setup: &Setup) -> Result<Log, Trouble> {
    events_of(alloc, setup, 0, &["tick", "tick"])
}

/// What refuses a crew that plays two ticks each, if anything does.
fn refusal<R: Threads + Sync>(
    rt: &R,
    alloc: Global,
    setup: &Setup,
    meeting: &Meeting,
    left: [Answers; 2],
) -> Result<Option<StepFault>, Trouble>
    requires { length setup.now.testers ≡ 2 }
{
    let logs = [two_ticks(alloc, setup)?, two_ticks(alloc, setup)?];
    let doors = lone_doors(alloc, meeting, left)?;
    Ok(crew(rt, alloc, setup, &logs, doors).err())
}

fn refused<R: Threads + Sync>(
    rt: &R,
    alloc: Global,
    meeting: &Meeting,
    left: [Answers; 2],
) -> Result<Option<StepFault>, Trouble> {
    let setup = setup_of_two(alloc)?;
    refusal(rt, alloc, &setup, meeting, left)
}

/// Answers every step of its log.
const WELL: Answers = Answers {
    steps: 2,
    then: StepFault::JournalFull,
};

/// Whether the two workers of a crew meet, and each door was asked for each of its steps once.
fn crew_meets<R: Threads + Sync>(rt: &R, alloc: Global) -> Result<bool, Trouble> {
    let meeting = Meeting::new(1);
    match refused(rt, alloc, &meeting, [WELL, WELL])? {
        None => meeting.is_met(2, 2),
        Some(StepFault::Memory) => Err(Trouble::Memory),
        Some(StepFault::JournalFull) => Ok(false),
    }
}

/// Whether the two workers of a play meet, and the watch is told of each of their steps once.
fn play_meets<R: Threads + Wait + Sync>(rt: &R, alloc: Global) -> Result<bool, Trouble> {
    let meeting = Meeting::new(1);
    let left = readers_play(rt, alloc, &meeting)?;
    Ok(meeting.is_met(2, 3)? && left.right)
}

/// Each tester's first step is held until the other tester was called, for at most 1,000,000 turns.
#[test]
fn two_workers_meet(rt: HostRuntime) -> Result<(), Trouble> {
    holds(crew_meets(&rt, rt.alloc()))?;
    holds(play_meets(&rt, rt.alloc()))
}

/// Whether a tester whose watch is held has not taken its step: the first is held until the second was called for its
/// third step, so that the second's two steps before it begin the journal.
fn is_told_first<R: Threads + Wait + Sync>(rt: &R, alloc: Global) -> Result<bool, Trouble> {
    let meeting = Meeting::new(3);
    let left = readers_play(rt, alloc, &meeting)?;
    Ok(meeting.is_met(2, 3)? && left.right && left.second_begins)
}

/// A watch is told of a step before it is taken.
#[test]
fn watch_is_told_before_the_step(rt: HostRuntime) -> Result<(), Trouble> {
    holds(is_told_first(&rt, rt.alloc()))
}

/// What the doors of a crew answer, each so many steps and then a refusal, and what refuses the crew: the refusal of the
/// first tester, in order, that was refused.
const REFUSALS: [([(u32, StepFault); 2], StepFault); 3] = [
    (
        [(1, StepFault::JournalFull), (0, StepFault::Memory)],
        StepFault::JournalFull,
    ),
    (
        [(1, StepFault::Memory), (0, StepFault::JournalFull)],
        StepFault::Memory,
    ),
    (
        [(2, StepFault::Memory), (1, StepFault::JournalFull)],
        StepFault::JournalFull,
    ),
];

/// Whether a crew with these doors is refused so.
fn is_refused<R: Threads + Sync>(
    rt: &R,
    alloc: Global,
    left: [Answers; 2],
    wanted: StepFault,
) -> Result<bool, Trouble> {
    let meeting = Meeting::new(1);
    match refused(rt, alloc, &meeting, left)? {
        Some(StepFault::Memory) if wanted != StepFault::Memory => Err(Trouble::Memory),
        Some(fault) => Ok(fault == wanted),
        None => Ok(false),
    }
}

#[test]
fn the_first_refusal_counts(rt: HostRuntime) -> Result<(), Trouble> {
    for (left, wanted) in &REFUSALS {
        let left = left.map(|(steps, then)| Answers { steps, then });
        holds(is_refused(&rt, rt.alloc(), left, *wanted))?;
    }
    Ok(())
}
