//! All testers' logs at the same time, over one gate.
ghost use Rattle.std.specs.Prelude.{◌≡◌, ◌≢◌, ℕ, List, length, map, IfOk, Ok, Err, Some};
ghost use Rattle.diag_can.specs.Event.{Event as AnEvent};
ghost use Rattle.diag_can.specs.declared.fault.LogFault.{LogFault as ALogFault};
ghost use Rattle.diag_setup.specs.Setup.{link_of};
ghost use Rattle.diag_world.specs.Headline.{IsPlay};
ghost use Rattle.diag_world.specs.Weaving.{weave};
ghost use Rattle.diag_workers.specs.Fault.{play_fault, play_fault_text};
ghost use Rattle.diag_workers.specs.Play.{LogsAsk, logs_of};

use crate::crewing::crew_keeping;
use crate::keeping::Unkept;
use crate::reading::read_beside;
use crate::seating::{doors_of, give_out, take_apart, take_in};
use crate::watch::Watch;
use diag_can::{Log, LogFault, Timing};
use diag_desk::{Desk, StepFault};
use diag_gate::Gate;
use diag_setup::{Setup, TesterId};
use diag_world::{Played, weaving_law};
use std::alloc::Global;
use std::error::Error;
use std::fmt;
use std::sync::Wait;
use std::thread::Threads;

/// Why a play was not made.
#[derive(Clone, Copy, Debug, PartialEq, Eq)]
pub enum PlayFault {
    /// Memory was refused.
    Memory,
    /// The log of this tester is at fault, and all logs before it are well.
    Log(TesterId, LogFault),
    /// The journal is full, as it is with 1,000,000 entries.
    JournalFull,
    /// Never answered: that the workers' records are the journal's entries is proved.
    RecordsDisagree(TesterId),
}

impl fmt::Display for PlayFault {
    ghost output = { λ x. Some (play_fault_text x) };

    fn fmt<W: fmt::Write>(&self, f: &mut fmt::Formatter<W>) -> fmt::Result {
        match self {
            PlayFault::Memory => write!(f, "memory"),
            PlayFault::Log(..) => write!(f, "a log is at fault"),
            PlayFault::JournalFull => write!(f, "the journal is full"),
            PlayFault::RecordsDisagree(_) => write!(f, "the records disagree"),
        }
    }
}

impl Error for PlayFault {}

impl From<StepFault> for PlayFault {
    ghost from_gives = { λ fault e. e ≡ play_fault fault };

    fn from(fault: StepFault) -> PlayFault {
        match fault {
            StepFault::Memory => PlayFault::Memory,
            StepFault::JournalFull => PlayFault::JournalFull,
        }
    }
}

/// Plays all logs at the same time, over one desk behind a gate: the last on the calling thread, each other in a thread
/// of its own. Where a thread can't be started, its log is played on the calling thread.
///
/// The journal is a legal run of the sequential server from the setup's opening, and the run of a named interleaving of
/// the logs; each tester's frames are what its flow control draws from the replies to it, each placed when the setup's
/// rows of answers let it go. The watch is told of each step before it is taken. The logs are read first, at the same
/// time too.
///
/// # Errors
/// `Log` for the first log that is at fault, in order; `JournalFull` at the step that the journal has no room for;
/// `Memory` where memory is refused: reading asks for it at an event, before which no line is at fault, in its log or in one
/// before it.
pub fn play<W: Watch + Sync, R: Threads + Wait + Sync>(
    rt: &R,
    alloc: Global,
    setup: &Setup,
    texts: &[Vec<u8>],
    watch: &W,
    timing: Timing,
) -> Result<Played, PlayFault>
    requires { length texts.now ≡ length setup.now.testers }
    ensures played { IfOk result (λ played. (logs : List (List AnEvent))
        × (logs_of setup.now timing (map (λ text. text.items) texts.now) ≡ Ok logs)
        × IsPlay setup.now (weave (link_of setup.now) played.desk.journal logs) logs played.desk
        (map (λ s. s.items) played.sent.items)) }
    ensures log { (who : ℕ) (fault : ALogFault)
        → result ≡ Err (PlayFault.Log who fault)
        → logs_of setup.now timing (map (λ text. text.items) texts.now) ≡ Err (who, fault) }
    ensures full { result ≡ Err PlayFault.JournalFull
        → (logs : List (List AnEvent))
        × (logs_of setup.now timing (map (λ text. text.items) texts.now) ≡ Ok logs) }
    ensures memory { result ≡ Err PlayFault.Memory
        → LogsAsk setup.now timing (map (λ text. text.items) texts.now) }
    ensures agree { (who : ℕ) → result ≢ Err (PlayFault.RecordsDisagree who) }
{
    let _at_most_8 = setup.testers();
    let logs = read_beside(rt, alloc, setup, 1, texts, timing)?;
    Ok(play_logs(rt, alloc, setup, logs.as_slice(), watch)?)
}

/// Lets a crew play the logs, each tester through a seat of its own, and takes all seats back.
fn play_logs<W: Watch + Sync, R: Threads + Wait + Sync>(
    rt: &R,
    alloc: Global,
    setup: &Setup,
    logs: &[Log],
    watch: &W,
) -> Result<Played, StepFault>
    requires { length logs.now ≡ length setup.now.testers }
    ensures { IfOk result (λ played. IsPlay setup.now
        (weave (link_of setup.now) played.desk.journal (map (λ log. log.items) logs.now))
        (map (λ log. log.items) logs.now) played.desk (map (λ s. s.items) played.sent.items)) }
{
    weaving_law();
    let desk = Desk::new(alloc, setup)?;
    let (gate, mut host) = Gate::new(alloc, desk)?;
    let seats = give_out(alloc, &gate, &mut host, setup.testers() as u8)?;
    let doors = doors_of(rt, alloc, &gate, watch, seats)?;
    let done = crew_keeping::<Unkept, _, _>(rt, alloc, setup, logs, doors)?;
    let (seats, sent) = take_apart(alloc, done)?;
    take_in(&gate, &mut host, seats);
    let desk = gate.close(host);
    // (for its contract: a desk's journal is legal)
    let _journal = desk.journal();
    Ok(Played { desk, sent })
}
