//! All logs on one thread, one event of each in turn, at whoever takes events.

ghost use Rattle.std.specs.Prelude.{◌≡◌, ◌≤◌, ◌<◌, ◌∷◌, [], ◌++◌, List, ℕ, Err, OnOk, length, map, drop};
ghost use Rattle.diag_can.specs.Event.{Event as AnEvent};
ghost use Rattle.diag_desk.specs.Entry.{most_entries};
ghost use Rattle.diag_setup.specs.Setup.{link_of};
ghost use Rattle.diag_world.specs.Weaving.{first_of_each, longest, steps_of, turns};

use diag_can::{LentEvent, Log};
use diag_desk::StepFault;
use diag_setup::{Setup, TesterId};

/// What takes the testers' events as they come.
pub trait TakeEvents {
    ghost use Rattle.std.specs.Prelude.{ℕ, List};
    ghost use Rattle.diag_can.specs.Event.{Event};
    ghost use Rattle.diag_setup.specs.declared.raw.RawSetup.{RawSetup};

    /// What it takes the events for.
    ghost Terms: { Type 0 };

    /// The setup of the testers.
    ghost setup_of: { Terms → RawSetup };

    /// It has taken these events, each beside its tester.
    ghost took: { Self → Terms → List (ℕ × Event) → Type 0 };

    /// Takes an event of a tester.
    ///
    /// # Errors
    /// `JournalFull` where the events give more steps than a journal has entries, `Memory` where memory is refused. It can
    /// take no more then.
    fn take_event(&mut self, who: TesterId, event: &LentEvent<'_>) -> Result<(), StepFault>
        requires in_setup { (terms : Terms)
            × (M : List (ℕ × AnEvent))
            × took self.old terms M
            × (1 ≤ who)
            × (who ≤ length (setup_of terms).testers) }
        ensures took { OnOk result ((terms : Terms) (M : List (ℕ × AnEvent))
            → took self.old terms M
            → took self.new terms (M ++ (who, event.now) ∷ [])) }
        ensures full { result ≡ Err StepFault.JournalFull
            → (terms : Terms) (M : List (ℕ × AnEvent))
            → took self.old terms M
            → most_entries < length (steps_of (link_of (setup_of terms)) (M ++ (who, event.now) ∷ [])) };
}

/// Has the testers' logs taken: one event of each in turn, in the testers' order, a log that has ended being skipped.
///
/// # Errors
/// `JournalFull` where the logs give more steps than a journal has entries, `Memory` where memory is refused.
pub fn take_turns<T: TakeEvents>(
    taker: &mut T,
    setup: &Setup,
    logs: &[Log],
) -> Result<(), StepFault>
    requires logs { length logs.now ≡ length setup.now.testers }
    requires begins { (terms : T.Terms)
        × (T.setup_of terms ≡ setup.now)
        × T.took taker.old terms [] }
    ensures took { OnOk result ((terms : T.Terms)
        → T.took taker.old terms []
        → T.took taker.new terms (turns (map (λ log. log.items) logs.now))) }
    ensures full { result ≡ Err StepFault.JournalFull
        → most_entries
        < length (steps_of (link_of setup.now) (turns (map (λ log. log.items) logs.now))) }
{
    for round in 0..longest(logs) {
        take_round(taker, setup, logs, round)?;
    }
    Ok(())
}

/// The length of the longest log: the number of rounds in which each log that hasn't ended gives one event.
fn longest(logs: &[Log]) -> usize
    ensures { result ≡ longest (map (λ log. log.items) logs.now) }
{
    let mut most = 0;
    for log in logs {
        if log.len() > most {
            most = log.len();
        }
    }
    most
}

/// Has one event of each log that has so many taken.
fn take_round<T: TakeEvents>(
    taker: &mut T,
    setup: &Setup,
    logs: &[Log],
    round: usize,
) -> Result<(), StepFault>
    requires logs { length logs.now ≡ length setup.now.testers }
    requires begun { (terms : T.Terms)
        × (M : List (ℕ × AnEvent))
        × (T.setup_of terms ≡ setup.now)
        × T.took taker.old terms M }
    ensures took { OnOk result ((terms : T.Terms) (M : List (ℕ × AnEvent))
        → T.took taker.old terms M
        → T.took taker.new terms
        (M ++ first_of_each 1 (map (drop round) (map (λ log. log.items) logs.now)))) }
    ensures full { result ≡ Err StepFault.JournalFull
        → (terms : T.Terms) (M : List (ℕ × AnEvent))
        → T.took taker.old terms M
        → most_entries < length (steps_of (link_of (T.setup_of terms))
        (M ++ first_of_each 1 (map (drop round) (map (λ log. log.items) logs.now)))) }
{
    for (index, log) in logs.iter().enumerate() {
        if round < log.len() {
            let who = setup.who(index);
            taker.take_event(who, &log.get(round))?;
        }
    }
    Ok(())
}
