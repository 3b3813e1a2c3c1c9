//! A record beside the journal.
ghost use Rattle.std.specs.Prelude.{◌≡◌, ◌↔◌, IsTrue, option_copied};
ghost use Rattle.diag_desk.specs.Entry.{entry_seen, step_seen};
ghost use Rattle.diag_desk.specs.Entries.{own};

use diag_desk::{EntryRef, Journal, StepRef};
use diag_setup::TesterId;

/// Whether a record is the journal's entries of one tester.
pub fn agree(journal: &Journal, who: TesterId, kept: &Journal) -> bool
    ensures { IsTrue result ↔ (kept.now.entries ≡ own journal.now.entries who) }
{
    let count = kept.len();
    let mut next = 0;
    for i in 0..journal.len() {
        let Some(entry) = journal.get(i) else {
            unreachable!()
        };
        if entry.who == who {
            let Some(known) = kept.get(next) else {
                return false;
            };
            if !is_same_entry(&entry, &known) {
                return false;
            }
            next += 1;
        }
    }
    next == count
}

/// Whether two references show one entry.
fn is_same_entry(a: &EntryRef<'_>, b: &EntryRef<'_>) -> bool
    ensures { IsTrue result ↔ (entry_seen a.now ≡ entry_seen b.now) }
{
    a.who == b.who && is_same_reply(a.reply, b.reply) && is_same_step(&a.step, &b.step)
}

/// Whether two references show one reply, or none.
fn is_same_reply(a: Option<&[u8]>, b: Option<&[u8]>) -> bool
    ensures { IsTrue result ↔ (option_copied a.entry ≡ option_copied b.entry) }
{
    match (a, b) {
        (Some(a), Some(b)) => a == b,
        (None, None) => true,
        _ => false,
    }
}

/// Whether two references show one step.
fn is_same_step(a: &StepRef<'_>, b: &StepRef<'_>) -> bool
    ensures { IsTrue result ↔ (step_seen a.now ≡ step_seen b.now) }
{
    match (a, b) {
        (
            StepRef::Request { functional, bytes },
            StepRef::Request {
                functional: other_functional,
                bytes: other,
            },
        ) => functional == other_functional && bytes == other,
        (StepRef::Ticks(count), StepRef::Ticks(other)) => count == other,
        _ => false,
    }
}
