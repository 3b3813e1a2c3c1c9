//! Replaying a journal.
ghost use Rattle.std.specs.Prelude.{◌≡◌, ◌↔◌, ℕ, IfOk, IfErr, IsTrue, Some, option_copied};
ghost use Rattle.std.specs.Bool.{OnTrue};
ghost use Rattle.diag_ecu.specs.State.{opening};
ghost use Rattle.diag_desk.specs.Entry.{IsEntry, entry_seen, step_seen};
ghost use Rattle.diag_desk.specs.FaultText.{replay_fault_text};
ghost use Rattle.diag_desk.specs.Legal.{after, after_step, reply_to};
ghost use Rattle.diag_desk.specs.Replay.{DiffersAt, IsLegalFor};

use crate::entry::{EntryRef, StepRef};
use crate::journal::Journal;
use diag_ecu::Ecu;
use diag_pdu::Message;
use diag_setup::Setup;
use std::alloc::{AllocError, Global};
use std::error::Error;
use std::fmt;

/// Why a journal is not replayed to its end.
#[derive(Clone, Copy, PartialEq, Eq, Debug, Drop)]
pub enum ReplayFault {
    /// The first entry, counted from 1, whose tester isn't in the setup or whose reply isn't the ECU's.
    Differs(usize),
    /// Memory was refused.
    Memory,
}

impl fmt::Display for ReplayFault {
    ghost output = { λ x. Some (replay_fault_text x) };

    fn fmt<W: fmt::Write>(&self, f: &mut fmt::Formatter<W>) -> fmt::Result {
        match self {
            ReplayFault::Differs(n) => write!(f, "entry {n} differs"),
            ReplayFault::Memory => write!(f, "no memory"),
        }
    }
}

impl Error for ReplayFault {}

/// The ECU of a setup after all entries, where each tester is in the setup and each reply is the ECU's.
///
/// Otherwise the first entry that differs. Memory can be refused at any entry: where an entry before it differs, that
/// has already decided. So the journal of a desk of this setup, whose testers are the setup's, is replayed to its end
/// where memory is not refused.
pub fn replay(alloc: Global, setup: &Setup, journal: &Journal) -> Result<Ecu, ReplayFault>
    ensures run { IfOk result (λ _. IsLegalFor setup.now journal.now.entries) }
    ensures ecu { IfOk result (λ ecu. ecu ≡ after (opening setup.now) journal.now.entries) }
    ensures differs { IfErr result (λ fault.
        (n : ℕ) → fault ≡ ReplayFault.Differs n → DiffersAt setup.now journal.now.entries n) }
    ensures again { IsLegalFor setup.now journal.now.entries
        → IfErr result (λ fault. fault ≡ ReplayFault.Memory) }
{
    replay_all(alloc, setup, journal)
}

/// Replays entry by entry.
fn replay_all(alloc: Global, setup: &Setup, journal: &Journal) -> Result<Ecu, ReplayFault>
    ensures run { IfOk result (λ _. IsLegalFor setup.now journal.now.entries) }
    ensures ecu { IfOk result (λ ecu. ecu ≡ after (opening setup.now) journal.now.entries) }
    ensures differs { IfErr result (λ fault.
        (n : ℕ) → fault ≡ ReplayFault.Differs n → DiffersAt setup.now journal.now.entries n) }
{
    let Ok(mut ecu) = Ecu::new(alloc, setup) else {
        return Err(ReplayFault::Memory);
    };
    for index in 0..journal.len() {
        let Some(entry) = journal.get(index) else {
            unreachable!();
        };
        if setup.testers() < usize::from(entry.who.number()) {
            return Err(ReplayFault::Differs(index + 1));
        }
        match play(&mut ecu, &entry) {
            Ok(true) => {}
            Ok(false) => return Err(ReplayFault::Differs(index + 1)),
            Err(_) => return Err(ReplayFault::Memory),
        }
    }
    Ok(ecu)
}

/// Takes the step of an entry where the ECU's reply is the entry's; whether it is.
fn play(ecu: &mut Ecu, entry: &EntryRef<'_>) -> Result<bool, AllocError>
    requires { IsEntry (entry_seen entry.now) }
    ensures reply { IfOk result (λ same. IsTrue same
        ↔ (option_copied entry.now.reply
        ≡ reply_to ecu.old entry.now.who (step_seen entry.now.step))) }
    ensures state { IfOk result (λ same.
        OnTrue same (ecu.new ≡ after_step ecu.old entry.now.who (step_seen entry.now.step))) }
{
    match entry.step {
        StepRef::Request { functional, bytes } => {
            let mut reply = None;
            let decided = ecu.put_reply(entry.who, functional, bytes, &mut reply)?;
            let same = is_same(entry.reply, reply.as_ref());
            if same {
                ecu.apply(entry.who, bytes, decided);
            }
            Ok(same)
        }
        StepRef::Ticks(count) => {
            if entry.reply.is_some() {
                return Ok(false);
            }
            ecu.ticks(entry.who, count);
            Ok(true)
        }
    }
}

/// Whether a kept reply is the ECU's.
fn is_same(kept: Option<&[u8]>, reply: Option<&Message>) -> bool
    ensures { IsTrue result ↔ (option_copied kept.entry ≡ option_copied reply.entry) }
{
    match (kept, reply) {
        (Some(kept), Some(reply)) => kept == reply.bytes(),
        (None, None) => true,
        _ => false,
    }
}
