//! The text of a play's journal, as it is written entry by entry.

ghost use Rattle.std.specs.Prelude.{◌≡◌, ◌≤◌, [], Err, IfOk, OnErr, OnOk};
ghost use Rattle.diag_desk.specs.Entry.{entry_seen, most_entries};
ghost use Rattle.diag_world.specs.Server.{closing_time};
ghost use Rattle.diag_run.specs.Playing.{Enters, EntersOne, IsUnkept, version_of};

use diag_can::{TickCount, Timing};
use diag_desk::{
    EntryRef, JournalVersion, MOST_ENTRIES, StepFault, StepRef, write_entry, write_header,
};
use diag_ecu::Ecu;
use diag_pdu::{Message, Request};
use diag_setup::TesterId;
use diag_world::Keeper;
use std::alloc::{AllocError, Global};

/// The journal's text, and how many entries it has.
#[derive(Drop)]
pub struct JournalLines {
    /// The text.
    pub text: Vec<u8>,
    /// Its version.
    pub version: JournalVersion,
    /// How many entries it has.
    pub count: usize,
}

impl JournalLines {
    /// The text of a journal without entries: of version 2 where stamps carry time.
    pub fn new(alloc: Global, timing: Timing) -> Result<JournalLines, AllocError>
        ensures enters { IfOk result (λ lines. Enters lines (version_of timing) []) }
        ensures none { IfOk result (λ lines. lines.count ≡ 0) }
    {
        let version = match timing {
            Timing::Lines => JournalVersion::Plain,
            Timing::Stamps => JournalVersion::Stamped,
        };
        let mut text = Vec::new(alloc);
        write_header(&mut text, version)?;
        Ok(JournalLines {
            text,
            version,
            count: 0,
        })
    }

    /// Appends the line of an entry; `before` is the ticks of its tester before it.
    fn enter(&mut self, before: u64, entry: &EntryRef<'_>) -> Result<(), StepFault>
        requires early { before ≤ closing_time }
        ensures kept { OnOk result (EntersOne self.old before (entry_seen entry.now) self.new) }
        ensures full { result ≡ Err StepFault.JournalFull → most_entries ≤ self.old.count }
        ensures err { OnErr result (IsUnkept self.old self.new) }
    {
        if self.count >= MOST_ENTRIES {
            return Err(StepFault::JournalFull);
        }
        write_entry(&mut self.text, self.version, before, entry)?;
        self.count += 1;
        Ok(())
    }
}

impl Keeper for JournalLines {
    ghost use Rattle.std.specs.Prelude.{◌≡◌, ◌≤◌, refl};
    ghost use Rattle.diag_desk.specs.Entry.{most_entries};
    ghost use Rattle.diag_run.specs.Playing.{EntersOne, IsUnkept};

    type Fault = StepFault;

    ghost keeps = { λ old _ before k new. EntersOne old before k new };

    ghost is_full = { λ lines. most_entries ≤ lines.count };

    ghost unkept = { IsUnkept };

    ghost target = { λ _. 0 };

    fn keep_request(
        &mut self,
        _: &Ecu,
        before: u64,
        who: TesterId,
        request: &Request,
        reply: Option<&Message>,
    ) -> Result<(), StepFault> {
        let entry = EntryRef {
            who,
            step: StepRef::of_request(request),
            reply: reply.map(Message::bytes),
        };
        self.enter(before, &entry)
    }

    fn keep_ticks(
        &mut self,
        _: &Ecu,
        before: u64,
        who: TesterId,
        count: TickCount,
    ) -> Result<(), StepFault> {
        let entry = EntryRef {
            who,
            step: StepRef::of_ticks(count),
            reply: None,
        };
        self.enter(before, &entry)
    }

    ghost unkept_same = { λ _. (refl, refl, refl) };
}
