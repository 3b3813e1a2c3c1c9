//! The entries of a unit's journal, as they are written.

use diag_can::TickCount;
use diag_desk::{EntryRef, JournalVersion, StepRef, write_entry};
use diag_ecu::Ecu;
use diag_pdu::{Message, Request};
use diag_setup::TesterId;
use diag_world::Keeper;
use std::alloc::AllocError;

/// The text of the entries, as far as a journal is wanted.
#[derive(Drop)]
pub struct Entries<'a> {
    /// Whether a journal is wanted.
    pub wanted: bool,
    /// The text so far.
    pub text: &'a mut Vec<u8>,
}

impl<'a> Keeper for Entries<'a> {
    ghost use Rattle.std.specs.Prelude.{◌≡◌, refl};
    ghost use Rattle.uds_unit.specs.Entering.{Enters};

    type Fault = AllocError;

    ghost keeps = { Enters };

    ghost is_full = { λ _. ⊥ };

    ghost unkept = { λ old new. new.text.now.items ≡ old.text.now.items };

    ghost target = { λ entries. entries.text.ghost_name };

    fn keep_request(
        &mut self,
        _: &Ecu,
        before: u64,
        who: TesterId,
        request: &Request,
        reply: Option<&Message>,
    ) -> Result<(), AllocError> {
        if self.wanted {
            let entry = EntryRef {
                who,
                step: StepRef::of_request(request),
                reply: reply.map(Message::bytes),
            };
            write_entry(self.text, JournalVersion::Stamped, before, &entry)?;
        }
        Ok(())
    }

    fn keep_ticks(
        &mut self,
        _: &Ecu,
        before: u64,
        who: TesterId,
        count: TickCount,
    ) -> Result<(), AllocError> {
        if self.wanted {
            let entry = EntryRef {
                who,
                step: StepRef::of_ticks(count),
                reply: None,
            };
            write_entry(self.text, JournalVersion::Stamped, before, &entry)?;
        }
        Ok(())
    }

    ghost unkept_same = { λ _. refl };
}
