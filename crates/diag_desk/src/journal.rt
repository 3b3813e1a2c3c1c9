//! The journal: the steps of all testers in their order, with the replies.
ghost use Rattle.std.specs.Prelude.{◌≡◌, ◌≢◌, ◌↔◌, ◌≤◌, ◌+◌, ◌++◌, ◌∷◌, [], length, unwrap_or, IsTrue, OnOk, OnErr, IfSome, Err, Some, option_map, option_copied, slice_get};
ghost use Rattle.diag_desk.specs.Entries.{entry};
ghost use Rattle.diag_desk.specs.Entry.{entry_seen, step_seen, HasNoReply, HasRoom, HasRoomFor, IsEntry, IsJournal, IsStep, step_len, most_entries};
ghost use Rattle.diag_desk.specs.FaultText.{push_fault_text};
ghost use Rattle.diag_desk.specs.Line.{HasHex, line_entry};

use crate::desk::StepFault;
use crate::entry::{EntryRef, MOST_ENTRIES, StepRef};
use crate::flat::{Head, bytes_of, entry_at, head_of, head_of_line, len_of, step_len};
use crate::line::Line;
use crate::version::JournalVersion;
use diag_pdu::{Message, Step};
use diag_setup::TesterId;
use std::alloc::{AllocError, Global};
use std::error::Error;
use std::fmt;
use std::marker::Model;

/// The bytes of a text's first line with its LF, as `diag-journal 1`.
const HEADER: usize = 15;

/// The most bytes of an entry's line with its LF, without a stamp and the hex of its messages: those of `8 T 60000`.
const LINE: usize = 10;

/// The most bytes of a stamp and its space: 1,000,000 entries have at most 60,000,000,000 ticks.
const STAMP: usize = 12;

/// Why an entry was not added.
#[derive(Clone, Copy, PartialEq, Eq, Debug, Drop)]
pub enum JournalPush {
    /// There are 1,000,000 entries.
    Full,
    /// Memory was refused.
    Memory,
}

impl fmt::Display for JournalPush {
    ghost output = { λ x. Some (push_fault_text x) };

    fn fmt<W: fmt::Write>(&self, f: &mut fmt::Formatter<W>) -> fmt::Result {
        match self {
            JournalPush::Full => write!(f, "the journal is full"),
            JournalPush::Memory => write!(f, "no memory"),
        }
    }
}

impl Error for JournalPush {}

/// The steps of all testers in their order, with the replies: at most 1,000,000 entries.
///
/// The bytes of the messages stand in one list, so an entry takes no more than them and its head of 16 bytes, beside
/// the room that the two lists have ahead.
#[derive(Drop)]
pub struct Journal {
    heads: Vec<Head>,
    bytes: Vec<u8>,
}

impl Model for Journal {
    ghost use Rattle.diag_desk.specs.Entry.{Kept};

    ghost Value = { Kept };

    ghost use Rattle.diag_desk.specs.Flat.{kept_in, FlatFits};

    ghost view = { kept_in };

    ghost invariant = { FlatFits };
}

impl Journal {
    /// A journal without entries. It takes no memory.
    pub fn new(alloc: Global) -> Journal
        ensures { result.entries ≡ [] }
    {
        Journal {
            heads: Vec::new(alloc),
            bytes: Vec::new(alloc),
        }
    }

    /// The number of entries.
    pub fn len(&self) -> usize
        ensures same { result ≡ length self.now.entries }
        ensures bound { result ≤ most_entries }
        ensures journal { IsJournal self.now.entries }
    {
        self.heads.len()
    }

    /// Whether there are 1,000,000 entries, so that no more are taken.
    pub fn is_full(&self) -> bool
        ensures { IsTrue result ↔ (length self.now.entries ≡ most_entries) }
    {
        self.len() == MOST_ENTRIES
    }

    /// The entry at an index from 0, in constant time.
    pub fn get(&self, index: usize) -> Option<EntryRef<'_>>
        ensures same { option_map entry_seen result ≡ slice_get self.now.entries index }
        ensures entry { IfSome result (λ e. IsEntry (entry_seen e)) }
    {
        if index >= self.heads.len() {
            return None;
        }
        Some(entry_at(self.heads[index], &self.bytes))
    }

    /// Adds an entry at the end. After an error the entries are as before; that it is full is looked at first.
    pub fn push(
        &mut self,
        who: TesterId,
        step: &Step,
        reply: Option<&Message>,
    ) -> Result<(), JournalPush>
        requires { HasNoReply step.now (option_copied reply) }
        ensures ok { OnOk result (self.new.entries
            ≡ self.old.entries ++ entry who step.now (option_copied reply.entry) ∷ []) }
        ensures journal { IsJournal self.new.entries }
        ensures err { OnErr result (self.new.entries ≡ self.old.entries) }
        ensures full { (result ≡ Err JournalPush.Full) ↔ (length self.old.entries ≡ most_entries) }
        ensures room { HasRoom self.old step.now → result ≢ Err JournalPush.Memory }
    {
        if self.is_full() {
            return Err(JournalPush::Full);
        }
        let room = step_len(step) + len_of(reply);
        if self.heads.reserve(1).is_err() || self.bytes.reserve(room).is_err() {
            return Err(JournalPush::Memory);
        }
        self.add(who, &StepRef::of(step), bytes_of(reply));
        Ok(())
    }

    /// Adds an entry at the end, for which there is room.
    #[inline(always)]
    pub(crate) fn add(&mut self, who: TesterId, step: &StepRef<'_>, reply: Option<&[u8]>)
        requires step { IsStep (step_seen step.now) (option_copied reply) }
        requires open { length self.old.entries ≢ most_entries }
        requires head { 1 ≤ self.old.entry_room }
        requires room { step_len (step_seen step.now) + length (unwrap_or (option_copied reply) [])
            ≤ self.old.byte_room }
        ensures ok { self.new.entries ≡ self.old.entries
            ++ entry who (step_seen step.now) (option_copied reply.entry) ∷ [] }
        ensures journal { IsJournal self.new.entries }
    {
        let head = head_of(&mut self.bytes, who, step, reply);
        self.heads.push_reserved(head);
    }

    /// Adds the entry of a line at the end; its messages are read into the journal's own bytes.
    pub(crate) fn push_line(&mut self, line: &Line<'_>) -> Result<(), JournalPush>
        requires hex { HasHex line.now.step }
        requires entry { IsEntry (line_entry line.now) }
        ensures ok { OnOk result (self.new.entries ≡ self.old.entries ++ line_entry line.now ∷ []) }
        ensures err { OnErr result (self.new.entries ≡ self.old.entries) }
        ensures full { (result ≡ Err JournalPush.Full) ↔ (length self.old.entries ≡ most_entries) }
    {
        if self.is_full() {
            return Err(JournalPush::Full);
        }
        if self.heads.reserve(1).is_err() {
            return Err(JournalPush::Memory);
        }
        let Ok(head) = head_of_line(&mut self.bytes, line) else {
            return Err(JournalPush::Memory);
        };
        self.heads.push_reserved(head);
        Ok(())
    }

    /// Makes room for an entry of this step with any reply, so that the next `push`, of that step, takes no memory.
    /// Refused, the entries are as before.
    pub fn make_room(&mut self, step: &Step) -> Result<(), AllocError>
        ensures same { self.new.entries ≡ self.old.entries }
        ensures ok { OnOk result (HasRoom self.new step.now) }
    {
        self.reserve(step_len(step))
    }

    /// Makes room for an entry whose request has so many bytes, with any reply, where one more is taken. Refused, the
    /// entries are as before; that the journal is full is looked at first.
    #[inline(always)]
    pub(crate) fn open(&mut self, len: usize) -> Result<(), StepFault>
        requires fits { len ≤ 65535 }
        ensures same { self.new.entries ≡ self.old.entries }
        ensures room { OnOk result (HasRoomFor self.new len) }
        ensures full { (result ≡ Err StepFault.JournalFull) ↔ (length self.old.entries ≡ most_entries) }
        ensures limit { length self.new.entries ≤ most_entries }
    {
        // (for its contract: a journal has at most 1,000,000 entries)
        let _ = &self.heads;
        if self.is_full() {
            return Err(StepFault::JournalFull);
        }
        self.reserve(len)?;
        Ok(())
    }

    /// Makes room for an entry whose request has so many bytes, with any reply.
    #[inline(always)]
    fn reserve(&mut self, len: usize) -> Result<(), AllocError>
        requires fits { len ≤ 65535 }
        ensures same { self.new.entries ≡ self.old.entries }
        ensures ok { OnOk result (HasRoomFor self.new len) }
    {
        self.heads.reserve(1)?;
        self.bytes.reserve(len + Message::MAX)
    }

    /// No fewer bytes than the journal's text of this version has.
    pub(crate) fn text_room(&self, version: JournalVersion) -> usize {
        let line = match version {
            JournalVersion::Plain => LINE,
            JournalVersion::Stamped => STAMP + LINE,
        };
        self.bytes
            .len()
            .saturating_mul(2)
            .saturating_add(self.heads.len().saturating_mul(line))
            .saturating_add(HEADER)
    }
}
