//! A play that writes as it goes: the streaming server, the journal's text and each tester's reply lines.

ghost use Rattle.std.specs.Prelude.{◌≡◌, ◌≤◌, ◌-◌, [], Err, IfOk, OnOk, length};
ghost use Rattle.diag_run.specs.Playing.{IsFull, IsPaced, IsReady, Plays, Took, WroteTo, parts_text};
ghost use Rattle.diag_run.specs.Run.{joined};

use crate::journal_lines::JournalLines;
use crate::replies::{ReplyLines, add_at, first_lines, texts_of};
use diag_can::{LentEvent, Timing};
use diag_desk::StepFault;
use diag_setup::{Setup, TesterId};
use diag_text::end_text;
use diag_tp::SentFrames;
use diag_world::{Server, TakeEvents};
use std::alloc::{AllocError, Global};

/// A play between two events: nothing is kept of what was played but its text.
#[derive(Drop)]
pub struct Playing {
    /// The ECU and each tester's link.
    pub server: Server,
    /// The frames that an event draws, until their lines are written.
    pub out: SentFrames,
    /// The journal's text.
    pub journal: JournalLines,
    /// The reply lines of each tester, or of none where the journal alone is wanted.
    pub lines: Vec<ReplyLines>,
}

impl Playing {
    /// A play in which nothing has happened.
    pub fn new(
        alloc: Global,
        setup: &Setup,
        only_journal: bool,
        timing: Timing,
    ) -> Result<Playing, AllocError>
        ensures plays { IfOk result (λ playing. Plays
            (record { setup = setup.now; only_journal = only_journal; timing = timing })
            playing []) }
        ensures ready { IfOk result (λ playing. IsReady playing) }
    {
        let server = Server::new(alloc, setup)?;
        let journal = JournalLines::new(alloc, timing)?;
        let lines = first_lines(alloc, setup, only_journal)?;
        Ok(Playing {
            server,
            out: SentFrames::new(alloc),
            journal,
            lines,
        })
    }

    /// Has the server take an event of a tester, and writes the entry that it gives.
    fn take(&mut self, who: TesterId, event: &LentEvent<'_>) -> Result<(), StepFault>
        requires in_setup { (1 ≤ who) × (who ≤ length self.old.server.ports) }
        requires ready { IsReady self.old }
        ensures took { OnOk result (Took self.old self.new who event.now) }
        ensures paced { OnOk result (IsPaced self.new) }
        ensures links { OnOk result
            (length self.new.server.ports ≡ length self.old.server.ports) }
        ensures lines { self.new.lines ≡ self.old.lines }
        ensures full { result ≡ Err StepFault.JournalFull → IsFull self.old who event.now }
    {
        self.server
            .take(who, event, &mut self.journal, &mut self.out)
    }

    /// Writes the lines of the frames that a tester's event drew, where its lines are wanted, and lets the frames go.
    fn write_replies(&mut self, who: TesterId) -> Result<(), AllocError>
        ensures lines { OnOk result (WroteTo self.old.lines.items self.new.lines.items (who - 1)
            self.old.out.items) }
        ensures out { OnOk result (self.new.out.items ≡ []) }
        ensures server { self.new.server ≡ self.old.server }
        ensures journal { self.new.journal ≡ self.old.journal }
    {
        if self.out.is_empty() {
            return Ok(());
        }
        let index = who.index();
        add_at(&mut self.lines, index, &self.out)?;
        self.out.clear();
        Ok(())
    }

    /// What was written: the lines of each tester, the journal, and the end; where the journal alone is wanted, that.
    pub fn into_parts(
        self,
        alloc: Global,
        setup: &Setup,
        only_journal: bool,
    ) -> Result<Vec<Vec<u8>>, AllocError>
        ensures { IfOk result (λ parts. joined parts ≡ parts_text setup.now only_journal self) }
    {
        let Playing {
            server,
            out: _,
            journal,
            lines,
        } = self;
        let mut parts = texts_of(alloc, lines)?;
        parts.push(journal.text)?;
        if only_journal {
            return Ok(parts);
        }
        let end = end_text(alloc, setup, server.ecu())?;
        parts.push(end)?;
        Ok(parts)
    }
}

/// What comes of an event is written at once. Refused, the play can't go on.
impl TakeEvents for Playing {
    ghost use Rattle.diag_run.specs.Playing.{IsReady, Plays, Terms};

    ghost Terms = { Terms };

    ghost setup_of = { λ terms. terms.setup };

    ghost took = { λ playing terms M. IsReady playing × Plays terms playing M };

    fn take_event(&mut self, who: TesterId, event: &LentEvent<'_>) -> Result<(), StepFault> {
        self.take(who, event)?;
        self.write_replies(who)?;
        Ok(())
    }
}
