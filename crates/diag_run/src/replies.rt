//! The reply lines of a tester, as they are written frame by frame.

ghost use Rattle.std.specs.Prelude.{◌≡◌, ◌≤◌, ◌++◌, [], if◌then◌else◌, length, IfOk, OnOk};
ghost use Rattle.diag_bus.specs.Writing.{writer_of};
ghost use Rattle.diag_text.specs.Text.{lines_of};
ghost use Rattle.diag_run.specs.Playing.{AreTexts, AreUnwritten, Replies, WroteTo};

use diag_can::LineWriter;
use diag_setup::{Setup, TesterId};
use diag_tp::SentFrames;
use std::alloc::{AllocError, Global};

/// The reply lines of a tester, and what writes them.
#[derive(Drop)]
pub struct ReplyLines {
    /// The lines so far.
    pub text: Vec<u8>,
    /// Writes a line.
    pub writer: LineWriter,
}

impl ReplyLines {
    /// No line of this tester yet.
    pub fn new(alloc: Global, setup: &Setup, who: TesterId) -> Result<ReplyLines, AllocError>
        requires { who ≤ length setup.now.testers }
        ensures { IfOk result (λ lines. Replies (writer_of setup.now who) lines []) }
    {
        let writer = LineWriter::new(
            alloc,
            setup.name(who),
            setup.ids(who).response,
            setup.flags(who),
        )?;
        Ok(ReplyLines {
            text: Vec::new(alloc),
            writer,
        })
    }

    /// Adds the lines of these frames.
    pub fn add(&mut self, sent: &SentFrames) -> Result<(), AllocError>
        ensures text { OnOk result
            (self.new.text.items ≡ self.old.text.items ++ lines_of self.old.writer sent.now.items) }
        ensures writer { self.new.writer ≡ self.old.writer }
    {
        for index in 0..sent.len() {
            let frame = sent.get(index);
            self.writer
                .write(&mut self.text, frame.at, frame.id, frame.bytes)?;
        }
        Ok(())
    }
}

/// No line of any tester yet; where the journal alone is wanted, none at all.
pub fn first_lines(
    alloc: Global,
    setup: &Setup,
    only_journal: bool,
) -> Result<Vec<ReplyLines>, AllocError>
    ensures none { IfOk result (λ lines. AreUnwritten setup.now lines.items) }
    ensures many { IfOk result (λ lines.
        length lines.items ≡ (if only_journal then 0 else length setup.now.testers)) }
{
    if only_journal {
        return Ok(Vec::new(alloc));
    }
    unwritten(alloc, setup)
}

/// No line of any tester yet.
fn unwritten(alloc: Global, setup: &Setup) -> Result<Vec<ReplyLines>, AllocError>
    ensures none { IfOk result (λ lines. AreUnwritten setup.now lines.items) }
    ensures many { IfOk result (λ lines. length lines.items ≡ length setup.now.testers) }
{
    let mut lines = Vec::new(alloc);
    for index in 0..setup.testers() {
        let who = setup.who(index);
        let tester = ReplyLines::new(alloc, setup, who)?;
        lines.push(tester)?;
    }
    Ok(lines)
}

/// Adds the lines of these frames to those of the tester at this place, where they are wanted.
pub fn add_at(
    lines: &mut Vec<ReplyLines>,
    place: usize,
    sent: &SentFrames,
) -> Result<(), AllocError>
    ensures { OnOk result (WroteTo lines.old.items lines.new.items place sent.now.items) }
{
    if place >= lines.len() {
        return Ok(());
    }
    lines[place].add(sent)
}

/// What was written to each tester, in order.
pub fn texts_of(alloc: Global, lines: Vec<ReplyLines>) -> Result<Vec<Vec<u8>>, AllocError>
    ensures { IfOk result (λ texts. AreTexts lines.items texts.items) }
{
    let mut texts = Vec::new(alloc);
    for tester in lines {
        texts.push(tester.text)?;
    }
    Ok(texts)
}
