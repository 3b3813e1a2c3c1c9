//! Reading a journal's text.
ghost use Rattle.std.specs.Prelude.{◌≡◌, ◌≢◌, [], ℕ, IfOk, IfErr, IfSome, IfNone, OnOk, List, MatchResult, Some};
ghost use Rattle.diag_desk.specs.declared.entry.Entry.{Entry};
ghost use Rattle.diag_desk.specs.declared.version.JournalVersion.{JournalVersion};
ghost use Rattle.diag_desk.specs.Fault.{FaultAt, HasEntries, IsTextOf};
ghost use Rattle.diag_desk.specs.FaultText.{journal_fault_text};
ghost use Rattle.diag_desk.specs.Entry.{IsJournal};
ghost use Rattle.diag_desk.specs.PartRead.{HasNext, HasNoNext, Took};
ghost use Rattle.diag_desk.specs.Text.{header};

use crate::clocks::Clocks;
use crate::journal::{Journal, JournalPush};
use crate::line::cut;
use crate::next::{LineFault, clock_with, next_line};
use crate::version::JournalVersion;
use std::alloc::Global;
use std::error::Error;
use std::fmt;
use std::marker::Model;

/// Why a text gives no journal.
#[derive(Clone, Copy, PartialEq, Eq, Debug, Drop)]
pub enum JournalFault {
    /// The first line at fault, counted from 1.
    Line(usize),
    /// Memory was refused.
    Memory,
}

impl fmt::Display for JournalFault {
    ghost output = { λ x. Some (journal_fault_text x) };

    fn fmt<W: fmt::Write>(&self, f: &mut fmt::Formatter<W>) -> fmt::Result {
        match self {
            JournalFault::Line(n) => write!(f, "journal line {n}"),
            JournalFault::Memory => write!(f, "no memory"),
        }
    }
}

impl Error for JournalFault {}

/// What was read so far.
#[derive(Drop)]
struct Reader {
    version: JournalVersion,
    journal: Journal,
    clocks: Clocks,
}

impl Model for Reader {
    ghost use Rattle.diag_desk.specs.PartRead.{PartRead};

    ghost Value = { PartRead };

    ghost use Rattle.diag_desk.specs.Clocks.{Tells};
    ghost use Rattle.diag_desk.specs.Entry.{IsJournal};

    ghost view = { λ r. record { version = r.version; entries = r.journal.entries } };

    ghost invariant = { λ r. IsJournal r.journal.entries × Tells r.clocks.ticks r.journal.entries };
}

impl Reader {
    fn new(alloc: Global, version: JournalVersion) -> Reader
        ensures { result ≡ record { version = version; entries = [] } }
    {
        Reader {
            version,
            journal: Journal::new(alloc),
            clocks: Clocks::new(),
        }
    }

    /// Takes the line that comes next.
    fn take(&mut self, line: &[u8]) -> Result<(), LineFault>
        ensures ok { OnOk result (Took self.old self.new line.now) }
        ensures wrong { IfErr result (λ fault.
            fault ≡ LineFault.Wrong → HasNoNext self.old line.now) }
        ensures memory { IfErr result (λ fault.
            fault ≡ LineFault.Memory → HasNext self.old line.now) }
        ensures journal { IsJournal self.new.entries }
    {
        let Some(entry) = next_line(self.version, &self.clocks, line) else {
            return Err(LineFault::Wrong);
        };
        let clock = clock_with(&self.clocks, &entry);
        match self.journal.push_line(&entry) {
            Ok(()) => {
                self.clocks.set(entry.who, clock);
                Ok(())
            }
            Err(JournalPush::Full) => Err(LineFault::Wrong),
            Err(JournalPush::Memory) => Err(LineFault::Memory),
        }
    }
}

/// The version of a header; None where it is none.
pub(crate) fn version_of(line: &[u8]) -> Option<JournalVersion>
    ensures some { IfSome result (λ version. line.now ≡ header version) }
    ensures none { IfNone result ((version : JournalVersion) → line.now ≢ header version) }
{
    if line == b"diag-journal 1".as_slice() {
        Some(JournalVersion::Plain)
    } else if line == b"diag-journal 2".as_slice() {
        Some(JournalVersion::Stamped)
    } else {
        None
    }
}

/// The journal of a text of either version, in one pass.
///
/// Each journal has one text of a version: digits of hex in upper case, numbers in decimal without leading zeros, parts
/// parted by one space, lines ended by LF. Any other line is a fault, named by its number (the header is line 1): also
/// a last line without LF, a stamp that isn't the ticks of its tester so far, and an entry past the 1,000,000th. So
/// what a journal was written as is read back as that journal, where memory is not refused. Memory is asked for an entry
/// alone, once its line is found well.
pub fn read_journal(alloc: Global, text: &[u8]) -> Result<Journal, JournalFault>
    ensures ok { IfOk result (λ journal.
        IsJournal journal.entries × IsTextOf text.now journal.entries) }
    ensures line { IfErr result (λ fault.
        (n : ℕ) → fault ≡ JournalFault.Line n → FaultAt text.now n) }
    ensures memory { IfErr result (λ fault.
        fault ≡ JournalFault.Memory → HasEntries text.now) }
    ensures back { (entries : List Entry)
        → IsJournal entries
        → IsTextOf text.now entries
        → MatchResult result
        (λ journal. journal.entries ≡ entries)
        (λ fault. fault ≡ JournalFault.Memory) }
{
    read_lines(alloc, text)
}

/// Reads the header, and then line by line.
fn read_lines(alloc: Global, text: &[u8]) -> Result<Journal, JournalFault>
    ensures ok { IfOk result (λ journal.
        IsJournal journal.entries × IsTextOf text.now journal.entries) }
    ensures line { IfErr result (λ fault.
        (n : ℕ) → fault ≡ JournalFault.Line n → FaultAt text.now n) }
    ensures memory { IfErr result (λ fault.
        fault ≡ JournalFault.Memory → HasEntries text.now) }
{
    let Some((first, mut rest)) = cut(text, b'\n') else {
        return Err(JournalFault::Line(1));
    };
    let Some(version) = version_of(first) else {
        return Err(JournalFault::Line(1));
    };
    let mut reader = Reader::new(alloc, version);
    let mut number = 2;
    while !rest.is_empty() {
        let Some((line, after)) = cut(rest, b'\n') else {
            return Err(JournalFault::Line(number));
        };
        match reader.take(line) {
            Ok(()) => {}
            Err(fault) => return Err(fault.at(number)),
        }
        rest = after;
        number += 1;
    }
    Ok(reader.journal)
}
