//! The entry of the line that comes next in a journal's text.
ghost use Rattle.std.specs.Prelude.{◌≡◌, ◌+◌, List, IfSome, IfNone};
ghost use Rattle.diag_desk.specs.declared.entry.Entry.{Entry};
ghost use Rattle.diag_desk.specs.Clocks.{Tells};
ghost use Rattle.diag_desk.specs.Entry.{IsJournal, IsEntry};
ghost use Rattle.diag_desk.specs.Following.{AreTold, read_so_far};
ghost use Rattle.diag_desk.specs.Line.{HasHex, line_entry};
ghost use Rattle.diag_desk.specs.PartRead.{IsNoNext, fault_at};
ghost use Rattle.diag_desk.specs.Text.{line_after, ticks_in, ticks_of};

use crate::clocks::Clocks;
use crate::line::{Line, LineStep, cut, entry_in, is_decimal};
use crate::read::JournalFault;
use crate::version::JournalVersion;

/// Why a line was not taken.
#[derive(Clone, Copy, Drop)]
pub(crate) enum LineFault {
    Wrong,
    Memory,
}

impl LineFault {
    /// The fault of a text whose line of this number, from 1, is not taken.
    pub(crate) fn at(self, number: usize) -> JournalFault
        ensures { result ≡ fault_at number self }
    {
        match self {
            LineFault::Wrong => JournalFault::Line(number),
            LineFault::Memory => JournalFault::Memory,
        }
    }
}

/// The ticks of a line's tester up to and with it.
pub(crate) fn clock_with(clocks: &Clocks, line: &Line<'_>) -> u64
    requires entry { IsEntry (line_entry line.now) }
    requires told { AreTold clocks.now.ticks }
    ensures { (past : List Entry)
        → Tells clocks.now.ticks past
        → result ≡ ticks_of line.now.who past + ticks_in (line_entry line.now).step }
{
    let before = clocks.at(line.who);
    match line.step {
        LineStep::Request { .. } => before,
        LineStep::Ticks(count) => before + u64::from(count.get()),
    }
}

/// The entry of the line that comes next, after the entries of which the clocks tell.
pub(crate) fn next_line<'a>(
    version: JournalVersion,
    clocks: &Clocks,
    line: &'a [u8],
) -> Option<Line<'a>>
    requires told { AreTold clocks.now.ticks }
    ensures hex { IfSome result (λ read. HasHex read.step) }
    ensures entry { IfSome result (λ read. IsEntry (line_entry read)) }
    ensures some { IfSome result (λ read. (past : List Entry)
        → Tells clocks.now.ticks past
        → line_after version past (line_entry read) ≡ line.now) }
    ensures none { IfNone result ((past : List Entry)
        → IsJournal past
        → Tells clocks.now.ticks past
        → IsNoNext (read_so_far version past) line.now) }
{
    if let JournalVersion::Plain = version {
        return entry_in(line);
    }
    let Some((at, line)) = cut(line, b' ') else {
        return None;
    };
    let Some(entry) = entry_in(line) else {
        return None;
    };
    if !is_decimal(at, clock_with(clocks, &entry)) {
        return None;
    }
    Some(entry)
}
