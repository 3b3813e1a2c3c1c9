//! What a seat at the table knows, the rule that the table keeps, and what each kind of step tells.
use crate::desk_box::DeskBox;
use atomic_table::{Join, Play, Split, TableRule};
use diag_desk::Entry;
use diag_ecu::Ecu;
use std::collections::LinkedList;
use std::marker::Model;
use std::snapshot::Snapshot;

/// An entry, and how long after its step the answer goes. No value of it is made.
pub struct TimedEntry {
    /// The entry.
    pub entry: Entry,
    /// In milliseconds of its tester.
    pub after_ms: u32,
}

impl Model for TimedEntry {
    ghost use Rattle.diag_desk.specs.Timed.{Timed};

    ghost Value = { Timed };

    ghost view = { λ x. record { entry = x.entry; after = x.after_ms } };
}

/// What a seat or the host knows. No value of it is made.
pub struct View {
    /// False once another has taken it in.
    pub live: bool,
    /// The ECU that the desk was opened with.
    pub opening: Ecu,
    /// The journal as it was when last seen.
    pub seen: LinkedList<Entry>,
    /// After a join, the shorter of what the two had seen.
    pub told: LinkedList<Entry>,
    /// A seat, which has one tester, or the host.
    pub is_seat: bool,
    /// A seat's tester. The host's is the one that it gives next.
    pub who: u64,
    /// A seat's own entries, each with the delay of its answer.
    pub own: LinkedList<TimedEntry>,
    /// The host's: the own entries of each tester that is with it, by place.
    pub owns: LinkedList<Option<LinkedList<TimedEntry>>>,
    /// Whether it has the desk.
    pub holds: bool,
    /// How many of its takes found the desk out.
    pub missed: u64,
}

/// The rule that the table keeps: there is one legal journal from one opening, and every view is right about it.
pub struct OneHistory;

impl TableRule<Option<DeskBox>, View, Snapshot<DeskBox>> for OneHistory {
    ghost use Rattle.diag_gate.specs.Rule.{Kept};
    ghost use Rattle.diag_gate.specs.Views.{starting};

    ghost holds = { λ _. Kept };

    ghost first = { λ key. starting key.value };
}

pub(crate) struct Take;

impl Play<Option<DeskBox>, View> for Take {
    ghost use Rattle.diag_gate.specs.Plays.{took};

    ghost then = { took };
}

pub(crate) struct Release;

impl Play<Option<DeskBox>, View> for Release {
    ghost use Rattle.diag_gate.specs.Plays.{released};

    ghost then = { released };
}

/// The host names the tester that it gives next.
pub(crate) struct Name;

impl Play<Option<DeskBox>, View> for Name {
    ghost use Rattle.diag_gate.specs.Plays.{named};

    ghost then = { named };
}

/// The host learns that what it has seen begins with what it was told.
pub(crate) struct Learn;

impl Play<Option<DeskBox>, View> for Learn {
    ghost use Rattle.diag_gate.specs.Plays.{learned};

    ghost then = { learned };
}

pub(crate) struct Give;

impl Split<View> for Give {
    ghost use Rattle.diag_gate.specs.Views.{host_without, new_seat};

    ghost left = { host_without };

    ghost right = { new_seat };
}

pub(crate) struct TakeIn;

impl Join<View> for TakeIn {
    ghost use Rattle.diag_gate.specs.Views.{host_with, spent};

    ghost both = { host_with };

    ghost spent = { spent };
}
