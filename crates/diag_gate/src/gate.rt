//! The gate, its host and its seats.
ghost use Rattle.std.specs.Prelude.{◌≡◌, ◌↔◌, true, IfOk, IfSome, IfNone, IsTrue};
ghost use Rattle.diag_gate.specs.Seats.{Gave, Joined, Closed, AllHome, new_host, was_given};
ghost use Rattle.diag_ecu.specs.Respond.{may_delay};

use crate::desk_box::DeskBox;
use crate::view::{Give, Learn, Name, OneHistory, TakeIn, View};
use atomic_table::{Refused, Table};
use diag_desk::Desk;
use diag_setup::TesterId;
use std::alloc::{AllocError, Global};
use std::marker::Model;
use std::snapshot::Snapshot;

type TableSeat = atomic_table::Seat<Option<DeskBox>, View>;

/// A seat's place at the table.
#[derive(Drop)]
struct Place {
    spot: TableSeat,
    /// How long after its request the answer of the last step goes; 0 before the first one.
    after_ms: u32,
}

/// A desk behind one atomic word: one seat at a time has the whole desk. Contracts see which gate it is.
#[derive(Drop)]
pub struct Gate {
    table: Table<Option<DeskBox>, View, Snapshot<DeskBox>, OneHistory, Global>,
}

impl Model for Gate {
    ghost use Rattle.std.specs.Prelude.{◌≡◌};
    ghost use Rattle.atomic_table.specs.Seated.{TableId};

    ghost Value = { TableId };

    ghost view = { λ g. g.table.shared.table_id };

    ghost invariant = { λ g.
        (g.table.shared.table_id.words ≡ 1) × (g.table.shared.table_id.slots ≡ 1) };
}

/// Gives the seats out and takes them back.
#[derive(Drop)]
pub struct Host {
    place: TableSeat,
    given: [bool; 9],
    home: [bool; 9],
    /// Whether an answer may go later than at once.
    can_delay: bool,
}

impl Model for Host {
    ghost use Rattle.std.specs.Prelude.{◌≡◌};
    ghost use Rattle.diag_gate.specs.Seats.{HostView, IsHost};
    ghost use Rattle.diag_ecu.specs.Respond.{may_delay};

    ghost Value = { HostView };

    ghost view = { λ h. record {
      gate = h.place.table_id;
      opening = h.place.me.0.opening;
      seen = h.place.me.0.seen;
      owns = h.place.me.0.owns;
      given = h.given;
    } };

    ghost invariant = { λ h. IsHost h.place.me h.given h.home
        × (h.can_delay ≡ may_delay h.place.me.0.opening) };
}

/// A tester's right to step.
#[derive(Drop)]
pub struct Seat {
    place: Place,
    who: TesterId,
    can_delay: bool,
}

impl Model for Seat {
    ghost use Rattle.std.specs.Prelude.{◌≡◌};
    ghost use Rattle.diag_gate.specs.Seats.{SeatView, IsSeat, seat_of};
    ghost use Rattle.diag_ecu.specs.Respond.{may_delay};

    ghost Value = { SeatView };

    ghost view = { λ s. seat_of s.who s.place };

    ghost invariant = { λ s. IsSeat s.who s.place.spot.me
        × (s.can_delay ≡ may_delay s.place.spot.me.0.opening) };
}

/// A seat that has the whole desk. It has no `Drop`: it ends by `step` or by `put_back`.
pub struct Guard<'a> {
    gate: &'a Gate,
    place: Place,
    who: TesterId,
    can_delay: bool,
    desk: DeskBox,
}

impl<'a> Model for Guard<'a> {
    ghost use Rattle.std.specs.Prelude.{◌≡◌};
    ghost use Rattle.diag_gate.specs.Seats.{SeatView, IsGuard, seat_of};
    ghost use Rattle.diag_ecu.specs.Respond.{may_delay};

    ghost Value = { SeatView };

    ghost view = { λ h. seat_of h.who h.place };

    ghost invariant = { λ h. (h.place.spot.table_id ≡ h.gate.now)
        × IsGuard h.who h.place.spot.me h.desk
        × (h.can_delay ≡ may_delay h.place.spot.me.0.opening) };
}

mod steps;

impl Gate {
    /// A gate over a desk, and the host that gives out its seats. Refused, the desk is dropped.
    pub fn new(alloc: Global, desk: Desk) -> Result<(Gate, Host), AllocError>
        ensures { IfOk result (λ r. r.1 ≡ new_host r.0 desk) }
    {
        let desk = DeskBox::new(alloc, desk)?;
        desk.lawful();
        let can_delay = desk.can_delay();
        let mut slots = Vec::with_capacity(alloc, 1)?;
        let key = Snapshot::of(&desk);
        slots.push_reserved(Some(desk));
        match Table::new(alloc, &[0], slots, &key) {
            Ok((table, place)) => {
                let host = Host {
                    place,
                    given: [false; 9],
                    home: [true; 9],
                    can_delay,
                };
                Ok((Gate { table }, host))
            }
            Err(Refused { slots: _ }) => Err(AllocError),
        }
    }

    /// The seat of a tester, once for each tester: None where this host has given it out before.
    pub fn split(&self, host: &mut Host, who: TesterId) -> Option<Seat>
        requires { host.old.gate ≡ self.now }
        ensures some { IfSome result (λ s. Gave host.old host.new who s) }
        ensures none { IfNone result ((was_given host.old who ≡ true) × (host.new ≡ host.old)) }
    {
        let at = usize::from(who.number());
        if host.given[at] {
            return None;
        }
        let shared = &self.table.shared;
        let named = u64::from(who.number());
        shared.compare_exchange::<Name>(&mut host.place, 0, named, named);
        let spot = shared.split_seat::<Give>(&mut host.place);
        host.given[at] = true;
        host.home[at] = false;
        let place = Place { spot, after_ms: 0 };
        let can_delay = host.can_delay;
        Some(Seat {
            place,
            who,
            can_delay,
        })
    }

    /// Takes a seat back.
    pub fn join(&self, host: &mut Host, seat: Seat)
        requires host { host.old.gate ≡ self.now }
        requires seat { seat.gate ≡ self.now }
        ensures { Joined host.old host.new seat }
    {
        let Seat {
            place,
            who,
            can_delay: _,
        } = seat;
        let Place { spot, after_ms: _ } = place;
        let at = usize::from(who.number());
        let shared = &self.table.shared;
        shared.join_seat::<TakeIn>(&mut host.place, spot);
        shared.load::<Learn>(&mut host.place, 0);
        host.home[at] = true;
    }

    /// The desk, once each seat is home.
    pub fn close(self, host: Host) -> Desk
        requires host { host.gate ≡ self }
        requires home { AllHome host }
        ensures { Closed host result }
    {
        let Gate { table } = self;
        let Host {
            place,
            given: _,
            home: _,
            can_delay: _,
        } = host;
        let mut closed = table.close_with(place);
        let desk = closed.take(0);
        closed.free();
        desk.unwrap().into_desk()
    }
}

impl Host {
    /// Whether each tester is with the host.
    pub fn all_home(&self) -> bool
        ensures { IsTrue result ↔ AllHome self.now }
    {
        self.home.iter().all(|h| *h)
    }
}

impl Seat {
    /// Its tester.
    pub fn who(&self) -> TesterId
        ensures { result ≡ self.now.who }
    {
        self.who
    }

    /// How long after its request the answer of the last step goes, in milliseconds: 0 before the first step, and of
    /// ticks.
    pub fn after_ms(&self) -> u32
        ensures { result ≡ self.now.delay }
    {
        self.place.after_ms
    }

    /// Whether an answer may go later than at once.
    pub fn can_delay(&self) -> bool
        ensures { result ≡ may_delay self.now.opening }
    {
        self.can_delay
    }
}
