//! The frames that a line draws, as lines of their own, in the order of the bus.

ghost use Rattle.std.specs.Prelude.{◌≡◌, ◌≤◌, ◌<◌, ◌+◌, ◌++◌, length, map, IfOk, IsTrue, OnOk, OnErr};
ghost use Rattle.std.specs.List.{All, flat_map};
ghost use Rattle.std.specs.List.Sorted.{IsNonDecreasingBy, IsPermutation};
ghost use Rattle.diag_setup.specs.Rows.{in_order};
ghost use Rattle.diag_world.specs.Server.{closing_time};
ghost use Rattle.diag_bus.specs.Clock.{StartsBelow, moment_end};
ghost use Rattle.diag_bus.specs.Node.{AreSentBy};
ghost use Rattle.diag_bus.specs.Text.{bus_moment, drawn_for, drawn_text, gathered, line_of, own_text, time_of};
ghost use Rattle.diag_bus.specs.Writing.{AreNamesOf, AreWritable};

use crate::clock::{Clock, Start};
use diag_can::{CanId, KeptBytes, LineWriter};
use diag_setup::{Setup, TesterId};
use diag_tp::{SentFrame, SentFrames};
use std::alloc::{AllocError, Global};
use std::marker::Model;

/// A frame that a tester is sent.
#[derive(Drop)]
pub struct Drawn {
    /// The tester.
    pub who: TesterId,
    /// The frame's time on the tester's link.
    pub at: u64,
    /// Its identifier.
    pub id: CanId,
    /// Its data, up to 64 bytes.
    pub bytes: KeptBytes,
}

impl Model for Drawn {
    ghost use Rattle.std.specs.Prelude.{◌≤◌, length};
    ghost use Rattle.diag_bus.specs.Drawn.{Drawn as DrawnFrame};

    ghost Value = { DrawnFrame };

    ghost view = { λ d. record {
      who = d.who;
      sent = record { at = d.at; frame = record { id = d.id; bytes = d.bytes } };
    } };

    ghost invariant = { λ d. length d.bytes ≤ 64 };
}

impl Drawn {
    /// The frame, its bytes lent.
    #[inline(always)]
    pub fn sent(&self) -> SentFrame<'_>
        ensures { result ≡ self.now.sent }
    {
        SentFrame {
            at: self.at,
            id: self.id,
            bytes: self.bytes.as_slice(),
        }
    }
}

/// A link's time as a moment of the bus.
fn bus_moment(start: Option<Start>, at: u64) -> u64
    requires start { StartsBelow start moment_end }
    requires early { at ≤ closing_time }
    ensures { result ≡ bus_moment start at }
{
    match start {
        None => at,
        Some(start) => start.moment + at.saturating_sub(start.before),
    }
}

/// Puts the frames in the order of their times, frames of one time as they stand.
///
/// # Errors
/// `AllocError` where memory is refused.
pub fn sort_batch(batch: &mut Vec<Drawn>) -> Result<(), AllocError>
    ensures is { OnOk result (batch.new.items ≡ in_order time_of batch.old.items) }
    ensures same { OnOk result (IsPermutation batch.old.items batch.new.items) }
{
    batch.sort_by_key(|drawn| drawn.at)?;
    Ok(())
}

/// Copies a tester's frames to the end of a batch.
fn add_frames(batch: &mut Vec<Drawn>, who: TesterId, frames: &SentFrames) -> Result<(), AllocError>
    ensures { OnOk result
        (batch.new.items ≡ batch.old.items ++ map (drawn_for who) frames.now.items) }
{
    for index in 0..frames.len() {
        let sent = frames.get(index);
        let bytes = KeptBytes::of(*batch.allocator(), sent.bytes)?;
        batch.push(Drawn {
            who,
            at: sent.at,
            id: sent.id,
            bytes,
        })?;
    }
    Ok(())
}

/// Copies the frames of each tester's list to the end of a batch, one list behind the other.
///
/// # Errors
/// `AllocError` where memory is refused.
pub fn gather(setup: &Setup, drawn: &[SentFrames], batch: &mut Vec<Drawn>) -> Result<(), AllocError>
    requires { length drawn.now ≡ length setup.now.testers }
    ensures { OnOk result (batch.new.items
        ≡ batch.old.items ++ gathered 1 (map (λ f. f.items) drawn.now)) }
{
    for index in 0..setup.testers() {
        let who = setup.who(index);
        add_frames(batch, who, &drawn[index])?;
    }
    Ok(())
}

/// A writer of reply lines for each tester of a setup.
pub(crate) fn writers_of(alloc: Global, setup: &Setup) -> Result<Vec<LineWriter>, AllocError>
    ensures { IfOk result (λ writers. AreNamesOf setup.now writers.items) }
{
    let mut writers = Vec::new(alloc);
    for index in 0..setup.testers() {
        let who = setup.who(index);
        let (name, flags) = (setup.name(who), setup.flags(who));
        let writer = LineWriter::new(alloc, name, setup.ids(who).response, flags)?;
        writers.push(writer)?;
    }
    Ok(writers)
}

/// Whether no frame is earlier than the one before it.
#[inline(always)]
pub(crate) fn is_in_order(frames: &SentFrames) -> bool
    ensures { IsTrue result → IsNonDecreasingBy (λ f. f.at) frames.now.items }
{
    if frames.len() < 2 {
        return true;
    }
    let mut last = 0;
    for index in 0..frames.len() {
        let at = frames.get(index).at;
        if at < last {
            return false;
        }
        last = at;
    }
    true
}

/// Adds the reply line of a frame that the tester at this index, from 0, is sent. Refused, the text is as it was.
#[inline(always)]
fn write_one(
    setup: &Setup,
    clock: &Clock,
    writers: &mut Vec<LineWriter>,
    index: usize,
    sent: &SentFrame<'_>,
    text: &mut Vec<u8>,
) -> Result<(), AllocError>
    requires names { AreNamesOf setup.now writers.old.items }
    requires tester { index < length setup.now.testers }
    requires start { StartsBelow clock.now.start moment_end }
    requires sent { sent.now.at ≤ closing_time }
    ensures ok { OnOk result
        (text.new.items ≡ text.old.items ++ line_of setup.now clock.now.start (drawn_for (index + 1) sent.now)) }
    ensures err { OnErr result (text.new.items ≡ text.old.items) }
    ensures names { writers.new.items ≡ writers.old.items }
{
    // (for its contract: the writers are those of its testers)
    let _ = setup;
    let moment = bus_moment(clock.start, sent.at);
    writers[index].write(text, moment, sent.id, sent.bytes)
}

/// Adds the reply lines of the frames that the tester at this index, from 0, is sent, as they stand. Refused, the text is
/// as it was.
#[inline(always)]
pub(crate) fn write_own(
    setup: &Setup,
    clock: &Clock,
    writers: &mut Vec<LineWriter>,
    index: usize,
    frames: &SentFrames,
    text: &mut Vec<u8>,
) -> Result<(), AllocError>
    requires { AreWritable setup.now clock.now.start writers.old.items index frames.now.items }
    ensures ok { OnOk result
        (text.new.items ≡ text.old.items ++ own_text setup.now clock.now.start index frames.now.items) }
    ensures err { OnErr result (text.new.items ≡ text.old.items) }
    ensures names { writers.new.items ≡ writers.old.items }
{
    if frames.len() == 1 {
        write_one(setup, clock, writers, index, &frames.get(0), text)
    } else {
        write_each(setup, clock, writers, index, frames, text)
    }
}

/// The same, however many they are.
#[inline(never)]
fn write_each(
    setup: &Setup,
    clock: &Clock,
    writers: &mut Vec<LineWriter>,
    index: usize,
    frames: &SentFrames,
    text: &mut Vec<u8>,
) -> Result<(), AllocError>
    requires { AreWritable setup.now clock.now.start writers.old.items index frames.now.items }
    ensures ok { OnOk result
        (text.new.items ≡ text.old.items ++ own_text setup.now clock.now.start index frames.now.items) }
    ensures err { OnErr result (text.new.items ≡ text.old.items) }
    ensures names { writers.new.items ≡ writers.old.items }
{
    let len = text.len();
    for place in 0..frames.len() {
        let sent = frames.get(place);
        if let Err(refused) = write_one(setup, clock, writers, index, &sent, text) {
            text.truncate(len);
            return Err(refused);
        }
    }
    Ok(())
}

/// Adds the reply lines of a batch, in the order of their times. Refused, the text is as it was.
fn write_batch(
    setup: &Setup,
    clock: &Clock,
    writers: &mut Vec<LineWriter>,
    batch: &mut Vec<Drawn>,
    text: &mut Vec<u8>,
) -> Result<(), AllocError>
    requires names { AreNamesOf setup.now writers.old.items }
    requires testers { All (λ drawn. drawn.who ≤ length setup.now.testers) batch.old.items }
    requires start { StartsBelow clock.now.start moment_end }
    requires sent { All (λ drawn. drawn.sent.at ≤ closing_time) batch.old.items }
    ensures ok { OnOk result (text.new.items ≡ text.old.items
        ++ flat_map (line_of setup.now clock.now.start) (in_order time_of batch.old.items)) }
    ensures err { OnErr result (text.new.items ≡ text.old.items) }
    ensures names { writers.new.items ≡ writers.old.items }
{
    sort_batch(batch)?;
    let len = text.len();
    for drawn in batch.as_slice() {
        let index = drawn.who.index();
        if let Err(refused) = write_one(setup, clock, writers, index, &drawn.sent(), text) {
            text.truncate(len);
            return Err(refused);
        }
    }
    Ok(())
}

/// Adds the reply lines of the frames in the testers' lists, in the order of the bus. The batch is room to work in. Refused,
/// the text is as it was.
#[inline(never)]
pub(crate) fn write_drawn(
    setup: &Setup,
    clock: &Clock,
    writers: &mut Vec<LineWriter>,
    drawn: &[SentFrames],
    batch: &mut Vec<Drawn>,
    text: &mut Vec<u8>,
) -> Result<(), AllocError>
    requires names { AreNamesOf setup.now writers.old.items }
    requires testers { length drawn.now ≡ length setup.now.testers }
    requires start { StartsBelow clock.now.start moment_end }
    requires sent { AreSentBy (map (λ f. f.items) drawn.now) closing_time }
    ensures ok { OnOk result (text.new.items ≡ text.old.items
        ++ drawn_text setup.now clock.now.start (map (λ f. f.items) drawn.now)) }
    ensures err { OnErr result (text.new.items ≡ text.old.items) }
    ensures names { writers.new.items ≡ writers.old.items }
{
    batch.clear();
    gather(setup, drawn, batch)?;
    write_batch(setup, clock, writers, batch, text)
}
