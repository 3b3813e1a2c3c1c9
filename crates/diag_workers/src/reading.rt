//! All testers' logs, read at the same time.
ghost use Rattle.std.specs.Prelude.{◌≡◌, ◌+◌, ◌≤◌, length, map, Err, IfOk, IfErr, ◌∷◌};
ghost use Rattle.std.specs.Thread.{IsSync};
ghost use Rattle.diag_can.specs.Growing.{HasEvent};
ghost use Rattle.diag_can.specs.Log.{events};
ghost use Rattle.diag_setup.specs.Setup.{ids_of};
ghost use Rattle.diag_workers.specs.Play.{AsksFrom, Reads, ReadsOne, logs_from};

use crate::playing::PlayFault;
use diag_can::{Log, LogFault, Timing, read_log};
use diag_setup::{Setup, TesterId};
use std::alloc::Global;
use std::thread::{Threads, join};

/// Reads the log of the tester of this place beside those of the testers after it: the last on the calling thread, each
/// other in a thread of its own, or on the calling thread where none can be started.
///
/// # Errors
/// `Log` for a log that is at fault, `Memory` where memory is refused, which is asked for an event, and once all are well:
/// the first that refuses, in order, decides.
pub(crate) fn read_beside<R: Threads + Sync>(
    rt: &R,
    alloc: Global,
    setup: &Setup,
    place: u8,
    texts: &[Vec<u8>],
    timing: Timing,
) -> Result<Vec<Log>, PlayFault>
    requires place { (1 ≤ place) × (place + length texts.now ≤ 9) }
    requires in_setup { place + length texts.now ≤ length setup.now.testers + 1 }
    ensures reads { Reads (logs_from place setup.now timing (map (λ text. text.items) texts.now))
        (length texts.now) result }
    ensures memory { result ≡ Err PlayFault.Memory
        → AsksFrom place setup.now timing (map (λ text. text.items) texts.now) }
{
    let Some((text, rest)) = texts.split_first() else {
        return Ok(Vec::new(alloc));
    };
    if rest.is_empty() {
        let one = read_one(alloc, setup, place, text.as_slice(), timing)?;
        return in_front(one, Vec::new(alloc));
    }
    let (one, others) = join(
        rt,
        move || -> Result<Log, PlayFault>
            requires { (1 ≤ place) × (place ≤ 8) × (place ≤ length setup.now.testers) }
            ensures { ReadsOne place
                (events text.entry.now.items (ids_of setup.entry.now place) timing) result
                × (result ≡ Err PlayFault.Memory
                → HasEvent timing (ids_of setup.entry.now place) text.entry.now.items) }
        { read_one(alloc, setup, place, text.as_slice(), timing) },
        move || -> Result<Vec<Log>, PlayFault>
            requires { IsSync R.row
                × (1 ≤ place)
                × (place + 1 + length rest.now ≤ 9)
                × (place + 1 + length rest.now ≤ length setup.now.testers + 1) }
            ensures { Reads (logs_from (place + 1) setup.entry.now timing
                (map (λ text. text.items) rest.entry.now)) (length rest.entry.now) result
                × (result ≡ Err PlayFault.Memory
                → AsksFrom (place + 1) setup.entry.now timing (map (λ text. text.items) rest.entry.now)) }
        { read_beside(rt, alloc, setup, place + 1, rest, timing) },
    );
    in_front(one?, others?)
}

/// A log before those of the testers after it.
fn in_front(one: Log, mut others: Vec<Log>) -> Result<Vec<Log>, PlayFault>
    ensures logs { IfOk result (λ logs. logs.items ≡ one ∷ others.items) }
    ensures refused { IfErr result (λ fault. fault ≡ PlayFault.Memory) }
{
    if others.insert(0, one).is_err() {
        return Err(PlayFault::Memory);
    }
    Ok(others)
}

/// Reads the log of the tester of this place.
fn read_one(
    alloc: Global,
    setup: &Setup,
    place: u8,
    text: &[u8],
    timing: Timing,
) -> Result<Log, PlayFault>
    requires place { (1 ≤ place) × (place ≤ 8) }
    requires in_setup { place ≤ length setup.now.testers }
    ensures reads { ReadsOne place (events text.now (ids_of setup.now place) timing) result }
    ensures memory { result ≡ Err PlayFault.Memory
        → HasEvent timing (ids_of setup.now place) text.now }
{
    let Some(who) = TesterId::new(place) else {
        unreachable!()
    };
    match read_log(alloc, text, &setup.ids(who), timing) {
        Ok(log) => Ok(log),
        Err(LogFault::Memory) => Err(PlayFault::Memory),
        Err(fault) => Err(PlayFault::Log(who, fault)),
    }
}
