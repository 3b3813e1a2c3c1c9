//! All testers' workers at the same time.
ghost use Rattle.std.specs.Prelude.{◌≡◌, ◌<◌, ◌≤◌, ◌∷◌, [], length, map, IfOk};
ghost use Rattle.std.specs.List.{AllByRecursion};
ghost use Rattle.std.specs.Thread.{IsSync, IsSend};
ghost use Rattle.diag_pdu.specs.Cut.{counted_from};
ghost use Rattle.diag_setup.specs.Setup.{link_of};
ghost use Rattle.diag_port.specs.Late.{pace_of};
ghost use Rattle.diag_workers.specs.Crew.{Worked, AllWorked};
ghost use Rattle.diag_workers.specs.Work.{holds};

use crate::keeping::Keep;
use crate::working::{WorkerRecord, work_keeping};
use diag_can::Log;
use diag_desk::StepFault;
use diag_gate::Door;
use diag_setup::Setup;
use std::alloc::{AllocError, Global};
use std::thread::{Threads, join};

/// Plays each log through its door, all at the same time: the last on the calling thread, each other in a thread of its
/// own.
///
/// Where a thread can't be started, its log is played on the calling thread, after those that follow it.
/// A refusal is that of the first tester, in order, that was refused; the doors are then dropped.
pub fn crew<D: Door + Send + Drop, R: Threads + Sync>(
    rt: &R,
    alloc: Global,
    setup: &Setup,
    logs: &[Log],
    doors: Vec<D>,
) -> Result<Vec<(WorkerRecord, D)>, StepFault>
    requires logs { length logs.now ≡ length setup.now.testers }
    requires doors { map D.tester doors.items ≡ counted_from 1 (length setup.now.testers) }
    ensures { IfOk result (λ done. AllWorked (link_of setup.now) (pace_of setup.now) D.tester D.given D.home holds
        (map (λ log. log.items) logs.now) doors.items done.items) }
{
    crew_keeping(rt, alloc, setup, logs, doors)
}

/// The same, with whatever each worker keeps.
pub(crate) fn crew_keeping<K: Keep + Send + Drop, D: Door + Send + Drop, R: Threads + Sync>(
    rt: &R,
    alloc: Global,
    setup: &Setup,
    logs: &[Log],
    doors: Vec<D>,
) -> Result<Vec<(WorkerRecord<K>, D)>, StepFault>
    requires logs { length logs.now ≡ length setup.now.testers }
    requires doors { map D.tester doors.items ≡ counted_from 1 (length setup.now.testers) }
    ensures { IfOk result (λ done. AllWorked (link_of setup.now) (pace_of setup.now) D.tester D.given D.home K.keeps
        (map (λ log. log.items) logs.now) doors.items done.items) }
{
    crew_of(rt, alloc, setup, logs, doors)
}

/// The first tester's worker beside those of the rest. The last worker needs no thread of its own.
fn crew_of<K: Keep + Send + Drop, D: Door + Send + Drop, R: Threads + Sync>(
    rt: &R,
    alloc: Global,
    setup: &Setup,
    logs: &[Log],
    mut doors: Vec<D>,
) -> Result<Vec<(WorkerRecord<K>, D)>, StepFault>
    requires as_many { length doors.items ≡ length logs.now }
    requires in_setup { AllByRecursion
        (λ door. D.tester door ≤ length setup.now.testers) doors.items }
    ensures { IfOk result (λ done. AllWorked (link_of setup.now) (pace_of setup.now) D.tester D.given D.home K.keeps
        (map (λ log. log.items) logs.now) doors.items done.items) }
{
    let Some((log, logs)) = logs.split_first() else {
        return Ok(Vec::new(alloc));
    };
    let door = first_of(&mut doors);
    if logs.is_empty() {
        let one = worked(alloc, setup, log, door)?;
        return Ok(one_of(alloc, one)?);
    }
    let (one, others) = join(
        rt,
        move || -> Result<(WorkerRecord<K>, D), StepFault>
            requires { D.tester door ≤ length setup.now.testers }
            ensures { IfOk result (λ r. Worked (link_of setup.entry.now) (pace_of setup.entry.now)
                D.tester D.given D.home K.keeps log.entry.now.items door r.0 r.1) }
        { worked(alloc, setup, log, door) },
        move || -> Result<Vec<(WorkerRecord<K>, D)>, StepFault>
            requires { IsSync R.row
                × IsSend K.row
                × IsSend D.row
                × (length doors.items ≡ length logs.now)
                × AllByRecursion (λ door. D.tester door ≤ length setup.now.testers) doors.items }
            ensures { IfOk result (λ done. AllWorked (link_of setup.entry.now) (pace_of setup.entry.now) D.tester
                D.given D.home K.keeps (map (λ log. log.items) logs.entry.now) doors.items done.items) }
        { crew_of(rt, alloc, setup, logs, doors) },
    );
    let one = one?;
    let mut done = others?;
    if done.insert(0, one).is_err() {
        return Err(StepFault::Memory);
    }
    Ok(done)
}

/// A list of one item.
pub(crate) fn one_of<T: Drop>(alloc: Global, item: T) -> Result<Vec<T>, AllocError>
    ensures { IfOk result (λ list. list.items ≡ item ∷ []) }
{
    let mut list = Vec::new(alloc);
    list.push(item)?;
    Ok(list)
}

/// Takes the first item.
pub(crate) fn first_of<T>(items: &mut Vec<T>) -> T
    requires { 0 < length items.old.items }
    ensures { items.old.items ≡ result ∷ items.new.items }
{
    items.remove(0)
}

/// Plays a log through a door, and hands the door back.
fn worked<K: Keep + Drop, D: Door + Drop>(
    alloc: Global,
    setup: &Setup,
    log: &Log,
    mut door: D,
) -> Result<(WorkerRecord<K>, D), StepFault>
    requires { D.tester door ≤ length setup.now.testers }
    ensures { IfOk result (λ r.
        Worked (link_of setup.now) (pace_of setup.now) D.tester D.given D.home K.keeps log.now.items door r.0 r.1) }
{
    let who = door.who();
    let record = work_keeping(alloc, setup, who, log, &mut door)?;
    Ok((record, door))
}
