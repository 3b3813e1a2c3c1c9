//! A live run: the config, then the bus as it goes.

ghost use Rattle.std.specs.Prelude.{◌≡◌, ◌≢◌, ◌⊎◌, ◌<◌, Err, IfOk, IfErr, IfSome, OnOk};
ghost use Rattle.diag_live.specs.Devices.{TellsBothWrites, TellsHearing};
ghost use Rattle.diag_live.specs.Pace.{Did, KeepsPace};
ghost use Rattle.diag_live.specs.Serving.{CannotHear, HaltsWith, Turned};
ghost use Rattle.diag_live.specs.Stops.{Lived, LivedWith, Stopped, StoppedWith};
ghost use Rattle.diag_run.specs.Devices.{TellsConfig, fault_in};
ghost use Rattle.diag_run.specs.Run.{DoneOf, EndsOf};

use crate::bench::{Bench, Heard};
use crate::serving::Serving;
use diag_bus::{Bus, Replies};
use diag_run::{Outcome, read_config};
use diag_setup::Setup;
use diag_text::{RunFault, Source, Target};
use std::alloc::Global;

/// Serves a bus until the input ends. The time passes as the bench's clock tells it, also while nothing is heard.
///
/// What was heard and how the time passed is one capture, which the recorder gets: each line with the null stamp in
/// place of its own, and `tick` lines between them: turn by turn, a tick for each millisecond that the clock told since it
/// told last, and then the lines that were heard. Each `hear` is asked until the moment at which something falls due or ends
/// for the unit. What is written is what the bus writes of that capture. Before each
/// `hear` the capture so far was recorded and flushed, and then what it draws was written and flushed; and so it is at the end.
///
/// # Errors
/// `Capture` with the number of the first line of the input at fault, or of the line by which, or before which, a
/// tester's clock would pass 2^63 ms; `Read(1)` where the bench can't hear further, and only there (or behind 2^64 - 1
/// turns); `Memory`; and `Write` just where a write or a flush of the output or of the record failed, or took no byte.
pub fn live<B: Bench, W: Target, R: Target>(
    alloc: Global,
    setup: Setup,
    bench: &mut B,
    out: &mut W,
    recorder: &mut R,
) -> Result<(), RunFault>
    ensures done { OnOk result (Lived (KeepsPace B.story setup bench.old bench.new) setup
        (B.remaining bench.old) (B.remaining bench.new)
        (W.contents out.old) (W.contents out.new) (R.contents recorder.old) (R.contents recorder.new)) }
    ensures fault { IfErr result (Stopped setup (B.remaining bench.old) (B.remaining bench.new)
        (W.contents out.old) (W.contents out.new) (R.contents recorder.old) (R.contents recorder.new)) }
    ensures unheard { TellsHearing B.story bench.old bench.new (fault_in result) }
    ensures writes { TellsBothWrites W.failed W.sound R.failed R.sound out.old out.new recorder.old recorder.new (fault_in result) }
    ensures flushed { OnOk result (W.flushed out.new × R.flushed recorder.new) }
{
    let bus = Bus::new(alloc, setup, Replies::new(alloc))?;
    let mut serving = Serving::begin(alloc, bus, bench.now())?;
    for turn_number in 0..u64::MAX {
        match turn(&mut serving, bench, out, recorder) {
            Ok(true) => {}
            Ok(false) => return Ok(()),
            Err(fault) => return Err(fault),
        }
    }
    Err(RunFault::Read(1))
}

/// Hears what comes next, and serves it; whether the run goes on. Once a line was taken, all that was recorded and written was
/// flushed before.
fn turn<B: Bench, W: Target, R: Target>(
    serving: &mut Serving,
    bench: &mut B,
    out: &mut W,
    recorder: &mut R,
) -> Result<bool, RunFault>
    requires flushed { 0 < serving.old.capture.lines → W.flushed out.old × R.flushed recorder.old }
    ensures ok { IfOk result (Turned (Did B.story bench.old bench.new) serving.old serving.new
        (B.remaining bench.old) (B.remaining bench.new)
        (W.contents out.old) (W.contents out.new) (R.contents recorder.old) (R.contents recorder.new)) }
    ensures err { IfErr result (λ fault. HaltsWith serving.old
        (B.remaining bench.old) (B.remaining bench.new)
        (W.contents out.old) (W.contents out.new)
        (R.contents recorder.old) (R.contents recorder.new) fault
        ⊎ CannotHear (Did B.story bench.old bench.new) (B.remaining bench.old) (B.remaining bench.new)
        (W.contents out.old) (W.contents out.new)
        (R.contents recorder.old) (R.contents recorder.new) fault) }
    ensures write { result ≡ Err RunFault.Write → W.failed out.new ⊎ R.failed recorder.new }
    ensures unfailed { result ≢ Err RunFault.Write
        → (W.sound out.old → W.sound out.new) × (R.sound recorder.old → R.sound recorder.new) }
    ensures flushed { OnOk result (W.flushed out.new × R.flushed recorder.new) }
{
    let heard = bench.hear(serving.due(), serving.is_in_block());
    let now = bench.now();
    match heard {
        Heard::Piece(piece) => {
            serving.serve(now, piece.as_slice(), out, recorder)?;
            Ok(true)
        }
        Heard::Silence => {
            serving.serve(now, &[], out, recorder)?;
            Ok(true)
        }
        Heard::End => {
            serving.end(now, out, recorder)?;
            Ok(false)
        }
        Heard::Fault => Err(RunFault::Read(1)),
        Heard::Memory => Err(RunFault::Memory),
    }
}

/// Reads a setup, and then serves a bus.
///
/// # Errors
/// The first fault of the config, before which nothing is heard or written, with `Read(0)` just where a read of it failed; then
/// those of `live`.
fn run_live<C: Source, B: Bench, W: Target, R: Target>(
    alloc: Global,
    config: &mut C,
    bench: &mut B,
    out: &mut W,
    recorder: &mut R,
) -> Result<(), RunFault>
    ensures done { OnOk result (LivedWith (λ setup. KeepsPace B.story setup bench.old bench.new)
        (C.remaining config.old) (C.remaining config.new)
        (B.remaining bench.old) (B.remaining bench.new)
        (W.contents out.old) (W.contents out.new) (R.contents recorder.old) (R.contents recorder.new)) }
    ensures fault { IfErr result (StoppedWith B.remaining (C.remaining config.old) (C.remaining config.new)
        bench.old bench.new
        (W.contents out.old) (W.contents out.new) (R.contents recorder.old) (R.contents recorder.new)) }
    ensures config { TellsConfig C.failed C.sound config.old config.new (fault_in result) }
    ensures unheard { TellsHearing B.story bench.old bench.new (fault_in result) }
    ensures writes { TellsBothWrites W.failed W.sound R.failed R.sound out.old out.new recorder.old recorder.new (fault_in result) }
    ensures flushed { OnOk result (W.flushed out.new × R.flushed recorder.new) }
{
    match read_config(alloc, config) {
        Ok(setup) => live(alloc, setup, bench, out, recorder),
        Err(fault) => Err(fault),
    }
}

/// Reads a setup, serves a bus, and says how it ended: with the end of the input and status 0, or with the line and the
/// status of the run's fault.
pub fn run_live_and_tell<C: Source, B: Bench, W: Target, R: Target>(
    alloc: Global,
    config: &mut C,
    bench: &mut B,
    out: &mut W,
    recorder: &mut R,
) -> Outcome
    ensures status { DoneOf (λ status. status ≡ 0) result }
    ensures done { DoneOf (λ _. LivedWith (λ setup. KeepsPace B.story setup bench.old bench.new)
        (C.remaining config.old) (C.remaining config.new)
        (B.remaining bench.old) (B.remaining bench.new)
        (W.contents out.old) (W.contents out.new) (R.contents recorder.old) (R.contents recorder.new)) result }
    ensures fault { EndsOf (λ came. IfSome came (StoppedWith B.remaining (C.remaining config.old) (C.remaining config.new)
        bench.old bench.new
        (W.contents out.old) (W.contents out.new) (R.contents recorder.old) (R.contents recorder.new))
        × TellsConfig C.failed C.sound config.old config.new came
        × TellsHearing B.story bench.old bench.new came
        × TellsBothWrites W.failed W.sound R.failed R.sound out.old out.new recorder.old recorder.new came) result }
    ensures flushed { DoneOf (λ _. W.flushed out.new × R.flushed recorder.new) result }
{
    match run_live(alloc, config, bench, out, recorder) {
        Ok(()) => Outcome::Done { status: 0 },
        Err(fault) => Outcome::of(alloc, &fault),
    }
}
