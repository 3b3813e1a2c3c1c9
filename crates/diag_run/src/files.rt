//! Reading the files of a run, in order.

ghost use Rattle.std.specs.Prelude.{◌≡◌, ◌≢◌, ℕ, ◌<◌, ◌^◌, [], map, length, IfOk, IfErr, IfSome, OnOk};
ghost use Rattle.std.specs.Io.KnownBytes.{IsAtEnd};
ghost use Rattle.std.specs.List.{All};
ghost use Rattle.diag_run.specs.Devices.{TellsConfig, TellsReads, fault_in};
ghost use Rattle.diag_run.specs.Files.{AreTaken, ConfigEnds, FilesEnd, FilesRead, Gives, SaysSetup, config_of};

use diag_config::{ConfigFault, read_setup};
use diag_setup::Setup;
use diag_text::{ReadFault, RunFault, Source, TakePieces, read_into, read_whole};
use std::alloc::Global;

/// The most bytes of a config.
const CONFIG_LIMIT: usize = 1_048_576;

/// The most bytes of a log.
pub(crate) const LOG_LIMIT: usize = 67_108_864;

/// The setup that the config says, or why there is none: a config that can't be read, which is file 0, one that is too
/// long, the first fault of its text, or want of memory.
///
/// # Errors
/// `Read(0)` exactly where a read failed; `ConfigLong` exactly where more than the limit was read; `Config`; `Memory`.
#[tactic(auto, unfolding(crate::specs::Files::config_of))]
pub fn read_config<R: Source>(alloc: Global, config: &mut R) -> Result<Setup, RunFault>
    ensures read { IfSome (R.remaining config.old) (λ bytes.
        Gives (λ setup. setup) result (config_of bytes)) }
    ensures device { (n : ℕ) → result ≡ Err (RunFault.Read n) → n ≡ 0 }
    ensures end { IfOk result (λ _. IsAtEnd (R.remaining config.new)) }
    ensures says { IfOk result (SaysSetup (R.remaining config.old) (R.remaining config.new)) }
    ensures ends { IfErr result (ConfigEnds (R.remaining config.old) (R.remaining config.new)) }
    ensures tells { TellsConfig R.failed R.sound config.old config.new (fault_in result) }
{
    let text = match read_whole(alloc, config, CONFIG_LIMIT) {
        Ok(text) => text,
        Err(ReadFault::Long) => return Err(RunFault::ConfigLong),
        Err(ReadFault::Memory) => return Err(RunFault::Memory),
        Err(ReadFault::Device) => return Err(RunFault::Read(0)),
    };
    match read_setup(alloc, text.as_slice()) {
        Ok(setup) => Ok(setup),
        Err(ConfigFault::Memory) => Err(RunFault::Memory),
        Err(fault) => Err(RunFault::Config(fault)),
    }
}

/// Reads each file, in order: its taker takes all that it has.
///
/// # Errors
/// `FileLong` where more than the limit was read of a file, `Read` where a read of one failed, and `Memory` where a taker
/// was refused memory.
pub(crate) fn read_each<R: Source, P: TakePieces>(
    files: &mut [R],
    takers: &mut [P],
    limit: usize,
) -> Result<(), RunFault>
    requires limit { limit < 2 ^ 32 }
    requires count { length takers.old ≡ length files.old }
    requires begun { All (λ taker. P.took taker []) takers.old }
    ensures read { OnOk result (FilesRead R.remaining limit files.old files.new (λ texts.
        AreTaken P.took takers.new texts)) }
    ensures aims { OnOk result (map P.aim takers.new ≡ map P.aim takers.old) }
    ensures as_many { length takers.new ≡ length takers.old }
    ensures ends { IfErr result (FilesEnd R.remaining limit files.old files.new) }
    ensures tells { TellsReads R.failed R.sound files.old files.new (fault_in result) }
    ensures memory { result ≡ Err RunFault.Memory → (taker : P) × P.refused taker }
{
    for (index, file) in files.iter_mut().enumerate() {
        match read_into(file, &mut takers[index], limit) {
            Ok(()) => {}
            Err(ReadFault::Long) => return Err(RunFault::FileLong(index + 1)),
            Err(ReadFault::Memory) => return Err(RunFault::Memory),
            Err(ReadFault::Device) => return Err(RunFault::Read(index + 1)),
        }
    }
    Ok(())
}
