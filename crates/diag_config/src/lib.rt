//! The setup file: TOML, its keys, and the setup that they make.
#![tactic(auto)]

ghost use Rattle.std.specs.Prelude.{◌≡◌, true, false, Err, IfSome, IfNone};
ghost use Rattle.std.specs.Str.{is_utf8};
ghost use Rattle.toml.specs.Errors.{IsMemory};
ghost use Rattle.diag_setup.specs.Setup.{checked};
ghost use Rattle.diag_config.specs.Fault.{Gives, or_setup_fault};
ghost use Rattle.diag_config.specs.Setup.{raw_setup_of, setup_of};

mod answer;
mod fault;
mod rows;
mod table;
mod value;

use diag_setup::{RawSetup, Setup};
pub use fault::ConfigFault;
use std::alloc::Global;

/// The text whose bytes these are, where they are UTF-8.
fn utf8_text(bytes: &[u8]) -> Option<&str>
    ensures some { IfSome result (λ text. (text.now ≡ bytes.now) × (is_utf8 bytes.now ≡ true)) }
    ensures none { IfNone result (is_utf8 bytes.now ≡ false) }
{
    match std::str::from_utf8(bytes) {
        Ok(text) => Some(text),
        Err(_) => None,
    }
}

/// The fault of a text that `toml` refuses.
fn text_fault(fault: &toml::de::Error) -> ConfigFault
    ensures memory { IsMemory fault.now → result ≡ ConfigFault.Memory }
    ensures syntax { ¬ IsMemory fault.now → result ≡ ConfigFault.Syntax }
{
    if fault.is_memory() {
        ConfigFault::Memory
    } else {
        ConfigFault::Syntax
    }
}

/// The setup that a text says, before its values are checked.
fn read_raw_setup(alloc: Global, bytes: &[u8]) -> Result<RawSetup, ConfigFault>
    ensures gives { Gives result (raw_setup_of bytes.now) }
    ensures first { is_utf8 bytes.now ≡ false → result ≡ Err ConfigFault.Syntax }
{
    let Some(text) = utf8_text(bytes) else {
        return Err(ConfigFault::Syntax);
    };
    let table = match toml::table_from_str(alloc, text) {
        Ok(table) => table,
        Err(fault) => return Err(text_fault(&fault)),
    };
    Ok(rows::setup(alloc, &table)?)
}

/// The setup of these values, where it is well.
fn checked(raw: RawSetup) -> Result<Setup, ConfigFault>
    ensures { result ≡ or_setup_fault (checked raw) }
{
    match raw.check() {
        Ok(setup) => Ok(setup),
        Err(fault) => Err(ConfigFault::Setup(fault)),
    }
}

/// The setup that a file's bytes say: UTF-8, TOML, then the keys in the order of the table, lists row by row, then
/// the setup as a whole. The first fault is the answer; want of memory is answered where it is met, by TOML's reader, and at
/// a key whose value is a text or a list.
#[tactic(auto, unfolding(crate::specs::Setup::setup_of))]
pub fn read_setup(alloc: Global, bytes: &[u8]) -> Result<Setup, ConfigFault>
    ensures gives { Gives result (setup_of bytes.now) }
    ensures first { is_utf8 bytes.now ≡ false → result ≡ Err ConfigFault.Syntax }
{
    checked(read_raw_setup(alloc, bytes)?)
}
