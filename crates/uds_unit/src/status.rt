//! What a call answers.

ghost use Rattle.std.specs.Prelude.{◌≡◌};
ghost use Rattle.uds_unit.specs.Calls.{fault_status};

use diag_config::ConfigFault;

/// It was done.
pub const DONE: u32 = 0;
/// The setup is at fault: the status that the program ends with then.
pub const SETUP: u32 = 2;
/// There was no memory: the status that the program ends with then.
pub const MEMORY: u32 = 4;
/// The unit isn't open.
pub const CLOSED: u32 = 16;
/// There is none.
pub const NONE: u32 = 17;
/// It is no frame of classic CAN.
pub const NO_FRAME: u32 = 18;
/// There is no such identifier or DTC.
pub const UNKNOWN: u32 = 19;
/// The value has another length.
pub const LENGTH: u32 = 20;
/// There is too little room.
pub const ROOM: u32 = 21;

/// The status of a setup's fault.
pub fn fault_status(fault: &ConfigFault) -> u32
    ensures { result ≡ fault_status fault.now }
{
    match fault {
        ConfigFault::Memory => MEMORY,
        _ => SETUP,
    }
}
