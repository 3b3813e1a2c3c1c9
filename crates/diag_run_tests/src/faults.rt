//! Faults that no run of the program brings about, and want of memory: the text and the status of each.

use crate::ending::Trouble;
use diag_bus::BusFault;
use diag_can::LogFault;
use diag_config::ConfigFault;
use diag_setup::TesterId;
use diag_text::{RunFault, fault_text, status};
use std::alloc::{AllocError, Global};

/// Whether a fault has this line on standard error and this status.
fn is_told(alloc: Global, fault: &RunFault, line: &[u8], number: u8) -> Result<bool, AllocError> {
    let text = fault_text(alloc, fault)?;
    Ok(text.as_slice() == line && status(fault) == number)
}

/// The faults, with tester 2 where one is named.
fn faults(who: TesterId) -> [(RunFault, &'static [u8], u8); 5] {
    [
        (
            RunFault::Capture(5, BusFault::Late),
            b"uds_play: capture line 5: too late\n",
            3,
        ),
        (
            RunFault::RecordsDisagree(who),
            b"uds_play: records of 2 disagree\n",
            6,
        ),
        (
            RunFault::Config(ConfigFault::Memory),
            b"uds_play: memory\n",
            4,
        ),
        (
            RunFault::Log(who, LogFault::Memory),
            b"uds_play: memory\n",
            4,
        ),
        (RunFault::Memory, b"uds_play: memory\n", 4),
    ]
}

#[test]
fn faults_are_told(rt: HostRuntime) -> Result<(), Trouble> {
    let Some(who) = TesterId::new(2) else {
        return Err(Trouble::Wrong);
    };
    for (place, (fault, line, number)) in faults(who).iter().enumerate() {
        if !is_told(rt.alloc(), fault, line, *number)? {
            return Err(Trouble::WrongAt(place));
        }
    }
    Ok(())
}
