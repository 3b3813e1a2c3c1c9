//! Records beside the journal of the two testers, of whom one writes what the other reads.

use crate::trouble::{Trouble, holds};
use diag_desk::{Journal, read_journal};
use diag_setup::TesterId;
use diag_workers::agree;
use std::alloc::Global;

/// The journal of the two testers, with stamps, and a functional request behind it.
const JOURNAL: &[u8] = b"diag-journal 2
0 1 P 1003 5003003201F4
1 2 T 1
0 1 P 2701 670111223344
2 2 T 1
0 1 P 2702AABBCCDD 6702
3 2 T 1
3 2 P 22F190 62F1905445535456494E30313233343536373839
0 1 P 2EF1904142434445464748494A4B4C4D4E4F5051 6EF190
3 2 P 22F190 62F1904142434445464748494A4B4C4D4E4F5051
3 2 F 3E80 -
";

/// The reader's entries.
const READER: &[u8] = b"diag-journal 1
2 T 1
2 T 1
2 T 1
2 P 22F190 62F1905445535456494E30313233343536373839
2 P 22F190 62F1904142434445464748494A4B4C4D4E4F5051
2 F 3E80 -
";

/// The same with another reply, and with the last left out.
const OTHER_REPLY: &[u8] = b"diag-journal 1
2 T 1
2 T 1
2 T 1
2 P 22F190 62F1905445535456494E30313233343536373839
2 P 22F190 62F1904142434445464748494A4B4C4D4E4F5052
2 F 3E80 -
";

const ONE_LESS: &[u8] = b"diag-journal 1
2 T 1
2 T 1
2 T 1
2 P 22F190 62F1905445535456494E30313233343536373839
2 P 22F190 62F1904142434445464748494A4B4C4D4E4F5051
";

/// A tester's place, a record, and whether it is the journal's entries of that tester.
const RECORDS: [(u8, &[u8], bool); 4] = [
    (2, READER, true),
    (1, READER, false),
    (2, OTHER_REPLY, false),
    (2, ONE_LESS, false),
];

/// Whether a record is the journal's entries of the tester of a place.
fn is_part(alloc: Global, journal: &Journal, place: u8, record: &[u8]) -> Result<bool, Trouble> {
    let who = TesterId::new(place).ok_or(Trouble::Wrong)?;
    let record = read_journal(alloc, record)?;
    Ok(agree(journal, who, &record))
}

/// Whether each record is found to be what it is.
fn are_parts(alloc: Global, journal: &Journal) -> Result<bool, Trouble> {
    for (place, record, wanted) in &RECORDS {
        if is_part(alloc, journal, *place, record)? != *wanted {
            return Ok(false);
        }
    }
    Ok(true)
}

#[test]
fn agree_on_two_testers(rt: HostRuntime) -> Result<(), Trouble> {
    let journal = read_journal(rt.alloc(), JOURNAL)?;
    holds(are_parts(rt.alloc(), &journal))
}
