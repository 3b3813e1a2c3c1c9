//! The run of `uds_play` without words, which the suites play too: a setup of two testers, a log of each, and what a
//! serial play of them writes. A unlocks the level and writes the identifier, which B reads before and after.
#![tactic(auto)]

mod setup;

pub use setup::{raw_two_testers, two_testers};

/// The setup file: two testers, an identifier that a level guards, a DTC and a routine that gives it.
pub const CONFIG: &str = "\
delay_ms = 2000

[[tester]]
name = \"A\"
request = 0x7E0
response = 0x7E8

[[tester]]
name = \"B\"
request = 0x7E1
response = 0x7E9

[[did]]
id = 0xF190
value = \"5445535456494E30313233343536373839\"
write = true
write_level = 1

[[code]]
code = 0x012345
status = 0x2F

[[routine]]
id = 0x0203
time_ms = 100
result = \"01\"
code = 0x012345
status = 0x2F

[[level]]
sub = 1

[[level.row]]
seed = \"11223344\"
key = \"AABBCCDD\"

[[level.row]]
seed = \"55667788\"
key = \"01020304\"
";

/// The log of A.
pub const LOG_A: &str = "\
(0000000000.000000) can0 7E0#021003
(0000000000.000000) can0 7E0#022701
(0000000000.000000) can0 7E0#062702AABBCCDD
(0000000000.000000) can0 7E0#10142EF190414243
(0000000000.000000) can0 7E0#214445464748494A
(0000000000.000000) can0 7E0#224B4C4D4E4F5051
";

/// The log of B.
pub const LOG_B: &str = "\
tick
tick
tick
(0000000000.000000) can0 7E1#0322F190
(0000000000.000000) can0 7E1#300000
(0000000000.000000) can0 7E1#0322F190
(0000000000.000000) can0 7E1#300000
";

/// The reply lines of A and of B, and the journal, as a serial play writes them.
pub const PLAYED: &str = "\
(0000000000.000000) A 7E8#065003003201F4CC
(0000000000.000000) A 7E8#06670111223344CC
(0000000000.000000) A 7E8#026702CCCCCCCCCC
(0000000000.000000) A 7E8#300000CCCCCCCCCC
(0000000000.000000) A 7E8#036EF190CCCCCCCC
(0000000000.003000) B 7E9#101462F190544553
(0000000000.003000) B 7E9#215456494E303132
(0000000000.003000) B 7E9#2233343536373839
(0000000000.003000) B 7E9#101462F190414243
(0000000000.003000) B 7E9#214445464748494A
(0000000000.003000) B 7E9#224B4C4D4E4F5051
diag-journal 1
1 P 1003 5003003201F4
2 T 1
1 P 2701 670111223344
2 T 1
1 P 2702AABBCCDD 6702
2 T 1
2 P 22F190 62F1905445535456494E30313233343536373839
1 P 2EF1904142434445464748494A4B4C4D4E4F5051 6EF190
2 P 22F190 62F1904142434445464748494A4B4C4D4E4F5051
";

/// What is written behind the journal: the end of the run.
pub const END: &str = "\
session extended
holder A
code 012345 2F
";
