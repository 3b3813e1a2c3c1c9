//! Sessions by a script: what is written, what the record has, and that the bus draws the same of it.

use super::given::{Comes, Step, serves};
use crate::ending::{End, Trouble, WELL, holds_at};

/// A script, how it ends, the record, and what is written.
struct Session(&'static [Step], End<'static>, &'static str, &'static str);

const BAD_LINE: End<'static> = End {
    line: b"uds_play: capture line 4: bad line\n",
    status: 3,
};

const BAD_TICK: End<'static> = End {
    line: b"uds_play: capture line 1: bad tick\n",
    status: 3,
};

const TOO_MANY: End<'static> = End {
    line: b"uds_play: capture line 2: too many bytes\n",
    status: 3,
};

/// Bytes, or the input's end, each at a moment.
macro_rules! steps {
    ($(($at:literal, $comes:expr)),*) => {
        &[$(Step { at: $at, comes: $comes }),*]
    };
}

const SESSIONS: [Session; 8] = [
    // two testers ask for the extended session, their lines cut into pieces, the last without its end
    Session(
        steps![
            (1000, Comes::Bytes("(1755000000.123456) can0 7E0#02")),
            (1004, Comes::Bytes("1003\n(1755000000.2")),
            (
                1010,
                Comes::Bytes("00000) can0 7E8#065003003201F4CC\r\n\n(9.000000) can0 7E1#021003\n")
            ),
            (1020, Comes::Bytes("(1.000000) can0 7E0#021001\n")),
            (1030, Comes::Bytes("(1.000000) can0 7E1#021003")),
            (1030, Comes::End)
        ],
        WELL,
        "tick 300\ntick 4\n(0.000000) can0 7E0#021003\ntick 6\n(0.000000) can0 7E8#065003003201F4CC\r\n\n(0.000000) can0 7E1#021003\ntick 10\n(0.000000) can0 7E0#021001\ntick 10\n(0.000000) can0 7E1#021003\n",
        "(0000000000.000000) A 7E8#065003003201F4CC
(0000000000.006000) B 7E9#037F1021CCCCCCCC
(0000000000.016000) A 7E8#065001003201F4CC
(0000000000.026000) B 7E9#065003003201F4CC
",
    ),
    // the session ends in a silence of 5000 ms; one millisecond earlier the other tester is refused
    Session(
        steps![
            (700, Comes::Bytes("(1.000000) can0 7E0#021003\n")),
            (5699, Comes::Bytes("(1.000000) can0 7E1#021003\n")),
            (5699, Comes::End)
        ],
        WELL,
        "(0.000000) can0 7E0#021003\ntick 4999\n(0.000000) can0 7E1#021003\n",
        "(0000000000.000000) A 7E8#065003003201F4CC\n(0000000004.999000) B 7E9#037F1021CCCCCCCC\n",
    ),
    Session(
        steps![
            (700, Comes::Bytes("(1.000000) can0 7E0#021003\n")),
            (5700, Comes::Bytes("(1.000000) can0 7E1#021003\n")),
            (5700, Comes::End)
        ],
        WELL,
        "(0.000000) can0 7E0#021003\ntick 5000\n(0.000000) can0 7E1#021003\n",
        "(0000000000.000000) A 7E8#065003003201F4CC\n(0000000005.000000) B 7E9#065003003201F4CC\n",
    ),
    // ConsecutiveFrames go by the separation time that the tester wants, while nothing is heard
    Session(
        steps![
            (700, Comes::Bytes("(1.000000) can0 7E0#0322F190\n")),
            (720, Comes::Bytes("(1.000000) can0 7E0#30000A\n")),
            (60000, Comes::End)
        ],
        WELL,
        "(0.000000) can0 7E0#0322F190\ntick 20\n(0.000000) can0 7E0#30000A\ntick 10\ntick 59270\n",
        "(0000000000.000000) A 7E8#101462F190544553
(0000000000.020000) A 7E8#215456494E303132
(0000000000.030000) A 7E8#2233343536373839
",
    ),
    // a long silence is passed in ticks of at most 60000, and a clock that goes back passes none
    Session(
        steps![
            (120700, Comes::Bytes("tick 5\n(1.000000) can0 7E0#023E00\n")),
            (120710, Comes::Back(3)),
            (120715, Comes::Bytes("(1.000000) can0 7E1#023E00\n")),
            (180720, Comes::End)
        ],
        WELL,
        "tick 60000\ntick 60000\ntick 5\n(0.000000) can0 7E0#023E00\ntick 15\n(0.000000) can0 7E1#023E00\ntick 60000\ntick 5\n",
        "(0000000000.000000) A 7E8#027E00CCCCCCCCCC\n(0000000000.015000) B 7E9#027E00CCCCCCCCCC\n",
    ),
    // a bad line is told by its number in the input, behind the replies to the lines before it, and isn't in the record
    Session(
        steps![
            (700, Comes::Bytes("(1.000000) can0 7E0#023E00\n")),
            (
                800,
                Comes::Bytes("\n(1.000000) can0 7E1#023E00\n(1.0) can0 7E1#023E00\n")
            ),
            (900, Comes::End)
        ],
        BAD_LINE,
        "(0.000000) can0 7E0#023E00\ntick 100\n\n(0.000000) can0 7E1#023E00\n",
        "(0000000000.000000) A 7E8#027E00CCCCCCCCCC\n(0000000000.100000) B 7E9#027E00CCCCCCCCCC\n",
    ),
    Session(
        steps![(800, Comes::Bytes("tick 0")), (900, Comes::End)],
        BAD_TICK,
        "tick 100\ntick 100\n",
        "",
    ),
    Session(
        steps![(
            700,
            Comes::Bytes("tick\n(1.000000) can0 7E0#023E00000000000000\n")
        )],
        TOO_MANY,
        "tick\n",
        "",
    ),
];

#[test]
fn each_session_is_served_and_recorded(rt: HostRuntime) -> Result<(), Trouble> {
    for (place, Session(steps, end, record, text)) in SESSIONS.iter().enumerate() {
        holds_at(place, serves(rt.alloc(), steps, *end, record, text))?;
    }
    Ok(())
}
