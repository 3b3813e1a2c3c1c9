//! A play of two readers' logs, in threads.

ghost use Rattle.std.specs.Prelude.{◌≡◌, length};

use crate::trouble::{Trouble, holds};
use crate::workers::given::{
    FIRST_READER, SECOND_READER, has_first_frames, has_second_frames, is_replayed, setup_of_two,
    text_of,
};
use diag_can::Timing;
use diag_setup::Setup;
use diag_workers::{NoWatch, Watch, play};
use diag_world::Played;
use std::alloc::Global;
use std::sync::Wait;
use std::thread::Threads;

/// Whether the play left the readers' frames, five entries, and the first tester in the session.
fn is_readers_play(played: &Played) -> bool {
    let [first, second] = played.sent.as_slice() else {
        return false;
    };
    let is_held = matches!(played.desk.ecu().holder(), Some(who) if who.number() == 1);
    has_first_frames(first)
        && has_second_frames(second)
        && is_held
        && played.desk.journal().len() == 5
}

/// Whether its first two entries are the second tester's.
fn second_begins(played: &Played) -> bool {
    match (played.desk.journal().get(0), played.desk.journal().get(1)) {
        (Some(first), Some(second)) => first.who.number() == 2 && second.who.number() == 2,
        _ => false,
    }
}

/// What a play left: whether that is what it has to leave, and whether the second tester began.
#[derive(Clone, Copy)]
pub(crate) struct Left {
    pub(crate) right: bool,
    pub(crate) second_begins: bool,
}

/// What a play left; its journal replays.
fn left_by(alloc: Global, setup: &Setup, played: &Played) -> Result<Left, Trouble> {
    is_replayed(alloc, setup, played.desk.journal())?;
    Ok(Left {
        right: is_readers_play(played),
        second_begins: second_begins(played),
    })
}

fn play_of<W: Watch + Sync, R: Threads + Wait + Sync>(
    rt: &R,
    alloc: Global,
    setup: &Setup,
    watch: &W,
) -> Result<Left, Trouble>
    requires { length setup.now.testers ≡ 2 }
{
    let texts = [
        text_of(alloc, &FIRST_READER)?,
        text_of(alloc, &SECOND_READER)?,
    ];
    let played = play(rt, alloc, setup, &texts, watch, Timing::Lines)?;
    left_by(alloc, setup, &played)
}

/// Plays the readers' logs; the frames are the same in every legal order, and the journal replays.
pub(crate) fn readers_play<W: Watch + Sync, R: Threads + Wait + Sync>(
    rt: &R,
    alloc: Global,
    watch: &W,
) -> Result<Left, Trouble> {
    let setup = setup_of_two(alloc)?;
    play_of(rt, alloc, &setup, watch)
}

#[test]
fn threaded_play(rt: HostRuntime) -> Result<(), Trouble> {
    let left = readers_play(&rt, rt.alloc(), &NoWatch)?;
    holds(Ok(left.right))
}
