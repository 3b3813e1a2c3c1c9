//! What the tests run on: a script of what is heard and when, and whether it is served.

use crate::devices::Pipe;
use crate::ending::{End, WELL, is_end};
use diag_bus::Replies;
use diag_live::{Bench, Heard, run_live_and_tell};
use diag_run::run_bus_and_tell;
use diag_stored::CONFIG;
use std::alloc::{AllocError, Global};

/// What comes at a moment of the clock, in milliseconds.
#[derive(Clone, Copy)]
pub struct Step {
    /// The moment.
    pub at: u64,
    /// What comes then.
    pub comes: Comes,
}

/// What comes.
#[derive(Clone, Copy)]
pub enum Comes {
    Bytes(&'static str),
    End,
    Fault,
    /// The clock is set back to this moment.
    Back(u64),
}

/// A bench that plays a script. Its clock goes to the moment that is waited for, or to that of the next step.
#[derive(Drop)]
pub struct Script<'a> {
    /// Where the pieces are made.
    pub alloc: Global,
    /// What is still to come.
    pub steps: &'a [Step],
    /// What the clock tells.
    pub clock: u64,
}

impl Bench for Script<'_> {
    fn hear(&mut self, until: u64, _in_block: bool) -> Heard {
        let Some((step, others)) = self.steps.split_first() else {
            return Heard::End;
        };
        if until < step.at {
            self.clock = until;
            return Heard::Silence;
        }
        self.steps = others;
        self.clock = self.clock.max(step.at);
        match step.comes {
            Comes::Bytes(text) => match Vec::from_slice(self.alloc, text.as_bytes()) {
                Ok(piece) => Heard::Piece(piece),
                Err(_) => Heard::Memory,
            },
            Comes::End => Heard::End,
            Comes::Fault => Heard::Fault,
            Comes::Back(moment) => {
                self.clock = moment;
                Heard::Silence
            }
        }
    }

    fn now(&mut self) -> u64 {
        self.clock
    }
}

/// Whether a script is served so: its end, the record, and what was written.
pub fn serves(
    alloc: Global,
    steps: &[Step],
    end: End<'_>,
    record: &str,
    text: &str,
) -> Result<bool, AllocError> {
    let mut bench = Script {
        alloc,
        steps,
        clock: 700,
    };
    let mut out = Pipe::open(alloc)?;
    let mut noted = Pipe::open(alloc)?;
    let mut config = CONFIG.as_bytes();
    let outcome = run_live_and_tell(alloc, &mut config, &mut bench, &mut out, &mut noted);
    let ended = is_end(&outcome, end);
    let same = ended?
        && noted.taken.as_slice() == record.as_bytes()
        && out.taken.as_slice() == text.as_bytes();
    Ok(same && is_drawn(alloc, noted.taken.as_slice(), text)?)
}

/// Whether the bus draws this text of a record.
fn is_drawn(alloc: Global, record: &[u8], text: &str) -> Result<bool, AllocError> {
    let mut out = Pipe::open(alloc)?;
    let mut config = CONFIG.as_bytes();
    let mut capture = record;
    let sink = Replies::new(alloc);
    let outcome = run_bus_and_tell(alloc, sink, &mut config, &mut capture, &mut out);
    Ok(is_end(&outcome, WELL)? && out.taken.as_slice() == text.as_bytes())
}
