//! Which identifiers a recording has most often.

use std::alloc::{AllocError, Global};

/// The most identifiers that are counted: the first ones of a recording.
const MOST_COUNTED: usize = 64;

/// The most identifiers that are told.
const MOST_TOLD: usize = 4;

/// How many frames an identifier has.
#[derive(Clone, Copy)]
struct Seen {
    id: u32,
    is_extended: bool,
    frames: u64,
}

/// How many frames each of the first identifiers of a recording has.
#[derive(Drop)]
pub struct Often {
    alloc: Global,
    seen: Vec<Seen>,
    /// Whether there are more identifiers than are counted.
    has_more: bool,
}

impl Often {
    /// No frame.
    pub fn new(alloc: Global) -> Often {
        Often {
            alloc,
            seen: Vec::new(alloc),
            has_more: false,
        }
    }

    /// One frame more, with this identifier of 11 or of 29 bits.
    pub fn count(&mut self, id: u32, is_extended: bool) -> Result<(), AllocError> {
        for seen in self.seen.iter_mut() {
            if seen.id == id && seen.is_extended == is_extended {
                seen.frames = seen.frames.saturating_add(1);
                return Ok(());
            }
        }
        if self.seen.len() < MOST_COUNTED {
            self.seen.push(Seen {
                id,
                is_extended,
                frames: 1,
            })?;
        } else {
            self.has_more = true;
        }
        Ok(())
    }

    /// What is told of them, where there is one. `part` is what stands behind where not all was looked at.
    pub fn note(&self, part: &str) -> Result<Option<String>, AllocError> {
        if self.seen.is_empty() {
            return Ok(None);
        }
        let of = if self.has_more {
            "of its first 64 identifiers the recording has most often"
        } else {
            "the recording has most often"
        };
        let mut line = format!(in self.alloc; "{of}{part}")?;
        for (index, seen) in self.most()?.iter().enumerate() {
            let mark = if index == 0 { ":" } else { "," };
            let id = seen.id;
            let digits = if seen.is_extended { 8usize } else { 3 };
            let frames = seen.frames;
            write!(line, "{mark} {id:0digits$X} ({frames})")?;
        }
        Ok(Some(line))
    }

    /// The most frequent ones, these first.
    fn most(&self) -> Result<Vec<Seen>, AllocError> {
        let mut most = Vec::from_slice(self.alloc, self.seen.as_slice())?;
        most.sort_by_key(|seen| u64::MAX - seen.frames)?;
        most.truncate(MOST_TOLD);
        Ok(most)
    }
}
