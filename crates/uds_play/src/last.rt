//! What is known of standard input, which can't be looked at again.

use std::alloc::{AllocError, Global};

/// The most bytes that a line may have had before the last piece: those of the longest, and one.
const MOST_BEFORE: usize = 4097;

/// Its first bytes, and its last ones where they are kept.
#[derive(Clone, Copy)]
pub struct Known<'a> {
    pub first: &'a [u8],
    pub last: Option<Last<'a>>,
}

impl<'a> Known<'a> {
    /// Nothing.
    pub const NOTHING: Known<'static> = Known {
        first: &[],
        last: None,
    };

    /// The first bytes alone.
    pub fn first(first: &'a [u8]) -> Known<'a> {
        Known { first, last: None }
    }
}

/// Last bytes of an input.
#[derive(Clone, Copy)]
pub struct Last<'a> {
    pub bytes: &'a [u8],
    /// How many lines ended before them.
    pub before: u64,
}

/// The last piece of an input, and some bytes before it: the lines that end or begin in the piece.
#[derive(Drop)]
pub struct LastLines {
    alloc: Global,
    bytes: Vec<u8>,
    /// How many lines ended before these bytes.
    before: u64,
    /// Whether there was no memory for them.
    is_lost: bool,
}

impl LastLines {
    /// Those of an input of which nothing came.
    pub fn new(alloc: Global) -> LastLines {
        LastLines {
            alloc,
            bytes: Vec::new(alloc),
            before: 0,
            is_lost: false,
        }
    }

    /// One piece more. Once there is no memory for one, nothing is known of any.
    pub fn take(&mut self, piece: &[u8]) {
        if self.add(piece).is_err() {
            self.is_lost = true;
        }
    }

    fn add(&mut self, piece: &[u8]) -> Result<(), AllocError> {
        let end = self.bytes.len().saturating_sub(MOST_BEFORE);
        let ends = self.bytes.iter().take(end).filter(|c| **c == b'\n').count();
        self.before = self.before.saturating_add(ends as u64);
        let before = self.bytes.as_slice().get(end..).unwrap_or(&[]);
        let mut bytes = Vec::from_slice(self.alloc, before)?;
        bytes.extend_from_slice(piece)?;
        self.bytes = bytes;
        Ok(())
    }

    /// What is kept of it.
    pub fn last(&self) -> Option<Last<'_>> {
        if self.is_lost {
            return None;
        }
        Some(Last {
            bytes: self.bytes.as_slice(),
            before: self.before,
        })
    }
}
