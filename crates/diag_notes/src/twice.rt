//! Whether frames are in a recording twice.

/// How many of the last frames may still find their like.
const MOST_OPEN: usize = 8;

/// The fewest pairs that are told.
const LEAST_PAIRS: u64 = 2;

/// How many of ten frames must have their like, at least.
const LEAST_OF_TEN: u64 = 9;

/// A frame as its line tells it.
#[derive(Clone, Copy, PartialEq, Eq)]
pub struct Frame<'a> {
    pub stamp: &'a [u8],
    pub interface: &'a [u8],
    pub id: u32,
    pub is_extended: bool,
    /// What stands behind the identifier and `#`.
    pub bytes: &'a [u8],
}

impl Frame<'_> {
    /// Whether another has the same identifier and bytes, and is of another interface, or of the same moment.
    fn is_like(&self, other: &Frame<'_>) -> bool {
        self.id == other.id
            && self.is_extended == other.is_extended
            && self.bytes == other.bytes
            && (self.interface != other.interface || self.stamp == other.stamp)
    }
}

/// How often a frame found its like among the last ones.
#[derive(Drop)]
pub struct Twice<'a> {
    /// The last frames that are without their like.
    open: [Option<Frame<'a>>; MOST_OPEN],
    /// Which of these is the oldest.
    oldest: usize,
    frames: u64,
    /// The pairs of frames of two interfaces.
    apart: u64,
    /// The pairs of equal lines.
    equal: u64,
}

impl<'a> Twice<'a> {
    /// No frame.
    pub fn new() -> Twice<'a> {
        Twice {
            open: [None; MOST_OPEN],
            oldest: 0,
            frames: 0,
            apart: 0,
            equal: 0,
        }
    }

    /// One frame more.
    pub fn take(&mut self, frame: Frame<'a>) {
        self.frames = self.frames.saturating_add(1);
        match self.taken_like(&frame) {
            Some(like) if like.interface == frame.interface => {
                self.equal = self.equal.saturating_add(1);
            }
            Some(_) => self.apart = self.apart.saturating_add(1),
            None => self.keep(frame),
        }
    }

    /// Takes out the frame that is like this one.
    fn taken_like(&mut self, frame: &Frame<'a>) -> Option<Frame<'a>> {
        for open in self.open.iter_mut() {
            if open.as_ref().is_some_and(|found| found.is_like(frame)) {
                return open.take();
            }
        }
        None
    }

    /// Keeps a frame in place of the oldest.
    fn keep(&mut self, frame: Frame<'a>) {
        let oldest = self.oldest;
        if let Some(open) = self.open.get_mut(oldest) {
            *open = Some(frame);
        }
        self.oldest = oldest.saturating_add(1) % MOST_OPEN;
    }

    /// Whether nine of ten frames have their like, at least, and most in another interface.
    pub fn are_apart(&self) -> bool {
        self.are_pairs() && self.apart >= self.equal
    }

    /// Whether nine of ten frames have their like, at least, and most in an equal line.
    pub fn are_equal(&self) -> bool {
        self.are_pairs() && self.apart < self.equal
    }

    fn are_pairs(&self) -> bool {
        let pairs = self.apart.saturating_add(self.equal);
        let twice = pairs.saturating_mul(2);
        pairs >= LEAST_PAIRS && twice.saturating_mul(10) >= self.frames.saturating_mul(LEAST_OF_TEN)
    }
}
