//! Where the testers' lists have frames.

ghost use Rattle.std.specs.Prelude.{◌≡◌, if◌then◌else◌};
ghost use Rattle.diag_bus.specs.Filled.{filled_at};

/// Which of the testers' lists may have frames, so that the others needn't be looked at.
#[derive(Clone, Copy)]
pub enum Filled {
    /// None of them.
    Nowhere,
    /// The one at this index alone.
    At(usize),
    /// Each of them.
    Anywhere,
}

impl Filled {
    /// The same where frames were added to the list at this index, unless it is empty.
    pub(crate) fn after(self, index: usize, is_empty: bool) -> Filled
        ensures { result ≡ (if is_empty then self else filled_at self index) }
    {
        if is_empty {
            return self;
        }
        match self {
            Filled::Nowhere => Filled::At(index),
            Filled::At(other) if other == index => self,
            Filled::At(_) | Filled::Anywhere => Filled::Anywhere,
        }
    }
}
