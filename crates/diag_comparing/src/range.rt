//! A range of testers.

ghost use Rattle.std.specs.Prelude.{◌≡◌, ◌<◌, ◌^◌};
ghost use Rattle.diag_comparing.specs.Idle.{IsOutside, IsWider};

/// From a tester on up to one that it hasn't, by their indices.
#[derive(Clone, Copy, Drop)]
pub struct Range {
    /// The first that it has.
    pub first: usize,
    /// The first behind it.
    pub end: usize,
}

impl Range {
    /// One that has none.
    #[inline(always)]
    pub fn none() -> Range
        ensures { result.end ≡ 0 }
    {
        Range {
            first: usize::MAX,
            end: 0,
        }
    }

    /// One that has this tester too.
    #[inline(always)]
    pub fn with(self, index: usize) -> Range
        requires { index < 2 ^ 63 }
        ensures wider { IsWider self result }
        ensures has { IsOutside result index → ⊥ }
    {
        Range {
            first: self.first.min(index),
            end: self.end.max(index + 1),
        }
    }
}
