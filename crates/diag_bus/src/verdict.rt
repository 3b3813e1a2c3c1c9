//! The verdict on a recording: whether the unit in it answered as the server does.

ghost use Rattle.std.specs.Prelude.{◌≡◌, Some, IfOk, option_map};
ghost use Rattle.diag_bus.specs.Comparing.{earlier_of};

use diag_can::KeptBytes;
use diag_setup::TesterId;
use std::alloc::AllocError;
use std::marker::Model;

/// A frame that the recording has of the unit's.
#[derive(Debug, Drop)]
pub struct Recorded {
    /// The number of its line, from 1.
    pub line: u64,
    /// Its bytes.
    pub bytes: KeptBytes,
}

/// A frame of the recording that isn't the one that the server sends at its index.
#[derive(Debug, Drop)]
pub struct Difference {
    /// The number of its line, from 1.
    pub line: u64,
    /// Its bytes.
    pub sent: KeptBytes,
    /// The bytes that the server sends at its index; none where the server sends no more.
    pub expected: Option<KeptBytes>,
}

/// A difference whose bytes are lent.
#[derive(Drop)]
pub(crate) struct LentDifference<'a> {
    pub line: u64,
    pub sent: &'a KeptBytes,
    pub expected: Option<&'a KeptBytes>,
}

impl<'a> Model for LentDifference<'a> {
    ghost use Rattle.std.specs.Prelude.{option_copied};
    ghost use Rattle.diag_bus.specs.declared.verdict.Difference.{Difference};

    ghost Value = { Difference };

    ghost view = { λ d. record { line = d.line; sent = d.sent.now; expected = option_copied d.expected } };
}

/// What is to be said of a recording beside the frames that the server sends.
#[derive(Debug, Drop)]
pub enum Verdict {
    /// Of each tester the recording has just the frames that the server sends.
    Agrees,
    /// The first line that differs, and the tester whose frame it has.
    Differs(TesterId, Difference),
    /// No line differs, but of this tester, the first such, so many frames were recorded where the server sends another.
    Lacks {
        who: TesterId,
        count: u64,
        next: KeptBytes,
    },
}

impl Difference {
    /// The difference, its bytes lent.
    pub(crate) fn lent(&self) -> LentDifference<'_>
        ensures { result ≡ self.now }
    {
        LentDifference {
            line: self.line,
            sent: &self.sent,
            expected: self.expected.as_ref(),
        }
    }
}

impl<'a> LentDifference<'a> {
    /// The difference, where memory isn't refused.
    pub fn copy(&self) -> Result<Difference, AllocError>
        ensures { IfOk result (λ difference. difference ≡ self.now) }
    {
        Ok(Difference {
            line: self.line,
            sent: self.sent.try_copy()?,
            expected: match self.expected {
                Some(bytes) => Some(bytes.try_copy()?),
                None => None,
            },
        })
    }
}

/// The difference of the lesser line, where there is another of this tester.
pub(crate) fn earlier<'a>(
    first: Option<(TesterId, LentDifference<'a>)>,
    who: TesterId,
    other: Option<LentDifference<'a>>,
) -> Option<(TesterId, LentDifference<'a>)>
    ensures { result ≡ earlier_of first.entry (option_map (λ d. (who, d)) other.entry) }
{
    let Some(other) = other else {
        return first;
    };
    match first {
        None => Some((who, other)),
        Some((before, first)) => {
            if other.line < first.line {
                Some((who, other))
            } else {
                Some((before, first))
            }
        }
    }
}
