//! The moment of a stamp.

ghost use Rattle.std.specs.Prelude.{◌≡◌};
ghost use Rattle.diag_can.specs.MomentText.{HasUsualStamp, usual_moment};

use crate::usual::usual_moment;
use std::marker::Model;

/// The moment of a line as its stamp stands there: one of the usual form is weighed where its moment is wanted.
#[derive(Drop)]
pub struct MomentText<'a> {
    /// The line, where its moment isn't read yet.
    line: &'a [u8],
    /// The moment, where it is read.
    read: Option<u64>,
}

impl<'a> Model for MomentText<'a> {
    ghost use Rattle.std.specs.Prelude.{ℕ, ◌≡◌, None, unwrap_or};
    ghost use Rattle.diag_can.specs.MomentText.{HasUsualStamp, usual_moment};

    ghost Value = { ℕ };

    ghost view = { λ m. unwrap_or m.read (usual_moment m.line.now) };

    ghost invariant = { λ m. m.read ≡ None → HasUsualStamp m.line.now };
}

impl<'a> MomentText<'a> {
    /// That of a line whose stamp is of the usual form.
    #[inline(always)]
    pub(crate) fn usual(line: &'a [u8]) -> MomentText<'a>
        requires { HasUsualStamp line.now }
        ensures { result ≡ usual_moment line.now }
    {
        MomentText { line, read: None }
    }

    /// One that is read already.
    pub(crate) fn read(moment: u64) -> MomentText<'a>
        ensures { result ≡ moment }
    {
        MomentText {
            line: &[],
            read: Some(moment),
        }
    }

    /// It in milliseconds.
    #[inline(always)]
    pub fn ms(&self) -> u64
        ensures { result ≡ self.now }
    {
        match self.read {
            Some(moment) => moment,
            None => usual_moment(self.line),
        }
    }
}
