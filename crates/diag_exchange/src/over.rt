//! What is over.

ghost use Rattle.std.specs.Prelude.{◌≡◌, true, IfOk, MatchOption};
ghost use Rattle.diag_exchange.specs.Over as over;
ghost use Rattle.diag_exchange.specs.Over.{is_unasked};
ghost use Rattle.diag_exchange.specs.OverKind.{over_of};
ghost use Rattle.diag_exchange.specs.Streaming.{told};

use crate::happening::{AskedRequest, Heard};
use crate::open_box::OpenBox;
use std::alloc::{AllocError, Global};
use std::marker::Model;

/// What is over: an exchange, or a message that no request asked. It stays where it was kept, and moves by a word.
#[derive(Drop)]
pub struct Over {
    kept: Kept,
}

#[derive(Drop)]
enum Kept {
    Asked(OpenBox),
    Unasked(Box<Heard>),
}

/// What is over, lent.
#[derive(Drop)]
pub enum OverKind<'a> {
    /// A request, and what the unit sent to it.
    Exchange {
        /// The request.
        request: &'a AskedRequest,
        /// How many times response pending came.
        pendings: u64,
        /// The message that isn't response pending, where there is one.
        answer: Option<&'a Heard>,
    },
    /// A message that no request asked.
    Unasked(&'a Heard),
}

impl Model for Over {
    ghost use Rattle.diag_exchange.specs.Over.{Over as AnOver};
    ghost use Rattle.diag_exchange.specs.OverKind.{over_in};

    ghost Value = { AnOver };

    ghost view = { λ o. over_in o.kept };
}

impl Over {
    /// An exchange.
    #[inline(always)]
    pub fn exchange(own: OpenBox) -> Over
        ensures { result ≡ told own }
    {
        Over {
            kept: Kept::Asked(own),
        }
    }

    /// A message that no request asked.
    ///
    /// # Errors
    /// `AllocError` where memory is refused.
    #[inline(never)]
    pub fn unasked(alloc: Global, heard: Heard) -> Result<Over, AllocError>
        ensures { IfOk result (λ made. made ≡ over.Unasked heard) }
    {
        match Box::new(alloc, heard) {
            Ok(heard) => Ok(Over {
                kept: Kept::Unasked(heard),
            }),
            Err(_) => Err(AllocError),
        }
    }

    /// The exchange, where it is one.
    #[inline(always)]
    pub fn into_box(self) -> Option<OpenBox>
        ensures { MatchOption result (is_unasked self ≡ true) (λ own. told own ≡ self) }
    {
        match self.kept {
            Kept::Asked(own) => Some(own),
            Kept::Unasked(_) => None,
        }
    }

    /// What it is.
    #[inline(always)]
    pub fn kind(&self) -> OverKind<'_>
        ensures { over_of result ≡ self.now }
    {
        match &self.kept {
            Kept::Asked(open) => {
                let open = open.get();
                OverKind::Exchange {
                    request: &open.request,
                    pendings: open.pendings,
                    answer: open.answer.as_ref(),
                }
            }
            Kept::Unasked(heard) => OverKind::Unasked(heard),
        }
    }
}
