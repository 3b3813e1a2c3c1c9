//! Boxes of exchanges that are over.

ghost use Rattle.std.specs.Prelude.{◌≡◌, ◌⊎◌, ◌<◌, ◌≤◌, ◌+◌, true, false, IfOk};
ghost use Rattle.diag_exchange.specs.Over.{is_unasked};
ghost use Rattle.diag_exchange.specs.Spare.{one_less};
ghost use Rattle.diag_exchange.specs.Streaming.{opened, request_in};

use crate::happening::TakenRequest;
use crate::open_box::OpenBox;
use crate::over::Over;
use std::alloc::{AllocError, Global};
use std::marker::Model;

/// Boxes of exchanges that are over, for those to come. Contracts see how many there are, and not what is in them.
#[derive(Drop)]
pub struct Spare {
    boxes: Vec<OpenBox>,
}

impl Model for Spare {
    ghost use Rattle.std.specs.Prelude.{vec_len, vec_capacity};
    ghost use Rattle.diag_exchange.specs.Spare.{SpareView};

    ghost Value = { SpareView };

    ghost view = { λ s. record { count = vec_len s.boxes; places = vec_capacity s.boxes } };
}

impl Spare {
    /// No boxes, and no places.
    pub fn new(alloc: Global) -> Spare
        ensures { result ≡ record { count = 0; places = 0 } }
    {
        Spare {
            boxes: Vec::new(alloc),
        }
    }

    /// The allocator by which new ones are made.
    #[inline(always)]
    pub fn alloc(&self) -> Global {
        *self.boxes.allocator()
    }

    /// A request of which nothing was heard, in one of the boxes, or where there is none in a new one.
    ///
    /// # Errors
    /// `AllocError` where memory is refused; the box is gone then.
    #[inline(always)]
    pub fn open(&mut self, lent: &TakenRequest<'_>) -> Result<OpenBox, AllocError>
        ensures own { IfOk result (λ own. own ≡ opened (request_in lent.now)) }
        ensures taken { self.new ≡ one_less self.old }
    {
        match self.boxes.pop() {
            Some(mut own) => {
                own.set(lent)?;
                Ok(own)
            }
            None => self.open_new(lent),
        }
    }

    /// The same in a new box.
    #[cold]
    #[inline(never)]
    fn open_new(&self, lent: &TakenRequest<'_>) -> Result<OpenBox, AllocError>
        ensures { IfOk result (λ own. own ≡ opened (request_in lent.now)) }
    {
        OpenBox::new(self.alloc(), lent.try_copy(self.alloc())?)
    }

    /// Takes back the box of an exchange that was told. Where no place is left, and memory is refused for more, the box is let
    /// go.
    pub fn take_back(&mut self, over: Over)
        ensures unasked { is_unasked over ≡ true → self.new ≡ self.old }
        ensures asked { is_unasked over ≡ false → self.old.count < self.old.places → self.new.count ≡ self.old.count + 1 }
        ensures full { (self.new.count ≡ self.old.count) ⊎ (self.new.count ≡ self.old.count + 1) }
        ensures kept { self.old.places ≤ self.new.places }
    {
        if let Some(own) = over.into_box() {
            let _ = self.boxes.push(own);
        }
    }
}
