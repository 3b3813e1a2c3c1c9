//! A reader of a recording of which one interface may be chosen.

ghost use Rattle.std.specs.Prelude.{◌≡◌, IfOk, IfSome, None, option_map};
ghost use Rattle.diag_interface.specs.Chosen.{chosen_left};
ghost use Rattle.diag_interface.specs.Interface.{only_text};

use crate::only::OnlyInterface;
use std::alloc::{AllocError, Global};
use std::io;
use std::io::Read;

/// A recording as it is, or what counts of it where one interface is chosen.
#[derive(Drop)]
pub enum Chosen<R> {
    Whole(R),
    Only(OnlyInterface<R>),
}

impl<R: Read + Drop> Chosen<R> {
    /// What this reader has, where only the frames of the interface of this name count, if any is given.
    ///
    /// # Errors
    /// Memory was refused; the reader is let go.
    pub fn new(alloc: Global, reader: R, interface: Option<&[u8]>) -> Result<Chosen<R>, AllocError>
        ensures whole { interface.entry ≡ None → IfOk result (λ chosen. chosen_left R.remaining chosen ≡ R.remaining reader) }
        ensures only { IfSome interface.entry (λ name. IfOk result (λ chosen.
            chosen_left R.remaining chosen ≡ option_map (only_text name.now) (R.remaining reader))) }
    {
        match interface {
            None => Ok(Chosen::Whole(reader)),
            Some(name) => {
                let only = OnlyInterface::new(alloc, reader, name)?;
                Ok(Chosen::Only(only))
            }
        }
    }
}

impl<R: Read> Read for Chosen<R> {
    ghost use Rattle.diag_interface.specs.Chosen.{chosen_left};

    ghost remaining = { chosen_left R.remaining };

    fn read(&mut self, buf: &mut [u8]) -> io::Result<usize> {
        match self {
            Chosen::Whole(reader) => reader.read(buf),
            Chosen::Only(only) => only.read(buf),
        }
    }
}
