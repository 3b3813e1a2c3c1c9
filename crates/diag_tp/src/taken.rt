//! A frame between the two halves in which a link takes it.

use diag_pdu::Pci;

/// A frame that a link has read and made room for: where its request stands, and what the link has still to do with it.
#[derive(Clone, Copy)]
pub enum Taken<'a> {
    /// A functional SingleFrame, whose request its link has noted. Nothing is left to do.
    Functional,
    /// Any other functional frame. Nothing is left to do.
    Ignored,
    /// A SingleFrame with the tester's own identifier, whose request its link has noted. It ends the reception that is
    /// open.
    Single,
    /// The ConsecutiveFrame that completes a message, which its link has staged. It ends the reception.
    Last,
    /// Any other frame with the tester's own identifier: what it is.
    Other(Pci<'a>),
}
