//! The versions of a journal's text.

/// The version of a journal's text.
#[derive(Clone, Copy)]
pub enum JournalVersion {
    /// Version 1: a line is an entry.
    Plain,
    /// Version 2: a line is an entry behind its stamp, the ticks of its tester up to and with it.
    Stamped,
}
