//! Where the lines come from, and the time.

ghost use Rattle.std.specs.Prelude.{◌≡◌, ◌∷◌, [], ◌++◌, ℕ, List, Option, None};
ghost use Rattle.diag_live.specs.Bench.{Hears};
ghost use Rattle.diag_live.specs.Story.{Asked, Step, Told};

/// What was heard of the input.
#[derive(Debug, Drop)]
pub enum Heard {
    /// These bytes of it came.
    Piece(Vec<u8>),
    /// No byte came until the moment that was named.
    Silence,
    /// It has ended.
    End,
    /// It could not be read.
    Fault,
    /// Memory was refused.
    Memory,
}

/// A place at a bus: candump lines come there, and a clock goes.
pub trait Bench {
    /// The bytes that are still to come, where they are known.
    ghost remaining: { Self → Option (List ℕ) } = { λ _. None };

    /// What it was asked and what it answered, in order. A run over any bench can show what its clock told, and when it could
    /// not hear, by this alone.
    ghost story: { Self → List Step → Type 0 } = { λ _ _. Unit {0} };

    /// What comes next, or silence once the clock tells this moment, in milliseconds; with 2^64 - 1, however long it takes.
    /// While a block is under way, a ConsecutiveFrame may fall due at that moment: the clock is to stop there, and to go on
    /// once the frame was written, so that the next one comes a separation time behind it (ISO 15765-2:2016, 9.6.5.4).
    fn hear(&mut self, until: u64, in_block: bool) -> Heard
        ensures hears { Hears (remaining self.old) (remaining self.new) result }
        ensures story { (past : List Step) → story self.old past
            → story self.new (past ++ Asked until in_block result ∷ []) };

    /// What the clock tells, in milliseconds from some start. Where it goes back, no time passes.
    fn now(&mut self) -> u64
        ensures remaining { remaining self.new ≡ remaining self.old }
        ensures story { (past : List Step) → story self.old past → story self.new (past ++ Told result ∷ []) };
}
