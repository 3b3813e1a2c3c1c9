//! What takes a file as it is read: its bytes piece by piece, or its lines as they come.

ghost use Rattle.std.specs.Prelude.{◌≡◌, ◌++◌, ◌∷◌, [], ℕ, List, IfOk, OnOk};
ghost use Rattle.diag_can.specs.Pieces.{TakesLines};
ghost use Rattle.diag_text.specs.Taking.{LinesTaken};

use diag_can::line_end;
use std::alloc::AllocError;

/// What takes the bytes of a file as they come.
pub trait TakePieces {
    ghost use Rattle.std.specs.Prelude.{ℕ, List, OnErr};

    /// What it takes the bytes for, which stays as it is.
    ghost Aim: { Type 0 };

    ghost aim: { Self → Aim };

    /// It has taken these bytes, in however many pieces.
    ghost took: { Self → List ℕ → Type 0 };

    /// It was refused memory.
    ghost refused: { Self → Type 0 } = { λ _. Unit {0} };

    /// Takes the bytes that follow.
    ///
    /// # Errors
    /// `AllocError` where memory is refused: it can take no more then.
    fn take_piece(&mut self, piece: &[u8]) -> Result<(), AllocError>
        requires { (seen : List ℕ) × took self.old seen }
        ensures took { OnOk result ((seen : List ℕ)
            → took self.old seen
            → took self.new (seen ++ piece.now)) }
        ensures refused { OnErr result (refused self.new) }
        ensures aim { OnOk result (aim self.new ≡ aim self.old) };
}

/// What takes the lines of a file as they come.
pub trait TakeLines {
    ghost use Rattle.std.specs.Prelude.{ℕ, List};

    /// What it takes the lines for, which stays as it is.
    ghost Aim: { Type 0 };

    ghost aim: { Self → Aim };

    /// It has taken these bytes, which are whole lines.
    ghost took: { Self → List ℕ → Type 0 };

    /// Takes the whole lines at the front of what follows, and gives what is begun behind them.
    ///
    /// # Errors
    /// `AllocError` where memory is refused: it can take no more then.
    fn take_lines<'a>(&mut self, text: &'a [u8]) -> Result<&'a [u8], AllocError>
        requires { (seen : List ℕ) × took self.old seen }
        ensures took { IfOk result (λ rest. TakesLines (took self.old) (took self.new)
            text.now rest.now) }
        ensures aim { OnOk result (aim self.new ≡ aim self.old) };
}

/// All the bytes are kept.
impl TakePieces for Vec<u8> {
    ghost use Rattle.std.specs.Prelude.{◌≡◌};

    ghost Aim = { Unit {0} };

    ghost aim = { λ _. tt };

    ghost took = { λ kept seen. kept.items ≡ seen };

    fn take_piece(&mut self, piece: &[u8]) -> Result<(), AllocError> {
        append(self, piece)
    }
}

/// The bytes that are copied at once: so few that a copy moves vectors, and not byte by byte.
const COPIED: usize = 2048;

/// Appends bytes, part by part.
fn append(bytes: &mut Vec<u8>, piece: &[u8]) -> Result<(), AllocError>
    ensures { OnOk result (bytes.new.items ≡ bytes.old.items ++ piece.now) }
{
    let mut done = 0;
    while done < piece.len() {
        let end = done + COPIED.min(piece.len() - done);
        bytes.extend_from_slice(&piece[done..end])?;
        done = end;
    }
    Ok(())
}

/// Takes the bytes of a file for what takes its lines.
#[derive(Drop)]
pub struct LineTaker<L> {
    /// What takes the lines.
    pub lines: L,
    /// The line that is begun at the end of what was taken.
    pub begun: Vec<u8>,
}

impl<L: TakeLines> TakePieces for LineTaker<L> {
    ghost use Rattle.diag_text.specs.Taking.{LinesTaken};

    ghost Aim = { L.Aim };

    ghost aim = { λ taker. L.aim taker.lines };

    ghost took = { λ taker seen. LinesTaken (L.took taker.lines) taker.begun.items seen };

    fn take_piece(&mut self, piece: &[u8]) -> Result<(), AllocError> {
        if self.begun.is_empty() {
            return self.take_text(piece);
        }
        let Some(end) = line_end(piece) else {
            return self.begun.extend_from_slice(piece);
        };
        self.end_line(&piece[..end + 1])?;
        self.take_text(&piece[end + 1..])
    }
}

impl<L: TakeLines> LineTaker<L> {
    /// Takes a text where no line is begun.
    fn take_text(&mut self, text: &[u8]) -> Result<(), AllocError>
        requires none { self.old.begun.items ≡ [] }
        requires taken { (seen : List ℕ) × L.took self.old.lines seen }
        ensures took { OnOk result ((seen : List ℕ)
            → L.took self.old.lines seen
            → LinesTaken (L.took self.new.lines) self.new.begun.items (seen ++ text.now)) }
        ensures aim { OnOk result (L.aim self.new.lines ≡ L.aim self.old.lines) }
    {
        let begun = self.lines.take_lines(text)?;
        self.begun.extend_from_slice(begun)
    }

    /// Takes the line that is begun, which these bytes end.
    #[inline(never)]
    fn end_line(&mut self, bytes: &[u8]) -> Result<(), AllocError>
        requires ended { (line : List ℕ) × (bytes.now ≡ line ++ 10 ∷ []) }
        requires taken { (seen : List ℕ) × L.took self.old.lines seen }
        ensures none { OnOk result (self.new.begun.items ≡ []) }
        ensures taken { OnOk result ((seen : List ℕ)
            → L.took self.old.lines seen
            → L.took self.new.lines (seen ++ (self.old.begun.items ++ bytes.now))) }
        ensures aim { OnOk result (L.aim self.new.lines ≡ L.aim self.old.lines) }
    {
        self.begun.extend_from_slice(bytes)?;
        self.lines.take_lines(self.begun.as_slice())?;
        self.begun.clear();
        Ok(())
    }
}
