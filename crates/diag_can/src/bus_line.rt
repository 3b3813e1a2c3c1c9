//! The lines of a capture of a whole bus.

ghost use Rattle.std.specs.Prelude.{◌≡◌};
ghost use Rattle.diag_can.specs.BusLine.{bus_line};

use crate::fault::LineFault;
use crate::frame::{KnownId, TickCount};
use crate::frame_text::FrameText;
use crate::log::without_return;
use crate::moment_text::MomentText;
use crate::read::line_says;

/// What a line of a log or of a capture says, whoever it is meant for.
#[derive(Drop)]
pub enum BusLine<'a> {
    /// Nothing.
    Empty,
    /// That many milliseconds pass.
    Ticks(TickCount),
    /// A frame was seen at this moment, in milliseconds; where it is a data frame that is read, this one.
    Stamped {
        moment: MomentText<'a>,
        frame: Option<FrameText<'a>>,
    },
}

/// The most bytes of a line of a capture, its LF not counted.
pub const LONGEST_LINE: usize = 4096;

/// What a whole line of a capture says, from its bytes without LF, or how it is at fault: too long, or in none of the
/// forms of a line. These identifiers are read, beside all of 11 bits in classic frames.
pub fn read_bus_line<'a>(known: &[KnownId], piece: &'a [u8]) -> Result<BusLine<'a>, LineFault>
    ensures { result ≡ bus_line known.now piece.now }
{
    if piece.len() > LONGEST_LINE {
        return Err(LineFault::BadLine);
    }
    line_says(known, without_return(piece))
}
