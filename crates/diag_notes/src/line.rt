//! The start of one line of a file.

use std::alloc::{AllocError, Global};
use std::fmt;
use std::io::Read;

/// The most bytes of a line that are kept.
pub const MOST_KEPT: usize = 256;

/// The most bytes that a line of a capture may have, with CR and without LF.
const MOST_LINE: usize = 4096;

/// The most bytes of a line that are told.
const MOST_SHOWN: usize = 60;

/// The most bytes that are told of what is no text.
const MOST_SHOWN_RAW: usize = 8;

/// How many bytes are read at once.
const PIECE: usize = 65_536;

/// The start of a line of a file.
#[derive(Drop)]
pub struct FoundLine {
    /// Its first bytes.
    pub bytes: Vec<u8>,
    /// How many bytes it has without LF, of which no more than 4097 are counted.
    pub length: usize,
    /// Whether it ends by LF, or goes on behind the counted bytes.
    pub is_ended: bool,
}

impl FoundLine {
    /// Whether it has more bytes than a line of a capture may have.
    pub fn is_too_long(&self) -> bool {
        self.length > MOST_LINE
    }
}

/// A line that is looked for as pieces of its file come.
#[derive(Drop)]
struct Search {
    /// How many lines are still before it.
    before: u64,
    line: Vec<u8>,
    /// How many of its bytes were seen.
    length: usize,
    is_over: bool,
}

impl Search {
    fn take(&mut self, piece: &[u8]) -> Result<(), AllocError> {
        for byte in piece {
            if self.is_over {
                return Ok(());
            }
            if self.before > 0 {
                if *byte == b'\n' {
                    self.before -= 1;
                }
            } else {
                self.add(*byte)?;
            }
        }
        Ok(())
    }

    /// The line's next byte, or its end.
    fn add(&mut self, byte: u8) -> Result<(), AllocError> {
        if byte == b'\n' || self.length > MOST_LINE {
            self.is_over = true;
            return Ok(());
        }
        self.length = self.length.saturating_add(1);
        if self.line.len() < MOST_KEPT {
            self.line.push(byte)?;
        }
        Ok(())
    }
}

/// The line of this number, from 1; none where a file can't be read as far, or has no such line.
pub fn line_at<R: Read>(
    alloc: Global,
    file: &mut R,
    number: u64,
) -> Result<Option<FoundLine>, AllocError> {
    let mut search = Search {
        before: number.saturating_sub(1),
        line: Vec::new(alloc),
        length: 0,
        is_over: false,
    };
    let mut piece = vec![in alloc; 0u8; PIECE]?;
    for _ in 0..u64::MAX {
        let Ok(count) = file.read(piece.as_mut_slice()) else {
            break;
        };
        if count == 0 || search.is_over {
            break;
        }
        search.take(&piece.as_slice()[..count])?;
    }
    let is_there = search.before == 0 && !search.line.is_empty();
    Ok(is_there.then_some(FoundLine {
        bytes: search.line,
        length: search.length,
        is_ended: search.is_over,
    }))
}

/// The start of a line as it is told: printable characters of ASCII, and other bytes in hex.
#[derive(Drop)]
pub struct ShownLine<'a>(pub &'a [u8]);

impl fmt::Display for ShownLine<'_> {
    fn fmt<W: fmt::Write>(&self, f: &mut fmt::Formatter<W>) -> fmt::Result {
        let most = if is_text(self.0) {
            MOST_SHOWN
        } else {
            MOST_SHOWN_RAW
        };
        for (index, byte) in self.0.iter().enumerate() {
            if index >= most {
                return write!(f, "..");
            }
            match byte {
                b' '..=b'~' => f.write_char(char::from(*byte))?,
                _ => write!(f, "\\x{byte:02X}")?,
            }
        }
        Ok(())
    }
}

/// Whether at least three of four bytes are printable characters of ASCII, as far as a line is told.
fn is_text(line: &[u8]) -> bool {
    let start = line.iter().take(MOST_SHOWN);
    let printable = start.filter(|c| matches!(c, b' '..=b'~' | b'\t')).count();
    4 * printable >= 3 * line.len().min(MOST_SHOWN)
}
