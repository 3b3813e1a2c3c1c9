//! A bus as it goes: standard input, which a thread of its own reads, the machine's clock, and the record.

use crate::flow_lines::FlowLines;
use crate::last::{Known, LastLines};
use crate::pace::Pace;
use crate::source::{Source, keep};
use crossbeam_channel::{Receiver, RecvTimeoutError, Sender};
use diag_interface::Chosen;
use diag_live::{Bench, Heard};
use diag_setup::Setup;
use std::alloc::{AllocError, Global};
use std::fs::OpenOptions;
use std::io::{Empty, Read, Write};
use std::rt::{Clock, Files};
use std::sync::Wait;
use std::time::{Duration, Instant};
use std::{io, thread};

/// The most bytes of a read.
const PIECE: usize = 65_536;

/// The most pieces that were read and not yet served; the reading thread waits with one more.
pub const PIECES: usize = 16;

/// With more bytes held nothing more is heard.
const MOST_HELD: usize = PIECES * PIECE;

/// Standard input, piece by piece as it is read, and the machine's monotonic clock. A tester's flow control and what comes behind
/// it are held until the clock's next whole millisecond begins, so that its separation times begin there, too.
#[derive(Drop)]
pub struct StandardBench<'a, R> {
    rt: &'a R,
    alloc: Global,
    pieces: Receiver<Heard>,
    start: Instant,
    /// What the machine's clock told last.
    told: Duration,
    pace: Pace,
    flow_lines: FlowLines,
    held: Option<HeldLines>,
    /// How the input ended behind what is held.
    end: Option<Heard>,
    /// The first bytes that were heard.
    first: Vec<u8>,
    /// What was served last.
    last: LastLines,
}

/// Lines that are held until a moment, in milliseconds: flow control, and what came behind it.
#[derive(Drop)]
struct HeldLines {
    until: u64,
    bytes: Vec<u8>,
}

impl<'a, R: Clock> StandardBench<'a, R> {
    /// A bench over these pieces, whose clock starts now, for the testers of a setup.
    ///
    /// # Errors
    /// The clock can't be read, or memory is refused (`OutOfMemory`).
    pub fn start(
        rt: &'a R,
        alloc: Global,
        setup: &Setup,
        pieces: Receiver<Heard>,
    ) -> io::Result<StandardBench<'a, R>> {
        let flow_lines = FlowLines::new(alloc, setup)?;
        let start = Instant::now(rt)?;
        Ok(StandardBench {
            rt,
            alloc,
            pieces,
            start,
            told: Duration::ZERO,
            pace: Pace::new(),
            flow_lines,
            held: None,
            end: None,
            first: Vec::new(alloc),
            last: LastLines::new(alloc),
        })
    }
}

impl<'a, R: Clock> StandardBench<'a, R> {
    /// The first bytes that were heard, and the last that were served.
    pub fn known(&self) -> Known<'_> {
        Known {
            first: self.first.as_slice(),
            last: self.last.last(),
        }
    }

    /// The time since the start; what it told last where the clock can't be read.
    fn elapsed(&mut self) -> Duration {
        if let Ok(elapsed) = self.start.elapsed(self.rt) {
            self.told = elapsed;
        }
        self.told
    }

    /// How long it is until the clock tells this moment.
    fn left(&mut self, until: u64) -> Duration {
        self.pace.time_of(until).saturating_sub(self.elapsed())
    }

    /// Holds the part of a piece that begins with the first flow control in it, if any; the rest is heard at once.
    fn hold_flow(&mut self, mut piece: Vec<u8>) -> Heard {
        let elapsed = self.elapsed();
        let Ok(found) = self.flow_lines.find(piece.as_slice()) else {
            return Heard::Memory;
        };
        let Some(place) = found else {
            return Heard::Piece(piece);
        };
        let Ok(bytes) = Vec::from_slice(self.alloc, &piece[place..]) else {
            return Heard::Memory;
        };
        let until = self.pace.moment(elapsed).saturating_add(1);
        self.held = Some(HeldLines { until, bytes });
        piece.truncate(place);
        Heard::Piece(piece)
    }

    /// Lets go what was held: a block may begin by it.
    fn let_go(&mut self, lines: HeldLines) -> Heard {
        if self.flow_lines.pass(lines.bytes.as_slice()).is_err() {
            return Heard::Memory;
        }
        self.pace.let_begin();
        Heard::Piece(lines.bytes)
    }
}

impl<'a, R: Clock + Wait> StandardBench<'a, R> {
    /// The next piece or the end, or silence once the clock tells this moment; the first bytes are kept.
    fn receive(&mut self, until: u64) -> Heard {
        let heard = self.wait(until);
        if let Heard::Piece(piece) = &heard {
            keep(&mut self.first, piece.as_slice());
        }
        heard
    }

    /// The next piece or the end, or silence once the clock tells this moment.
    fn wait(&mut self, until: u64) -> Heard {
        if until == u64::MAX {
            return self.pieces.recv(self.rt).unwrap_or(Heard::Fault);
        }
        let left = self.left(until);
        match self.pieces.recv_timeout(self.rt, left) {
            Ok(heard) => heard,
            Err(RecvTimeoutError::Timeout) => Heard::Silence,
            Err(RecvTimeoutError::Disconnected) => Heard::Fault,
        }
    }

    /// What comes next, where nothing is held.
    fn hear_next(&mut self, until: u64) -> Heard {
        if let Some(end) = self.end.take() {
            return end;
        }
        match self.receive(until) {
            Heard::Piece(piece) => self.hold_flow(piece),
            heard => heard,
        }
    }

    /// Holds what comes next behind these lines.
    fn hear_behind(&mut self, mut lines: HeldLines, until: u64) -> Heard {
        let until = until.min(lines.until);
        if self.end.is_some() || lines.bytes.len() > MOST_HELD {
            thread::sleep(self.rt, self.left(until));
        } else {
            match self.receive(until) {
                Heard::Silence => {}
                Heard::Piece(piece) => {
                    if lines.bytes.extend_from_slice(piece.as_slice()).is_err() {
                        return Heard::Memory;
                    }
                }
                end => self.end = Some(end),
            }
        }
        self.held = Some(lines);
        Heard::Silence
    }
}

impl<'a, R: Clock + Wait> Bench for StandardBench<'a, R> {
    fn hear(&mut self, until: u64, in_block: bool) -> Heard {
        let elapsed = self.elapsed();
        self.pace.begin(elapsed, until, in_block);
        let heard = match self.held.take() {
            Some(lines) if lines.until <= self.pace.moment(elapsed) => self.let_go(lines),
            Some(lines) => self.hear_behind(lines, until),
            None => self.hear_next(until),
        };
        if let Heard::Piece(piece) = &heard {
            self.last.take(piece.as_slice());
        }
        heard
    }

    fn now(&mut self) -> u64 {
        let elapsed = self.elapsed();
        self.pace.tell(elapsed)
    }
}

/// What a thread reads of standard input, once it may begin.
#[derive(Drop)]
pub struct Hearing {
    /// Tells the thread to begin, and whose frames count.
    pub begin: Sender<Option<Vec<u8>>>,
    /// What it reads.
    pub pieces: Receiver<Heard>,
    /// The first bytes of an input that has ended, those of other interfaces among them.
    pub first: Receiver<Vec<u8>>,
}

impl Hearing {
    /// Lets the thread begin, where only the frames of the interface of this name count, if any is given: the pieces of
    /// what counts, and the first bytes of all.
    ///
    /// # Errors
    /// Memory was refused.
    pub fn begin<R: Wait>(
        self,
        rt: &R,
        alloc: Global,
        interface: Option<&str>,
    ) -> Result<(Receiver<Heard>, Receiver<Vec<u8>>), AllocError> {
        let name = match interface {
            Some(name) => Some(Vec::from_slice(alloc, name.as_bytes())?),
            None => None,
        };
        // Where the thread is gone, so are its pieces, and the run tells of it.
        let _ = self.begin.send(rt, name);
        Ok((self.pieces, self.first))
    }
}

/// Waits until it may begin, reads standard input to its end, and hands over what it reads, until nobody takes it. Its thread is
/// waited for by nobody, for it may stand in a read that never returns: it ends with the program.
pub fn read_all<R: Input + Wait>(
    rt: &R,
    alloc: Global,
    begun: &Receiver<Option<Vec<u8>>>,
    to: &Sender<Heard>,
    first_to: &Sender<Vec<u8>>,
) {
    let Ok(interface) = begun.recv(rt) else {
        return;
    };
    let name = interface.as_ref().map(|name| name.as_slice());
    let mut first = Vec::new(alloc);
    let input: Source<'_, Empty, _> = Source::Standard(rt.reader(), &mut first);
    let end = read_chosen(rt, alloc, input, name, to);
    // Where nobody takes them, or there is no memory, no note tells of them.
    let _ = first_to.send(rt, first);
    let _ = to.send(rt, end);
}

/// Hands over what counts of an input, until nobody takes it, and says how it ended.
fn read_chosen<R: Wait, I: Read + Drop>(
    rt: &R,
    alloc: Global,
    input: I,
    interface: Option<&[u8]>,
    to: &Sender<Heard>,
) -> Heard {
    let Ok(mut input) = Chosen::new(alloc, input, interface) else {
        return Heard::Memory;
    };
    let mut buffer = [0u8; PIECE];
    for _ in rt.forever() {
        let heard = match input.read(&mut buffer) {
            Ok(0) => Heard::End,
            Ok(count) => piece_of(alloc, &buffer[..count]),
            Err(_) => Heard::Fault,
        };
        if !matches!(heard, Heard::Piece(_)) {
            return heard;
        }
        if to.send(rt, heard).is_err() {
            break;
        }
    }
    Heard::Fault
}

/// A piece of these bytes.
fn piece_of(alloc: Global, bytes: &[u8]) -> Heard {
    match Vec::from_slice(alloc, bytes) {
        Ok(piece) => Heard::Piece(piece),
        Err(AllocError) => Heard::Memory,
    }
}

/// Where the capture of a live run is kept: in a file, or nowhere.
#[derive(Drop)]
pub enum Record<F> {
    File(F),
    Nowhere,
}

impl<F> Record<F> {
    /// The record in a new file of this path; nowhere without a path.
    ///
    /// # Errors
    /// `AlreadyExists` where anything is at the path, a link that leads nowhere included; else why it can't be made.
    pub fn create<R: Files<File = F>>(rt: &R, path: Option<&str>) -> io::Result<Record<F>> {
        match path {
            Some(path) => {
                let file = OpenOptions::new()
                    .write(true)
                    .create_new(true)
                    .open(rt, path)?;
                Ok(Record::File(file))
            }
            None => Ok(Record::Nowhere),
        }
    }
}

impl<F: Write> Write for Record<F> {
    fn write(&mut self, buf: &[u8]) -> io::Result<usize> {
        match self {
            Record::File(file) => file.write(buf),
            Record::Nowhere => Ok(buf.len()),
        }
    }

    fn flush(&mut self) -> io::Result<()> {
        match self {
            Record::File(file) => file.flush(),
            Record::Nowhere => Ok(()),
        }
    }
}
