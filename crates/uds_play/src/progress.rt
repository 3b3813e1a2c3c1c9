//! How far the reading of a file is, on one line of a terminal.

use memchr::memchr_iter;
use std::rt::Clock;
use std::sync::atomic::{AtomicU64, Ordering};
use std::thread;
use std::time::{Duration, Instant};

/// How long nothing is shown, and then how long a line stands, in milliseconds.
const FIRST: u64 = 1000;

const NEXT: u64 = 250;

/// How long a turn of the thread sleeps, by which a run may end later, in milliseconds.
const TURN: u64 = 10;

/// What was read of a file so far.
#[derive(Drop)]
pub struct Progress {
    bytes: AtomicU64,
    lines: AtomicU64,
    /// 1 once nothing more is to be shown.
    over: AtomicU64,
    /// 1 while a line may stand on the terminal.
    line: AtomicU64,
}

impl Progress {
    /// Nothing was read.
    pub fn new() -> Progress {
        Progress {
            bytes: AtomicU64::new(0),
            lines: AtomicU64::new(0),
            over: AtomicU64::new(0),
            line: AtomicU64::new(0),
        }
    }

    /// These bytes were read.
    pub fn add(&self, piece: &[u8]) {
        let lines = memchr_iter(b'\n', piece).count();
        self.bytes.fetch_add(piece.len() as u64, Ordering::SeqCst);
        self.lines.fetch_add(lines as u64, Ordering::SeqCst);
    }

    /// Nothing more is to be shown.
    pub fn end(&self) {
        self.over.store(1, Ordering::SeqCst);
    }

    /// The file was read to its end. Returns once no line stands, so that what is written next stands by itself.
    pub fn leave(&self) {
        self.end();
        for _ in 0..u64::MAX {
            if self.line.load(Ordering::SeqCst) == 0 {
                return;
            }
            thread::yield_now();
        }
    }

    fn is_over(&self) -> bool {
        self.over.load(Ordering::SeqCst) != 0
    }

    /// Shows how far it is with a file of this size, from the first second on, and takes it away at the end.
    pub fn show(&self, rt: &(impl Eprint + Clock), size: u64) {
        let Ok(start) = Instant::now(rt) else {
            return;
        };
        let first = Duration::from_millis(FIRST);
        let mut due = first;
        for _ in 0..u64::MAX {
            if self.is_over() {
                break;
            }
            thread::sleep(rt, Duration::from_millis(TURN));
            let Ok(elapsed) = start.elapsed(rt) else {
                break;
            };
            if elapsed >= due {
                self.show_line(rt, size, elapsed);
                due = elapsed.saturating_add(Duration::from_millis(NEXT));
            }
        }
        if due > first {
            let _ = rt.eprint("\r\u{1b}[K");
        }
        self.line.store(0, Ordering::SeqCst);
    }

    /// Shows the line, unless nothing more is to be shown. (It says first that a line may stand: who ends it waits then.)
    fn show_line(&self, rt: &impl Eprint, size: u64, elapsed: Duration) {
        self.line.store(1, Ordering::SeqCst);
        if self.is_over() {
            return;
        }
        let bytes = self.bytes.load(Ordering::SeqCst);
        let lines = self.lines.load(Ordering::SeqCst);
        let millis = u64::try_from(elapsed.as_millis())
            .unwrap_or(u64::MAX)
            .max(1);
        let pace = lines.saturating_mul(1000) / millis;
        let _ = eprint!(rt; "\r{bytes} of {size} bytes, {pace} lines a second\u{1b}[K");
    }
}
