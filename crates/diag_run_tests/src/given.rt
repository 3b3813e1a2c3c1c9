//! The jobs of `run`, what each is given, and what it writes.

use diag_can::Timing;
use diag_run::Job;
use diag_stored::{END, LOG_A, LOG_B, PLAYED};

/// A job, its files behind the config, and the text of its run.
#[derive(Clone, Copy)]
pub struct Given {
    /// The job.
    pub job: Job,
    /// The files.
    pub files: &'static [&'static str],
    /// The text up to the lines that mix.
    pub front: &'static str,
    /// The lines of each of two threads, which mix as the threads go.
    pub mixed: [&'static str; 2],
    /// What stands behind them.
    pub end: &'static str,
}

/// Example two-testers by `serial`, threaded-play by `play`, and the example of a replay.
pub const GIVEN: [Given; 3] = [
    Given {
        job: Job::Serial {
            only_journal: false,
            timing: Timing::Lines,
        },
        files: &[LOG_A, LOG_B],
        front: PLAYED,
        mixed: ["", ""],
        end: END,
    },
    Given {
        job: Job::Play {
            only_journal: false,
            timing: Timing::Lines,
        },
        files: &[READER_A, READER_B],
        front: "\
(0000000000.000000) A 7E8#065003003201F4CC
(0000000000.000000) A 7E8#101462F190544553
(0000000000.000000) A 7E8#215456494E303132
(0000000000.000000) A 7E8#2233343536373839
(0000000000.000000) B 7E9#075902FF0123452F
(0000000000.010000) B 7E9#101462F190544553
diag-journal 1
",
        mixed: [
            "\
1 P 1003 5003003201F4
1 P 22F190 62F1905445535456494E30313233343536373839
",
            "\
2 P 1902FF 5902FF0123452F
2 T 10
2 P 22F190 62F1905445535456494E30313233343536373839
",
        ],
        end: END,
    },
    Given {
        job: Job::Replay,
        files: &["diag-journal 1\n1 P 1083 -\n"],
        front: "entries 1\n",
        mixed: ["", ""],
        end: END,
    },
];

const READER_A: &str = "\
(0000000000.000000) can0 7E0#021003
(0000000000.000000) can0 7E0#0322F190
(0000000000.000000) can0 7E0#300000
";

const READER_B: &str = "\
(0000000000.000000) can0 7E1#031902FF
tick 10
(0000000000.000000) can0 7E1#0322F190
";

impl Given {
    /// How many bytes the text has.
    pub fn len(&self) -> usize {
        let [first, second] = self.mixed;
        let mixed = first.len().saturating_add(second.len());
        self.front
            .len()
            .saturating_add(mixed)
            .saturating_add(self.end.len())
    }

    /// Whether so many bytes of the text were written.
    pub fn is_written(&self, written: &[u8], count: usize) -> bool {
        let (front, rest) = written.split_at(written.len().min(self.front.len()));
        written.len() == count && self.front.as_bytes().starts_with(front) && self.is_mixed(rest)
    }

    /// Whether these bytes are a front of what stands behind the first part of the text.
    fn is_mixed(&self, rest: &[u8]) -> bool {
        let [first, second] = self.mixed;
        let mut left = Left {
            first: first.as_bytes(),
            second: second.as_bytes(),
            end: self.end.as_bytes(),
        };
        for line in rest.split_inclusive(|byte| *byte == b'\n') {
            let Some(others) = left.without(line) else {
                return false;
            };
            left = others;
        }
        true
    }
}

/// What is left of the lines of two threads, and of what stands behind them.
#[derive(Clone, Copy)]
struct Left<'a> {
    first: &'a [u8],
    second: &'a [u8],
    end: &'a [u8],
}

impl<'a> Left<'a> {
    /// The same without a line, or the front of one: the next of a thread, or of the end where both threads' are gone.
    fn without(self, line: &[u8]) -> Option<Left<'a>> {
        if let Some(first) = self.first.strip_prefix(line) {
            return Some(Left { first, ..self });
        }
        if let Some(second) = self.second.strip_prefix(line) {
            return Some(Left { second, ..self });
        }
        if !self.first.is_empty() || !self.second.is_empty() {
            return None;
        }
        let end = self.end.strip_prefix(line)?;
        Some(Left { end, ..self })
    }
}
