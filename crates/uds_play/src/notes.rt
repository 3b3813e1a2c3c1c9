//! Notes for people, on standard error, behind the line of a fault and beside a run. They change neither standard output
//! nor the status, and where there is no memory or no file for one, it is left out.

use crate::answer::{Answer, answer_at};
use crate::last::{Known, Last};
use crate::source::MOST_KEPT;
use diag_check::{Remark, check, look_at};
use diag_config::read_setup;
use diag_notes::{
    FoundLine, Instead, Place, Recording, ShownLine, Side, TOO_LONG, beyond, expected, file_kind,
    instead_of_setup, is_recording, line_at, looks,
};
use diag_run::Outcome;
use diag_setup::{RawSetup, RawTester};
use std::alloc::{AllocError, Global};
use std::io::{Error, Read};
use std::rt::Files;
use std::{fs, str};

/// The most bytes of a setup.
const MOST_SETUP: usize = 1_048_576;

/// How many bytes of a recording are looked at when a run is over.
const MOST_LOOK: usize = 1_048_576;

/// The most bytes of a journal.
const MOST_JOURNAL: usize = 268_435_456;

/// How many of a file's first bytes tell what it is.
const MOST_FIRST: usize = 4096;

/// The most faults of a setup that are noted.
const MOST_FAULTS: usize = 10;

/// What is run over which files, and whether a reader wants notes.
#[derive(Drop)]
pub struct Notes<'a> {
    /// Whether they are left out.
    pub quiet: bool,
    /// The name of the interface whose frames count; none is all.
    pub interface: Option<&'a str>,
    /// The path of the setup.
    pub config: &'a str,
    /// The paths of the files behind it; none is standard input. Of a live run it is that of its record.
    pub files: &'a [&'a str],
    /// What the files are.
    pub kind: FileKind,
}

/// What the files behind a setup are.
#[derive(Clone, Copy, PartialEq, Eq)]
pub enum FileKind {
    /// A capture, which has the frames of all testers.
    Capture,
    /// A log of each tester.
    Logs,
    /// A journal.
    Journal,
    /// The record of a live run, whose lines aren't those of its input.
    Record,
}

/// Prints one note.
pub fn note(rt: &impl Eprint, text: &str) {
    let _ = eprintln!(rt; "uds_play: note: {text}");
}

/// Prints each line of clap's text as a note, and what it doesn't say.
pub fn note_usage(rt: &impl Eprint, text: &str, command: &str) {
    for line in text.split('\n') {
        let line = line.trim();
        if !line.is_empty() {
            note(rt, line);
        }
    }
    if let Some(hint) = usage_hint(text, command) {
        note(rt, hint);
    }
}

/// What helps with words that clap refuses, where its text doesn't say it.
fn usage_hint(text: &str, command: &str) -> Option<&'static str> {
    if text.contains("unrecognized subcommand '") {
        return Some(
            "the command stands first: check, bus, verify, compare, live, serial, play or replay",
        );
    }
    if !has_file_more(text) {
        return None;
    }
    match command {
        "live" => Some("live hears standard input: uds_play live CONFIG < CAPTURE"),
        "check" => Some("check takes one setup; a path with a space stands in quotes"),
        _ => Some("it takes one setup and one recording; a path with a space stands in quotes"),
    }
}

/// Whether clap refuses a word more that is no flag.
fn has_file_more(text: &str) -> bool {
    match text.split_once("unexpected argument '") {
        Some((_, word)) => !word.starts_with('-') || word.starts_with("-'"),
        None => false,
    }
}

impl Notes<'_> {
    /// Before a run: the keys of the setup that are passed over.
    pub fn before<R: Eprint + Files + AllocGlobal>(&self, rt: &R) {
        if self.quiet {
            return;
        }
        let Some(text) = self.setup_text(rt) else {
            return;
        };
        if text.len() > MOST_SETUP {
            return;
        }
        if let Ok(report) = look_at(rt.alloc(), text.as_slice()) {
            // Where there is no memory, no note tells of it.
            let _ = self.remarks(rt, report.passed.as_slice());
        }
    }

    /// What is told of the setup, each with its path, for a line alone could be one of a recording.
    fn remarks<R: Eprint + AllocGlobal>(
        &self,
        rt: &R,
        remarks: &[Remark],
    ) -> Result<(), AllocError> {
        let config = self.config;
        for remark in remarks {
            let line = format!(in rt.alloc(); "{config}: {remark}")?;
            note(rt, line.as_str());
        }
        Ok(())
    }

    /// Behind a run: what can be told of its fault, or of what it didn't see. `known` is what is known of standard
    /// input.
    pub fn behind<R: Eprint + Files + AllocGlobal>(
        &self,
        rt: &R,
        outcome: &Outcome,
        known: Known<'_>,
    ) {
        if self.quiet {
            return;
        }
        // Where there is no memory, no note tells of it.
        let _ = match outcome {
            Outcome::Done { status } => self.unseen(rt, *status != 0, known.first),
            Outcome::Fault {
                told: Some(told),
                status,
            } => {
                let told = str::from_utf8(told.as_slice()).unwrap_or("");
                if let Some(limit) = beyond(told) {
                    note(rt, limit);
                }
                match Place::of(told) {
                    Place::Nowhere if *status == 8 => self.unseen(rt, true, known.first),
                    place => self.at_place(rt, place, known),
                }
            }
            Outcome::Fault { told: None, .. } => Ok(()),
        };
    }

    fn at_place<R: Eprint + Files + AllocGlobal>(
        &self,
        rt: &R,
        place: Place,
        known: Known<'_>,
    ) -> Result<(), AllocError> {
        match place {
            Place::Setup => self.faults(rt),
            Place::File(number) => self.unreadable(rt, number),
            Place::Line(file, number) => self.bad_line(rt, file, number, known),
            Place::JournalLine(number) => self.bad_journal_line(rt, number),
            Place::Entry(number) => match self.line(rt, 1, number.saturating_add(1), known)? {
                Some(line) => self.other_entry(rt, number, line.bytes.as_slice()),
                None => Ok(()),
            },
            Place::Files => {
                note(rt, self.files_wanted());
                Ok(())
            }
            Place::Nowhere => Ok(()),
        }
    }

    /// Which files are wanted behind the setup.
    fn files_wanted(&self) -> &'static str {
        match self.kind {
            FileKind::Logs => {
                "serial and play take the log of each [[tester]], in their order; bus takes the recording of the whole bus"
            }
            FileKind::Journal => "replay takes one journal",
            FileKind::Capture | FileKind::Record => "it takes one file",
        }
    }

    /// The text of the setup; of one that is too long one byte more than the most.
    fn setup_text<R: Files + AllocGlobal>(&self, rt: &R) -> Option<Vec<u8>> {
        read_regular(rt, self.config, MOST_SETUP + 1)
    }

    /// All faults of the setup, or the first of many.
    fn faults<R: Eprint + Files + AllocGlobal>(&self, rt: &R) -> Result<(), AllocError> {
        let config = self.config;
        let Some(text) = self.setup_text(rt) else {
            return Ok(());
        };
        if let Some(instead) = instead_of_setup(text.as_slice()) {
            let told = self.order(instead);
            let line = format!(in rt.alloc(); "{config} is a {told}")?;
            note(rt, line.as_str());
            return Ok(());
        }
        if text.len() > MOST_SETUP {
            let line = format!(in rt.alloc(); "{config}: a setup has at most {MOST_SETUP} bytes")?;
            note(rt, line.as_str());
            return Ok(());
        }
        let report = check(rt.alloc(), text.as_slice())?;
        for finding in report.faults.iter().take(MOST_FAULTS) {
            let line = format!(in rt.alloc(); "{config}: {finding}")?;
            note(rt, line.as_str());
        }
        let more = report.faults.len().saturating_sub(MOST_FAULTS);
        if more > 0 {
            let line = format!(in rt.alloc(); "and {more} more: uds_play check tells all")?;
            note(rt, line.as_str());
        }
        Ok(())
    }

    /// What stands in place of the setup, and what helps.
    fn order(&self, instead: Instead) -> &'static str {
        match (instead, self.kind) {
            (Instead::Journal, FileKind::Journal) => {
                "journal: the setup comes first, then the journal"
            }
            (Instead::Journal, _) => "journal: uds_play replay CONFIG JOURNAL takes one",
            (Instead::Recording, FileKind::Journal) => {
                "recording: uds_play bus CONFIG CAPTURE takes one, and replay a journal"
            }
            (Instead::Recording, FileKind::Record) => {
                "recording: live takes the setup, and hears standard input: uds_play live CONFIG < CAPTURE"
            }
            (Instead::Recording, _) => "recording: the setup comes first, then the recording",
        }
    }

    /// Whether what is read is standard input.
    fn is_standard(&self) -> bool {
        self.files.is_empty() || self.kind == FileKind::Record
    }

    fn path(&self, number: usize) -> &str {
        let Some(index) = number.checked_sub(1) else {
            return self.config;
        };
        match self.files.get(index) {
            Some(path) if !self.is_standard() => path,
            _ => "standard input",
        }
    }

    /// The path of a file that can't be read, and the system's reason.
    fn unreadable<R: Eprint + Files + AllocGlobal>(
        &self,
        rt: &R,
        number: usize,
    ) -> Result<(), AllocError> {
        let path = self.path(number);
        let reason = if number > 0 && self.is_standard() {
            input_reason(rt)
        } else {
            reason(rt, path)
        };
        let line = match reason {
            Some(reason) => format!(in rt.alloc(); "{path}: {reason}")?,
            None => String::from_str(rt.alloc(), path)?,
        };
        note(rt, line.as_str());
        Ok(())
    }

    /// The first bytes of a line of a file, where they can still be had.
    fn line<R: Files + AllocGlobal>(
        &self,
        rt: &R,
        file: usize,
        number: u64,
        known: Known<'_>,
    ) -> Result<Option<FoundLine>, AllocError> {
        if self.is_standard() {
            return match known.last {
                Some(last) => last_line(rt.alloc(), last, number),
                None => kept_line(rt.alloc(), known.first, number),
            };
        }
        let path = self.path(file);
        if !is_regular(rt, path) {
            return Ok(None);
        }
        match fs::open(rt, path) {
            Ok(mut file) => line_at(rt.alloc(), &mut file, number),
            Err(_) => Ok(None),
        }
    }

    /// The first bytes of a file; none where they can't be had.
    fn start<R: Files + AllocGlobal>(&self, rt: &R, file: usize, first: &[u8]) -> Vec<u8> {
        let start = if self.is_standard() {
            Vec::from_slice(rt.alloc(), first).ok()
        } else {
            read_regular(rt, self.path(file), MOST_FIRST)
        };
        start.unwrap_or(Vec::new(rt.alloc()))
    }

    /// A line that is at fault, and what it looks like.
    fn bad_line<R: Eprint + Files + AllocGlobal>(
        &self,
        rt: &R,
        file: usize,
        number: u64,
        known: Known<'_>,
    ) -> Result<(), AllocError> {
        let start = self.start(rt, file, known.first);
        if self.other_kind(rt, file, start.as_slice())? {
            return Ok(());
        }
        if let Some(line) = self.line(rt, file, number, known)? {
            self.shown(rt, file, number, line.bytes.as_slice())?;
            let text = if line.is_too_long() && self.kind != FileKind::Logs {
                TOO_LONG
            } else {
                looks(&line, is_recording(start.as_slice()))
            };
            note(rt, text);
        }
        Ok(())
    }

    /// A line of a journal that is at fault, and what was expected.
    fn bad_journal_line<R: Eprint + Files + AllocGlobal>(
        &self,
        rt: &R,
        number: u64,
    ) -> Result<(), AllocError> {
        let start = self.start(rt, 1, &[]);
        if self.other_kind(rt, 1, start.as_slice())? {
            return Ok(());
        }
        match self.line(rt, 1, number, Known::NOTHING)? {
            Some(line) => {
                self.shown(rt, 1, number, line.bytes.as_slice())?;
                note(rt, expected(number, &line));
            }
            None => self.no_line(rt, number, start.as_slice())?,
        }
        Ok(())
    }

    /// Tells that a journal is empty, or its line of this number, where it can be looked at again.
    fn no_line<R: Eprint + Files + AllocGlobal>(
        &self,
        rt: &R,
        number: u64,
        start: &[u8],
    ) -> Result<(), AllocError> {
        let path = self.path(1);
        if start.is_empty() || !is_regular(rt, path) {
            return self.empty(rt, path, start);
        }
        let line = format!(in rt.alloc();
            "line {number} of {path} is empty: each line of a journal is an entry"
        )?;
        note(rt, line.as_str());
        Ok(())
    }

    /// Tells that a file is empty, where it is.
    fn empty<R: Eprint + AllocGlobal>(
        &self,
        rt: &R,
        path: &str,
        text: &[u8],
    ) -> Result<(), AllocError> {
        if text.is_empty() {
            let line = format!(in rt.alloc(); "{path} is empty")?;
            note(rt, line.as_str());
        }
        Ok(())
    }

    /// Tells what a file is whose first bytes are no text, and says whether it is such a one. Its lines tell nothing.
    fn other_kind<R: Eprint + AllocGlobal>(
        &self,
        rt: &R,
        file: usize,
        start: &[u8],
    ) -> Result<bool, AllocError> {
        let Some(kind) = file_kind(start) else {
            return Ok(false);
        };
        let path = self.path(file);
        let line = format!(in rt.alloc(); "{path} is {kind}")?;
        note(rt, line.as_str());
        Ok(true)
    }

    /// An entry that differs, and what the server answers.
    fn other_entry<R: Eprint + Files + AllocGlobal>(
        &self,
        rt: &R,
        number: u64,
        line: &[u8],
    ) -> Result<(), AllocError> {
        let shown = ShownLine(line);
        let line = format!(in rt.alloc(); "entry {number} is: {shown}")?;
        note(rt, line.as_str());
        if let Some(answer) = self.answer(rt, number) {
            let line = format!(in rt.alloc(); "{answer}")?;
            note(rt, line.as_str());
        }
        Ok(())
    }

    /// What the server answers at an entry of the journal, where that can be read again.
    fn answer<R: Files + AllocGlobal>(&self, rt: &R, number: u64) -> Option<Answer> {
        let config = read_regular(rt, self.config, MOST_SETUP)?;
        let setup = read_setup(rt.alloc(), config.as_slice()).ok()?;
        let journal = read_regular(rt, self.path(1), MOST_JOURNAL)?;
        answer_at(rt.alloc(), &setup, journal.as_slice(), number).ok()?
    }

    /// Why there can be no record.
    pub fn no_record<R: Eprint + AllocGlobal>(&self, rt: &R, error: &Error) {
        if self.quiet {
            return;
        }
        if let Some(path) = self.files.first() {
            if let Ok(line) = format!(in rt.alloc(); "{path}: {error}") {
                note(rt, line.as_str());
            }
        }
    }

    /// A line and where it stands.
    fn shown<R: Eprint + AllocGlobal>(
        &self,
        rt: &R,
        file: usize,
        number: u64,
        line: &[u8],
    ) -> Result<(), AllocError> {
        let path = self.path(file);
        let shown = ShownLine(line);
        let line = format!(in rt.alloc(); "line {number} of {path} is: {shown}")?;
        note(rt, line.as_str());
        Ok(())
    }

    /// What a run didn't see in the recordings that can be looked at again, and in standard input where all of it was kept.
    /// With `is_judged` the unit's own frames should be in them.
    fn unseen<R: Eprint + Files + AllocGlobal>(
        &self,
        rt: &R,
        is_judged: bool,
        first: &[u8],
    ) -> Result<(), AllocError> {
        if self.kind == FileKind::Journal {
            return Ok(());
        }
        let Some(config) = read_regular(rt, self.config, MOST_SETUP) else {
            return Ok(());
        };
        let Ok(setup) = read_setup(rt.alloc(), config.as_slice()) else {
            return Ok(());
        };
        let is_one_silent = if self.is_standard() && first.len() < MOST_KEPT {
            self.unseen_in(rt, setup.raw(), 0, is_judged, first)?
        } else {
            self.unseen_in_files(rt, setup.raw(), is_judged)?
        };
        if is_one_silent {
            let report = look_at(rt.alloc(), config.as_slice())?;
            self.remarks(rt, report.odd.as_slice())?;
        }
        Ok(())
    }

    /// What a run didn't see in its files; whether a tester asks nothing in one of them.
    fn unseen_in_files<R: Eprint + Files + AllocGlobal>(
        &self,
        rt: &R,
        setup: &RawSetup,
        is_judged: bool,
    ) -> Result<bool, AllocError> {
        let mut is_one_silent = false;
        for (index, path) in self.files.iter().enumerate() {
            if let Some(text) = read_regular(rt, path, MOST_LOOK) {
                let is_silent = self.unseen_in(rt, setup, index, is_judged, text.as_slice())?;
                is_one_silent = is_one_silent || is_silent;
            }
        }
        Ok(is_one_silent)
    }

    /// What a run didn't see in the text of the file of this index; whether a tester asks nothing in it.
    fn unseen_in<R: Eprint + AllocGlobal>(
        &self,
        rt: &R,
        setup: &RawSetup,
        index: usize,
        is_judged: bool,
        text: &[u8],
    ) -> Result<bool, AllocError> {
        if text.is_empty() {
            self.empty(rt, self.path(index.saturating_add(1)), text)?;
            return Ok(false);
        }
        note_unseen(rt, setup, &self.looked(index, is_judged), text)
    }

    /// What is looked for in the file of this index.
    fn looked(&self, index: usize, is_judged: bool) -> Looked<'_> {
        Looked {
            only: (self.kind == FileKind::Logs).then_some(index),
            interface: self.interface,
            is_judged,
            is_timed: self.kind == FileKind::Capture,
        }
    }
}

/// The line of this number among the first bytes of standard input; where no more were kept it may go on behind them.
fn kept_line(alloc: Global, first: &[u8], number: u64) -> Result<Option<FoundLine>, AllocError> {
    let is_cut = first.len() >= MOST_KEPT;
    let mut first = first;
    let found = line_at(alloc, &mut first, number)?;
    Ok(found.map(|line| FoundLine {
        is_ended: line.is_ended || is_cut,
        ..line
    }))
}

/// The line of this number where it is among the last ones of standard input.
fn last_line(alloc: Global, last: Last<'_>, number: u64) -> Result<Option<FoundLine>, AllocError> {
    let mut bytes = last.bytes;
    match number.checked_sub(last.before) {
        Some(number) if number > 0 => line_at(alloc, &mut bytes, number),
        _ => Ok(None),
    }
}

/// What is looked for in a recording.
#[derive(Clone, Copy)]
struct Looked<'a> {
    /// The place of the tester whose log it is; none is all testers' capture.
    only: Option<usize>,
    /// The interface whose frames count; none is all.
    interface: Option<&'a str>,
    /// Whether the unit's own frames should be there.
    is_judged: bool,
    /// Whether the stamps tell the time.
    is_timed: bool,
}

/// Tells what wasn't seen in the text of a recording: of all testers, or of the one whose log it is. Answers whether one of
/// them asks nothing in it.
fn note_unseen<R: Eprint + AllocGlobal>(
    rt: &R,
    setup: &RawSetup,
    looked: &Looked<'_>,
    text: &[u8],
) -> Result<bool, AllocError> {
    let mut recording = Recording::new(rt.alloc());
    if looked.only.is_none() {
        recording.choose(looked.interface);
    }
    if looked.is_timed {
        recording.time();
    }
    add_sides(&mut recording, setup, looked.only)?;
    recording.look(text)?;
    let part = if text.len() < MOST_LOOK {
        ""
    } else {
        " in the first 1048576 bytes"
    };
    for line in &recording.notes(part, looked.is_judged)? {
        note(rt, line.as_str());
    }
    Ok(recording.is_one_silent())
}

/// Adds the testers that are looked for: all, or the one at a place.
fn add_sides<'a>(
    recording: &mut Recording<'a>,
    setup: &'a RawSetup,
    only: Option<usize>,
) -> Result<(), AllocError> {
    for (index, tester) in setup.testers.as_slice().iter().enumerate() {
        if only.is_none_or(|only| only == index) {
            recording.side(Side {
                name: str::from_utf8(tester.name.as_slice()).unwrap_or(""),
                request: tester.request,
                response: tester.response,
                functional: functional_number(setup, tester),
                extended: tester.extended,
                fd: tester.fd,
            })?;
        }
    }
    Ok(())
}

/// The number of a tester's functional identifier.
fn functional_number(setup: &RawSetup, tester: &RawTester) -> u32 {
    match tester.functional {
        Some(number) => number,
        None if tester.extended => 0x18DB_33F1,
        None => setup.functional,
    }
}

/// The path by which the system knows standard input.
const INPUT: &str = "/dev/stdin";

/// Why standard input can't be read, as far as its file tells.
fn input_reason<R: Files + AllocGlobal>(rt: &R) -> Option<String> {
    if fs::metadata(rt, INPUT).is_err() {
        return String::from_str(rt.alloc(), "it is closed").ok();
    }
    match reason(rt, INPUT) {
        Some(reason) => Some(reason),
        None => String::from_str(rt.alloc(), "is it closed, or not open for reading?").ok(),
    }
}

/// Why a file can't be read.
fn reason<R: Files + AllocGlobal>(rt: &R, path: &str) -> Option<String> {
    let error = match fs::metadata(rt, path) {
        Err(e) => e,
        Ok(found) if found.is_file() || found.is_dir() => match fs::open(rt, path) {
            Err(e) => e,
            Ok(mut file) => match file.read(&mut [0u8; 1]) {
                Err(e) => e,
                Ok(_) => return None,
            },
        },
        Ok(_) => return None,
    };
    format!(in rt.alloc(); "{error}").ok()
}

/// Whether a path names a regular file, which can be read again. A pipe can't, and would wait for another writer.
fn is_regular(rt: &impl Files, path: &str) -> bool {
    match fs::metadata(rt, path) {
        Ok(found) => found.is_file(),
        Err(_) => false,
    }
}

/// The first bytes of a regular file; none where it can't be read.
fn read_regular<R: Files + AllocGlobal>(rt: &R, path: &str, most: usize) -> Option<Vec<u8>> {
    if !is_regular(rt, path) {
        return None;
    }
    let mut file = fs::open(rt, path).ok()?;
    read_first(rt.alloc(), &mut file, most)
}

/// The first bytes of a file, up to so many.
fn read_first(alloc: Global, file: &mut impl Read, most: usize) -> Option<Vec<u8>> {
    let mut text = Vec::new(alloc);
    let mut piece = vec![in alloc; 0u8; 65_536].ok()?;
    for _ in 0..u64::MAX {
        let count = file.read(piece.as_mut_slice()).ok()?;
        let room = most.saturating_sub(text.len()).min(count);
        text.extend_from_slice(&piece.as_slice()[..room]).ok()?;
        if room == 0 {
            break;
        }
    }
    Some(text)
}
