//! Whose frames are in a recording, as far as it is looked at.

use crate::line::ShownLine;
use crate::often::Often;
use crate::stamps::{Stamps, parted};
use crate::twice::{Frame, Twice};
use memchr::memchr_iter;
use std::alloc::{AllocError, Global};
use std::str;

/// A tester, by its name and the numbers of its identifiers.
#[derive(Drop)]
pub struct Side<'a> {
    pub name: &'a str,
    pub request: u32,
    pub response: u32,
    pub functional: u32,
    /// Whether they have 29 bits.
    pub extended: bool,
    /// Whether it talks by CAN FD; its classic frames are read, too.
    pub fd: bool,
}

impl Side<'_> {
    fn has(&self, number: u32) -> bool {
        number == self.request || number == self.response || number == self.functional
    }

    /// Whether a frame with one of its numbers is read.
    fn reads(&self, line: &Line<'_>) -> bool {
        self.extended == line.is_extended && (self.fd || !line.is_flexible)
    }

    /// How many hex digits its identifiers have.
    fn digits(&self) -> usize {
        if self.extended { 8 } else { 3 }
    }
}

/// A frame's line.
#[derive(Drop)]
struct Line<'a> {
    stamp: &'a [u8],
    interface: &'a [u8],
    id: u32,
    is_extended: bool,
    is_flexible: bool,
    /// What stands behind the identifier and `#`.
    rest: &'a [u8],
}

impl<'a> Line<'a> {
    /// What is told of it apart from what stands behind its bytes.
    fn frame(&self) -> Frame<'a> {
        Frame {
            stamp: self.stamp,
            interface: self.interface,
            id: self.id,
            is_extended: self.is_extended,
            bytes: before_space(self.rest),
        }
    }

    /// The digits of its bytes, and what stands behind them; of CAN FD another `#` and the flags stand before them.
    fn digits(&self) -> &[u8] {
        match self.rest {
            [b'#', _, digits @ ..] => digits,
            rest => rest,
        }
    }

    /// Whether the frame may be the first of a message (ISO 15765-2:2016, 9.6): a SingleFrame, of more than eight bytes with
    /// its length behind 00, or a FirstFrame, which has eight bytes or more.
    fn begins(&self) -> bool {
        let digits = self.digits();
        match digits {
            [b'0', b'1'..=b'7', ..] => true,
            [b'0', b'0', ..] => self.is_flexible && digits.len() > 16,
            [b'1', ..] => digits.len() >= 16,
            _ => false,
        }
    }

    /// Whether it is the first frame of an answer, or else of a request: an answer's first byte has its bit 6 set (ISO
    /// 14229-1:2013, table 2).
    fn begins_answer(&self) -> Option<bool> {
        let first = match self.digits() {
            [b'0', b'0', _, _, first, ..] | [b'1', _, _, _, first, ..] => first,
            [b'0', _, first, ..] => first,
            _ => return None,
        };
        let digit = char::from(*first).to_digit(16)?;
        self.begins().then_some(digit & 4 != 0)
    }

    /// Whether it is a remote frame, which has no bytes.
    fn is_remote(&self) -> bool {
        self.rest.starts_with(b"R")
    }

    /// Whether more bytes stand behind a space, where they aren't read.
    fn is_spaced(&self) -> bool {
        match parted(self.rest, b' ') {
            Some((_, [first, second] | [first, second, b' ' | b'\r', ..])) => {
                first.is_ascii_hexdigit() && second.is_ascii_hexdigit()
            }
            _ => false,
        }
    }
}

/// How many frames of a tester were seen.
#[derive(Clone, Copy)]
struct Frames {
    /// All of them, the unit's own to it among them.
    all: u64,
    /// With the identifier of its requests.
    requests: u64,
    /// Those of the tester's own, functional ones among them, that are the first of messages.
    begins: u64,
    /// Those of the tester's own, functional ones among them, that aren't remote frames.
    data: u64,
    /// With the identifier of the unit's answers.
    responses: u64,
    /// With the identifier of requests: those that begin answers.
    answers: u64,
    /// With the identifier of requests: those that begin requests.
    asks: u64,
    /// With the identifier of the unit's answers: those that begin requests.
    asks_back: u64,
}

impl Frames {
    const NONE: Frames = Frames {
        all: 0,
        requests: 0,
        begins: 0,
        data: 0,
        responses: 0,
        answers: 0,
        asks: 0,
        asks_back: 0,
    };

    fn count(&mut self, side: &Side<'_>, line: &Line<'_>) {
        self.tell_apart(side, line);
        self.all = self.all.saturating_add(1);
        if line.id == side.response {
            self.responses = self.responses.saturating_add(1);
        }
        if line.id == side.request {
            self.requests = self.requests.saturating_add(1);
        }
        if line.id != side.response {
            self.begins = self.begins.saturating_add(u64::from(line.begins()));
            self.data = self.data.saturating_add(u64::from(!line.is_remote()));
        }
    }

    /// Counts requests and answers.
    fn tell_apart(&mut self, side: &Side<'_>, line: &Line<'_>) {
        let count = match line.begins_answer() {
            Some(true) if line.id == side.request => &mut self.answers,
            Some(false) if line.id == side.request => &mut self.asks,
            Some(false) if line.id == side.response => &mut self.asks_back,
            _ => return,
        };
        *count = count.saturating_add(1);
    }

    /// Whether the tester's frames answer, and the unit's ask.
    fn are_exchanged(&self) -> bool {
        self.answers > 0 && self.asks == 0 && self.asks_back > 0
    }
}

/// How many data frames an interface has.
#[derive(Drop)]
struct Interface<'a> {
    name: &'a [u8],
    frames: u64,
}

/// What was seen of a recording.
#[derive(Drop)]
pub struct Recording<'a> {
    alloc: Global,
    /// The testers, and how many frames of each were seen.
    sides: Vec<(Side<'a>, Frames)>,
    /// Whether a frame of a tester was seen.
    is_heard: bool,
    /// The identifiers before the first frame of a tester.
    often: Often,
    standard: u64,
    extended: u64,
    flexible: u64,
    /// How many of the testers' frames have more bytes behind a space.
    spaced: u64,
    interfaces: Vec<Interface<'a>>,
    choice: Choice<'a>,
    /// Whether its testers' frames are there twice.
    twice: Twice<'a>,
    /// What its stamps tell.
    stamps: Stamps<'a>,
    /// Whether its run takes the time of the stamps.
    is_timed: bool,
}

/// Whose frames count, as far as its run has a choice.
#[derive(Clone, Copy)]
enum Choice<'a> {
    /// There is none: those of all interfaces.
    None,
    /// Those of all interfaces.
    All,
    /// Those of the interface of this name.
    Only(&'a str),
}

impl Choice<'_> {
    /// Whether the frames of this interface count.
    fn counts(self, interface: &[u8]) -> bool {
        match self {
            Choice::Only(name) => name.as_bytes() == interface,
            Choice::All | Choice::None => true,
        }
    }

    /// Whether this interface was chosen.
    fn is_only(self, interface: &[u8]) -> bool {
        match self {
            Choice::Only(name) => name.as_bytes() == interface,
            Choice::All | Choice::None => false,
        }
    }
}

/// The most names of interfaces that are told.
const MOST_INTERFACES: usize = 8;

impl<'a> Recording<'a> {
    /// A recording of no testers of which nothing was seen.
    pub fn new(alloc: Global) -> Recording<'a> {
        Recording {
            alloc,
            sides: Vec::new(alloc),
            is_heard: false,
            often: Often::new(alloc),
            standard: 0,
            extended: 0,
            flexible: 0,
            spaced: 0,
            interfaces: Vec::new(alloc),
            choice: Choice::None,
            twice: Twice::new(),
            stamps: Stamps::new(),
            is_timed: false,
        }
    }

    /// Its run takes the time of the stamps.
    pub fn time(&mut self) {
        self.is_timed = true;
    }

    /// Its run can take the frames of one interface alone: of this one, if any is given.
    pub fn choose(&mut self, interface: Option<&'a str>) {
        self.choice = match interface {
            Some(name) => Choice::Only(name),
            None => Choice::All,
        };
    }

    /// One tester more.
    pub fn side(&mut self, side: Side<'a>) -> Result<(), AllocError> {
        self.sides.push((side, Frames::NONE))?;
        Ok(())
    }

    /// Looks at a text.
    pub fn look(&mut self, text: &'a [u8]) -> Result<(), AllocError> {
        let mut start = 0;
        for end in memchr_iter(b'\n', text) {
            self.look_at(text.get(start..end))?;
            start = end.saturating_add(1);
        }
        self.look_at(text.get(start..))
    }

    /// Looks at a line, if there is one.
    fn look_at(&mut self, line: Option<&'a [u8]>) -> Result<(), AllocError> {
        let line = line.unwrap_or(b"");
        self.stamps.take(line);
        match read_line(line) {
            Some(line) => self.count(&line),
            None => Ok(()),
        }
    }

    fn count(&mut self, line: &Line<'a>) -> Result<(), AllocError> {
        self.interface(line.interface, u64::from(!line.is_remote()))?;
        if self.choice.counts(line.interface) {
            return self.count_frame(line);
        }
        Ok(())
    }

    fn count_frame(&mut self, line: &Line<'a>) -> Result<(), AllocError> {
        let mut is_named = false;
        let mut is_heard = false;
        for (side, frames) in self.sides.iter_mut() {
            if side.has(line.id) {
                is_named = true;
                if side.reads(line) {
                    is_heard = true;
                    frames.count(side, line);
                }
            }
        }
        self.is_heard = self.is_heard || is_heard;
        if !self.is_heard {
            self.often.count(line.id, line.is_extended)?;
        }
        if is_named && !is_heard {
            self.pass(line);
        }
        if is_heard {
            self.twice.take(line.frame());
        }
        if is_heard && line.is_spaced() {
            self.spaced = self.spaced.saturating_add(1);
        }
        Ok(())
    }

    /// Counts a frame with a tester's number that is none of its frames.
    fn pass(&mut self, line: &Line<'_>) {
        if line.is_flexible {
            self.flexible = self.flexible.saturating_add(1);
        } else if line.is_extended {
            self.extended = self.extended.saturating_add(1);
        } else {
            self.standard = self.standard.saturating_add(1);
        }
    }

    /// So many data frames more of the interface of this name.
    fn interface(&mut self, name: &'a [u8], frames: u64) -> Result<(), AllocError> {
        for interface in self.interfaces.iter_mut() {
            if interface.name == name {
                interface.frames = interface.frames.saturating_add(frames);
                return Ok(());
            }
        }
        let is_chosen = self.choice.is_only(name);
        if self.interfaces.len() < MOST_INTERFACES || is_chosen {
            self.interfaces.push(Interface { name, frames })?;
        }
        Ok(())
    }

    /// Whether there is a tester of whom no frame with the identifier of its requests was seen.
    pub fn is_one_silent(&self) -> bool {
        !self.is_without_chosen() && self.is_no_request()
    }

    fn is_no_request(&self) -> bool {
        self.sides.iter().any(|(_, frames)| frames.requests == 0)
    }

    /// A line for each thing that a reader should know. `part` is what stands behind where not all was looked at; with
    /// `is_judged` the unit's own frames should be there.
    pub fn notes(&self, part: &str, is_judged: bool) -> Result<Vec<String>, AllocError> {
        let mut notes = Vec::new(self.alloc);
        if self.is_without_chosen() {
            notes.push(self.unchosen(part)?)?;
            return Ok(notes);
        }
        for (side, frames) in self.sides.iter() {
            let told = self.unseen(side, *frames, part)?;
            if let Some(told) = told {
                notes.push(told)?;
            }
            if is_judged && frames.all > 0 && frames.responses == 0 {
                let name = side.name;
                let response = side.response;
                let digits = side.digits();
                notes.push(format!(in self.alloc;
                    "no frame of the unit to {name} was seen{part}: its answers have the identifier {response:0digits$X}"
                )?)?;
            }
        }
        if !self.is_heard {
            notes.extend(self.often.note(part)?)?;
        }
        self.passed(&mut notes, part)?;
        self.names(&mut notes, part)?;
        self.doubled(&mut notes, part)?;
        if self.is_timed {
            self.stamps.notes(self.alloc, &mut notes)?;
        }
        Ok(notes)
    }

    /// What wasn't seen of a tester's own frames.
    fn unseen(
        &self,
        side: &Side<'_>,
        frames: Frames,
        part: &str,
    ) -> Result<Option<String>, AllocError> {
        let name = side.name;
        let request = side.request;
        let digits = side.digits();
        if frames.all == 0 {
            let told = format!(in self.alloc;
                "no frame of {name} was seen{part}: its requests have the identifier {request:0digits$X}"
            )?;
            return Ok(Some(told));
        }
        if frames.requests > 0 && frames.data == 0 {
            let told = format!(in self.alloc;
                "only remote frames of {name} were seen{part}: they have no bytes, and are passed over"
            )?;
            return Ok(Some(told));
        }
        if frames.are_exchanged() {
            let response = side.response;
            let told = format!(in self.alloc;
                "the recording asks by {response:0digits$X} and answers by {request:0digits$X}{part}: are request and response of {name} exchanged?"
            )?;
            return Ok(Some(told));
        }
        if frames.requests > 0 && frames.begins == 0 {
            let told = format!(in self.alloc;
                "no frame of {name} begins a message of ISO-TP{part}: the length stands first, as in {request:0digits$X}#021003"
            )?;
            return Ok(Some(told));
        }
        Ok(None)
    }

    fn passed(&self, notes: &mut Vec<String>, part: &str) -> Result<(), AllocError> {
        let counts = [
            (self.standard, "11 bits"),
            (self.extended, "29 bits"),
            (self.flexible, "CAN FD"),
        ];
        for (count, what) in &counts {
            if *count > 0 {
                notes.push(format!(in self.alloc;
                    "frames with a tester's number that were passed over, being of {what}{part}: {count}"
                )?)?;
            }
        }
        if self.spaced > 0 {
            let count = self.spaced;
            notes.push(format!(in self.alloc;
                "frames of which only the bytes before a space are read, for bytes stand together{part}: {count}"
            )?)?;
        }
        Ok(())
    }

    /// Whether an interface was chosen of which no line was seen.
    fn is_without_chosen(&self) -> bool {
        match self.choice {
            Choice::Only(name) => !self.has_interface(name.as_bytes()),
            Choice::All | Choice::None => false,
        }
    }

    fn has_interface(&self, name: &[u8]) -> bool {
        self.interfaces
            .iter()
            .any(|interface| interface.name == name)
    }

    /// That no line of the chosen interface was seen, in place of all that follows from that.
    fn unchosen(&self, part: &str) -> Result<String, AllocError> {
        let Choice::Only(name) = self.choice else {
            return Ok(String::new(self.alloc));
        };
        let name = ShownLine(name.as_bytes());
        let told = format!(in self.alloc; "no line of the interface {name} was seen")?;
        self.listed(told, part)
    }

    /// A second interface, where none was chosen.
    fn names(&self, notes: &mut Vec<String>, part: &str) -> Result<(), AllocError> {
        if self.interfaces.iter().filter(|it| it.frames > 0).count() < 2 {
            return Ok(());
        }
        let told = if self.twice.are_apart() {
            "each frame is there twice, as of a bus that two interfaces record, and counts twice"
        } else {
            "frames of more than one interface count"
        };
        let mut line = self.listed(String::from_str(self.alloc, told)?, part)?;
        match self.choice {
            Choice::Only(_) => return Ok(()),
            Choice::None => {}
            Choice::All => self.name_flag(&mut line)?,
        }
        notes.push(line)?;
        Ok(())
    }

    /// That each frame is there twice, in equal lines, where their stamps tell moments apart.
    fn doubled(&self, notes: &mut Vec<String>, part: &str) -> Result<(), AllocError> {
        if self.is_timed && self.stamps.tell_moments() && self.twice.are_equal() {
            notes.push(format!(in self.alloc;
                "each frame is there twice, in equal lines, and counts twice{part}: awk '!seen[$0]++' takes it once"
            )?)?;
        }
        Ok(())
    }

    /// Adds the flag that takes the first interface with frames, whose name is UTF-8, as a word must be.
    fn name_flag(&self, line: &mut String) -> Result<(), AllocError> {
        let mut named = self.interfaces.iter().filter(|it| it.frames > 0);
        if let Some(first) = named.find(|it| str::from_utf8(it.name).is_ok()) {
            let name = ShownLine(first.name);
            write!(line, "; --interface {name} takes those of one")?;
        }
        Ok(())
    }

    /// A text, and behind it the frames of each interface that has any.
    fn listed(&self, mut line: String, part: &str) -> Result<String, AllocError> {
        line.push_str(part)?;
        let with_frames = self.interfaces.iter().filter(|it| it.frames > 0);
        for (index, interface) in with_frames.enumerate() {
            let name = ShownLine(interface.name);
            let frames = interface.frames;
            let mark = if index == 0 { ":" } else { "," };
            write!(line, "{mark} {name} {frames}")?;
        }
        Ok(line)
    }
}

/// A line that is a frame, whatever it has behind its identifier.
fn read_line(line: &[u8]) -> Option<Line<'_>> {
    let [b'(', stamp @ ..] = line else {
        return None;
    };
    let (stamp, rest) = parted(stamp, b')')?;
    let (interface, rest) = parted(behind_spaces(rest), b' ')?;
    let (id, rest) = parted(behind_spaces(rest), b'#')?;
    Some(Line {
        stamp,
        interface,
        id: hex_number(id)?,
        is_extended: id.len() == 8,
        is_flexible: rest.starts_with(b"#"),
        rest,
    })
}

/// What stands before the first space, or before the CR that ends it.
fn before_space(text: &[u8]) -> &[u8] {
    match (parted(text, b' '), text) {
        (Some((front, _)), _) | (None, [front @ .., b'\r']) => front,
        (None, _) => text,
    }
}

fn behind_spaces(text: &[u8]) -> &[u8] {
    let spaces = text.iter().take_while(|c| **c == b' ').count();
    text.get(spaces..).unwrap_or(b"")
}

/// The number of hex digits of either case; none where there is no digit, or the number is too great.
fn hex_number(digits: &[u8]) -> Option<u32> {
    if digits.is_empty() {
        return None;
    }
    let mut number: u32 = 0;
    for c in digits {
        let digit = char::from(*c).to_digit(16)?;
        number = number.checked_mul(16)?.checked_add(digit)?;
    }
    Some(number)
}
