//! A reader of a recording of which only the frames of one interface count.

ghost use Rattle.std.specs.Prelude.{◌≡◌, ◌+◌, ◌<◌, ◌≤◌, ℕ, List, [], ◌++◌, length, true, false, nat_lt, ◌||◌, option_map, IfOk, OnOk, Ok, Some};
ghost use Rattle.std.specs.Io.{ReadsAtMost};
ghost use Rattle.std.specs.Io.KnownBytes.{IsAtEnd, Keeps, ReadConsumes};
ghost use Rattle.memchr.specs.Find.{IsFirstByte};
ghost use Rattle.diag_can.specs.BusLine.{HasNoFeed};
ghost use Rattle.diag_can.specs.Log.{is_feed};
ghost use Rattle.diag_interface.specs.Interface.{only_text};
ghost use Rattle.diag_interface.specs.Window.{items, room, size};

use crate::line::{GROWTH, add_begun, add_line};
use crate::window::Window;
use diag_can::{LONGEST_LINE, line_end};
use std::alloc::{AllocError, Global};
use std::io;
use std::io::{Error, ErrorKind, Read};

/// The most bytes that are read ahead.
const RAW: usize = 65_536;

/// Room for a line that fills what is read ahead, and for what it may grow by.
const READY: usize = 2 * RAW;

/// What a reader has, with each line of another interface turned into one that tells its time alone. No memory is taken once
/// it is there, however long the lines are.
#[derive(Drop)]
pub struct OnlyInterface<R> {
    inner: R,
    /// The interface's name.
    name: Vec<u8>,
    /// What was read, and is still to be looked at.
    raw: Window,
    /// What is still to be given.
    ready: Window,
    /// Whether the line that is begun is longer than a line may be. It stays as it is, and the front of it was made ready.
    is_long: bool,
    ghost raw_size: { size raw ≡ 65536 },
    ghost ready_size: { size ready ≡ 131072 },
}

impl<R: Read> OnlyInterface<R> {
    ghost use Rattle.diag_interface.specs.Only.{IsBegun, left, outlook};

    /// What this reader has, where only the frames of the interface of this name count.
    ///
    /// # Errors
    /// Memory was refused; the reader is let go.
    pub fn new(alloc: Global, inner: R, name: &[u8]) -> Result<OnlyInterface<R>, AllocError>
    where
        R: Drop,
        ensures { IfOk result (λ only. left R.remaining only ≡ option_map (only_text name.now) (R.remaining inner)) }
    {
        let name = Vec::from_slice(alloc, name)?;
        let raw = Window::new(alloc, RAW)?;
        let ready = Window::new(alloc, READY)?;
        Ok(OnlyInterface {
            inner,
            name,
            raw,
            ready,
            is_long: false,
        })
    }

    /// Makes the first whole line ready, or the front of one that is longer than a line may be; whether there was one, and room
    /// for it.
    fn turn_line(&mut self) -> bool
        ensures same { (rest : List ℕ) → outlook self.new rest ≡ outlook self.old rest }
        ensures inner { self.new.inner ≡ self.old.inner }
        ensures fewer { result ≡ true → length (items self.new.raw) < length (items self.old.raw) }
        ensures some { result ≡ true → 0 < length (items self.new.ready) }
        ensures kept { result ≡ false → self.new ≡ self.old }
        ensures begun { result ≡ false → 65552 ≤ room self.old.ready → IsBegun (items self.old.raw) }
    {
        let Some(end) = line_end(self.raw.as_slice()) else {
            return self.pass_long();
        };
        if self.ready.room() < end + GROWTH + 1 {
            return false;
        }
        self.turn_whole(end);
        true
    }

    /// Makes the first line ready, whose LF stands at this place.
    fn turn_whole(&mut self, end: usize)
        requires line { IsFirstByte is_feed (items self.old.raw) (Some end) }
        requires room { end + 14 ≤ room self.old.ready }
        ensures same { (rest : List ℕ) → outlook self.new rest ≡ outlook self.old rest }
        ensures inner { self.new.inner ≡ self.old.inner }
        ensures fewer { length (items self.new.raw) < length (items self.old.raw) }
        ensures some { 0 < length (items self.new.ready) }
    {
        let text = self.raw.as_slice();
        add_line(
            self.name.as_slice(),
            self.is_long,
            text,
            end,
            &mut self.ready,
        );
        self.is_long = false;
        self.raw.consume(end + 1);
    }

    /// Makes ready what is read of a line that is longer than a line may be; whether it is, and there was room.
    fn pass_long(&mut self) -> bool
        requires { HasNoFeed (items self.old.raw) }
        ensures same { (rest : List ℕ) → outlook self.new rest ≡ outlook self.old rest }
        ensures inner { self.new.inner ≡ self.old.inner }
        ensures fewer { result ≡ true → length (items self.new.raw) < length (items self.old.raw) }
        ensures some { result ≡ true → 0 < length (items self.new.ready) }
        ensures kept { result ≡ false → self.new ≡ self.old }
        ensures begun { result ≡ false → 65552 ≤ room self.old.ready → length (items self.old.raw) ≤ 4096 }
    {
        let len = self.raw.as_slice().len();
        if !is_too_long(self.is_long, len) || len == 0 || len > self.ready.room() {
            return false;
        }
        self.ready.add(self.raw.as_slice());
        self.raw.consume(len);
        self.is_long = true;
        true
    }

    /// Makes ready all whole lines for which there is room.
    fn turn_lines(&mut self)
        requires { 65552 ≤ room self.old.ready }
        ensures same { (rest : List ℕ) → outlook self.new rest ≡ outlook self.old rest }
        ensures inner { self.new.inner ≡ self.old.inner }
        ensures begun { items self.new.ready ≡ [] → IsBegun (items self.new.raw) }
        ensures room { items self.new.ready ≡ [] → room self.new.ready ≡ room self.old.ready }
    {
        while self.turn_line() {}
    }

    /// Makes ready what is begun, behind which there is no more.
    fn turn_last(&mut self)
        requires begun { IsBegun (items self.old.raw) }
        requires room { 65552 ≤ room self.old.ready }
        requires end { IsAtEnd (R.remaining self.old.inner) }
        ensures same { Keeps (left R.remaining self.old) (left R.remaining self.new) }
        ensures end { items self.new.ready ≡ [] → IsAtEnd (left R.remaining self.new) }
    {
        let len = self.raw.as_slice().len();
        add_begun(
            self.name.as_slice(),
            self.is_long,
            self.raw.as_slice(),
            &mut self.ready,
        );
        self.is_long = false;
        self.raw.consume(len);
    }

    /// Reads once.
    fn read_more(&mut self) -> io::Result<usize>
        requires { length (items self.old.raw) ≤ 4096 }
        ensures same { Keeps (left R.remaining self.old) (left R.remaining self.new) }
        ensures end { result ≡ Ok 0 → IsAtEnd (R.remaining self.new.inner)
            × (items self.new.raw ≡ items self.old.raw) }
        ensures ready { self.new.ready ≡ self.old.ready }
    {
        self.raw.move_to_front();
        let count = self.raw.read_from(&mut self.inner)?;
        Ok(count)
    }

    /// Makes something ready, unless there is nothing more.
    fn fill(&mut self) -> io::Result<()>
        ensures same { Keeps (left R.remaining self.old) (left R.remaining self.new) }
        ensures end { OnOk result (items self.new.ready ≡ [] → IsAtEnd (left R.remaining self.new)) }
    {
        if !self.ready.is_empty() {
            return Ok(());
        }
        self.ready.move_to_front();
        for _ in 0..u64::MAX {
            self.turn_lines();
            if !self.ready.is_empty() {
                return Ok(());
            }
            if self.read_more()? == 0 {
                self.turn_last();
                return Ok(());
            }
        }
        Err(Error::from(ErrorKind::Other))
    }
}

/// Whether so many bytes of a line, or of the rest of a long one, are too many.
fn is_too_long(is_long: bool, len: usize) -> bool
    ensures { result ≡ (is_long || nat_lt 4096 len) }
{
    is_long || len > LONGEST_LINE
}

/// The bytes of the text.
impl<R: Read> Read for OnlyInterface<R> {
    ghost use Rattle.diag_interface.specs.Only.{left};

    ghost remaining = { left R.remaining };

    fn read(&mut self, buf: &mut [u8]) -> io::Result<usize> {
        if buf.is_empty() {
            return Ok(0);
        }
        self.fill()?;
        Ok(self.ready.give(buf))
    }
}
