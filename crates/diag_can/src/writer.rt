//! The lines of the frames that one tester was sent, one behind the other: what they have in common is made once.

ghost use Rattle.std.specs.Prelude.{◌≡◌, ◌≤◌, ◌+◌, ◌++◌, codes, length, take, IfOk, OnOk, OnErr, vec_len, vec_capacity};
ghost use Rattle.hex.specs.Hex.{encode_upper};
ghost use Rattle.diag_can.specs.Reply.{AreFlags, reply_line};

use crate::frame::CanId;
use crate::hex_text::{add, digits_of_eight};
use crate::kept_stamp::KeptStamp;
use crate::reply::{add_data, flags_digit, identifier, write_line};
use std::alloc::{AllocError, Global};
use std::marker::Model;
use std::mem::{self, ManuallyDrop};

/// More bytes than a line of eight bytes has, of which the front is kept.
const LINE_ROOM: usize = 64;

/// The most bytes of a front that is kept.
const FRONT_ROOM: usize = 24;

/// `NAME ID#`, or `NAME ID##F`, at the front of some bytes; nothing of a long name.
#[derive(Drop)]
struct Front {
    bytes: [u8; 24],
    len: usize,
}

impl Front {
    ghost use Rattle.diag_can.specs.Writer.{IsFront, IsText};

    /// That of a name, of frames with these flags, if of CAN FD, and of an identifier.
    fn of(name: &[u8], flags: Option<u8>, id: CanId) -> Front
        requires { AreFlags flags }
        ensures { IsFront result name.now flags id }
    {
        if id.is_extended() {
            return Front {
                bytes: [0; 24],
                len: 0,
            };
        }
        let [x, y, z] = identifier(id);
        match flags {
            None => Front::made(name, &[b' ', x, y, z, b'#']),
            Some(flags) => Front::made(name, &[b' ', x, y, z, b'#', b'#', flags_digit(flags)]),
        }
    }

    /// A name and what stands behind it, where there is room.
    fn made(name: &[u8], behind: &[u8]) -> Front
        requires { length behind.now ≤ 24 }
        ensures { IsText result (name.now ++ behind.now) }
    {
        let mut bytes = [0; 24];
        if name.len() > FRONT_ROOM - behind.len() {
            return Front { bytes, len: 0 };
        }
        let end = name.len() + behind.len();
        bytes[..name.len()].copy_from_slice(name);
        bytes[name.len()..end].copy_from_slice(behind);
        Front { bytes, len: end }
    }

    /// Appends it, where there is room for all the bytes; those behind it are taken back.
    #[inline(always)]
    fn add_to(&self, text: &mut Vec<u8>)
        requires short { self.now.len ≤ 24 }
        requires room { vec_len text.old + 24 ≤ vec_capacity text.old }
        ensures items { text.new.items ≡ text.old.items ++ take self.now.len self.now.bytes }
        ensures len { vec_len text.new ≤ vec_len text.old + 24 }
        ensures capacity { vec_capacity text.new ≡ vec_capacity text.old }
    {
        let end = text.len() + self.len;
        let bytes = self.bytes;
        add(text, &bytes);
        text.truncate(end);
    }
}

/// Writes the lines of the frames that a tester of this name was sent.
#[derive(Drop)]
pub struct LineWriter {
    name: Vec<u8>,
    flags: Option<u8>,
    id: CanId,
    front: Front,
    stamp: KeptStamp,
}

impl Model for LineWriter {
    ghost use Rattle.diag_can.specs.WriterView.{WriterView};

    ghost Value = { WriterView };

    ghost use Rattle.diag_can.specs.Reply.{AreFlags};
    ghost use Rattle.diag_can.specs.Writer.{IsFront};

    ghost view = { λ w. record { name = w.name.items; flags = w.flags } };

    ghost invariant = { λ w.
        IsFront w.front w.name.items w.flags w.id × AreFlags w.flags };
}

impl LineWriter {
    /// A writer for a name, for frames of CAN FD with these flags or classic ones, and mostly for those of this identifier,
    /// where memory isn't refused.
    pub fn new(
        alloc: Global,
        name: &[u8],
        id: CanId,
        flags: Option<u8>,
    ) -> Result<LineWriter, AllocError>
        requires { AreFlags flags }
        ensures { IfOk result (λ writer. writer ≡ record { name = name.now; flags = flags }) }
    {
        let mut own = Vec::new(alloc);
        own.extend_from_slice(name)?;
        Ok(LineWriter {
            name: own,
            flags,
            id,
            front: Front::of(name, flags, id),
            stamp: KeptStamp::new(),
        })
    }

    /// Appends the line of a frame that was sent at `at` milliseconds, as `write_line` does. Most frames have eight bytes.
    ///
    /// # Errors
    /// `AllocError` where memory is refused; the text stays as it was.
    #[inline(always)]
    pub fn write(
        &mut self,
        text: &mut Vec<u8>,
        at: u64,
        id: CanId,
        bytes: &[u8],
    ) -> Result<(), AllocError>
        ensures ok { OnOk result (text.new.items ≡ text.old.items
            ++ reply_line self.old.name self.old.flags at (record { id = id; bytes = bytes.now })) }
        ensures err { OnErr result (text.new.items ≡ text.old.items) }
        ensures name { self.new ≡ self.old }
    {
        if id != self.id || self.front.len == 0 || !self.stamp.set(at) {
            return write_line(text, self.name.as_slice(), self.flags, at, id, bytes);
        }
        text.reserve(LINE_ROOM)?;
        let before = text.len();
        let alloc = *text.allocator();
        // (in a variable of its own, so that the text's place and length stay in registers)
        let mut line = mem::replace(text, Vec::new(alloc));
        self.stamp.add_to(&mut line);
        self.front.add_to(&mut line);
        let Some(eight) = bytes.as_array::<8>() else {
            *text = line;
            return add_other(text, before, bytes);
        };
        add_eight(&mut line, eight);
        // The empty list in its place owns no memory: dropping it would only cost time.
        let _ = ManuallyDrop::new(mem::replace(text, line));
        Ok(())
    }
}

/// Appends the bytes of a frame, which aren't eight, and LF. Where memory is refused, the text is cut where the line began.
#[cold]
#[inline(never)]
fn add_other(text: &mut Vec<u8>, before: usize, bytes: &[u8]) -> Result<(), AllocError>
    requires { before ≤ vec_len text.old }
    ensures ok { OnOk result
        (text.new.items ≡ text.old.items ++ (encode_upper bytes.now ++ codes "\n")) }
    ensures err { OnErr result (text.new.items ≡ take before text.old.items) }
{
    if text.reserve(2 * bytes.len() + 1).is_err() {
        text.truncate(before);
        return Err(AllocError);
    }
    let alloc = *text.allocator();
    let mut line = mem::replace(text, Vec::new(alloc));
    add_data(&mut line, bytes);
    *text = line;
    Ok(())
}

/// Eight bytes of a frame and LF, where there is room.
#[inline(always)]
fn add_eight(text: &mut Vec<u8>, bytes: &[u8; 8])
    requires { vec_len text.old + 17 ≤ vec_capacity text.old }
    ensures { text.new.items ≡ text.old.items ++ (encode_upper bytes.now ++ codes "\n") }
{
    add(text, &digits_of_eight(bytes));
    text.push_reserved(b'\n');
}
