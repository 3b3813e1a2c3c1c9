//! The line of a frame that a tester was sent, in candump's log notation.

ghost use Rattle.std.specs.Prelude.{◌≡◌, ◌<◌, ◌≤◌, ◌+◌, ◌/◌, ◌^◌, ◌*◌, ◌++◌, ◌∷◌, [], length, true, codes, decimal, IfSome, OnOk, OnErr, vec_len, vec_capacity};
ghost use Rattle.std.specs.Fmt.{digits};
ghost use Rattle.hex.specs.Hex.{encode_upper};
ghost use Rattle.diag_can.specs.Identifier.{number_of};
ghost use Rattle.diag_can.specs.Reply.{AreFlags, zero_filled, seconds_text, thousandths_text, stamp, stamp_digits, four_bytes, id_text, mark_text, reply_line};

use crate::frame::CanId;
use crate::hex_text::{add, add_hex};
use crate::table::{decimals, digits};
use itoa::Buffer;
use std::alloc::AllocError;
use std::mem;

/// More bytes than a line has beside its name and the digits of its bytes.
const LINE_ROOM: usize = 48;

/// The first number of more than ten digits.
const TEN_DIGITS: u64 = 10_000_000_000;

/// Appends the line of a frame that the tester `name` was sent at `at` milliseconds:
/// `(SECONDS.MILLISECONDS000) NAME ID#BYTES` and LF, where the seconds have ten digits or more, the milliseconds three,
/// and the identifier three upper-case hex digits, or eight where it has 29 bits (candump's log format). With flags it is a
/// frame of CAN FD, and `##` and a digit of the flags stand in place of `#`.
///
/// # Errors
/// `AllocError` where memory is refused; the text stays as it was.
pub fn write_line(
    text: &mut Vec<u8>,
    name: &[u8],
    flags: Option<u8>,
    at: u64,
    id: CanId,
    bytes: &[u8],
) -> Result<(), AllocError>
    requires { AreFlags flags }
    ensures ok { OnOk result (text.new.items
        ≡ text.old.items ++ reply_line name.now flags at (record { id = id; bytes = bytes.now })) }
    ensures err { OnErr result (text.new.items ≡ text.old.items) }
{
    let Some(room) = line_room(name, bytes) else {
        return Err(AllocError);
    };
    text.reserve(room)?;
    let alloc = *text.allocator();
    // (in a variable of its own, so that the text's place and length stay in registers)
    let mut line = mem::replace(text, Vec::new(alloc));
    add_stamp(&mut line, at);
    add(&mut line, name);
    add_id(&mut line, id);
    add_mark(&mut line, flags);
    add_data(&mut line, bytes);
    *text = line;
    Ok(())
}

/// As many bytes as a line may have, where that is a number.
fn line_room(name: &[u8], bytes: &[u8]) -> Option<usize>
    ensures { IfSome result (λ room. room ≡ length name.now + 2 * length bytes.now + 48) }
{
    name.len()
        .checked_add(2 * bytes.len())?
        .checked_add(LINE_ROOM)
}

/// The stamp of a time in milliseconds and a space, where there is room.
#[inline(always)]
fn add_stamp(text: &mut Vec<u8>, at: u64)
    requires { vec_len text.old + 32 ≤ vec_capacity text.old }
    ensures items { text.new.items ≡ text.old.items ++ (stamp at ++ codes " ") }
    ensures len { vec_len text.new ≤ vec_len text.old + 32 }
    ensures capacity { vec_capacity text.new ≡ vec_capacity text.old }
{
    if at / 1000 >= TEN_DIGITS {
        return add_late_stamp(text, at);
    }
    add(text, &seconds_text(at / 1000));
    add(text, &thousandths_text(at % 1000));
}

/// `(SECONDS.` of ten digits.
#[inline(always)]
pub(crate) fn seconds_text(seconds: u64) -> [u8; 12]
    requires { seconds < 10 ^ 10 }
    ensures { result ≡ seconds_text seconds }
{
    let [a, b, c, d, e, f, g, h, i, j] = ten_digits(seconds);
    [b'(', a, b, c, d, e, f, g, h, i, j, b'.']
}

/// `MILLISECONDS000) `.
#[inline(always)]
pub(crate) fn thousandths_text(thousandths: u64) -> [u8; 8]
    requires { thousandths < 1000 }
    ensures { result ≡ thousandths_text thousandths }
{
    let [k, l, m] = three_digits(thousandths);
    [k, l, m, b'0', b'0', b'0', b')', b' ']
}

/// The stamp of a time with more digits of seconds, and a space, where there is room.
#[inline(always)]
fn add_late_stamp(text: &mut Vec<u8>, at: u64)
    requires late { 10 ^ 10 ≤ at / 1000 }
    requires room { vec_len text.old + 32 ≤ vec_capacity text.old }
    ensures items { text.new.items ≡ text.old.items ++ (stamp at ++ codes " ") }
    ensures len { vec_len text.new ≤ vec_len text.old + 32 }
    ensures capacity { vec_capacity text.new ≡ vec_capacity text.old }
{
    add(text, b"(");
    add_late_digits(text, at);
    add(text, b") ");
}

/// Appends the digits and the point of the stamp of a time, in milliseconds, whose seconds have more than ten digits, where
/// there is room.
#[inline(always)]
pub fn add_late_digits(text: &mut Vec<u8>, at: u64)
    requires late { 10 ^ 10 ≤ at / 1000 }
    requires room { vec_len text.old + 27 ≤ vec_capacity text.old }
    ensures items { text.new.items ≡ text.old.items ++ stamp_digits at }
    ensures len { vec_len text.new ≤ vec_len text.old + 27 }
    ensures capacity { vec_capacity text.new ≡ vec_capacity text.old }
{
    let mut buffer = Buffer::new();
    add(text, buffer.format(at / 1000).as_bytes());
    add(text, b".");
    add(text, &three_digits(at % 1000));
    add(text, b"000");
}

/// The ten digits of a number.
fn ten_digits(number: u64) -> [u8; 10]
    requires { number < 10 ^ 10 }
    ensures { result ≡ zero_filled 10 (decimal number) }
{
    let last = number % 100_000_000;
    let [a, b] = decimals(number / 100_000_000);
    let [c, d, e, f] = four_digits(last / 10_000);
    let [g, h, i, j] = four_digits(last % 10_000);
    [a, b, c, d, e, f, g, h, i, j]
}

/// The four digits of a number.
fn four_digits(number: u64) -> [u8; 4]
    requires { number < 10 ^ 4 }
    ensures { result ≡ zero_filled 4 (decimal number) }
{
    let [a, b] = decimals(number / 100);
    let [c, d] = decimals(number % 100);
    [a, b, c, d]
}

/// The three digits of a number.
fn three_digits(number: u64) -> [u8; 3]
    requires { number < 1000 }
    ensures { result ≡ zero_filled 3 (decimal number) }
{
    let [b, c] = decimals(number % 100);
    [b'0' + (number / 100) as u8, b, c]
}

/// A space and the identifier, where there is room.
#[inline(always)]
fn add_id(text: &mut Vec<u8>, id: CanId)
    requires { vec_len text.old + 9 ≤ vec_capacity text.old }
    ensures items { text.new.items ≡ text.old.items ++ (codes " " ++ id_text id) }
    ensures len { vec_len text.new ≤ vec_len text.old + 9 }
    ensures capacity { vec_capacity text.new ≡ vec_capacity text.old }
{
    if id.is_extended() {
        add_wide_id(text, id);
    } else {
        let [x, y, z] = identifier(id);
        add(text, &[b' ', x, y, z]);
    }
}

/// The same of an identifier of 29 bits.
#[inline(never)]
fn add_wide_id(text: &mut Vec<u8>, id: CanId)
    requires wide { 2048 ≤ id }
    requires room { vec_len text.old + 9 ≤ vec_capacity text.old }
    ensures items { text.new.items ≡ text.old.items ++ (codes " " ++ id_text id) }
    ensures len { vec_len text.new ≤ vec_len text.old + 9 }
    ensures capacity { vec_capacity text.new ≡ vec_capacity text.old }
{
    add(text, b" ");
    add(text, &wide_identifier(id));
}

/// What stands in front of the bytes, where there is room.
#[inline(always)]
fn add_mark(text: &mut Vec<u8>, flags: Option<u8>)
    requires flags { AreFlags flags }
    requires room { vec_len text.old + 3 ≤ vec_capacity text.old }
    ensures items { text.new.items ≡ text.old.items ++ mark_text flags }
    ensures len { vec_len text.new ≤ vec_len text.old + 3 }
    ensures capacity { vec_capacity text.new ≡ vec_capacity text.old }
{
    match flags {
        None => add(text, b"#"),
        Some(flags) => add(text, &[b'#', b'#', flags_digit(flags)]),
    }
}

/// The digit of four bits.
pub(crate) fn flags_digit(flags: u8) -> u8
    requires { flags < 16 }
    ensures { digits 16 true flags ≡ result ∷ [] }
{
    let [_, digit] = digits(flags);
    digit
}

/// The bytes of a frame and LF, where there is room.
#[inline(always)]
pub(crate) fn add_data(text: &mut Vec<u8>, bytes: &[u8])
    requires { vec_len text.old + 2 * length bytes.now + 1 ≤ vec_capacity text.old }
    ensures { text.new.items ≡ text.old.items ++ (encode_upper bytes.now ++ codes "\n") }
{
    add_hex(text, bytes);
    text.push_reserved(b'\n');
}

/// The three digits of an identifier of 11 bits.
pub(crate) fn identifier(id: CanId) -> [u8; 3]
    requires { id < 2048 }
    ensures { result ≡ zero_filled 3 (digits 16 true id) }
{
    let number = id.rank();
    let [y, z] = digits((number % 256) as u8);
    [b'0' + (number / 256) as u8, y, z]
}

/// The eight digits of an identifier of 29 bits.
fn wide_identifier(id: CanId) -> [u8; 8]
    requires { 2048 ≤ id }
    ensures { result ≡ encode_upper (four_bytes (number_of id)) }
{
    let number = id.get();
    let [a, b] = digits((number / 0x100_0000) as u8);
    let [c, d] = digits((number / 0x1_0000 % 256) as u8);
    let [e, f] = digits((number / 0x100 % 256) as u8);
    let [g, h] = digits((number % 256) as u8);
    [a, b, c, d, e, f, g, h]
}
