//! Upper-case hex, appended to a text. (The library `hex` makes a text of its own of each call.)

ghost use Rattle.std.specs.Prelude.{◌≡◌, ◌≤◌, ◌+◌, ◌-◌, ◌*◌, ◌++◌, length, take, drop, OnOk, OnErr, vec_len, vec_capacity};
ghost use Rattle.hex.specs.Hex.{encode_upper};

use crate::table::digits;
use std::alloc::AllocError;
use std::simd::prelude::*;

/// Appends bytes in upper-case hex, two digits a byte.
///
/// # Errors
/// `AllocError` where memory is refused; the text stays as it was.
pub fn write_hex(text: &mut Vec<u8>, bytes: &[u8]) -> Result<(), AllocError>
    ensures ok { OnOk result (text.new.items ≡ text.old.items ++ encode_upper bytes.now) }
    ensures err { OnErr result (text.new.items ≡ text.old.items) }
{
    text.reserve(2 * bytes.len())?;
    add_hex(text, bytes);
    Ok(())
}

/// Appends bytes in upper-case hex, where there is room for them: eight bytes are looked at together, and so are four or
/// more that are left; up to three are written by the table.
#[inline(always)]
pub fn add_hex(text: &mut Vec<u8>, bytes: &[u8])
    requires { vec_len text.old + 2 * length bytes.now ≤ vec_capacity text.old }
    ensures items { text.new.items ≡ text.old.items ++ encode_upper bytes.now }
    ensures len { vec_len text.new ≡ vec_len text.old + 2 * length bytes.now }
    ensures capacity { vec_capacity text.new ≡ vec_capacity text.old }
{
    let mut rest = bytes;
    while let Some((eight, tail)) = rest.split_first_chunk::<8>() {
        add(text, &digits_of_eight(eight));
        rest = tail;
    }
    if rest.len() >= 4 {
        add_ends(text, rest);
    } else {
        add_few(text, rest);
    }
}

/// Appends four to eight bytes in upper-case hex, where there is room for them: writes the first four, cuts what the last four
/// write again, and writes those.
#[inline(always)]
fn add_ends(text: &mut Vec<u8>, bytes: &[u8])
    requires some { 4 ≤ length bytes.now }
    requires few { length bytes.now ≤ 8 }
    requires room { vec_len text.old + 2 * length bytes.now ≤ vec_capacity text.old }
    ensures items { text.new.items ≡ text.old.items ++ encode_upper bytes.now }
    ensures len { vec_len text.new ≡ vec_len text.old + 2 * length bytes.now }
    ensures capacity { vec_capacity text.new ≡ vec_capacity text.old }
{
    let before_last = text.len() + 2 * (bytes.len() - 4);
    let digits = digits_of_eight(&ends(bytes));
    add(text, &digits[..8]);
    text.truncate(before_last);
    add(text, &digits[8..]);
}

/// The first four and the last four of some bytes, put together as one word.
#[inline(always)]
fn ends(bytes: &[u8]) -> [u8; 8]
    requires { 4 ≤ length bytes.now }
    ensures { result ≡ take 4 bytes.now ++ drop (length bytes.now - 4) bytes.now }
{
    let first = u8x4::from_slice(bytes);
    let last = u8x4::from_slice(&bytes[bytes.len() - 4..]);
    first.shuffle(last, [0, 1, 2, 3, 4, 5, 6, 7]).to_array()
}

/// Appends up to three bytes in upper-case hex by the table, where there is room for them.
#[inline(always)]
fn add_few(text: &mut Vec<u8>, bytes: &[u8])
    requires few { length bytes.now ≤ 3 }
    requires room { vec_len text.old + 2 * length bytes.now ≤ vec_capacity text.old }
    ensures items { text.new.items ≡ text.old.items ++ encode_upper bytes.now }
    ensures len { vec_len text.new ≡ vec_len text.old + 2 * length bytes.now }
    ensures capacity { vec_capacity text.new ≡ vec_capacity text.old }
{
    match bytes {
        [] => {}
        [a] => add(text, &digits(*a)),
        [a, b] => {
            add(text, &digits(*a));
            add(text, &digits(*b));
        }
        [a, b, c, ..] => {
            add(text, &digits(*a));
            add(text, &digits(*b));
            add(text, &digits(*c));
        }
    }
}

/// Appends bytes for which there is room.
#[inline(always)]
pub fn add(text: &mut Vec<u8>, bytes: &[u8])
    requires { vec_len text.old + length bytes.now ≤ vec_capacity text.old }
    ensures items { text.new.items ≡ text.old.items ++ bytes.now }
    ensures len { vec_len text.new ≡ vec_len text.old + length bytes.now }
    ensures capacity { vec_capacity text.new ≡ vec_capacity text.old }
{
    for byte in bytes {
        text.push_reserved(*byte);
    }
}

/// Eight bytes in upper-case hex, which are looked at together.
#[inline(always)]
pub fn digits_of_eight(bytes: &[u8; 8]) -> [u8; 16]
    ensures { result ≡ encode_upper bytes.now }
{
    let v = u8x8::from_array(*bytes);
    let high = v / u8x8::splat(16);
    let low = v % u8x8::splat(16);
    let values = high.shuffle(low, [0, 8, 1, 9, 2, 10, 3, 11, 4, 12, 5, 13, 6, 14, 7, 15]);
    u8x16::from_array(*b"0123456789ABCDEF")
        .swizzle_dyn(values)
        .to_array()
}
