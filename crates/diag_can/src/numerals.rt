//! Numbers in decimal, appended to a text where there is room for them.

ghost use Rattle.std.specs.Prelude.{◌≡◌, ◌<◌, ◌≤◌, ◌+◌, ◌/◌, ◌%◌, ◌++◌, decimal, vec_len, vec_capacity};
ghost use Rattle.diag_can.specs.Reply.{two_digits};

use crate::hex_text::add;
use crate::table::decimals;
use itoa::Buffer;

/// Appends a number in decimal, where there is room: its digits come in groups of four, which are made two by two.
#[tactic(auto, using(crate::proofs::DecimalText::four_joined))]
#[inline(always)]
pub fn add_decimal(text: &mut Vec<u8>, number: u64)
    requires { vec_len text.old + 20 ≤ vec_capacity text.old }
    ensures items { text.new.items ≡ text.old.items ++ decimal number }
    ensures len { vec_len text.new ≤ vec_len text.old + 20 }
    ensures capacity { vec_capacity text.new ≡ vec_capacity text.old }
{
    if number < 10_000 {
        add_first(text, number);
    } else if number < 100_000_000 {
        add_first(text, number / 10_000);
        add_four(text, number % 10_000);
    } else {
        add_great(text, number);
    }
}

/// Appends a number of nine digits or more.
#[tactic(auto, using(crate::proofs::DecimalText::eight_joined))]
#[inline(always)]
fn add_great(text: &mut Vec<u8>, number: u64)
    requires great { 100000000 ≤ number }
    requires room { vec_len text.old + 20 ≤ vec_capacity text.old }
    ensures items { text.new.items ≡ text.old.items ++ decimal number }
    ensures len { vec_len text.new ≤ vec_len text.old + 20 }
    ensures capacity { vec_capacity text.new ≡ vec_capacity text.old }
{
    let front = number / 10_000;
    if front / 10_000 < 10_000 {
        add_first(text, front / 10_000);
        add_four(text, front % 10_000);
        add_four(text, number % 10_000);
    } else {
        let mut buffer = Buffer::new();
        add(text, buffer.format(number).as_bytes());
    }
}

/// Appends a number of up to four digits.
#[tactic(auto, using(crate::proofs::DecimalText::pair_joined))]
#[inline(always)]
fn add_first(text: &mut Vec<u8>, number: u64)
    requires few { number < 10000 }
    requires room { vec_len text.old + 4 ≤ vec_capacity text.old }
    ensures items { text.new.items ≡ text.old.items ++ decimal number }
    ensures len { vec_len text.new ≤ vec_len text.old + 4 }
    ensures capacity { vec_capacity text.new ≡ vec_capacity text.old }
{
    if number < 100 {
        add_few(text, number);
    } else {
        add_few(text, number / 100);
        add(text, &decimals(number % 100));
    }
}

/// Appends a number of one or two digits.
#[tactic(auto, using(crate::proofs::DecimalText::decimal_two, crate::proofs::DecimalText::decimal_digit))]
#[inline(always)]
fn add_few(text: &mut Vec<u8>, number: u64)
    requires few { number < 100 }
    requires room { vec_len text.old + 2 ≤ vec_capacity text.old }
    ensures items { text.new.items ≡ text.old.items ++ decimal number }
    ensures len { vec_len text.new ≤ vec_len text.old + 2 }
    ensures capacity { vec_capacity text.new ≡ vec_capacity text.old }
{
    if number < 10 {
        text.push_reserved(b'0' + number as u8);
    } else {
        add(text, &decimals(number));
    }
}

/// Appends the four digits of a number.
#[inline(always)]
fn add_four(text: &mut Vec<u8>, number: u64)
    requires few { number < 10000 }
    requires room { vec_len text.old + 4 ≤ vec_capacity text.old }
    ensures items { text.new.items
        ≡ (text.old.items ++ two_digits (number / 100)) ++ two_digits (number % 100) }
    ensures len { vec_len text.new ≡ vec_len text.old + 4 }
    ensures capacity { vec_capacity text.new ≡ vec_capacity text.old }
{
    add(text, &decimals(number / 100));
    add(text, &decimals(number % 100));
}
