//! A stamp, kept for the next one, which mostly has the same second.

ghost use Rattle.std.specs.Prelude.{◌≡◌, ◌<◌, ◌≤◌, ◌+◌, ◌/◌, ◌^◌, ◌++◌, codes, drop, take, IsFalse, IsTrue, vec_len, vec_capacity};
ghost use Rattle.diag_can.specs.Reply.{stamp, stamp_digits};

use crate::hex_text::add;
use crate::reply::{seconds_text, thousandths_text};
use std::marker::Model;

/// The first time, in milliseconds, whose seconds have more than ten digits.
const LATE: u64 = 10_000_000_000_000;

/// The stamp of a time in two parts, so that of a later one only what changes is made. Its contracts see the time, in
/// milliseconds.
#[derive(Drop)]
pub struct KeptStamp {
    at: u64,
    /// When its second began.
    second: u64,
    seconds: [u8; 12],
    thousandths: [u8; 8],
}

impl Model for KeptStamp {
    ghost use Rattle.std.specs.Prelude.{ℕ};
    ghost use Rattle.diag_can.specs.KeptStamp.{IsStamp};

    ghost Value = { ℕ };

    ghost view = { λ s. s.at };

    ghost invariant = { λ s. IsStamp s.at s.second s.seconds s.thousandths };
}

/// `SECONDS.` of `(SECONDS.`. (A slice of it would go byte by byte.)
#[inline(always)]
fn without_bracket(seconds: [u8; 12]) -> [u8; 11]
    ensures { result ≡ take 11 (drop 1 seconds) }
{
    let [_, a, b, c, d, e, f, g, h, i, j, point] = seconds;
    [a, b, c, d, e, f, g, h, i, j, point]
}

/// `MILLISECONDS000` of `MILLISECONDS000) `.
#[inline(always)]
fn without_close(thousandths: [u8; 8]) -> [u8; 6]
    ensures { result ≡ take 6 thousandths }
{
    let [a, b, c, d, e, f, _, _] = thousandths;
    [a, b, c, d, e, f]
}

impl KeptStamp {
    /// That of the time 0.
    pub fn new() -> KeptStamp
        ensures { result ≡ 0 }
    {
        KeptStamp {
            at: 0,
            second: 0,
            seconds: seconds_text(0),
            thousandths: thousandths_text(0),
        }
    }

    /// Goes to another time; whether its seconds have ten digits, so that it can.
    #[inline(always)]
    pub fn set(&mut self, at: u64) -> bool
        ensures at { IsTrue result → self.new ≡ at }
        ensures early { IsTrue result → at / 1000 < 10 ^ 10 }
        ensures stays { IsFalse result → self.new ≡ self.old }
        ensures late { IsFalse result → 10 ^ 10 ≤ at / 1000 }
    {
        if at == self.at {
            return true;
        }
        if at >= LATE {
            return false;
        }
        self.go_to(at);
        true
    }

    /// The same of a time that it isn't at, whose seconds have ten digits.
    #[inline(always)]
    fn go_to(&mut self, at: u64)
        requires { at / 1000 < 10 ^ 10 }
        ensures { self.new ≡ at }
    {
        if at < self.second || at - self.second >= 1000 {
            return self.set_all(at);
        }
        self.thousandths = thousandths_text(at - self.second);
        self.at = at;
    }

    /// Goes to a time in another second. (Not inlined, so that the first part stays in one piece of memory.)
    #[inline(never)]
    fn set_all(&mut self, at: u64)
        requires { at / 1000 < 10 ^ 10 }
        ensures { self.new ≡ at }
    {
        self.seconds = seconds_text(at / 1000);
        self.thousandths = thousandths_text(at % 1000);
        self.second = at - at % 1000;
        self.at = at;
    }

    /// Appends it in brackets, and a space, where there is room.
    #[inline(always)]
    pub(crate) fn add_to(&self, text: &mut Vec<u8>)
        requires { vec_len text.old + 20 ≤ vec_capacity text.old }
        ensures items { text.new.items ≡ text.old.items ++ (stamp self.now ++ codes " ") }
        ensures len { vec_len text.new ≡ vec_len text.old + 20 }
        ensures capacity { vec_capacity text.new ≡ vec_capacity text.old }
    {
        let (seconds, thousandths) = (self.seconds, self.thousandths);
        add(text, &seconds);
        add(text, &thousandths);
    }

    /// Appends its digits and the point alone, where there is room.
    #[inline(always)]
    pub fn add_digits(&self, text: &mut Vec<u8>)
        requires { vec_len text.old + 17 ≤ vec_capacity text.old }
        ensures items { text.new.items ≡ text.old.items ++ stamp_digits self.now }
        ensures len { vec_len text.new ≡ vec_len text.old + 17 }
        ensures capacity { vec_capacity text.new ≡ vec_capacity text.old }
    {
        add(text, &without_bracket(self.seconds));
        add(text, &without_close(self.thousandths));
    }
}
