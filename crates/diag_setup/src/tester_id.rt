//! The testers by their numbers.

ghost use Rattle.std.specs.Prelude.{◌≡◌, ◌-◌, ◌+◌, ◌<◌, ◌↔◌, ◌≤◌, ℕ, IsSome, IfSome};

use std::marker::Model;

/// A tester, by its number from 1 to 8.
#[derive(Clone, Copy, PartialEq, Eq, Debug)]
pub struct TesterId {
    number: u8,
}

impl Model for TesterId {
    ghost Value = { ℕ };

    ghost view = { λ w. w.number };

    ghost invariant = { λ w. (1 ≤ w.number) × (w.number ≤ 8) };

    ghost inverse = { λ n. record { number = n } };
}

impl TesterId {
    /// The tester of a number; None outside 1 to 8.
    pub fn new(number: u8) -> Option<TesterId>
        ensures fits { IsSome result ↔ ((1 ≤ number) × (number ≤ 8)) }
        ensures same { IfSome result (λ who. who ≡ number) }
    {
        if 1 <= number && number <= 8 {
            Some(TesterId { number })
        } else {
            None
        }
    }

    /// The tester at an index in a table of all testers, from 0.
    pub(crate) fn at(index: usize) -> TesterId
        requires { index < 8 }
        ensures { result ≡ index + 1 }
    {
        TesterId {
            number: index as u8 + 1,
        }
    }

    /// The number, 1 to 8.
    pub fn number(&self) -> u8
        ensures same { result ≡ self.now }
        ensures fits { (1 ≤ result) × (result ≤ 8) }
    {
        self.number
    }

    /// The index in a table of all testers, from 0.
    pub fn index(&self) -> usize
        ensures same { result ≡ self.now - 1 }
        ensures from_one { self.now ≡ result + 1 }
        ensures fits { result < 8 }
    {
        usize::from(self.number) - 1
    }
}
