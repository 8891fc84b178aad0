//! The number of a watch.

ghost use Rattle.std.specs.Prelude.{◌≡◌, ◌<◌, ◌+◌, ◌*◌, ◌/◌, ◌%◌, ◌^◌};

use std::marker::Model;

/// One of the first two places of a clause: its literal is watched.
#[derive(Clone, Copy)]
pub struct Watch {
    number: usize,
}

impl Model for Watch {
    ghost use Rattle.std.specs.Prelude.{ℕ};

    ghost Value = { ℕ };

    ghost view = { λ w. w.number };

    ghost inverse = { λ n. record { number = n } };
}

impl Watch {
    /// The watch of a clause's first literal.
    pub fn first(clause: usize) -> Watch
        requires { clause < 2 ^ 62 }
        ensures { result ≡ 2 * clause }
    {
        Watch { number: 2 * clause }
    }

    /// The watch of a clause's second literal.
    pub fn second(clause: usize) -> Watch
        requires { clause < 2 ^ 62 }
        ensures { result ≡ 2 * clause + 1 }
    {
        Watch {
            number: 2 * clause + 1,
        }
    }

    /// The watch of a number: twice its clause's, and one more for the second literal.
    pub fn of(number: usize) -> Watch
        ensures { result ≡ number }
    {
        Watch { number }
    }

    /// The number of the watch.
    pub fn number(self) -> usize
        ensures { result ≡ self }
    {
        self.number
    }

    /// The number of its clause.
    pub fn clause(self) -> usize
        ensures { result ≡ self / 2 }
    {
        self.number / 2
    }

    /// The place of its literal in the clause: 0 or 1.
    pub fn place(self) -> usize
        ensures { result ≡ self % 2 }
    {
        self.number % 2
    }
}
