//! What an encoder answers with: which variables are rows, which are taken, and which literal is
//! the whole formula.

ghost use Rattle.std.specs.Prelude.{◌≡◌, ◌≤◌};

use crate::lit::Lit;
use std::marker::Model;

/// How the variables of a formula are numbered. Those below `rows` are the rows, and those from
/// there to `next` are the formula's own. `goal` is the literal of the whole formula.
#[derive(Clone, Copy)]
pub struct Named {
    rows: usize,
    next: usize,
    goal: Lit,
}

impl Model for Named {
    ghost use Rattle.std.specs.Prelude.{◌≤◌};
    ghost use Rattle.rt_clause.specs.Numbering.{Numbering};

    ghost Value = { Numbering };

    ghost view = { λ n. record { rows = n.rows; next = n.next; goal = n.goal } };

    ghost invariant = { λ n. n.rows ≤ n.next };

    ghost inverse = { λ n. record { rows = n.rows; next = n.next; goal = n.goal } };
}

impl Named {
    /// A numbering with these three.
    pub fn of(rows: usize, next: usize, goal: Lit) -> Named
        requires { rows ≤ next }
        ensures rows { result.rows ≡ rows }
        ensures next { result.next ≡ next }
        ensures goal { result.goal ≡ goal }
    {
        Named { rows, next, goal }
    }

    /// The number of rows. Row r is variable r.
    pub fn rows(self) -> usize
        ensures is { result ≡ self.rows }
        ensures within { result ≤ self.next }
    {
        self.rows
    }

    /// The first variable that is not used.
    pub fn next(self) -> usize
        ensures { result ≡ self.next }
    {
        self.next
    }

    /// The literal that is true in each model of the formula's clauses.
    pub fn goal(self) -> Lit
        ensures { result ≡ self.goal }
    {
        self.goal
    }
}
