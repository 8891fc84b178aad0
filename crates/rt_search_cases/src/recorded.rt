//! A checker's lines with a copy of each, so that a test can read them.

ghost use Rattle.std.specs.Prelude.{◌≡◌, []};

use rt_clause::{Adds, Clauses, Lines, Lit};
use rt_derive::Checker;
use rt_value::NoMemory;
use std::alloc::Global;
use std::marker::Model;

/// A checker, and a copy of each of its lines.
#[derive(Drop)]
pub struct Recorded {
    checker: Checker,
    copies: Clauses,
}

impl Model for Recorded {
    ghost use Rattle.std.specs.Coded.{codes};
    ghost use Rattle.rt_derive.specs.declared.checker.Checker.{Checker};

    ghost Value = { Checker };

    ghost coded = { Prim.hlevel (codes) };

    ghost view = { λ r. r.checker };
}

impl Recorded {
    /// No lines.
    pub fn new(alloc: Global) -> Recorded
        ensures { result.lines ≡ [] }
    {
        Recorded {
            checker: Checker::new(alloc),
            copies: Clauses::new(alloc),
        }
    }

    /// Whether the checker's lines refute what is assumed.
    pub fn refutes(&self, assume: Option<Lit>) -> bool {
        self.checker.refutes(assume)
    }

    /// The number of lines.
    pub fn len(&self) -> usize {
        self.copies.len()
    }

    /// Whether the line at a place has just these literals in this order.
    pub fn has(&self, place: usize, lits: &[Lit]) -> bool {
        place < self.copies.len() && self.copies.at(place) == lits
    }
}

impl Adds for Recorded {
    ghost lines = { λ r. r.lines };

    ghost derived = { λ r. r.derived.items };

    fn add(&mut self, lits: &[Lit]) -> Result<(), NoMemory> {
        self.copies.push(lits)?;
        self.checker.add(lits)
    }
}

impl Lines for Recorded {
    fn derive(&mut self, lits: &[Lit], hints: &[usize]) -> Result<bool, NoMemory> {
        self.copies.push(lits)?;
        self.checker.derive(lits, hints)
    }
}
