//! A growing list of clauses, each in a block of its own. How they are kept is private: contracts
//! see `Clauses` as a list of lists of literals.

ghost use Rattle.std.specs.Prelude.{◌≡◌, [], ◌∷◌, ◌++◌, ◌<◌, length, OnOk, OnErr};
ghost use Rattle.rt_clause.specs.Lists.{line_at};

use crate::lit::Lit;
use crate::thin::ThinClause;
use rt_value::NoMemory;
use std::alloc::Global;
use std::marker::Model;

/// A list of clauses, in the order in which they were pushed.
#[derive(Drop)]
pub struct Clauses {
    items: Vec<ThinClause>,
    alloc: Global,
}

impl Model for Clauses {
    ghost use Rattle.std.specs.Prelude.{List};
    ghost use Rattle.rt_clause.specs.Literal.{Literal};

    ghost Value = { List (List Literal) };

    ghost view = { λ c. c.items.items };
}

impl Clauses {
    /// No clauses, which takes no memory.
    pub fn new(alloc: Global) -> Clauses
        ensures { result ≡ [] }
    {
        Clauses {
            items: Vec::new(alloc),
            alloc,
        }
    }

    /// The number of clauses.
    pub fn len(&self) -> usize
        ensures { result ≡ length self.now }
    {
        self.items.len()
    }

    /// The clause at `i`, counted from 0.
    pub fn at(&self, i: usize) -> &[Lit]
        requires { i < length self.now }
        ensures { result.now ≡ line_at self.now i }
    {
        self.items[i].lits()
    }

    /// Puts a copy of the clause at the end. After an error the list is as before.
    pub fn push(&mut self, lits: &[Lit]) -> Result<(), NoMemory>
        ensures ok { OnOk result (self.new ≡ self.old ++ lits.now ∷ []) }
        ensures err { OnErr result (self.new ≡ self.old) }
    {
        let clause = ThinClause::of(self.alloc, lits)?;
        self.items.push(clause)?;
        Ok(())
    }
}
