//! A clause in one block of memory. The pointers and the `unsafe` behind it end here: contracts
//! see a list of literals.

ghost use Rattle.std.specs.Prelude.{◌≡◌, ◌<◌, length, IfOk};
ghost use Rattle.std.specs.List.{swap};

use crate::deed::{Deed, allocate, deallocate};
use crate::lit::Lit;
use crate::places::Places;
use crate::start::Start;
use rt_value::NoMemory;
use std::alloc::Global;
use std::marker::Model;

// Fewer literals than this fit a block, which takes fewer than 2^63 bytes.
const LIMIT: usize = 1 << 59;

/// A clause behind one pointer, to a block with the number of literals and then the literals. So a
/// list of clauses takes one machine word for each, besides the blocks.
pub struct ThinClause {
    start: Start,
    places: Places<Lit>,
    deed: Deed<Lit, Global>,
    alloc: Global,
}

impl Model for ThinClause {
    ghost use Rattle.std.specs.Prelude.{List};
    ghost use Rattle.rt_clause.specs.Literal.{Literal};

    ghost Value = { List Literal };

    ghost use Rattle.rt_clause.specs.Thin.{somes, IsOneBlock};

    ghost view = { λ c. somes c.places.slots };

    ghost invariant = { IsOneBlock };
}

impl ThinClause {
    /// A copy of the literals. When out of memory, nothing has been made.
    pub fn of(alloc: Global, lits: &[Lit]) -> Result<ThinClause, NoMemory>
        ensures { IfOk result (λ c. c ≡ lits.now) }
    {
        let len = lits.len();
        if len >= LIMIT {
            return Err(NoMemory);
        }
        let (start, mut places, deed) = allocate(&alloc, len)?;
        for i in 0..len {
            places.write(start, i, lits[i]);
        }
        Ok(ThinClause {
            start,
            places,
            deed,
            alloc,
        })
    }

    /// The number of literals.
    pub fn len(&self) -> usize
        ensures { result ≡ length self.now }
    {
        *self.places.count(self.start)
    }

    /// The literals in order.
    pub fn lits(&self) -> &[Lit]
        ensures { result.now ≡ self.now }
    {
        self.places.items(self.start, self.len())
    }

    /// Exchanges the literals at `a` and `b`.
    pub fn swap(&mut self, a: usize, b: usize)
        requires a { a < length self.old }
        requires b { b < length self.old }
        ensures { self.new ≡ swap self.old a b }
    {
        if a != b {
            let first = self.places.read(self.start, a);
            let second = self.places.read(self.start, b);
            self.places.write(self.start, a, second);
            self.places.write(self.start, b, first);
        }
    }
}

impl Drop for ThinClause {
    fn drop(self) {
        let ThinClause {
            start,
            places,
            deed,
            alloc,
        } = self;
        let len = *places.count(start);
        deallocate(&alloc, start, len, places, deed);
    }
}
