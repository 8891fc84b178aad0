//! Sub-instances, as choices of places. Crates above use the contracts alone, so the body of each
//! method may change.

ghost use Rattle.std.specs.Prelude.{◌≡◌, ◌<◌, ◌++◌, ◌∷◌, [], IfOk, OnOk, OnErr, false, length, replicate, slice_index_or, slice_set};
ghost use Rattle.rt_value.specs.Keep.{size};
ghost use Rattle.std.specs.Cmp.Rules.{comparing};
ghost use Rattle.std.proofs.Common.{rules};
ghost use lib.Pointwise.{pointwise};

use crate::no_memory::NoMemory;
use std::alloc::Global;
use std::marker::Model;

/// A choice of places: one Bool a place, true where its row is kept. Contracts see the list of
/// its Bools.
#[derive(Debug, Drop)]
pub struct Keep {
    on: Vec<bool>,
}

impl Model for Keep {
    ghost use Rattle.std.specs.Prelude.{List, Bool};

    ghost Value = { List Bool };

    ghost view = { λ k. k.on.items };
}

impl Keep {
    /// The choice of `n` places that are all kept, or all left out.
    pub fn all(alloc: Global, n: usize, on: bool) -> Result<Keep, NoMemory>
        ensures { IfOk result (λ k. k ≡ replicate n on) }
    {
        let on = vec![in alloc; on; n]?;
        Ok(Keep { on })
    }

    /// How many places there are, kept or not.
    pub fn len(&self) -> usize
        ensures { result ≡ length self.now }
    {
        self.on.len()
    }

    /// Whether the place is kept.
    pub fn is(&self, place: usize) -> bool
        requires { place < length self.now }
        ensures { result ≡ slice_index_or self.now place false }
    {
        self.on[place]
    }

    /// Keeps the place, or leaves it out.
    pub fn set(&mut self, place: usize, on: bool)
        requires { place < length self.old }
        ensures { self.new ≡ slice_set self.old place on }
    {
        self.on[place] = on;
    }

    /// How many places are kept.
    pub fn size(&self) -> usize
        ensures { result ≡ size self.now }
    {
        self.on.iter().filter(|b| **b).count()
    }

    /// One Bool for each place, in order.
    pub fn as_slice(&self) -> &[bool]
        ensures { result.now ≡ self.now }
    {
        self.on.as_slice()
    }

    /// Adds a place at the end.
    pub fn push(&mut self, on: bool) -> Result<(), NoMemory>
        ensures ok { OnOk result (self.new ≡ self.old ++ on ∷ []) }
        ensures err { OnErr result (self.new ≡ self.old) }
    {
        self.on.push(on)?;
        Ok(())
    }

    /// The choice with one more place at its end.
    pub fn with(&self, alloc: Global, on: bool) -> Result<Keep, NoMemory>
        ensures { IfOk result (λ k. k ≡ self.now ++ on ∷ []) }
    {
        let mut more = self.copy(alloc)?;
        more.push(on)?;
        Ok(more)
    }

    /// The same choice in memory of its own.
    pub fn copy(&self, alloc: Global) -> Result<Keep, NoMemory>
        ensures { IfOk result (λ k. k ≡ self.now) }
    {
        let on = Vec::from_slice(alloc, self.on.as_slice())?;
        Ok(Keep { on })
    }
}

impl PartialEq for Keep {
    ghost use Rattle.std.specs.Bool.{beq};

    ghost eq = { pointwise beq };

    ghost laws = { Prim.search (comparing, rules) };

    fn eq(&self, other: &Keep) -> bool {
        self.on.as_slice() == other.on.as_slice()
    }
}

impl Eq for Keep {
    ghost laws = { Prim.search (comparing, rules) };
}
