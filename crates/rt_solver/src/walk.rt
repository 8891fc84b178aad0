//! What an analysis collects on its way back over the trail.

ghost use Rattle.std.specs.Prelude.{◌≡◌, [], ◌∷◌, ◌++◌, ◌-◌, ◌<◌, length, reverse, IfOk, OnOk};
ghost use Rattle.rt_solver.specs.Analysis.{IsRested};

use crate::decider::Decider;
use crate::marks::Marks;
use rt_clause::Lit;
use rt_value::NoMemory;
use std::alloc::Global;

/// A walk back over the trail: the marked variables, the literals that are found, latest first, and
/// the lines that were resolved with. It is kept from one conflict to the next.
#[derive(Drop)]
pub(crate) struct Walk {
    pub(crate) marks: Marks,
    pub(crate) found: Vec<Lit>,
    pub(crate) hints: Vec<usize>,
}

impl Walk {
    pub(crate) fn new(alloc: Global, vars: usize) -> Result<Walk, NoMemory>
        ensures { IfOk result (λ walk. IsRested vars walk) }
    {
        let marks = Marks::new(alloc, vars)?;
        Ok(Walk {
            marks,
            found: Vec::new(alloc),
            hints: Vec::new(alloc),
        })
    }

    /// Begins with a line that is false.
    pub(crate) fn begin(&mut self, conflict: usize) -> Result<(), NoMemory>
        ensures marks { self.new.marks ≡ self.old.marks }
        ensures found { OnOk result (self.new.found.items ≡ []) }
        ensures hints { OnOk result (self.new.hints.items ≡ conflict ∷ []) }
    {
        self.found.clear();
        self.hints.clear();
        self.hints.push(conflict)?;
        Ok(())
    }

    /// A literal is found.
    pub(crate) fn keep(&mut self, lit: Lit) -> Result<(), NoMemory>
        ensures marks { self.new.marks.marks ≡ self.old.marks.marks }
        ensures due { self.new.marks.due ≡ self.old.marks.due - 1 }
        ensures hints { self.new.hints.items ≡ self.old.hints.items }
        ensures found { OnOk result (self.new.found.items ≡ self.old.found.items ++ lit ∷ []) }
    {
        self.marks.visit();
        self.found.push(lit)?;
        Ok(())
    }

    /// Puts the lines into the order in which they propagate.
    pub(crate) fn finish(&mut self)
        ensures marks { self.new.marks ≡ self.old.marks }
        ensures found { self.new.found.items ≡ self.old.found.items }
        ensures hints { self.new.hints.items ≡ reverse self.old.hints.items }
    {
        self.hints.reverse();
    }

    /// Takes all marks away. Each marked variable counts for more.
    pub(crate) fn rest(&mut self, decider: &mut Decider)
        ensures rested { IsRested (length self.old.marks.marks) self.new }
        ensures found { self.new.found.items ≡ self.old.found.items }
        ensures picking { decider.new ≡ decider.old }
    {
        'marks: while let Some(v) = self.marks.take() {
            decider.raise(v);
        }
        decider.age();
    }
}
