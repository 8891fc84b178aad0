//! The one gate of Tseitin's encoding, a conjunction. A disjunction is a gate of negated literals.

ghost use Rattle.std.specs.Prelude.{◌≡◌, ◌++◌, Bool, OnOk};
ghost use Rattle.rt_clause.specs.Gates.{gate};

use crate::lines::Adds;
use crate::lit::Lit;
use rt_value::NoMemory;
use std::alloc::Global;

/// Adds the clauses by which `out` is true exactly where all of `lits` are (Tseitin's encoding).
/// For a and b: `(not out, a)`, `(not out, b)` and then `(out, not a, not b)`. After an error some
/// of the clauses may have been added.
pub fn gate<A: Adds>(alloc: Global, out: Lit, lits: &[Lit], to: &mut A) -> Result<(), NoMemory>
    ensures { OnOk result (A.lines to.new ≡ A.lines to.old ++ gate out lits.now) }
{
    let mut last: Vec<Lit> = Vec::new(alloc);
    last.push(out)?;
    for l in lits {
        let pair = [out.negated(), *l];
        to.add(pair.as_slice())?;
        last.push(l.negated())?;
    }
    to.add(last.as_slice())
}
