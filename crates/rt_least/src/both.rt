//! A conjunction of two literals in a new variable, to assume both at once.

ghost use Rattle.std.specs.Prelude.{◌≡◌, ◌<◌, ◌^◌, ◌∷◌, ◌++◌, [], IfOk};
ghost use Rattle.rt_clause.specs.Gates.{gate};

use rt_clause::{Lit, MOST_VARIABLES, gate};
use rt_derive::Checker;
use rt_solver::Solver;
use rt_value::NoMemory;
use std::alloc::Global;

/// Adds a literal of this variable that is true exactly where both of two are.
pub(crate) fn both(
    alloc: Global,
    a: Lit,
    b: Lit,
    var: usize,
    to: &mut Solver<Checker>,
) -> Result<Lit, NoMemory>
    ensures small { IfOk result (λ _. var < 2 ^ 61) }
    ensures var { IfOk result (λ l. l.var ≡ var) }
    ensures gate { IfOk result (λ l. to.new.0.lines ≡ to.old.0.lines ++ gate l (a ∷ b ∷ [])) }
{
    if var >= MOST_VARIABLES {
        return Err(NoMemory);
    }
    let out = Lit::of(var, true);
    gate(alloc, out, &[a, b], to)?;
    Ok(out)
}
