//! A literal that says that none of some rows is kept, to ask whether one of them is.

ghost use Rattle.std.specs.Prelude.{◌≡◌, ◌≤◌, ◌<◌, ◌^◌, ◌++◌, IfOk, length};
ghost use Rattle.rt_clause.specs.Gates.{gate};
ghost use Rattle.rt_least.specs.Sought.{not_kept_between};

use rt_clause::{Lit, LitList, MOST_VARIABLES, gate};
use rt_derive::Checker;
use rt_solver::Solver;
use rt_value::{Keep, List, NoMemory};
use std::alloc::Global;

// For each row of the cone from `place` to before `end`, the literal that it is not kept.
fn not_kept_between(
    alloc: Global,
    cone: &Keep,
    place: usize,
    end: usize,
) -> Result<LitList, NoMemory>
    requires order { place ≤ end }
    requires within { end ≤ length cone.now }
    requires small { end ≤ 2 ^ 61 }
    ensures { IfOk result (λ lits. lits ≡ not_kept_between cone.now place end) }
{
    let mut lits: LitList = List::new(alloc);
    for row in place..end {
        if cone.is(row) {
            lits.push(Lit::of(row, false))?;
        }
    }
    Ok(lits)
}

/// Adds a literal of this variable that is true exactly where no row of the cone from `place` to
/// before `end` is kept.
pub(crate) fn none_kept(
    alloc: Global,
    cone: &Keep,
    place: usize,
    end: usize,
    var: usize,
    to: &mut Solver<Checker>,
) -> Result<Lit, NoMemory>
    requires order { place ≤ end }
    requires within { end ≤ length cone.now }
    requires rows { end ≤ 2 ^ 61 }
    ensures small { IfOk result (λ _. var < 2 ^ 61) }
    ensures var { IfOk result (λ l. l.var ≡ var) }
    ensures gate { IfOk result (λ l. to.new.0.lines ≡ to.old.0.lines ++ gate l (not_kept_between cone.now place end)) }
{
    if var >= MOST_VARIABLES {
        return Err(NoMemory);
    }
    let lits = not_kept_between(alloc, cone, place, end)?;
    let none = Lit::of(var, true);
    gate(alloc, none, lits.as_slice(), to)?;
    Ok(none)
}
