//! From the fewest rows to the first choice of as many. Without a budget that can be spent, only a
//! choice of all rows comes here.

ghost use Rattle.std.specs.Prelude.{◌≡◌, ◌≤◌, IfOk, IfSome};
ghost use Rattle.rt_least.specs.Aimed.{IsUnderWay};
ghost use Rattle.rt_least.specs.Least.{HasFewest};
ghost use Rattle.rt_least.specs.Sought.{IsBestWithin, IsSought};

use crate::best::Best;
use crate::by_rows::by_rows;
use crate::lowering::fewer;
use rt_clause::{MOST_VARIABLES, Named};
use rt_derive::Checker;
use rt_formula::{Dag, Node};
use rt_solver::Solver;
use rt_totalizer::Outputs;
use rt_value::{Keep, NoMemory};
use std::alloc::Global;

/// Goes on from a choice of the fewest rows to the first of them in the order of rows, or until
/// the budget is spent. A choice of all rows is the only one of its size.
pub(crate) fn first(
    alloc: Global,
    solver: &mut Solver<Checker>,
    dag: &Dag,
    goal: Node,
    cone: &Keep,
    named: Named,
    counter: &Outputs,
    best: Keep,
    budget: Option<u64>,
) -> Result<Best, NoMemory>
    requires rows { named.rows ≡ dag.now.rows }
    requires budget { IfSome budget (λ b. 1 ≤ b) }
    requires way { IsUnderWay dag.now goal cone.now solver.old.0.lines named.next counter.now best }
    requires fewest { HasFewest (IsSought dag.now goal cone.now) best }
    ensures { IfOk result (IsBestWithin dag.now goal cone.now budget) }
{
    let most = best.size();
    if most >= named.rows() {
        return Ok(Best::Least(best));
    }
    if named.next() >= MOST_VARIABLES {
        return Err(NoMemory);
    }
    let held = fewer(&counter.outs, most + 1);
    by_rows(alloc, solver, dag, goal, cone, named, best, held, budget)
}
