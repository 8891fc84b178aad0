//! From a choice to the first of the fewest rows, where no budget can be spent.

ghost use Rattle.std.specs.Prelude.{◌≡◌, ◌<◌, IfOk, length};
ghost use Rattle.rt_value.specs.Keep.{size};
ghost use Rattle.rt_least.specs.Aimed.{IsUnderWay};
ghost use Rattle.rt_least.specs.Least.{IsLeast};
ghost use Rattle.rt_least.specs.Sought.{IsSought};

use crate::alone::other;
use crate::ask::ask;
use crate::in_order::in_order;
use crate::lowering::fewer;
use crate::shrinking::smaller;
use rt_clause::Named;
use rt_derive::Checker;
use rt_formula::{Dag, Node};
use rt_solver::Solver;
use rt_totalizer::Outputs;
use rt_value::{Keep, NoMemory};
use std::alloc::Global;

/// Goes on from a choice to ones of fewer rows, and then to the first of those of as many. Each
/// round asks for any other choice of at most as many rows, since mostly there is none and the
/// search is done. If there is one of as many, it asks for one of fewer. Both questions assume
/// that no more rows are kept than in the best choice, and so what the first one teaches serves
/// the second.
pub(crate) fn others(
    alloc: Global,
    solver: &mut Solver<Checker>,
    dag: &Dag,
    goal: Node,
    cone: &Keep,
    named: Named,
    counter: &Outputs,
    best: Keep,
) -> Result<Keep, NoMemory>
    requires rows { named.rows ≡ dag.now.rows }
    requires goal { goal < length dag.now.entries }
    requires way { IsUnderWay dag.now goal cone.now solver.old.0.lines named.next counter.now best }
    requires room { size best < dag.now.rows }
    ensures { IfOk result (IsLeast (IsSought dag.now goal cone.now)) }
{
    let rows = named.rows();
    let mut named = named;
    let mut best = best;
    'others: loop {
        let most = best.size();
        if most == 0 {
            return Ok(best);
        }
        let held = fewer(&counter.outs, most + 1);
        match other(alloc, solver, dag, goal, cone, &mut named, &best, held)? {
            None => return Ok(best),
            Some(keep) => {
                let keep = smaller(dag, goal, cone, keep)?;
                if keep.size() < most {
                    best = keep;
                    continue;
                }
            }
        }
        let bound = fewer(&counter.outs, most);
        match ask(alloc, solver, held, bound, rows, named.next())? {
            None => {
                return in_order(alloc, solver, dag, goal, cone, named, best, held);
            }
            Some(keep) => best = keep,
        }
    }
}
