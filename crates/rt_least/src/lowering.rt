//! From a choice to one of the fewest rows. Within a budget, each round assumes that fewer are
//! kept than in the best.

ghost use Rattle.std.specs.Prelude.{◌≡◌, ◌≤◌, ◌<◌, IfOk, IfSome, length};
ghost use Rattle.rt_least.specs.Aimed.{IsUnderWay, fewer_than};
ghost use Rattle.rt_least.specs.Sought.{IsBestWithin};

use crate::best::{Best, SpentBest};
use crate::choice::rows_of;
use crate::first::first;
use crate::others::others;
use crate::tries::{attempt, is_small};
use rt_clause::{Lit, LitList, Named};
use rt_derive::Checker;
use rt_formula::{Dag, Node};
use rt_solver::{Found, Solver};
use rt_totalizer::Outputs;
use rt_value::{Keep, NoMemory};
use std::alloc::Global;

/// The literal that says that fewer than `most` rows are kept.
pub(crate) fn fewer(outs: &LitList, most: usize) -> Lit
    requires some { 0 < most }
    requires within { most ≤ length outs.now }
    ensures { result ≡ fewer_than outs.now most }
{
    outs.as_slice()[most - 1].negated()
}

/// Goes on from a choice to ones of fewer rows, until there is none, and then to the first of
/// those of as many rows. It ends early when the budget is spent. A budget that can't be spent is
/// as none.
pub fn lower(
    alloc: Global,
    solver: &mut Solver<Checker>,
    dag: &Dag,
    goal: Node,
    cone: &Keep,
    named: Named,
    counter: &Outputs,
    best: Keep,
    budget: Option<u64>,
) -> Result<Best, NoMemory>
    requires rows { named.rows ≡ dag.now.rows }
    requires goal { goal < length dag.now.entries }
    requires budget { IfSome budget (λ b. 1 ≤ b) }
    requires way { IsUnderWay dag.now goal cone.now solver.old.0.lines named.next counter.now best }
    ensures { IfOk result (IsBestWithin dag.now goal cone.now budget) }
{
    let rows = named.rows();
    let mut best = best;
    'lower: loop {
        let most = best.size();
        if most == 0 {
            return Ok(Best::Least(best));
        }
        if most < rows && !is_small(budget, rows) {
            let keep = others(alloc, solver, dag, goal, cone, named, counter, best)?;
            return Ok(Best::Least(keep));
        }
        let bound = fewer(&counter.outs, most);
        match attempt(solver, &Some(bound), rows, named.next(), budget)? {
            Found::Model(model) => best = rows_of(alloc, &model, rows)?,
            Found::Refuted => {
                if !solver.lines().refutes(Some(bound)) {
                    unreachable!();
                }
                return first(alloc, solver, dag, goal, cone, named, counter, best, budget);
            }
            Found::Spent(nogoods) => {
                return Ok(Best::Spent(SpentBest {
                    best: Some(best),
                    least: false,
                    nogoods,
                }));
            }
        }
    }
}
