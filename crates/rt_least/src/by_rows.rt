//! The first of the smallest choices within a budget: a question for each row, so that what a
//! question learned is of use in the nogoods.

ghost use Rattle.std.specs.Prelude.{◌≡◌, ◌≤◌, ◌<◌, ◌^◌, IfOk, IfSome, length};
ghost use Rattle.rt_value.specs.Keep.{size};
ghost use Rattle.rt_least.specs.Aimed.{IsAimed};
ghost use Rattle.rt_least.specs.Leading.{AllFew};
ghost use Rattle.rt_least.specs.Sought.{IsBestWithin};

use crate::best::{Best, SpentBest};
use crate::both::both;
use crate::choice::rows_of;
use crate::tries::attempt;
use crate::widened::all_widened;
use rt_clause::{Lit, LitList, Named};
use rt_derive::Checker;
use rt_formula::{Dag, Node};
use rt_solver::{Found, Solver};
use rt_value::{Keep, List, NoMemory};
use std::alloc::Global;

/// Goes on from a choice of the fewest rows to the first of them in the order of rows, within a
/// budget. Every row below `place` is settled. `held` says that those of them are kept whose
/// negations are `left`, and that no more rows are kept than in the best choice.
///
/// Each round asks for one that keeps the next row too. If it spends the budget, its clauses hold
/// for such choices alone; with `left` and that row's negation added, for each choice of as few
/// rows.
pub(crate) fn by_rows(
    alloc: Global,
    solver: &mut Solver<Checker>,
    dag: &Dag,
    goal: Node,
    cone: &Keep,
    named: Named,
    best: Keep,
    held: Lit,
    budget: Option<u64>,
) -> Result<Best, NoMemory>
    requires rows { named.rows ≡ dag.now.rows }
    requires small { named.next < 2 ^ 61 }
    requires budget { IfSome budget (λ b. 1 ≤ b) }
    requires long { length cone.now ≡ dag.now.rows }
    requires aimed { IsAimed dag.now goal cone.now solver.old.0.lines named.next }
    requires leading { AllFew dag.now goal cone.now solver.old.0.lines best held }
    requires low { held.var < named.next }
    ensures { IfOk result (IsBestWithin dag.now goal cone.now budget) }
{
    let rows = named.rows();
    let mut best = best;
    let mut held = held;
    let mut next = named.next();
    let mut left: LitList = List::new(alloc);
    for place in 0..rows {
        if left.len() >= best.size() {
            return Ok(Best::Least(best));
        }
        if !cone.is(place) {
            continue;
        }
        let row = Lit::of(place, true);
        let asked = both(alloc, held, row, next, solver)?;
        next += 1;
        if !best.is(place) {
            match attempt(solver, &Some(asked), rows, next, budget)? {
                Found::Model(model) => best = rows_of(alloc, &model, rows)?,
                Found::Refuted => {
                    if !solver.lines().refutes(Some(asked)) {
                        unreachable!();
                    }
                    continue;
                }
                Found::Spent(learned) => {
                    left.push(row.negated())?;
                    let nogoods = all_widened(alloc, &left, &learned)?;
                    return Ok(Best::Spent(SpentBest {
                        best: Some(best),
                        least: true,
                        nogoods,
                    }));
                }
            }
        }
        held = asked;
        left.push(row.negated())?;
    }
    Ok(Best::Least(best))
}
