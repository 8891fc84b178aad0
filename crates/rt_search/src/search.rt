//! The two entries of the crate, and the first round. Which rounds follow, and in which order, may
//! change: the contracts speak of the outcome alone.

ghost use Rattle.std.specs.Prelude.{◌≡◌, ◌≤◌, ◌<◌, [], IfOk, IfSome, length};
ghost use Rattle.rt_least.specs.Aimed.{IsAimed};
ghost use Rattle.rt_least.specs.Least.{IsBest, IsEnough};
ghost use Rattle.rt_least.specs.Sought.{IsBestWithin};

use crate::encode::encode;
use rt_clause::Named;
use rt_derive::Checker;
use rt_formula::{Dag, Node};
use rt_least::{Best, SpentBest, attempt, lower, rows_of, smaller};
use rt_solver::{Found, Solver};
use rt_totalizer::count_among;
use rt_value::{Keep, NoMemory};
use std::alloc::Global;

// One more than the size, where the rows allow it.
fn one_above(size: usize, rows: usize) -> usize
    ensures within { result ≤ rows }
    ensures above { size < rows → size < result }
    ensures reach { size ≤ rows → size ≤ result }
{
    if size < rows { size + 1 } else { rows }
}

// Searches within the cone, with a solver that has the lines of the goal.
fn within(
    alloc: Global,
    solver: &mut Solver<Checker>,
    dag: &Dag,
    goal: Node,
    cone: &Keep,
    named: Named,
    budget: Option<u64>,
) -> Result<Best, NoMemory>
    requires rows { named.rows ≡ dag.now.rows }
    requires goal { goal < length dag.now.entries }
    requires long { length cone.now ≡ dag.now.rows }
    requires budget { IfSome budget (λ b. 1 ≤ b) }
    requires aimed { IsAimed dag.now goal cone.now solver.old.0.lines named.next }
    ensures { IfOk result (IsBestWithin dag.now goal cone.now budget) }
{
    let mut named = named;
    let rows = dag.rows();
    match attempt(solver, &None, rows, named.next(), budget)? {
        Found::Model(model) => {
            let model = rows_of(alloc, &model, rows)?;
            let best = smaller(dag, goal, cone, model)?;
            let upto = one_above(best.size(), rows);
            let counter = count_among(alloc, cone, upto, &mut named, solver)?;
            lower(
                alloc, solver, dag, goal, cone, named, &counter, best, budget,
            )
        }
        Found::Refuted => {
            if !solver.lines().refutes(None) {
                unreachable!();
            }
            Ok(Best::Never)
        }
        Found::Spent(nogoods) => Ok(Best::Spent(SpentBest {
            best: None,
            least: false,
            nogoods,
        })),
    }
}

// Searches with a solver that has no lines yet.
fn search(
    alloc: Global,
    solver: &mut Solver<Checker>,
    dag: &Dag,
    goal: Node,
    cone: &Keep,
    budget: Option<u64>,
) -> Result<Best, NoMemory>
    requires budget { IfSome budget (λ b. 1 ≤ b) }
    requires goal { goal < length dag.now.entries }
    requires long { length cone.now ≡ dag.now.rows }
    requires cone { IsEnough dag.now goal cone.now }
    requires empty { solver.old.0.lines ≡ [] }
    ensures { IfOk result (IsBest dag.now goal budget) }
{
    let named = encode(alloc, dag, goal, cone, solver)?;
    let best = within(alloc, solver, dag, goal, cone, named, budget)?;
    Ok(best)
}

/// What a search found, and two numbers. `clauses` counts those of the formula, the counter and the
/// questions. `conflicts` counts the clauses that were learned, one in each conflict.
#[derive(Drop)]
pub struct Searched {
    pub best: Best,
    pub clauses: u64,
    pub conflicts: u64,
}

/// As `smallest`, with the numbers that say how hard it was. No contract speaks of the numbers.
pub fn smallest_counted(
    alloc: Global,
    dag: &Dag,
    goal: Node,
    cone: &Keep,
    budget: Option<u64>,
) -> Result<Searched, NoMemory>
    requires goal { goal < length dag.now.entries }
    requires long { length cone.now ≡ dag.now.rows }
    requires cone { IsEnough dag.now goal cone.now }
    requires budget { IfSome budget (λ b. 1 ≤ b) }
    ensures { IfOk result (λ s. IsBest dag.now goal budget s.best) }
{
    let mut solver = Solver::new(alloc, Checker::new(alloc))?;
    let best = search(alloc, &mut solver, dag, goal, cone, budget);
    let clauses = solver.added();
    let conflicts = solver.conflicts();
    drop(solver);
    Ok(Searched {
        best: best?,
        clauses,
        conflicts,
    })
}

/// The first of the least choices of rows at which the goal is true. The cone has one Bool for
/// each row: where the goal is true it stays true without the rows outside of it, so that these
/// need no search. The budget, if there is one, is the number of clauses that each call of the solver
/// may learn, of which a round makes two at most. It is at least 1. The only error is out of memory.
pub fn smallest(
    alloc: Global,
    dag: &Dag,
    goal: Node,
    cone: &Keep,
    budget: Option<u64>,
) -> Result<Best, NoMemory>
    requires goal { goal < length dag.now.entries }
    requires long { length cone.now ≡ dag.now.rows }
    requires cone { IsEnough dag.now goal cone.now }
    requires budget { IfSome budget (λ b. 1 ≤ b) }
    ensures { IfOk result (IsBest dag.now goal budget) }
{
    let found = smallest_counted(alloc, dag, goal, cone, budget)?;
    Ok(found.best)
}
