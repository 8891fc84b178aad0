//! The question for any other choice of at most as many rows as the best. Mostly there is none,
//! and then no more has to be asked.

ghost use Rattle.std.specs.Prelude.{◌≡◌, ◌≤◌, ◌<◌, ◌^◌, IfOk, length};
ghost use Rattle.rt_least.specs.Aimed.{IsAimed};
ghost use Rattle.rt_least.specs.Alone.{AllowsFew, AreKept, HasMoreLines, IsOther};
ghost use Rattle.rt_least.specs.Sought.{IsSought};

use crate::ask::ask;
use rt_clause::{Lit, LitList, MOST_VARIABLES, Named, gate};
use rt_derive::Checker;
use rt_formula::{Dag, Node};
use rt_solver::Solver;
use rt_value::{Keep, List, NoMemory};
use std::alloc::Global;

// For each row that the choice keeps, the literal that says so.
fn kept_rows(alloc: Global, keep: &Keep) -> Result<LitList, NoMemory>
    requires { length keep.now ≤ 2 ^ 61 }
    ensures { IfOk result (AreKept keep.now (length keep.now)) }
{
    let mut kept: LitList = List::new(alloc);
    for row in 0..keep.len() {
        if keep.is(row) {
            kept.push(Lit::of(row, true))?;
        }
    }
    Ok(kept)
}

/// Asks for another choice than the best one, of at most as many rows: for one that leaves out a
/// row of the best. `held` says that no more rows are kept. `None` says that there is none.
pub(crate) fn other(
    alloc: Global,
    solver: &mut Solver<Checker>,
    dag: &Dag,
    goal: Node,
    cone: &Keep,
    named: &mut Named,
    best: &Keep,
    held: Lit,
) -> Result<Option<Keep>, NoMemory>
    requires rows { named.old.rows ≡ dag.now.rows }
    requires best { length best.now ≡ dag.now.rows }
    requires aimed { IsAimed dag.now goal cone.now solver.old.0.lines named.old.next }
    requires few { AllowsFew dag.now solver.old.0.lines best.now held }
    requires low { held.var < named.old.next }
    ensures rows { IfOk result (λ _. named.new.rows ≡ named.old.rows) }
    ensures wider { IfOk result (λ _. named.old.next ≤ named.new.next) }
    ensures small { IfOk result (λ _. named.new.next < 2 ^ 61) }
    ensures longer { IfOk result (λ _. HasMoreLines solver.old.0.lines solver.new.0.lines) }
    ensures aimed { IfOk result (λ _. IsAimed dag.now goal cone.now solver.new.0.lines named.new.next) }
    ensures other { IfOk result (IsOther (IsSought dag.now goal cone.now) best.now) }
{
    let rows = named.rows();
    let next = named.next();
    if next >= MOST_VARIABLES - 1 {
        return Err(NoMemory);
    }
    let kept = kept_rows(alloc, best)?;
    let all = Lit::of(next, true);
    gate(alloc, all, kept.as_slice(), solver)?;
    *named = Named::of(rows, next + 1, named.goal());
    let found = ask(alloc, solver, held, all.negated(), rows, next + 1)?;
    Ok(found)
}
