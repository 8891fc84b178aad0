//! The steps of a certificate: a new search over the lines of the encoding, whose conflicts are
//! recorded.

ghost use Rattle.std.specs.Prelude.{◌≡◌, ◌++◌, IfOk};
ghost use Rattle.std.specs.List.{AllByRecursion as Each};
ghost use Rattle.rt_clause.specs.Refuting.{IsRefuted};
ghost use Rattle.rt_recorder.specs.Certificate.{IsStep};
ghost use Rattle.rt_recorder.specs.Checking.{AreAccepted, HasNoModel, clauses};

use crate::lines::put_lines;
use rt_clause::{Clauses, Lit};
use rt_recorder::{Encoded, Recorder, Step};
use rt_solver::{Found, Order, Solver};
use rt_value::{List, NoMemory};
use std::alloc::Global;

// One more than the greatest variable of a clause, or the number so far if that is more.
fn reach(variables: usize, line: &[Lit]) -> usize {
    let mut most = variables;
    for lit in line {
        most = most.max(lit.var() + 1);
    }
    most
}

// The number of variables. No contract speaks of it, since the search may decide them in any
// order. With all of them to be decided first, what it learns is as short as can be.
fn variables(lines: &Clauses) -> usize {
    let mut most = 0;
    for i in 0..lines.len() {
        most = reach(most, lines.at(i));
    }
    most
}

fn copy_of(alloc: Global, step: &Step) -> Result<Step, NoMemory>
    ensures { IfOk result (λ copy. copy ≡ step.now) }
{
    let lits = List::from_slice(alloc, step.lits.as_slice())?;
    let hints = List::from_slice(alloc, step.hints.as_slice())?;
    Ok(Step { lits, hints })
}

fn copied(alloc: Global, steps: &[Step]) -> Result<List<Step>, NoMemory>
    ensures { IfOk result (λ copies. copies ≡ steps.now) }
{
    let mut copies = List::new(alloc);
    for step in steps {
        copies.push(copy_of(alloc, step)?)?;
    }
    Ok(copies)
}

/// The steps by which the lines refute what is assumed, found by one search.
pub(crate) fn refutation(alloc: Global, encoded: &Encoded) -> Result<List<Step>, NoMemory>
    requires { HasNoModel encoded.now.lines encoded.now.assume }
    ensures accepted { IfOk result (AreAccepted encoded.now.lines) }
    ensures refuted { IfOk result (λ steps. IsRefuted (encoded.now.lines ++ clauses steps) encoded.now.assume) }
    ensures spelled { IfOk result (Each IsStep) }
{
    let mut solver = Solver::new(alloc, Recorder::new(alloc))?;
    put_lines(&encoded.lines, &mut solver)?;
    let first = variables(&encoded.lines);
    match solver.solve(encoded.assume, first, None, Order::Free)? {
        Found::Refuted => copied(alloc, solver.lines().steps()),
        Found::Model(_) => unreachable!(),
        Found::Spent(_) => unreachable!(),
    }
}
