//! One call of the solver, or two where a budget can be spent.

ghost use Rattle.std.specs.Prelude.{◌≤◌, IfOk, IfSome};
ghost use Rattle.rt_least.specs.Attempts.{IsGrown, IsTold};

use rt_clause::Lit;
use rt_derive::Checker;
use rt_solver::{Found, Order, Solver};
use rt_value::NoMemory;

/// Whether a search with clauses over the rows can spend the budget: there are more choices of the
/// rows than clauses in the budget.
pub(crate) fn is_small(budget: Option<u64>, rows: usize) -> bool {
    match budget {
        None => false,
        Some(most) => rows >= 64 || most >> rows == 0,
    }
}

/// Searches with clauses over all variables. If that spends the budget, it searches once more,
/// from the lines so far, with clauses over the rows. A budget that can't be spent over the rows
/// is left out.
pub fn attempt(
    solver: &mut Solver<Checker>,
    assume: &Option<Lit>,
    rows: usize,
    next: usize,
    budget: Option<u64>,
) -> Result<Found, NoMemory>
    requires rows { rows ≤ next }
    requires budget { IfSome budget (λ b. 1 ≤ b) }
    ensures grown { IfOk result (λ _. IsGrown solver.old.0.lines solver.new.0.lines assume.now next) }
    ensures told { IfOk result (λ found. IsTold solver.old.0.lines solver.new.0.lines assume.now next rows budget found) }
{
    if !is_small(budget, rows) {
        let found = solver.solve(*assume, next, None, Order::Free)?;
        return Ok(found);
    }
    match solver.solve(*assume, next, budget, Order::Free)? {
        Found::Model(model) => Ok(Found::Model(model)),
        Found::Refuted => Ok(Found::Refuted),
        Found::Spent(_) => {
            let found = solver.solve(*assume, rows, budget, Order::Free)?;
            Ok(found)
        }
    }
}
