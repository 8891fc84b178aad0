//! One question without a budget. All questions of a size share an assumption.

ghost use Rattle.std.specs.Prelude.{◌≤◌, ◌<◌, Some, IfOk};
ghost use Rattle.rt_least.specs.Attempts.{IsAnswered, IsGrown, IsReply};

use crate::choice::rows_of;
use rt_clause::{Denial, Lit};
use rt_derive::Checker;
use rt_solver::Solver;
use rt_value::{Keep, NoMemory};
use std::alloc::Global;

/// What a question came to: a choice of the rows, or why there is none, as the checker says.
#[derive(Drop)]
pub enum Reply {
    Choice(Keep),
    Denied(Denial),
}

// Asks the solver, and the checker of its lines where the solver finds none.
fn put_question(
    alloc: Global,
    solver: &mut Solver<Checker>,
    held: Lit,
    asked: Lit,
    rows: usize,
    next: usize,
) -> Result<Reply, NoMemory>
    requires rows { rows ≤ next }
    requires asked { asked.var < next }
    ensures grown { IfOk result (λ _. IsGrown solver.old.0.lines solver.new.0.lines (Some held) next) }
    ensures reply { IfOk result (IsReply solver.new.0.lines held asked rows) }
{
    match solver.seek(Some(held), asked, next)? {
        Some(model) => {
            let keep = rows_of(alloc, &model, rows)?;
            Ok(Reply::Choice(keep))
        }
        None => match solver.lines().denial(Some(held), asked) {
            Some(denial) => Ok(Reply::Denied(denial)),
            None => unreachable!(),
        },
    }
}

/// Asks for a choice of the rows at which two literals are true: one that is assumed, and the
/// question. `None` says that there is none, since the checker's lines deny the question.
pub(crate) fn ask(
    alloc: Global,
    solver: &mut Solver<Checker>,
    held: Lit,
    asked: Lit,
    rows: usize,
    next: usize,
) -> Result<Option<Keep>, NoMemory>
    requires rows { rows ≤ next }
    requires asked { asked.var < next }
    ensures grown { IfOk result (λ _. IsGrown solver.old.0.lines solver.new.0.lines (Some held) next) }
    ensures answered { IfOk result (IsAnswered solver.new.0.lines held asked rows) }
{
    match put_question(alloc, solver, held, asked, rows, next)? {
        Reply::Choice(keep) => Ok(Some(keep)),
        Reply::Denied(_) => Ok(None),
    }
}
