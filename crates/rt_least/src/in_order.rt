//! The first of the smallest choices without a budget: few questions, each whether one of some
//! rows is kept.

ghost use Rattle.std.specs.Prelude.{◌≡◌, ◌≤◌, ◌<◌, ◌^◌, IfOk, length};
ghost use Rattle.rt_least.specs.Aimed.{IsAimed};
ghost use Rattle.rt_least.specs.Leading.{IsLeading};
ghost use Rattle.rt_least.specs.Least.{IsLeast};
ghost use Rattle.rt_least.specs.Order.{IsNext};
ghost use Rattle.rt_least.specs.Sought.{IsSought};

use crate::ask::ask;
use crate::both::both;
use crate::none_kept::none_kept;
use rt_clause::{Lit, Named};
use rt_derive::Checker;
use rt_formula::{Dag, Node};
use rt_solver::Solver;
use rt_value::{Keep, NoMemory};
use std::alloc::Global;

// After so many models for one kept row a question is about half of the rows.
const MOST_MODELS: usize = 8;

// The first row from a place on that is kept, or the number of rows.
fn next_kept(keep: &Keep, place: usize) -> usize
    requires { place ≤ length keep.now }
    ensures { IsNext keep.now place result }
{
    for row in place..keep.len() {
        if keep.is(row) {
            return row;
        }
    }
    keep.len()
}

// Up to where the next question asks: about all rows before the next one that the best keeps, or
// about half of them.
fn next_end(place: usize, row: usize, all: bool) -> usize
    requires { place ≤ row }
    ensures from { place ≤ result }
    ensures within { result ≤ row }
    ensures ahead { place < row → place < result }
{
    if all { row } else { row - (row - place) / 2 }
}

/// Goes on from a choice of the fewest rows to the first of them in the order of rows. Every row
/// below `place` is settled. `held` says which of them are kept, and that no more rows are kept
/// than in the best choice.
///
/// Each round asks for a choice that keeps one of the rows from `place` to before `end`, which is
/// at most `row`, the next one that the best keeps. A model is the best from then on. A refutation
/// settles the rows before `end`. Mostly there is no other choice, so all rows before `row` are asked
/// about. After `MOST_MODELS` models it is half of them, so that many choices need few questions.
///
/// Of six rows with the best {2, 5}, where the first of the smallest is {1, 4}:
///     is row 0 or 1 kept?              yes, by {1, 4}, which is the best now
///     is row 0 kept?                   no: row 0 is left out, and row 1 is kept
///     is row 2 or 3 kept?              no: both are left out, and row 4 is kept
pub(crate) fn in_order(
    alloc: Global,
    solver: &mut Solver<Checker>,
    dag: &Dag,
    goal: Node,
    cone: &Keep,
    named: Named,
    best: Keep,
    held: Lit,
) -> Result<Keep, NoMemory>
    requires rows { named.rows ≡ dag.now.rows }
    requires small { named.next < 2 ^ 61 }
    requires long { length cone.now ≡ dag.now.rows }
    requires aimed { IsAimed dag.now goal cone.now solver.old.0.lines named.next }
    requires leading { IsLeading dag.now goal cone.now solver.old.0.lines best 0 held }
    requires low { held.var < named.next }
    ensures { IfOk result (IsLeast (IsSought dag.now goal cone.now)) }
{
    let rows = named.rows();
    let mut best = best;
    let mut held = held;
    let mut next = named.next();
    let mut place = 0;
    let mut row = next_kept(&best, place);
    let mut end = row;
    let mut models = 0;
    'first: loop {
        if row >= rows {
            return Ok(best);
        }
        if place == row {
            held = both(alloc, held, Lit::of(row, true), next, solver)?;
            next += 1;
            place += 1;
            row = next_kept(&best, place);
            end = row;
            models = 0;
            continue;
        }
        let none = none_kept(alloc, cone, place, end, next, solver)?;
        let asked = both(alloc, held, none.negated(), next + 1, solver)?;
        next += 2;
        if let Some(keep) = ask(alloc, solver, held, asked, rows, next)? {
            best = keep;
            held = asked;
            row = next_kept(&best, place);
            end = next_end(place, row, models < MOST_MODELS);
            models = models.saturating_add(1);
            continue;
        }
        place = end;
        end = row;
    }
}
