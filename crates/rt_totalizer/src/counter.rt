//! The counter of the kept rows.

ghost use Rattle.std.specs.Prelude.{◌≡◌, ℕ, ◌≤◌, ◌<◌, ◌∷◌, IfOk, OnErr, length};
ghost use Rattle.rt_clause.specs.Literal.{Literal};
ghost use Rattle.rt_clause.specs.Lists.{AreBelow, IsBelow};
ghost use Rattle.rt_clause.specs.Gates.{Extends};
ghost use Rattle.rt_totalizer.specs.Cells.{IsLeftOut};
ghost use Rattle.rt_totalizer.specs.Outputs.{CountsRows};

use crate::blocks::all_rows;
use rt_clause::{Adds, Lit, LitList, MOST_VARIABLES, Named, gate};
use rt_value::{Keep, List, NoMemory};
use std::alloc::Global;

/// The literals of a counter: the j-th output, counted from 1, is true exactly where at least j rows
/// are kept.
#[derive(Drop)]
pub struct Outputs {
    pub outs: LitList,
}

// All but the first.
fn rest(alloc: Global, cells: &LitList) -> Result<LitList, NoMemory>
    requires { 0 < length cells.now }
    ensures { IfOk result (λ outs. (l : Literal) × (cells.now ≡ l ∷ outs)) }
{
    match cells.as_slice() {
        [] => Ok(List::new(alloc)),
        [_, outs @ ..] => List::from_slice(alloc, outs),
    }
}

/// Adds clauses that count the kept rows up to a bound: about two clauses for each row and number of
/// rows, and a variable for twelve of them. Moves the first unused variable past them. After an error
/// some clauses may have been added.
pub fn count<A: Adds>(
    alloc: Global,
    upto: usize,
    named: &mut Named,
    to: &mut A,
) -> Result<Outputs, NoMemory>
    requires upto { upto ≤ named.old.rows }
    requires below { AreBelow named.old.next (A.lines to.old) }
    ensures rows { named.new.rows ≡ named.old.rows }
    ensures goal { named.new.goal ≡ named.old.goal }
    ensures len { IfOk result (λ o. length o.outs ≡ upto) }
    ensures low { IfOk result (λ o. IsBelow named.new.next o.outs) }
    ensures extends { IfOk result (λ _. Extends (A.lines to.old) named.old.next (A.lines to.new) named.new.next) }
    ensures counts { IfOk result (λ o. CountsRows named.old.rows (A.lines to.new) o.outs) }
    ensures err { OnErr result (named.new ≡ named.old) }
{
    let all = Keep::all(alloc, named.rows(), true)?;
    count_among(alloc, &all, upto, named, to)
}

/// As `count`, where the clauses so far leave all rows out but some: only these take variables and
/// clauses.
pub fn count_among<A: Adds>(
    alloc: Global,
    among: &Keep,
    upto: usize,
    named: &mut Named,
    to: &mut A,
) -> Result<Outputs, NoMemory>
    requires long { length among.now ≡ named.old.rows }
    requires out { (row : ℕ) → row < named.old.rows → IsLeftOut among.now row (A.lines to.old) }
    requires upto { upto ≤ named.old.rows }
    requires below { AreBelow named.old.next (A.lines to.old) }
    ensures rows { named.new.rows ≡ named.old.rows }
    ensures goal { named.new.goal ≡ named.old.goal }
    ensures len { IfOk result (λ o. length o.outs ≡ upto) }
    ensures low { IfOk result (λ o. IsBelow named.new.next o.outs) }
    ensures extends { IfOk result (λ _. Extends (A.lines to.old) named.old.next (A.lines to.new) named.new.next) }
    ensures counts { IfOk result (λ o. CountsRows named.old.rows (A.lines to.new) o.outs) }
    ensures err { OnErr result (named.new ≡ named.old) }
{
    if upto == 0 {
        return Ok(Outputs {
            outs: List::new(alloc),
        });
    }
    let rows = named.rows();
    let start = named.next();
    if start >= MOST_VARIABLES {
        return Err(NoMemory);
    }
    let never = Lit::of(start, false);
    gate(alloc, never.negated(), &[], to)?;
    let mut next = start + 1;
    let total = all_rows(alloc, among, upto, never, &mut next, to)?;
    let outs = rest(alloc, &total.list)?;
    *named = Named::of(rows, next, named.goal());
    Ok(Outputs { outs })
}
