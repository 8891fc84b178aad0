//! Merging the counts of two neighbouring ranges.

ghost use Rattle.std.specs.Prelude.{◌≡◌, ◌<◌, ◌≤◌, ◌+◌, ◌^◌, IfOk, length};
ghost use Rattle.rt_totalizer.specs.Cells.{IsNever};
ghost use Rattle.rt_totalizer.specs.Sums.{IsSum};

use crate::cells::Cells;
use crate::clauses::merging;
use rt_clause::{Adds, Lit, LitList, MOST_VARIABLES};
use rt_value::{List, NoMemory};
use std::alloc::Global;

/// The cells of two neighbouring ranges together. Takes a variable for each cell but the first. Where
/// no row of one range can be kept, the cells of the other stay.
pub(crate) fn merge<A: Adds>(
    alloc: Global,
    never: Lit,
    left: Cells,
    right: Cells,
    next: &mut usize,
    to: &mut A,
) -> Result<Cells, NoMemory>
    requires never { IsNever never (A.lines to.old) }
    requires var { never.var < next.old }
    requires few { next.old ≤ 2 ^ 61 }
    requires some { 0 < length left.list }
    requires same { length left.list ≡ length right.list }
    requires most { left.most + right.most ≤ 2 ^ 61 }
    ensures few { IfOk result (λ _. next.new ≤ 2 ^ 61) }
    ensures len { IfOk result (λ both. length both.list ≡ length left.list) }
    ensures most { IfOk result (λ both. both.most ≤ left.most + right.most) }
    ensures sum { IfOk result (λ both. IsSum never left.list left.most right.list right.most next.old (A.lines to.old) both.list both.most next.new (A.lines to.new)) }
{
    if right.most == 0 {
        return Ok(left);
    }
    if left.most == 0 {
        return Ok(right);
    }
    merge_some(alloc, never, &left, &right, next, to)
}

fn merge_some<A: Adds>(
    alloc: Global,
    never: Lit,
    left: &Cells,
    right: &Cells,
    next: &mut usize,
    to: &mut A,
) -> Result<Cells, NoMemory>
    requires never { IsNever never (A.lines to.old) }
    requires var { never.var < next.old }
    requires few { next.old ≤ 2 ^ 61 }
    requires same { length left.now.list ≡ length right.now.list }
    requires some { 0 < length left.now.list }
    requires most { left.now.most + right.now.most ≤ 2 ^ 61 }
    ensures few { IfOk result (λ _. next.new ≤ 2 ^ 61) }
    ensures len { IfOk result (λ both. length both.list ≡ length left.now.list) }
    ensures most { IfOk result (λ both. both.most ≡ left.now.most + right.now.most) }
    ensures sum { IfOk result (λ both. IsSum never left.now.list left.now.most right.now.list right.now.most next.old (A.lines to.old) both.list both.most next.new (A.lines to.new)) }
{
    let most = left.most + right.most;
    let mut list: LitList = List::new(alloc);
    list.push(never.negated())?;
    for k in 1..left.list.len() {
        if k > most {
            list.push(never)?;
            continue;
        }
        let var = *next;
        if var >= MOST_VARIABLES {
            return Err(NoMemory);
        }
        let out = Lit::of(var, true);
        merging(never, left, right, k, out, to)?;
        list.push(out)?;
        *next = var + 1;
    }
    Ok(Cells { list, most })
}
