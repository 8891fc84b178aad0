//! The count of all rows, block by block.

ghost use Rattle.std.specs.Prelude.{◌≡◌, ◌<◌, ◌≤◌, ◌+◌, ◌-◌, ◌^◌, IfOk, length};
ghost use Rattle.rt_totalizer.specs.Sums.{IsCounted, IsReady};

use crate::cells::Cells;
use crate::merge::merge;
use rt_clause::{Adds, Lit};
use rt_value::{Keep, NoMemory};
use std::alloc::Global;

// The rows of a block. Measured: with twelve there are fewer variables than in a counter row by row,
// each kept row makes few of them true, and the cells of all rows before a block help the solver.
const BLOCK: usize = 12;

// The cells of some rows: those of each half, merged.
fn block<A: Adds>(
    alloc: Global,
    among: &Keep,
    upto: usize,
    never: Lit,
    low: usize,
    high: usize,
    next: &mut usize,
    to: &mut A,
) -> Result<Cells, NoMemory>
    requires upto { 0 < upto }
    requires some { low < high }
    requires within { high ≤ length among.now }
    requires few { next.old ≤ 2 ^ 61 }
    requires ready { IsReady among.now never next.old (A.lines to.old) }
    ensures few { IfOk result (λ _. next.new ≤ 2 ^ 61) }
    ensures len { IfOk result (λ cells. length cells.list ≡ upto + 1) }
    ensures most { IfOk result (λ cells. cells.most ≤ high - low) }
    ensures counted { IfOk result (λ cells. IsCounted among.now never low (high - low) cells.most cells.list next.old (A.lines to.old) next.new (A.lines to.new)) }
{
    if high - low == 1 {
        return if among.is(low) {
            Cells::one(alloc, upto, never, Lit::of(low, true))
        } else {
            Cells::none(alloc, upto, never)
        };
    }
    let middle = low + (high - low) / 2;
    let left = block(alloc, among, upto, never, low, middle, next, to)?;
    let right = block(alloc, among, upto, never, middle, high, next, to)?;
    merge(alloc, never, left, right, next, to)
}

// Where the block from a row on ends: after so many rows that are among these, or after all rows.
fn block_end(among: &Keep, low: usize) -> usize
    requires { low < length among.now }
    ensures later { low < result }
    ensures within { result ≤ length among.now }
{
    let mut left = BLOCK;
    for row in low..among.len() {
        if among.is(row) {
            left -= 1;
            if left == 0 {
                return row + 1;
            }
        }
    }
    among.len()
}

/// The cells of all rows.
pub(crate) fn all_rows<A: Adds>(
    alloc: Global,
    among: &Keep,
    upto: usize,
    never: Lit,
    next: &mut usize,
    to: &mut A,
) -> Result<Cells, NoMemory>
    requires upto { 0 < upto }
    requires few { next.old ≤ 2 ^ 61 }
    requires ready { IsReady among.now never next.old (A.lines to.old) }
    ensures len { IfOk result (λ cells. length cells.list ≡ upto + 1) }
    ensures counted { IfOk result (λ cells. IsCounted among.now never 0 (length among.now) cells.most cells.list next.old (A.lines to.old) next.new (A.lines to.new)) }
{
    let mut total = Cells::none(alloc, upto, never)?;
    let mut low = 0;
    while low < among.len() {
        let high = block_end(among, low);
        let part = block(alloc, among, upto, never, low, high, next, to)?;
        total = merge(alloc, never, total, part, next, to)?;
        low = high;
    }
    Ok(total)
}
