//! The clauses of one output of a merging: it is true exactly where the rows that are kept on the left
//! and those on the right are enough together.

ghost use Rattle.std.specs.Prelude.{◌≡◌, ◌-◌, ◌<◌, ◌≤◌, ◌++◌, ◌∷◌, [], List, OnOk, length};
ghost use Rattle.rt_clause.specs.Literal.{Literal, negated};
ghost use Rattle.rt_totalizer.specs.Clauses.{up_there, down_there};
ghost use Rattle.rt_totalizer.specs.Merging.{IsMerging, without};

use crate::cells::Cells;
use rt_clause::{Adds, Lit};
use rt_value::NoMemory;

// Adds a clause without the literal that is never true.
fn add_without<A: Adds>(never: Lit, clause: [Lit; 3], to: &mut A) -> Result<(), NoMemory>
    ensures { OnOk result (A.lines to.new ≡ A.lines to.old ++ without never clause ∷ []) }
{
    let mut kept = clause;
    let mut len: usize = 0;
    for l in clause.iter() {
        if *l != never {
            kept[len] = *l;
            len += 1;
        }
    }
    to.add(&kept[..len])
}

// Adds the clause by which i rows on the left and the others of k on the right make the output true,
// if there can be so many.
fn add_up<A: Adds>(
    never: Lit,
    left: &Cells,
    right: &Cells,
    k: usize,
    i: usize,
    out: Lit,
    to: &mut A,
) -> Result<(), NoMemory>
    requires left { k < length left.now.list }
    requires right { k < length right.now.list }
    requires part { i ≤ k }
    ensures { OnOk result (A.lines to.new ≡ A.lines to.old ++ up_there never left.now.list right.now.list left.now.most right.now.most out i (k - i)) }
{
    let j = k - i;
    if i > left.most || j > right.most {
        return Ok(());
    }
    add_without(
        never,
        [left.at(i).negated(), right.at(j).negated(), out],
        to,
    )
}

// Adds the clause by which the output is false where at most i rows on the left and one fewer than
// the others of k on the right are kept, if there can be so many.
fn add_down<A: Adds>(
    never: Lit,
    left: &Cells,
    right: &Cells,
    k: usize,
    i: usize,
    out: Lit,
    to: &mut A,
) -> Result<(), NoMemory>
    requires left { k < length left.now.list }
    requires right { k < length right.now.list }
    requires part { i < k }
    ensures { OnOk result (A.lines to.new ≡ A.lines to.old ++ down_there never left.now.list right.now.list left.now.most right.now.most out i (k - i - 1)) }
{
    let j = k - i;
    if i > left.most || j - 1 > right.most {
        return Ok(());
    }
    add_without(never, [left.at(i + 1), right.at(j), out.negated()], to)
}

/// Adds the clauses by which `out` is true exactly where at least k rows of both ranges are kept.
/// After an error some of them may have been added.
pub(crate) fn merging<A: Adds>(
    never: Lit,
    left: &Cells,
    right: &Cells,
    k: usize,
    out: Lit,
    to: &mut A,
) -> Result<(), NoMemory>
    requires some { 0 < k }
    requires left { k < length left.now.list }
    requires right { k < length right.now.list }
    ensures { OnOk result ((clauses : List (List Literal)) × (A.lines to.new ≡ A.lines to.old ++ clauses) × IsMerging never left.now.list right.now.list left.now.most right.now.most k out clauses) }
{
    // Lower, and from `end` on, there are no clauses, since there cannot be so many rows on one side.
    let low = (k - 1).saturating_sub(right.most);
    let end = left.most.min(k - 1) + 1;
    for i in low..end {
        add_up(never, left, right, k, i, out, to)?;
        add_down(never, left, right, k, i, out, to)?;
    }
    add_up(never, left, right, k, k, out, to)
}
