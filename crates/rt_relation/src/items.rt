//! Columns as expressions, and comparisons of the columns of two operands.

ghost use Rattle.std.specs.Prelude.{◌≡◌, ◌+◌, ◌++◌, IfOk, replicate};
ghost use Rattle.rt_algebra.specs.declared.expr.Expr.TheVariants as expr;
ghost use Rattle.rt_relation.specs.Columns.{names};
ghost use Rattle.rt_relation.specs.Operators as spec;

use crate::column::Column;
use crate::lists::{has, next, place_of};
use rt_algebra::{Expr, Pred};
use rt_value::{List, NoMemory, Op, Txt};
use std::alloc::Global;

/// All columns, as cells of the innermost row.
pub fn own(alloc: Global, columns: &[Column]) -> Result<List<Expr>, NoMemory>
    ensures { IfOk result (λ items. items ≡ spec.own 0 columns.now) }
{
    let mut items = List::new(alloc);
    let mut at = 0;
    for _column in columns {
        items.push(Expr::Col(0, at))?;
        at = next(at)?;
    }
    Ok(items)
}

/// The items so far, and those of the columns that the others have not. The first column has the
/// number `first`.
pub fn with_further(
    so_far: List<Expr>,
    first: usize,
    columns: &[Column],
    others: &[Column],
) -> Result<List<Expr>, NoMemory>
    ensures { IfOk result (λ items. items ≡ so_far ++ spec.further first columns.now others.now) }
{
    let mut items = so_far;
    let mut at = first;
    for column in columns {
        if !has(&column.name, others) {
            items.push(Expr::Col(0, at))?;
        }
        at = next(at)?;
    }
    Ok(items)
}

/// The items so far, and the columns of these names.
pub fn with_placed(
    so_far: List<Expr>,
    names: &[Txt],
    columns: &[Column],
) -> Result<List<Expr>, NoMemory>
    ensures { IfOk result (λ items. items ≡ so_far ++ spec.placed names.now columns.now) }
{
    let mut items = so_far;
    for name in names {
        items.push(Expr::Col(0, place_of(name, columns)))?;
    }
    Ok(items)
}

/// The items so far, and the columns of the names that the others have.
pub(crate) fn with_named(
    so_far: List<Expr>,
    others: &[Column],
    columns: &[Column],
) -> Result<List<Expr>, NoMemory>
    ensures { IfOk result (λ items. items ≡ so_far ++ spec.placed (names others.now) columns.now) }
{
    let mut items = so_far;
    for other in others {
        items.push(Expr::Col(0, place_of(&other.name, columns)))?;
    }
    Ok(items)
}

/// The items so far, and NULL so often.
#[tactic(auto, using(crate::proofs::More::one_null_more))]
pub fn with_nulls(so_far: List<Expr>, count: usize) -> Result<List<Expr>, NoMemory>
    ensures { IfOk result (λ items. items ≡ so_far ++ replicate count expr.Null) }
{
    if count == 0 {
        return Ok(so_far);
    }
    let mut items = so_far;
    items.push(Expr::Null)?;
    with_nulls(items, count - 1)
}

fn sum(a: usize, b: usize) -> Result<usize, NoMemory>
    ensures { IfOk result (λ n. n ≡ a + b) }
{
    match a.checked_add(b) {
        Some(sum) => Ok(sum),
        None => Err(NoMemory),
    }
}

/// The common columns are equal, in the order of the first: its row is `up` rows outward, and the
/// others' columns begin at number `start`. For a join of `(a, b)` and `(b, c)` this is
/// `Col(0, 1) = Col(0, 2)`, with `up` 0 and `start` 2; for a semijoin, whose second row is
/// innermost, it is `Col(1, 1) = Col(0, 0)`, with `up` 1 and `start` 0.
pub fn matching(
    alloc: Global,
    up: usize,
    start: usize,
    columns: &[Column],
    others: &[Column],
) -> Result<List<Pred>, NoMemory>
    ensures { IfOk result (λ conds. conds ≡ spec.matching up start 0 columns.now others.now) }
{
    let mut conds = List::new(alloc);
    let mut at = 0;
    for column in columns {
        if has(&column.name, others) {
            let other = sum(start, place_of(&column.name, others))?;
            conds.push(Pred::Cmp(Op::Eq, Expr::Col(up, at), Expr::Col(0, other)))?;
        }
        at = next(at)?;
    }
    Ok(conds)
}
