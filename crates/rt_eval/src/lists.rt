//! What operators do to lists of rows that are there already: INTERSECT, EXCEPT, projection and
//! product, and the truth of EXISTS and IN.

ghost use Rattle.std.specs.Prelude.{◌≡◌, ◌∷◌, ◌++◌, [], map, not, IfOk};
ghost use Rattle.std.specs.List.{filter};
ghost use Rattle.rt_algebra.specs.Expression.{wrapped, row_by};
ghost use Rattle.rt_algebra.specs.Answer.{has_row, some_truth, member_truth, pairs, join_each};

use crate::rows::Rows;
use rt_algebra::{Expr, cell_truth, row, scope};
use rt_value::{List, NoMemory, Row, Truth, Value};
use std::alloc::Global;

/// EXISTS: whether there is a row.
pub(crate) fn some_truth(rows: &[Row]) -> Truth
    ensures { result ≡ some_truth rows.now }
{
    match rows {
        [] => Truth::No,
        [_, ..] => Truth::Yes,
    }
}

/// IN with a query: whether the value compares equal to one of the rows.
pub(crate) fn member_truth(value: &Value, rows: &[Row]) -> Truth
    ensures { result ≡ member_truth value.now rows.now }
{
    let mut truth = Truth::No;
    for row in rows {
        truth = truth.or(cell_truth(value, row));
    }
    truth
}

/// The rows, and copies of `more` after them.
pub(crate) fn appended(alloc: Global, rows: List<Row>, more: &[Row]) -> Result<List<Row>, NoMemory>
    ensures { IfOk result (λ out. out ≡ rows ++ more.now) }
{
    let mut out = rows;
    for row in more {
        out.push(row.copy(alloc)?)?;
    }
    Ok(out)
}

/// INTERSECT: those of the rows that are among the others.
pub(crate) fn common(alloc: Global, rows: &[Row], others: List<Row>) -> Result<List<Row>, NoMemory>
    ensures { IfOk result (λ out. out ≡ filter (has_row others) rows.now) }
{
    let set = Rows::of(others)?;
    let mut out = List::new(alloc);
    for row in rows {
        if set.has(row) {
            out.push(row.copy(alloc)?)?;
        }
    }
    Ok(out)
}

/// EXCEPT: those of the rows that are not among the others.
pub(crate) fn difference(
    alloc: Global,
    rows: &[Row],
    others: List<Row>,
) -> Result<List<Row>, NoMemory>
    ensures { IfOk result (λ out. out ≡ filter (λ r. not (has_row others r)) rows.now) }
{
    let set = Rows::of(others)?;
    let mut out = List::new(alloc);
    for row in rows {
        if !set.has(row) {
            out.push(row.copy(alloc)?)?;
        }
    }
    Ok(out)
}

/// The values of the items for each row as the innermost in scope.
pub(crate) fn projected(
    alloc: Global,
    rows: &[Row],
    items: &[Expr],
    env: &[&Row],
) -> Result<List<Row>, NoMemory>
    ensures { IfOk result (λ out. out ≡ map (λ r. row_by wrapped items.now (r ∷ map (λ s. s.now) env.now)) rows.now) }
{
    let mut out = List::new(alloc);
    for source in rows {
        let inner = scope(alloc, source, env)?;
        out.push(row(alloc, items, inner.as_slice())?)?;
    }
    Ok(out)
}

/// Each concatenation of one of the rows and one of the others.
pub(crate) fn joined(alloc: Global, rows: &[Row], others: &[Row]) -> Result<List<Row>, NoMemory>
    ensures { IfOk result (λ out. out ≡ pairs rows.now others.now) }
{
    let mut out = List::new(alloc);
    for row in rows {
        out = joined_each(alloc, out, row, others)?;
    }
    Ok(out)
}

// `out`, and the row before each of the others.
fn joined_each(
    alloc: Global,
    out: List<Row>,
    row: &Row,
    others: &[Row],
) -> Result<List<Row>, NoMemory>
    ensures { IfOk result (λ o. o ≡ out ++ join_each row.now others.now) }
{
    let mut out = out;
    for other in others {
        out.push(row.join(alloc, other)?)?;
    }
    Ok(out)
}
