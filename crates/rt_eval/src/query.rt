//! Queries, operator by operator, as lists with repeats. A selection from a product is narrowed
//! first, and its condition tested again only where the parts aren't all of it.

ghost use Rattle.std.specs.Prelude.{◌≡◌, ◌∷◌, [], map, IfOk};
ghost use Rattle.std.specs.List.{filter};
ghost use Rattle.rt_algebra.specs.Expression.{wrapped};
ghost use Rattle.rt_algebra.specs.Answer.{pred_by, answer_by, is_yes};
ghost use Rattle.rt_split.specs.Join.{product_rows};

use crate::condition::{is_yes, pred};
use crate::items::projection;
use crate::join::product;
use crate::lists::{appended, common, difference};
use crate::narrow::narrow;
use rt_algebra::{Pred, Query, scope};
use rt_schema::rows_at;
use rt_value::{List, NoMemory, Row};
use std::alloc::Global;

/// The answer of a query on the rows of the tables, under the rows in scope: a list that may repeat
/// rows, as UNION and projections do.
#[cycle(answer)]
pub fn answer(
    alloc: Global,
    query: &Query,
    tables: &[List<Row>],
    env: &[&Row],
) -> Result<List<Row>, NoMemory>
    ensures { IfOk result (λ rows. rows ≡ answer_by wrapped query.now tables.now (map (λ r. r.now) env.now)) }
{
    match query {
        Query::Table(table) => appended(alloc, List::new(alloc), rows_at(tables, *table)),
        Query::Select(source, condition) => match source.get() {
            Query::Table(table) => {
                let out = selected(alloc, rows_at(tables, *table), condition, tables, env)?;
                Ok(out)
            }
            Query::Product(members) => {
                let lists = each_answer(alloc, members.as_slice(), tables, env)?;
                let out = product_selected(alloc, lists.as_slice(), condition, tables, env);
                drop(lists);
                out
            }
            source => {
                let rows = answer(alloc, source, tables, env)?;
                let out = selected(alloc, rows.as_slice(), condition, tables, env);
                drop(rows);
                out
            }
        },
        Query::Project(source, items) => {
            projection(alloc, source.get(), items.as_slice(), tables, env)
        }
        Query::Product(members) => {
            let lists = each_answer(alloc, members.as_slice(), tables, env)?;
            let out = product(alloc, lists.as_slice());
            drop(lists);
            out
        }
        Query::Union(a, b) => {
            let first = answer(alloc, a.get(), tables, env)?;
            let second = answer(alloc, b.get(), tables, env)?;
            appended(alloc, first, second.as_slice())
        }
        Query::Except(a, b) => {
            let first = answer(alloc, a.get(), tables, env)?;
            let second = answer(alloc, b.get(), tables, env)?;
            let out = difference(alloc, first.as_slice(), second);
            drop(first);
            out
        }
        Query::Intersect(a, b) => {
            let first = answer(alloc, a.get(), tables, env)?;
            let second = answer(alloc, b.get(), tables, env)?;
            common(alloc, first.as_slice(), second)
        }
    }
}

// The rows whose condition is true, each as the innermost in scope.
#[cycle(answer)]
fn selected(
    alloc: Global,
    rows: &[Row],
    condition: &Pred,
    tables: &[List<Row>],
    env: &[&Row],
) -> Result<List<Row>, NoMemory>
    ensures { IfOk result (λ out. out ≡ filter (λ r. is_yes (pred_by wrapped condition.now tables.now (r ∷ map (λ s. s.now) env.now))) rows.now) }
{
    let mut out = List::new(alloc);
    for row in rows {
        let inner = scope(alloc, row, env)?;
        let truth = pred(alloc, condition, tables, inner.as_slice());
        drop(inner);
        if is_yes(truth?) {
            out.push(row.copy(alloc)?)?;
        }
    }
    Ok(out)
}

// The rows of a product whose condition is true.
#[cycle(answer)]
fn product_selected(
    alloc: Global,
    members: &[List<Row>],
    condition: &Pred,
    tables: &[List<Row>],
    env: &[&Row],
) -> Result<List<Row>, NoMemory>
    ensures { IfOk result (λ out. out ≡ filter (λ r. is_yes (pred_by wrapped condition.now tables.now (r ∷ map (λ s. s.now) env.now))) (product_rows ([] ∷ []) members.now)) }
{
    let narrowed = narrow(alloc, members, condition, env)?;
    if narrowed.are_chosen {
        return Ok(narrowed.rows);
    }
    let out = selected(alloc, narrowed.rows.as_slice(), condition, tables, env);
    drop(narrowed);
    out
}

/// The answer of each query, in their order.
#[cycle(answer)]
pub(crate) fn each_answer(
    alloc: Global,
    queries: &[Query],
    tables: &[List<Row>],
    env: &[&Row],
) -> Result<List<List<Row>>, NoMemory>
    ensures { IfOk result (λ out. out ≡ map (λ q. answer_by wrapped q tables.now (map (λ r. r.now) env.now)) queries.now) }
{
    let mut out = List::new(alloc);
    for query in queries {
        out.push(answer(alloc, query, tables, env)?)?;
    }
    Ok(out)
}
