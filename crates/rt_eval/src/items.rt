//! Projections. A row of a selection is projected as soon as it is tested, so that the selection is
//! never there as a whole.

ghost use Rattle.std.specs.Prelude.{◌≡◌, ◌∷◌, ◌++◌, [], map, IfOk};
ghost use Rattle.rt_algebra.specs.Answer.{answer_by};
ghost use Rattle.rt_algebra.specs.Expression.{wrapped, row_by};
ghost use Rattle.rt_split.specs.Join.{product_rows};
ghost use Rattle.rt_eval.specs.Items.{items_where};
ghost use Rattle.rt_eval.specs.Pairs.{all_joined};

use crate::condition::{is_yes, pred};
use crate::join::product;
use crate::lists::projected;
use crate::narrow::narrow_pairs;
use crate::pairs::Pairs;
use crate::query::{answer, each_answer};
use rt_algebra::{Expr, Pred, Query, row, scope};
use rt_schema::rows_at;
use rt_value::{List, NoMemory, Row};
use std::alloc::Global;

/// The values of the items for each row of the source, with repeats.
#[cycle(answer)]
pub(crate) fn projection(
    alloc: Global,
    source: &Query,
    items: &[Expr],
    tables: &[List<Row>],
    env: &[&Row],
) -> Result<List<Row>, NoMemory>
    ensures { IfOk result (λ out. out ≡ map (λ r. row_by wrapped items.now (r ∷ map (λ s. s.now) env.now)) (answer_by wrapped source.now tables.now (map (λ s. s.now) env.now))) }
{
    match source {
        Query::Select(inner, condition) => match inner.get() {
            Query::Table(table) => {
                let rows = rows_at(tables, *table);
                let out = row_items(alloc, List::new(alloc), rows, condition, items, tables, env)?;
                Ok(out)
            }
            Query::Product(members) => {
                let lists = each_answer(alloc, members.as_slice(), tables, env)?;
                let out = product_items(alloc, lists.as_slice(), condition, items, tables, env);
                drop(lists);
                out
            }
            _ => {
                let rows = answer(alloc, inner.get(), tables, env)?;
                let out = row_items(
                    alloc,
                    List::new(alloc),
                    rows.as_slice(),
                    condition,
                    items,
                    tables,
                    env,
                );
                drop(rows);
                out
            }
        },
        source => {
            let rows = answer(alloc, source, tables, env)?;
            projected(alloc, rows.as_slice(), items, env)
        }
    }
}

// The items for each row of the product on which the condition is true.
#[cycle(answer)]
fn product_items(
    alloc: Global,
    members: &[List<Row>],
    condition: &Pred,
    items: &[Expr],
    tables: &[List<Row>],
    env: &[&Row],
) -> Result<List<Row>, NoMemory>
    ensures { IfOk result (λ out. out ≡ items_where condition.now items.now tables.now (map (λ s. s.now) env.now) (product_rows ([] ∷ []) members.now)) }
{
    match narrow_pairs(alloc, members, condition, env)? {
        None => {
            let rows = product(alloc, members)?;
            let out = row_items(
                alloc,
                List::new(alloc),
                rows.as_slice(),
                condition,
                items,
                tables,
                env,
            );
            drop(rows);
            out
        }
        Some(pairs) => {
            let out = pair_items(alloc, &pairs, condition, items, tables, env);
            drop(pairs);
            out
        }
    }
}

// The items for each of the joined rows on which the condition is true. Not all rows are in memory
// at once: for each of the rows before the last member its joined rows are made, tested and freed.
#[cycle(answer)]
fn pair_items(
    alloc: Global,
    pairs: &Pairs,
    condition: &Pred,
    items: &[Expr],
    tables: &[List<Row>],
    env: &[&Row],
) -> Result<List<Row>, NoMemory>
    ensures { IfOk result (λ out. out ≡ items_where condition.now items.now tables.now (map (λ s. s.now) env.now) (all_joined pairs.now.befores pairs.now.rows pairs.now.places)) }
{
    let mut out = List::new(alloc);
    for at in 0..pairs.len() {
        let rows = pairs.joined_at(alloc, List::new(alloc), at)?;
        out = row_items(alloc, out, rows.as_slice(), condition, items, tables, env)?;
    }
    Ok(out)
}

// `out`, and the items for each of the rows on which the condition is true.
#[cycle(answer)]
fn row_items(
    alloc: Global,
    out: List<Row>,
    rows: &[Row],
    condition: &Pred,
    items: &[Expr],
    tables: &[List<Row>],
    env: &[&Row],
) -> Result<List<Row>, NoMemory>
    ensures { IfOk result (λ o. o ≡ out ++ items_where condition.now items.now tables.now (map (λ s. s.now) env.now) rows.now) }
{
    let mut out = out;
    for source in rows {
        let inner = scope(alloc, source, env)?;
        let truth = pred(alloc, condition, tables, inner.as_slice())?;
        if is_yes(truth) {
            out.push(row(alloc, items, inner.as_slice())?)?;
        }
    }
    Ok(out)
}
