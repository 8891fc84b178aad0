//! JOIN: the pairs that agree on all common columns, which come once.

ghost use Rattle.std.specs.Prelude.{◌≡◌, ◌++◌, IfOk, length};
ghost use Rattle.rt_algebra.specs.Parts as parts;
ghost use Rattle.rt_algebra.specs.declared.query.Query.TheVariants as query;
ghost use Rattle.rt_relation.specs.Columns.{further_columns};
ghost use Rattle.rt_relation.specs.Operators as spec;
ghost use Rattle.rt_ra_tree.specs.Refusals.{is_memory};
ghost use Rattle.rt_ra_tree.specs.declared.tree.RaOp.TheVariants as op;
ghost use Rattle.rt_value.specs.Gives.{Gives};

use rt_algebra::{Expr, Pred, Query, selected};
use rt_ra_tree::RaFault;
use rt_relation::{
    Column, Relation, check_fit, items_further, matching, own, product, with_further,
};
use rt_value::{Boxed, List, NoMemory};
use std::alloc::Global;

// The cells of a row, and the further ones of a row that it meets.
fn joined_items(
    alloc: Global,
    columns: &[Column],
    others: &[Column],
) -> Result<List<Expr>, NoMemory>
    ensures { IfOk result (λ items. items ≡ spec.own 0 columns.now ++ spec.further (length columns.now) others.now columns.now) }
{
    let items = own(alloc, columns)?;
    items_further(items, columns.len(), others, columns)
}

// These items of the pairs that meet the conditions.
fn met_pairs(
    alloc: Global,
    left: Boxed<Query>,
    right: Boxed<Query>,
    conds: List<Pred>,
    items: List<Expr>,
) -> Result<Boxed<Query>, NoMemory>
    ensures { IfOk result (λ q. q ≡ query.Project (parts.selected (spec.product left right) conds) items) }
{
    let pairs = product(alloc, left, right)?;
    let rows = selected(alloc, pairs, conds)?;
    Boxed::new(alloc, Query::Project(rows, items))
}

// The conditions, cells and columns of a join.
#[derive(Drop)]
struct Plan {
    conds: List<Pred>,
    items: List<Expr>,
    columns: List<Column>,
}

fn plan_of(alloc: Global, columns: &[Column], others: &[Column]) -> Result<Plan, NoMemory>
    ensures { IfOk result (λ p. p ≡ record { conds = spec.matching 0 (length columns.now) 0 columns.now others.now; items = spec.own 0 columns.now ++ spec.further (length columns.now) others.now columns.now; columns = columns.now ++ further_columns others.now columns.now }) }
{
    let conds = matching(alloc, 0, columns.len(), columns, others)?;
    let items = joined_items(alloc, columns, others)?;
    let columns = with_further(alloc, columns, others)?;
    Ok(Plan {
        conds,
        items,
        columns,
    })
}

/// The rows of the first, each with each row that it meets.
pub(crate) fn joined(alloc: Global, left: Relation, right: Relation) -> Result<Relation, NoMemory>
    ensures { IfOk result (λ j. j ≡ spec.joined left right) }
{
    let Plan {
        conds,
        items,
        columns,
    } = plan_of(alloc, left.columns.as_slice(), right.columns.as_slice())?;
    let query = met_pairs(alloc, left.query, right.query, conds, items)?;
    Ok(Relation { query, columns })
}

/// JOIN.
pub(crate) fn join(alloc: Global, left: Relation, right: Relation) -> Result<Relation, RaFault>
    ensures { Gives is_memory result (spec.two op.Join left right) }
{
    check_fit(left.columns.as_slice(), right.columns.as_slice())?;
    Ok(joined(alloc, left, right)?)
}
