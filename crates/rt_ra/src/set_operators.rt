//! UNION, EXCEPT and INTERSECT, over operands whose columns fit.

ghost use Rattle.rt_relation.specs.Columns as columns_spec;
ghost use Rattle.rt_relation.specs.Operators as spec;
ghost use Rattle.rt_ra_tree.specs.Refusals.{is_memory};
ghost use Rattle.rt_value.specs.Gives.{Gives};

use rt_algebra::{SetOp, combined, same_kinds, widened};
use rt_ra_tree::RaFault;
use rt_relation::{Column, Relation};
use rt_value::List;
use std::alloc::Global;

// The columns of two operands under a set operator.
fn united_columns(
    alloc: Global,
    columns: &[Column],
    others: &[Column],
) -> Result<List<Column>, RaFault>
    ensures { Gives is_memory result (columns_spec.united_columns columns.now others.now) }
{
    if columns.len() != others.len() {
        return Err(RaFault::Columns);
    }
    if !same_kinds(columns, others) {
        return Err(RaFault::TypeMismatch);
    }
    Ok(widened(alloc, columns, others)?)
}

/// The operator over operands whose columns fit.
pub(crate) fn united(
    alloc: Global,
    op: SetOp,
    left: Relation,
    right: Relation,
) -> Result<Relation, RaFault>
    ensures { Gives is_memory result (spec.united op left right) }
{
    let columns = united_columns(alloc, left.columns.as_slice(), right.columns.as_slice())?;
    let query = combined(alloc, op, left.query, right.query)?;
    Ok(Relation { query, columns })
}
