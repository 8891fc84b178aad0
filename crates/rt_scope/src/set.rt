//! Set operators over operands whose columns fit.

ghost use Rattle.rt_scope.specs.Relations as spec;
ghost use Rattle.rt_scope.specs.Fault.{is_memory};
ghost use Rattle.rt_value.specs.Gives.{Gives};

use crate::column::Column;
use crate::fault::NameFault;
use crate::relation::Relation;
use rt_algebra::{SetOp, combined, same_kinds, widened};
use rt_value::List;
use std::alloc::Global;

// The columns of two operands under a set operator.
fn united_columns(
    alloc: Global,
    columns: &[Column],
    others: &[Column],
) -> Result<List<Column>, NameFault>
    ensures { Gives is_memory result (spec.united_columns columns.now others.now) }
{
    if columns.len() != others.len() {
        return Err(NameFault::Columns);
    }
    if !same_kinds(columns, others) {
        return Err(NameFault::TypeMismatch);
    }
    Ok(widened(alloc, columns, others)?)
}

fn related(alloc: Global, op: SetOp, t: Relation, u: Relation) -> Result<Relation, NameFault>
    ensures { Gives is_memory result (spec.related op t u) }
{
    let columns = united_columns(alloc, t.columns.as_slice(), u.columns.as_slice())?;
    let query = combined(alloc, op, t.query, u.query)?;
    Ok(Relation { query, columns })
}

/// INTERSECT.
pub fn intersected(alloc: Global, t: Relation, u: Relation) -> Result<Relation, NameFault>
    ensures { Gives is_memory result (spec.intersected t u) }
{
    related(alloc, SetOp::Intersect, t, u)
}

/// EXCEPT or UNION.
pub fn united(alloc: Global, except: bool, t: Relation, u: Relation) -> Result<Relation, NameFault>
    ensures { Gives is_memory result (spec.united except t u) }
{
    if except {
        related(alloc, SetOp::Except, t, u)
    } else {
        related(alloc, SetOp::Union, t, u)
    }
}
