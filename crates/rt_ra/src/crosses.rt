//! CROSS: all pairs, where no column is in both operands.

ghost use Rattle.std.specs.Prelude.{◌≡◌, ◌++◌, IfOk};
ghost use Rattle.rt_relation.specs.Operators as spec;
ghost use Rattle.rt_ra_tree.specs.Refusals.{is_memory};
ghost use Rattle.rt_ra_tree.specs.declared.tree.RaOp.TheVariants as op;
ghost use Rattle.rt_value.specs.Gives.{Gives};

use rt_ra_tree::RaFault;
use rt_relation::{Relation, concatenated, product, shared_name};
use rt_value::NoMemory;
use std::alloc::Global;

fn crossed(alloc: Global, left: Relation, right: Relation) -> Result<Relation, NoMemory>
    ensures { IfOk result (λ r. r ≡ record { query = spec.product left.query right.query; columns = left.columns ++ right.columns }) }
{
    let columns = concatenated(alloc, left.columns.as_slice(), right.columns.as_slice())?;
    let query = product(alloc, left.query, right.query)?;
    Ok(Relation { query, columns })
}

/// CROSS.
pub(crate) fn cross(alloc: Global, left: Relation, right: Relation) -> Result<Relation, RaFault>
    ensures { Gives is_memory result (spec.two op.Cross left right) }
{
    match shared_name(alloc, right.columns.as_slice(), left.columns.as_slice())? {
        Some(name) => Err(RaFault::DuplicateColumn(name)),
        None => Ok(crossed(alloc, left, right)?),
    }
}
