//! The tests of names and kinds that several operators share.

ghost use Rattle.rt_relation.specs.Columns as spec;
ghost use Rattle.rt_ra_tree.specs.Refusals.{is_memory};
ghost use Rattle.rt_value.specs.Gives.{Gives};

use crate::column::Column;
use crate::lists::{common_fit, twice};
use crate::relation::Relation;
use rt_ra_tree::RaFault;
use rt_value::Txt;
use std::alloc::Global;

/// The relation, unless a name comes twice.
pub fn unless_twice(alloc: Global, names: &[Txt], relation: Relation) -> Result<Relation, RaFault>
    ensures { Gives is_memory result (spec.unless_twice (spec.twice names.now 0 names.now) relation) }
{
    match twice(names) {
        Some(name) => Err(RaFault::DuplicateColumn(name.copy(alloc)?)),
        None => Ok(relation),
    }
}

/// Columns of one name have to be of one kind.
pub fn check_fit(columns: &[Column], others: &[Column]) -> Result<(), RaFault>
    ensures { Gives is_memory result (spec.if_fit columns.now others.now tt) }
{
    if common_fit(columns, others) {
        Ok(())
    } else {
        Err(RaFault::TypeMismatch)
    }
}
