//! PROJECT: named columns, in the order of the names.

ghost use Rattle.rt_ra.specs.Unary as spec;
ghost use Rattle.rt_ra_tree.specs.Refusals.{is_memory};
ghost use Rattle.rt_value.specs.Gives.{Gives};

use rt_algebra::Query;
use rt_ra_tree::RaFault;
use rt_relation::{Relation, picked, unless_twice, with_placed};
use rt_value::{Boxed, List, Txt};
use std::alloc::Global;

/// The columns of these names.
pub(crate) fn project(alloc: Global, of: Relation, names: &[Txt]) -> Result<Relation, RaFault>
    ensures { Gives is_memory result (spec.project of names.now) }
{
    let Relation { query, columns } = of;
    let named = picked(alloc, names, columns.as_slice())?;
    let items = with_placed(List::new(alloc), names, columns.as_slice())?;
    let query = Boxed::new(alloc, Query::Project(query, items))?;
    let relation = Relation {
        query,
        columns: named,
    };
    unless_twice(alloc, names, relation)
}
