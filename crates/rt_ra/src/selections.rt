//! SELECT: the rows that meet all tests.

ghost use Rattle.rt_ra.specs.Unary as spec;
ghost use Rattle.rt_ra_tree.specs.Refusals.{is_memory};
ghost use Rattle.rt_value.specs.Gives.{Gives};

use crate::conditions::tests as conditions;
use rt_algebra::selected;
use rt_ra_tree::{RaFault, RaTests};
use rt_relation::Relation;
use std::alloc::Global;

/// The rows that meet the tests.
pub(crate) fn select(alloc: Global, of: Relation, tests: &RaTests) -> Result<Relation, RaFault>
    ensures { Gives is_memory result (spec.select of tests.now) }
{
    let Relation { query, columns } = of;
    let conds = conditions(alloc, columns.as_slice(), tests)?;
    let query = selected(alloc, query, conds)?;
    Ok(Relation { query, columns })
}
