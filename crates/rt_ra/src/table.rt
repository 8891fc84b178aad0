//! Tables of the schema, the leaves of a text.

ghost use Rattle.rt_ra.specs.Unary as spec;
ghost use Rattle.rt_ra_tree.specs.Refusals.{is_memory};
ghost use Rattle.rt_value.specs.Gives.{Gives};

use rt_algebra::{Query, table_columns};
use rt_ra_tree::RaFault;
use rt_relation::{Relation, next};
use rt_schema::Table;
use rt_value::{Boxed, Txt};
use std::alloc::Global;

/// The table of this name.
pub(crate) fn table_named(alloc: Global, name: &Txt, tables: &[Table]) -> Result<Relation, RaFault>
    ensures { Gives is_memory result (spec.table_named name.now 0 tables.now) }
{
    let mut at = 0;
    for table in tables {
        if table.name == *name {
            let columns = table_columns(alloc, table.columns.as_slice())?;
            let query = Boxed::new(alloc, Query::Table(at))?;
            return Ok(Relation { query, columns });
        }
        at = next(at)?;
    }
    Err(RaFault::UnknownTable(name.copy(alloc)?))
}
