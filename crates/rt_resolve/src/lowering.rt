//! From the tree of a query to the typed query that it means, with no scope around it.

ghost use Rattle.std.specs.Prelude.{IfOk};
ghost use Rattle.rt_algebra.specs.Typed.{IsTypedOf};
ghost use Rattle.rt_resolve.specs.Chains.{lowered};
ghost use Rattle.rt_scope.specs.Fault.{is_memory};
ghost use Rattle.rt_value.specs.Gives.{Gives};

use crate::chains::chain;
use rt_algebra::Typed;
use rt_schema::{Schema, Table};
use rt_scope::{NameFault, Source, typed_of};
use rt_tree::Sql;
use std::alloc::Global;

fn lowered(alloc: Global, sql: &Sql, tables: &[Table]) -> Result<Typed, NameFault>
    ensures { Gives is_memory result (lowered sql.now tables.now) }
{
    let outside: [&[Source]; 0] = [];
    let relation = chain(alloc, tables, &sql.chain, &outside)?;
    Ok(typed_of(alloc, relation)?)
}

/// The query that the tree means over the tables of the schema, or its first error in the walk from
/// the left.
pub fn resolve(alloc: Global, sql: &Sql, schema: &Schema) -> Result<Typed, NameFault>
    ensures lowered { Gives is_memory result (lowered sql.now schema.now) }
    ensures typed { IfOk result (IsTypedOf schema.now) }
{
    lowered(alloc, sql, schema.tables())
}
