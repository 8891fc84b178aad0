//! Tables of the schema as sources.

ghost use Rattle.std.specs.Prelude.{◌≡◌, IfOk};
ghost use Rattle.rt_scope.specs.Relations as spec;
ghost use Rattle.rt_scope.specs.Fault.{is_memory};
ghost use Rattle.rt_value.specs.Gives.{Gives};

use crate::fault::NameFault;
use crate::lookup::after;
use crate::relation::{Relation, TableRef};
use rt_algebra::{Query, table_columns};
use rt_schema::Table;
use rt_tree::Alias;
use rt_value::{Boxed, NoMemory, Txt};
use std::alloc::Global;

fn table_ref(alloc: Global, name: Txt, at: usize, table: &Table) -> Result<TableRef, NoMemory>
    ensures { IfOk result (λ t. t ≡ spec.table_ref name at table.now) }
{
    let columns = table_columns(alloc, table.columns.as_slice())?;
    let query = Boxed::new(alloc, Query::Table(at))?;
    Ok(TableRef {
        name,
        relation: Relation { query, columns },
    })
}

/// The table of this name, under its own name in the query. The first of the tables has the number
/// `first`.
pub fn table_named(
    alloc: Global,
    table: &Txt,
    name: Txt,
    first: usize,
    tables: &[Table],
) -> Result<TableRef, NameFault>
    ensures { Gives is_memory result (spec.table_named table.now name first tables.now) }
{
    let mut at = first;
    for next in tables {
        if next.name == *table {
            return Ok(table_ref(alloc, name, at, next)?);
        }
        at = after(at)?;
    }
    Err(NameFault::UnknownTable(table.copy(alloc)?))
}

/// An alias, or else the table's name.
pub fn alias_or(alloc: Global, alias: &Option<Alias>, name: &Txt) -> Result<Txt, NoMemory>
    ensures { IfOk result (λ own. own ≡ spec.alias_or alias.now name.now) }
{
    match alias {
        Some(alias) => alias.name.text.copy(alloc),
        None => name.copy(alloc),
    }
}
