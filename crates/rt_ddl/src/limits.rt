//! How large a schema may be: limits of our own, not the standard's.

ghost use Rattle.std.specs.Prelude.{◌≡◌};
ghost use Rattle.rt_ddl.specs.Meaning as spec;
ghost use Rattle.rt_ddl.specs.Meaning.{is_memory};
ghost use Rattle.rt_value.specs.Gives.{Gives};

use crate::fault::{Excess, SchemaFault};
use rt_schema::{Rule, Table};
use std::alloc::Global;

/// The most tables, the most columns of a table, and the most keys, foreign keys, checks and
/// dependencies of a table together.
pub(crate) const MOST: usize = 64;

fn is_counted(rule: &Rule) -> bool
    ensures { result ≡ spec.is_counted rule.now }
{
    match rule {
        Rule::NotNull(_) => false,
        Rule::Key(_) => true,
        Rule::Foreign(_) => true,
        Rule::Check(_) => true,
        Rule::Depend(_) => true,
    }
}

fn is_wide(table: &Table) -> bool
    ensures { result ≡ spec.is_wide table.now }
{
    MOST < table.columns.len()
}

fn is_ruled(table: &Table) -> bool
    ensures { result ≡ spec.is_ruled table.now }
{
    let rules = table.rules.as_slice().iter();
    MOST < rules.filter(|rule| is_counted(rule)).count()
}

fn check_table(alloc: Global, table: &Table) -> Result<(), SchemaFault>
    ensures { Gives is_memory result (spec.unless (spec.table_excess table.now) tt) }
{
    if is_wide(table) {
        let name = table.name.copy(alloc)?;
        return Err(SchemaFault::TooMany(Excess::Columns(name)));
    }
    if is_ruled(table) {
        let name = table.name.copy(alloc)?;
        return Err(SchemaFault::TooMany(Excess::Rules(name)));
    }
    Ok(())
}

/// The first excess: too many tables, or else the first table with too many columns or rules.
pub(crate) fn check_limits(alloc: Global, tables: &[Table]) -> Result<(), SchemaFault>
    ensures { Gives is_memory result (spec.unless (spec.excess_of tables.now) tt) }
{
    if MOST < tables.len() {
        return Err(SchemaFault::TooMany(Excess::Tables));
    }
    for table in tables {
        check_table(alloc, table)?;
    }
    Ok(())
}
