//! The columns of a table, as a query begins with them.

ghost use Rattle.std.specs.Prelude.{◌≡◌, IfOk};
ghost use Rattle.rt_algebra.specs.TextColumns as spec;

use crate::column::Column;
use rt_schema::{ColKind, Column as TableColumn};
use rt_value::{List, NoMemory};
use std::alloc::Global;

fn table_column<C: Column>(alloc: Global, column: &TableColumn) -> Result<C, NoMemory>
    ensures { IfOk result (λ c. c ≡ spec.table_column C.named column.now) }
{
    let bound = match column.kind {
        ColKind::Whole => 9_223_372_036_854_775_808,
        ColKind::Text => 0,
    };
    let name = column.name.copy(alloc)?;
    Ok(C::new(name, column.kind, bound))
}

/// The columns of a table in a query.
pub fn table_columns<C: Column>(alloc: Global, columns: &[TableColumn]) -> Result<List<C>, NoMemory>
    ensures { IfOk result (λ all. all ≡ spec.table_columns C.named columns.now) }
{
    let mut all = List::new(alloc);
    for column in columns {
        all.push(table_column(alloc, column)?)?;
    }
    Ok(all)
}
