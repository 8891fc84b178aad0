//! The values of a row in some columns, as the key by which rows are grouped.

ghost use Rattle.std.specs.Prelude.{◌≡◌, IfOk};
ghost use Rattle.rt_schema.specs.Cells.{cell, cells};

use rt_value::{NoMemory, Row, Value};
use std::alloc::Global;

fn cell(alloc: Global, row: &Row, column: usize) -> Result<Value, NoMemory>
    ensures { IfOk result (λ v. v ≡ cell row.now column) }
{
    match row.as_slice().get(column) {
        None => Ok(Value::Null),
        Some(value) => value.copy(alloc),
    }
}

/// The values of a row in several columns, in the order of the columns; NULL past the row's end.
pub(crate) fn cells(alloc: Global, columns: &[usize], row: &Row) -> Result<Row, NoMemory>
    ensures { IfOk result (λ r. r ≡ cells columns.now row.now) }
{
    let mut values = Row::new(alloc);
    for column in columns {
        values.push(cell(alloc, row, *column)?)?;
    }
    Ok(values)
}
