//! When two rows have the same values in some columns: keys, foreign keys and dependencies are
//! built from this. A column past the end of a row reads as NULL.

ghost use Rattle.std.specs.Prelude.{◌≡◌, ◌≤◌, length, slice_index_or};
ghost use Rattle.std.specs.List.{list_any};
ghost use Rattle.rt_value.specs.Value.{value_eq};
ghost use Rattle.rt_value.specs.Row.{row_eq};
ghost use Rattle.rt_value.specs.declared.value.Value.TheVariants.{Null};
ghost use Rattle.rt_schema.specs.Kept.{kept_rows};
ghost use Rattle.rt_schema.specs.Cells.{agree, cell, cells, is_null, same_in};

use rt_value::{Row, Value};

/// Whether a row has NULL in a column.
pub fn null_at(row: &Row, column: usize) -> bool
    ensures { result ≡ is_null (cell row.now column) }
{
    match row.as_slice().get(column) {
        None => true,
        Some(value) => is_null(value),
    }
}

/// Whether a row has NULL in one of the columns.
pub fn has_null(row: &Row, columns: &[usize]) -> bool
    ensures { result ≡ list_any is_null (cells columns.now row.now) }
{
    for column in columns {
        if null_at(row, *column) {
            return true;
        }
    }
    false
}

/// Whether the first row has in the columns `from` what the second has in the columns `to`, with
/// no NULL among these values.
pub fn agree(from: &[usize], to: &[usize], row: &Row, other: &Row) -> bool
    ensures { result ≡ agree from.now to.now row.now other.now }
{
    same_cells(row, from, other, to) && !has_null(row, from)
}

/// Whether two rows have the same in the columns, NULL being the same as NULL.
pub fn same_in(columns: &[usize], row: &Row, other: &Row) -> bool
    ensures { result ≡ same_in columns.now row.now other.now }
{
    same_cells(row, columns, other, columns)
}

fn same_cells(row: &Row, from: &[usize], other: &Row, to: &[usize]) -> bool
    ensures { result ≡ row_eq (cells from.now row.now) (cells to.now other.now) }
{
    match from {
        [] => match to {
            [] => true,
            [_, ..] => false,
        },
        [column, from_rest @ ..] => match to {
            [] => false,
            [other_column, to_rest @ ..] => {
                same_cell(row, *column, other, *other_column)
                    && same_cells(row, from_rest, other, to_rest)
            }
        },
    }
}

fn same_cell(row: &Row, column: usize, other: &Row, other_column: usize) -> bool
    ensures { result ≡ value_eq (cell row.now column) (cell other.now other_column) }
{
    match (
        row.as_slice().get(column),
        other.as_slice().get(other_column),
    ) {
        (Some(x), Some(y)) => *x == *y,
        (Some(x), None) => is_null(x),
        (None, Some(y)) => is_null(y),
        (None, None) => true,
    }
}

/// Whether a value is NULL.
pub fn is_null(value: &Value) -> bool
    ensures { result ≡ is_null value.now }
{
    matches!(value, Value::Null)
}
