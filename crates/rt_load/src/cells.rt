//! The values of a record's fields: an empty field is NULL, blanks around a number don't count.

ghost use Rattle.std.specs.Prelude.{◌≡◌, ◌==◌, length};
ghost use Rattle.csv.specs.Records.{fields_of};
ghost use Rattle.rt_value.specs.Gives.{Gives};
ghost use Rattle.rt_load.specs.Loaded.{cell, cells, is_memory};

use crate::fault::LoadFault;
use crate::integer::{integer_of, trimmed};
use csv::ByteRecord;
use rt_schema::{ColKind, Column};
use rt_value::{Row, Txt, Value};
use std::alloc::Global;

// The value of field `c` of record `n`, in a column of this kind.
fn cell_of(
    alloc: Global,
    kind: ColKind,
    n: usize,
    c: usize,
    field: &[u8],
) -> Result<Value, LoadFault>
    ensures { Gives is_memory result (cell kind n c field.now) }
{
    match kind {
        ColKind::Whole => {
            let number = trimmed(field);
            if number.is_empty() {
                return Ok(Value::Null);
            }
            match integer_of(number) {
                Some(n) => Ok(Value::Int(n)),
                None => Err(LoadFault::BadInteger(n, c)),
            }
        }
        ColKind::Text => {
            if field.is_empty() {
                return Ok(Value::Null);
            }
            match str::from_utf8(field) {
                Ok(text) => Ok(Value::Text(Txt::of(alloc, text)?)),
                Err(_) => Err(LoadFault::BadText(n, c)),
            }
        }
    }
}

/// The values of record `n`, which has a field for each column; or the error of the first field,
/// from the left, that is no value of its column.
pub(crate) fn cells_of(
    alloc: Global,
    columns: &[Column],
    n: usize,
    fields: &ByteRecord,
) -> Result<Row, LoadFault>
    requires { length (fields_of fields.now) ≡ length columns.now }
    ensures { Gives is_memory result (cells columns.now n 1 (fields_of fields.now)) }
{
    let mut row = Row::new(alloc);
    for (i, column) in columns.iter().enumerate() {
        let Some(field) = fields.get(i) else {
            unreachable!();
        };
        row.push(cell_of(alloc, column.kind, n, i + 1, field)?)?;
    }
    Ok(row)
}
