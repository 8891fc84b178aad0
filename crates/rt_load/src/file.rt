//! From a table's file to its rows. `specs/Loaded.antt` fixes the order of the tests, since the
//! first one that fails is the answer.

ghost use Rattle.std.specs.Prelude.{◌≡◌, ◌≤◌, ◌<◌, ◌+◌, ◌-◌, OnOk, OnErr, length, slice_set};
ghost use Rattle.csv.specs.Records.{fields_of};
ghost use Rattle.rt_value.specs.Gives.{Gives};
ghost use Rattle.rt_schema.specs.Given.{IsOf, places, rows_at, row_limit};
ghost use Rattle.rt_load.specs.Loaded.{columns_at, is_memory, loaded, row_at, rows_from, with_rows};
ghost use Rattle.rt_load.specs.Records.{IsReading, left_of};

use crate::cells::cells_of;
use crate::fault::LoadFault;
use crate::header::{begins_with_mark, is_header};
use crate::records::{read_next, reader_of};
use csv::{ByteRecord, Reader};
use rt_schema::{Column, Given, ROW_LIMIT, Schema};
use rt_value::{List, Row};
use std::alloc::Global;

/// Reads the rows of a table from its file into `given`, which has none of this table yet. The
/// first refusal decides: the header, then record by record its number of fields, the number of
/// rows, and its fields from the left. After an error `given` is as it was.
pub fn load(
    alloc: Global,
    schema: &Schema,
    table: usize,
    bytes: &[u8],
    given: &mut Given,
) -> Result<(), LoadFault>
    requires in_range { table < length schema.now }
    requires of_schema { IsOf schema.now given.old }
    requires empty { length (rows_at given.old.tables table) ≡ 0 }
    // what the table now has is what the file gives, and each refusal is the file's
    ensures rows { Gives is_memory (with_rows result (rows_at given.new.tables table))
        (loaded (columns_at schema.now table) bytes.now (places given.old.tables)) }
    ensures others { OnOk result (given.new.tables ≡ slice_set given.old.tables table (rows_at given.new.tables table)) }
    ensures kinds { given.new.kinds ≡ given.old.kinds }
    ensures err { OnErr result (given.new ≡ given.old) }
{
    let columns = schema.tables()[table].columns.as_slice();
    // There is a list of rows for each table: the contract of `tables` says so.
    let _tables = given.tables();
    let rows = rows_of(alloc, columns, bytes, given.total())?;
    given.fill(table, rows);
    Ok(())
}

// The rows of a table's file, where `before` rows are given already.
fn rows_of(
    alloc: Global,
    columns: &[Column],
    bytes: &[u8],
    before: usize,
) -> Result<List<Row>, LoadFault>
    requires { before ≤ row_limit }
    ensures { Gives is_memory result (loaded columns.now bytes.now before) }
{
    if begins_with_mark(bytes) {
        return Err(LoadFault::BadHeader);
    }
    let mut reader = reader_of(alloc, bytes);
    let mut header = ByteRecord::new(alloc);
    if !read_next(&mut reader, &mut header)? || !is_header(columns, &header) {
        return Err(LoadFault::BadHeader);
    }
    rows_left(alloc, columns, &mut reader, before)
}

// The rows of the records after the header.
fn rows_left(
    alloc: Global,
    columns: &[Column],
    reader: &mut Reader<&[u8]>,
    before: usize,
) -> Result<List<Row>, LoadFault>
    requires reading { IsReading reader.old }
    requires within { before ≤ row_limit }
    ensures { Gives is_memory result (rows_from columns.now 2 before (left_of reader.old)) }
{
    let mut fields = ByteRecord::new(alloc);
    let mut rows = List::new(alloc);
    'rows: while read_next(reader, &mut fields)? {
        let row = row_of(alloc, columns, rows.len() + 2, before + rows.len(), &fields)?;
        rows.push(row)?;
    }
    Ok(rows)
}

// The row of record `n`, where `before` rows are there already.
fn row_of(
    alloc: Global,
    columns: &[Column],
    n: usize,
    before: usize,
    fields: &ByteRecord,
) -> Result<Row, LoadFault>
    ensures value { Gives is_memory result (row_at columns.now n before (fields_of fields.now)) }
    ensures room { OnOk result (before < row_limit) }
{
    if fields.len() != columns.len() {
        return Err(LoadFault::FieldCount(n));
    }
    if before >= ROW_LIMIT {
        return Err(LoadFault::TooManyRows);
    }
    cells_of(alloc, columns, n, fields)
}
