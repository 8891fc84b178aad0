//! The lines of kept rows, shared by the texts of a witness and of a spent budget.

ghost use Rattle.std.specs.Prelude.{◌≡◌, ◌≤◌, ◌++◌, ◌<◌, OnOk, length};
ghost use Rattle.rt_schema.specs.Given.{places};
ghost use Rattle.rt_print.specs.Texts as spec;

use crate::cells::{put_cells, put_number};
use rt_schema::{Given, Schema, Table};
use rt_value::{Bytes, Keep, List, NoMemory, Row, Txt};
use std::alloc::Global;

/// A line for each kept place, in order, such as `beers 2: 'Bud', 5`: the table, the number of the
/// row in its table from 1, and its values.
pub(crate) fn put_kept(
    alloc: Global,
    text: &mut Bytes,
    schema: &Schema,
    given: &Given,
    keep: &Keep,
) -> Result<(), NoMemory>
    requires { places given.now.tables ≡ length keep.now }
    ensures { OnOk result (text.new ≡ text.old ++ spec.kept_lines schema.now given.now.tables keep.now) }
{
    put_tables(
        alloc,
        text,
        schema.tables(),
        given.tables(),
        keep.as_slice(),
    )
}

fn put_tables(
    alloc: Global,
    text: &mut Bytes,
    tables: &[Table],
    given: &[List<Row>],
    keep: &[bool],
) -> Result<(), NoMemory>
    requires { places given.now ≡ length keep.now }
    ensures { OnOk result (text.new ≡ text.old ++ spec.kept_lines tables.now given.now keep.now) }
{
    match tables {
        [] => Ok(()),
        [table, more_tables @ ..] => match given {
            [] => Ok(()),
            [rows, more_given @ ..] => {
                put_table(alloc, text, &table.name, rows.as_slice(), keep)?;
                put_tables(alloc, text, more_tables, more_given, &keep[rows.len()..])
            }
        },
    }
}

// The kept rows of a table, whose places are the first of `keep`.
fn put_table(
    alloc: Global,
    text: &mut Bytes,
    name: &Txt,
    rows: &[Row],
    keep: &[bool],
) -> Result<(), NoMemory>
    requires { length rows.now ≤ length keep.now }
    ensures { OnOk result (text.new ≡ text.old ++ spec.table_lines name.now 1 rows.now keep.now) }
{
    for (i, row) in rows.iter().enumerate() {
        if keep[i] {
            put_kept_line(alloc, text, name, i + 1, row)?;
        }
    }
    Ok(())
}

fn put_kept_line(
    alloc: Global,
    text: &mut Bytes,
    name: &Txt,
    n: usize,
    row: &Row,
) -> Result<(), NoMemory>
    ensures { OnOk result (text.new ≡ text.old ++ spec.kept_line name.now n row.now) }
{
    text.extend(name.as_bytes())?;
    text.extend(b" ")?;
    put_number(alloc, text, n as u64)?;
    text.extend(b": ")?;
    put_cells(alloc, text, row.as_slice())?;
    text.push(b'\n')
}
