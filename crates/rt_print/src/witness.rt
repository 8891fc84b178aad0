//! What is printed of two queries that differ. Answers come sorted, so rows are looked up by
//! halving; any way with the same text would do.

ghost use Rattle.std.specs.Prelude.{◌≡◌, ◌++◌, IfOk, OnOk, length, map};
ghost use Rattle.std.specs.Bool.{beq};
ghost use Rattle.std.specs.List.Sorted.{IsStrictlySortedBy};
ghost use Rattle.rt_value.specs.Row.{row_cmp};
ghost use Rattle.rt_schema.specs.Given.{IsOf, places};
ghost use Rattle.rt_print.specs.Texts as spec;

use crate::cells::{put_cells, put_count};
use crate::kept::put_kept;
use rt_schema::{Given, Schema};
use rt_value::{Bytes, Keep, List, NoMemory, Row};
use std::alloc::Global;

/// The rows that are kept, and how the answers of two queries on them differ: the rows of the
/// first alone, of the second alone, and of both, each in the order of rows.
pub fn witness_text(
    alloc: Global,
    schema: &Schema,
    given: &Given,
    keep: &Keep,
    left: &[Row],
    right: &[Row],
) -> Result<Bytes, NoMemory>
    requires of_schema { IsOf schema.now given.now }
    requires total { places given.now.tables ≡ length keep.now }
    requires left_sorted { IsStrictlySortedBy row_cmp left.now }
    requires right_sorted { IsStrictlySortedBy row_cmp right.now }
    ensures { IfOk result (λ text. text ≡ spec.witness_text schema.now given.now.tables keep.now left.now right.now) }
{
    let mut text = List::new(alloc);
    put_count(alloc, &mut text, "witness", keep.size())?;
    put_kept(alloc, &mut text, schema, given, keep)?;
    put_rows(alloc, &mut text, "only query 1", left, right, false)?;
    put_rows(alloc, &mut text, "only query 2", right, left, false)?;
    put_rows(alloc, &mut text, "both", left, right, true)?;
    Ok(text)
}

// The rows that are among the others, or those that are not, after a line with their number.
fn put_rows(
    alloc: Global,
    text: &mut Bytes,
    title: &str,
    rows: &[Row],
    others: &[Row],
    shared: bool,
) -> Result<(), NoMemory>
    requires { IsStrictlySortedBy row_cmp others.now }
    ensures { OnOk result (text.new ≡ text.old ++ spec.counted title.now (spec.among shared rows.now others.now)) }
{
    let found = among(alloc, rows, others, shared)?;
    put_count(alloc, text, title, found.len())?;
    for row in &found {
        put_row(alloc, text, row)?;
    }
    Ok(())
}

fn put_row(alloc: Global, text: &mut Bytes, row: &Row) -> Result<(), NoMemory>
    ensures { OnOk result (text.new ≡ text.old ++ spec.row_line row.now) }
{
    text.extend(b"  ")?;
    put_cells(alloc, text, row.as_slice())?;
    text.push(b'\n')
}

fn among<'a>(
    alloc: Global,
    rows: &'a [Row],
    others: &[Row],
    shared: bool,
) -> Result<Vec<&'a Row>, NoMemory>
    requires { IsStrictlySortedBy row_cmp others.now }
    ensures { IfOk result (λ found. map (λ row. row.now) found.items ≡ spec.among shared rows.entry.now others.entry.now) }
{
    let mut found = Vec::new(alloc);
    for row in rows {
        if has(others, row) == shared {
            found.push(row)?;
        }
    }
    Ok(found)
}

fn has(rows: &[Row], row: &Row) -> bool
    requires { IsStrictlySortedBy row_cmp rows.now }
    ensures { result ≡ spec.has rows.now row.now }
{
    rows.binary_search(row).is_ok()
}
