//! The rows of the given instance, all of the right kinds, and the numbering of all its rows.

ghost use Rattle.std.specs.Prelude.{◌≡◌, ◌+◌, ◌<◌, ◌≤◌, [], Some, IsTrue, IfOk, length, replicate, slice_get, slice_index_or, slice_set};
ghost use Rattle.rt_schema.specs.Given.{IsOf, is_instance, rows_suit, rows_at, places, base_of, row_limit};
ghost use Rattle.rt_schema.specs.Schema.{kinds_of, schema_kinds};

use crate::schema::Schema;
use crate::table::{ColKind, Column, Table};
use rt_value::{List, NoMemory, Row};
use std::alloc::Global;
use std::marker::Model;

/// The most rows that all tables together may have.
pub const ROW_LIMIT: usize = 2000;

/// The rows given for the tables of a schema, with the kinds of the tables' columns. Each row
/// suits its table. A place is a row's number from 0, table by table in schema order: after a
/// first table of 3 rows, row 0 of the second table has place 3.
#[derive(Debug)]
pub struct Given {
    kinds: List<List<ColKind>>,
    tables: List<List<Row>>,
}

impl Drop for Given {
    fn drop(self) {
        let Given {
            kinds: _,
            tables: _,
        } = self;
    }
}

impl Model for Given {
    ghost use Rattle.std.specs.Prelude.{IsTrue};
    ghost use Rattle.rt_schema.specs.Given.{Instance, is_instance};

    ghost Value = { Instance };

    ghost view = { λ g. record { kinds = g.kinds; tables = g.tables } };

    ghost invariant = { λ g. IsTrue (is_instance (record { kinds = g.kinds; tables = g.tables })) };
}

impl Given {
    /// The tables of the schema, without rows.
    #[tactic(auto, using(crate::proofs::GivenLemmas::new_instance))]
    pub fn new(alloc: Global, schema: &Schema) -> Result<Given, NoMemory>
        ensures of_schema { IfOk result (λ g. IsOf schema.now g) }
        ensures no_rows { IfOk result (λ g. g.tables ≡ replicate (length schema.now) []) }
    {
        let of = schema.tables();
        let kinds = schema_kinds(alloc, of)?;
        let tables = no_rows(alloc, of.len())?;
        Ok(Given { kinds, tables })
    }

    /// Moves the rows of a table in. All other tables stay.
    pub fn fill(&mut self, table: usize, rows: List<Row>)
        requires in_range { table < length self.old.tables }
        requires empty { length (rows_at self.old.tables table) ≡ 0 }
        requires suit { IsTrue (rows_suit (slice_index_or self.old.kinds table []) rows) }
        requires room { places self.old.tables + length rows ≤ row_limit }
        ensures tables { self.new.tables ≡ slice_set self.old.tables table rows }
        ensures kinds { self.new.kinds ≡ self.old.kinds }
    {
        self.tables.set(table, rows);
    }

    /// The number of columns of a table.
    pub fn width(&self, table: usize) -> usize
        ensures { result ≡ length (slice_index_or self.now.kinds table []) }
    {
        match self.kinds.as_slice().get(table) {
            None => 0,
            Some(kinds) => kinds.len(),
        }
    }

    /// The number of rows of a table.
    pub fn rows(&self, table: usize) -> usize
        requires { table < length self.now.tables }
        ensures { result ≡ length (rows_at self.now.tables table) }
    {
        self.tables()[table].len()
    }

    /// A row by its table and its number in the table, from 0.
    pub fn row(&self, table: usize, at: usize) -> &Row
        requires { at < length (rows_at self.now.tables table) }
        ensures { slice_get (rows_at self.now.tables table) at ≡ Some result.now }
    {
        &self.tables()[table].as_slice()[at]
    }

    /// The number of rows of all tables.
    pub fn total(&self) -> usize
        ensures total { result ≡ places self.now.tables }
        ensures limit { result ≤ row_limit }
    {
        let mut total: usize = 0;
        for rows in self.tables() {
            total += rows.len();
        }
        total
    }

    /// The place of a row, by its table and its number in the table.
    pub fn place(&self, table: usize, at: usize) -> usize
        requires { at < length (rows_at self.now.tables table) }
        ensures place { result ≡ base_of table self.now.tables + at }
        ensures in_range { result < places self.now.tables }
    {
        base_of(self.tables(), table) + at
    }

    /// The rows of a table, and none where the table is not there.
    pub fn table(&self, table: usize) -> &[Row]
        ensures { result.now ≡ rows_at self.now.tables table }
    {
        rows_at(self.tables(), table)
    }

    /// The rows of all tables, in schema order.
    pub fn tables(&self) -> &[List<Row>]
        ensures same { result.now ≡ self.now.tables }
        ensures sound { IsTrue (is_instance self.now) }
    {
        self.tables.as_slice()
    }
}

// The kinds of all columns, table by table.
fn schema_kinds(alloc: Global, tables: &[Table]) -> Result<List<List<ColKind>>, NoMemory>
    ensures { IfOk result (λ kinds. kinds ≡ schema_kinds tables.now) }
{
    let mut kinds = List::new(alloc);
    for table in tables {
        kinds.push(kinds_of(alloc, table.columns.as_slice())?)?;
    }
    Ok(kinds)
}

// As many tables without rows.
fn no_rows(alloc: Global, count: usize) -> Result<List<List<Row>>, NoMemory>
    ensures { IfOk result (λ tables. tables ≡ replicate count []) }
{
    let mut tables = List::new(alloc);
    for _ in 0..count {
        tables.push(List::new(alloc))?;
    }
    Ok(tables)
}

fn kinds_of(alloc: Global, columns: &[Column]) -> Result<List<ColKind>, NoMemory>
    ensures { IfOk result (λ kinds. kinds ≡ kinds_of columns.now) }
{
    let mut kinds = List::new(alloc);
    for column in columns {
        kinds.push(column.kind)?;
    }
    Ok(kinds)
}

/// The rows of a table, and none where the table is not there.
pub fn rows_at(tables: &[List<Row>], table: usize) -> &[Row]
    ensures { result.now ≡ rows_at tables.now table }
{
    match tables.get(table) {
        None => &[],
        Some(rows) => rows.as_slice(),
    }
}

// The number of rows before those of a table.
fn base_of(tables: &[List<Row>], table: usize) -> usize
    requires { places tables.now ≤ row_limit }
    ensures { result ≡ base_of table tables.now }
{
    match tables {
        [] => 0,
        [rows, rest @ ..] => {
            if table == 0 {
                0
            } else {
                rows.len() + base_of(rest, table - 1)
            }
        }
    }
}
