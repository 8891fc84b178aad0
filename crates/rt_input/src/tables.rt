//! The schema of a command and the rows of its tables, which are read in the order of the schema.

ghost use Rattle.std.specs.Prelude.{◌≡◌, ◌≤◌, ◌++◌, IsTrue, IfOk, IfErr, OnErr, OnOk, Ok, Some, length, slice_get, slice_set};
ghost use Rattle.rt_io.specs.Edge.{AddsPrefix, NoneFell};
ghost use Rattle.rt_io.specs.Gave.{Adds, Fits};
ghost use Rattle.rt_input.specs.Begun.{AddsAll, AddsSome, EndsAt, data_files, data_reached, part_files, table_files, tables_reached};
ghost use Rattle.rt_schema.specs.Given.{IsOf, places, rows_at, row_limit};
ghost use Rattle.rt_input.specs.Source.{IsKnown, IsMade, tables_in};
ghost use Rattle.rt_input.specs.Judged.{schema_of, schema_judged, table_judged, tables_judged, data_judged, no_rows, IsTableReached, ReachesFirst};
ghost use Rattle.rt_input.specs.Held.{Holding, text_of};
ghost use Rattle.rt_input.specs.Placed.{Placed, PlacedIn};
ghost use Rattle.rt_input.specs.Steps.{over, IsDataPart, Refuses, SpeaksOf, Stops};
ghost use Rattle.rt_input.specs.declared.part.Part.TheVariants as parts;

use crate::faults::{load_outcome, schema_outcome};
use crate::outcome::Outcome;
use crate::part::Part;
use crate::source::{Paths, Source};
use crate::text::source_text;
use rt_ddl::read_schema;
use rt_io::Files;
use rt_load::load;
use rt_schema::{Given, Schema, Table};
use rt_value::Txt;
use std::alloc::Global;

/// A schema, and the rows given for it: rows of its tables, and no more than all tables may have.
pub struct Tables {
    pub schema: Schema,
    pub given: Given,
    ghost of_schema: { IsOf schema given },
    ghost few: { places given.tables ≤ row_limit },
}

impl Drop for Tables {
    fn drop(self) {
        let Tables {
            schema: _,
            given: _,
        } = self;
    }
}

impl Tables {
    /// The schema and the rows as two values.
    pub(crate) fn into_parts(self) -> (Schema, Given)
        ensures schema { result.0 ≡ self.schema }
        ensures given { result.1 ≡ self.given }
    {
        let Tables { schema, given } = self;
        (schema, given)
    }
}

// The schema of a text.
fn schema_of(alloc: Global, text: &[u8]) -> Result<Schema, Outcome>
    ensures ok { IfOk result (λ schema. schema_of text.now ≡ Ok schema) }
    ensures err { IfErr result (Refuses (schema_of text.now)) }
    ensures speaks { IfErr result (SpeaksOf IsDataPart) }
    ensures of_part { IfErr result (SpeaksOf (λ p. p ≡ parts.Schema)) }
    ensures place { IfErr result (PlacedIn parts.Schema text.now) }
{
    match read_schema(alloc, text) {
        Ok(schema) => Ok(schema),
        Err(fault) => Err(schema_outcome(fault)),
    }
}

// The schema of a source.
fn schema_file<F: Files>(alloc: Global, files: &mut F, source: &Source) -> Result<Schema, Outcome>
    ensures ok { IfOk result (λ schema. IsKnown F.tells source.now → schema_judged source.now (F.held files.old) ≡ Ok schema) }
    ensures err { IfErr result (Stops (over F.Files files.old files.new) source.now (schema_judged source.now (F.held files.old)) (λ p. p ≡ parts.Schema)) }
    ensures place { IfErr result (λ o. IsKnown F.tells source.now → Placed (text_of source.now (F.held files.old)) o) }
    ensures speaks { IfErr result (SpeaksOf IsDataPart) }
    ensures given { IfOk result (λ schema. (h : Holding) → Fits h (F.gave files.old) (F.gave files.new) → schema_judged source.now h ≡ Ok schema) }
    ensures adds { Adds (F.gave files.old) (F.gave files.new) }
    ensures begun { AddsPrefix (F.begun files.old) (F.begun files.new) (part_files source.now parts.Schema) }
    ensures begun_ok { OnOk result (F.begun files.new ≡ F.begun files.old ++ part_files source.now parts.Schema) }
    ensures last { IfErr result (λ o. EndsAt source.now o (F.begun files.old) (F.begun files.new)) }
    ensures made { IsMade source.now → files.new ≡ files.old }
    ensures has { F.has files.new ≡ F.has files.old }
    ensures held { F.held files.new ≡ F.held files.old }
    ensures rises { NoneFell (F.faults files.old) (F.faults files.new) }
{
    let text = source_text(alloc, files, source, Part::Schema)?;
    schema_of(alloc, text.as_slice())
}

// The rows of the table with this number, which come into `given`.
fn read_table<F: Files>(
    alloc: Global,
    files: &mut F,
    source: &Source,
    schema: &Schema,
    at: usize,
    table: &Table,
    given: &mut Given,
) -> Result<(), Outcome>
    requires is_table { slice_get schema.now at ≡ Some table.now }
    requires of_schema { IsOf schema.now given.old }
    requires empty { length (rows_at given.old.tables at) ≡ 0 }
    requires few { places given.old.tables ≤ row_limit }
    ensures ok { OnOk result (IsKnown F.tells source.now → table_judged source.now (F.held files.old) at table.now (places given.old.tables) ≡ Ok (rows_at given.new.tables at)) }
    ensures tables { OnOk result (given.new.tables ≡ slice_set given.old.tables at (rows_at given.new.tables at)) }
    ensures few { OnOk result (places given.new.tables ≤ row_limit) }
    ensures kinds { given.new.kinds ≡ given.old.kinds }
    ensures err { IfErr result (Stops (over F.Files files.old files.new) source.now (table_judged source.now (F.held files.old) at table.now (places given.old.tables)) (λ p. p ≡ parts.Table at table.now.name)) }
    ensures place { IfErr result (λ o. IsKnown F.tells source.now → Placed (text_of source.now (F.held files.old)) o) }
    ensures speaks { IfErr result (SpeaksOf IsDataPart) }
    ensures given { OnOk result ((h : Holding) → Fits h (F.gave files.old) (F.gave files.new) → table_judged source.now h at table.now (places given.old.tables) ≡ Ok (rows_at given.new.tables at)) }
    ensures adds { Adds (F.gave files.old) (F.gave files.new) }
    ensures begun { AddsPrefix (F.begun files.old) (F.begun files.new) (part_files source.now (parts.Table at table.now.name)) }
    ensures begun_ok { OnOk result (F.begun files.new ≡ F.begun files.old ++ part_files source.now (parts.Table at table.now.name)) }
    ensures last { IfErr result (λ o. EndsAt source.now o (F.begun files.old) (F.begun files.new)) }
    ensures made { IsMade source.now → files.new ≡ files.old }
    ensures has { F.has files.new ≡ F.has files.old }
    ensures held { F.held files.new ≡ F.held files.old }
    ensures rises { NoneFell (F.faults files.old) (F.faults files.new) }
{
    let part = Part::Table(at, table.name.copy(alloc)?);
    let text = source_text(alloc, files, source, part)?;
    let part = Part::Table(at, table.name.copy(alloc)?);
    // There is a list of rows for each table: the contract of `tables` says so.
    let _tables = given.tables();
    match load(alloc, schema, at, text.as_slice(), given) {
        Ok(()) => Ok(()),
        Err(fault) => Err(load_outcome(part, fault)),
    }
}

// The rows of all tables.
fn read_given<F: Files>(
    alloc: Global,
    files: &mut F,
    source: &Source,
    schema: &Schema,
) -> Result<Given, Outcome>
    ensures of_schema { IfOk result (λ given. IsOf schema.now given) }
    ensures few { IfOk result (λ given. places given.tables ≤ row_limit) }
    ensures ok { IfOk result (λ given. IsKnown F.tells source.now → tables_judged source.now (F.held files.old) 0 (no_rows schema.now) schema.now ≡ Ok given.tables) }
    ensures err { IfErr result (Stops (over F.Files files.old files.new) source.now (tables_judged source.now (F.held files.old) 0 (no_rows schema.now) schema.now) (IsTableReached source.now (F.held files.old) schema.now)) }
    ensures place { IfErr result (λ o. IsKnown F.tells source.now → Placed (text_of source.now (F.held files.old)) o) }
    ensures speaks { IfErr result (SpeaksOf IsDataPart) }
    ensures given { IfOk result (λ given. (h : Holding) → Fits h (F.gave files.old) (F.gave files.new) → tables_judged source.now h 0 (no_rows schema.now) schema.now ≡ Ok given.tables) }
    ensures adds { Adds (F.gave files.old) (F.gave files.new) }
    ensures begun { OnErr result (AddsPrefix (F.begun files.old) (F.begun files.new) (table_files source.now 0 schema.now)) }
    ensures begun_ok { OnOk result (F.begun files.new ≡ F.begun files.old ++ table_files source.now 0 schema.now) }
    ensures last { IfErr result (λ o. EndsAt source.now o (F.begun files.old) (F.begun files.new)) }
    ensures reached { OnErr result (IsKnown F.tells source.now → AddsPrefix (F.begun files.old) (F.begun files.new) (tables_reached source.now (F.held files.old) 0 (no_rows schema.now) schema.now)) }
    ensures made { IsMade source.now → files.new ≡ files.old }
    ensures has { F.has files.new ≡ F.has files.old }
    ensures held { F.held files.new ≡ F.held files.old }
    ensures rises { NoneFell (F.faults files.old) (F.faults files.new) }
{
    let mut given = Given::new(alloc, schema)?;
    'tables: for (at, table) in schema.tables().iter().enumerate() {
        read_table(alloc, files, source, schema, at, table, &mut given)?;
    }
    Ok(given)
}

/// The schema and the rows of a source.
pub(crate) fn tables_of<F: Files>(
    alloc: Global,
    files: &mut F,
    source: &Source,
) -> Result<Tables, Outcome>
    ensures of_schema { IfOk result (λ t. IsOf t.schema t.given) }
    ensures few { IfOk result (λ t. places t.given.tables ≤ row_limit) }
    ensures ok { IfOk result (λ t. IsKnown F.tells source.now → data_judged source.now (F.held files.old) ≡ Ok (record { schema = t.schema; given = t.given })) }
    ensures err { IfErr result (Stops (over F.Files files.old files.new) source.now (data_judged source.now (F.held files.old)) (ReachesFirst source.now (F.held files.old))) }
    ensures place { IfErr result (λ o. IsKnown F.tells source.now → Placed (text_of source.now (F.held files.old)) o) }
    ensures speaks { IfErr result (SpeaksOf IsDataPart) }
    ensures given { IfOk result (λ t. (h : Holding) → Fits h (F.gave files.old) (F.gave files.new) → data_judged source.now h ≡ Ok (record { schema = t.schema; given = t.given })) }
    ensures adds { Adds (F.gave files.old) (F.gave files.new) }
    ensures begun { AddsSome (IsKnown F.tells source.now) (data_files source.now) (data_reached source.now (F.held files.old)) (F.begun files.old) (F.begun files.new) }
    ensures begun_ok { OnOk result (AddsAll (IsKnown F.tells source.now) (data_files source.now) (data_reached source.now (F.held files.old)) (F.begun files.old) (F.begun files.new)) }
    ensures last { IfErr result (λ o. EndsAt source.now o (F.begun files.old) (F.begun files.new)) }
    ensures made { IsMade source.now → files.new ≡ files.old }
    ensures has { F.has files.new ≡ F.has files.old }
    ensures held { F.held files.new ≡ F.held files.old }
    ensures rises { NoneFell (F.faults files.old) (F.faults files.new) }
{
    let schema = schema_file(alloc, files, source)?;
    let given = read_given(alloc, files, source, &schema)?;
    Ok(Tables { schema, given })
}

/// The schema of the file of that name, and the rows of its tables' files in the folder `dir`.
/// The file of a table is its name with `.csv`.
pub fn read_tables<F: Files>(
    alloc: Global,
    schema: &Txt,
    dir: &Txt,
    files: &mut F,
) -> Result<Tables, Outcome>
    ensures of_schema { IfOk result (λ t. IsOf t.schema t.given) }
    ensures few { IfOk result (λ t. places t.given.tables ≤ row_limit) }
    ensures ok { IfOk result (λ t. IsTrue F.tells → data_judged (tables_in schema.now dir.now) (F.held files.old) ≡ Ok (record { schema = t.schema; given = t.given })) }
    ensures err { IfErr result (Stops (over F.Files files.old files.new) (tables_in schema.now dir.now) (data_judged (tables_in schema.now dir.now) (F.held files.old)) (ReachesFirst (tables_in schema.now dir.now) (F.held files.old))) }
    ensures place { IfErr result (λ o. IsTrue F.tells → Placed (text_of (tables_in schema.now dir.now) (F.held files.old)) o) }
    ensures speaks { IfErr result (SpeaksOf IsDataPart) }
    ensures given { IfOk result (λ t. (h : Holding) → Fits h (F.gave files.old) (F.gave files.new) → data_judged (tables_in schema.now dir.now) h ≡ Ok (record { schema = t.schema; given = t.given })) }
    ensures adds { Adds (F.gave files.old) (F.gave files.new) }
    ensures begun { AddsSome (IsKnown F.tells (tables_in schema.now dir.now)) (data_files (tables_in schema.now dir.now)) (data_reached (tables_in schema.now dir.now) (F.held files.old)) (F.begun files.old) (F.begun files.new) }
    ensures begun_ok { OnOk result (AddsAll (IsKnown F.tells (tables_in schema.now dir.now)) (data_files (tables_in schema.now dir.now)) (data_reached (tables_in schema.now dir.now) (F.held files.old)) (F.begun files.old) (F.begun files.new)) }
    ensures last { IfErr result (λ o. EndsAt (tables_in schema.now dir.now) o (F.begun files.old) (F.begun files.new)) }
    ensures has { F.has files.new ≡ F.has files.old }
    ensures held { F.held files.new ≡ F.held files.old }
    ensures rises { NoneFell (F.faults files.old) (F.faults files.new) }
{
    let paths = Paths::of_tables(alloc, schema, dir)?;
    let source = Source::Files(paths);
    tables_of(alloc, files, &source)
}
