//! A schema and its rows, as texts give them.

ghost use Rattle.rt_schema.specs.Given.{IsOf};

use rt_ddl::read_schema;
use rt_load::load;
use rt_schema::{Given, Schema};
use rt_value::Keep;
use std::alloc::Global;
use std::process::Abort;

/// A schema and rows of its tables.
#[derive(Drop)]
pub(crate) struct Data {
    pub(crate) schema: Schema,
    pub(crate) given: Given,
}

/// The schema of a text, with the rows of a file for each of its first tables.
pub(crate) fn read_data(rt: &impl Abort, alloc: Global, text: &str, files: &[&str]) -> Data
    ensures { IsOf result.schema result.given }
{
    let schema = read_schema(alloc, text.as_bytes()).expect(rt, "a schema");
    let given = read_rows(rt, alloc, &schema, files);
    Data { schema, given }
}

fn read_rows(rt: &impl Abort, alloc: Global, schema: &Schema, files: &[&str]) -> Given
    ensures { IsOf schema.now result }
{
    let mut given = Given::new(alloc, schema).expect(rt, "memory");
    'files: for (at, file) in files.iter().enumerate() {
        assert!(rt; at < schema.tables().len() && given.table(at).is_empty());
        load(alloc, schema, at, file.as_bytes(), &mut given).expect(rt, "rows");
    }
    given
}

/// The choice whose places are written as 1 and 0.
pub(crate) fn choice(rt: &impl Abort, alloc: Global, places: &str) -> Keep {
    let mut keep = Keep::all(alloc, 0, false).expect(rt, "memory");
    for place in places.as_bytes() {
        keep.push(*place == b'1').expect(rt, "memory");
    }
    keep
}
