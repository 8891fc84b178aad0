//! Which rows can matter to a formula at lawful choices.

ghost use Rattle.rt_schema.specs.Given.{IsOf};

use crate::data::{Data, read_data};
use rt_formula::Dag;
use rt_rules::cone;
use rt_value::Keep;
use std::alloc::Global;
use std::process::Abort;

// The rows that can matter where the goal is that the row at this place is kept.
fn cone_under(rt: &impl Abort, alloc: Global, dag: &mut Dag, tables: &Data, place: usize) -> Keep
    requires { IsOf tables.now.schema tables.now.given }
{
    assert!(rt; place < dag.rows());
    let goal = dag.row(place).expect(rt, "memory");
    assert!(rt; goal.number() < dag.len() && dag.rows() == tables.given.total());
    cone(alloc, &*dag, goal, &tables.schema, &tables.given).expect(rt, "memory")
}

fn cone_in(rt: &impl Abort, alloc: Global, tables: &Data, place: usize) -> Keep
    requires { IsOf tables.now.schema tables.now.given }
{
    let mut dag = Dag::new(alloc, tables.given.total()).expect(rt, "memory");
    let rows = cone_under(rt, alloc, &mut dag, tables, place);
    drop(dag);
    rows
}

// The same over the rows of a file.
fn cone_of(rt: &impl Abort, alloc: Global, schema: &str, file: &str, place: usize) -> Keep {
    let tables = read_data(rt, alloc, schema, &[file]);
    let rows = cone_in(rt, alloc, &tables, place);
    drop(tables);
    rows
}

// A row that the goal names, and the rows that can matter then.
const REFERRING: [(&str, usize, [bool; 3]); 8] = [
    ("a,b\n1,2\n2,1\n3,\n", 0, [true, true, false]),
    ("a,b\n1,2\n2,1\n3,\n", 1, [true, true, false]),
    ("a,b\n1,2\n2,1\n3,\n", 2, [false, false, true]),
    ("a,b\n1,2\n2,3\n3,\n", 0, [true, true, true]),
    ("a,b\n3,\n2,3\n1,2\n", 2, [true, true, true]),
    ("a,b\n3,\n2,3\n1,2\n", 1, [true, true, false]),
    ("a,b\n1,2\n2,\n2,5\n", 0, [true, true, true]),
    ("a,b\n1,\n,1\n2,\n", 0, [true, false, false]),
];

#[test]
fn rows_that_refer_to_rows_of_their_table(rt: HostRuntime) {
    let alloc = rt.alloc();
    let schema = "CREATE TABLE t (a INTEGER PRIMARY KEY, b INTEGER REFERENCES t (a));";
    for (file, place, wanted) in &REFERRING {
        let rows = cone_of(&rt, alloc, schema, file, *place);
        assert!(rt; rows.as_slice() == wanted.as_slice(), "{file} {place}");
    }
}
