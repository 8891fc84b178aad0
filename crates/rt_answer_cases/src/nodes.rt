//! Worked nodes of annotated evaluation: at which choices a row is in the answer. A choice is
//! written as a binary number, the lowest digit for the first place.

ghost use Rattle.std.specs.Prelude.{◌≡◌, length};
ghost use Rattle.rt_schema.specs.Given.{places};

use crate::annotated::{annotated, holds};
use crate::choices::{choice, input};
use rt_annot::{annotate, differ};
use rt_cases::{ABC, ONE, ONES, REG, SCHOOL, STUDENT, files};
use rt_formula::{Dag, Node};
use rt_input::Input;
use rt_value::{NoMemory, Row, Txt, Value};
use std::alloc::Global;
use std::process::Abort;

const PAIR: &str = "CREATE TABLE t (a INTEGER); CREATE TABLE u (b INTEGER);";

const NULLS: [(&str, &str); 2] = [("d/t.csv", "a\n1\n"), ("d/u.csv", "b\n\"\"\n")];

// A schema, and the rows of its tables.
type Rows = (&'static str, &'static [(&'static str, &'static str)]);

const SCHOOL_ROWS: Rows = (SCHOOL, &[STUDENT, REG]);

const OF_MARY: [(usize, bool); 4] = [
    (0b00101, true),
    (0b01001, true),
    (0b01101, false),
    (0b00100, false),
];

const PAIR_ROWS: Rows = (PAIR, &NULLS);

const FIVES: Rows = ("CREATE TABLE d (a INTEGER);", &[("d/d.csv", "a\n5\n5\n")]);

const NOT_IN: &str = "SELECT a FROM t WHERE a NOT IN (SELECT b FROM u)";

const NOT_EXISTS: &str = "SELECT a FROM t WHERE NOT EXISTS (SELECT * FROM u WHERE b = a)";

// Whether a node has this value at the choice of a number.
fn has_value(
    rt: &impl Abort,
    alloc: Global,
    dag: &Dag,
    node: Node,
    number: usize,
    value: bool,
) -> bool {
    let keep = choice(rt, alloc, dag.rows(), number);
    let found = holds(rt, dag, node, &keep) == value;
    drop(keep);
    found
}

// Whether a node has these values at these choices.
fn has_values(
    rt: &impl Abort,
    alloc: Global,
    dag: &Dag,
    node: Node,
    values: &[(usize, bool)],
) -> bool {
    let mut good = true;
    for (number, value) in values {
        good = good && has_value(rt, alloc, dag, node, *number, *value);
    }
    good
}

fn row_node(rt: &impl Abort, alloc: Global, input: &Input, dag: &mut Dag, row: &Row) -> Option<Node>
    requires { dag.old.rows ≡ places input.now.given.tables }
{
    let ann = annotated(rt, alloc, input, dag);
    let node = ann.get(row);
    drop(ann);
    node
}

// Whether the node of a row of the first query has these values.
fn row_has(
    rt: &impl Abort,
    alloc: Global,
    input: &Input,
    row: &Row,
    values: &[(usize, bool)],
) -> bool {
    let mut dag = Dag::new(alloc, input.given().total()).expect(rt, "memory");
    let found = match row_node(rt, alloc, input, &mut dag, row) {
        Some(node) => has_values(rt, alloc, &dag, node, values),
        None => false,
    };
    drop(dag);
    found
}

// The node that is true where the two queries answer differently.
fn difference(alloc: Global, input: &Input, dag: &mut Dag) -> Result<Node, NoMemory>
    requires { dag.old.rows ≡ places input.now.given.tables }
{
    let _schema = input.schema();
    let left = annotate(alloc, dag, input.left(), input.given())?;
    let right = annotate(alloc, dag, input.right(), input.given())?;
    differ(alloc, dag, &left, &right)
}

// Whether the node at which the two queries differ has these values.
fn difference_has(rt: &impl Abort, alloc: Global, input: &Input, values: &[(usize, bool)]) -> bool {
    let mut dag = Dag::new(alloc, input.given().total()).expect(rt, "memory");
    let node = difference(alloc, input, &mut dag).expect(rt, "memory");
    let found = has_values(rt, alloc, &dag, node, values);
    drop(dag);
    found
}

// Whether the first query of an input gives the row of this value with a node of these values.
fn input_gives(
    rt: &impl Abort,
    alloc: Global,
    input: Option<Input>,
    value: Value,
    values: &[(usize, bool)],
) -> bool {
    let mut row = Row::new(alloc);
    row.push(value).expect(rt, "memory");
    match input {
        Some(input) => {
            let found = row_has(rt, alloc, &input, &row, values);
            drop(input);
            found
        }
        None => false,
    }
}

// Whether a query over these tables gives the row of this value with a node of these values.
fn query_gives(
    rt: &impl Abort,
    alloc: Global,
    held: (&str, &[(&str, &str)]),
    query: &str,
    value: Value,
    values: &[(usize, bool)],
) -> bool {
    let (schema, tables) = held;
    let files = files(alloc, schema, tables, query, query).expect(rt, "memory");
    let input = input(rt, alloc, files);
    input_gives(rt, alloc, input, value, values)
}

// Whether the node at which two queries over the three sets differ has these values.
fn sets_differ(
    rt: &impl Abort,
    alloc: Global,
    query1: &str,
    query2: &str,
    values: &[(usize, bool)],
) -> bool {
    let files = files(alloc, ABC, &ONES, query1, query2).expect(rt, "memory");
    match input(rt, alloc, files) {
        Some(input) => {
            let found = difference_has(rt, alloc, &input, values);
            drop(input);
            found
        }
        None => false,
    }
}

#[test]
fn nodes_of_worked_rows(rt: HostRuntime) {
    let alloc = rt.alloc();
    let mary = Value::Text(Txt::of(alloc, "Mary").expect(&rt, "memory"));
    let found = query_gives(&rt, alloc, SCHOOL_ROWS, ONE, mary, &OF_MARY);
    assert!(rt; found, "the one course of Mary");
    let at = &[(0b01, true), (0b11, false)];
    let found = query_gives(&rt, alloc, PAIR_ROWS, NOT_IN, Value::Int(1), at);
    assert!(rt; found, "NOT IN beside NULL");
    let at = &[(0b01, true), (0b11, true)];
    let found = query_gives(&rt, alloc, PAIR_ROWS, NOT_EXISTS, Value::Int(1), at);
    assert!(rt; found, "NOT EXISTS beside NULL");
    let at = &[(0b01, true), (0b10, true), (0b11, true), (0b00, false)];
    let found = query_gives(&rt, alloc, FIVES, "SELECT a FROM d", Value::Int(5), at);
    assert!(rt; found, "two equal rows");
    let found = sets_differ(
        &rt,
        alloc,
        "SELECT x FROM a EXCEPT SELECT x FROM b UNION SELECT x FROM c",
        "SELECT x FROM a EXCEPT (SELECT x FROM b UNION SELECT x FROM c)",
        &[(0b011, false), (0b100, true)],
    );
    assert!(rt; found, "EXCEPT and UNION");
}
