//! The nodes of annotated evaluation, compared with the answers of plain evaluation.

ghost use Rattle.std.specs.Prelude.{◌≡◌, length};
ghost use Rattle.rt_schema.specs.Given.{places};

use crate::choices::{choice, input};
use rt_annot::{Ann, annotate};
use rt_cases::files;
use rt_eval::{Rows, answers};
use rt_formula::{Dag, Node, Noted};
use rt_input::Input;
use rt_value::{Keep, List, Row, Value};
use std::alloc::Global;
use std::process::Abort;

const SCHEMA: &str = "CREATE TABLE t (a INTEGER, b INTEGER); CREATE TABLE u (b INTEGER, c INTEGER)";

const TEN: [(&str, &str); 2] = [
    ("d/t.csv", "a,b\n1,1\n1,2\n2,\n,1\n3,3\n"),
    ("d/u.csv", "b,c\n1,2\n2,2\n,1\n3,\n1,2\n"),
];

// NULL, and then the whole numbers from -4 on.
fn value(digit: usize) -> Value {
    match digit {
        0 => Value::Null,
        _ => Value::Int(digit as i128 - 5),
    }
}

// How many rows of one value there are, or of two.
fn rows(width: usize) -> usize {
    match width {
        1 => 16,
        _ => 256,
    }
}

// The row of a number's digits to the base 16.
fn row(rt: &impl Abort, alloc: Global, width: usize, number: usize) -> Row {
    let mut row = Row::new(alloc);
    let mut digits = number;
    for _ in 0..width {
        row.push(value(digits % 16)).expect(rt, "memory");
        digits /= 16;
    }
    row
}

// The rows of an annotation with their nodes, among all rows of at most two small values.
fn noted(rt: &impl Abort, alloc: Global, ann: &Ann, width: usize) -> List<Noted> {
    let mut found = List::new(alloc);
    for number in 0..rows(width) {
        let row = row(rt, alloc, width, number);
        if let Some(node) = ann.get(&row) {
            found.push(Noted { row, node }).expect(rt, "memory");
        }
    }
    found
}

/// Whether a node of the Dag is true at a choice of its rows.
pub(crate) fn holds(rt: &impl Abort, dag: &Dag, node: Node, keep: &Keep) -> bool {
    node.number() < dag.len()
        && keep.len() == dag.rows()
        && dag.value(node, keep).expect(rt, "memory")
}

// Whether the rows whose node is true are just those of the answer.
fn are_answer(rt: &impl Abort, dag: &Dag, noted: &[Noted], keep: &Keep, answer: &Rows) -> bool {
    let mut answered: usize = 0;
    for Noted { row, node } in noted {
        if holds(rt, dag, *node, keep) {
            if !answer.has(row) {
                return false;
            }
            answered = answered.wrapping_add(1);
        }
    }
    answered == answer.as_slice().len()
}

/// The answer of the first query on the kept rows.
pub(crate) fn answer(rt: &impl Abort, alloc: Global, input: &Input, keep: &Keep) -> Rows
    requires { places input.now.given.tables ≡ length keep.now }
{
    let _schema = input.schema();
    answers(alloc, input.left(), input.given(), keep).expect(rt, "memory")
}

// Whether these are the rows of the answer at the choice of a number, of ten rows.
fn agree_at(
    rt: &impl Abort,
    alloc: Global,
    input: &Input,
    dag: &Dag,
    noted: &[Noted],
    number: usize,
) -> bool {
    let keep = choice(rt, alloc, input.given().total(), number);
    let answer = answer(rt, alloc, input, &keep);
    let found = are_answer(rt, dag, noted, &keep, &answer);
    drop(answer);
    drop(keep);
    found
}

// Whether these are the rows of the answer at each of the 1,024 choices of ten rows.
fn agree_everywhere(
    rt: &impl Abort,
    alloc: Global,
    input: &Input,
    dag: &Dag,
    noted: &[Noted],
) -> bool {
    let mut good = input.given().total() == 10;
    for number in 0..1024 {
        good = good && agree_at(rt, alloc, input, dag, noted, number);
    }
    good
}

/// The rows that may come out of the first query, with their nodes.
pub(crate) fn annotated(rt: &impl Abort, alloc: Global, input: &Input, dag: &mut Dag) -> Ann
    requires { dag.old.rows ≡ places input.now.given.tables }
{
    let _schema = input.schema();
    annotate(alloc, dag, input.left(), input.given()).expect(rt, "memory")
}

fn agree_with(rt: &impl Abort, alloc: Global, input: &Input, dag: &Dag, ann: &Ann) -> bool {
    let noted = noted(rt, alloc, ann, input.left().width());
    let found = noted.len() == ann.len()
        && agree_everywhere(rt, alloc, input, dag, noted.as_slice());
    drop(noted);
    found
}

// Whether annotation and evaluation agree on the first query of an input of ten rows.
fn agree(rt: &impl Abort, alloc: Global, input: &Input) -> bool {
    let mut dag = Dag::new(alloc, input.given().total()).expect(rt, "memory");
    let ann = annotated(rt, alloc, input, &mut dag);
    let found = agree_with(rt, alloc, input, &dag, &ann);
    drop(ann);
    drop(dag);
    found
}

fn input_agrees(rt: &impl Abort, alloc: Global, input: Option<Input>) -> bool {
    match input {
        Some(input) => {
            let found = agree(rt, alloc, &input);
            drop(input);
            found
        }
        None => false,
    }
}

// Whether they agree on a query over the ten rows.
fn query_agrees(rt: &impl Abort, alloc: Global, query: &str) -> bool {
    let files = files(alloc, SCHEMA, &TEN, query, query).expect(rt, "memory");
    let input = input(rt, alloc, files);
    input_agrees(rt, alloc, input)
}

#[test]
fn annotation_and_evaluation_agree(rt: HostRuntime) {
    let queries = &[
        "SELECT * FROM t",
        "SELECT a FROM t WHERE a <> b OR a = 1",
        "SELECT a + b, a * b - 1 FROM t WHERE NOT (a > 1 AND b < 3)",
        "SELECT b FROM t WHERE a IS NULL OR b >= 2",
        "SELECT a FROM t WHERE b BETWEEN 1 AND 2",
        "SELECT a FROM t WHERE b NOT IN (1, a) AND a IS NOT NULL",
        "SELECT t.a, u.c FROM t, u WHERE t.b = u.b",
        "SELECT x.a, y.a FROM t x JOIN t y ON x.b <= y.b",
        "SELECT b FROM t UNION SELECT c FROM u",
        "SELECT b FROM u EXCEPT SELECT a FROM t",
        "SELECT b, c FROM u INTERSECT SELECT a, b FROM t",
        "SELECT a FROM t EXCEPT SELECT b FROM u UNION SELECT c FROM u",
        "SELECT a FROM t EXCEPT SELECT x.a FROM t x, t y WHERE x.a = y.a AND x.b <> y.b",
        "SELECT a FROM t WHERE EXISTS (SELECT * FROM u WHERE c = 2)",
        "SELECT a FROM t WHERE NOT EXISTS (SELECT * FROM u WHERE u.b = t.b)",
        "SELECT a FROM t WHERE b IN (SELECT b FROM u)",
        "SELECT a FROM t WHERE b NOT IN (SELECT c FROM u)",
        "SELECT a FROM t WHERE a NOT IN (SELECT c FROM u WHERE u.b >= t.b)",
        "SELECT x.a FROM t x WHERE NOT EXISTS (SELECT * FROM u WHERE NOT EXISTS (SELECT * FROM t y WHERE y.a = x.a AND y.b = u.b))",
        "SELECT d.x FROM (SELECT b + 1 AS x FROM u WHERE c IS NOT NULL) AS d WHERE d.x IN (SELECT a FROM t)",
    ];
    for query in queries {
        assert!(rt; query_agrees(&rt, rt.alloc(), query), "{query}");
    }
}
