//! What names, kinds and set operators mean: the rows of small queries, each row after a `|`, or
//! the first error of a query.

use crate::annotated::answer;
use crate::choices::choice;
use rt_cases::{FOUR, files, words};
use rt_input::{Input, Outcome, Part, fault_text, read_input, refusal_line};
use rt_value::{Row, Value};
use std::alloc::{AllocError, Global};
use std::fmt::Write;
use std::process::Abort;

const SCHEMA: &str = "CREATE TABLE t (a INTEGER, b INTEGER); CREATE TABLE u (b INTEGER, c TEXT);";

const TABLES: [(&str, &str); 2] = [
    ("d/t.csv", "a,b\n1,10\n2,20\n"),
    ("d/u.csv", "b,c\n10,x\n30,y\n"),
];

fn put_cell(out: &mut String, cell: &Value) -> Result<(), AllocError> {
    match cell {
        Value::Null => out.push_str("NULL"),
        Value::Int(number) => write!(out, "{number}"),
        Value::Text(text) => write!(out, "'{}'", text.as_str()),
    }
}

fn put_row(out: &mut String, row: &[Value]) -> Result<(), AllocError> {
    for (at, cell) in row.iter().enumerate() {
        if 0 < at {
            out.push_str(", ")?;
        }
        put_cell(out, cell)?;
    }
    out.push_str("|")
}

fn put_rows(out: &mut String, rows: &[Row]) -> Result<(), AllocError> {
    out.push_str("|")?;
    for row in rows {
        put_row(out, row.as_slice())?;
    }
    Ok(())
}

// Whether these are the rows.
fn are_rows(rt: &impl Abort, alloc: Global, rows: &[Row], wanted: &str) -> bool {
    let mut out = String::new(alloc);
    put_rows(&mut out, rows).expect(rt, "memory");
    let found = out.as_str() == wanted;
    drop(out);
    found
}

// Whether these are the rows of the first query on all four rows.
fn has_rows(rt: &impl Abort, alloc: Global, input: &Input, wanted: &str) -> bool {
    let places = input.given().total();
    let keep = choice(rt, alloc, places, 15);
    let rows = answer(rt, alloc, input, &keep);
    drop(keep);
    let found = places == 4 && are_rows(rt, alloc, rows.as_slice(), wanted);
    drop(rows);
    found
}

// Whether this is the error of the first query.
fn has_fault(rt: &impl Abort, alloc: Global, outcome: &Outcome, wanted: &str) -> bool {
    let text = match outcome {
        Outcome::Refused(Part::Query1, fault) => fault_text(alloc, fault),
        _ => refusal_line(alloc, outcome, 1),
    };
    let text = text.expect(rt, "memory");
    let found = text.as_slice() == wanted.as_bytes();
    drop(text);
    found
}

fn is_told(rt: &impl Abort, alloc: Global, read: Result<Input, Outcome>, wanted: &str) -> bool {
    match read {
        Ok(input) => {
            let found = has_rows(rt, alloc, &input, wanted);
            drop(input);
            found
        }
        Err(outcome) => {
            let found = has_fault(rt, alloc, &outcome, wanted);
            drop(outcome);
            found
        }
    }
}

// What is read of a query as both queries.
fn read(rt: &impl Abort, alloc: Global, query: &str) -> Result<Input, Outcome> {
    let mut files = files(alloc, SCHEMA, &TABLES, query, query).expect(rt, "memory");
    let command = words(alloc, &FOUR).expect(rt, "memory");
    let read = read_input(alloc, command.as_slice(), &mut files);
    drop(command);
    drop(files);
    read
}

fn assert_each(rt: &impl Abort, alloc: Global, table: &[(&str, &str)]) {
    for (query, wanted) in table {
        let read = read(rt, alloc, query);
        assert!(rt; is_told(rt, alloc, read, wanted), "{query}");
    }
}

#[test]
fn joins_and_stars(rt: HostRuntime) {
    let table = &[
        (
            "SELECT a, c FROM t CROSS JOIN u",
            "|1, 'x'|1, 'y'|2, 'x'|2, 'y'|",
        ),
        ("SELECT a, c FROM t INNER JOIN u ON t.b = u.b", "|1, 'x'|"),
        ("SELECT a, c FROM t JOIN u ON t.b < u.b", "|1, 'y'|2, 'y'|"),
        ("SELECT x.* FROM t x, u", "|1, 10|2, 20|"),
        (
            "SELECT v.*, x.a FROM t x JOIN u v ON x.b = v.b",
            "|10, 'x', 1|",
        ),
        (
            "SELECT * FROM t x JOIN u v ON x.b = v.b",
            "|1, 10, 10, 'x'|",
        ),
        ("SELECT t.* FROM t x", "unknown table: t"),
        (
            "SELECT a FROM t x WHERE EXISTS (SELECT x.* FROM u)",
            "unknown table: x",
        ),
        (
            "SELECT a FROM t x WHERE EXISTS (SELECT x.a FROM u)",
            "|1|2|",
        ),
        ("SELECT * FROM t x JOIN u x ON foo = 1", "alias twice: x"),
        ("SELECT * FROM t, u JOIN t ON foo = 1", "alias twice: t"),
        (
            "SELECT * FROM t x, (SELECT foo FROM u) AS x",
            "unknown column: foo",
        ),
        ("SELECT * FROM t x, lost x", "unknown table: lost"),
        (
            "SELECT a FROM t x WHERE EXISTS (SELECT * FROM u x WHERE x.b = 10)",
            "|1|2|",
        ),
    ];
    assert_each(&rt, rt.alloc(), table);
}

const SEEN: [(&str, &str); 15] = [
    (
        "SELECT t.a FROM t, u JOIN u v ON v.b = t.b",
        "unknown table: t",
    ),
    (
        "SELECT t.a FROM t, u JOIN u v ON a = 1",
        "unknown column: a",
    ),
    (
        "SELECT x.a FROM t x JOIN u ON x.b = v.b JOIN u v ON u.b = v.b",
        "unknown table: v",
    ),
    (
        "SELECT x.a FROM t x JOIN u ON x.b = u.b JOIN t y ON y.a = x.a",
        "|1|",
    ),
    (
        "SELECT t.a FROM t, u JOIN u v ON EXISTS (SELECT * FROM t y WHERE y.a = t.a)",
        "unknown table: t",
    ),
    (
        "SELECT a FROM t WHERE EXISTS (SELECT * FROM u JOIN u v ON u.b = t.b)",
        "|1|",
    ),
    ("SELECT t.a FROM t JOIN u ON b = 10", "ambiguous column: b"),
    (
        "SELECT a FROM t WHERE EXISTS (SELECT * FROM u WHERE b = 30)",
        "|1|2|",
    ),
    (
        "SELECT a FROM t WHERE EXISTS (SELECT * FROM u WHERE a = 1)",
        "|1|",
    ),
    (
        "SELECT d.c FROM t, (SELECT c FROM u WHERE u.b = t.b) AS d",
        "unknown table: t",
    ),
    (
        "SELECT d.c FROM t, (SELECT c FROM u WHERE a = 1) AS d",
        "unknown column: a",
    ),
    (
        "SELECT a FROM t WHERE EXISTS (SELECT * FROM (SELECT c FROM u WHERE u.b = t.b) AS d)",
        "|1|",
    ),
    (
        "SELECT d.a FROM (SELECT a, b AS a FROM t) AS d",
        "ambiguous column: a",
    ),
    (
        "SELECT a FROM (SELECT a, b AS a FROM t) AS d",
        "ambiguous column: a",
    ),
    (
        "SELECT * FROM (SELECT a, b AS a FROM t) AS d",
        "|1, 10|2, 20|",
    ),
];

#[test]
fn what_a_name_sees(rt: HostRuntime) {
    assert_each(&rt, rt.alloc(), &SEEN);
}

const KINDS_AND_BOUNDS: [(&str, &str); 24] = [
    ("SELECT a FROM t WHERE - - 'x' = 'x'", "types do not match"),
    ("SELECT - - 'x' FROM t", "types do not match"),
    ("SELECT - - NULL FROM t", "types do not match"),
    ("SELECT a FROM t WHERE - - NULL = 'x'", "|"),
    ("SELECT - NULL FROM t", "|NULL|"),
    ("SELECT a FROM t WHERE - NULL = 'x'", "types do not match"),
    ("SELECT - a FROM t", "|-2|-1|"),
    ("SELECT NULL FROM t", "types do not match"),
    ("SELECT (NULL) AS n FROM t", "types do not match"),
    ("SELECT a + NULL FROM t", "|NULL|"),
    ("SELECT a FROM t WHERE a IN (1, 'x')", "types do not match"),
    ("SELECT a FROM t WHERE NULL IN (1, 'x')", "|"),
    ("SELECT a FROM t WHERE a IN (NULL, 1)", "|1|"),
    (
        "SELECT a FROM t WHERE a BETWEEN 1 AND 'x'",
        "types do not match",
    ),
    (
        "SELECT a FROM t WHERE 'x' BETWEEN a AND 'z'",
        "types do not match",
    ),
    ("SELECT a FROM t WHERE NULL BETWEEN 1 AND 'x'", "|"),
    ("SELECT a FROM t WHERE a NOT BETWEEN 2 AND NULL", "|1|"),
    (
        "SELECT a FROM t WHERE a IN (SELECT c FROM u)",
        "types do not match",
    ),
    (
        "SELECT a FROM t WHERE a IN (SELECT c, b FROM u)",
        "numbers of columns differ",
    ),
    ("SELECT a FROM t WHERE NULL IN (SELECT c FROM u)", "|"),
    ("SELECT a FROM t WHERE EXISTS (SELECT b, c FROM u)", "|1|2|"),
    ("SELECT b * b + 1 FROM t", "|101|401|"),
    ("SELECT b * b + b * b FROM t", "arithmetic past 128 bits"),
    (
        "SELECT d.x * 4 FROM (SELECT 1 AS x FROM t UNION SELECT a * a FROM t) AS d",
        "arithmetic past 128 bits",
    ),
];

#[test]
fn kinds_and_bounds(rt: HostRuntime) {
    assert_each(&rt, rt.alloc(), &KINDS_AND_BOUNDS);
}

// Whether the query has two columns, the first under this name and the second without one.
fn has_one_name(rt: &impl Abort, alloc: Global, query: &str, name: &str) -> bool {
    match read(rt, alloc, query) {
        Ok(input) => {
            let found = match input.left().names.as_slice() {
                [Some(first), None] => first.as_str() == name,
                _ => false,
            };
            drop(input);
            found
        }
        Err(outcome) => {
            drop(outcome);
            false
        }
    }
}

#[test]
fn names_of_what_comes_out(rt: HostRuntime) {
    assert!(rt; has_one_name(&rt, rt.alloc(), "SELECT a AS n, b + 1 FROM t", "n"));
    let table = &[
        (
            "SELECT d.a FROM (SELECT a FROM t UNION SELECT b FROM u) AS d",
            "|1|2|10|30|",
        ),
        (
            "SELECT d.b FROM (SELECT a FROM t UNION SELECT b FROM u) AS d",
            "unknown column: b",
        ),
        (
            "SELECT d.n FROM (SELECT a AS n FROM t EXCEPT SELECT a AS m FROM t WHERE a = 1) AS d",
            "|2|",
        ),
        (
            "SELECT d.b FROM (SELECT b FROM t INTERSECT SELECT b AS c FROM u) d",
            "|10|",
        ),
        (
            "SELECT d.a FROM (SELECT (a) FROM t) AS d",
            "unknown column: a",
        ),
        (
            "SELECT d.a FROM (SELECT - - a FROM t) AS d",
            "unknown column: a",
        ),
        (
            "SELECT d.a FROM (SELECT a AS n FROM t) AS d",
            "unknown column: a",
        ),
        ("SELECT d.a FROM (SELECT t.a FROM t) AS d", "|1|2|"),
        ("SELECT d.c FROM (SELECT u.* FROM u) AS d", "|'x'|'y'|"),
    ];
    assert_each(&rt, rt.alloc(), table);
}

const FAULTS: [(&str, &str); 20] = [
    (
        "SELECT a, b FROM t UNION SELECT c FROM u",
        "numbers of columns differ",
    ),
    (
        "SELECT a FROM t EXCEPT SELECT c FROM u",
        "types do not match",
    ),
    (
        "SELECT a FROM t INTERSECT SELECT c, b FROM u",
        "numbers of columns differ",
    ),
    (
        "SELECT a FROM t UNION SELECT c FROM u EXCEPT SELECT foo FROM t",
        "types do not match",
    ),
    (
        "SELECT a FROM t UNION SELECT foo, c FROM u",
        "unknown column: foo",
    ),
    (
        "SELECT a FROM t UNION SELECT c FROM u INTERSECT SELECT a, b FROM t",
        "numbers of columns differ",
    ),
    (
        "SELECT foo FROM t UNION SELECT bar FROM t",
        "unknown column: foo",
    ),
    ("SELECT foo FROM t WHERE bar = 1", "unknown column: bar"),
    (
        "SELECT foo FROM t JOIN u ON bar = 1, lost",
        "unknown column: bar",
    ),
    (
        "SELECT foo FROM t JOIN lost ON bar = 1",
        "unknown table: lost",
    ),
    ("SELECT foo, NULL FROM t", "unknown column: foo"),
    ("SELECT NULL, foo FROM t", "types do not match"),
    (
        "SELECT a FROM t WHERE a = 'x' AND foo = 1",
        "types do not match",
    ),
    (
        "SELECT a FROM t WHERE foo = 'x' OR a = 'x'",
        "unknown column: foo",
    ),
    (
        "SELECT a FROM t WHERE a IN ('x', foo)",
        "types do not match",
    ),
    (
        "SELECT a FROM t WHERE a BETWEEN 'x' AND foo",
        "unknown column: foo",
    ),
    ("SELECT 'x' + foo FROM t", "types do not match"),
    ("SELECT foo + 'x' FROM t", "unknown column: foo"),
    ("SELECT b * b * 4 + 'x' FROM t", "arithmetic past 128 bits"),
    ("SELECT 'x' + b * b * 4 FROM t", "types do not match"),
];

#[test]
fn the_first_of_two_faults(rt: HostRuntime) {
    assert_each(&rt, rt.alloc(), &FAULTS);
}
