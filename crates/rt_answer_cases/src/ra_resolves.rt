//! What texts answer on a few rows, and their first errors.

ghost use Rattle.std.specs.Prelude.{IfOk};
ghost use Rattle.rt_algebra.specs.Typed.{IsTyped, IsTypedOf};
ghost use Rattle.rt_schema.specs.Given.{IsOf};

use crate::ra_data::{Data, read_data};
use rt_algebra::Typed;
use rt_eval::answers;
use rt_ra::resolve_ra;
use rt_ra_tree::{RaFault, parse_ra};
use rt_schema::{Given, Schema};
use rt_token::tokens;
use rt_value::{Bytes, Keep, List, Row, Value};
use std::alloc::Global;
use std::process::Abort;

const SCHEMA: &str =
    "CREATE TABLE student (name TEXT, major TEXT); CREATE TABLE reg (name TEXT, course TEXT); CREATE TABLE t (a INTEGER, b INTEGER); CREATE TABLE u (b INTEGER); CREATE TABLE none (b INTEGER)";

// Mary takes two courses and John none; a row of `t` has NULL.
const FILES: [&str; 4] = [
    "name,major\nMary,CS\nJohn,ECON\n",
    "name,course\nMary,AI\nMary,DB\n",
    "a,b\n1,\n1,1\n1,2\n2,1\n",
    "b\n1\n2\n",
];

fn put_cell(rt: &impl Abort, alloc: Global, text: &mut Bytes, cell: &Value) {
    let cell = match cell {
        Value::Null => format!(in alloc; "NULL"),
        Value::Int(number) => format!(in alloc; "{number}"),
        Value::Text(text) => format!(in alloc; "'{}'", text.as_str()),
    }
    .expect(rt, "memory");
    text.extend(cell.as_bytes()).expect(rt, "memory");
}

fn put_row(rt: &impl Abort, alloc: Global, text: &mut Bytes, row: &[Value]) {
    for (at, cell) in row.iter().enumerate() {
        if at > 0 {
            text.extend(b", ").expect(rt, "memory");
        }
        put_cell(rt, alloc, text, cell);
    }
    text.extend(b"; ").expect(rt, "memory");
}

fn rows_text(rt: &impl Abort, alloc: Global, rows: &[Row]) -> Bytes {
    let mut text = List::new(alloc);
    for row in rows {
        put_row(rt, alloc, &mut text, row.as_slice());
    }
    text
}

// The answer on all rows.
fn answer_text(rt: &impl Abort, alloc: Global, typed: &Typed, given: &Given) -> Bytes
    requires typed { IsTyped given.now.kinds typed.now }
{
    let keep = Keep::all(alloc, given.total(), true).expect(rt, "memory");
    let rows = answers(alloc, typed, given, &keep).expect(rt, "memory");
    let text = rows_text(rt, alloc, rows.as_slice());
    drop(rows);
    drop(keep);
    text
}

fn fault_text(rt: &impl Abort, alloc: Global, fault: &RaFault) -> Bytes {
    let text = match fault {
        RaFault::UnknownTable(name) => format!(in alloc; "unknown table: {}", name.as_str()),
        RaFault::UnknownColumn(name) => format!(in alloc; "unknown column: {}", name.as_str()),
        RaFault::DuplicateColumn(name) => format!(in alloc; "column twice: {}", name.as_str()),
        RaFault::TypeMismatch => format!(in alloc; "types"),
        RaFault::Columns => format!(in alloc; "columns"),
        _ => format!(in alloc; "other"),
    }
    .expect(rt, "memory");
    List::from_slice(alloc, text.as_bytes()).expect(rt, "memory")
}

fn resolve(rt: &impl Abort, alloc: Global, text: &str, schema: &Schema) -> Result<Typed, RaFault>
    ensures { IfOk result (IsTypedOf schema.now) }
{
    let tokens = tokens(alloc, text.as_bytes()).expect(rt, "tokens");
    let tree = parse_ra(alloc, tokens.as_slice()).expect(rt, "a tree");
    drop(tokens);
    let typed = resolve_ra(alloc, &tree, schema);
    drop(tree);
    typed
}

// The rows of the text, or its first error.
fn told_of(rt: &impl Abort, alloc: Global, text: &str, data: &Data) -> Bytes
    requires { IsOf data.now.schema data.now.given }
{
    match resolve(rt, alloc, text, &data.schema) {
        Ok(typed) => {
            let told = answer_text(rt, alloc, &typed, &data.given);
            drop(typed);
            told
        }
        Err(fault) => {
            let told = fault_text(rt, alloc, &fault);
            drop(fault);
            told
        }
    }
}

fn told(rt: &impl Abort, alloc: Global, text: &str) -> Bytes {
    let data = read_data(rt, alloc, SCHEMA, &FILES);
    let told = told_of(rt, alloc, text, &data);
    drop(data);
    told
}

fn tells(rt: &impl Abort, alloc: Global, text: &str, wanted: &str) -> bool {
    let told = told(rt, alloc, text);
    let found = told.as_slice() == wanted.as_bytes();
    drop(told);
    found
}

#[test]
fn answers_of_each_operator(rt: HostRuntime) {
    for (text, wanted) in &[
        ("select(t, a = 1 AND b IS NOT NULL)", "1, 1; 1, 2; "),
        ("select(t, b > -1)", "1, 1; 1, 2; 2, 1; "),
        (
            "project(student, (major, name))",
            "'CS', 'Mary'; 'ECON', 'John'; ",
        ),
        ("rename(u, (a))", "1; 2; "),
        (
            "cross(rename(u, (c)), project(t, (b)))",
            "1, NULL; 1, 1; 1, 2; 2, NULL; 2, 1; 2, 2; ",
        ),
        ("join(t, project(t, (b)))", "1, 1; 1, 2; 2, 1; "),
        (
            "join(student, reg)",
            "'Mary', 'CS', 'AI'; 'Mary', 'CS', 'DB'; ",
        ),
        ("semi(student, reg)", "'Mary', 'CS'; "),
        ("anti(t, project(t, (b)))", "1, NULL; "),
        (
            "leftjoin(student, reg)",
            "'John', 'ECON', NULL; 'Mary', 'CS', 'AI'; 'Mary', 'CS', 'DB'; ",
        ),
        ("divide(t, u)", "1; "),
        ("divide(t, project(t, (b)))", "1; "),
        ("divide(t, none)", "1; 2; "),
        ("union(project(t, (b)), u)", "NULL; 1; 2; "),
        ("except(project(t, (b)), u)", "NULL; "),
        (
            "intersect(project(t, (b)), project(t, (b)))",
            "NULL; 1; 2; ",
        ),
    ] {
        assert!(rt; tells(&rt, rt.alloc(), text, wanted), "{text}");
    }
}

// Operands come before the tests of their operator, and the left one before the right one.
#[test]
fn the_first_fault(rt: HostRuntime) {
    for (text, wanted) in &[
        ("regs", "unknown table: regs"),
        ("cross(lost, regs)", "unknown table: lost"),
        ("cross(student, reg)", "column twice: name"),
        ("divide(student, reg)", "unknown column: course"),
        ("divide(student, student)", "columns"),
        ("divide(t, project(rename(student, (b, c)), (b)))", "types"),
        (
            "divide(rename(t, (name, a)), rename(u, (c)))",
            "unknown column: c",
        ),
        ("rename(student, (a))", "columns"),
        ("rename(student, (a, a))", "column twice: a"),
        ("project(student, (name, name, foo))", "unknown column: foo"),
        ("project(regs, (name, name))", "unknown table: regs"),
        ("project(student, (name, name))", "column twice: name"),
        ("select(student, foo = 5)", "unknown column: foo"),
        ("select(student, name = 5 AND foo IS NULL)", "types"),
        ("union(student, u)", "columns"),
        ("union(student, t)", "types"),
        ("join(rename(t, (course, name)), reg)", "types"),
    ] {
        assert!(rt; tells(&rt, rt.alloc(), text, wanted), "{text}");
    }
}
