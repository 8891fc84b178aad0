//! The law of rows, by itself and as a formula: both have to refuse the same choices of rows.

ghost use Rattle.rt_schema.specs.Given.{IsOf};

use crate::data::{Data, choice, read_data};
use rt_formula::{Dag, Node};
use rt_rules::law;
use rt_schema::{law_work, lawful};
use std::alloc::Global;
use std::process::Abort;

// Whether the kept rows are lawful.
fn is_lawful(rt: &impl Abort, alloc: Global, tables: &Data, places: &str) -> bool
    requires { IsOf tables.now.schema tables.now.given }
{
    let keep = choice(rt, alloc, places);
    assert!(rt; keep.len() == tables.given.total());
    let found = lawful(&tables.schema, &tables.given, &keep);
    drop(keep);
    found
}

// Whether the formula of the law is true at the kept rows.
fn is_true(rt: &impl Abort, alloc: Global, tables: &Data, places: &str) -> bool
    requires { IsOf tables.now.schema tables.now.given }
{
    let mut dag = Dag::new(alloc, tables.given.total()).expect(rt, "memory");
    let node = law(alloc, &mut dag, &tables.schema, &tables.given).expect(rt, "memory");
    let value = value_at(rt, alloc, &dag, node, places);
    drop(dag);
    value
}

fn value_at(rt: &impl Abort, alloc: Global, dag: &Dag, node: Node, places: &str) -> bool {
    let keep = choice(rt, alloc, places);
    assert!(rt; keep.len() == dag.rows() && node.number() < dag.len());
    let value = dag.value(node, &keep).expect(rt, "memory");
    drop(keep);
    value
}

// Whether the kept rows are lawful, and whether the formula of the law is true at them.
fn both(rt: &impl Abort, alloc: Global, tables: &Data, places: &str) -> [bool; 2]
    requires { IsOf tables.now.schema tables.now.given }
{
    let lawful = is_lawful(rt, alloc, tables, places);
    let holds = is_true(rt, alloc, tables, places);
    [lawful, holds]
}

/// The same of the rows of a file.
pub(crate) fn both_of(
    rt: &impl Abort,
    alloc: Global,
    schema: &str,
    file: &str,
    places: &str,
) -> [bool; 2] {
    let tables = read_data(rt, alloc, schema, &[file]);
    let found = both(rt, alloc, &tables, places);
    drop(tables);
    found
}

// The choices that are not lawful, of which the formula of the law says the same.
fn refused_of(rt: &impl Abort, alloc: Global, tables: &Data, choices: &[&str]) -> String
    requires { IsOf tables.now.schema tables.now.given }
{
    let mut refused = String::new(alloc);
    for places in choices {
        let [lawful, holds] = both(rt, alloc, tables, places);
        assert!(rt; lawful == holds, "{places}");
        if !lawful {
            refused.push_str(places).expect(rt, "memory");
            refused.push_str(" ").expect(rt, "memory");
        }
    }
    refused
}

// Whether just these of the choices of the rows of a file are not lawful.
fn are_refused(
    rt: &impl Abort,
    alloc: Global,
    schema: &str,
    file: &str,
    choices: &[&str],
    wanted: &str,
) -> bool {
    let tables = read_data(rt, alloc, schema, &[file]);
    let refused = refused_of(rt, alloc, &tables, choices);
    drop(tables);
    let found = refused.as_str() == wanted;
    drop(refused);
    found
}

const TWO: [&str; 4] = ["00", "10", "01", "11"];

const TWO_ROWS: [(&str, &str, &str); 4] = [
    (
        "CREATE TABLE t (a INTEGER PRIMARY KEY, b INTEGER REFERENCES t (a));",
        "a,b\n1,2\n2,1\n",
        "10 01 ",
    ),
    (
        "CREATE TABLE t (a INTEGER PRIMARY KEY, b INTEGER);",
        "a,b\n1,1\n1,2\n",
        "11 ",
    ),
    (
        "CREATE TABLE t (a INTEGER UNIQUE, b INTEGER);",
        "a,b\n,1\n,1\n",
        "",
    ),
    (
        "CREATE TABLE t (a INTEGER NOT NULL, b INTEGER);",
        "a,b\n,5\n7,\n",
        "10 11 ",
    ),
];

#[test]
fn two_rows_at_each_choice(rt: HostRuntime) {
    let alloc = rt.alloc();
    for (schema, file, wanted) in &TWO_ROWS {
        assert!(rt;
            are_refused(&rt, alloc, schema, file, &TWO, wanted),
            "{schema}"
        );
    }
}

const THREE: [&str; 8] = ["000", "100", "010", "001", "110", "101", "011", "111"];

// Whether these are refused of a table under a rule.
fn refuses(rt: &impl Abort, alloc: Global, rule: &str, file: &str, wanted: &str) -> bool {
    let schema = format!(in alloc; "CREATE TABLE t (a INTEGER, b INTEGER, c TEXT, {rule});").expect(
        rt, "memory",
    );
    let found = are_refused(rt, alloc, schema.as_str(), file, &THREE, wanted);
    drop(schema);
    found
}

// The choices that have the first, the second or the third of three rows.
const FIRST: &str = "100 110 101 111 ";

const SECOND: &str = "010 110 011 111 ";

const THIRD: &str = "001 101 011 111 ";

const FIRST_SECOND: &str = "100 010 110 101 011 111 ";

const FIRST_THIRD: &str = "100 001 110 101 011 111 ";

// A check refuses the rows that make it false, and passes those that make it unknown.
const CHECKS: [(&str, &str); 22] = [
    ("CHECK (a > 0)", ""),
    ("CHECK (a > 1)", FIRST),
    ("CHECK (NOT a > 1)", SECOND),
    ("CHECK (b < a)", FIRST),
    ("CHECK (b IS NULL)", FIRST_THIRD),
    ("CHECK (b IS NOT NULL)", SECOND),
    ("CHECK (NOT b IS NOT NULL)", FIRST_THIRD),
    ("CHECK (c = 'x')", SECOND),
    ("CHECK (a BETWEEN 2 AND 4)", FIRST),
    ("CHECK (a NOT BETWEEN 2 AND 4)", SECOND),
    ("CHECK (a BETWEEN 4 AND 2)", FIRST_SECOND),
    ("CHECK (a BETWEEN 2 AND NULL)", FIRST),
    ("CHECK (a NOT BETWEEN 2 AND NULL)", ""),
    ("CHECK (a IN (1, 3))", ""),
    ("CHECK (a NOT IN (1, 3))", FIRST_SECOND),
    ("CHECK (a IN (1, NULL))", ""),
    ("CHECK (a NOT IN (1, NULL))", FIRST),
    ("CHECK (a > 2 OR b = 2)", ""),
    ("CHECK (a > 2 AND b = 2)", FIRST_THIRD),
    ("CHECK (b = 2 OR b IS NULL)", THIRD),
    ("CHECK (a > 1 AND c = 'x')", FIRST_SECOND),
    ("CHECK (b = 0 OR a > 1 AND c = 'y')", FIRST),
];

#[test]
fn checks_of_three_rows(rt: HostRuntime) {
    let alloc = rt.alloc();
    let file = "a,b,c\n1,2,x\n3,,y\n,0,\n";
    for (rule, wanted) in &CHECKS {
        assert!(rt; refuses(&rt, alloc, rule, file, wanted), "{rule}");
    }
}

// Whether a dependency refuses these of rows without their head.
fn dependency_refuses(
    rt: &impl Abort,
    alloc: Global,
    rule: &str,
    rows: &str,
    wanted: &str,
) -> bool {
    let rule = format!(in alloc; "DEPENDENCY {rule}").expect(rt, "memory");
    let file = format!(in alloc; "a,b,c\n{rows}").expect(rt, "memory");
    let found = refuses(rt, alloc, rule.as_str(), file.as_str(), wanted);
    drop(file);
    drop(rule);
    found
}

const DEPENDENCIES: [(&str, &str, &str); 8] = [
    ("(a) DETERMINES (b)", "1,1,\n1,2,\n2,2,\n", "110 111 "),
    ("(b) DETERMINES (a)", "1,1,\n1,2,\n2,2,\n", "011 111 "),
    ("(a) DETERMINES (b)", "1,,\n1,5,\n1,,\n", "110 011 111 "),
    ("(a) DETERMINES (b)", ",1,\n,2,\n1,3,\n", ""),
    ("(a, b) DETERMINES (c)", "1,1,x\n1,1,y\n1,,z\n", "110 111 "),
    (
        "(c) DETERMINES (a, b)",
        "1,1,x\n1,2,x\n1,1,x\n",
        "110 011 111 ",
    ),
    (
        "(c) DETERMINES (a, b)",
        "1,1,x\n2,1,x\n2,1,x\n",
        "110 101 111 ",
    ),
    ("(a, b) DETERMINES (c)", "1,,x\n1,,y\n1,,z\n", ""),
];

#[test]
fn dependencies_of_three_rows(rt: HostRuntime) {
    let alloc = rt.alloc();
    for (rule, rows, wanted) in &DEPENDENCIES {
        assert!(rt;
            dependency_refuses(&rt, alloc, rule, rows, wanted),
            "{rule}: {rows}"
        );
    }
}

// The work of the law of the rows of these files.
fn work_of(rt: &impl Abort, alloc: Global, schema: &str, files: &[&str]) -> u128 {
    let tables = read_data(rt, alloc, schema, files);
    let work = law_work(&tables.schema, &tables.given);
    drop(tables);
    work
}

const PAIRS: [(&str, u128); 2] = [
    (
        "CREATE TABLE t (a INTEGER, b INTEGER, DEPENDENCY (a) DETERMINES (b));",
        3,
    ),
    ("CREATE TABLE t (a INTEGER, b INTEGER, CHECK (a > 1));", 5),
];

#[test]
fn pairs_of_a_dependency_and_rows_of_a_check(rt: HostRuntime) {
    let alloc = rt.alloc();
    let file = "a,b\n1,1\n1,2\n1,2\n,2\n,3\n";
    for (schema, wanted) in &PAIRS {
        assert!(rt; work_of(&rt, alloc, schema, &[file]) == *wanted, "{schema}");
    }
}

#[test]
fn pairs_of_students_and_registrations(rt: HostRuntime) {
    let schema =
        "CREATE TABLE student (name TEXT PRIMARY KEY);\nCREATE TABLE reg (name TEXT REFERENCES student (name), num INTEGER, PRIMARY KEY (name, num));";
    let files = [
        "name\nMary\nJohn\n",
        "name,num\nMary,216\nMary,230\nJohn,316\n",
    ];
    assert!(rt; work_of(&rt, rt.alloc(), schema, &files) == 3);
}
