//! Reading schemas: what a text makes, each error, and the order of the errors.

use crate::checks::rules;
use crate::told::Report;
use rt_ddl::{Excess, SchemaFault, read_schema};
use rt_schema::{ColKind, Column, Foreign, Rule, Table};
use rt_value::{List, Txt};
use std::alloc::Global;
use std::fmt::Write;
use std::process::Abort;

fn columns(rt: &impl Abort, alloc: Global, named: &[(&str, ColKind)]) -> List<Column> {
    let mut columns = List::new(alloc);
    for (name, kind) in named {
        let name = Txt::of(alloc, name).expect(rt, "memory");
        let kind = *kind;
        columns.push(Column { name, kind }).expect(rt, "memory");
    }
    columns
}

fn places(rt: &impl Abort, alloc: Global, places: &[usize]) -> List<usize> {
    List::from_slice(alloc, places).expect(rt, "memory")
}

fn student_rules(rt: &impl Abort, alloc: Global) -> List<Rule> {
    let mut rules = List::new(alloc);
    let key = Rule::Key(places(rt, alloc, &[0]));
    rules.push(key).expect(rt, "memory");
    rules.push(Rule::NotNull(0)).expect(rt, "memory");
    rules
}

fn student(rt: &impl Abort, alloc: Global) -> Table {
    let named = [("name", ColKind::Text), ("major", ColKind::Text)];
    Table {
        name: Txt::of(alloc, "student").expect(rt, "memory"),
        columns: columns(rt, alloc, &named),
        rules: student_rules(rt, alloc),
    }
}

fn reg_rules(rt: &impl Abort, alloc: Global) -> List<Rule> {
    let mut rules = List::new(alloc);
    let student = Foreign {
        from: places(rt, alloc, &[0]),
        table: 0,
        to: places(rt, alloc, &[0]),
    };
    rules.push(Rule::Foreign(student)).expect(rt, "memory");
    let key = Rule::Key(places(rt, alloc, &[0, 1]));
    rules.push(key).expect(rt, "memory");
    rules.push(Rule::NotNull(0)).expect(rt, "memory");
    rules.push(Rule::NotNull(1)).expect(rt, "memory");
    rules
}

fn reg(rt: &impl Abort, alloc: Global) -> Table {
    let named = [
        ("name", ColKind::Text),
        ("course", ColKind::Whole),
        ("dept", ColKind::Text),
        ("grade", ColKind::Whole),
    ];
    Table {
        name: Txt::of(alloc, "reg").expect(rt, "memory"),
        columns: columns(rt, alloc, &named),
        rules: reg_rules(rt, alloc),
    }
}

fn students(rt: &impl Abort, alloc: Global) -> List<Table> {
    let mut tables = List::new(alloc);
    tables.push(student(rt, alloc)).expect(rt, "memory");
    tables.push(reg(rt, alloc)).expect(rt, "memory");
    tables
}

// Whether the text says the two tables of the students.
fn says_students(alloc: Global, text: &str, wanted: &[Table]) -> bool {
    match read_schema(alloc, text.as_bytes()) {
        Ok(schema) => schema.tables() == wanted,
        Err(_) => false,
    }
}

// Texts of one schema: with no more keywords than it takes, and with some that have no effect.
#[test]
fn reads_the_students(rt: HostRuntime) {
    let students = students(&rt, rt.alloc());
    for text in &[
        "CREATE TABLE student (name TEXT PRIMARY KEY, major TEXT);
CREATE TABLE reg (name TEXT REFERENCES student, course INTEGER, dept TEXT, grade INTEGER, PRIMARY KEY (name, course));",
        "create table if not exists Student (name char(20) null primary key, major varchar(8));
create table reg (constraint k primary key (name, course), name text constraint k references student (name),
  \"course\" bigint, dept varchar, grade int null) -- the end",
    ] {
        assert!(rt;
            says_students(rt.alloc(), text, students.as_slice()),
            "{text}"
        );
    }
}

fn put_named(out: &mut Report, word: &str, name: &Txt) {
    out.put(word);
    out.put(" ");
    out.put(name.as_str());
}

// The error's kind and name, or its place.
fn put_fault(out: &mut Report, fault: &SchemaFault) {
    match fault {
        SchemaFault::Lex(_) => out.put("lex"),
        SchemaFault::Syntax(at) => {
            out.put("syntax ");
            out.put_number(*at as i128);
        }
        SchemaFault::DuplicateName(name) => put_named(out, "twice", name),
        SchemaFault::UnknownName(name) => put_named(out, "unknown", name),
        SchemaFault::KeyTypes(name) => put_named(out, "key of", name),
        SchemaFault::CheckTypes(name) => put_named(out, "check of", name),
        SchemaFault::TooMany(Excess::Tables) => out.put("tables"),
        SchemaFault::TooMany(Excess::Columns(name)) => put_named(out, "columns of", name),
        SchemaFault::TooMany(Excess::Rules(name)) => put_named(out, "rules of", name),
        SchemaFault::NoMemory => out.put("memory"),
    }
}

// How many tables the text has, or its error.
fn put_read(out: &mut Report, alloc: Global, text: &str) {
    match read_schema(alloc, text.as_bytes()) {
        Ok(schema) => {
            out.put("tables ");
            out.put_number(schema.tables().len() as i128);
            drop(schema);
        }
        Err(fault) => {
            put_fault(out, &fault);
            drop(fault);
        }
    }
}

fn is_told(alloc: Global, text: &str, wanted: &str) -> bool {
    let mut out = Report::new(alloc);
    put_read(&mut out, alloc, text);
    out.is(wanted)
}

#[test]
fn tells_faults(rt: HostRuntime) {
    for (text, wanted) in &[
        ("", "tables 0"),
        ("CREATE TABLE t (a INTEGER, A TEXT);", "twice a"),
        ("CREATE TABLE t (a INTEGER REFERENCES u);", "unknown u"),
        (
            "CREATE TABLE u (x TEXT PRIMARY KEY); CREATE TABLE t (a INTEGER REFERENCES u);",
            "key of t",
        ),
        ("CREATE TABLE t (a FLOAT);", "syntax 18"),
        ("CREATE TABLE t (a \"int\")", "syntax 18"),
        (
            "CREATE TABLE t (a INT PRIMARY KEY, PRIMARY KEY (a, a))",
            "twice t",
        ),
        ("CREATE TABLE t (a INT REFERENCES u, a INT)", "twice a"),
        ("CREATE TABLE t (a INT REFERENCES t)", "unknown t"),
        ("CREATE TABLE t (a INT, b INT, UNIQUE (a, b, a))", "twice a"),
        ("CREATE TABLE t (a INT NOT)", "syntax 25"),
        ("CREATE TABLE t (a INT", "syntax 21"),
        ("CREATE TABLE t (a INT);;", "syntax 23"),
        ("CREATE TABLE \"a", "lex"),
    ] {
        assert!(rt; is_told(rt.alloc(), text, wanted), "{text}");
    }
}

// Whether the rules of the first table are these.
fn are_in(alloc: Global, tables: &[Table], wanted: &str) -> bool {
    let mut out = Report::new(alloc);
    if let [table, ..] = tables {
        rules(&mut out, table.rules.as_slice());
    }
    out.is(wanted)
}

fn are_told(alloc: Global, text: &str, wanted: &str) -> bool {
    match read_schema(alloc, text.as_bytes()) {
        Ok(schema) => {
            let found = are_in(alloc, schema.tables(), wanted);
            drop(schema);
            found
        }
        Err(_) => false,
    }
}

// Each line of the grammar of conditions, and the two NOTs.
const CHECKS: [(&str, &str); 11] = [
    ("CREATE TABLE t (a INT CHECK (a > 0), b INT)", "[#0>0]"),
    (
        "CREATE TABLE t (a INT NOT NULL CONSTRAINT k CHECK (b <> a) UNIQUE, b INT)",
        ".[#1<>#0].",
    ),
    (
        "CREATE TABLE t (a INT, CHECK (a = 1), CONSTRAINT k CHECK (NULL <= a), b INT)",
        "[#0=1][N<=#0]",
    ),
    (
        "CREATE TABLE t (a INT, b TEXT, CHECK (b >= 'x' OR a < -1 AND 'y' = b OR b = ''))",
        "[#1>='x' | #0<-1 & 'y'=#1 | #1='']",
    ),
    (
        "CREATE TABLE t (a INT, CHECK (a IS NULL AND a IS NOT NULL AND NOT a IS NULL AND NOT a IS NOT NULL))",
        "[#0 null & !#0 null & !#0 null & #0 null]",
    ),
    (
        "CREATE TABLE t (a INT, CHECK (a BETWEEN 1 AND 2 AND NOT a NOT BETWEEN -2 AND a OR NOT a BETWEEN NULL AND 3))",
        "[#0 between 1 2 & #0 between -2 #0 | !#0 between N 3]",
    ),
    (
        "CREATE TABLE t (a INT, CHECK (a IN (1) OR a NOT IN (a, -1, NULL) OR NOT 5 IN (1, 2)))",
        "[#0 in 1 | !#0 in #0 -1 N | !5 in 1 2]",
    ),
    (
        "CREATE TABLE t (a INT, CHECK (a = -170141183460469231731687303715884105727))",
        "[#0=-170141183460469231731687303715884105727]",
    ),
    (
        "CREATE TABLE t (a INT, b INT, c INT, DEPENDENCY (a, b) DETERMINES (c, a), CONSTRAINT k DEPENDENCY (c) DETERMINES (b))",
        "[ 0 1 -> 2 0][ 2 -> 1]",
    ),
    (
        "CREATE TABLE h (dependency INTEGER, CHECK (dependency BETWEEN 0 AND 100 OR dependency IN (-1)));",
        "[#0 between 0 100 | #0 in -1]",
    ),
    (
        "CREATE TABLE determines (dependency INT, determines TEXT, DEPENDENCY (dependency) DETERMINES (determines))",
        "[ 0 -> 1]",
    ),
];

#[test]
fn reads_checks(rt: HostRuntime) {
    for (text, wanted) in &CHECKS {
        assert!(rt; are_told(rt.alloc(), text, wanted), "{text}");
    }
}

fn is_syntax_fault(alloc: Global, text: &str) -> bool {
    matches!(
        read_schema(alloc, text.as_bytes()),
        Err(SchemaFault::Syntax(_))
    )
}

// Nesting, arithmetic, names of tables, and rules in the wrong place.
#[test]
fn tells_what_is_no_check(rt: HostRuntime) {
    for text in &[
        "CREATE TABLE t (a INT CHECK a > 0)",
        "CREATE TABLE t (a INT, CHECK ((a > 0)))",
        "CREATE TABLE t (a INT, CHECK (a + 1 > 0))",
        "CREATE TABLE t (a INT, CHECK (- - 1 < a))",
        "CREATE TABLE t (a INT, CHECK (- a < 1))",
        "CREATE TABLE t (a INT, CHECK (NOT NOT a = 1))",
        "CREATE TABLE t (a INT, CHECK (a = 1 = 1))",
        "CREATE TABLE t (a INT, CHECK (a IN ()))",
        "CREATE TABLE t (a INT, CHECK (t.a = 1))",
        "CREATE TABLE t (a INT, CHECK ())",
        "CREATE TABLE t (a INT, check INT)",
        "CREATE TABLE t (a INT DEPENDENCY (a) DETERMINES (a))",
        "CREATE TABLE t (a INT, DEPENDENCY (a))",
        "CREATE TABLE t (a INT, DEPENDENCY (a) DETERMINES ())",
    ] {
        assert!(rt; is_syntax_fault(rt.alloc(), text), "{text}");
    }
}

// The order of the errors of checks and dependencies.
const FAULTS_OF_CHECKS: [(&str, &str); 13] = [
    ("CREATE TABLE h (dependency INTEGER)", "tables 1"),
    (
        "CREATE TABLE t (a INT, b INT, DEPENDENCY (a, b, a) DETERMINES (b), CHECK (c = 1))",
        "twice a",
    ),
    (
        "CREATE TABLE t (a INT, b INT, DEPENDENCY (a) DETERMINES (b, b))",
        "twice b",
    ),
    (
        "CREATE TABLE t (a INT, b INT, DEPENDENCY (a, b) DETERMINES (b, a))",
        "tables 1",
    ),
    (
        "CREATE TABLE t (a INT CHECK (a = 1 OR a IN (2, x) AND y = a), CHECK (z = 1))",
        "unknown x",
    ),
    (
        "CREATE TABLE t (a INT, CHECK (a BETWEEN 'x' AND u), FOREIGN KEY (v) REFERENCES w)",
        "unknown u",
    ),
    (
        "CREATE TABLE t (a INT, DEPENDENCY (x) DETERMINES (y))",
        "unknown x",
    ),
    (
        "CREATE TABLE t (a INT, DEPENDENCY (a) DETERMINES (y))",
        "unknown y",
    ),
    (
        "CREATE TABLE s (b TEXT PRIMARY KEY, CHECK (b = 1)); CREATE TABLE t (a INT REFERENCES s)",
        "key of t",
    ),
    ("CREATE TABLE h (a INTEGER CHECK (a > 'x'));", "check of h"),
    (
        "CREATE TABLE t (a INT CHECK (a = a)); CREATE TABLE u (a TEXT CHECK ('x' IN ('y', 1))); CREATE TABLE v (a INT CHECK (a = 'x'))",
        "check of u",
    ),
    (
        "CREATE TABLE t (a INT, b TEXT, CHECK (a BETWEEN 1 AND b))",
        "check of t",
    ),
    (
        "CREATE TABLE t (a INT, b TEXT, CHECK (NULL BETWEEN a AND b AND NULL IN (1, 'x') AND a IS NULL))",
        "tables 1",
    ),
];

#[test]
fn tells_faults_of_checks(rt: HostRuntime) {
    for (text, wanted) in &FAULTS_OF_CHECKS {
        assert!(rt; is_told(rt.alloc(), text, wanted), "{text}");
    }
}

// A table with a key, a foreign key, this many checks and a dependency; the last check compares a
// whole number with a text.
fn checked(rt: &impl Abort, alloc: Global, checks: usize) -> String {
    let front =
        "CREATE TABLE t (a INT NOT NULL UNIQUE, b INT REFERENCES t (a), DEPENDENCY (a) DETERMINES (b)";
    let mut text = String::from_str(alloc, front).expect(rt, "memory");
    for _ in 1..checks {
        text.push_str(", CHECK (a = 1)").expect(rt, "memory");
    }
    text.push_str(", CHECK (a = 'x'))").expect(rt, "memory");
    text
}

// The rules are counted together, and a check's types are tested last.
#[test]
fn counts_rules(rt: HostRuntime) {
    for (checks, wanted) in &[(61, "check of t"), (62, "rules of t")] {
        let text = checked(&rt, rt.alloc(), *checks);
        let found = is_told(rt.alloc(), text.as_str(), wanted);
        drop(text);
        assert!(rt; found, "{checks}");
    }
}

// A table with this many columns.
fn wide(rt: &impl Abort, alloc: Global, columns: usize) -> String {
    let mut text = String::from_str(alloc, "CREATE TABLE t (c INT").expect(rt, "memory");
    for column in 1..columns {
        write!(text, ", c{column} INT").expect(rt, "memory");
    }
    text.push_str(")").expect(rt, "memory");
    text
}

#[test]
fn counts_columns(rt: HostRuntime) {
    for (columns, wanted) in &[(64, "tables 1"), (65, "columns of t")] {
        let text = wide(&rt, rt.alloc(), *columns);
        let found = is_told(rt.alloc(), text.as_str(), wanted);
        drop(text);
        assert!(rt; found, "{columns}");
    }
}
