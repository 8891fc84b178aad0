//! The refusals, one line each, in memory.

use rt_cases::{ABC, ALL, FOUR, ONES, REG, SCHEMA, SCHOOL, STUDENT, TABLE, ends, files};
use std::alloc::Global;
use std::fmt::Write;
use std::process::Abort;

// A table with 65 columns.
const WIDE: &str = "CREATE TABLE t (\
    c1 INTEGER, c2 INTEGER, c3 INTEGER, c4 INTEGER, c5 INTEGER, c6 INTEGER, c7 INTEGER, \
    c8 INTEGER, c9 INTEGER, c10 INTEGER, c11 INTEGER, c12 INTEGER, c13 INTEGER, c14 \
    INTEGER, c15 INTEGER, c16 INTEGER, c17 INTEGER, c18 INTEGER, c19 INTEGER, c20 \
    INTEGER, c21 INTEGER, c22 INTEGER, c23 INTEGER, c24 INTEGER, c25 INTEGER, c26 \
    INTEGER, c27 INTEGER, c28 INTEGER, c29 INTEGER, c30 INTEGER, c31 INTEGER, c32 \
    INTEGER, c33 INTEGER, c34 INTEGER, c35 INTEGER, c36 INTEGER, c37 INTEGER, c38 \
    INTEGER, c39 INTEGER, c40 INTEGER, c41 INTEGER, c42 INTEGER, c43 INTEGER, c44 \
    INTEGER, c45 INTEGER, c46 INTEGER, c47 INTEGER, c48 INTEGER, c49 INTEGER, c50 \
    INTEGER, c51 INTEGER, c52 INTEGER, c53 INTEGER, c54 INTEGER, c55 INTEGER, c56 \
    INTEGER, c57 INTEGER, c58 INTEGER, c59 INTEGER, c60 INTEGER, c61 INTEGER, c62 \
    INTEGER, c63 INTEGER, c64 INTEGER, c65 INTEGER)";

// Whether two queries over these tables are refused with this status and line.
fn is_refused(
    rt: &impl Abort,
    alloc: Global,
    schema: &str,
    tables: &[(&str, &str)],
    queries: [&str; 2],
    refusal: (u8, &str),
) -> bool {
    let mut files = files(alloc, schema, tables, queries[0], queries[1]).expect(rt, "memory");
    let (status, line) = refusal;
    let err = format!(in alloc; "ratest: {line}\n").expect(rt, "memory");
    let found = ends(alloc, &mut files, &FOUR, status, "", err.as_str()).expect(rt, "memory");
    drop(err);
    drop(files);
    found
}

#[test]
fn schemas(rt: HostRuntime) {
    for (schema, status, line) in &[
        (
            "CREATE TABLE t (a INTEGER, A TEXT);",
            3,
            "schema: name twice: a",
        ),
        (
            "CREATE TABLE t (a INTEGER REFERENCES u);",
            3,
            "schema: unknown name: u",
        ),
        (
            "CREATE TABLE u (x TEXT PRIMARY KEY); CREATE TABLE t (a INTEGER REFERENCES u);",
            3,
            "schema: foreign key of t does not match",
        ),
        (
            "CREATE TABLE h (a INTEGER CHECK (a > 'x'));",
            3,
            "schema: check of h does not type",
        ),
        (
            "CREATE TABLE t (a FLOAT);",
            3,
            "schema: syntax fault near byte 18",
        ),
        (
            "CREATE TABLE t (a INTEGER) /*",
            3,
            "schema: comment without end from byte 27",
        ),
        (WIDE, 5, "limit: table t has more than 64 columns"),
    ] {
        let refusal = (*status, *line);
        assert!(rt;
            is_refused(&rt, rt.alloc(), schema, &[TABLE], [ALL, ALL], refusal),
            "{line}"
        );
    }
}

// A foreign key whose type differs, and one of an unknown table.
const TYPES: &str = "CREATE TABLE u (x TEXT PRIMARY KEY); CREATE TABLE r (a INTEGER REFERENCES u);";

const UNKNOWN: &str = "CREATE TABLE w (a INTEGER REFERENCES v);";

// Whether a schema of these texts, one after the other, is refused so.
fn is_schema_refused(
    rt: &impl Abort,
    alloc: Global,
    texts: [&str; 3],
    refusal: (u8, &str),
) -> bool {
    let [first, second, third] = texts;
    let schema = format!(in alloc; "{first} {second} {third}").expect(rt, "memory");
    let found = is_refused(rt, alloc, schema.as_str(), &[TABLE], [ALL, ALL], refusal);
    drop(schema);
    found
}

// Unknown names come before key types, and those before what is too many, wherever each is.
#[test]
fn faults_in_their_order(rt: HostRuntime) {
    let unknown = (3, "schema: unknown name: v");
    assert!(rt; is_schema_refused(&rt, rt.alloc(), [TYPES, UNKNOWN, ""], unknown));
    assert!(rt; is_schema_refused(&rt, rt.alloc(), [WIDE, ";", UNKNOWN], unknown));
    let types = (3, "schema: foreign key of r does not match");
    assert!(rt; is_schema_refused(&rt, rt.alloc(), [WIDE, ";", TYPES], types));
}

// A schema of so many tables.
fn many_tables(rt: &impl Abort, alloc: Global, count: usize) -> String {
    let mut schema = String::new(alloc);
    for n in 1..=count {
        write!(schema, "CREATE TABLE t{n} (a INTEGER);").expect(rt, "memory");
    }
    schema
}

// Whether a schema of so many tables is refused so.
fn are_refused(rt: &impl Abort, alloc: Global, count: usize, refusal: (u8, &str)) -> bool {
    let schema = many_tables(rt, alloc, count);
    let found = is_refused(rt, alloc, schema.as_str(), &[], [ALL, ALL], refusal);
    drop(schema);
    found
}

// The 65th table is one too many; of 64 the first file is looked for.
#[test]
fn number_of_tables(rt: HostRuntime) {
    let many = (5, "limit: more than 64 tables");
    assert!(rt; are_refused(&rt, rt.alloc(), 65, many));
    assert!(rt; are_refused(&rt, rt.alloc(), 64, (6, "cannot read table t1")));
}

// A table is refused before the first query, which is none.
#[test]
fn tables(rt: HostRuntime) {
    for (rows, line) in &[
        ("a,c\n", "table t: header differs from the schema"),
        ("", "table t: header differs from the schema"),
        (
            "\u{feff}\u{feff}a,b\n",
            "table t: header differs from the schema",
        ),
        ("a,b\n1\n", "table t: record 2 has another number of fields"),
        ("a,b\n1,x\n", "table t: record 2, column 2: not an integer"),
    ] {
        let tables = [("d/t.csv", *rows)];
        assert!(rt;
            is_refused(&rt, rt.alloc(), SCHEMA, &tables, ["(", ALL], (3, *line)),
            "{line} {rows}"
        );
    }
}

const TWO: &str = "CREATE TABLE t (a INTEGER, b INTEGER); CREATE TABLE reg (name TEXT);";

const BOTH: [(&str, &str); 2] = [("d/t.csv", "a,b\n1,10\n"), ("d/reg.csv", "name\nMary\n")];

#[test]
fn texts_that_are_no_query(rt: HostRuntime) {
    for (query, line) in &[
        ("SELECT 'abc", "query 1: text without end from byte 7"),
        ("SELECT a/2 FROM t", "query 1: unexpected byte at 8"),
        (
            "SELECT 170141183460469231731687303715884105728 FROM t",
            "query 1: number past 128 bits at byte 7",
        ),
        ("SELECT count(*) FROM t", "query 1: not supported: count"),
        ("SELECT count(*) FROM reg", "query 1: not supported: count"),
        (
            "SELECT a FROM t UNION ALL SELECT b FROM t",
            "query 1: not supported: all",
        ),
        (
            "(((((((((((((((((((((((((((((((((((((((((((((((((((((((((((((((((",
            "query 1: nested too deep",
        ),
        ("SELECT a FROM", "query 1: syntax fault near byte 13"),
        ("SELECT name FROM", "query 1: syntax fault near byte 16"),
    ] {
        let queries = [*query, "SELECT name FROM reg"];
        assert!(rt;
            is_refused(&rt, rt.alloc(), TWO, &BOTH, queries, (3, *line)),
            "{query}"
        );
    }
}

// The students, and two queries that are read, but not both of them typed.
const NAMES_AND_TYPES: [(&str, &str); 10] = [
    (
        "SELECT name FROM student, reg",
        "query 1: ambiguous column: name",
    ),
    ("SELECT foo FROM reg", "query 1: unknown column: foo"),
    ("SELECT name FROM regs", "query 1: unknown table: regs"),
    ("SELECT x.name FROM reg", "query 1: unknown table: x"),
    ("SELECT * FROM student s, reg s", "query 1: alias twice: s"),
    (
        "SELECT name FROM reg WHERE name > 5",
        "query 1: types do not match",
    ),
    (
        "SELECT name FROM reg WHERE name IN (SELECT name, course FROM reg)",
        "query 1: numbers of columns differ",
    ),
    (
        "SELECT course * course * 2 FROM reg",
        "query 1: arithmetic past 128 bits",
    ),
    (
        "SELECT name, course FROM reg",
        "queries: numbers of columns differ",
    ),
    ("SELECT course FROM reg", "queries: types do not match"),
];

#[test]
fn names_and_types(rt: HostRuntime) {
    for (query, line) in &NAMES_AND_TYPES {
        let queries = [*query, "SELECT name FROM reg"];
        assert!(rt;
            is_refused(
                &rt,
                rt.alloc(),
                SCHOOL,
                &[STUDENT, REG],
                queries,
                (3, *line)
            ),
            "{query}"
        );
    }
}

// Each over a schema of its own.
#[test]
fn other_inputs(rt: HostRuntime) {
    let table: &[(&str, &[(&str, &str)], [&str; 2], &str)] = &[
        (
            "",
            &[],
            ["SELECT a FROM t", "SELECT name FROM reg"],
            "query 1: unknown table: t",
        ),
        (
            SCHOOL,
            &[STUDENT, REG],
            ["SELECT name FROM reg", "SELECT name, course FROM reg"],
            "queries: numbers of columns differ",
        ),
        (
            "CREATE TABLE w (a INTEGER);",
            &[("d/w.csv", "a\n-9223372036854775808\n")],
            ["SELECT a*a*2 FROM w", "SELECT a*a FROM w"],
            "query 1: arithmetic past 128 bits",
        ),
        (
            ABC,
            &ONES,
            [
                "SELECT x FROM a EXCEPT SELECT x FROM b UNION ALL SELECT x FROM c",
                "(SELECT x FROM a EXCEPT SELECT x FROM b) UNION SELECT x FROM c",
            ],
            "query 1: not supported: all",
        ),
    ];
    for (schema, tables, queries, line) in table {
        assert!(rt;
            is_refused(&rt, rt.alloc(), schema, tables, *queries, (3, *line)),
            "{line}"
        );
    }
}
