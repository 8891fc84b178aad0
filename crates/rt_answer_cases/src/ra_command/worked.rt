//! The worked rows of accepted texts.

use super::{FIVE, MARY, REG, SCHOOL, STUDENT, ends, files};
use std::alloc::Global;
use std::process::Abort;

const PAIRS: &str = "CREATE TABLE t (a INTEGER, b INTEGER); CREATE TABLE u (b INTEGER);";

// Whether the two texts end with this status and write just this text.
fn pair_ends(
    rt: &impl Abort,
    alloc: Global,
    schema: &str,
    tables: &[(&str, &str)],
    texts: (&str, &str),
    status: u8,
    out: &str,
) -> bool {
    let (left, right) = texts;
    let mut files = files(rt, alloc, schema, tables, left, right);
    files.piece(7);
    ends(rt, alloc, files, &FIVE, status, out, "")
}

#[test]
fn students(rt: HostRuntime) {
    let cases = &[
        ("semi(student, reg)", "student", 1, MARY),
        (
            "project(leftjoin(student, reg), (name))",
            "project(student, (name))",
            0,
            "agree\n",
        ),
    ];
    let tables = [STUDENT, REG];
    for (left, right, status, out) in cases {
        let texts = (*left, *right);
        assert!(rt;
            pair_ends(&rt, rt.alloc(), SCHOOL, &tables, texts, *status, out),
            "{left}"
        );
    }
}

#[test]
fn division(rt: HostRuntime) {
    let tables = [("d/t.csv", "a,b\n1,1\n"), ("d/u.csv", "b\n1\n2\n")];
    let witness = "witness: 2\nt 1: 1, 1\nu 2: 2\nonly query 1: 0\nonly query 2: 1\n  1\nboth: 0\n";
    let texts = ("divide(t, u)", "project(t, (a))");
    assert!(rt; pair_ends(&rt, rt.alloc(), PAIRS, &tables, texts, 1, witness));
}
