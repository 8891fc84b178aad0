//! The refusals, one line each.

use super::{FIVE, ends, files, school};
use std::alloc::Global;
use std::process::Abort;

// Whether the text, with `student` as query 2, is refused as query 1 with its line.
fn is_refused(rt: &impl Abort, alloc: Global, text: &str, line: &str) -> bool {
    let files = school(rt, alloc, text, "student");
    let err = format!(in alloc; "ratest: query 1: {line}\n").expect(rt, "memory");
    let found = ends(rt, alloc, files, &FIVE, 3, "", err.as_str());
    drop(err);
    found
}

const NINE: &str = "leftjoin(student, leftjoin(student, leftjoin(student, leftjoin(student, \
    leftjoin(student, leftjoin(student, leftjoin(student, leftjoin(student, \
    leftjoin(student, student)))))))))";

const TEXTS: [(&str, &str); 12] = [
    (
        "select(student, name = 'abc",
        "text without end from byte 23",
    ),
    ("student / reg", "unexpected byte at 8"),
    (NINE, "nested too deep"),
    ("select(student)", "syntax fault near byte 14"),
    ("regs", "unknown table: regs"),
    ("project(student, (nme))", "unknown column: nme"),
    ("project(student, (name, name))", "column twice: name"),
    ("cross(student, reg)", "column twice: name"),
    ("divide(student, reg)", "unknown column: course"),
    ("select(student, name = 1)", "types do not match"),
    ("rename(student, (a))", "numbers of columns differ"),
    ("union(student, reg)", "numbers of columns differ"),
];

#[test]
fn texts(rt: HostRuntime) {
    for (text, line) in &TEXTS {
        assert!(rt; is_refused(&rt, rt.alloc(), text, line), "{text}");
    }
}

#[test]
fn other_parts(rt: HostRuntime) {
    let alloc = rt.alloc();
    let cases = &[
        ("student", "regs", "ratest: query 2: unknown table: regs\n"),
        ("regs", "nowhere", "ratest: query 1: unknown table: regs\n"),
        (
            "student",
            "reg",
            "ratest: queries: numbers of columns differ\n",
        ),
        (
            "project(reg, (course))",
            "project(reg, (dept))",
            "ratest: queries: types do not match\n",
        ),
    ];
    for (left, right, err) in cases {
        let files = school(&rt, alloc, left, right);
        assert!(rt; ends(&rt, alloc, files, &FIVE, 3, "", err), "{err}");
    }
    let twice = "CREATE TABLE t (a INTEGER, A TEXT);";
    let files = files(&rt, alloc, twice, &[], "t", "t");
    let line = "ratest: schema: name twice: a\n";
    assert!(rt; ends(&rt, alloc, files, &FIVE, 3, "", line));
}
