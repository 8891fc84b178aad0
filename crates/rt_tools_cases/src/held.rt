//! Files in memory for the tools, and calls of them.

use rt_io::{MemFiles, MemSink};
use rt_tools::{ToolOutcome, tool_run};
use rt_value::{List, Txt};
use std::alloc::Global;
use std::process::Abort;

const SCHEMA: &str = "CREATE TABLE student (name TEXT PRIMARY KEY, major TEXT);\n\
    CREATE TABLE reg (name TEXT REFERENCES student, course INTEGER, dept TEXT, grade INTEGER, PRIMARY KEY (name, course));";

const FILES: [(&str, &str); 6] = [
    ("s", SCHEMA),
    ("d/student.csv", "name,major\nMary,CS\nJohn,ECON\n"),
    (
        "d/reg.csv",
        "name,course,dept,grade\nMary,216,CS,100\nMary,230,CS,75\nJohn,316,CS,90\n",
    ),
    ("a.sql", "SELECT r.name FROM reg r WHERE r.dept = 'CS'"),
    (
        "b.sql",
        "SELECT r.name FROM reg r WHERE r.dept = 'CS' AND r.grade > 80",
    ),
    ("c.sql", "SELECT foo FROM reg"),
];

/// A schema, two tables, two queries and a text that is no query of the schema.
pub(crate) fn files(rt: &impl Abort, alloc: Global) -> MemFiles {
    let mut files = MemFiles::new(alloc);
    for (name, text) in &FILES {
        files.hold(name, text.as_bytes()).expect(rt, "memory");
    }
    files
}

/// The arguments as a list.
pub(crate) fn list_of(rt: &impl Abort, alloc: Global, words: &[&str]) -> List<Txt> {
    let mut list = List::new(alloc);
    for word in words {
        list.push(Txt::of(alloc, word).expect(rt, "memory"))
            .expect(rt, "memory");
    }
    list
}

// The status of an outcome, which is dropped here.
fn status_of(outcome: ToolOutcome) -> u8 {
    let status = outcome.status();
    drop(outcome);
    status
}

/// Whether the call ends with this status and writes just these texts, over these files, which
/// are dropped here.
pub(crate) fn ends(
    rt: &impl Abort,
    alloc: Global,
    mut files: MemFiles,
    words: &[&str],
    status: u8,
    out: &str,
    err: &str,
) -> bool {
    let words = list_of(rt, alloc, words);
    let (mut to_out, mut to_err) = (MemSink::new(alloc), MemSink::new(alloc));
    let outcome = tool_run(
        alloc,
        words.as_slice(),
        &mut files,
        &mut to_out,
        &mut to_err,
    );
    drop(words);
    drop(files);
    let ended = status_of(outcome);
    ended == status && to_out.bytes() == out.as_bytes() && to_err.bytes() == err.as_bytes()
}
