//! Files in memory for the command of certificates, and calls of it.

use rt_cert::{CertOutcome, cert_run};
use rt_io::{MemFiles, MemSink};
use rt_value::{Bytes, List, Txt};
use std::alloc::Global;
use std::process::Abort;

const SCHEMA: &str = "CREATE TABLE t (a INTEGER, b INTEGER);";

const SCHOOL: &str = "CREATE TABLE student (name TEXT PRIMARY KEY, major TEXT);\n\
    CREATE TABLE reg (name TEXT REFERENCES student, course INTEGER, dept TEXT, grade INTEGER, PRIMARY KEY (name, course));";

const FILES: [(&str, &str); 18] = [
    ("s", SCHEMA),
    ("d/t.csv", "a,b\n1,10\n2,20\n3,30\n"),
    ("above1.sql", "SELECT * FROM t WHERE a > 1"),
    ("above2.sql", "SELECT * FROM t WHERE a > 2"),
    ("foo.sql", "SELECT foo FROM t"),
    (
        "sets",
        "CREATE TABLE a (x INTEGER); CREATE TABLE b (x INTEGER); CREATE TABLE c (x INTEGER);",
    ),
    ("d/a.csv", "x\n1\n"),
    ("d/b.csv", "x\n1\n"),
    ("d/c.csv", "x\n1\n"),
    (
        "once.sql",
        "SELECT x FROM a INTERSECT (SELECT x FROM b UNION SELECT x FROM c)",
    ),
    (
        "twice.sql",
        "SELECT x FROM a INTERSECT SELECT x FROM b UNION SELECT x FROM a INTERSECT SELECT x FROM c",
    ),
    ("school", SCHOOL),
    ("d/student.csv", "name,major\nMary,CS\nJohn,ECON\n"),
    (
        "d/reg.csv",
        "name,course,dept,grade\nMary,216,CS,100\nMary,230,CS,75\nJohn,316,CS,90\n",
    ),
    (
        "left.sql",
        "SELECT s.name FROM student s JOIN reg r ON s.name = r.name",
    ),
    (
        "right.sql",
        "SELECT s.name FROM reg r JOIN student s ON r.name = s.name",
    ),
    ("cs.sql", "SELECT r.name FROM reg r WHERE r.dept = 'CS'"),
    (
        "best.sql",
        "SELECT r.name FROM reg r WHERE r.dept = 'CS' AND r.grade > 80",
    ),
];

/// Arguments after `prove` of an input whose smallest counterexample is its second row.
pub(crate) const SECOND: [&str; 4] = ["s", "d", "above1.sql", "above2.sql"];

/// Those of an input with the same answers always.
pub(crate) const SAME: [&str; 4] = ["school", "d", "left.sql", "right.sql"];

/// Those of an input whose smallest counterexample has two rows, one of which refers to the other.
pub(crate) const BOTH: [&str; 4] = ["school", "d", "cs.sql", "best.sql"];

/// Schemas, their tables and queries.
pub(crate) fn files(rt: &impl Abort, alloc: Global) -> MemFiles {
    let mut files = MemFiles::new(alloc);
    for (name, text) in &FILES {
        files.hold(name, text.as_bytes()).expect(rt, "memory");
    }
    files
}

/// The same with this certificate.
pub(crate) fn with_cert(rt: &impl Abort, alloc: Global, text: &[u8]) -> MemFiles {
    let mut files = files(rt, alloc);
    files.hold("cert", text).expect(rt, "memory");
    files
}

/// The status of a call, and what it wrote to its two sinks.
#[derive(Drop)]
pub(crate) struct Ended {
    pub(crate) status: u8,
    pub(crate) out: MemSink,
    pub(crate) err: MemSink,
}

impl Ended {
    fn is(&self, status: u8, out: &str, err: &str) -> bool {
        self.status == status
            && self.out.bytes() == out.as_bytes()
            && self.err.bytes() == err.as_bytes()
    }
}

/// The arguments as the program has them: `head`, and then `args`.
pub(crate) fn list_of(rt: &impl Abort, alloc: Global, head: &[&str], args: &[&str]) -> List<Txt> {
    let mut list = List::new(alloc);
    for word in head {
        list.push(Txt::of(alloc, word).expect(rt, "memory"))
            .expect(rt, "memory");
    }
    for word in args {
        list.push(Txt::of(alloc, word).expect(rt, "memory"))
            .expect(rt, "memory");
    }
    list
}

/// The status of an outcome, which is dropped here.
pub(crate) fn status_of(outcome: CertOutcome) -> u8 {
    let status = outcome.status();
    drop(outcome);
    status
}

/// The call on these arguments, `head` and then `args`, over these files, which are dropped here.
pub(crate) fn run_on(
    rt: &impl Abort,
    alloc: Global,
    mut files: MemFiles,
    head: &[&str],
    args: &[&str],
) -> Ended {
    let words = list_of(rt, alloc, head, args);
    let (mut out, mut err) = (MemSink::new(alloc), MemSink::new(alloc));
    let outcome = cert_run(alloc, words.as_slice(), &mut files, &mut out, &mut err);
    drop(words);
    drop(files);
    let status = status_of(outcome);
    Ended { status, out, err }
}

/// Whether that call ends so.
pub(crate) fn ends(
    rt: &impl Abort,
    alloc: Global,
    files: MemFiles,
    head: &[&str],
    args: &[&str],
    ended: (u8, &str, &str),
) -> bool {
    let (status, out, err) = ended;
    let told = run_on(rt, alloc, files, head, args);
    let found = told.is(status, out, err);
    drop(told);
    found
}

/// The certificate that is written of an input.
pub(crate) fn written(rt: &impl Abort, alloc: Global, args: &[&str]) -> Bytes {
    let files = files(rt, alloc);
    let told = run_on(rt, alloc, files, &["prove"], args);
    let text = List::from_slice(alloc, told.out.bytes()).expect(rt, "memory");
    drop(told);
    text
}

/// Whether the check of this text over an input ends so.
pub(crate) fn check_ends(
    rt: &impl Abort,
    alloc: Global,
    text: &[u8],
    args: &[&str],
    ended: (u8, &str, &str),
) -> bool {
    let files = with_cert(rt, alloc, text);
    ends(rt, alloc, files, &["check", "cert"], args, ended)
}
