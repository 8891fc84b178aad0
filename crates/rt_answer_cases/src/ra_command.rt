//! What the command says, over files and sinks in memory.

use rt_io::{MemFiles, MemSink};
use rt_ra_run::{RA_USAGE, RaOutcome, ra_run};
use rt_value::{List, NoMemory, Txt};
use std::alloc::Global;
use std::process::Abort;

mod failing;
mod refused;
mod worked;

const SCHOOL: &str = "CREATE TABLE student (name TEXT PRIMARY KEY, major TEXT);\n\
    CREATE TABLE reg (name TEXT REFERENCES student, course INTEGER, dept TEXT, grade INTEGER, PRIMARY KEY (name, course));";

const STUDENT: (&str, &str) = ("d/student.csv", "name,major\nMary,CS\nJohn,ECON\n");

const REG: (&str, &str) = (
    "d/reg.csv",
    "name,course,dept,grade\nMary,216,CS,100\nMary,230,CS,75\nJohn,316,CS,90\n",
);

// The command over the files of a schema `s`, a folder `d` and two texts `p` and `q`.
const FIVE: [&str; 5] = ["ra", "s", "d", "p", "q"];

const MARY: &str =
    "witness: 1\nstudent 1: 'Mary', 'CS'\nonly query 1: 0\nonly query 2: 1\n  'Mary', 'CS'\nboth: 0\n";

fn words(rt: &impl Abort, alloc: Global, words: &[&str]) -> List<Txt> {
    let mut list = List::new(alloc);
    for word in words {
        let word = Txt::of(alloc, word).expect(rt, "memory");
        list.push(word).expect(rt, "memory");
    }
    list
}

fn hold_all(
    files: &mut MemFiles,
    schema: &str,
    tables: &[(&str, &str)],
    left: &str,
    right: &str,
) -> Result<(), NoMemory> {
    files.hold("s", schema.as_bytes())?;
    for (name, rows) in tables {
        files.hold(name, rows.as_bytes())?;
    }
    files.hold("p", left.as_bytes())?;
    files.hold("q", right.as_bytes())
}

// The files of a schema, of tables by the names of their files, and of two texts.
fn files(
    rt: &impl Abort,
    alloc: Global,
    schema: &str,
    tables: &[(&str, &str)],
    left: &str,
    right: &str,
) -> MemFiles {
    let mut files = MemFiles::new(alloc);
    hold_all(&mut files, schema, tables, left, right).expect(rt, "memory");
    files
}

fn school(rt: &impl Abort, alloc: Global, left: &str, right: &str) -> MemFiles {
    files(rt, alloc, SCHOOL, &[STUDENT, REG], left, right)
}

// The status of an outcome, which is dropped here.
fn status_of(outcome: RaOutcome) -> u8 {
    let status = outcome.status();
    drop(outcome);
    status
}

// Whether the command ends with this status and writes just these texts, over these files, which
// are dropped here.
fn ends(
    rt: &impl Abort,
    alloc: Global,
    mut files: MemFiles,
    command: &[&str],
    status: u8,
    out: &str,
    err: &str,
) -> bool {
    let command = words(rt, alloc, command);
    let found = words_end(alloc, &mut files, command.as_slice(), status, out, err);
    drop(command);
    drop(files);
    found
}

fn words_end(
    alloc: Global,
    files: &mut MemFiles,
    words: &[Txt],
    status: u8,
    out: &str,
    err: &str,
) -> bool {
    let (mut to_out, mut to_err) = (MemSink::new(alloc), MemSink::new(alloc));
    let outcome = ra_run(alloc, words, files, &mut to_out, &mut to_err);
    let ended = status_of(outcome);
    ended == status && to_out.bytes() == out.as_bytes() && to_err.bytes() == err.as_bytes()
}

const PAST_WORK: &str = "ratest: limit: work 11 is above 10\n";

const WORDS: [(&[&str], u8, &str, &str); 14] = [
    (&[], 2, "", RA_USAGE),
    (&["ra"], 2, "", RA_USAGE),
    (&["s", "d", "p", "q"], 2, "", RA_USAGE),
    (&["Ra", "s", "d", "p", "q"], 2, "", RA_USAGE),
    (&["ra", "s", "d", "p"], 2, "", RA_USAGE),
    (&["ra", "s", "d", "p", "q", "q"], 2, "", RA_USAGE),
    (&["ra", "made", "3"], 2, "", RA_USAGE),
    (&["ra", "--", "made", "d", "p", "q"], 2, "", RA_USAGE),
    (
        &["ra", "s", "d", "p", "q", "--conflicts", "0"],
        2,
        "",
        RA_USAGE,
    ),
    (&FIVE, 0, "agree\n", ""),
    (&["ra", "--", "s", "d", "p", "q"], 0, "agree\n", ""),
    (
        &["ra", "--conflicts=64", "s", "d", "p", "q"],
        0,
        "agree\n",
        "",
    ),
    (
        &["ra", "s", "d", "p", "q", "--work", "11"],
        0,
        "agree\n",
        "",
    ),
    (
        &["ra", "s", "d", "p", "q", "--work", "10"],
        5,
        "",
        PAST_WORK,
    ),
];

#[test]
fn words_and_options(rt: HostRuntime) {
    for (command, status, out, err) in &WORDS {
        let files = school(&rt, rt.alloc(), "student", "student;");
        assert!(rt;
            ends(&rt, rt.alloc(), files, command, *status, out, err),
            "{out}{err}"
        );
    }
}
