//! Files and sinks that fail.

use super::{FIVE, MARY, ends, school, words};
use rt_input::Outcome;
use rt_io::MemSink;
use rt_ra_run::{RaOutcome, ra_run};
use std::alloc::Global;
use std::process::Abort;

// The names of the files, and what a refusal calls each.
const PARTS: [(&str, &str); 5] = [
    ("s", "schema"),
    ("d/student.csv", "table student"),
    ("d/reg.csv", "table reg"),
    ("p", "query 1"),
    ("q", "query 2"),
];

// Whether the part is named where the first read of its file fails.
fn is_named(rt: &impl Abort, alloc: Global, name: &str, part: &str) -> bool {
    let mut files = school(rt, alloc, "semi(student, reg)", "student");
    files.fail_read(name, 1).expect(rt, "memory");
    let line = format!(in alloc; "ratest: cannot read {part}\n").expect(rt, "memory");
    let found = ends(rt, alloc, files, &FIVE, 6, "", line.as_str());
    drop(line);
    found
}

#[test]
fn files_that_fail(rt: HostRuntime) {
    for (name, part) in &PARTS {
        assert!(rt; is_named(&rt, rt.alloc(), name, part), "{part}");
    }
}

// Whether a sink that takes ten bytes holds just these of the witness.
fn is_cut(rt: &impl Abort, alloc: Global) -> bool {
    let mut files = school(rt, alloc, "semi(student, reg)", "student");
    let command = words(rt, alloc, &FIVE);
    let (mut out, mut err) = (MemSink::new(alloc), MemSink::new(alloc));
    out.room(10);
    let outcome = ra_run(alloc, command.as_slice(), &mut files, &mut out, &mut err);
    drop(command);
    drop(files);
    let is_fault = matches!(&outcome, RaOutcome::Verdict(Outcome::WriteFault));
    drop(outcome);
    is_fault && out.bytes() == MARY.as_bytes().split_at(10).0 && err.bytes().is_empty()
}

#[test]
fn full_sinks(rt: HostRuntime) {
    assert!(rt; is_cut(&rt, rt.alloc()));
}
