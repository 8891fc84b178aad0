//! Certificates that are written, and their check.

use crate::cert_held::{BOTH, SAME, SECOND, check_ends, files, run_on, written};
use std::alloc::Global;
use std::process::Abort;

const TWENTY: [&str; 2] = ["made", "20"];

// Whether a whole certificate that begins so is written of an input.
fn is_written(rt: &impl Abort, alloc: Global, args: &[&str], head: &str) -> bool {
    let files = files(rt, alloc);
    let told = run_on(rt, alloc, files, &["prove"], args);
    let text = told.out.bytes();
    let found = told.status == 0
        && told.err.bytes().is_empty()
        && text.starts_with(head.as_bytes())
        && text.ends_with(b"\nend\n");
    drop(told);
    found
}

#[test]
fn certificates_that_are_written(rt: HostRuntime) {
    let table: &[(&[&str], &str)] = &[
        (
            &SECOND,
            "ratest certificate 1\nverdict witness 1\nkeep 1\nadded ",
        ),
        (
            &BOTH,
            "ratest certificate 1\nverdict witness 2\nkeep 0 3\nadded ",
        ),
        (&SAME, "ratest certificate 1\nverdict agree\nadded "),
    ];
    for (args, head) in table {
        assert!(rt; is_written(&rt, rt.alloc(), args, head), "{head}");
    }
}

// Whether the certificate that is written of an input is accepted so.
fn is_accepted(rt: &impl Abort, alloc: Global, args: &[&str], out: &str) -> bool {
    let text = written(rt, alloc, args);
    let found = check_ends(rt, alloc, text.as_slice(), args, (0, out, ""));
    drop(text);
    found
}

#[test]
fn certificates_that_are_accepted(rt: HostRuntime) {
    let table: &[(&[&str], &str)] = &[
        (&SECOND, "valid: witness 1\n"),
        (&BOTH, "valid: witness 2\n"),
        (&SAME, "valid: agree\n"),
        (&TWENTY, "valid: witness 3\n"),
    ];
    for (args, out) in table {
        assert!(rt; is_accepted(&rt, rt.alloc(), args, out), "{out}");
    }
}

// Whether just this text is written of an input.
fn is_text_of(rt: &impl Abort, alloc: Global, args: &[&str], text: &[u8]) -> bool {
    let other = written(rt, alloc, args);
    let found = other.as_slice() == text;
    drop(other);
    found
}

// A certificate has the same text at each run, and of whatever options.
#[test]
fn the_same_text_again(rt: HostRuntime) {
    let first = written(&rt, rt.alloc(), &SECOND);
    let more: [&str; 6] = [
        "--work=9000",
        "--conflicts=8",
        "s",
        "d",
        "above1.sql",
        "above2.sql",
    ];
    assert!(rt; is_text_of(&rt, rt.alloc(), &SECOND, first.as_slice()));
    assert!(rt; is_text_of(&rt, rt.alloc(), &more, first.as_slice()));
}
