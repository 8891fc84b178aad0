//! The check of certificates that were changed.

use crate::cert_held::{BOTH, SECOND, check_ends, run_on, with_cert, written};
use rt_value::{Bytes, List};
use std::alloc::Global;
use std::process::Abort;

// The text with this in the place of each line that begins so.
fn changed(rt: &impl Abort, alloc: Global, text: &[u8], head: &[u8], with: &[u8]) -> Bytes {
    let mut out = List::new(alloc);
    for line in text.split(|byte| *byte == b'\n') {
        if line.is_empty() {
            continue;
        }
        if line.starts_with(head) {
            out.extend(with).expect(rt, "memory");
        } else {
            out.extend(line).expect(rt, "memory");
            out.push(b'\n').expect(rt, "memory");
        }
    }
    out
}

// Whether the check of the text, changed so, ends so.
fn change_ends(
    rt: &impl Abort,
    alloc: Global,
    text: &[u8],
    change: (&[u8], &[u8]),
    ended: (u8, &str, &str),
) -> bool {
    let (head, with) = change;
    let other = changed(rt, alloc, text, head, with);
    let found = check_ends(rt, alloc, other.as_slice(), &SECOND, ended);
    drop(other);
    found
}

// Whether that check names a line.
fn line_is_named(
    rt: &impl Abort,
    alloc: Global,
    text: &[u8],
    change: (&[u8], &[u8]),
    status: u8,
    why: &str,
    at: usize,
) -> bool {
    let line = format!(in alloc; "ratest: certificate: {why} {at}\n").expect(rt, "memory");
    let found = change_ends(rt, alloc, text, change, (status, "", line.as_str()));
    drop(line);
    found
}

fn lines_in(text: &[u8]) -> usize {
    text.iter().filter(|byte| **byte == b'\n').count()
}

// Whether the text that keeps these rows is rejected for this, or else is valid.
fn claim_ends(rt: &impl Abort, alloc: Global, text: &[u8], keep: &str, why: &str) -> bool {
    let line = format!(in alloc; "ratest: certificate: rejected: {why}\n").expect(rt, "memory");
    let ended = if why.is_empty() {
        (0, "valid: witness 1\n", "")
    } else {
        (8, "", line.as_str())
    };
    let found = change_ends(rt, alloc, text, (b"keep", keep.as_bytes()), ended);
    drop(line);
    found
}

#[test]
fn changed_claims(rt: HostRuntime) {
    let table: &[(&str, &str)] = &[
        ("keep 2\n", "answers are the same"),
        ("keep 3\n", "place 3"),
        ("keep 4611686018427387903\n", "place 4611686018427387903"),
        ("keep 0\n", "answers are the same"),
        ("keep 1\n", ""),
    ];
    let text = written(&rt, rt.alloc(), &SECOND);
    for (keep, why) in table {
        assert!(rt;
            claim_ends(&rt, rt.alloc(), text.as_slice(), keep, why),
            "{keep}{why}"
        );
    }
}

// A row that refers to another one is not lawful alone.
#[test]
fn a_row_alone(rt: HostRuntime) {
    let text = b"ratest certificate 1\nverdict witness 1\nkeep 3\nadded 0\nend\n";
    let line = "ratest: certificate: rejected: not lawful\n";
    assert!(rt; check_ends(&rt, rt.alloc(), text, &BOTH, (8, "", line)));
}

#[test]
fn changed_steps(rt: HostRuntime) {
    let alloc = rt.alloc();
    let text = written(&rt, alloc, &SECOND);
    let none = changed(&rt, alloc, text.as_slice(), b"d ", b"");
    let line = "ratest: certificate: rejected: no refutation\n";
    assert!(rt; check_ends(&rt, alloc, none.as_slice(), &SECOND, (8, "", line)));
    let steps = lines_in(text.as_slice()).saturating_sub(lines_in(none.as_slice()));
    drop(none);
    let (why, at) = ("rejected: line", steps.saturating_add(1));
    // After the steps that refute, one whose hint is no line, and one that follows from nothing.
    for step in &["d ; 4611686018427387903\nend\n", "d +9 ;\nend\n"] {
        let change = (b"end".as_slice(), step.as_bytes());
        assert!(rt;
            line_is_named(&rt, alloc, text.as_slice(), change, 8, why, at),
            "{step}"
        );
    }
}

// The number of lines of the encoding is printed, if the certificate has another.
#[test]
fn another_number_of_lines(rt: HostRuntime) {
    let alloc = rt.alloc();
    let text = written(&rt, alloc, &SECOND);
    let other = changed(&rt, alloc, text.as_slice(), b"added", b"added 0\n");
    drop(text);
    let files = with_cert(&rt, alloc, other.as_slice());
    drop(other);
    let told = run_on(&rt, alloc, files, &["check", "cert"], &SECOND);
    assert!(rt; told.status == 8);
    assert!(rt; told.out.bytes().is_empty());
    assert!(rt;
        told.err
            .bytes()
            .starts_with(b"ratest: certificate: rejected: added ")
    );
}

#[test]
fn texts_that_are_no_certificate(rt: HostRuntime) {
    let alloc = rt.alloc();
    let text = written(&rt, alloc, &SECOND);
    let (why, at) = ("malformed at line", lines_in(text.as_slice()));
    assert!(rt; line_is_named(&rt, alloc, text.as_slice(), (b"end", b""), 3, why, at));
    drop(text);
    let table: &[(&[u8], &str)] = &[
        (b"", "ratest: certificate: malformed at line 1\n"),
        (
            b"ratest certificate 2\n",
            "ratest: certificate: malformed at line 1\n",
        ),
        (
            b"ratest certificate 1\nverdict none\n",
            "ratest: certificate: malformed at line 2\n",
        ),
        (
            b"\xEF\xBB\xBF\xEF\xBB\xBFratest certificate 1\n",
            "ratest: certificate: malformed at line 1\n",
        ),
    ];
    for (text, err) in table {
        assert!(rt;
            check_ends(&rt, alloc, text, &SECOND, (3, "", err)),
            "{err}"
        );
    }
}

// A byte order mark at the start is none of the text.
#[test]
fn a_mark_before_a_certificate(rt: HostRuntime) {
    let alloc = rt.alloc();
    let text = written(&rt, alloc, &SECOND);
    let mut marked = List::from_slice(alloc, b"\xEF\xBB\xBF").expect(&rt, "memory");
    marked.extend(text.as_slice()).expect(&rt, "memory");
    drop(text);
    let ended = (0, "valid: witness 1\n", "");
    assert!(rt; check_ends(&rt, alloc, marked.as_slice(), &SECOND, ended));
}
