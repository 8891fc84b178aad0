//! Arguments, inputs and files that are refused.

use crate::cert_held::{SECOND, ends, files, list_of, status_of, with_cert};
use rt_cert::{CERT_USAGE, cert_run};
use rt_io::{MemFiles, MemSink};
use rt_value::List;
use std::alloc::Global;
use std::process::Abort;

const NONE: &[u8] = b"ratest certificate 1\nverdict agree\nadded 0\nend\n";

const PAST_WORK: &str = "ratest: limit: work 36 is above 35\n";

const REFUSED: [(&[&str], u8, &str, &str); 12] = [
    (&[], 2, "", CERT_USAGE),
    (&["prove"], 2, "", CERT_USAGE),
    (&["proves", "made", "3"], 2, "", CERT_USAGE),
    (&["prove", "made", "0"], 2, "", CERT_USAGE),
    (&["check"], 2, "", CERT_USAGE),
    (&["check", "cert"], 2, "", CERT_USAGE),
    (&["check", "made", "3"], 2, "", CERT_USAGE),
    (
        &["prove", "s", "d", "no", "above2.sql"],
        6,
        "",
        "ratest: cannot read query 1\n",
    ),
    (
        &["check", "no", "s", "d", "above1.sql", "foo.sql"],
        3,
        "",
        "ratest: query 2: unknown column: foo\n",
    ),
    (
        &["check", "no", "s", "d", "above1.sql", "above2.sql"],
        6,
        "",
        "ratest: cannot read certificate\n",
    ),
    (
        &["prove", "--work=35", "s", "d", "above1.sql", "above2.sql"],
        5,
        "",
        PAST_WORK,
    ),
    (
        &[
            "prove",
            "--conflicts=1",
            "sets",
            "d",
            "once.sql",
            "twice.sql",
        ],
        4,
        "undecided: 1 conflicts\n",
        "",
    ),
];

#[test]
fn words_and_inputs(rt: HostRuntime) {
    for (words, status, out, err) in &REFUSED {
        let files = with_cert(&rt, rt.alloc(), NONE);
        let ended = (*status, *out, *err);
        assert!(rt;
            ends(&rt, rt.alloc(), files, words, &[], ended),
            "{out}{err}"
        );
    }
}

// A certificate of 2^26 + 1 bytes, one more than it may have.
fn long_certificate(rt: &impl Abort, alloc: Global) -> MemFiles {
    let mut text = List::from_slice(alloc, b"\n").expect(rt, "memory");
    for _ in 0..26 {
        let half = List::from_slice(alloc, text.as_slice()).expect(rt, "memory");
        text.extend(half.as_slice()).expect(rt, "memory");
        drop(half);
    }
    text.push(b'\n').expect(rt, "memory");
    let files = with_cert(rt, alloc, text.as_slice());
    drop(text);
    files
}

#[test]
fn a_long_certificate(rt: HostRuntime) {
    let line = "ratest: limit: certificate is longer than 67108864 bytes\n";
    let long = long_certificate(&rt, rt.alloc());
    let ended = (5, "", line);
    assert!(rt; ends(&rt, rt.alloc(), long, &["check", "cert"], &SECOND, ended));
}

// Whether a certificate is named whose file fails at its first read.
fn is_read_fault(rt: &impl Abort, alloc: Global) -> bool {
    let mut files = with_cert(rt, alloc, NONE);
    files.fail_read("cert", 1).expect(rt, "memory");
    let ended = (6, "", "ratest: cannot read certificate\n");
    ends(rt, alloc, files, &["check", "cert"], &SECOND, ended)
}

// Whether the text is cut where its sink takes ten bytes.
fn is_cut(rt: &impl Abort, alloc: Global) -> bool {
    let words = list_of(rt, alloc, &["prove", "made", "3"], &[]);
    let mut files = files(rt, alloc);
    let (mut out, mut err) = (MemSink::new(alloc), MemSink::new(alloc));
    out.room(10);
    let outcome = cert_run(alloc, words.as_slice(), &mut files, &mut out, &mut err);
    drop(words);
    drop(files);
    let status = status_of(outcome);
    status == 6 && out.bytes() == b"ratest cer".as_slice() && err.bytes().is_empty()
}

#[test]
fn files_and_sinks_that_fail(rt: HostRuntime) {
    assert!(rt; is_read_fault(&rt, rt.alloc()));
    assert!(rt; is_cut(&rt, rt.alloc()));
}
