//! Texts of certificates: each form of a line is read and written back, and of each broken text
//! the first bad line is named.

use rt_recorder::{CertFault, cert_text, read_cert};
use std::alloc::Global;
use std::process::Abort;

fn is_written_back(rt: &impl Abort, alloc: Global, text: &str) -> bool {
    let cert = read_cert(alloc, text.as_bytes()).expect(rt, "a certificate");
    let again = cert_text(alloc, &cert).expect(rt, "memory");
    drop(cert);
    let found = again.as_slice() == text.as_bytes();
    drop(again);
    found
}

#[test]
fn each_form_of_a_line(rt: HostRuntime) {
    let table = &[
        "ratest certificate 1\nverdict agree\nadded 0\nend\n",
        "ratest certificate 1\nverdict witness 0\nkeep\nadded 0\nend\n",
        "ratest certificate 1\nverdict witness 1\nkeep 1\nadded 12\nd ;\nend\n",
        "ratest certificate 1\nverdict witness 2\nkeep 0 1\nadded 4611686018427387903\nd +0 -4611686018427387903 ; 5 5\nd -1 ;\nd ; 0\nend\n",
    ];
    for text in table {
        assert!(rt; is_written_back(&rt, rt.alloc(), text), "{text}");
    }
}

const BROKEN: [(&str, &str, usize); 36] = [
    // No text, a last line without its LF, and a text that ends too early.
    ("", "", 1usize),
    ("", "ratest certificate 1", 1),
    ("", "ratest certificate 1\n", 2),
    ("ratest certificate 1\n", "verdict agree", 2),
    ("ratest certificate 1\n", "verdict agree\nadded 0\n", 4),
    ("ratest certificate 1\n", "verdict agree\nadded 0\nend", 4),
    (
        "ratest certificate 1\n",
        "verdict witness 0\nkeep\nadded 0\nd ;\n",
        6,
    ),
    // After the end.
    (
        "ratest certificate 1\n",
        "verdict agree\nadded 0\nend\n\n",
        5,
    ),
    (
        "ratest certificate 1\n",
        "verdict agree\nadded 0\nend\nx",
        5,
    ),
    // Other heads and verdicts.
    ("", "ratest certificate 2\nverdict agree\nadded 0\nend\n", 1),
    ("", "\nratest certificate 1\n", 1),
    (
        "ratest certificate 1\n",
        "verdict agree \nadded 0\nend\n",
        2,
    ),
    (
        "ratest certificate 1\n",
        "verdict witness\nkeep\nadded 0\nend\n",
        2,
    ),
    (
        "ratest certificate 1\n",
        "verdict witness 00\nkeep\nadded 0\nend\n",
        2,
    ),
    ("ratest certificate 1\n", "keep\nadded 0\nend\n", 2),
    // Places.
    (
        "ratest certificate 1\nverdict witness 2\n",
        "keep 1\nadded 0\nend\n",
        3,
    ),
    (
        "ratest certificate 1\nverdict witness 2\n",
        "keep 2 1\nadded 0\nend\n",
        3,
    ),
    (
        "ratest certificate 1\nverdict witness 2\n",
        "keep 1 1\nadded 0\nend\n",
        3,
    ),
    (
        "ratest certificate 1\nverdict witness 2\n",
        "keep  1 2\nadded 0\nend\n",
        3,
    ),
    (
        "ratest certificate 1\nverdict witness 2\n",
        "keep 1 2 \nadded 0\nend\n",
        3,
    ),
    (
        "ratest certificate 1\nverdict witness 2\n",
        "keep 01 2\nadded 0\nend\n",
        3,
    ),
    (
        "ratest certificate 1\nverdict witness 2\n",
        "keep 1 4611686018427387904\nadded 0\nend\n",
        3,
    ),
    (
        "ratest certificate 1\nverdict witness 2\n",
        "added 0\nend\n",
        3,
    ),
    (
        "ratest certificate 1\nverdict witness 2\n",
        "keep 1 2\nend\n",
        4,
    ),
    (
        "ratest certificate 1\nverdict agree\n",
        "keep\nadded 0\nend\n",
        3,
    ),
    // The number of added lines, and steps.
    (
        "ratest certificate 1\nverdict agree\n",
        "added 4611686018427387904\nend\n",
        3,
    ),
    (
        "ratest certificate 1\nverdict agree\n",
        "added -1\nend\n",
        3,
    ),
    (
        "ratest certificate 1\nverdict agree\nadded 1\n",
        "d\nend\n",
        4,
    ),
    (
        "ratest certificate 1\nverdict agree\nadded 1\n",
        "d;\nend\n",
        4,
    ),
    (
        "ratest certificate 1\nverdict agree\nadded 1\n",
        "d ; \nend\n",
        4,
    ),
    (
        "ratest certificate 1\nverdict agree\nadded 1\n",
        "d 1 ;\nend\n",
        4,
    ),
    (
        "ratest certificate 1\nverdict agree\nadded 1\n",
        "d + ;\nend\n",
        4,
    ),
    (
        "ratest certificate 1\nverdict agree\nadded 1\n",
        "d +1 ; +1\nend\n",
        4,
    ),
    (
        "ratest certificate 1\nverdict agree\nadded 1\n",
        "d ;\nd ; 1 ;\nend\n",
        5,
    ),
    (
        "ratest certificate 1\nverdict agree\nadded 1\n",
        "d ;\nd +01 ;\nend\n",
        5,
    ),
    (
        "ratest certificate 1\nverdict agree\nadded 1\n",
        "d ; 1\r\nend\n",
        4,
    ),
];

#[test]
fn the_first_line_that_cannot_stand(rt: HostRuntime) {
    for (head, rest, line) in &BROKEN {
        let told = told_of(&rt, rt.alloc(), head, rest);
        assert!(rt; told == Some(CertFault::BadLine(*line)), "{head}{rest}");
    }
}

// The error of a text in two parts, if it has one.
fn told_of(rt: &impl Abort, alloc: Global, head: &str, rest: &str) -> Option<CertFault> {
    let text = format!(in alloc; "{head}{rest}").expect(rt, "memory");
    let read = read_cert(alloc, text.as_str().as_bytes());
    drop(text);
    match read {
        Ok(cert) => {
            drop(cert);
            None
        }
        Err(fault) => Some(fault),
    }
}
