//! The grades of lists of candidates: what is printed, which lists are refused, and limits.

use crate::held::{ends, files};
use rt_io::MemFiles;
use rt_tools::USAGE;
use std::alloc::Global;
use std::process::Abort;

const WORDS: [&str; 5] = ["grade", "s", "d", "a.sql", "list"];

const THREE: &str =
    "b.sql: witness 2\na.sql: agree\nc.sql: refused: unknown column: foo\ngraded: 3\n";

// The files with this list.
fn with_list(rt: &impl Abort, alloc: Global, list: &[u8]) -> MemFiles {
    let mut files = files(rt, alloc);
    files.hold("list", list).expect(rt, "memory");
    files
}

#[test]
fn lists_of_candidates(rt: HostRuntime) {
    let alloc = rt.alloc();
    let table: &[(&[u8], u8, &str, &str)] = &[
        (b"b.sql\na.sql\nc.sql\n", 0, THREE, ""),
        (b"", 0, "graded: 0\n", ""),
        (b"\xEF\xBB\xBFb.sql\r\n\r\n\na.sql\r\nc.sql", 0, THREE, ""),
        (b"a.sql\r", 0, "a.sql: agree\ngraded: 1\n", ""),
        (b"a.sql\nno.sql\n", 6, "", "ratest: cannot read no.sql\n"),
        (b"a.sql\n\xFF", 3, "", "ratest: list: not UTF-8 at byte 6\n"),
    ];
    for (list, status, out, err) in table {
        let files = with_list(&rt, alloc, list);
        assert!(rt;
            ends(&rt, alloc, files, &WORDS, *status, out, err),
            "{out}{err}"
        );
    }
}

const PAST_WORK: &str =
    "b.sql: work 54\na.sql: work 45\nc.sql: refused: unknown column: foo\ngraded: 3\n";

const AT_WORK: &str =
    "b.sql: work 54\na.sql: agree\nc.sql: refused: unknown column: foo\ngraded: 3\n";

const OTHER_WORDS: [(&[&str], u8, &str, &str); 8] = [
    (&["grade"], 2, "", USAGE),
    (&["grade", "s", "d", "a.sql"], 2, "", USAGE),
    (&["grade", "made", "3"], 2, "", USAGE),
    (&["grade", "--", "made", "d", "a.sql", "list"], 2, "", USAGE),
    (
        &["grade", "s", "d", "a.sql", "no"],
        6,
        "",
        "ratest: cannot read no\n",
    ),
    (
        &["grade", "s", "d", "no", "list"],
        6,
        "",
        "ratest: cannot read query 1\n",
    ),
    (
        &["grade", "--work=1", "s", "d", "a.sql", "list"],
        0,
        PAST_WORK,
        "",
    ),
    (
        &["grade", "--work=45", "s", "d", "a.sql", "list"],
        0,
        AT_WORK,
        "",
    ),
];

#[test]
fn words_of_a_list(rt: HostRuntime) {
    let alloc = rt.alloc();
    for (words, status, out, err) in &OTHER_WORDS {
        let files = with_list(&rt, alloc, b"b.sql\na.sql\nc.sql\n");
        assert!(rt;
            ends(&rt, alloc, files, words, *status, out, err),
            "{out}{err}"
        );
    }
}

// `b.sql` in another spelling.
const AGAIN: &str =
    "-- By Jo.\nselect X.NAME\nfrom REG as X\n  where ((x.dept = 'CS')) and (x.grade > 80)";

// The same but for one number, than which each grade is larger.
const EACH: &str = "SELECT r.name FROM reg r WHERE r.dept = 'CS' AND r.grade > 70";

// Two that differ in one sign: the first is as `EACH`, the second lacks two of the three rows.
const PLUS: &str = "SELECT r.name FROM reg r WHERE r.dept = 'CS' AND r.grade + 10 > 80";

const MINUS: &str = "SELECT r.name FROM reg r WHERE r.dept = 'CS' AND r.grade - 10 > 80";

// The files with this list and these candidates.
fn with_spellings(rt: &impl Abort, alloc: Global, list: &[u8]) -> MemFiles {
    let mut files = with_list(rt, alloc, list);
    for (name, text) in &[
        ("again.sql", AGAIN),
        ("each.sql", EACH),
        ("plus.sql", PLUS),
        ("minus.sql", MINUS),
    ] {
        files.hold(name, text.as_bytes()).expect(rt, "memory");
    }
    files
}

#[test]
fn spellings_of_a_query(rt: HostRuntime) {
    let alloc = rt.alloc();
    let list = b"b.sql\neach.sql\nagain.sql\neach.sql\nplus.sql\nminus.sql\n";
    let files = with_spellings(&rt, alloc, list);
    let out =
        "b.sql: witness 2\neach.sql: agree\nagain.sql: witness 2\neach.sql: agree\nplus.sql: agree\nminus.sql: witness 2\ngraded: 6\n";
    assert!(rt; ends(&rt, alloc, files, &WORDS, 0, out, ""));
}

// So many lines of one byte.
fn short_lines(rt: &impl Abort, alloc: Global, lines: usize) -> String {
    let mut text = String::new(alloc);
    for _ in 0..lines {
        text.push_str("c\n").expect(rt, "memory");
    }
    text
}

// A list of so many such lines.
fn with_lines(rt: &impl Abort, alloc: Global, lines: usize) -> MemFiles {
    let list = short_lines(rt, alloc, lines);
    let files = with_list(rt, alloc, list.as_str().as_bytes());
    drop(list);
    files
}

#[test]
fn long_lists(rt: HostRuntime) {
    let alloc = rt.alloc();
    let table: &[(usize, u8, &str)] = &[
        (257, 5, "ratest: limit: more than 256 paths\n"),
        (256, 6, "ratest: cannot read c\n"),
        (
            2_097_153,
            5,
            "ratest: limit: list is longer than 4194304 bytes\n",
        ),
    ];
    for (lines, status, err) in table {
        let files = with_lines(&rt, alloc, *lines);
        assert!(rt; ends(&rt, alloc, files, &WORDS, *status, "", err), "{err}");
    }
}

// A candidate of more than four MiB is graded so, and the next one as ever.
#[test]
fn a_long_candidate(rt: HostRuntime) {
    let alloc = rt.alloc();
    let text = short_lines(&rt, alloc, 2_097_153);
    let mut files = with_list(&rt, alloc, b"long.sql\nb.sql\n");
    files
        .hold("long.sql", text.as_str().as_bytes())
        .expect(&rt, "memory");
    drop(text);
    let out = "long.sql: too long\nb.sql: witness 2\ngraded: 2\n";
    assert!(rt; ends(&rt, alloc, files, &WORDS, 0, out, ""));
}
