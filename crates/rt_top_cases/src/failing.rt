//! Calls that fail and texts that are cut, over the files of the first worked row. The answer is
//! the right one, or says what failed, and no byte already written is lost.

use rt_cases::{
    FOUR, MARY, ONE, REG, SCHOOL, SOME, STUDENT, ends, files, is_write_fault, status_of, words,
};
use rt_io::{MemFiles, MemSink};
use rt_top::ratest;
use std::alloc::Global;
use std::process::Abort;

// The names of the files, and what a refusal calls each.
const PARTS: [(&str, &str); 5] = [
    ("s", "schema"),
    ("d/student.csv", "table student"),
    ("d/reg.csv", "table reg"),
    ("p", "query 1"),
    ("q", "query 2"),
];

fn school(rt: &impl Abort, alloc: Global, query1: &str) -> MemFiles {
    files(alloc, SCHOOL, &[STUDENT, REG], query1, SOME).expect(rt, "memory")
}

// Whether the row is answered where a byte at a time is read and written.
fn is_answered_bytewise(rt: &impl Abort, alloc: Global) -> bool {
    let mut files = school(rt, alloc, ONE);
    files.piece(1);
    let command = words(alloc, &FOUR).expect(rt, "memory");
    let (mut out, mut err) = (MemSink::new(alloc), MemSink::new(alloc));
    out.piece(1);
    let outcome = ratest(alloc, command.as_slice(), &mut files, &mut out, &mut err);
    drop(command);
    drop(files);
    let status = status_of(outcome);
    status == 1 && out.bytes() == MARY.as_bytes() && err.bytes().is_empty()
}

// Whether the status is this where a sink takes so many bytes, and just the first ones of the
// text are in it.
fn ends_with_room(rt: &impl Abort, alloc: Global, room: usize, wanted: u8) -> bool {
    let mut files = school(rt, alloc, ONE);
    let command = words(alloc, &FOUR).expect(rt, "memory");
    let (mut out, mut err) = (MemSink::new(alloc), MemSink::new(alloc));
    out.room(room);
    let outcome = ratest(alloc, command.as_slice(), &mut files, &mut out, &mut err);
    drop(command);
    drop(files);
    let status = status_of(outcome);
    let held = out.bytes();
    status == wanted
        && held.len() == room
        && MARY.as_bytes().starts_with(held)
        && err.bytes().is_empty()
}

const REFUSAL: &str = "ratest: query 1: unknown table: y\n";

// The same of a refusal.
fn is_refused_with_room(rt: &impl Abort, alloc: Global, room: usize, wanted: u8) -> bool {
    let mut files = school(rt, alloc, "SELECT x FROM y");
    let command = words(alloc, &FOUR).expect(rt, "memory");
    let (mut out, mut err) = (MemSink::new(alloc), MemSink::new(alloc));
    err.room(room);
    let outcome = ratest(alloc, command.as_slice(), &mut files, &mut out, &mut err);
    drop(command);
    drop(files);
    let status = status_of(outcome);
    let held = err.bytes();
    status == wanted
        && held.len() == room
        && REFUSAL.as_bytes().starts_with(held)
        && out.bytes().is_empty()
}

#[test]
fn pieces_and_full_sinks(rt: HostRuntime) {
    assert!(rt; is_answered_bytewise(&rt, rt.alloc()));
    for room in 0..143usize {
        assert!(rt; ends_with_room(&rt, rt.alloc(), room, 6), "{room} bytes");
    }
    assert!(rt; ends_with_room(&rt, rt.alloc(), 143, 1));
    for room in 0..34usize {
        assert!(rt;
            is_refused_with_room(&rt, rt.alloc(), room, 6),
            "{room} bytes"
        );
    }
    assert!(rt; is_refused_with_room(&rt, rt.alloc(), 34, 3));
}

// Whether the row ends so over these files, which are dropped here.
fn all_end(
    rt: &impl Abort,
    alloc: Global,
    mut files: MemFiles,
    status: u8,
    out: &str,
    err: &str,
) -> bool {
    let found = ends(alloc, &mut files, &FOUR, status, out, err).expect(rt, "memory");
    drop(files);
    found
}

// Whether the part is named where a read of so many bytes of its file fails or, at the read 0,
// where it can't be begun.
fn is_named(
    rt: &impl Abort,
    alloc: Global,
    name: &str,
    part: &str,
    piece: usize,
    read: u64,
) -> bool {
    let mut files = school(rt, alloc, ONE);
    files.piece(piece.max(1));
    if read == 0 {
        files.fail_begin(name).expect(rt, "memory");
    } else {
        files.fail_read(name, read).expect(rt, "memory");
    }
    let line = format!(in alloc; "ratest: cannot read {part}\n").expect(rt, "memory");
    let found = all_end(rt, alloc, files, 6, "", line.as_str());
    drop(line);
    found
}

// Whether a table is named whose file fails at its first read.
fn is_read_fault(rt: &impl Abort, alloc: Global) -> bool {
    let mut files = school(rt, alloc, ONE);
    files.fail_read("d/student.csv", 1).expect(rt, "memory");
    all_end(
        rt,
        alloc,
        files,
        6,
        "",
        "ratest: cannot read table student\n",
    )
}

// Whether the text is cut where its sink takes ten bytes.
fn is_cut(rt: &impl Abort, alloc: Global) -> bool {
    let mut files = school(rt, alloc, ONE);
    let command = words(alloc, &FOUR).expect(rt, "memory");
    let found = is_write_fault(alloc, command.as_slice(), &mut files, b"witness: 3");
    drop(command);
    drop(files);
    found
}

#[test]
fn a_failing_table_and_a_full_sink(rt: HostRuntime) {
    assert!(rt; is_read_fault(&rt, rt.alloc()));
    assert!(rt; is_cut(&rt, rt.alloc()));
}

#[test]
fn files_that_fail(rt: HostRuntime) {
    for (name, part) in &PARTS {
        for read in 0..4u64 {
            assert!(rt;
                is_named(&rt, rt.alloc(), name, part, 7, read),
                "{part}, read {read}"
            );
        }
    }
}

// Whether each read fails, a byte at a time: one for each byte of the text, and one for its end.
fn all_are_named(rt: &impl Abort, alloc: Global, name: &str, part: &str, text: &str) -> bool {
    for read in 1..=text.len() as u64 + 1 {
        if !is_named(rt, alloc, name, part, 1, read) {
            return false;
        }
    }
    true
}

#[test]
fn bytes_that_fail(rt: HostRuntime) {
    let texts = &[SCHOOL, STUDENT.1, REG.1, ONE, SOME];
    for ((name, part), text) in PARTS.iter().zip(texts.iter()) {
        assert!(rt; all_are_named(&rt, rt.alloc(), name, part, text), "{part}");
    }
}

// Whether the row is refused so where a file holds nothing.
fn is_refused_empty(rt: &impl Abort, alloc: Global, name: &str, line: &str) -> bool {
    let mut files = school(rt, alloc, ONE);
    files.hold(name, b"".as_slice()).expect(rt, "memory");
    all_end(rt, alloc, files, 3, "", line)
}

// The status where query 1 is cut to so many bytes, if it has them.
fn status_of_cut(rt: &impl Abort, alloc: Global, len: usize) -> u8 {
    let query = ONE.as_bytes();
    let mut files = school(rt, alloc, "");
    if len <= query.len() {
        files.hold("p", query.split_at(len).0).expect(rt, "memory");
    }
    let command = words(alloc, &FOUR).expect(rt, "memory");
    let (mut out, mut err) = (MemSink::new(alloc), MemSink::new(alloc));
    let outcome = ratest(alloc, command.as_slice(), &mut files, &mut out, &mut err);
    drop(command);
    drop(files);
    status_of(outcome)
}

#[test]
fn texts_that_are_cut(rt: HostRuntime) {
    let table = &[
        ("s", "ratest: query 1: unknown table: student\n"),
        (
            "d/student.csv",
            "ratest: table student: header differs from the schema\n",
        ),
        (
            "d/reg.csv",
            "ratest: table reg: header differs from the schema\n",
        ),
    ];
    for (name, line) in table {
        assert!(rt; is_refused_empty(&rt, rt.alloc(), name, line), "{name}");
    }
    for len in 0..ONE.len() {
        let status = status_of_cut(&rt, rt.alloc(), len);
        assert!(rt; status <= 5, "{len} bytes");
        assert!(rt;
            status_of_cut(&rt, rt.alloc(), len) == status,
            "{len} bytes"
        );
    }
}

// A text between `depth` copies of `open` and as many of `close`.
fn between(
    rt: &impl Abort,
    alloc: Global,
    depth: usize,
    open: &str,
    text: &str,
    close: &str,
) -> String {
    let mut whole = String::new(alloc);
    for _ in 0..depth {
        whole.push_str(open).expect(rt, "memory");
    }
    whole.push_str(text).expect(rt, "memory");
    for _ in 0..depth {
        whole.push_str(close).expect(rt, "memory");
    }
    whole
}

// Whether these two queries end so.
fn queries_end(
    rt: &impl Abort,
    alloc: Global,
    queries: (&str, &str),
    status: u8,
    out: &str,
    err: &str,
) -> bool {
    let (query1, query2) = queries;
    let files = files(alloc, SCHOOL, &[STUDENT, REG], query1, query2).expect(rt, "memory");
    all_end(rt, alloc, files, status, out, err)
}

// Whether a query between so many parentheses agrees with itself, or is refused as too deep.
fn parentheses_end(
    rt: &impl Abort,
    alloc: Global,
    depth: usize,
    status: u8,
    out: &str,
    err: &str,
) -> bool {
    let plain = "SELECT name FROM reg";
    let query = between(rt, alloc, depth, "(", plain, ")");
    let found = queries_end(rt, alloc, (query.as_str(), plain), status, out, err);
    drop(query);
    found
}

// Whether a condition after so many negations agrees with the plain one, or is refused as too
// deep.
fn negations_end(
    rt: &impl Abort,
    alloc: Global,
    depth: usize,
    status: u8,
    out: &str,
    err: &str,
) -> bool {
    let nots = between(rt, alloc, depth, "NOT ", "grade > 80", "");
    let query = format!(in alloc; "SELECT name FROM reg WHERE {nots}").expect(rt, "memory");
    drop(nots);
    let plain = "SELECT name FROM reg WHERE grade > 80";
    let found = queries_end(rt, alloc, (query.as_str(), plain), status, out, err);
    drop(query);
    found
}

#[test]
fn nests_at_their_limits(rt: HostRuntime) {
    let deep = "ratest: query 1: nested too deep\n";
    assert!(rt; parentheses_end(&rt, rt.alloc(), 64, 0, "agree\n", ""));
    assert!(rt; parentheses_end(&rt, rt.alloc(), 65, 3, "", deep));
    assert!(rt; negations_end(&rt, rt.alloc(), 8, 0, "agree\n", ""));
    assert!(rt; negations_end(&rt, rt.alloc(), 9, 3, "", deep));
}
