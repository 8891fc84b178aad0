//! What the command says, over files and sinks in memory.

use rt_cases::{ABC, ALL, FOUR, LARGE, SCHEMA, TABLE, ends, files, is_write_fault, words};
use rt_io::MemFiles;
use rt_top::USAGE;
use std::alloc::{AllocError, Global};
use std::fmt::Write;
use std::process::Abort;

mod after_least;
mod checks;
mod first;
mod spent;
mod worked;

// Whether these arguments end so over these files, which are dropped here.
fn files_end(
    rt: &impl Abort,
    alloc: Global,
    mut files: MemFiles,
    command: &[&str],
    status: u8,
    out: &str,
    err: &str,
) -> bool {
    let found = ends(alloc, &mut files, command, status, out, err).expect(rt, "memory");
    drop(files);
    found
}

// Whether these arguments end so, over two queries of one table.
fn command_ends(
    rt: &impl Abort,
    alloc: Global,
    command: &[&str],
    status: u8,
    out: &str,
    err: &str,
) -> bool {
    let same = "SELECT * FROM t WHERE a >= 2";
    let files = files(alloc, SCHEMA, &[TABLE], ALL, same).expect(rt, "memory");
    files_end(rt, alloc, files, command, status, out, err)
}

#[test]
fn words_that_are_no_command(rt: HostRuntime) {
    let lines: &[&[&str]] = &[
        &[],
        &["s", "d", "p", "q", "q"],
        &["made", "0"],
        &["made", "401"],
        &["made", "x"],
        &["made", "20", "21"],
        &["s", "d", "p", "q", "--conflicts", "0"],
        &["s", "d", "p", "q", "--work", "9", "--work", "9"],
    ];
    for line in lines {
        assert!(rt;
            command_ends(&rt, rt.alloc(), line, 2, "", USAGE),
            "{line:?}"
        );
    }
}

#[test]
fn words_and_options(rt: HostRuntime) {
    let table: &[(&[&str], u8, &str, &str)] = &[
        (
            &["s", "d", "p", "-"],
            6,
            "",
            "ratest: cannot read query 2\n",
        ),
        (&["--", "s", "d", "p", "q"], 0, "agree\n", ""),
        (&["made", "1"], 0, "made 1\nrows 5\nagree\n", ""),
        (&["made", "2"], 0, "made 2\nrows 10\nagree\n", ""),
        (
            &["made", "--conflicts=64", "3"],
            1,
            "made 3\nrows 15\nwitness: 3\n",
            "",
        ),
        (&["made", "3"], 1, "made 3\nrows 15\nwitness: 3\n", ""),
        (&["made", "20"], 1, "made 20\nrows 100\nwitness: 3\n", ""),
        (
            &["made", "20", "--conflicts", "262144"],
            1,
            "made 20\nrows 100\nwitness: 3\n",
            "",
        ),
        (&["made", "400"], 1, "made 400\nrows 2000\nwitness: 3\n", ""),
        (
            &["made", "20", "--work", "28039"],
            5,
            "",
            "ratest: limit: work 28040 is above 28039\n",
        ),
    ];
    for (command, status, out, err) in table {
        assert!(rt;
            command_ends(&rt, rt.alloc(), command, *status, out, err),
            "{command:?}"
        );
    }
}

// Whether a table is named whose file fails at its first read.
fn is_read_fault(rt: &impl Abort, alloc: Global) -> bool {
    let mut failing = files(alloc, SCHEMA, &[TABLE], ALL, LARGE).expect(rt, "memory");
    failing.fail_read("d/t.csv", 1).expect(rt, "memory");
    let line = "ratest: cannot read table t\n";
    files_end(rt, alloc, failing, &FOUR, 6, "", line)
}

// Whether a query is named whose file can't be begun.
fn is_begin_fault(rt: &impl Abort, alloc: Global) -> bool {
    let mut failing = files(alloc, SCHEMA, &[TABLE], ALL, LARGE).expect(rt, "memory");
    failing.fail_begin("p").expect(rt, "memory");
    let line = "ratest: cannot read query 1\n";
    files_end(rt, alloc, failing, &FOUR, 6, "", line)
}

fn is_cut(rt: &impl Abort, alloc: Global) -> bool {
    let mut files = files(alloc, SCHEMA, &[TABLE], ALL, LARGE).expect(rt, "memory");
    let command = words(alloc, &FOUR).expect(rt, "memory");
    let found = is_write_fault(alloc, command.as_slice(), &mut files, b"witness: 1");
    drop(command);
    drop(files);
    found
}

#[test]
fn faults_of_files_and_sinks(rt: HostRuntime) {
    assert!(rt; is_read_fault(&rt, rt.alloc()));
    assert!(rt; is_begin_fault(&rt, rt.alloc()));
    assert!(rt; is_cut(&rt, rt.alloc()));
}

// A table of one column with the rows from 1 to `last`.
fn numbers(rt: &impl Abort, alloc: Global, column: &str, last: u64) -> String {
    let mut rows = String::new(alloc);
    put_numbers(&mut rows, column, last).expect(rt, "memory");
    rows
}

fn put_numbers(rows: &mut String, column: &str, last: u64) -> Result<(), AllocError> {
    rows.push_str(column)?;
    rows.push_str("\n")?;
    for n in 1..=last {
        write!(rows, "{n}\n")?;
    }
    Ok(())
}

// Whether these arguments end so, over the rows from 1 to `last` and two spellings of one query.
fn thousands_end(
    rt: &impl Abort,
    alloc: Global,
    last: u64,
    command: &[&str],
    status: u8,
    out: &str,
    err: &str,
) -> bool {
    let schema = "CREATE TABLE x (a INTEGER);";
    let rows = numbers(rt, alloc, "a", last);
    let tables = [("d/x.csv", rows.as_str())];
    let (left, right) = (
        "SELECT a FROM x WHERE a > 0",
        "SELECT a FROM x WHERE a >= 1",
    );
    let files = files(alloc, schema, &tables, left, right).expect(rt, "memory");
    drop(rows);
    files_end(rt, alloc, files, command, status, out, err)
}

const PAST_WORK: &str = "ratest: limit: work 16000 is above 15999\n";

const PAST_ROWS: &str = "ratest: limit: more than 2000 rows\n";

const LARGE_TABLES: [(u64, &[&str], u8, &str, &str); 4] = [
    (2000, &FOUR, 0, "agree\n", ""),
    (
        2000,
        &["s", "d", "p", "q", "--conflicts", "1"],
        0,
        "agree\n",
        "",
    ),
    (
        2000,
        &["--work", "15999", "s", "d", "p", "q"],
        5,
        "",
        PAST_WORK,
    ),
    (2001, &FOUR, 5, "", PAST_ROWS),
];

#[test]
fn large_tables(rt: HostRuntime) {
    for (last, command, status, out, err) in &LARGE_TABLES {
        assert!(rt;
            thousands_end(&rt, rt.alloc(), *last, command, *status, out, err),
            "{last} {command:?}"
        );
    }
}

// Whether a query against itself passes the limit of work, and the line says so, over tables that
// have the rows from 1 to `last` each.
fn is_past_work(
    rt: &impl Abort,
    alloc: Global,
    schema: &str,
    names: &[&str],
    last: u64,
    query: &str,
    line: &str,
) -> bool {
    let rows = numbers(rt, alloc, "x", last);
    let mut files = files(alloc, schema, &[], query, query).expect(rt, "memory");
    for name in names {
        files.hold(name, rows.as_bytes()).expect(rt, "memory");
    }
    drop(rows);
    files_end(rt, alloc, files, &FOUR, 5, "", line)
}

const NUMBERS: &str = "CREATE TABLE t (x INTEGER);";

const SIX: &str = "ratest: limit: work 413689024 is above 16000000\n";

const THREE: &str = "ratest: limit: work 768642400 is above 16000000\n";

const LIMITS: [(&str, &[&str], u64, &str, &str); 3] = [
    (
        NUMBERS,
        &["d/t.csv"],
        16,
        "SELECT * FROM t a, t b, t c, t d, t e, t f",
        SIX,
    ),
    (
        NUMBERS,
        &["d/t.csv"],
        400,
        "SELECT * FROM t a, t b, t c",
        THREE,
    ),
    (
        ABC,
        &["d/a.csv", "d/b.csv", "d/c.csv"],
        400,
        "SELECT * FROM a, b, c",
        THREE,
    ),
];

#[test]
fn limit_of_work(rt: HostRuntime) {
    for (schema, names, last, query, line) in &LIMITS {
        assert!(rt;
            is_past_work(&rt, rt.alloc(), schema, names, *last, query, line),
            "{query}"
        );
    }
}

// A query of 4,194,305 bytes.
fn put_long(text: &mut String) -> Result<(), AllocError> {
    text.push_str(";")?;
    for _ in 0..65_536 {
        text.push_str("                                                                ")?;
    }
    Ok(())
}

#[test]
fn limit_of_bytes(rt: HostRuntime) {
    let mut text = String::new(rt.alloc());
    put_long(&mut text).expect(&rt, "memory");
    let long = files(rt.alloc(), SCHEMA, &[TABLE], text.as_str(), ALL).expect(&rt, "memory");
    drop(text);
    let limit = "ratest: limit: query 1 is longer than 4194304 bytes\n";
    assert!(rt; files_end(&rt, rt.alloc(), long, &FOUR, 5, "", limit));
}
