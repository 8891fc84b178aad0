//! One named row: what is printed, and which rows are refused.

use crate::held::{ends, files};
use rt_tools::USAGE;

const MARY: &str = "witness: 2\nstudent 1: 'Mary', 'CS'\nreg 2: 'Mary', 230, 'CS', 75\n\
    only query 1: 1\n  'Mary'\nonly query 2: 0\nboth: 0\n";

// One named row of the first query, whose answers on all rows are Mary and John.
#[test]
fn one_named_row(rt: HostRuntime) {
    let alloc = rt.alloc();
    let table: &[(&str, u8, &str, &str)] = &[
        ("'Mary'", 1, MARY, ""),
        ("'John'", 0, "never\n", ""),
        ("'Jane'", 0, "never\n", ""),
        ("5", 3, "", "ratest: row: types do not match\n"),
        (
            "'Mary', 1",
            3,
            "",
            "ratest: row: numbers of columns differ\n",
        ),
        ("Mary", 3, "", "ratest: row: syntax fault\n"),
        (
            "'Mary",
            3,
            "",
            "ratest: row: text without end from byte 0\n",
        ),
    ];
    for (row, status, out, err) in table {
        let files = files(&rt, alloc);
        let words = ["row", *row, "s", "d", "a.sql", "b.sql"];
        assert!(rt; ends(&rt, alloc, files, &words, *status, out, err), "{row}");
    }
}

const MADE: &str = "witness: 3\nstudent 3: 3\nreg 5: 3, 3, 'CS'\nreg 6: 3, 6, 'CS'\n\
    only query 1: 1\n  3\nonly query 2: 0\nboth: 0\n";

const PAST_WORK: &str = "ratest: limit: work 738 is above 737\n";

const WORDS: [(&[&str], u8, &str, &str); 7] = [
    (&[], 2, "", USAGE),
    (&["row"], 2, "", USAGE),
    (&["row", "5"], 2, "", USAGE),
    (&["rows", "5", "made", "3"], 2, "", USAGE),
    (&["row", "5", "s", "d", "a.sql"], 2, "", USAGE),
    (&["row", "3", "made", "3"], 1, MADE, ""),
    (
        &["row", "3", "made", "3", "--work", "737"],
        5,
        "",
        PAST_WORK,
    ),
];

#[test]
fn words_of_a_row(rt: HostRuntime) {
    let alloc = rt.alloc();
    for (words, status, out, err) in &WORDS {
        let files = files(&rt, alloc);
        assert!(rt;
            ends(&rt, alloc, files, words, *status, out, err),
            "{out}{err}"
        );
    }
}

#[test]
fn files_of_a_row_that_fail(rt: HostRuntime) {
    let alloc = rt.alloc();
    let mut failing = files(&rt, alloc);
    failing.fail_begin("b.sql").expect(&rt, "memory");
    let words = ["row", "'Mary'", "s", "d", "a.sql", "b.sql"];
    let line = "ratest: cannot read query 2\n";
    assert!(rt; ends(&rt, alloc, failing, &words, 6, "", line));
}
