//! Of several smallest witnesses the first in the order of rows is printed.

use super::worked::all_end;
use super::{files_end, numbers};
use rt_cases::{ALL, LOOSE, REG, SCHEMA, STUDENT, TABLE, files, words};
use rt_input::Outcome;
use rt_io::{MemFiles, MemSink};
use rt_top::ratest;
use rt_value::{List, Txt};
use std::alloc::Global;
use std::process::Abort;

// Of two smallest witnesses the first in the order of rows is printed.
#[test]
fn first_of_two(rt: HostRuntime) {
    let table: &[(&str, &[(&str, &str)], &[(&str, &str, u8, &str)])] = &[
        (
            "CREATE TABLE d (a INTEGER);",
            &[("d/d.csv", "a\n5\n5\n")],
            &[(
                "SELECT a FROM d",
                "SELECT a FROM d WHERE a <> 5",
                1,
                "witness: 1\nd 1: 5\nonly query 1: 1\n  5\nonly query 2: 0\nboth: 0\n",
            )],
        ),
        (
            SCHEMA,
            &[TABLE],
            &[(
                ALL,
                "SELECT * FROM t WHERE a > 3",
                1,
                "witness: 1\nt 2: 2, 20\nonly query 1: 1\n  2, 20\nonly query 2: 0\nboth: 0\n",
            )],
        ),
        (
            LOOSE,
            &[STUDENT, REG],
            &[(
                "SELECT s.name FROM student s WHERE EXISTS (SELECT * FROM reg r WHERE r.name = s.name AND r.grade > 80)",
                "SELECT name FROM reg WHERE grade > 80",
                1,
                "witness: 1\nreg 1: 'Mary', 216, 'CS', 100\nonly query 1: 0\nonly query 2: 1\n  'Mary'\nboth: 0\n",
            )],
        ),
    ];
    for (schema, tables, cases) in table {
        assert!(rt; all_end(&rt, rt.alloc(), schema, tables, cases), "{schema}");
    }
}

// What these arguments end with, over no files.
fn outcome_of(alloc: Global, words: &[Txt]) -> Outcome {
    let mut none = MemFiles::new(alloc);
    let (mut out, mut err) = (MemSink::new(alloc), MemSink::new(alloc));
    ratest(alloc, words, &mut none, &mut out, &mut err)
}

// The places that a witness keeps, and none of another outcome.
fn places_of(rt: &impl Abort, alloc: Global, outcome: &Outcome) -> List<usize> {
    let mut places = List::new(alloc);
    if let Outcome::Witness(keep) = outcome {
        for (place, kept) in keep.as_slice().iter().enumerate() {
            if *kept {
                places.push(place).expect(rt, "memory");
            }
        }
    }
    places
}

// Whether the smallest witness of a command keeps just these places.
fn is_witness(rt: &impl Abort, alloc: Global, command: &[&str], wanted: &[usize]) -> bool {
    let command = words(alloc, command).expect(rt, "memory");
    let outcome = outcome_of(alloc, command.as_slice());
    drop(command);
    let places = places_of(rt, alloc, &outcome);
    drop(outcome);
    let found = places.as_slice() == wanted;
    drop(places);
    found
}

// The third student, and the fifth and the sixth registration: all students come first.
#[test]
fn first_of_the_generated(rt: HostRuntime) {
    let table: &[(&[&str], &[usize])] = &[
        (&["made", "20"], &[2, 24, 25]),
        (&["made", "400"], &[2, 404, 405]),
        (&["made", "400"], &[2, 404, 405]),
    ];
    for (command, places) in table {
        assert!(rt; is_witness(&rt, rt.alloc(), command, places), "{command:?}");
    }
}

// Whether these arguments end so over two tables of a thousand rows, each row joined with
// itself.
fn thousand_ends(
    rt: &impl Abort,
    alloc: Global,
    command: &[&str],
    status: u8,
    out: &str,
    err: &str,
) -> bool {
    let schema = "CREATE TABLE x (a INTEGER); CREATE TABLE y (a INTEGER);";
    let (left, right) = ("SELECT x.a FROM x, y WHERE x.a = y.a", "SELECT a FROM x");
    let rows = numbers(rt, alloc, "a", 1000);
    let tables = [("d/x.csv", rows.as_str()), ("d/y.csv", rows.as_str())];
    let files = files(alloc, schema, &tables, left, right).expect(rt, "memory");
    drop(rows);
    files_end(rt, alloc, files, command, status, out, err)
}

const OF_A_THOUSAND: [(&[&str], u8, &str, &str); 2] = [
    (
        &["s", "d", "p", "q", "--work=5004000"],
        1,
        "witness: 1\nx 1: 1\nonly query 1: 0\nonly query 2: 1\n  1\nboth: 0\n",
        "",
    ),
    (
        &["s", "d", "p", "q", "--work=5003999"],
        5,
        "",
        "ratest: limit: work 5004000 is above 5003999\n",
    ),
];

// Of the thousand smallest witnesses the first row is printed; the work is 5,004,000.
#[test]
fn first_of_a_thousand(rt: HostRuntime) {
    for (command, status, out, err) in &OF_A_THOUSAND {
        assert!(rt;
            thousand_ends(&rt, rt.alloc(), command, *status, out, err),
            "{command:?}"
        );
    }
}
