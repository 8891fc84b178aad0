//! A budget that is spent when the least size is known, and only the order of rows is open.
//!
//! The rows of `a` and `b` together are the only two that make the queries differ. The row of `p`
//! comes before them, and does so with any row of `q` and any of `r`. That it is in no counterexample
//! of two rows takes more clauses than that no row alone is one.

use rt_cases::{files, words};
use rt_input::Outcome;
use rt_io::MemSink;
use rt_top::ratest;
use std::alloc::Global;
use std::process::Abort;

const SCHEMA: &str = "CREATE TABLE p (k INTEGER); CREATE TABLE q (k INTEGER, n INTEGER);
    CREATE TABLE r (k INTEGER, n INTEGER); CREATE TABLE a (k INTEGER); CREATE TABLE b (k INTEGER);";

const FIVE: &str = "k,n\n1,1\n1,2\n1,3\n1,4\n1,5\n";

const TABLES: [(&str, &str); 5] = [
    ("d/p.csv", "k\n1\n"),
    ("d/q.csv", FIVE),
    ("d/r.csv", FIVE),
    ("d/a.csv", "k\n1\n"),
    ("d/b.csv", "k\n1\n"),
];

const JOINS: &str = "SELECT p.k FROM p, q, r UNION SELECT a.k FROM a, b";

const NEVER: &str = "SELECT k FROM a WHERE k <> k";

// The choice of the row of `a` and of that of `b`: one row and twice five are before them.
const BEST: [bool; 13] = [
    false, false, false, false, false, false, false, false, false, false, false, true, true,
];

// Whether the outcome is a spent budget of so many clauses, with the two rows as the best choice and
// no smaller one left.
fn is_least(outcome: &Outcome, budget: u64) -> bool {
    match outcome {
        Outcome::Spent(spent) => {
            let Some(best) = &spent.best else {
                return false;
            };
            spent.budget == budget
                && spent.least
                && spent.nogoods.len() as u64 == budget
                && best.as_slice() == BEST.as_slice()
        }
        _ => false,
    }
}

// Whether a run with this budget ends so, with this text.
fn ends_least(rt: &impl Abort, alloc: Global, number: &str, budget: u64, text: &str) -> bool {
    let mut files = files(alloc, SCHEMA, &TABLES, JOINS, NEVER).expect(rt, "memory");
    let command = words(alloc, &["s", "d", "p", "q", "--conflicts", number]).expect(rt, "memory");
    let (mut out, mut err) = (MemSink::new(alloc), MemSink::new(alloc));
    let outcome = ratest(alloc, command.as_slice(), &mut files, &mut out, &mut err);
    drop(command);
    drop(files);
    let found = is_least(&outcome, budget) && out.bytes() == text.as_bytes();
    drop(outcome);
    found && err.bytes().is_empty()
}

#[test]
fn a_budget_spent_after_the_least_size(rt: HostRuntime) {
    let table: &[(&str, u64, &str)] = &[
        (
            "3",
            3,
            "undecided: 3 conflicts\nbest so far: 2\na 1: 1\nb 1: 1\n",
        ),
        (
            "4",
            4,
            "undecided: 4 conflicts\nbest so far: 2\na 1: 1\nb 1: 1\n",
        ),
    ];
    for (number, budget, text) in table {
        assert!(rt;
            ends_least(&rt, rt.alloc(), number, *budget, text),
            "{number}"
        );
    }
}
