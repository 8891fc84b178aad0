//! The search, compared with a trial of every choice of rows. The trial evaluates both queries on
//! each choice, and uses nothing of the search.

ghost use Rattle.std.specs.Prelude.{◌≡◌, length};
ghost use Rattle.rt_schema.specs.Given.{places};

use crate::choices::{choice, input};
use rt_cases::files;
use rt_eval::answers;
use rt_input::Input;
use rt_io::MemFiles;
use rt_schema::lawful;
use rt_top::{Best, decide};
use rt_value::Keep;
use std::alloc::Global;
use std::process::Abort;

// Tables without rules.
const FREE: &str = "CREATE TABLE u (b INTEGER, c INTEGER); CREATE TABLE t (a INTEGER, b INTEGER)";

// The same with a key, NOT NULL and a foreign key.
const RULED: &str =
    "CREATE TABLE u (b INTEGER PRIMARY KEY, c INTEGER); CREATE TABLE t (a INTEGER NOT NULL, b INTEGER REFERENCES u)";

// What a field of a seeded table may be.
const FIELDS: [&str; 6] = ["", "-1", "0", "1", "2", "3"];

// The step of a linear congruential generator.
fn step(state: u64) -> u64 {
    state
        .wrapping_mul(6_364_136_223_846_793_005)
        .wrapping_add(1_442_695_040_888_963_407)
}

fn field(state: u64) -> &'static str {
    FIELDS[((state >> 33) % 6) as usize]
}

// The text of a table of two columns with so many rows.
fn table(rt: &impl Abort, alloc: Global, header: &str, rows: u64, seed: u64) -> String {
    let mut text = String::from_str(alloc, header).expect(rt, "memory");
    let mut state = seed;
    for _ in 0..rows {
        let first = step(state);
        state = step(first);
        let (left, right) = (field(first), field(state));
        let line = format!(in alloc; "{left},{right}\n").expect(rt, "memory");
        text.push_str(line.as_str()).expect(rt, "memory");
    }
    text
}

// The files of two queries over seeded tables: from one to five rows of `u`, and two to five of
// `t`.
fn seeded(
    rt: &impl Abort,
    alloc: Global,
    seed: u64,
    schema: &str,
    query1: &str,
    query2: &str,
) -> MemFiles {
    let first = table(rt, alloc, "b,c\n", 1 + seed % 5, step(seed));
    let second = table(rt, alloc, "a,b\n", 2 + seed % 4, step(step(seed)));
    let tables = [("d/u.csv", first.as_str()), ("d/t.csv", second.as_str())];
    let files = files(alloc, schema, &tables, query1, query2).expect(rt, "memory");
    drop(first);
    drop(second);
    files
}

// Whether the two queries answer differently on the kept rows.
fn differ(rt: &impl Abort, alloc: Global, input: &Input, keep: &Keep) -> bool
    requires { places input.now.given.tables ≡ length keep.now }
{
    let _schema = input.schema();
    let left = answers(alloc, input.left(), input.given(), keep).expect(rt, "memory");
    let right = answers(alloc, input.right(), input.given(), keep).expect(rt, "memory");
    let found = !left.same(&right);
    drop(left);
    drop(right);
    found
}

// Whether the kept rows are a counterexample.
fn is_counterexample(rt: &impl Abort, alloc: Global, input: &Input, keep: &Keep) -> bool
    requires { places input.now.given.tables ≡ length keep.now }
{
    lawful(input.schema(), input.given(), keep) && differ(rt, alloc, input, keep)
}

// Whether one choice comes before another: it keeps the first row that only one of them keeps.
fn comes_before(keep: &Keep, other: &Keep) -> bool {
    for (a, b) in keep.as_slice().iter().zip(other.as_slice()) {
        if *a != *b {
            return *a;
        }
    }
    false
}

// Whether a choice keeps fewer rows than the best so far, or as many and comes before it.
fn is_better(keep: &Keep, best: &Option<Keep>) -> bool {
    match best {
        Some(other) => {
            let (size, least) = (keep.size(), other.size());
            size < least || (size == least && comes_before(keep, other))
        }
        None => true,
    }
}

// The number of choices of so many rows, of ten at most.
fn choices(places: usize) -> usize {
    1 << places.min(10)
}

// The first of the smallest counterexamples, by a trial of every choice of at most ten rows.
fn tried(rt: &impl Abort, alloc: Global, input: &Input) -> Option<Keep> {
    let places = input.given().total();
    let mut best = None;
    for number in 0..choices(places) {
        let keep = choice(rt, alloc, places, number);
        if is_better(&keep, &best) && is_counterexample(rt, alloc, input, &keep) {
            best = Some(keep);
        }
    }
    best
}

// Whether this is the counterexample, or there is none.
fn is_first(best: &Best, first: &Option<Keep>) -> bool {
    match (best, first) {
        (Best::Least(keep), Some(other)) => *keep == *other,
        (Best::Never, None) => true,
        _ => false,
    }
}

// Whether the search finds what the trial finds, over at most ten rows.
fn agrees(rt: &impl Abort, alloc: Global, input: &Input) -> bool {
    let first = tried(rt, alloc, input);
    let best = decide(alloc, input).expect(rt, "memory");
    let found = input.given().total() <= 10 && is_first(&best, &first);
    drop(best);
    drop(first);
    found
}

fn input_agrees(rt: &impl Abort, alloc: Global, input: Option<Input>) -> bool {
    match input {
        Some(input) => {
            let found = agrees(rt, alloc, &input);
            drop(input);
            found
        }
        None => false,
    }
}

// Whether search and trial agree on a seeded input.
fn seed_agrees(
    rt: &impl Abort,
    alloc: Global,
    seed: u64,
    schema: &str,
    query1: &str,
    query2: &str,
) -> bool {
    let files = seeded(rt, alloc, seed, schema, query1, query2);
    let input = input(rt, alloc, files);
    input_agrees(rt, alloc, input)
}

// Search and trial agree on ten seeded inputs at each pair of queries.
fn assert_all(rt: &impl Abort, alloc: Global, schema: &str, pairs: &[(&str, &str)]) {
    let mut seed: u64 = 0;
    for (query1, query2) in pairs {
        for _ in 0..10 {
            assert!(rt;
                seed_agrees(rt, alloc, seed, schema, query1, query2),
                "{query1}, seed {seed}"
            );
            seed = seed.wrapping_add(1);
        }
    }
}

const FREE_PAIRS: [(&str, &str); 10] = [
    (
        "SELECT a FROM t WHERE a < 2",
        "SELECT a FROM t WHERE a <= 2",
    ),
    (
        "SELECT b FROM t WHERE a IS NULL OR a > 0",
        "SELECT b FROM t WHERE NOT a <= 0",
    ),
    (
        "SELECT a FROM t WHERE b BETWEEN 0 AND 2",
        "SELECT a FROM t WHERE b NOT IN (-1, 3)",
    ),
    (
        "SELECT t.a, u.c FROM t, u WHERE t.b = u.b",
        "SELECT t.a, u.c FROM t JOIN u ON t.b = u.b AND NOT u.c = t.a",
    ),
    (
        "SELECT a FROM t WHERE b NOT IN (SELECT b FROM u)",
        "SELECT a FROM t WHERE NOT EXISTS (SELECT * FROM u WHERE u.b = t.b)",
    ),
    (
        "SELECT b FROM t EXCEPT SELECT b FROM u",
        "SELECT b FROM t WHERE b NOT IN (SELECT b FROM u)",
    ),
    (
        "SELECT a FROM t EXCEPT SELECT x.a FROM t x, t y WHERE x.a = y.a AND x.b <> y.b",
        "SELECT a FROM t",
    ),
    (
        "SELECT x.a FROM t x, u WHERE x.b = u.b AND NOT EXISTS (SELECT * FROM u v WHERE NOT EXISTS (SELECT * FROM t y WHERE y.a = x.a AND y.b = v.b))",
        "SELECT a FROM t WHERE b IN (SELECT b FROM u)",
    ),
    (
        "SELECT d.x FROM (SELECT a + 1 AS x FROM t WHERE b > 0) AS d WHERE d.x < 3",
        "SELECT -(-1 - a) FROM t WHERE b > 0 AND a < 2",
    ),
    (
        "SELECT a FROM t EXCEPT SELECT b FROM u UNION SELECT c FROM u",
        "SELECT a FROM t EXCEPT (SELECT b FROM u UNION SELECT c FROM u)",
    ),
];

const RULED_PAIRS: [(&str, &str); 10] = [
    ("SELECT a * 2 - b FROM t", "SELECT a + a - b * b FROM t"),
    (
        "SELECT t.a FROM t JOIN u ON t.b = u.b",
        "SELECT a FROM t WHERE b IS NOT NULL",
    ),
    (
        "SELECT a FROM t WHERE EXISTS (SELECT * FROM u WHERE u.c > t.a)",
        "SELECT a FROM t WHERE EXISTS (SELECT * FROM u WHERE u.c > 0)",
    ),
    (
        "SELECT b FROM t UNION SELECT b FROM u",
        "SELECT b FROM u UNION SELECT a FROM t",
    ),
    (
        "SELECT b FROM t INTERSECT SELECT b FROM u",
        "SELECT t.b FROM t, u WHERE t.b = u.b",
    ),
    (
        "SELECT a FROM t WHERE a IN (SELECT c FROM u WHERE u.b = t.b)",
        "SELECT a FROM t WHERE a IN (SELECT c FROM u)",
    ),
    (
        "SELECT a FROM t WHERE a NOT IN (SELECT c FROM u WHERE u.b >= t.b)",
        "SELECT a FROM t WHERE NOT EXISTS (SELECT * FROM u WHERE u.c = t.a AND u.b > t.b)",
    ),
    (
        "SELECT a FROM t EXCEPT SELECT x.a FROM t x, t y WHERE x.a < y.a",
        "SELECT a FROM t x WHERE NOT EXISTS (SELECT * FROM t y WHERE NOT y.a <= x.a)",
    ),
    (
        "SELECT a FROM t WHERE a IN (1, 2, b)",
        "SELECT a FROM t WHERE NOT (a <> 1 AND a <> 2) OR a <= b",
    ),
    (
        "SELECT u.b FROM u WHERE NOT EXISTS (SELECT * FROM t WHERE t.b = u.b)",
        "SELECT b FROM u EXCEPT SELECT b FROM t WHERE a NOT BETWEEN 0 AND 1",
    ),
];

#[test]
fn search_and_trial_agree(rt: HostRuntime) {
    assert_all(&rt, rt.alloc(), FREE, &FREE_PAIRS);
    assert_all(&rt, rt.alloc(), RULED, &RULED_PAIRS);
}
