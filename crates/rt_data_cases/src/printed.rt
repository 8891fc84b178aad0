//! What is printed, byte by byte: witnesses, spent budgets and summaries.

ghost use Rattle.std.specs.Prelude.{◌≡◌, IfOk};
ghost use Rattle.std.specs.List.Sorted.{IsStrictlySortedBy};
ghost use Rattle.rt_schema.specs.Given.{IsOf};
ghost use Rattle.rt_value.specs.Row.{row_cmp};

use crate::data::{Data, choice, read_data};
use rt_print::{MadeVerdict, made_text, spent_text, witness_text};
use rt_value::{Bytes, Keep, List, NoMemory, Row, Txt, Value};
use std::alloc::Global;
use std::process::Abort;

const STUDENTS: &str =
    "CREATE TABLE student (name TEXT, major TEXT);\nCREATE TABLE reg (name TEXT, num INTEGER, dept TEXT, grade INTEGER);";

const TWO: &str = "CREATE TABLE t (a INTEGER);\nCREATE TABLE u (a INTEGER);";

// A row whose cells are NULL, whole numbers or texts, as they are written.
fn row(rt: &impl Abort, alloc: Global, cells: &[&str]) -> Row {
    let mut row = Row::new(alloc);
    for cell in cells {
        let value = match cell.parse::<i128>() {
            Ok(n) => Value::Int(n),
            Err(_) if *cell == "NULL" => Value::Null,
            Err(_) => Value::Text(Txt::of(alloc, *cell).expect(rt, "memory")),
        };
        row.push(value).expect(rt, "memory");
    }
    row
}

// An answer of one row, or of none where there is no cell.
fn answer(rt: &impl Abort, alloc: Global, cells: &[&str]) -> Result<List<Row>, NoMemory>
    ensures { IfOk result (λ rows. IsStrictlySortedBy row_cmp rows) }
{
    let mut rows = List::new(alloc);
    if cells.is_empty() {
        return Ok(rows);
    }
    rows.push(row(rt, alloc, cells))?;
    Ok(rows)
}

// The text for the rows of a choice, and for answers of one row or none.
fn witness(
    rt: &impl Abort,
    alloc: Global,
    schema: &str,
    files: &[&str],
    places: &str,
    left: &[&str],
    right: &[&str],
) -> Bytes {
    let tables = read_data(rt, alloc, schema, files);
    let keep = choice(rt, alloc, places);
    let text = witness_in(rt, alloc, &tables, &keep, left, right);
    drop(keep);
    drop(tables);
    text
}

fn witness_in(
    rt: &impl Abort,
    alloc: Global,
    tables: &Data,
    keep: &Keep,
    left: &[&str],
    right: &[&str],
) -> Bytes
    requires { IsOf tables.now.schema tables.now.given }
{
    assert!(rt; keep.len() == tables.given.total());
    let left = answer(rt, alloc, left).expect(rt, "memory");
    let right = answer(rt, alloc, right).expect(rt, "memory");
    let text = witness_text(
        alloc,
        &tables.schema,
        &tables.given,
        keep,
        left.as_slice(),
        right.as_slice(),
    )
    .expect(rt, "memory");
    drop(right);
    drop(left);
    text
}

// The text for two students, of whom these are the best so far.
fn spent(rt: &impl Abort, alloc: Global, best: Option<&Keep>) -> Bytes {
    let tables = read_data(rt, alloc, STUDENTS, &["name,major\nMary,CS\nJohn,ECON\n"]);
    let text = spent_in(rt, alloc, &tables, best);
    drop(tables);
    text
}

fn spent_in(rt: &impl Abort, alloc: Global, tables: &Data, best: Option<&Keep>) -> Bytes
    requires { IsOf tables.now.schema tables.now.given }
{
    if let Some(keep) = best {
        assert!(rt; keep.len() == tables.given.total());
    }
    spent_text(alloc, &tables.schema, &tables.given, 7, best).expect(rt, "memory")
}

fn is_spent(rt: &impl Abort, alloc: Global, best: Option<&Keep>, want: &str) -> bool {
    let text = spent(rt, alloc, best);
    let found = text.as_slice() == want.as_bytes();
    drop(text);
    found
}

#[test]
fn rows_of_one_query_alone(rt: HostRuntime) {
    let files = [
        "name,major\nMary,CS\nJohn,ECON\n",
        "name,num,dept,grade\nMary,216,CS,100\nMary,230,CS,75\nJohn,316,CS,90\n",
    ];
    let text = witness(&rt, rt.alloc(), STUDENTS, &files, "10110", &[], &["Mary"]);
    let want =
        "witness: 3\nstudent 1: 'Mary', 'CS'\nreg 1: 'Mary', 216, 'CS', 100\nreg 2: 'Mary', 230, 'CS', 75\nonly query 1: 0\nonly query 2: 1\n  'Mary'\nboth: 0\n";
    assert!(rt; text.as_slice() == want.as_bytes());
}

#[test]
fn null(rt: HostRuntime) {
    let files = ["a\n1\n", "a\n\"\"\n"];
    let text = witness(&rt, rt.alloc(), TWO, &files, "11", &[], &["1"]);
    let want = "witness: 2\nt 1: 1\nu 1: NULL\nonly query 1: 0\nonly query 2: 1\n  1\nboth: 0\n";
    assert!(rt; text.as_slice() == want.as_bytes());
}

#[test]
fn numbers_past_64_bits(rt: HostRuntime) {
    let files = ["a\n-9223372036854775808\n"];
    let left = ["85070591730234615865843651857942052865"];
    let right = ["85070591730234615865843651857942052864"];
    let text = witness(&rt, rt.alloc(), TWO, &files, "1", &left, &right);
    let want =
        "witness: 1\nt 1: -9223372036854775808\nonly query 1: 1\n  85070591730234615865843651857942052865\nonly query 2: 1\n  85070591730234615865843651857942052864\nboth: 0\n";
    assert!(rt; text.as_slice() == want.as_bytes());
}

#[test]
fn quotes_are_doubled(rt: HostRuntime) {
    let names = ["O'Hara", "NULL"];
    let text = witness(&rt, rt.alloc(), TWO, &["a\n5\n"], "0", &names, &names);
    let want = "witness: 0\nonly query 1: 0\nonly query 2: 0\nboth: 1\n  'O''Hara', NULL\n";
    assert!(rt; text.as_slice() == want.as_bytes());
}

#[test]
fn a_spent_budget_is_printed(rt: HostRuntime) {
    let first = "undecided: 7 conflicts\n";
    assert!(rt; is_spent(&rt, rt.alloc(), None, first));
    let want = "undecided: 7 conflicts\nbest so far: 1\nstudent 1: 'Mary', 'CS'\n";
    let keep = choice(&rt, rt.alloc(), "10");
    assert!(rt; is_spent(&rt, rt.alloc(), Some(&keep), want));
}

const SUMMARIES: [(u64, MadeVerdict, &str); 3] = [
    (
        400,
        MadeVerdict::Size(3),
        "made 400\nrows 2000\nwitness: 3\n",
    ),
    (2, MadeVerdict::Agree, "made 2\nrows 10\nagree\n"),
    (
        20,
        MadeVerdict::Undecided(7),
        "made 20\nrows 100\nundecided: 7 conflicts\n",
    ),
];

#[test]
fn summaries_of_generated_inputs(rt: HostRuntime) {
    for (n, verdict, want) in &SUMMARIES {
        let text = made_text(rt.alloc(), *n, *verdict).expect(&rt, "memory");
        assert!(rt; text.as_slice() == want.as_bytes(), "{want}");
    }
}
