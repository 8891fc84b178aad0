//! The law of 2,000 rows as a formula: that it is true where it should be, and how large it is.

ghost use Rattle.rt_schema.specs.Given.{IsOf};

use crate::data::{Data, read_data};
use crate::law::both_of;
use rt_formula::{Dag, Entry, Node};
use rt_rules::law;
use rt_value::Keep;
use std::alloc::Global;
use std::process::Abort;

// A file of 2,000 rows, of which each refers to the next and the last to the first.
fn ring(rt: &impl Abort, alloc: Global) -> String {
    let mut file = String::new(alloc);
    file.push_str("a,b\n").expect(rt, "memory");
    for n in 0..2_000_usize {
        let next = (n + 1) % 2_000;
        let line = format!(in alloc; "{n},{next}\n").expect(rt, "memory");
        file.push_str(line.as_str()).expect(rt, "memory");
    }
    file
}

// All of 2,000 rows, but for the first perhaps.
fn places(rt: &impl Abort, alloc: Global, first: &str) -> String {
    let mut places = String::new(alloc);
    places.push_str(first).expect(rt, "memory");
    for _ in 1..2_000 {
        places.push_str("1").expect(rt, "memory");
    }
    places
}

// Whether the formula of the law is true at the rows of the ring, but for the first perhaps.
fn ring_holds(rt: &impl Abort, alloc: Global, first: &str) -> bool {
    let schema = "CREATE TABLE t (a INTEGER PRIMARY KEY, b INTEGER REFERENCES t (a));";
    let file = ring(rt, alloc);
    let places = places(rt, alloc, first);
    let [_, holds] = both_of(rt, alloc, schema, file.as_str(), places.as_str());
    drop(places);
    drop(file);
    holds
}

#[test]
fn two_thousand_rows(rt: HostRuntime) {
    let alloc = rt.alloc();
    assert!(rt; ring_holds(&rt, alloc, "1"));
    assert!(rt; !ring_holds(&rt, alloc, "0"));
}

// How many children the gates of a formula have.
fn children(dag: &Dag) -> usize {
    let mut children = 0_usize;
    for at in 0..dag.len() {
        if let Entry::All(of) | Entry::Any(of) = dag.entry(at) {
            children = children.saturating_add(of.as_slice().len());
        }
    }
    children
}

// A file of 2,000 rows under a head, which are the same but for the first perhaps.
fn alike(rt: &impl Abort, alloc: Global, head: &str, first: &str, other: &str) -> String {
    let mut file = String::new(alloc);
    file.push_str(head).expect(rt, "memory");
    file.push_str(first).expect(rt, "memory");
    for _ in 1..2_000 {
        file.push_str(other).expect(rt, "memory");
    }
    file
}

// The size of a formula of 2,000 rows, and whether it is true at two choices: the last row alone,
// and the first with the last.
#[derive(Drop)]
struct Size {
    nodes: usize,
    children: usize,
    one: bool,
    two: bool,
}

// Whether the formula is true once this place is kept too.
fn value_with(rt: &impl Abort, dag: &Dag, node: Node, keep: &mut Keep, place: usize) -> bool {
    assert!(rt; place < keep.len());
    keep.set(place, true);
    assert!(rt; keep.len() == dag.rows() && node.number() < dag.len());
    dag.value(node, &*keep).expect(rt, "memory")
}

fn size_of(rt: &impl Abort, alloc: Global, dag: &Dag, node: Node) -> Size {
    let mut keep = Keep::all(alloc, 2_000, false).expect(rt, "memory");
    let one = value_with(rt, dag, node, &mut keep, 1_999);
    let two = value_with(rt, dag, node, &mut keep, 0);
    drop(keep);
    Size {
        nodes: dag.len(),
        children: children(dag),
        one,
        two,
    }
}

// The size of the formula of the law.
fn law_size(rt: &impl Abort, alloc: Global, tables: &Data) -> Size
    requires { IsOf tables.now.schema tables.now.given }
{
    let mut dag = Dag::new(alloc, tables.given.total()).expect(rt, "memory");
    let node = law(alloc, &mut dag, &tables.schema, &tables.given).expect(rt, "memory");
    let size = size_of(rt, alloc, &dag, node);
    drop(dag);
    size
}

// The same of the rows of a file.
fn size_over(rt: &impl Abort, alloc: Global, schema: &str, file: &str) -> Size {
    let tables = read_data(rt, alloc, schema, &[file]);
    let size = law_size(rt, alloc, &tables);
    drop(tables);
    size
}

// Whether the formula of the law of 2,000 equal rows has a few gates for each. It has to be true
// where one of them is kept, and false where the first is kept too.
fn costs_little(
    rt: &impl Abort,
    alloc: Global,
    schema: &str,
    head: &str,
    first: &str,
    other: &str,
) -> bool {
    let file = alike(rt, alloc, head, first, other);
    let size = size_over(rt, alloc, schema, file.as_str());
    drop(file);
    size.nodes <= 20_000 && size.children <= 20_000 && size.one && !size.two
}

const ALIKE: [(&str, &str, &str, &str); 2] = [
    (
        "CREATE TABLE p (k INTEGER PRIMARY KEY)",
        "k\n",
        "7\n",
        "7\n",
    ),
    (
        "CREATE TABLE g (a INTEGER, b INTEGER, DEPENDENCY (a) DETERMINES (b))",
        "a,b\n",
        "7,8\n",
        "7,7\n",
    ),
];

// A group of rows with one key value, or with one determining value, costs a few gates for each
// row, and none for each pair of rows.
#[test]
fn two_thousand_rows_with_one_value(rt: HostRuntime) {
    for (schema, head, first, other) in &ALIKE {
        assert!(rt;
            costs_little(&rt, rt.alloc(), schema, head, first, other),
            "{schema}"
        );
    }
}
