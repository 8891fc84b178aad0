//! The work of a query, as it is counted before it is run.

use crate::data::read_data;
use rt_algebra::{Expr, Pred, Query, Typed, work};
use rt_schema::ColKind;
use rt_value::{Boxed, List, Op};
use std::alloc::Global;
use std::process::Abort;

const SCHEMA: &str =
    "CREATE TABLE student (name TEXT, major TEXT);\nCREATE TABLE reg (name TEXT, num INTEGER, dept TEXT, grade INTEGER);";

// Two students, and three registrations.
const FILES: [&str; 2] = [
    "name,major\nMary,CS\nJohn,ECON\n",
    "name,num,dept,grade\nMary,216,CS,100\nMary,230,CS,75\nJohn,316,CS,90\n",
];

// A product of tables.
fn product(rt: &impl Abort, alloc: Global, tables: &[usize]) -> Boxed<Query> {
    let mut members = List::new(alloc);
    for table in tables {
        members.push(Query::Table(*table)).expect(rt, "memory");
    }
    Boxed::new(alloc, Query::Product(members)).expect(rt, "memory")
}

// As many comparisons of two columns.
fn comparisons(rt: &impl Abort, alloc: Global, count: usize) -> Pred {
    let mut tests = List::new(alloc);
    for _ in 0..count {
        let test = Pred::Cmp(Op::Eq, Expr::Col(0, 0), Expr::Col(0, 1));
        tests.push(test).expect(rt, "memory");
    }
    Pred::And(tests)
}

// The first column of a product of tables, under as many comparisons of two columns.
fn picked(rt: &impl Abort, alloc: Global, tables: &[usize], count: usize) -> Boxed<Query> {
    let select = Query::Select(product(rt, alloc, tables), comparisons(rt, alloc, count));
    let selected = Boxed::new(alloc, select).expect(rt, "memory");
    let column = vec![in alloc; Expr::Col(0, 0)].expect(rt, "memory");
    let project = Query::Project(selected, List::from_vec(column));
    Boxed::new(alloc, project).expect(rt, "memory")
}

// The names of one query and not of the other.
fn difference(rt: &impl Abort, alloc: Global, a: Boxed<Query>, b: Boxed<Query>) -> Boxed<Query> {
    Boxed::new(alloc, Query::Except(a, b)).expect(rt, "memory")
}

// A query with one column of texts.
fn typed(rt: &impl Abort, alloc: Global, query: Boxed<Query>) -> Typed {
    let name = vec![in alloc; None].expect(rt, "memory");
    Typed {
        query,
        kinds: List::from_slice(alloc, &[ColKind::Text]).expect(rt, "memory"),
        bounds: List::from_slice(alloc, &[0]).expect(rt, "memory"),
        names: List::from_vec(name),
    }
}

fn work_of(rt: &impl Abort, alloc: Global, query: &Typed) -> u128 {
    let tables = read_data(rt, alloc, SCHEMA, &FILES);
    let work = work(query, &tables.given);
    drop(tables);
    work
}

fn work_on(rt: &impl Abort, alloc: Global, query: Boxed<Query>) -> u128 {
    let query = typed(rt, alloc, query);
    let work = work_of(rt, alloc, &query);
    drop(query);
    work
}

#[test]
fn work_of_students_with_courses(rt: HostRuntime) {
    let alloc = rt.alloc();
    assert!(rt; work_on(&rt, alloc, picked(&rt, alloc, &[0, 1], 2)) == 88);
    let one_or_more = picked(&rt, alloc, &[0, 1], 2);
    let two_or_more = picked(&rt, alloc, &[0, 1, 1], 5);
    let exactly_one = difference(&rt, alloc, one_or_more, two_or_more);
    assert!(rt; work_on(&rt, alloc, exactly_one) == 572);
}
