//! Conditions taken apart, and rows matched by keys.

use rt_algebra::{Expr, Pred, Query};
use rt_split::{KeyPair, Split, matches, split};
use rt_value::{Boxed, List, Op, Row, Value};
use std::alloc::Global;
use std::process::Abort;

// A comparison of a column of the row with a number.
fn number(op: Op, up: usize, at: usize, number: i128) -> Pred {
    Pred::Cmp(op, Expr::Col(up, at), Expr::Int(number))
}

// A comparison of two columns of the row.
fn columns(op: Op, a: usize, b: usize) -> Pred {
    Pred::Cmp(op, Expr::Col(0, a), Expr::Col(0, b))
}

fn both(rt: &impl Abort, alloc: Global, a: Pred, b: Pred) -> List<Pred> {
    List::from_vec(vec![in alloc; a, b].expect(rt, "memory"))
}

// A column of the second member, columns of both, and a column of the row outward.
fn three(rt: &impl Abort, alloc: Global) -> Pred {
    let key = columns(Op::Eq, 0, 2);
    let mut members = both(rt, alloc, number(Op::Eq, 0, 1, 5), key);
    members.push(number(Op::Gt, 1, 0, 3)).expect(rt, "memory");
    Pred::And(members)
}

fn is_column_and_number(preds: &[Pred], wanted: (Op, usize, usize, i128)) -> bool {
    match preds {
        [Pred::Cmp(op, Expr::Col(up, at), Expr::Int(n))] => (*op, *up, *at, *n) == wanted,
        _ => false,
    }
}

fn is_as_told(parts: &Split) -> bool {
    let key = match parts.keys_of(1) {
        [key] => key.before == 0 && key.own == 1,
        _ => false,
    };
    key && parts.own_of(0).is_empty()
        && parts.keys_of(0).is_empty()
        && is_column_and_number(parts.own_of(1), (Op::Eq, 0, 0, 5))
        && !parts.is_whole
}

fn splits(rt: &impl Abort, alloc: Global, condition: Pred) -> bool {
    let parts = split(alloc, &condition, &[1, 2]).expect(rt, "memory");
    drop(condition);
    let found = is_as_told(&parts);
    drop(parts);
    found
}

#[test]
fn conjuncts_of_two_members(rt: HostRuntime) {
    let condition = three(&rt, rt.alloc());
    assert!(rt; splits(&rt, rt.alloc(), condition));
}

// For members of two columns and of one: how many own conditions and how many keys each has, and
// 1 if a condition is left.
fn counts(rt: &impl Abort, alloc: Global, condition: Pred) -> [usize; 5] {
    let parts = split(alloc, &condition, &[2, 1]).expect(rt, "memory");
    drop(condition);
    let counts = [
        parts.own_of(0).len(),
        parts.own_of(1).len(),
        parts.keys_of(0).len(),
        parts.keys_of(1).len(),
        usize::from(!parts.is_whole),
    ];
    drop(parts);
    counts
}

#[test]
fn comparisons_of_two_members(rt: HostRuntime) {
    let alloc = rt.alloc();
    let constants = Pred::Cmp(Op::Eq, Expr::Int(1), Expr::Int(1));
    assert!(rt; counts(&rt, alloc, constants) == [0, 0, 0, 0, 1]);
    let null = Pred::Cmp(Op::Eq, Expr::Col(0, 2), Expr::Null);
    assert!(rt; counts(&rt, alloc, null) == [0, 1, 0, 0, 0]);
    assert!(rt; counts(&rt, alloc, columns(Op::Eq, 0, 1)) == [1, 0, 0, 0, 0]);
    assert!(rt; counts(&rt, alloc, columns(Op::Eq, 1, 2)) == [0, 0, 0, 1, 0]);
    assert!(rt; counts(&rt, alloc, columns(Op::Eq, 2, 1)) == [0, 0, 0, 1, 0]);
    assert!(rt; counts(&rt, alloc, columns(Op::Ne, 1, 2)) == [0, 0, 0, 0, 1]);
    let outward = Pred::Cmp(Op::Eq, Expr::Col(1, 0), Expr::Col(0, 2));
    assert!(rt; counts(&rt, alloc, outward) == [0, 1, 0, 0, 0]);
}

#[test]
fn conditions_of_two_members(rt: HostRuntime) {
    let alloc = rt.alloc();
    let exists = Pred::Exists(Boxed::new(alloc, Query::Table(0)).expect(&rt, "memory"));
    assert!(rt; counts(&rt, alloc, exists) == [0, 0, 0, 0, 1]);
    let member = Pred::Member(
        Expr::Col(0, 0),
        Boxed::new(alloc, Query::Table(0)).expect(&rt, "memory"),
    );
    assert!(rt; counts(&rt, alloc, member) == [0, 0, 0, 0, 1]);
    let of_both = both(&rt, alloc, number(Op::Eq, 0, 0, 1), number(Op::Eq, 0, 2, 1));
    assert!(rt; counts(&rt, alloc, Pred::And(of_both)) == [1, 1, 0, 0, 0]);
    let of_both = both(&rt, alloc, number(Op::Eq, 0, 0, 1), number(Op::Eq, 0, 2, 1));
    assert!(rt; counts(&rt, alloc, Pred::Or(of_both)) == [0, 0, 0, 0, 1]);
    let of_one = both(&rt, alloc, number(Op::Eq, 0, 0, 1), columns(Op::Lt, 0, 1));
    let negated = Pred::Not(Boxed::new(alloc, Pred::And(of_one)).expect(&rt, "memory"));
    assert!(rt; counts(&rt, alloc, negated) == [1, 0, 0, 0, 0]);
}

fn cell(rt: &impl Abort, alloc: Global, value: Value) -> Row {
    let mut row = Row::new(alloc);
    row.push(value).expect(rt, "memory");
    row
}

// Whether of three rows the second alone has its key twice, at the first and the last place.
fn are_matched(rt: &impl Abort, alloc: Global, before: &[&Row], own: &[&Row]) -> bool {
    let keys = [KeyPair { before: 0, own: 0 }];
    let places = matches(alloc, &keys, before, own).expect(rt, "memory");
    let found = match places.as_slice() {
        [first, second, third] => {
            first.is_empty() && second.as_slice() == [0, 2].as_slice() && third.is_empty()
        }
        _ => false,
    };
    drop(places);
    found
}

#[test]
fn rows_of_equal_keys(rt: HostRuntime) {
    let alloc = rt.alloc();
    let null = cell(&rt, alloc, Value::Null);
    let one = cell(&rt, alloc, Value::Int(1));
    let two = cell(&rt, alloc, Value::Int(2));
    let before = [&null, &one, &two];
    let own = [&one, &null, &one];
    assert!(rt; are_matched(&rt, alloc, before.as_slice(), own.as_slice()));
}
