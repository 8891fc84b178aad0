//! Values, rows, texts and lists: comparisons, orders and copies.

use rt_value::{Boxed, Keep, List, Op, Row, Truth, Txt, Value, compare};
use std::alloc::Global;
use std::cmp::Ordering;
use std::process::Abort;

#[test]
fn comparison_with_null_is_unknown(rt: HostRuntime) {
    let text = Txt::of(rt.alloc(), "a").expect(&rt, "memory");
    let table = [
        (Value::Null, Value::Null, Op::Eq, Truth::Unknown),
        (Value::Int(1), Value::Null, Op::Ne, Truth::Unknown),
        (Value::Int(-1), Value::Int(1), Op::Lt, Truth::Yes),
        (Value::Int(2), Value::Int(2), Op::Ne, Truth::No),
        (Value::Int(9), Value::Text(text), Op::Lt, Truth::Yes),
    ];
    for (a, b, op, want) in &table {
        assert!(rt; compare(a, b, *op) == *want);
    }
}

fn one(rt: &impl Abort, alloc: Global) -> Row {
    let mut row = Row::new(alloc);
    row.push(Value::Int(1)).expect(rt, "memory");
    row
}

fn one_and_null(rt: &impl Abort, alloc: Global) -> Row {
    let mut row = one(rt, alloc);
    row.push(Value::Null).expect(rt, "memory");
    row
}

#[test]
fn null_comes_first_and_a_prefix_before_its_row(rt: HostRuntime) {
    assert!(rt; Value::Null.cmp(&Value::Int(-5)) == Ordering::Less);
    let short = one(&rt, rt.alloc());
    let long = one_and_null(&rt, rt.alloc());
    assert!(rt; short.cmp(&long) == Ordering::Less);
    let joined = short.join(rt.alloc(), &long).expect(&rt, "memory");
    drop(short);
    drop(long);
    assert!(rt; are_one_one_null(joined.as_slice()));
    let again = joined.copy(rt.alloc()).expect(&rt, "memory");
    drop(joined);
    assert!(rt; are_one_one_null(again.as_slice()));
}

fn is_one(cell: &Value) -> bool {
    matches!(cell, Value::Int(1))
}

fn are_one_one_null(cells: &[Value]) -> bool {
    match cells {
        [first, second, third] => is_one(first) && is_one(second) && matches!(third, Value::Null),
        _ => false,
    }
}

#[test]
fn a_copy_is_its_source(rt: HostRuntime) {
    let text = Txt::of(rt.alloc(), "it's").expect(&rt, "memory");
    let again = text.copy(rt.alloc()).expect(&rt, "memory");
    assert!(rt; again.as_str() == "it's");
    let values = [Value::Null, Value::Int(-5), Value::Text(text)];
    for value in &values {
        let copy = value.copy(rt.alloc()).expect(&rt, "memory");
        assert!(rt; copy.cmp(value) == Ordering::Equal);
    }
}

// Whether a list, and a box of it, holds an item that was pushed and two after it.
fn is_filled(rt: &impl Abort, alloc: Global) -> bool {
    let mut list = List::new(alloc);
    list.push(7u8).expect(rt, "memory");
    list.extend(&[8, 9]).expect(rt, "memory");
    let wanted = [7, 8, 9];
    let is_held = list.as_slice() == wanted.as_slice();
    let boxed = Boxed::new(alloc, list).expect(rt, "memory");
    let is_boxed = boxed.get().as_slice() == wanted.as_slice();
    drop(boxed);
    is_held && is_boxed
}

// Whether a choice of three keeps all but the first, and so does a copy of it.
fn is_kept(rt: &impl Abort, alloc: Global) -> bool {
    let mut keep = Keep::all(alloc, 1, true).expect(rt, "memory");
    keep.set(0, false);
    keep.push(true).expect(rt, "memory");
    let more = keep.with(alloc, true).expect(rt, "memory");
    let copy = more.copy(alloc).expect(rt, "memory");
    let wanted = [false, true, true];
    let found = more.as_slice() == wanted.as_slice() && copy.as_slice() == wanted.as_slice();
    found && more.size() == 2
}

#[test]
fn memory_is_granted(rt: HostRuntime) {
    assert!(rt; is_filled(&rt, rt.alloc()));
    assert!(rt; is_kept(&rt, rt.alloc()));
}
