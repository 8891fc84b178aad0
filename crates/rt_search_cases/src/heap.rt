//! The solver's heap of variables: the order in which they come out, by their activities.

ghost use Rattle.std.specs.Prelude.{◌≡◌, ◌<◌, length};

use rt_store::Heap;
use rt_value::List;
use std::alloc::Global;
use std::process::Abort;

// Puts in all variables.
fn fill(heap: &mut Heap)
    ensures { length heap.new ≡ length heap.old }
{
    for var in 0..heap.len() {
        heap.put(var);
    }
}

// A heap that has so many variables, and each in it.
fn full(rt: &impl Abort, alloc: Global, count: usize) -> Heap
    ensures { length result ≡ count }
{
    let mut heap = Heap::new(alloc);
    heap.grow(count).expect(rt, "memory");
    fill(&mut heap);
    heap
}

// Raises a variable so many times.
fn raise(heap: &mut Heap, var: usize, times: usize)
    requires { var < length heap.old }
    ensures { length heap.new ≡ length heap.old }
{
    for _ in 0..times {
        heap.raise(var);
    }
}

// Takes out all variables, and gives them in their order.
fn taken(rt: &impl Abort, alloc: Global, heap: &mut Heap) -> List<usize> {
    let mut vars = List::new(alloc);
    for _ in 0..heap.len() {
        if let Some(var) = heap.take() {
            vars.push(var).expect(rt, "memory");
        }
    }
    vars
}

// Whether all variables, taken out, come in this order.
fn come_as(rt: &impl Abort, alloc: Global, heap: &mut Heap, order: &[usize]) -> bool {
    let vars = taken(rt, alloc, heap);
    let found = vars.as_slice() == order;
    drop(vars);
    found
}

#[test]
fn equal_activities_come_by_number(rt: HostRuntime) {
    let mut heap = full(&rt, rt.alloc(), 5);
    let came = come_as(&rt, rt.alloc(), &mut heap, &[0, 1, 2, 3, 4]);
    assert!(rt; came);
}

#[test]
fn the_greatest_activity_comes_first(rt: HostRuntime) {
    let mut heap = full(&rt, rt.alloc(), 5);
    heap.raise(3);
    heap.raise(1);
    heap.raise(3);
    let came = come_as(&rt, rt.alloc(), &mut heap, &[3, 1, 0, 2, 4]);
    assert!(rt; came);
}

// After sixty agings of an eightieth part each, one raise counts for more than two before.
#[test]
fn later_raises_count_for_more(rt: HostRuntime) {
    let mut heap = full(&rt, rt.alloc(), 5);
    raise(&mut heap, 2, 2);
    for _ in 0..60 {
        heap.age();
    }
    heap.raise(4);
    let came = come_as(&rt, rt.alloc(), &mut heap, &[4, 2, 0, 1, 3]);
    assert!(rt; came);
}

#[test]
fn variables_outside_keep_their_activities(rt: HostRuntime) {
    let mut heap = full(&rt, rt.alloc(), 4);
    heap.raise(1);
    heap.clear();
    assert!(rt; heap.take().is_none());
    raise(&mut heap, 2, 2);
    assert!(rt; !heap.holds(2));
    fill(&mut heap);
    assert!(rt; heap.holds(2));
    assert!(rt; heap.take() == Some(2));
    assert!(rt; heap.take() == Some(1));
    fill(&mut heap);
    let came = come_as(&rt, rt.alloc(), &mut heap, &[2, 1, 0, 3]);
    assert!(rt; came);
}

#[test]
fn new_variables_are_outside(rt: HostRuntime) {
    let mut heap = full(&rt, rt.alloc(), 2);
    heap.raise(1);
    heap.grow(4).expect(&rt, "memory");
    assert!(rt; heap.len() == 4);
    assert!(rt; !heap.holds(3));
    heap.put(3);
    let came = come_as(&rt, rt.alloc(), &mut heap, &[1, 0, 3]);
    assert!(rt; came);
}

// Variable v is raised 37 v mod 100 times, a number of its own, and 73 is the inverse of 37.
#[test]
fn a_hundred_variables_come_by_their_activities(rt: HostRuntime) {
    let mut heap = full(&rt, rt.alloc(), 100);
    for var in 0..100 {
        raise(&mut heap, var, var * 37 % 100);
    }
    let vars = taken(&rt, rt.alloc(), &mut heap);
    for (i, var) in vars.as_slice().iter().enumerate() {
        assert!(rt; i < 100 && *var == (99 - i) * 73 % 100);
    }
    assert!(rt; vars.len() == 100);
}

// Activities and step are halved many times on the way, and the latest raise still counts most.
#[test]
fn a_million_raises_that_grow(rt: HostRuntime) {
    let mut heap = full(&rt, rt.alloc(), 10);
    for i in 0..1_000_000 {
        heap.raise(i % 10);
        heap.age();
    }
    let falling = [9, 8, 7, 6, 5, 4, 3, 2, 1, 0];
    let came = come_as(&rt, rt.alloc(), &mut heap, &falling);
    assert!(rt; came);
}
