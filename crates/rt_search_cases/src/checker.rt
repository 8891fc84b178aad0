//! What the checker accepts and refuses, on two or three lines that can be followed by hand.

ghost use Rattle.std.specs.Prelude.{◌≡◌, length};

use rt_clause::{Adds, Lines, Lit};
use rt_derive::Checker;
use std::alloc::Global;
use std::process::Abort;

// The lines x0 or x1, and not x0 or x1.
fn two_lines(rt: &impl Abort, alloc: Global) -> Checker
    ensures { length (⟦<Checker as Adds>⟧.lines result) ≡ 2 }
{
    let mut checker = Checker::new(alloc);
    checker
        .add(&[Lit::of(0, true), Lit::of(1, true)])
        .expect(rt, "memory");
    checker
        .add(&[Lit::of(0, false), Lit::of(1, true)])
        .expect(rt, "memory");
    checker
}

#[test]
fn a_clause_follows_along_its_hints(rt: HostRuntime) {
    let second = [Lit::of(1, true)];
    let mut checker = two_lines(&rt, rt.alloc());
    assert!(rt; !checker.derive(&second, &[0]).expect(&rt, "memory"));
    assert!(rt; checker.derive(&second, &[0, 1]).expect(&rt, "memory"));
    // The clause is line 2 now, and by itself refutes nothing.
    assert!(rt; checker.derive(&second, &[2]).expect(&rt, "memory"));
    assert!(rt; !checker.derive(&second[..0], &[2]).expect(&rt, "memory"));
}

#[test]
fn two_literals_left_are_no_unit(rt: HostRuntime) {
    let mut checker = Checker::new(rt.alloc());
    checker
        .add(&[Lit::of(0, true), Lit::of(1, true), Lit::of(2, true)])
        .expect(&rt, "memory");
    assert!(rt;
        !checker
            .derive(&[Lit::of(0, true)], &[0])
            .expect(&rt, "memory")
    );
}

#[test]
fn refuting_lines(rt: HostRuntime) {
    let mut checker = Checker::new(rt.alloc());
    assert!(rt; !checker.refutes(None));
    let third = Lit::of(3, true);
    checker.add(&[third.negated()]).expect(&rt, "memory");
    assert!(rt; checker.refutes(Some(third)));
    assert!(rt; !checker.refutes(None));
    checker.add(&[third]).expect(&rt, "memory");
    let none = [third];
    assert!(rt; checker.derive(&none[..0], &[0, 1]).expect(&rt, "memory"));
    assert!(rt; checker.refutes(None));
}
