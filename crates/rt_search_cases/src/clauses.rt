//! Lists of clauses, and one clause in its block of memory.

use rt_clause::{Clauses, Lit, ThinClause};
use std::mem::size_of;

#[test]
fn clauses_keep_their_order(rt: HostRuntime) {
    let mut clauses = Clauses::new(rt.alloc());
    let first = [Lit::of(0, true), Lit::of(1, false)];
    clauses.push(first.as_slice()).expect(&rt, "memory");
    clauses.push(&first[..0]).expect(&rt, "memory");
    assert!(rt; clauses.len() == 2);
    assert!(rt; clauses.at(0) == first.as_slice());
    assert!(rt; clauses.at(1).is_empty());
    assert!(rt; first[0].negated() == Lit::of(0, false));
}

#[test]
fn two_literals_change_places(rt: HostRuntime) {
    let (a, b, c) = (Lit::of(0, true), Lit::of(1, false), Lit::of(2, true));
    let lits = [a, b, c];
    let mut clause = ThinClause::of(rt.alloc(), lits.as_slice()).expect(&rt, "memory");
    let turned = [c, b, a];
    clause.swap(0, 2);
    assert!(rt; clause.lits() == turned.as_slice());
    clause.swap(1, 1);
    assert!(rt; clause.lits() == turned.as_slice());
    assert!(rt; clause.len() == 3);
    let empty = ThinClause::of(rt.alloc(), &lits[..0]).expect(&rt, "memory");
    assert!(rt; empty.len() == 0);
    assert!(rt; empty.lits().is_empty());
}

#[test]
fn a_clause_is_a_pointer_and_a_literal_a_word(rt: HostRuntime) {
    assert!(rt; size_of::<ThinClause>() == 8);
    assert!(rt; size_of::<Lit>() == 8);
    let last = Lit::of(0x3fff_ffff_ffff_ffff, false);
    assert!(rt; last.var() == 0x3fff_ffff_ffff_ffff);
    assert!(rt; !last.on() && last.negated().on());
}
