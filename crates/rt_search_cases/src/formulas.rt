//! Gates that are simplified as they are made. Two steps with one node are the test of a rule.

use crate::drawing::{Drawing, Step};

// Kept rows, and whether the first of two is among them.
const CHOICES: [(&[usize], bool); 4] = [(&[], false), (&[0], true), (&[0, 1], true), (&[1], false)];

#[test]
fn a_row_or_its_negation(rt: HostRuntime) {
    let mut drawing = Drawing::new(&rt, rt.alloc(), 2);
    let either = drawing.draw_all(&rt, &[Step::Row(0), Step::Not(0), Step::Any(&[0, 1])]);
    for (kept, first) in &CHOICES {
        assert!(rt; drawing.value(&rt, either, kept), "{kept:?}");
        assert!(rt; drawing.value(&rt, 0, kept) == *first, "{kept:?}");
    }
}

#[test]
fn gates_that_are_no_gates(rt: HostRuntime) {
    let mut drawing = Drawing::new(&rt, rt.alloc(), 2);
    drawing.draw_all(
        &rt,
        &[
            Step::Yes,
            Step::No,
            Step::Any(&[]),
            Step::All(&[]),
            Step::Row(0),
            Step::All(&[0, 4, 4]),
            Step::Not(1),
            Step::Not(0),
            Step::Not(4),
            Step::Not(8),
            Step::Row(1),
            Step::Any(&[1, 10, 10]),
            Step::Any(&[4]),
            Step::All(&[0, 0]),
            Step::Any(&[1, 1]),
        ],
    );
    for (gate, same) in &[
        (2, 1),
        (3, 0),
        (5, 4),
        (6, 0),
        (7, 1),
        (9, 4),
        (11, 10),
        (12, 4),
        (13, 0),
        (14, 1),
    ] {
        assert!(rt; drawing.number(*gate) == drawing.number(*same), "{gate}");
    }
}

// What decides a gate, and what is left out of one.
#[test]
fn gates_that_are_decided(rt: HostRuntime) {
    let mut drawing = Drawing::new(&rt, rt.alloc(), 2);
    drawing.draw_all(
        &rt,
        &[
            Step::Yes,
            Step::No,
            Step::Row(0),
            Step::Row(1),
            Step::Not(2),
            Step::All(&[2, 1, 3]),
            Step::All(&[2, 3, 4]),
            Step::All(&[4, 3, 2]),
            Step::Any(&[2, 0, 3]),
            Step::Any(&[2, 3, 4]),
            Step::Any(&[4, 3, 2]),
            Step::All(&[2, 3]),
            Step::All(&[2, 0, 3, 3, 2]),
            Step::Any(&[2, 3]),
            Step::Any(&[2, 1, 3, 3, 2]),
        ],
    );
    for (gate, same) in &[
        (5, 1),
        (6, 1),
        (7, 1),
        (8, 0),
        (9, 0),
        (10, 0),
        (12, 11),
        (14, 13),
    ] {
        assert!(rt; drawing.number(*gate) == drawing.number(*same), "{gate}");
    }
    assert!(rt; drawing.number(11) != drawing.number(13));
}

// What was drawn before is found again: rows, negations and gates.
#[test]
fn an_entry_has_one_node(rt: HostRuntime) {
    let mut drawing = Drawing::new(&rt, rt.alloc(), 2);
    let steps = [
        Step::Row(0),
        Step::Row(1),
        Step::Not(0),
        Step::All(&[0, 1]),
        Step::Any(&[1, 2]),
    ];
    drawing.draw_all(&rt, &steps);
    let len = drawing.len();
    drawing.draw_all(&rt, &steps);
    assert!(rt; drawing.len() == len);
    for at in 0..5 {
        assert!(rt; drawing.number(at + 5) == drawing.number(at), "{at}");
    }
}

// Children, the node of their gate counted after those that are drawn, and the number of nodes
// then.
const GATES: [(&[usize], usize, usize); 4] = [
    (&[5, 8], 0, 1),
    (&[2, 5, 6, 7, 8], 4, 5),
    (&[5, 6, 7], 3, 5),
    (&[5, 8, 7], 5, 6),
];

// Of children that come one after another and are an `all` over the same first child, that child
// is written once.
#[test]
fn a_run_shares_its_first_child(rt: HostRuntime) {
    let mut drawing = Drawing::new(&rt, rt.alloc(), 5);
    // The rows s, t, u, v and w, and the gates st, suv, sw and vw.
    drawing.draw_all(
        &rt,
        &[
            Step::Row(0),
            Step::Row(1),
            Step::Row(2),
            Step::Row(3),
            Step::Row(4),
            Step::All(&[0, 1]),
            Step::All(&[0, 2, 3]),
            Step::All(&[0, 4]),
            Step::All(&[3, 4]),
        ],
    );
    let n = drawing.len();
    for (children, node, len) in &GATES {
        let gate = drawing.draw(&rt, Step::Any(children));
        assert!(rt; drawing.number(gate) == n + *node);
        assert!(rt; drawing.len() == n + *len);
    }
}

#[test]
fn a_gate_of_a_million_children(rt: HostRuntime) {
    let mut drawing = Drawing::new(&rt, rt.alloc(), 2);
    let children = drawing.ladder(&rt, 1_000_000);
    let before = drawing.len();
    let gate = drawing.draw(&rt, Step::All(&children));
    assert!(rt; drawing.number(gate) == before && drawing.len() == before + 1);
}
