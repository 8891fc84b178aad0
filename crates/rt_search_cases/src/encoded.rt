//! A formula as clauses: its variables are counted, and its models are the choices of the goal.

use crate::drawing::{Drawing, Step};

#[test]
fn only_nodes_under_the_goal_have_variables(rt: HostRuntime) {
    let mut drawing = Drawing::new(&rt, rt.alloc(), 2);
    let goal = drawing.draw_all(&rt, &[Step::Row(0), Step::Row(1), Step::Any(&[0, 1])]);
    // Only the gate has a variable besides the rows: the nodes yes and no are not under the goal.
    assert!(rt; drawing.variables(&rt, goal) == 3);
}

#[test]
fn models_are_the_choices_of_the_goal(rt: HostRuntime) {
    let mut drawing = Drawing::new(&rt, rt.alloc(), 2);
    let goal = drawing.draw_all(&rt, &[Step::Row(0), Step::Row(1), Step::Any(&[0, 1])]);
    for (kept, wanted) in &[
        ([true, false], true),
        ([false, true], true),
        ([true, true], true),
        ([false, false], false),
    ] {
        assert!(rt; drawing.has_model(&rt, goal, *kept) == *wanted, "{kept:?}");
    }
}

#[test]
fn a_deep_formula(rt: HostRuntime) {
    let mut drawing = Drawing::new(&rt, rt.alloc(), 2);
    let gates = drawing.ladder(&rt, 50_000);
    let last = gates.last().copied().unwrap_or(0);
    // The two rows, and each gate.
    assert!(rt; drawing.variables(&rt, last) == 50_002);
}

#[test]
fn a_wide_gate(rt: HostRuntime) {
    let mut drawing = Drawing::new(&rt, rt.alloc(), 2);
    let gates = drawing.ladder(&rt, 100_000);
    let goal = drawing.draw(&rt, Step::Any(&gates));
    // The two rows, each gate and the wide one.
    assert!(rt; drawing.variables(&rt, goal) == 100_003);
}
