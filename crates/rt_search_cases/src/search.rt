//! The outputs of the counter, and the search on small formulas: the least choice, the first of
//! them, and budgets of one clause.

ghost use Rattle.std.specs.Prelude.{◌<◌, ◌≤◌, IfSome};

use crate::drawing::{Drawing, Step};
use rt_clause::{Adds, Lit, Named};
use rt_derive::Checker;
use rt_search::Best;
use rt_solver::{Found, Order, Solver};
use rt_totalizer::count;
use std::alloc::Global;
use std::process::Abort;

// The values of two literals in the model that was found.
fn values_in(rt: &impl Abort, found: &Found, lits: &[Lit]) -> [bool; 2] {
    let mut values = [false; 2];
    match found {
        Found::Model(model) => {
            for (i, lit) in lits.iter().enumerate() {
                assert!(rt; i < 2 && lit.var() < model.len());
                values[i] = model.is(lit.var()) == lit.on();
            }
        }
        _ => panic!(rt; "there is no model"),
    }
    values
}

// The values of both outputs of a counter of three rows, where just these are kept.
fn outputs(rt: &impl Abort, alloc: Global, kept: [bool; 3]) -> [bool; 2] {
    let mut solver = Solver::new(alloc, Checker::new(alloc)).expect(rt, "memory");
    let mut named = Named::of(3, 3, Lit::of(0, true));
    let counter = count(alloc, 2, &mut named, &mut solver).expect(rt, "memory");
    for row in 0..3 {
        solver.add(&[Lit::of(row, kept[row])]).expect(rt, "memory");
    }
    let found = solver
        .solve(None, 3, None, Order::Free)
        .expect(rt, "memory");
    drop(solver);
    values_in(rt, &found, counter.outs.as_slice())
}

#[test]
fn outputs_of_three_rows(rt: HostRuntime) {
    let alloc = rt.alloc();
    assert!(rt; outputs(&rt, alloc, [true, false, true]) == [true, true]);
    assert!(rt; outputs(&rt, alloc, [false, true, false]) == [true, false]);
    assert!(rt; outputs(&rt, alloc, [false, false, false]) == [false, false]);
}

// The number of rows of the least choice, and None if the goal is true nowhere.
fn least_size(rt: &impl Abort, drawing: &Drawing, goal: usize) -> Option<usize> {
    match drawing.search(rt, goal, None).best {
        Best::Least(keep) => Some(keep.size()),
        Best::Never => None,
        Best::Spent(_) => panic!(rt; "there is no budget"),
    }
}

#[test]
fn goals_over_two_rows(rt: HostRuntime) {
    let mut drawing = Drawing::new(&rt, rt.alloc(), 2);
    drawing.draw_all(
        &rt,
        &[
            Step::Row(0),
            Step::Row(1),
            Step::Any(&[0, 1]),
            Step::Not(0),
            Step::All(&[0, 3]),
            Step::Yes,
        ],
    );
    for (goal, size) in [(2, Some(1)), (4, None), (5, Some(0))] {
        assert!(rt; least_size(&rt, &drawing, goal) == size, "{goal}");
    }
}

// Whether the least choice keeps just the first and the last of four rows.
fn keeps_the_outer(rt: &impl Abort, drawing: &Drawing, goal: usize, budget: Option<u64>) -> bool
    requires { IfSome budget (λ b. 1 ≤ b) }
{
    match drawing.search(rt, goal, budget).best {
        Best::Least(keep) => keep.as_slice() == [true, false, false, true].as_slice(),
        _ => false,
    }
}

// The goal is true with the two rows in the middle and with the two others. The first row's pair
// comes first. That is so without a budget, within one that a search over the rows could spend,
// and within one that it could not.
#[test]
fn first_of_two_pairs(rt: HostRuntime) {
    let mut drawing = Drawing::new(&rt, rt.alloc(), 4);
    let goal = drawing.draw_all(
        &rt,
        &[
            Step::Row(0),
            Step::Row(1),
            Step::Row(2),
            Step::Row(3),
            Step::All(&[0, 3]),
            Step::All(&[1, 2]),
            Step::Any(&[5, 4]),
        ],
    );
    for budget in [None, Some(15), Some(16)] {
        assert!(rt; keeps_the_outer(&rt, &drawing, goal, budget), "{budget:?}");
    }
}

// Whether one clause spends the budget, before any choice is found.
fn is_spent_by_one_clause(rt: &impl Abort, drawing: &Drawing, goal: usize) -> bool {
    match drawing.search(rt, goal, Some(1)).best {
        Best::Spent(spent) => {
            matches!(&spent.best, None) && !spent.least && spent.nogoods.len() == 1
        }
        _ => false,
    }
}

// Two pairs of rows. Of each the first is kept alone, or the second isn't kept with it. What is
// decided first fails in either pair, and each time that teaches one clause. The first one spends
// the budget of the search with all variables, and the other one that of the search with the
// rows.
#[test]
fn a_budget_of_one(rt: HostRuntime) {
    let mut drawing = Drawing::new(&rt, rt.alloc(), 4);
    let goal = drawing.draw_all(
        &rt,
        &[
            Step::Row(0),
            Step::Row(1),
            Step::Any(&[0, 1]),
            Step::Not(1),
            Step::Any(&[0, 3]),
            Step::Row(2),
            Step::Row(3),
            Step::Any(&[5, 6]),
            Step::Not(6),
            Step::Any(&[5, 8]),
            Step::All(&[2, 4, 7, 9]),
        ],
    );
    assert!(rt; is_spent_by_one_clause(&rt, &drawing, goal));
}

// Whether the budget is spent where the last two of ten rows are known to be as few as can be.
fn is_spent_on_the_first(rt: &impl Abort, drawing: &Drawing, goal: usize) -> bool {
    match drawing.search(rt, goal, Some(1)).best {
        Best::Spent(spent) => {
            let is_best = match &spent.best {
                Some(keep) => {
                    keep.as_slice()
                        == [
                            false, false, false, false, false, false, false, false, true, true,
                        ]
                        .as_slice()
                }
                None => false,
            };
            is_best && spent.least && spent.nogoods.len() == 1
        }
        _ => false,
    }
}

// The last two rows, or the first one with one of the next four and one of three more. That no
// row alone will do is known without a clause to be kept. Whether two rows will do, the first
// among them, takes more than one.
#[test]
fn a_budget_for_the_least_size(rt: HostRuntime) {
    let mut drawing = Drawing::new(&rt, rt.alloc(), 10);
    let goal = drawing.draw_all(
        &rt,
        &[
            Step::Row(0),
            Step::Row(1),
            Step::Row(2),
            Step::Row(3),
            Step::Row(4),
            Step::Row(5),
            Step::Row(6),
            Step::Row(7),
            Step::Row(8),
            Step::Row(9),
            Step::Any(&[1, 2, 3, 4]),
            Step::Any(&[5, 6, 7]),
            Step::All(&[0, 10, 11]),
            Step::All(&[8, 9]),
            Step::Any(&[12, 13]),
        ],
    );
    assert!(rt; is_spent_on_the_first(&rt, &drawing, goal));
}

// Any of the five rows of a group.
fn any_of_five(rt: &impl Abort, drawing: &mut Drawing, group: usize) -> usize
    requires { group < 20 }
{
    let mut rows = [0; 5];
    for row in 0..5 {
        rows[row] = drawing.draw(rt, Step::Row(5 * group + row));
    }
    drawing.draw(rt, Step::Any(&rows))
}

// The number of conflicts after which the search ends.
fn conflicts(rt: &impl Abort, drawing: &Drawing, goal: usize) -> u64 {
    drawing.search(rt, goal, None).conflicts
}

// One row of each of twenty groups of five. Clauses over all variables refute the bound in about
// as many conflicts as there are groups. Clauses over rows would take some hundred thousand.
#[test]
fn twenty_groups_of_five(rt: HostRuntime) {
    let mut drawing = Drawing::new(&rt, rt.alloc(), 100);
    let mut groups = [0; 20];
    for group in 0..20 {
        groups[group] = any_of_five(&rt, &mut drawing, group);
    }
    let goal = drawing.draw(&rt, Step::All(&groups));
    assert!(rt; conflicts(&rt, &drawing, goal) < 2_000);
}

// The counter goes up to 401.
#[test]
fn every_fifth_of_two_thousand_rows(rt: HostRuntime) {
    let mut drawing = Drawing::new(&rt, rt.alloc(), 2_000);
    let mut fifth = [0; 400];
    for i in 0..400 {
        fifth[i] = drawing.draw(&rt, Step::Row(5 * i));
    }
    let goal = drawing.draw(&rt, Step::All(&fifth));
    assert!(rt; least_size(&rt, &drawing, goal) == Some(400));
}

// Any of a thousand rows: each alone is a least choice. Few questions find the first one. A question
// after each choice would take half a million clauses.
#[test]
fn first_of_a_thousand_rows(rt: HostRuntime) {
    let mut drawing = Drawing::new(&rt, rt.alloc(), 1_000);
    let mut rows = [0; 1_000];
    for row in 0..1_000 {
        rows[row] = drawing.draw(&rt, Step::Row(row));
    }
    let goal = drawing.draw(&rt, Step::Any(&rows));
    let found = drawing.search(&rt, goal, None);
    assert!(rt; found.clauses < 50_000);
    match found.best {
        Best::Least(keep) => {
            assert!(rt; keep.size() == 1);
            assert!(rt; keep.as_slice().first() == Some(&true));
        }
        _ => panic!(rt; "the goal is true with any row"),
    }
}
