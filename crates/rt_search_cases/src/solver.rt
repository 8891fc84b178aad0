//! The solver on clauses whose answer is known: two variables, pigeons in holes, and 200 clauses
//! with a model.

ghost use Rattle.std.specs.Prelude.{◌<◌, ◌≤◌, IfSome};

use crate::recorded::Recorded;
use rt_clause::{Adds, Lines, Lit, LitList};
use rt_derive::Checker;
use rt_solver::{Found, Order, Solver};
use rt_value::{List, NoMemory};
use std::alloc::Global;
use std::process::Abort;

fn solver(rt: &impl Abort, alloc: Global) -> Solver<Checker> {
    Solver::new(alloc, Checker::new(alloc)).expect(rt, "memory")
}

// The values of both variables in the model that is found.
fn model(rt: &impl Abort, solver: &mut Solver<Checker>, order: Order) -> [bool; 2] {
    match solver.solve(None, 2, Some(4), order).expect(rt, "memory") {
        Found::Model(keep) => {
            assert!(rt; keep.len() == 2);
            [keep.is(0), keep.is(1)]
        }
        _ => panic!(rt; "there is no model"),
    }
}

// Whether the lines are refuted within the budget.
fn is_refuted<L: Lines + Drop>(
    rt: &impl Abort,
    solver: &mut Solver<L>,
    assume: Option<Lit>,
    first: usize,
    budget: Option<u64>,
) -> bool
    requires { IfSome budget (λ b. 1 ≤ b) }
{
    let found = solver
        .solve(assume, first, budget, Order::Free)
        .expect(rt, "memory");
    let is_refuted = matches!(&found, Found::Refuted);
    drop(found);
    is_refuted
}

// Whether there is a model of a clause of both variables.
fn either_of_two(rt: &impl Abort, solver: &mut Solver<Checker>) -> bool {
    let both = [Lit::of(0, true), Lit::of(1, true)];
    solver.add(&both).expect(rt, "memory");
    let either = model(rt, solver, Order::Free);
    either[0] || either[1]
}

// Whether, once the second one is denied, the first can't be denied too, and is true.
fn the_first_alone(rt: &impl Abort, solver: &mut Solver<Checker>) -> bool {
    solver.add(&[Lit::of(1, false)]).expect(rt, "memory");
    let denied = Lit::of(0, false);
    let is_refuted = is_refuted(rt, solver, Some(denied), 2, Some(4));
    let is_checked = solver.lines().refutes(Some(denied));
    let alone = model(rt, solver, Order::Free);
    is_refuted && is_checked && alone[0] && !alone[1]
}

// Whether, once the first one is denied too, there is no model.
fn neither_of_two(rt: &impl Abort, solver: &mut Solver<Checker>) -> bool {
    solver.add(&[Lit::of(0, false)]).expect(rt, "memory");
    is_refuted(rt, solver, None, 2, Some(4)) && solver.lines().refutes(None)
}

#[test]
fn clauses_may_be_added_between_calls(rt: HostRuntime) {
    let mut solver = solver(&rt, rt.alloc());
    assert!(rt; either_of_two(&rt, &mut solver));
    assert!(rt; the_first_alone(&rt, &mut solver));
    assert!(rt; neither_of_two(&rt, &mut solver));
}

// Whether there is a model at which the second of three variables is false and a question is true.
fn is_found(rt: &impl Abort, solver: &mut Solver<Checker>, question: Lit) -> bool
    requires { question.var < 3 }
{
    let second = Lit::of(1, false);
    let found = solver.seek(Some(second), question, 3).expect(rt, "memory");
    match found {
        None => {
            let denial = solver.lines().denial(Some(second), question);
            assert!(rt; denial.is_some());
            false
        }
        Some(keep) => {
            assert!(rt; keep.len() == 3);
            !keep.is(1) && keep.is(question.var()) == question.on()
        }
    }
}

#[test]
fn questions_under_one_assumption(rt: HostRuntime) {
    let mut solver = solver(&rt, rt.alloc());
    let either = [Lit::of(0, true), Lit::of(1, true)];
    let follows = [Lit::of(0, false), Lit::of(2, true)];
    solver.add(&either).expect(&rt, "memory");
    solver.add(&follows).expect(&rt, "memory");
    assert!(rt; !is_found(&rt, &mut solver, Lit::of(2, false)));
    assert!(rt; is_found(&rt, &mut solver, Lit::of(2, true)));
    assert!(rt; !is_found(&rt, &mut solver, Lit::of(0, false)));
    let free = solver
        .seek(None, Lit::of(2, false), 3)
        .expect(&rt, "memory");
    assert!(rt; free.is_some());
}

// In fixed order both are decided, and each is set to true.
#[test]
fn both_of_two_in_fixed_order(rt: HostRuntime) {
    let mut solver = solver(&rt, rt.alloc());
    let both = [Lit::of(0, true), Lit::of(1, true)];
    solver.add(&both).expect(&rt, "memory");
    assert!(rt; model(&rt, &mut solver, Order::Fixed) == [true, true]);
}

// The variable that puts a pigeon into a hole, of three holes or of six.
fn place(pigeon: usize, hole: usize, holes: Holes) -> Lit
    requires pigeon { pigeon < 8 }
    requires hole { hole < 8 }
{
    match holes {
        Holes::Three => Lit::of(pigeon * 3 + hole, true),
        Holes::Six => Lit::of(pigeon * 6 + hole, true),
    }
}

#[derive(Clone, Copy)]
enum Holes {
    Three,
    Six,
}

// A clause: the pigeon is in one of the holes.
fn is_in_a_hole(
    alloc: Global,
    pigeon: usize,
    count: usize,
    holes: Holes,
) -> Result<LitList, NoMemory>
    requires pigeon { pigeon < 8 }
    requires holes { count < 7 }
{
    let mut line = LitList::new(alloc);
    for hole in 0..count {
        line.push(place(pigeon, hole, holes))?;
    }
    Ok(line)
}

// One pigeon more than there are holes, each in a hole, and no two in one.
fn add_pigeons<L: Lines + Drop>(
    alloc: Global,
    solver: &mut Solver<L>,
    count: usize,
    holes: Holes,
) -> Result<(), NoMemory>
    requires { count < 7 }
{
    for pigeon in 0..count + 1 {
        let line = is_in_a_hole(alloc, pigeon, count, holes)?;
        solver.add(line.as_slice())?;
        for hole in 0..count {
            for other in 0..pigeon {
                let first = place(other, hole, holes).negated();
                solver.add(&[first, place(pigeon, hole, holes).negated()])?;
            }
        }
    }
    Ok(())
}

// The clauses that spend a budget of one.
fn spent(rt: &impl Abort, solver: &mut Solver<Recorded>) -> List<List<Lit>> {
    match solver
        .solve(None, 12, Some(1), Order::Free)
        .expect(rt, "memory")
    {
        Found::Spent(list) => list,
        _ => panic!(rt; "the budget is not spent"),
    }
}

// Whether the clause that spends a budget of one comes after the 22 given lines, and stays there.
fn keeps_its_clause(rt: &impl Abort, solver: &mut Solver<Recorded>, spent: &[List<Lit>]) -> bool {
    let [learned] = spent else {
        return false;
    };
    let is_next = solver.lines().len() == 23 && solver.lines().has(22, learned.as_slice());
    let is_refuted = is_refuted(rt, solver, None, 12, Some(4096)) && solver.lines().refutes(None);
    is_next && is_refuted && solver.lines().has(22, learned.as_slice())
}

#[test]
fn four_pigeons_in_three_holes(rt: HostRuntime) {
    let mut solver = Solver::new(rt.alloc(), Recorded::new(rt.alloc())).expect(&rt, "memory");
    add_pigeons(rt.alloc(), &mut solver, 3, Holes::Three).expect(&rt, "memory");
    assert!(rt; solver.lines().len() == 22);
    let spent = spent(&rt, &mut solver);
    assert!(rt; keeps_its_clause(&rt, &mut solver, spent.as_slice()));
}

#[test]
fn seven_pigeons_in_six_holes(rt: HostRuntime) {
    let mut solver = solver(&rt, rt.alloc());
    add_pigeons(rt.alloc(), &mut solver, 6, Holes::Six).expect(&rt, "memory");
    assert!(rt; is_refuted(&rt, &mut solver, None, 42, None));
}

// Three literals over 60 variables, of a sequence of numbers. The first one is true where the even
// variables alone are.
fn next_clause(state: &mut u32) -> [Lit; 3] {
    let mut lits = [Lit::of(0, true); 3];
    for i in 0..3 {
        *state = state.wrapping_mul(1_664_525).wrapping_add(1_013_904_223);
        let var = (*state / 65_536 % 60) as usize;
        let even = var % 2 == 0;
        let on = if i == 0 { even } else { *state / 4096 % 2 == 0 };
        lits[i] = Lit::of(var, on);
    }
    lits
}

fn add_two_hundred(solver: &mut Solver<Checker>) -> Result<(), NoMemory> {
    let mut state: u32 = 1;
    for _ in 0..200 {
        let lits = next_clause(&mut state);
        solver.add(&lits)?;
    }
    Ok(())
}

// 200 clauses of a fixed sequence, which the even variables alone make true.
#[test]
fn two_hundred_clauses(rt: HostRuntime) {
    let mut solver = solver(&rt, rt.alloc());
    add_two_hundred(&mut solver).expect(&rt, "memory");
    let found = solver
        .solve(None, 60, None, Order::Free)
        .expect(&rt, "memory");
    assert!(rt; matches!(&found, Found::Model(_)));
}
