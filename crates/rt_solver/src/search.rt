//! The loop of a search: propagate, learn from a conflict, decide. Its contract is `IsEnding`.

ghost use Rattle.std.specs.Prelude.{◌≡◌, ◌<◌, ◌≤◌, ◌^◌, List as Seq, [], ◌∷◌, ◌++◌, None, Some, IfSome, IfOk, IsTrue, ◌↔◌};
ghost use Rattle.rt_clause.specs.Literal.{Literal};
ghost use Rattle.rt_store.specs.Trail.{decisions};
ghost use Rattle.rt_solver.specs.declared.order.Order.TheVariants.{Fixed};
ghost use Rattle.rt_solver.specs.Analysis.{IsRested};
ghost use Rattle.rt_solver.specs.Fixed.{IfFixed, AreSmallest};
ghost use Rattle.rt_solver.specs.Picking.{IsOffered};
ghost use Rattle.rt_solver.specs.Search.{line_of, IsReady};
ghost use Rattle.rt_solver.specs.Solving.{HasSearched, IsEnding, IsSettled, IsUnspentEnding};

use crate::base::Base;
use crate::decider::Decider;
use crate::deny::deny;
use crate::learn::learn;
use crate::next::{Next, choose};
use crate::order::Order;
use crate::walk::Walk;
use rt_clause::{Lines, Lit};
use rt_store::{Step, Trail, Why};
use rt_value::{List, NoMemory};
use std::alloc::Global;

/// How a search ended: `Missed` says that the question is false where the assumption is true, and a
/// line says so then.
#[derive(Drop)]
pub enum Ending {
    Whole,
    Refuted,
    Spent(List<List<Lit>>),
    Missed,
}

fn is_spent(budget: Option<u64>, learned: usize) -> bool
    ensures { IsTrue result ↔ (budget ≡ Some learned) }
{
    match budget {
        None => false,
        Some(most) => most == learned as u64,
    }
}

// A learned line without the assumption's negation.
fn clause_of_line(alloc: Global, line: &[Lit], assume: &Option<Lit>) -> Result<List<Lit>, NoMemory>
    ensures { IfOk result (λ c. (clause : Seq Literal) → line.now ≡ line_of assume.now clause → c ≡ clause) }
{
    match (assume, line) {
        (Some(_), [clause @ .., _]) => List::from_slice(alloc, clause),
        _ => List::from_slice(alloc, line),
    }
}

// Keeps the clause of a learned line, where there is a budget.
fn keep(
    alloc: Global,
    kept: &mut List<List<Lit>>,
    budget: Option<u64>,
    line: &[Lit],
    assume: &Option<Lit>,
) -> Result<(), NoMemory>
    ensures { IfOk result (λ _. IfSome budget (λ _. (clause : Seq Literal) → line.now ≡ line_of assume.now clause → kept.new ≡ kept.old ++ clause ∷ [])) }
{
    match budget {
        None => Ok(()),
        Some(_) => {
            kept.push(clause_of_line(alloc, line, assume)?)?;
            Ok(())
        }
    }
}

/// Searches until each variable has a value, the lines refute, the budget is spent, or the question
/// is false before any decision.
pub(crate) fn run<L: Lines + Drop>(
    alloc: Global,
    base: &mut Base<L>,
    assume: &Option<Lit>,
    first: usize,
    budget: Option<u64>,
    order: Order,
    decider: &mut Decider,
    trail: &mut Trail,
    walk: &mut Walk,
    question: &Option<Lit>,
) -> Result<Ending, NoMemory>
    requires ready { IsReady (L.lines base.old.0) assume.now trail.old }
    requires rested { IsRested trail.old.vars walk.old }
    requires few { trail.old.vars ≤ 2 ^ 62 }
    requires first { first ≤ trail.old.vars }
    requires undecided { decisions trail.old.steps ≡ [] }
    requires budget { IfSome budget (λ b. 1 ≤ b) }
    requires bound { decider.old.bound ≤ first }
    requires fixed { order ≡ Fixed → decider.old.bound ≡ 0 }
    requires offered { IsOffered decider.old trail.old.steps }
    requires asked { IfSome question.now (λ a. a.var < decider.old.bound) }
    ensures vars { trail.new.vars ≡ trail.old.vars }
    ensures ending { IfOk result (λ ending. IsEnding (L.lines base.old.0) (L.lines base.new.0) assume.now first trail.new budget ending) }
    ensures settled { IfOk result (IsSettled (L.lines base.new.0) assume.now question.now trail.new.steps) }
    ensures smallest { IfOk result (λ _. IfFixed order (AreSmallest trail.new.steps)) }
    ensures unspent { IfOk result (λ ending. IsUnspentEnding (L.lines base.old.0) (L.lines base.new.0) budget ending) }
    ensures searched { HasSearched (L.lines base.old.0) (L.lines base.new.0) (L.derived base.old.0) (L.derived base.new.0) assume.now question.now first trail.old.vars }
{
    let start = base.len();
    let mut kept: List<List<Lit>> = List::new(alloc);
    let mut conflict = base.begin(trail)?;
    'search: loop {
        match conflict {
            Some(number) => match learn(alloc, base, assume, first, trail, decider, walk, number)? {
                None => return Ok(Ending::Refuted),
                Some(line) => {
                    keep(alloc, &mut kept, budget, line.as_slice(), assume)?;
                    if is_spent(budget, base.len() - start) {
                        return Ok(Ending::Spent(kept));
                    }
                    let from = trail.len() - 1;
                    conflict = base.propagate(trail, from)?;
                }
            },
            None => match choose(order, question, decider, trail) {
                Next::Whole => return Ok(Ending::Whole),
                Next::Missed(asked) => {
                    deny(alloc, base, assume, asked, trail, walk)?;
                    return Ok(Ending::Missed);
                }
                Next::Decide(lit) => {
                    let from = trail.len();
                    trail.push(Step {
                        lit,
                        why: Why::Decided,
                    });
                    conflict = base.propagate(trail, from)?;
                }
            },
        }
    }
}
