//! Learning from a conflict: the clause is derived, put at the end of the lines and taken as a step.

ghost use Rattle.std.specs.Prelude.{◌≡◌, [], ◌∷◌, ◌++◌, map, reverse, true, option_map, vec_items, IfSome, IfOk, IfErr};
ghost use Rattle.std.specs.Option.{option_to_list};
ghost use Rattle.rt_clause.specs.Literal.{Literal, negated};
ghost use Rattle.rt_solver.specs.Analysis.{clause_of, IsRested};
ghost use Rattle.rt_solver.specs.Propagating.{AreWatchedBefore, IsConflict, IsQueuedNow};
ghost use Rattle.rt_solver.specs.Fixed.{AreSmallest};
ghost use Rattle.rt_solver.specs.Picking.{IsOffered};
ghost use Rattle.rt_solver.specs.Seeking.{IsLed};
ghost use Rattle.rt_solver.specs.Search.{KeepsModels, IsReady, IsStep, IsFirst};

use crate::back::back;
use crate::base::Base;
use crate::decider::Decider;
use crate::explain::explain;
use crate::walk::Walk;
use rt_clause::{Lines, Lit};
use rt_store::{Clause, Step, Trail, Why};
use rt_value::NoMemory;
use std::alloc::Global;

fn negations(alloc: Global, found: &[Lit]) -> Result<Vec<Lit>, NoMemory>
    ensures { IfOk result (λ v. v.items ≡ map negated (reverse found.now)) }
{
    Ok(found.iter().rev().map(|l| l.negated()).collect(alloc)?)
}

/// The clause of what was found: its negations, oldest first, and that of what is assumed.
pub(crate) fn clause(
    alloc: Global,
    found: &[Lit],
    assume: &Option<Lit>,
) -> Result<Vec<Lit>, NoMemory>
    ensures { IfOk result (λ v. v.items ≡ clause_of found.now assume.now) }
{
    let mut lits = negations(alloc, found)?;
    if let Some(a) = assume {
        lits.push(a.negated())?;
    }
    Ok(lits)
}

fn negations_in_order(alloc: Global, found: &[Lit]) -> Result<Vec<Lit>, NoMemory>
    ensures { IfOk result (λ v. v.items ≡ map negated found.now) }
{
    Ok(found.iter().map(|l| l.negated()).collect(alloc)?)
}

/// The same literals, the negation of the latest one first and then that of the one before it.
pub(crate) fn copy(alloc: Global, found: &[Lit], assume: &Option<Lit>) -> Result<Clause, NoMemory>
    ensures { IfOk result (λ c. c ≡ map negated (found.now ++ option_to_list assume.now)) }
{
    let mut lits = negations_in_order(alloc, found)?;
    if let Some(a) = assume {
        lits.push(a.negated())?;
    }
    Clause::new(alloc, lits.as_slice())
}

fn latest(found: &[Lit]) -> Option<Lit>
    ensures { IsFirst found.now result }
{
    match found {
        [] => None,
        [late, ..] => Some(*late),
    }
}

/// Learns from a conflict, and goes back; or it refutes, and then names no line. After an error the
/// lines are as before.
pub(crate) fn learn<L: Lines + Drop>(
    alloc: Global,
    base: &mut Base<L>,
    assume: &Option<Lit>,
    first: usize,
    trail: &mut Trail,
    decider: &mut Decider,
    walk: &mut Walk,
    conflict: usize,
) -> Result<Option<Vec<Lit>>, NoMemory>
    requires ready { IsReady (L.lines base.old.0) assume.now trail.old }
    requires conflict { IsConflict (L.lines base.old.0) trail.old.steps conflict }
    requires before { AreWatchedBefore base.old.1 trail.old.steps }
    requires rested { IsRested trail.old.vars walk.old }
    requires offered { IsOffered decider.old trail.old.steps }
    ensures derived { IfOk result (λ _. L.derived base.new.0 ≡ L.derived base.old.0 ++ true ∷ []) }
    ensures sound { IfOk result (λ _. KeepsModels (L.lines base.old.0) (L.lines base.new.0)) }
    ensures vars { trail.new.vars ≡ trail.old.vars }
    ensures bound { decider.new.bound ≡ decider.old.bound }
    ensures offered { IfOk result (λ _. IsOffered decider.new trail.new.steps) }
    ensures smallest { IfOk result (λ _. AreSmallest trail.old.steps → AreSmallest trail.new.steps) }
    ensures led { IfOk result (λ _. (a : Literal) → IsLed a trail.old.steps → IsLed a trail.new.steps) }
    ensures rested { IfOk result (λ _. IsRested trail.new.vars walk.new) }
    ensures step { IfOk result (λ line. IsStep (L.lines base.old.0) (L.lines base.new.0) assume.now first trail.old trail.new (option_map vec_items line)) }
    ensures queued { IfOk result (λ line. IfSome (option_map vec_items line) (λ _. IsQueuedNow base.new.1 trail.new.steps)) }
    ensures err_lines { IfErr result (λ _. L.lines base.new.0 ≡ L.lines base.old.0) }
    ensures err_derived { IfErr result (λ _. L.derived base.new.0 ≡ L.derived base.old.0) }
{
    let cut = explain(base, assume, first, trail, conflict, walk)?;
    let line = clause(alloc, walk.found.as_slice(), assume)?;
    let copy = copy(alloc, walk.found.as_slice(), assume)?;
    base.derive(copy, line.as_slice(), walk.hints.as_slice())?;
    walk.rest(decider);
    match latest(walk.found.as_slice()) {
        None => Ok(None),
        Some(late) => {
            back(trail, decider, cut);
            let why = Why::Line(base.len() - 1);
            trail.push(Step {
                lit: late.negated(),
                why,
            });
            Ok(Some(line))
        }
    }
}
