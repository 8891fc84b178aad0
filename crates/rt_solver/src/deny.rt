//! The line that says that a question is false where the assumption is true, from the reasons of a
//! trail on which it is false before any decision.
//!
//! An example with the lines -1 2 and -2 -3: x1 is assumed, which gives x2 and -x3, and x3 is asked.
//! Back from -x3 its reason -2 -3 leads to x2, and that one's reason -1 2 to the assumption. So the line
//! is -3 -1, and the two lines are its hints.

ghost use Rattle.std.specs.Prelude.{◌≡◌, ℕ, ◌+◌, ◌≤◌, ◌<◌, [], ◌∷◌, length, true, OnOk, OnErr, ◌⊎◌};
ghost use Rattle.std.specs.List.{All as Each};
ghost use Rattle.rt_clause.specs.Literal.{Literal, negated};
ghost use Rattle.rt_clause.specs.Lists.{has, is_false, line_at, follows};
ghost use Rattle.rt_store.specs.declared.trail.Step.{Step};
ghost use Rattle.rt_store.specs.Trail.{lits, oldest, decisions, IsFounded};
ghost use Rattle.rt_solver.specs.Looking.{AreBelow};
ghost use Rattle.rt_solver.specs.Analysis.{IsRested, IsWalked, clause_of};
ghost use Rattle.rt_solver.specs.Search.{IsReady};
ghost use Rattle.rt_solver.specs.Seeking.{IsFalseAtRoot, HasDenied};

use crate::base::Base;
use crate::explain::resolve;
use crate::lead::look;
use crate::learn::{clause, copy};
use crate::walk::Walk;
use rt_clause::{Lines, Lit};
use rt_store::{Trail, Why};
use rt_value::NoMemory;
use std::alloc::Global;

// The place of the step of a literal.
fn place_of(trail: &Trail, lit: Lit) -> usize
    requires { has (lits trail.now.steps) lit ≡ true }
    ensures within { result < length trail.now.steps }
    ensures step { (s : Step) → oldest (result + 1) trail.now.steps ≡ s ∷ oldest result trail.now.steps → s.lit ≡ lit }
{
    let mut i = trail.len();
    'place: while i > 0 {
        i -= 1;
        let step = trail.at(i);
        if step.lit == lit {
            return i;
        }
    }
    unreachable!()
}

// Walks back from a place over all steps below, and resolves with the line of each marked one.
fn resolve_below<L: Lines + Drop>(
    base: &Base<L>,
    assume: &Option<Lit>,
    trail: &Trail,
    place: usize,
    walk: &mut Walk,
) -> Result<(), NoMemory>
    requires place { place ≤ length trail.now.steps }
    requires founded { IsFounded (L.lines base.now.0) assume.now trail.now.steps }
    requires below { AreBelow trail.now.vars (L.lines base.now.0) }
    requires undecided { decisions trail.now.steps ≡ [] }
    requires walked { IsWalked (L.lines base.now.0) assume.now trail.now.vars (oldest place trail.now.steps) walk.old }
    ensures found { OnOk result (walk.new.found.items ≡ walk.old.found.items) }
    ensures walked { OnOk result (IsWalked (L.lines base.now.0) assume.now trail.now.vars [] walk.new) }
{
    let mut i = place;
    'resolve: while let Some(place) = look(trail, &walk.marks, i, false) {
        let step = trail.at(place);
        resolve(base, step, walk)?;
        i = place;
    }
    Ok(())
}

// The lines from which the negation of the question follows, in the order in which they propagate.
// The one of this number has no other literal that is not false below a place.
fn reasons<L: Lines + Drop>(
    base: &Base<L>,
    assume: &Option<Lit>,
    question: Lit,
    trail: &Trail,
    place: usize,
    number: usize,
    walk: &mut Walk,
) -> Result<(), NoMemory>
    requires place { place ≤ length trail.now.steps }
    requires number { number < length (L.lines base.now.0) }
    requires forced { (k : Literal) → has (line_at (L.lines base.now.0) number) k ≡ true → (k ≡ negated question) ⊎ (is_false (lits (oldest place trail.now.steps)) k ≡ true) }
    requires ready { IsReady (L.lines base.now.0) assume.now trail.now }
    requires undecided { decisions trail.now.steps ≡ [] }
    requires rested { IsRested trail.now.vars walk.old }
    ensures found { OnOk result (walk.new.found.items ≡ question ∷ []) }
    ensures within { OnOk result (Each (λ h. h < length (L.lines base.now.0)) walk.new.hints.items) }
    ensures follow { OnOk result (follows (L.lines base.now.0) (clause_of (question ∷ []) assume.now) walk.new.hints.items ≡ true) }
{
    walk.begin(number)?;
    walk.keep(question)?;
    walk.marks.mark(base.at(number))?;
    resolve_below(base, assume, trail, place, walk)?;
    walk.finish();
    Ok(())
}

/// Derives the line of the negations of a question and of what is assumed, where the question is
/// false on a trail without decisions. Where the two are opposite there is nothing to derive. After
/// an error the lines are as before.
pub(crate) fn deny<L: Lines + Drop>(
    alloc: Global,
    base: &mut Base<L>,
    assume: &Option<Lit>,
    question: Lit,
    trail: &Trail,
    walk: &mut Walk,
) -> Result<(), NoMemory>
    requires ready { IsReady (L.lines base.old.0) assume.now trail.now }
    requires rested { IsRested trail.now.vars walk.old }
    requires false_at_root { IsFalseAtRoot trail.now.steps question }
    ensures denied { OnOk result (HasDenied (L.lines base.old.0) (L.lines base.new.0) (L.derived base.old.0) (L.derived base.new.0) assume.now question) }
    ensures err_lines { OnErr result (L.lines base.new.0 ≡ L.lines base.old.0) }
    ensures err_derived { OnErr result (L.derived base.new.0 ≡ L.derived base.old.0) }
{
    let place = place_of(trail, question.negated());
    let step = trail.at(place);
    match step.why {
        Why::Assumed => Ok(()),
        Why::Decided => unreachable!(),
        Why::Line(number) => {
            reasons(base, assume, question, trail, place, number, walk)?;
            let line = clause(alloc, walk.found.as_slice(), assume)?;
            let copy = copy(alloc, walk.found.as_slice(), assume)?;
            base.derive(copy, line.as_slice(), walk.hints.as_slice())
        }
    }
}
