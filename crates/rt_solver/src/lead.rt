//! Where the analysis of a conflict stops on its way back over the trail, and where it may end: at a
//! marked literal that is the latest of its clause.
//!
//! An example, with the oldest step first: x1 decided, x2, x3 decided, x4, x5, and x2 and x5 are marked. At
//! x5 the walk looks down over x4 to x3, a decision that is not marked. So x5 is the only marked literal
//! since the newest decision, and two steps are below that decision: the answer is 2.

ghost use Rattle.std.specs.Prelude.{◌≡◌, ◌+◌, ◌<◌, ◌≤◌, ◌∷◌, length, false, IsTrue, MatchOption, IfSome};
ghost use Rattle.rt_store.specs.declared.trail.Why.TheVariants.{Decided};
ghost use Rattle.rt_solver.specs.Marking.{marked_by};
ghost use Rattle.rt_store.specs.Trail.{oldest};
ghost use Rattle.rt_solver.specs.Analysis.{IsDecisionUnder, IsFirstStop, IsLead, IsPlain, IsStop};

use crate::marks::Marks;
use rt_store::{Step, Trail, Why};

// Whether a step is marked or, where decisions count, a decision.
#[inline]
fn is_stop(marks: &Marks, step: Step, decisions: bool) -> bool
    requires { step.lit.var < length marks.now.marks }
    ensures stop { IsTrue result → IsStop (marked_by marks.now) decisions step }
    ensures plain { result ≡ false → IsPlain (marked_by marks.now) decisions step }
{
    let lit = step.lit;
    marks.is(lit.var()) || decisions && step.why.is_decided()
}

/// The first step below a place that is marked or, where decisions count, a decision. Most steps
/// are neither, and this loop is all that they cost.
pub(crate) fn look(trail: &Trail, marks: &Marks, place: usize, decisions: bool) -> Option<usize>
    requires place { place ≤ length trail.now.steps }
    requires marks { length marks.now.marks ≡ trail.now.vars }
    ensures { IsFirstStop trail.now.steps (marked_by marks.now) decisions place result }
{
    let mut i = place;
    'look: while i > 0 {
        i -= 1;
        if is_stop(marks, trail.at(i), decisions) {
            return Some(i);
        }
    }
    None
}

// The newest decision below a place, where no step from there on is marked. Else `seen` is the
// marked step that comes first, or 0 where there is none.
fn decision_under(trail: &Trail, marks: &Marks, place: usize, seen: &mut usize) -> Option<usize>
    requires place { place ≤ length trail.now.steps }
    requires marks { length marks.now.marks ≡ trail.now.vars }
    ensures { IfSome result (λ cut. IsDecisionUnder trail.now.steps (marked_by marks.now) place cut) }
{
    *seen = 0;
    let stop = look(trail, marks, place, true)?;
    let step = trail.at(stop);
    let lit = step.lit;
    if marks.is(lit.var()) {
        *seen = stop;
        return None;
    }
    Some(stop)
}

/// Where the literal of the marked step at a place may be the latest of a clause: how many steps
/// are below the newest decision there. At `seen`, where that is below the place, is a marked step
/// or the oldest one.
pub(crate) fn lead(
    trail: &Trail,
    marks: &Marks,
    step: &Step,
    place: usize,
    first: usize,
    seen: &mut usize,
) -> Option<usize>
    requires step { oldest (place + 1) trail.now.steps ≡ step.now ∷ oldest place trail.now.steps }
    requires place { place < length trail.now.steps }
    requires marks { length marks.now.marks ≡ trail.now.vars }
    ensures { MatchOption result (step.now.why ≡ Decided → ⊥) (λ cut. IsLead first trail.now.steps (marked_by marks.now) place cut step.now) }
{
    let lit = step.lit;
    match step.why {
        Why::Decided => Some(place),
        Why::Assumed => None,
        Why::Line(_) => {
            if lit.var() >= first || *seen < place {
                return None;
            }
            decision_under(trail, marks, place, seen)
        }
    }
}
