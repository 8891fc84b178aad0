//! Analysis of a conflict: from the line that is false back over the trail to the clause that is
//! learned. What it answers is `IsLearned`; in which order lines are resolved is private.
//!
//! An example with the lines -1 2, -2 3, -4 5, -5 6 and -3 -5 -6: x1 is decided and gives x2 and x3,
//! then x4 is decided and gives x5 and x6, and the last line is false. Two of its literals became
//! false since x4. As x6 rests on -5 6, the two lines give -3 -5, in which only x5 is so late (the
//! first unique implication point). -3 -5 is learned, and after x1, x2 and x3 it gives -5.

ghost use Rattle.std.specs.Prelude.{◌≡◌, ℕ, ◌<◌, ◌≤◌, ◌+◌, List, ◌∷◌, [], length, true, false, IfOk, IfSome, OnOk, Option, MatchOption, IsTrue, nat_eq};
ghost use Rattle.rt_clause.specs.Lists.{line_at};
ghost use Rattle.rt_clause.specs.Literal.{Literal};
ghost use Rattle.rt_store.specs.declared.trail.Step.{Step};
ghost use Rattle.rt_store.specs.declared.trail.Why.TheVariants.{Decided};
ghost use Rattle.rt_solver.specs.Marking.{marked_by, marked_steps};
ghost use Rattle.rt_store.specs.Trail.{lits, oldest, IsApart, IsFounded, RestsOn, IsLineWithin};
ghost use Rattle.rt_solver.specs.Looking.{IsBelow, AreBelow, IsBroken};
ghost use Rattle.rt_solver.specs.Analysis.{IsLearned, IsRested, IsWalked, IsChoice, IsFirstStop, IsStopAt, IsGathered, FindsNone, IsTraced};

use crate::base::Base;
use crate::lead::{lead, look};
use crate::marks::Marks;
use crate::walk::Walk;
use rt_clause::{Lines, Lit};
use rt_store::{Clause, Step, Trail, Why};
use rt_value::NoMemory;

// How many lines deep the search for what is implied goes.
const DEPTH: usize = 6;

// How many literals it looks at.
const FUEL: usize = 100;

/// Resolves with the line that a marked step rests on.
pub(crate) fn resolve<L: Lines + Drop>(
    base: &Base<L>,
    step: Step,
    walk: &mut Walk,
) -> Result<(), NoMemory>
    requires below { AreBelow (length walk.old.marks.marks) (L.lines base.now.0) }
    requires line { IsLineWithin (L.lines base.now.0) step.why }
    requires marked { marked_by walk.old.marks step.lit.var ≡ true }
    ensures found { OnOk result (walk.new.found.items ≡ walk.old.found.items) }
    ensures marks { length walk.new.marks.marks ≡ length walk.old.marks.marks }
    ensures walked { OnOk result ((assume : Option Literal) (vars : ℕ) (rest : List Step) → IsApart vars (step ∷ rest) → RestsOn (L.lines base.now.0) assume rest step.lit step.why
        → (step.why ≡ Decided → ⊥)
        → IsWalked (L.lines base.now.0) assume vars (step ∷ rest) walk.old → IsWalked (L.lines base.now.0) assume vars rest walk.new) }
{
    walk.marks.visit();
    match step.why {
        Why::Line(r) => {
            walk.hints.push(r)?;
            walk.marks.mark(base.at(r))?;
        }
        Why::Decided => {}
        Why::Assumed => {}
    }
    Ok(())
}

// The next step to visit below a place: a marked one while marks are due, or a decision while one
// literal is found.
fn next_stop(trail: &Trail, walk: &Walk, place: usize) -> Option<usize>
    requires place { place ≤ length trail.now.steps }
    requires marks { length walk.now.marks.marks ≡ trail.now.vars }
    requires counted { marked_steps walk.now.marks (oldest place trail.now.steps) ≤ walk.now.marks.due }
    ensures { IsFirstStop trail.now.steps (marked_by walk.now.marks) (nat_eq (length walk.now.found.items) 1) place result }
{
    let one = walk.found.len() == 1;
    if walk.marks.due() == 0 && !one {
        return None;
    }
    look(trail, &walk.marks, place, one)
}

// Walks back to the latest literal of the clause, and says how many steps are left before the newest
// decision there.
fn walk_back<L: Lines + Drop>(
    base: &Base<L>,
    assume: &Option<Lit>,
    first: usize,
    trail: &Trail,
    walk: &mut Walk,
) -> Result<Option<usize>, NoMemory>
    requires founded { IsFounded (L.lines base.now.0) assume.now trail.now.steps }
    requires below { AreBelow trail.now.vars (L.lines base.now.0) }
    requires none { walk.old.found.items ≡ [] }
    requires walked { IsWalked (L.lines base.now.0) assume.now trail.now.vars trail.now.steps walk.old }
    ensures { IfOk result (λ cut. MatchOption cut (FindsNone (L.lines base.now.0) assume.now trail.now walk.new) (λ i. IsGathered (L.lines base.now.0) assume.now first trail.now i i walk.new)) }
{
    let mut seen = trail.len();
    let mut i = trail.len();
    'seek: while let Some(place) = next_stop(trail, walk, i) {
        let step = trail.at(place);
        let found = lead(trail, &walk.marks, &step, place, first, &mut seen);
        if let Some(cut) = found {
            walk.keep(step.lit)?;
            return Ok(Some(cut));
        }
        resolve(base, step, walk)?;
        i = place;
    }
    Ok(None)
}

// The line that a variable's value rests on, where it is neither decided nor assumed.
fn reason<L: Lines + Drop>(base: &Base<L>, trail: &Trail, v: usize) -> Option<usize>
    requires { v < trail.now.vars }
    ensures { IfSome result (λ r. r < length (L.lines base.now.0)) }
{
    match trail.why(v) {
        Some(Why::Line(r)) => { if r < base.len() { Some(r) } else { None } }
        _ => None,
    }
}

// Whether the literals of a line imply that of the variable `own`: each other one is marked, got its
// value before the first decision, or is implied in turn by the line that it rests on, down to a
// depth. Each literal that is looked at takes one from the fuel.
fn is_known<L: Lines + Drop>(
    base: &Base<L>,
    trail: &Trail,
    marks: &Marks,
    line: &Clause,
    own: usize,
    depth: usize,
    fuel: &mut usize,
) -> bool
    requires line { IsBelow trail.now.vars line.now }
    requires below { AreBelow trail.now.vars (L.lines base.now.0) }
    requires marks { length marks.now.marks ≡ trail.now.vars }
{
    for i in 0..line.len() {
        if *fuel == 0 {
            return false;
        }
        *fuel -= 1;
        let lit = line.at(i);
        let v = lit.var();
        if v == own || marks.is(v) || trail.is_early(v) {
            continue;
        }
        if depth == 0 {
            return false;
        }
        match reason(base, trail, v) {
            None => return false,
            Some(r) => {
                if !is_known(base, trail, marks, base.at(r), v, depth - 1, fuel) {
                    return false;
                }
            }
        }
    }
    true
}

// Whether the other marked literals imply that of a variable, as far as a short search shows.
fn is_implied<L: Lines + Drop>(
    base: &Base<L>,
    trail: &Trail,
    marks: &Marks,
    line: usize,
    own: usize,
) -> bool
    requires line { line < length (L.lines base.now.0) }
    requires below { AreBelow trail.now.vars (L.lines base.now.0) }
    requires marks { length marks.now.marks ≡ trail.now.vars }
{
    let mut fuel = FUEL;
    is_known(base, trail, marks, base.at(line), own, DEPTH, &mut fuel)
}

// Whether the literal of a marked step is found: it is a decision or one of the first ones. What is
// true before the first decision is resolved away, and what the other marked ones imply.
fn stays<L: Lines + Drop>(
    base: &Base<L>,
    trail: &Trail,
    marks: &Marks,
    step: &Step,
    place: usize,
    first: usize,
) -> bool
    requires line { IsLineWithin (L.lines base.now.0) step.now.why }
    requires below { AreBelow trail.now.vars (L.lines base.now.0) }
    requires marks { length marks.now.marks ≡ trail.now.vars }
    ensures choice { IsTrue result → IsChoice first step.now }
    ensures other { result ≡ false → step.now.why ≡ Decided → ⊥ }
{
    let lit = step.lit;
    match step.why {
        Why::Decided => true,
        Why::Line(r) => {
            lit.var() < first
                && trail.root() < place
                && !is_implied(base, trail, marks, r, lit.var())
        }
        Why::Assumed => false,
    }
}

// Visits the step at a place, which is marked or a decision while one literal is found. Says how
// many steps are to be left then.
fn pass<L: Lines + Drop>(
    base: &Base<L>,
    assume: &Option<Lit>,
    first: usize,
    trail: &Trail,
    place: usize,
    cut: usize,
    walk: &mut Walk,
) -> Result<usize, NoMemory>
    requires place { place < length trail.now.steps }
    requires stop { IsStopAt trail.now.steps (marked_by walk.old.marks) (nat_eq (length walk.old.found.items) 1) place }
    requires founded { IsFounded (L.lines base.now.0) assume.now trail.now.steps }
    requires below { AreBelow trail.now.vars (L.lines base.now.0) }
    requires gathered { IsGathered (L.lines base.now.0) assume.now first trail.now (place + 1) cut walk.old }
    ensures { IfOk result (λ new. IsGathered (L.lines base.now.0) assume.now first trail.now place new walk.new) }
{
    let step = trail.at(place);
    let lit = step.lit;
    if !walk.marks.is(lit.var()) {
        return Ok(place);
    }
    if stays(base, trail, &walk.marks, &step, place, first) {
        walk.keep(step.lit)?;
        return Ok(cut);
    }
    resolve(base, step, walk)?;
    Ok(cut)
}

// Walks back from there over the rest of the trail, as far as marks are due.
fn gather<L: Lines + Drop>(
    base: &Base<L>,
    assume: &Option<Lit>,
    first: usize,
    trail: &Trail,
    cut: usize,
    walk: &mut Walk,
) -> Result<usize, NoMemory>
    requires founded { IsFounded (L.lines base.now.0) assume.now trail.now.steps }
    requires below { AreBelow trail.now.vars (L.lines base.now.0) }
    requires gathered { IsGathered (L.lines base.now.0) assume.now first trail.now cut cut walk.old }
    ensures { IfOk result (λ new. IsGathered (L.lines base.now.0) assume.now first trail.now 0 new walk.new) }
{
    let mut cut = cut;
    let mut i = cut;
    'gather: while let Some(place) = next_stop(trail, walk, i) {
        cut = pass(base, assume, first, trail, place, cut, walk)?;
        i = place;
    }
    Ok(cut)
}

// Walks back until no mark is due, and says how many steps are to be left.
fn trace<L: Lines + Drop>(
    base: &Base<L>,
    assume: &Option<Lit>,
    first: usize,
    trail: &Trail,
    walk: &mut Walk,
) -> Result<usize, NoMemory>
    requires founded { IsFounded (L.lines base.now.0) assume.now trail.now.steps }
    requires below { AreBelow trail.now.vars (L.lines base.now.0) }
    requires none { walk.old.found.items ≡ [] }
    requires walked { IsWalked (L.lines base.now.0) assume.now trail.now.vars trail.now.steps walk.old }
    ensures { IfOk result (λ cut. IsTraced (L.lines base.now.0) assume.now first trail.now cut walk.new) }
{
    match walk_back(base, assume, first, trail, walk)? {
        None => Ok(0),
        Some(start) => {
            let cut = gather(base, assume, first, trail, start, walk)?;
            Ok(cut)
        }
    }
}

/// Says what a conflict rests on: decisions and literals of the first variables, and exactly one of
/// them is as late as the newest decision among them. It answers how many of the oldest steps are
/// left where all of them but the latest are true.
pub(crate) fn explain<L: Lines + Drop>(
    base: &Base<L>,
    assume: &Option<Lit>,
    first: usize,
    trail: &Trail,
    conflict: usize,
    walk: &mut Walk,
) -> Result<usize, NoMemory>
    requires conflict { conflict < length (L.lines base.now.0) }
    requires broken { IsBroken (lits trail.now.steps) (line_at (L.lines base.now.0) conflict) }
    requires founded { IsFounded (L.lines base.now.0) assume.now trail.now.steps }
    requires below { AreBelow trail.now.vars (L.lines base.now.0) }
    requires apart { IsApart trail.now.vars trail.now.steps }
    requires rested { IsRested trail.now.vars walk.old }
    ensures marks { IfOk result (λ _. length walk.new.marks.marks ≡ trail.now.vars) }
    ensures learned { IfOk result (λ cut. IsLearned (L.lines base.now.0) assume.now first trail.now.steps cut walk.new) }
{
    walk.begin(conflict)?;
    walk.marks.mark(base.at(conflict))?;
    let cut = trace(base, assume, first, trail, walk)?;
    walk.finish();
    Ok(cut)
}
