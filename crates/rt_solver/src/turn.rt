//! What becomes of one watch whose literal is false.

ghost use Rattle.std.specs.Prelude.{◌≡◌, ◌<◌, ◌≤◌, ◌-◌, ◌/◌, ◌%◌, true, List, length, Some, MatchOption};
ghost use Rattle.rt_clause.specs.Literal.{Literal};
ghost use Rattle.rt_clause.specs.Lists.{is_false, line_at, IsBelow, AreBelow};
ghost use Rattle.rt_store.specs.Trail.{lits, IsApart, IsUnit};
ghost use Rattle.rt_store.specs.Watching.{literal_in};
ghost use Rattle.rt_solver.specs.Turning.{AreFalseWithin, AreFalseFrom, IsFreeAt, IsLast, IsTurn, IsTurned};

use rt_clause::Lit;
use rt_store::{Clause, Entry, Step, Trail, Why};

/// What becomes of a watch whose literal is false: it stays, since the literal of its entry is true,
/// or another one; or the literal at a place is watched instead; or all literals are false.
#[derive(Clone, Copy)]
pub enum Turn {
    Met,
    Stays(Lit),
    Moves(usize),
    Broken,
}

// The place of a literal, none of the first two, that is neither false nor the other watched one,
// from one place on and before another.
fn free(clause: &[Lit], trail: &Trail, other: Lit, from: usize, to: usize) -> Option<usize>
    requires below { IsBelow trail.now.vars clause.now }
    requires from { 2 ≤ from }
    requires to { to ≤ length clause.now }
    ensures { MatchOption result (AreFalseWithin trail.now.steps clause.now other from to) (λ j. IsFreeAt trail.now.steps clause.now other j) }
{
    for j in from..to {
        let lit = clause[j];
        if !trail.is_false(lit) && lit != other {
            return Some(j);
        }
    }
    None
}

// Searches on from where the last search in the clause ended, and then up to there. Of three literals
// that stand in the clause itself only the last is not watched.
fn search(clause: &Clause, trail: &Trail, other: Lit) -> Option<usize>
    requires below { IsBelow trail.now.vars clause.now }
    requires long { 2 ≤ length clause.now }
    ensures { MatchOption result (AreFalseFrom trail.now.steps clause.now other) (λ j. IsFreeAt trail.now.steps clause.now other j) }
{
    match clause.block() {
        Some(lits) => {
            let start = clause.start();
            match free(lits, trail, other, start, lits.len()) {
                Some(j) => Some(j),
                None => free(lits, trail, other, 2, start),
            }
        }
        None => {
            let third = clause.at(2);
            if !trail.is_false(third) && third != other {
                Some(2)
            } else {
                None
            }
        }
    }
}

// Takes the last literal that is left of a clause, unless it has a value, and answers whether it is
// false.
fn is_broken(trail: &mut Trail, lit: Lit, number: usize) -> bool
    requires below { lit.var < trail.old.vars }
    ensures vars { trail.new.vars ≡ trail.old.vars }
    ensures apart { IsApart trail.new.vars trail.new.steps }
    ensures last { (clause : List Literal) → IsUnit clause (lits trail.old.steps) lit → IsLast clause trail.old.steps trail.new.steps number lit result }
{
    match trail.is(lit) {
        Some(on) => !on,
        None => {
            let why = Why::Line(number);
            trail.push(Step { lit, why });
            false
        }
    }
}

// Looks at a clause, of whose first two literals the one at a place is false.
fn rewatch(clause: &Clause, trail: &mut Trail, place: usize, number: usize) -> Turn
    requires place { place < 2 }
    requires watched { (l : Literal) × (literal_in clause.now place ≡ Some l) × (is_false (lits trail.old.steps) l ≡ true) }
    requires below { IsBelow trail.old.vars clause.now }
    ensures vars { trail.new.vars ≡ trail.old.vars }
    ensures apart { IsApart trail.new.vars trail.new.steps }
    ensures turn { IsTurn clause.now trail.old.steps trail.new.steps place number result }
{
    let other = clause.at(1 - place);
    if trail.is_true(other) {
        return Turn::Stays(other);
    }
    match search(clause, trail, other) {
        Some(j) => Turn::Moves(j),
        None => {
            if is_broken(trail, other, number) {
                Turn::Broken
            } else {
                Turn::Stays(other)
            }
        }
    }
}

/// Looks at an entry whose watched literal is false, and at its clause where the entry doesn't tell.
pub(crate) fn examine(clauses: &[Clause], trail: &mut Trail, entry: Entry) -> Turn
    requires below { AreBelow trail.old.vars clauses.now }
    requires entry { IsTurned clauses.now trail.old.steps entry }
    ensures vars { trail.new.vars ≡ trail.old.vars }
    ensures apart { IsApart trail.new.vars trail.new.steps }
    ensures turn { IsTurn (line_at clauses.now (entry.watch / 2)) trail.old.steps trail.new.steps (entry.watch % 2) (entry.watch / 2) result }
{
    let other = entry.other();
    let number = entry.watch().clause();
    if trail.is_true(other) {
        return Turn::Met;
    }
    if entry.is_two() {
        return if is_broken(trail, other, number) {
            Turn::Broken
        } else {
            Turn::Met
        };
    }
    rewatch(&clauses[number], trail, entry.watch().place(), number)
}
