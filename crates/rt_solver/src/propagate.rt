//! Unit propagation by two watched literals.

ghost use Rattle.std.specs.Prelude.{◌≡◌, ℕ, ◌+◌, ◌<◌, ◌≤◌, ◌/◌, [], length, slice_index_or, MatchOption, IfOk, OnOk, OnErr};
ghost use Rattle.rt_clause.specs.Lists.{line_at};
ghost use Rattle.rt_store.specs.Trail.{lits, IsApart, oldest};
ghost use Rattle.rt_solver.specs.Looking.{IsBelow, AreBelow};
ghost use Rattle.rt_store.specs.Same.{AreSame};
ghost use Rattle.rt_store.specs.Watching.{Listed, list_at};
ghost use Rattle.rt_solver.specs.Turning.{IsUnwatched, IsShifted};
ghost use Rattle.rt_solver.specs.Propagating.{IsWatched, AreWatchedBefore, IsQueued, IsPropagated, AreListed, AreShort, IsConflict, IsTakenStep, IsShortAs};

use crate::turn::{Turn, examine};
use rt_store::{Clause, Step, Trail, Watches, Why};
use rt_value::NoMemory;

// Moves an entry to the list of the literal at a place of its clause, which is watched from then on.
// After an error all is as it was.
fn shift(
    clauses: &mut Vec<Clause>,
    watches: &mut Watches,
    home: usize,
    i: usize,
    ended: usize,
) -> Result<(), NoMemory>
    requires home { home < length watches.old.lists }
    requires within { i < length (list_at watches.old.lists home) }
    requires listed { AreListed clauses.old.items watches.old.lists }
    requires unwatched { (e : Listed) → e ≡ slice_index_or (list_at watches.old.lists home) i e → IsUnwatched (line_at clauses.old.items (e.watch / 2)) ended }
    ensures ok { OnOk result (IsShifted clauses.old.items clauses.new.items watches.old.lists watches.new.lists home i ended) }
    ensures err_clauses { OnErr result (clauses.new.items ≡ clauses.old.items) }
    ensures err_lists { OnErr result (watches.new.lists ≡ watches.old.lists) }
{
    let entry = watches.at(home, i);
    let place = entry.watch().place();
    let clause = &mut clauses[entry.watch().clause()];
    let to = clause.at(ended).index();
    let other = clause.at(1 - place);
    watches.reserve(to)?;
    clause.exchange(place, ended);
    watches.leave(home, i);
    watches.join(to, entry.noting(other));
    Ok(())
}

// Visits the watches of the literal that became false by a step. A clause in which each literal is
// false ends the visit.
fn visit(
    clauses: &mut Vec<Clause>,
    watches: &mut Watches,
    trail: &mut Trail,
    done: usize,
) -> Result<Option<usize>, NoMemory>
    requires place { done < length trail.old.steps }
    requires below { AreBelow trail.old.vars clauses.old.items }
    requires listed { AreListed clauses.old.items watches.old.lists }
    requires queued { IsQueued clauses.old.items (lits (oldest done trail.old.steps)) trail.old.steps }
    ensures vars { trail.new.vars ≡ trail.old.vars }
    ensures apart { IsApart trail.new.vars trail.new.steps }
    ensures same { AreSame clauses.old.items clauses.new.items }
    ensures listed { AreListed clauses.new.items watches.new.lists }
    ensures steps { IsPropagated clauses.old.items trail.old.steps trail.new.steps }
    ensures before { AreWatchedBefore clauses.new.items trail.new.steps }
    ensures visited { IfOk result (λ end. MatchOption end (IsQueued clauses.new.items (lits (oldest (done + 1) trail.new.steps)) trail.new.steps) (λ i. IsConflict clauses.new.items trail.new.steps i)) }
{
    let step = trail.at(done);
    let home = step.lit.negated().index();
    if watches.len() <= home {
        return Ok(None);
    }
    let mut left = watches.count(home);
    'watches: while left > 0 {
        let i = left - 1;
        let entry = watches.at(home, i);
        match examine(clauses.as_slice(), trail, entry) {
            Turn::Met => {}
            Turn::Stays(other) => watches.note(home, i, other),
            Turn::Moves(ended) => shift(clauses, watches, home, i, ended)?,
            Turn::Broken => return Ok(Some(entry.watch().clause())),
        }
        left = i;
    }
    Ok(None)
}

/// Propagates the steps from a place on, in their order, until nothing is left to do or a clause
/// is false, and names that clause.
pub(crate) fn propagate(
    clauses: &mut Vec<Clause>,
    watches: &mut Watches,
    trail: &mut Trail,
    from: usize,
) -> Result<Option<usize>, NoMemory>
    requires place { from ≤ length trail.old.steps }
    requires below { AreBelow trail.old.vars clauses.old.items }
    requires listed { AreListed clauses.old.items watches.old.lists }
    requires queued { IsQueued clauses.old.items (lits (oldest from trail.old.steps)) trail.old.steps }
    ensures vars { trail.new.vars ≡ trail.old.vars }
    ensures apart { IsApart trail.new.vars trail.new.steps }
    ensures same { AreSame clauses.old.items clauses.new.items }
    ensures listed { AreListed clauses.new.items watches.new.lists }
    ensures steps { IsPropagated clauses.old.items trail.old.steps trail.new.steps }
    ensures before { AreWatchedBefore clauses.new.items trail.new.steps }
    ensures done { IfOk result (λ end. MatchOption end (IsQueued clauses.new.items (lits trail.new.steps) trail.new.steps) (λ i. IsConflict clauses.new.items trail.new.steps i)) }
{
    let mut done = from;
    'steps: while done < trail.len() {
        if let Some(number) = visit(clauses, watches, trail, done)? {
            return Ok(Some(number));
        }
        done += 1;
    }
    Ok(None)
}

// Takes the literal of a clause of one literal as a step, unless it has a value, and answers whether
// the clause is empty, or of one literal that is false.
fn is_broken(clause: &Clause, trail: &mut Trail, number: usize) -> bool
    requires below { IsBelow trail.old.vars clause.now }
    requires apart { IsApart trail.old.vars trail.old.steps }
    ensures vars { trail.new.vars ≡ trail.old.vars }
    ensures apart { IsApart trail.new.vars trail.new.steps }
    ensures taken { IsTakenStep clause.now number trail.old.steps trail.new.steps }
    ensures short { IsShortAs result clause.now trail.new.steps }
{
    match clause.len() {
        0 => true,
        1 => {
            let lit = clause.at(0);
            match trail.is(lit) {
                Some(on) => !on,
                None => {
                    let why = Why::Line(number);
                    trail.push(Step { lit, why });
                    false
                }
            }
        }
        _ => false,
    }
}

/// Takes the literals of the clauses of one literal as steps, and names the empty clause, or a
/// clause of one literal that is false. All such clauses are among the short ones.
pub(crate) fn settle(clauses: &[Clause], short: &[usize], trail: &mut Trail) -> Option<usize>
    requires short { AreShort clauses.now short.now }
    requires below { AreBelow trail.old.vars clauses.now }
    requires apart { IsApart trail.old.vars trail.old.steps }
    ensures vars { trail.new.vars ≡ trail.old.vars }
    ensures apart { IsApart trail.new.vars trail.new.steps }
    ensures steps { IsPropagated clauses.now trail.old.steps trail.new.steps }
    ensures settled { MatchOption result ((i : ℕ) → i < length clauses.now → IsWatched [] (lits trail.new.steps) (line_at clauses.now i)) (λ i. IsConflict clauses.now trail.new.steps i) }
{
    for n in short {
        let number = *n;
        let clause = &clauses[number];
        if is_broken(clause, trail, number) {
            return Some(number);
        }
    }
    None
}
