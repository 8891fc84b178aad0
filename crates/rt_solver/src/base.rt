//! The lines, and the solver's own copies of them, which are watched. How they are watched is private:
//! contracts see the lines and the copies.

ghost use Rattle.std.specs.Prelude.{◌≡◌, [], ◌∷◌, ◌++◌, ◌+◌, ◌*◌, ◌<◌, ◌≤◌, ◌^◌, length, vec_len, vec_capacity, true, false, OnOk, OnErr, IfOk, MatchOption};
ghost use Rattle.std.specs.List.{All as Each};
ghost use Rattle.rt_clause.specs.Lists.{line_at, follows};
ghost use Rattle.rt_store.specs.Trail.{lits, IsApart, oldest, decisions};
ghost use Rattle.rt_solver.specs.Looking.{IsBelow, AreBelow};
ghost use Rattle.rt_solver.specs.Search.{KeepsModels};
ghost use Rattle.rt_store.specs.Same.{IsSame, AreSame, IsSpread};
ghost use Rattle.rt_solver.specs.Solving.{reach, width};
ghost use Rattle.rt_solver.specs.Propagating.{AreWatchedBefore, IsQueued, IsPropagated, IsConflict, IsDone, AreListed, AreShort, HasLists, HasRoom};

use crate::propagate::{propagate, settle};
use rt_clause::{Lines, Lit};
use rt_store::{Clause, Entry, Trail, Watch, Watches};
use rt_value::NoMemory;
use std::alloc::Global;
use std::marker::Model;

// Clauses are no more than this, so that each watch fits an entry; beyond it, past 32 gigabytes, the
// answer is out of memory.
const MOST_CLAUSES: usize = 1 << 30;

/// One more than the greatest variable, or `least` where that is more.
pub(crate) fn reach(least: usize, lits: &[Lit]) -> usize
    ensures is { result ≡ reach least lits.now }
    ensures few { least ≤ 2 ^ 62 → result ≤ 2 ^ 62 }
{
    let mut most = least;
    for l in lits {
        let lit = *l;
        let end = lit.var() + 1;
        if most < end {
            most = end;
        }
    }
    most
}

/// The lines, and the solver's own copy of each, in which two literals are watched. Contracts see
/// the lines and the copies.
///
/// The numbers of the copies with fewer than two literals are in `short`.
#[derive(Drop)]
pub(crate) struct Base<L: Lines + Drop> {
    lines: L,
    clauses: Vec<Clause>,
    short: Vec<usize>,
    watches: Watches,
    vars: usize,
}

impl<L: Lines + Drop> Model for Base<L> {
    ghost use Rattle.std.specs.Prelude.{List};
    ghost use Rattle.std.specs.Coded.{coded×, coded_list};
    ghost use Rattle.rt_clause.specs.Literal.{Literal};
    ghost use Rattle.rt_solver.specs.Based.{coded_literal, IsBased};

    ghost Value = { L × List (List Literal) };

    ghost coded = { coded× L.code (coded_list (coded_list coded_literal)) };

    ghost view = { λ b. (b.lines, b.clauses.items) };

    ghost invariant = { λ b. IsBased (L.lines b.lines) b.clauses.items b.watches.lists b.vars b.short.items };
}

// Hands a line to the lines, which take it.
fn accept<L: Lines>(lines: &mut L, lits: &[Lit], hints: &[usize]) -> Result<(), NoMemory>
    requires within { Each (λ h. h < length (L.lines lines.old)) hints.now }
    requires follow { follows (L.lines lines.old) lits.now hints.now ≡ true }
    ensures lines { OnOk result (L.lines lines.new ≡ L.lines lines.old ++ lits.now ∷ []) }
    ensures sound { OnOk result (KeepsModels (L.lines lines.old) (L.lines lines.new)) }
    ensures derived { OnOk result (L.derived lines.new ≡ L.derived lines.old ++ true ∷ []) }
    ensures err_lines { OnErr result (L.lines lines.new ≡ L.lines lines.old) }
    ensures err_derived { OnErr result (L.derived lines.new ≡ L.derived lines.old) }
{
    let yes = lines.derive(lits, hints)?;
    prove!(yes);
    Ok(())
}

// Puts a clause at the end, for which there is room, and watches its first two literals, or notes
// that it is short.
fn put(clauses: &mut Vec<Clause>, short: &mut Vec<usize>, watches: &mut Watches, clause: Clause)
    requires room { vec_len clauses.old < vec_capacity clauses.old }
    requires short_room { vec_len short.old < vec_capacity short.old }
    requires few { vec_len clauses.old < 2 ^ 30 }
    requires listed { AreListed clauses.old.items watches.old.lists }
    requires short { AreShort clauses.old.items short.old.items }
    requires spread { IsSpread clause }
    requires wide { HasLists watches.old.lists clause }
    requires list_room { HasRoom watches.old clause }
    ensures items { clauses.new.items ≡ clauses.old.items ++ clause ∷ [] }
    ensures listed { AreListed clauses.new.items watches.new.lists }
    ensures short { AreShort clauses.new.items short.new.items }
{
    let number = clauses.len();
    if clause.len() < 2 {
        short.push_reserved(number);
        clauses.push_reserved(clause);
        return;
    }
    let two = clause.len() == 2;
    let first = clause.at(0);
    let second = clause.at(1);
    watches.join(first.index(), Entry::new(Watch::first(number), two, second));
    watches.join(
        second.index(),
        Entry::new(Watch::second(number), two, first),
    );
    clauses.push_reserved(clause);
}

// Makes room for one clause more, over variables below a bound.
fn make_room(
    clauses: &mut Vec<Clause>,
    short: &mut Vec<usize>,
    watches: &mut Watches,
    clause: &Clause,
    vars: usize,
) -> Result<(), NoMemory>
    requires vars { vars ≤ 2 ^ 62 }
    requires below { IsBelow vars clause.now }
    requires listed { AreListed clauses.old.items watches.old.lists }
    ensures items { clauses.new.items ≡ clauses.old.items }
    ensures listed { AreListed clauses.new.items watches.new.lists }
    ensures short { short.new.items ≡ short.old.items }
    ensures few { OnOk result (vec_len clauses.new < 2 ^ 30) }
    ensures room { OnOk result (vec_len clauses.new < vec_capacity clauses.new) }
    ensures short_room { OnOk result (vec_len short.new < vec_capacity short.new) }
    ensures wide { OnOk result (HasLists watches.new.lists clause.now) }
    ensures list_room { OnOk result (HasRoom watches.new clause.now) }
{
    if clauses.len() >= MOST_CLAUSES {
        return Err(NoMemory);
    }
    clauses.reserve(1)?;
    short.reserve(1)?;
    watches.grow(2 * vars)?;
    if clause.len() < 2 {
        return Ok(());
    }
    watches.reserve(clause.at(0).index())?;
    watches.reserve(clause.at(1).index())
}

impl<L: Lines + Drop> Base<L> {
    pub(crate) fn new(alloc: Global, lines: L) -> Base<L>
        requires { L.lines lines ≡ [] }
        ensures { result ≡ (lines, []) }
    {
        Base {
            lines,
            clauses: Vec::new(alloc),
            short: Vec::new(alloc),
            watches: Watches::new(alloc),
            vars: 0,
        }
    }

    pub(crate) fn lines(&self) -> &L
        ensures { result.now ≡ self.now.0 }
    {
        &self.lines
    }

    pub(crate) fn len(&self) -> usize
        ensures is { result ≡ length (L.lines self.now.0) }
        ensures same { AreSame (L.lines self.now.0) self.now.1 }
    {
        self.clauses.len()
    }

    /// The copy of a line.
    pub(crate) fn at(&self, i: usize) -> &Clause
        requires { i < length (L.lines self.now.0) }
        ensures { IsSame (line_at (L.lines self.now.0) i) result.now }
    {
        &self.clauses[i]
    }

    /// One more than the greatest variable.
    pub(crate) fn vars(&self) -> usize
        ensures is { result ≡ width (L.lines self.now.0) }
        ensures few { result ≤ 2 ^ 62 }
    {
        self.vars
    }

    /// Puts a given clause at the end.
    pub(crate) fn add(&mut self, alloc: Global, lits: &[Lit]) -> Result<(), NoMemory>
        ensures lines { OnOk result (L.lines self.new.0 ≡ L.lines self.old.0 ++ lits.now ∷ []) }
        ensures derived { OnOk result (L.derived self.new.0 ≡ L.derived self.old.0 ++ false ∷ []) }
        ensures err_lines { OnErr result (L.lines self.new.0 ≡ L.lines self.old.0) }
        ensures err_derived { OnErr result (L.derived self.new.0 ≡ L.derived self.old.0) }
    {
        let clause = Clause::of(alloc, lits)?;
        let vars = reach(self.vars, lits);
        make_room(
            &mut self.clauses,
            &mut self.short,
            &mut self.watches,
            &clause,
            vars,
        )?;
        self.lines.add(lits)?;
        put(
            &mut self.clauses,
            &mut self.short,
            &mut self.watches,
            clause,
        );
        self.vars = vars;
        Ok(())
    }

    /// Puts a line at the end that follows from the lines, with a copy of the same literals.
    pub(crate) fn derive(
        &mut self,
        clause: Clause,
        lits: &[Lit],
        hints: &[usize],
    ) -> Result<(), NoMemory>
        requires within { Each (λ h. h < length (L.lines self.old.0)) hints.now }
        requires follow { follows (L.lines self.old.0) lits.now hints.now ≡ true }
        requires same { IsSame lits.now clause }
        requires spread { IsSpread clause }
        ensures lines { OnOk result (L.lines self.new.0 ≡ L.lines self.old.0 ++ lits.now ∷ []) }
        ensures copies { OnOk result (self.new.1 ≡ self.old.1 ++ clause ∷ []) }
        ensures sound { OnOk result (KeepsModels (L.lines self.old.0) (L.lines self.new.0)) }
        ensures derived { OnOk result (L.derived self.new.0 ≡ L.derived self.old.0 ++ true ∷ []) }
        ensures err_lines { OnErr result (L.lines self.new.0 ≡ L.lines self.old.0) }
        ensures err_derived { OnErr result (L.derived self.new.0 ≡ L.derived self.old.0) }
    {
        let vars = reach(self.vars, lits);
        make_room(
            &mut self.clauses,
            &mut self.short,
            &mut self.watches,
            &clause,
            vars,
        )?;
        accept(&mut self.lines, lits, hints)?;
        put(
            &mut self.clauses,
            &mut self.short,
            &mut self.watches,
            clause,
        );
        self.vars = vars;
        Ok(())
    }

    /// Propagates the steps from a place on, and names a line that is false.
    pub(crate) fn propagate(
        &mut self,
        trail: &mut Trail,
        from: usize,
    ) -> Result<Option<usize>, NoMemory>
        requires place { from ≤ length trail.old.steps }
        requires below { AreBelow trail.old.vars (L.lines self.old.0) }
        requires queued { IsQueued self.old.1 (lits (oldest from trail.old.steps)) trail.old.steps }
        ensures vars { trail.new.vars ≡ trail.old.vars }
        ensures apart { IsApart trail.new.vars trail.new.steps }
        ensures lines { self.new.0 ≡ self.old.0 }
        ensures steps { IsPropagated (L.lines self.old.0) trail.old.steps trail.new.steps }
        ensures before { AreWatchedBefore self.new.1 trail.new.steps }
        ensures done { IfOk result (λ end. MatchOption end (IsDone (L.lines self.new.0) self.new.1 trail.new.steps) (λ i. IsConflict (L.lines self.new.0) trail.new.steps i)) }
    {
        propagate(&mut self.clauses, &mut self.watches, trail, from)
    }

    /// Propagates from the lines of one literal on, before any decision.
    pub(crate) fn begin(&mut self, trail: &mut Trail) -> Result<Option<usize>, NoMemory>
        requires below { AreBelow trail.old.vars (L.lines self.old.0) }
        requires apart { IsApart trail.old.vars trail.old.steps }
        requires undecided { decisions trail.old.steps ≡ [] }
        ensures vars { trail.new.vars ≡ trail.old.vars }
        ensures apart { IsApart trail.new.vars trail.new.steps }
        ensures lines { self.new.0 ≡ self.old.0 }
        ensures steps { IsPropagated (L.lines self.old.0) trail.old.steps trail.new.steps }
        ensures before { AreWatchedBefore self.new.1 trail.new.steps }
        ensures done { IfOk result (λ end. MatchOption end (IsDone (L.lines self.new.0) self.new.1 trail.new.steps) (λ i. IsConflict (L.lines self.new.0) trail.new.steps i)) }
    {
        if let Some(i) = settle(self.clauses.as_slice(), self.short.as_slice(), trail) {
            return Ok(Some(i));
        }
        propagate(&mut self.clauses, &mut self.watches, trail, 0)
    }
}
