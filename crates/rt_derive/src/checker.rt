//! The checker: lines, and the one test by which a derived line is accepted. What a check
//! remembers of its own run (literals held, long lines used) is private; contracts see lines and
//! their Bools.

ghost use Rattle.std.specs.Prelude.{◌≡◌, List as Seq, [], ◌∷◌, ◌++◌, ◌<◌, length, Bool, true, false, IsTrue, ◌↔◌, OnOk, OnErr, IfOk, Some, MatchOption, if◌then◌else◌};
ghost use Rattle.std.specs.List.{All as Each, list_all};
ghost use Rattle.rt_clause.specs.Literal.{Literal, negated};
ghost use Rattle.rt_clause.specs.Lists.{follows, left, line_at};
ghost use Rattle.rt_clause.specs.Refuting.{IsDenial, IsDenied, IsRefuted, Refutes, is_negation};
ghost use Rattle.rt_derive.specs.Alike.{Alike};
ghost use Rattle.rt_derive.specs.Remaining.{IsRest};
ghost use Rattle.rt_derive.specs.Spent.{AreUsedUp, Takes};

use crate::held::Held;
use crate::store::Store;
use rt_clause::{Adds, Denial, Lines, Lit, LitList};
use rt_value::NoMemory;
use std::alloc::Global;
use std::collections::BTreeSet;

/// What is left of a line when its false literals are taken away: no literal, one literal that may
/// be repeated, or at least two different ones.
#[derive(Clone, Copy)]
pub enum Rest {
    Nothing,
    One(Lit),
    Several,
}

// Reads the line up to its second different literal that is not false.
fn what_is_left(line: &[Lit], held: &Held) -> Rest
    ensures { IsRest (left held.now line.now) result }
{
    let mut one: Option<Lit> = None;
    for l in line {
        if !held.has(l.negated()) {
            match one {
                None => one = Some(*l),
                Some(first) => {
                    if first != *l {
                        return Rest::Several;
                    }
                }
            }
        }
    }
    match one {
        None => Rest::Nothing,
        Some(l) => Rest::One(l),
    }
}

// What is left of a line of the store.
fn rest_at(lines: &Store, h: usize, held: &Held) -> Rest
    requires { h < length lines.now }
    ensures { IsRest (left held.now (line_at lines.now h)) result }
{
    what_is_left(lines.brief_at(h), held)
}

// The length in literals from which a line is long. A check reads a long line as a unit once,
// however often it is hinted.
const LONG: usize = 64;

// Uses the line as a unit. It gives the answer of the whole check, or none where the next hint is
// to be used. A long line that was used before would add nothing, so it is not read again.
fn take(
    held: &mut Held,
    used: &mut BTreeSet<usize>,
    lines: &Store,
    h: usize,
) -> Result<Option<bool>, NoMemory>
    requires known { h < length lines.now }
    requires spent { AreUsedUp lines.now held.old used.old.keys }
    ensures takes { IfOk result (λ answer. Takes lines.now held.old held.new h answer) }
    ensures spent { OnOk result (AreUsedUp lines.now held.new used.new.keys) }
{
    let is_long = lines.brief_at(h).len() >= LONG;
    if is_long && used.contains(&h) {
        return Ok(None);
    }
    match rest_at(lines, h, held) {
        Rest::Nothing => Ok(Some(true)),
        Rest::Several => Ok(Some(false)),
        Rest::One(l) => {
            held.put(l)?;
            if is_long {
                used.insert(h)?;
            }
            Ok(None)
        }
    }
}

// The literals of a line, each once.
fn without_repeats(alloc: Global, lits: &[Lit], seen: &mut Held) -> Result<LitList, NoMemory>
    ensures { IfOk result (λ line. Alike line lits.now) }
{
    seen.clear();
    let mut line = LitList::new(alloc);
    for l in lits {
        if !seen.has(*l) {
            line.push(*l)?;
            seen.put(*l)?;
        }
    }
    Ok(line)
}

// Whether assuming that the clause is false, and using the hinted lines in order as units, ends in
// a false line. Over the lines (a, b) and (a, not b), the clause (a) with hints 0 and 1 does:
//     assumed      not a
//     line 0       b is left, and is held from now on
//     line 1       nothing is left: yes
// A line is read up to the second different literal that is left of it, and a long line once. So
// the time is at most that of the clause, of `LONG` literals a hint, and of each hinted long line
// once.
fn check(
    held: &mut Held,
    used: &mut BTreeSet<usize>,
    lines: &Store,
    lits: &[Lit],
    hints: &[usize],
) -> Result<bool, NoMemory>
    requires { Each (λ h. h < length lines.now) hints.now }
    ensures { IfOk result (λ yes. yes ≡ follows lines.now lits.now hints.now) }
{
    held.clear();
    used.clear();
    for l in lits {
        held.put(l.negated())?;
    }
    for h in hints {
        match take(held, used, lines, *h)? {
            Some(answer) => return Ok(answer),
            None => {}
        }
    }
    Ok(false)
}

fn refutes_line(line: &[Lit], assume: &Option<Lit>) -> bool
    ensures { IsTrue result ↔ Refutes assume.now line.now }
{
    match line {
        [] => true,
        [one] => match assume {
            Some(a) => *one == a.negated(),
            None => false,
        },
        _ => false,
    }
}

fn is_opposite(assume: &Option<Lit>, question: Lit) -> bool
    ensures { IsTrue result ↔ (assume.now ≡ Some (negated question)) }
{
    match assume {
        Some(a) => *a == question.negated(),
        None => false,
    }
}

fn is_negation(assume: &Option<Lit>, question: Lit, lit: Lit) -> bool
    ensures { result ≡ is_negation assume.now question lit }
{
    match assume {
        Some(a) => lit == question.negated() || lit == a.negated(),
        None => lit == question.negated(),
    }
}

// Whether each literal of a line is the negation of the question or of what is assumed.
fn denies(line: &[Lit], assume: &Option<Lit>, question: Lit) -> bool
    ensures { result ≡ list_all (is_negation assume.now question) line.now }
{
    for l in line {
        if !is_negation(assume, question, *l) {
            return false;
        }
    }
    true
}

/// A list of lines, each with whether it was derived. A line is derived only if it follows from
/// those before it by unit propagation along the hints given with it (reverse unit propagation,
/// as in LRAT).
#[derive(Drop)]
pub struct Checker {
    lines: Store,
    derived: Vec<bool>,
    held: Held,
    used: BTreeSet<usize>,
    alloc: Global,
}

impl Checker {
    /// No lines, which takes no memory.
    pub fn new(alloc: Global) -> Checker
        ensures lines { ⟦<Checker as Adds>⟧.lines result ≡ [] }
        ensures derived { ⟦<Checker as Adds>⟧.derived result ≡ [] }
    {
        Checker {
            lines: Store::new(alloc),
            derived: Vec::new(alloc),
            held: Held::new(alloc),
            used: BTreeSet::new(alloc),
            alloc,
        }
    }

    /// The number of lines.
    pub fn len(&self) -> usize
        ensures { result ≡ length (⟦<Checker as Adds>⟧.lines self.now) }
    {
        self.lines.len()
    }

    /// Whether the lines have the empty clause, or the clause of the negation of `assume` alone.
    /// Such a line mostly came last, so the search begins there.
    pub fn refutes(&self, assume: Option<Lit>) -> bool
        ensures { IsTrue result ↔ IsRefuted (⟦<Checker as Adds>⟧.lines self.now) assume }
    {
        let mut i = self.lines.len();
        'lines: while i > 0 {
            i -= 1;
            if refutes_line(self.lines.at(i), &assume) {
                return true;
            }
        }
        false
    }

    /// Why no model of the lines makes what is assumed and the question true, where one line says so
    /// or the two are opposite. Such a line mostly came last, so the search begins there.
    pub fn denial(&self, assume: Option<Lit>, question: Lit) -> Option<Denial>
        ensures { MatchOption result (IsDenied (⟦<Checker as Adds>⟧.lines self.now) assume question → ⊥) (IsDenial (⟦<Checker as Adds>⟧.lines self.now) assume question) }
    {
        if is_opposite(&assume, question) {
            return Some(Denial::Opposite);
        }
        let mut i = self.lines.len();
        'lines: while i > 0 {
            i -= 1;
            if denies(self.lines.at(i), &assume, question) {
                return Some(Denial::Line(i));
            }
        }
        None
    }

    fn put(&mut self, lits: &[Lit], derived: bool) -> Result<(), NoMemory>
        ensures lines { OnOk result (self.new.lines ≡ self.old.lines ++ lits.now ∷ []) }
        ensures derived { OnOk result (self.new.derived.items ≡ self.old.derived.items ++ derived ∷ []) }
        ensures err_lines { OnErr result (self.new.lines ≡ self.old.lines) }
        ensures err_derived { OnErr result (self.new.derived.items ≡ self.old.derived.items) }
    {
        self.derived.reserve(1)?;
        self.lines.push(lits)?;
        self.derived.push_reserved(derived);
        Ok(())
    }

    // Keeps the literals of a line, each once, if it is long and some are repeated. When out of
    // memory for it, nothing is kept.
    fn shorten(&mut self, i: usize, lits: &[Lit])
        requires known { i < length self.old.lines }
        requires line { line_at self.old.lines i ≡ lits.now }
        ensures lines { self.new.lines ≡ self.old.lines }
        ensures derived { self.new.derived ≡ self.old.derived }
    {
        if lits.len() < LONG {
            return;
        }
        if let Ok(line) = without_repeats(self.alloc, lits, &mut self.held) {
            if line.len() < lits.len() {
                let _ = self.lines.keep_brief(i, line.as_slice());
            }
        }
    }
}

impl Adds for Checker {
    ghost lines = { λ c. c.lines };

    ghost derived = { λ c. c.derived.items };

    fn add(&mut self, lits: &[Lit]) -> Result<(), NoMemory> {
        self.held.make_room(lits)?;
        self.put(lits, false)
    }
}

impl Lines for Checker {
    fn derive(&mut self, lits: &[Lit], hints: &[usize]) -> Result<bool, NoMemory> {
        let yes = check(&mut self.held, &mut self.used, &self.lines, lits, hints)?;
        if yes {
            let i = self.lines.len();
            self.put(lits, true)?;
            self.shorten(i, lits);
        }
        Ok(yes)
    }
}
