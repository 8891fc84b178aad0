//! The literals that a check assumes or has derived, with a fast test. How the set is kept may
//! change: contracts see a list of literals.

ghost use Rattle.std.specs.Prelude.{◌≡◌, ◌≢◌, ℕ, ◌≤◌, ◌^◌, [], ◌||◌, false, length, slice_index_or, OnOk};
ghost use Rattle.rt_clause.specs.Literal.{Literal, lit_eq};
ghost use Rattle.rt_clause.specs.Lists.{has};

use rt_clause::Lit;
use rt_value::NoMemory;
use std::alloc::Global;
use std::collections::BTreeSet;
use std::marker::Model;

/// A set of literals, which contracts see as a list in some order. A literal for which room was
/// made has a mark, and all others are in an ordered set. So a literal with a huge variable takes
/// no more memory than another. To empty the set takes time linear in what it holds.
#[derive(Drop)]
pub(crate) struct Held {
    marks: Vec<bool>,
    far: BTreeSet<usize>,
    lits: Vec<Lit>,
}

impl Model for Held {
    ghost use Rattle.std.specs.Prelude.{List};
    ghost use Rattle.rt_clause.specs.Literal.{Literal};
    ghost use Rattle.rt_derive.specs.Marking.{AreMarks};

    ghost Value = { List Literal };

    ghost view = { λ h. h.lits.items };

    ghost invariant = { λ h. AreMarks h.marks.items h.far.keys h.lits.items };
}

// The number of marks with which each literal of the line has one.
fn marks_for(line: &[Lit]) -> usize
    ensures { result ≤ 2 ^ 63 }
{
    let mut room = 0;
    for lit in line {
        let at = lit.index();
        if room <= at {
            room = at + 1;
        }
    }
    room
}

// Makes the list at least so long, and changes no entry.
fn widen(marks: &mut Vec<bool>, room: usize) -> Result<(), NoMemory>
    requires { room ≤ 2 ^ 63 }
    ensures longer { length marks.old.items ≤ length marks.new.items }
    ensures same { (k : ℕ) → slice_index_or marks.new.items k false ≡ slice_index_or marks.old.items k false }
{
    if marks.len() < room {
        marks.resize(room, false)?;
    }
    Ok(())
}

// Takes one mark away, where it is there.
fn unmark(marks: &mut Vec<bool>, at: usize)
    ensures off { slice_index_or marks.new.items at false ≡ false }
    ensures others { (k : ℕ) → k ≢ at → slice_index_or marks.new.items k false ≡ slice_index_or marks.old.items k false }
{
    if at < marks.len() {
        marks[at] = false;
    }
}

impl Held {
    /// No literals, which takes no memory.
    pub(crate) fn new(alloc: Global) -> Held
        ensures { result ≡ [] }
    {
        Held {
            marks: Vec::new(alloc),
            far: BTreeSet::new(alloc),
            lits: Vec::new(alloc),
        }
    }

    /// Empties the set, and makes room for a mark of each literal of the line.
    pub(crate) fn make_room(&mut self, line: &[Lit]) -> Result<(), NoMemory>
        ensures { self.new ≡ [] }
    {
        self.clear();
        widen(&mut self.marks, marks_for(line))
    }

    /// Whether the literal is in the set.
    pub(crate) fn has(&self, lit: Lit) -> bool
        ensures { result ≡ has self.now lit }
    {
        let at = lit.index();
        if at < self.marks.len() {
            self.marks[at]
        } else {
            self.far.contains(&at)
        }
    }

    /// Puts the literal into the set.
    pub(crate) fn put(&mut self, lit: Lit) -> Result<(), NoMemory>
        ensures ok { OnOk result ((l : Literal) → has self.new l ≡ (lit_eq l lit || has self.old l)) }
    {
        self.lits.reserve(1)?;
        let at = lit.index();
        if at < self.marks.len() {
            self.marks[at] = true;
        } else {
            self.far.insert(at)?;
        }
        self.lits.push_reserved(lit);
        Ok(())
    }

    /// Empties the set, and keeps the room for marks.
    pub(crate) fn clear(&mut self)
        ensures { self.new ≡ [] }
    {
        for i in 0..self.lits.len() {
            let lit = self.lits[i];
            unmark(&mut self.marks, lit.index());
        }
        self.far.clear();
        self.lits.clear();
    }
}
