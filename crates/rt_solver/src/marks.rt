//! Marks on variables while a conflict is analyzed.

ghost use Rattle.std.specs.Prelude.{◌≡◌, ℕ, List, ◌+◌, ◌-◌, ◌<◌, ◌≤◌, length, true, false, IfOk, OnOk, MatchOption};
ghost use Rattle.rt_clause.specs.Literal.{Literal};
ghost use Rattle.rt_clause.specs.Lists.{has};
ghost use Rattle.rt_store.specs.declared.trail.Step.{Step};
ghost use Rattle.rt_solver.specs.Looking.{IsBelow};
ghost use Rattle.rt_solver.specs.Marking.{marked_by, marked_steps, IsUnmarked};
ghost use Rattle.rt_store.specs.Trail.{IsApart};

use rt_store::Clause;
use rt_value::NoMemory;
use std::alloc::Global;
use std::marker::Model;

/// Which variables are marked, and how many of them are still to be visited. They are kept from one
/// conflict to the next, so that taking the marks away costs no more than setting them did.
#[derive(Drop)]
pub(crate) struct Marks {
    marks: Vec<bool>,
    marked: Vec<usize>,
    due: usize,
}

impl Model for Marks {
    ghost use Rattle.rt_solver.specs.Marking.{Marked, IsMarking};

    ghost Value = { Marked };

    ghost view = { λ m. record { marks = m.marks.items; marked = m.marked.items; due = m.due } };

    ghost invariant = { λ m. IsMarking m.marks.items m.marked.items m.due };
}

impl Marks {
    pub(crate) fn new(alloc: Global, n: usize) -> Result<Marks, NoMemory>
        ensures len { IfOk result (λ m. length m.marks ≡ n) }
        ensures none { IfOk result (λ m. IsUnmarked m) }
    {
        let marks = vec![in alloc; false; n]?;
        Ok(Marks {
            marks,
            marked: Vec::new(alloc),
            due: 0,
        })
    }

    pub(crate) fn is(&self, v: usize) -> bool
        requires { v < length self.now.marks }
        ensures { result ≡ marked_by self.now v }
    {
        self.marks[v]
    }

    /// How many marked variables are to be visited.
    pub(crate) fn due(&self) -> usize
        ensures { result ≡ self.now.due }
    {
        self.due
    }

    // Marks a variable.
    fn set(&mut self, v: usize) -> Result<(), NoMemory>
        requires { v < length self.old.marks }
        ensures len { length self.new.marks ≡ length self.old.marks }
        ensures kept { (w : ℕ) → marked_by self.old w ≡ true → marked_by self.new w ≡ true }
        ensures is { OnOk result (marked_by self.new v ≡ true) }
        ensures counted { (n : ℕ) (t : List Step) → IsApart n t → marked_steps self.new t + self.old.due ≤ marked_steps self.old t + self.new.due }
    {
        if !self.marks[v] {
            self.marked.push(v)?;
            self.marks[v] = true;
            self.due += 1;
        }
        Ok(())
    }

    /// Marks the variables of a line.
    pub(crate) fn mark(&mut self, line: &Clause) -> Result<(), NoMemory>
        requires { IsBelow (length self.old.marks) line.now }
        ensures len { length self.new.marks ≡ length self.old.marks }
        ensures kept { (v : ℕ) → marked_by self.old v ≡ true → marked_by self.new v ≡ true }
        ensures set { OnOk result ((k : Literal) → has line.now k ≡ true → marked_by self.new k.var ≡ true) }
        ensures counted { (n : ℕ) (t : List Step) → IsApart n t → marked_steps self.new t + self.old.due ≤ marked_steps self.old t + self.new.due }
    {
        for i in 0..line.len() {
            let lit = line.at(i);
            self.set(lit.var())?;
        }
        Ok(())
    }

    /// A marked variable is visited.
    pub(crate) fn visit(&mut self)
        ensures marks { self.new.marks ≡ self.old.marks }
        ensures due { self.new.due ≡ self.old.due - 1 }
    {
        self.due = self.due.saturating_sub(1);
    }

    /// Takes a mark away, and names its variable.
    pub(crate) fn take(&mut self) -> Option<usize>
        ensures len { length self.new.marks ≡ length self.old.marks }
        ensures taken { MatchOption result (IsUnmarked self.new) (λ v. (v < length self.old.marks) × (length self.new.marked < length self.old.marked)) }
    {
        self.due = 0;
        let v = self.marked.pop()?;
        self.marks[v] = false;
        Some(v)
    }
}
