//! The trail: the literals that are true, and why each is.

ghost use Rattle.std.specs.Prelude.{◌≡◌, ◌<◌, ◌≤◌, [], ◌∷◌, length, None, IfOk, IsTrue, MatchOption, ◌↔◌};
ghost use Rattle.rt_store.specs.declared.trail.Why.TheVariants.{Decided};

use crate::packed::Packed;
use crate::status::Status;
use rt_clause::Lit;
use rt_value::NoMemory;
use std::alloc::Global;
use std::marker::Model;

/// Why a literal is on the trail.
#[derive(Clone, Copy)]
pub enum Why {
    Line(usize),
    Decided,
    Assumed,
}

/// A literal of the trail.
#[derive(Clone, Copy)]
pub struct Step {
    pub lit: Lit,
    pub why: Why,
}

impl Why {
    /// Whether the literal was decided.
    pub fn is_decided(self) -> bool
        ensures { IsTrue result ↔ (self ≡ Decided) }
    {
        match self {
            Why::Line(_) => false,
            Why::Decided => true,
            Why::Assumed => false,
        }
    }
}

/// The literals that are true, in the order in which they became so.
#[derive(Drop)]
pub struct Trail {
    steps: Vec<Packed>,
    // by the index of a literal
    statuses: Vec<Status>,
    // by variable
    places: Vec<usize>,
    root: usize,
}

impl Model for Trail {
    ghost use Rattle.rt_store.specs.Table.{Tracked, IsTable};
    ghost use Rattle.std.specs.Prelude.{reverse, length, vec_capacity, ◌≤◌, ◌≡◌};

    ghost Value = { Tracked };

    ghost view = { λ t. record { steps = reverse t.steps.items; vars = length t.places.items } };

    ghost invariant = { λ t. IsTable t.statuses.items (length t.places.items) (reverse t.steps.items) (vec_capacity t.steps) × (t.root ≤ length t.steps.items) };
}

impl Trail {
    ghost use Rattle.std.specs.Prelude.{◌≡◌, [], ◌∷◌, ◌<◌, ◌≤◌, length, Some, None, IfOk, MatchOption};
    ghost use Rattle.std.specs.Prelude.{◌+◌};
    ghost use Rattle.rt_clause.specs.Lists.{has, is_false};
    ghost use Rattle.rt_store.specs.Trail.{value_in, IsApart, lits, oldest};
    ghost use Rattle.rt_store.specs.Table.{IsStatus, status_at};

    /// No steps over so many variables, with room for a step of each.
    pub fn new(alloc: Global, vars: usize) -> Result<Trail, NoMemory>
        ensures steps { IfOk result (λ t. t.steps ≡ []) }
        ensures vars { IfOk result (λ t. t.vars ≡ vars) }
    {
        let Some(literals) = vars.checked_mul(2) else {
            return Err(NoMemory);
        };
        let steps = Vec::with_capacity(alloc, vars)?;
        let statuses = vec![in alloc; Status::Unassigned; literals]?;
        let places = vec![in alloc; 0; vars]?;
        Ok(Trail {
            steps,
            statuses,
            places,
            root: 0,
        })
    }

    /// How many variables may be on the trail.
    pub fn vars(&self) -> usize
        ensures vars { result ≡ self.now.vars }
        ensures apart { IsApart self.now.vars self.now.steps }
    {
        self.places.len()
    }

    // Whether a literal is true, false or unassigned.
    fn status(&self, lit: Lit) -> Status
        requires { lit.var < self.now.vars }
        ensures is { result ≡ status_at (value_in self.now.steps lit.var) lit.on }
        ensures apart { IsApart self.now.vars self.now.steps }
    {
        self.statuses[lit.index()]
    }

    /// The value of a variable, where it has one.
    pub fn value(&self, v: usize) -> Option<bool>
        requires { v < self.now.vars }
        ensures { result ≡ value_in self.now.steps v }
    {
        // the literal that is true at true
        match self.statuses[2 * v + 1] {
            Status::True => Some(true),
            Status::False => Some(false),
            Status::Unassigned => None,
        }
    }

    /// Whether a literal is true or false, or its variable has no value.
    pub fn is(&self, lit: Lit) -> Option<bool>
        requires { lit.var < self.now.vars }
        ensures status { IsStatus (lits self.now.steps) (value_in self.now.steps lit.var) lit result }
        ensures apart { IsApart self.now.vars self.now.steps }
    {
        match self.status(lit) {
            Status::True => Some(true),
            Status::False => Some(false),
            Status::Unassigned => None,
        }
    }

    /// Whether a literal is true.
    pub fn is_true(&self, lit: Lit) -> bool
        requires { lit.var < self.now.vars }
        ensures is { result ≡ has (lits self.now.steps) lit }
        ensures apart { IsApart self.now.vars self.now.steps }
    {
        match self.status(lit) {
            Status::True => true,
            Status::False => false,
            Status::Unassigned => false,
        }
    }

    /// Whether a literal is false.
    pub fn is_false(&self, lit: Lit) -> bool
        requires { lit.var < self.now.vars }
        ensures { result ≡ is_false (lits self.now.steps) lit }
    {
        match self.status(lit) {
            Status::True => false,
            Status::False => true,
            Status::Unassigned => false,
        }
    }

    /// The number of steps.
    pub fn len(&self) -> usize
        ensures is { result ≡ length self.now.steps }
        ensures apart { IsApart self.now.vars self.now.steps }
    {
        self.steps.len()
    }

    /// Whether a variable with a value got it before the first decision.
    pub fn is_early(&self, v: usize) -> bool
        requires { v < self.now.vars }
    {
        self.places[v] < self.root
    }

    /// Why a variable has its value, where it has one.
    pub fn why(&self, v: usize) -> Option<Why>
        requires { v < self.now.vars }
    {
        let place = self.places[v];
        if place < self.steps.len() {
            Some(self.steps[place].why())
        } else {
            None
        }
    }

    /// The step at a place, counted from the oldest.
    pub fn at(&self, i: usize) -> Step
        requires { i < length self.now.steps }
        ensures step { oldest (i + 1) self.now.steps ≡ result ∷ oldest i self.now.steps }
        ensures apart { IsApart self.now.vars self.now.steps }
    {
        self.steps[i].step()
    }

    /// The number of steps before the first decision.
    pub fn root(&self) -> usize
        ensures { result ≤ length self.now.steps }
    {
        self.root
    }

    /// One more step, which takes no memory.
    pub fn push(&mut self, step: Step)
        requires below { step.lit.var < self.old.vars }
        requires unset { value_in self.old.steps step.lit.var ≡ None }
        ensures steps { self.new.steps ≡ step ∷ self.old.steps }
        ensures apart { IsApart self.new.vars self.new.steps }
        ensures vars { self.new.vars ≡ self.old.vars }
    {
        let lit = step.lit;
        let v = lit.var();
        let is_root = self.root == self.steps.len() && !step.why.is_decided();
        self.steps.push_reserved(Packed::of(step));
        self.statuses[lit.index()] = Status::True;
        self.statuses[lit.negated().index()] = Status::False;
        self.places[v] = self.steps.len() - 1;
        if is_root {
            self.root = self.steps.len();
        }
    }

    /// Takes back the newest step.
    pub fn pop(&mut self) -> Option<Step>
        ensures step { MatchOption result ((self.old.steps ≡ []) × (self.new ≡ self.old)) (λ s. self.old.steps ≡ s ∷ self.new.steps) }
        ensures vars { self.new.vars ≡ self.old.vars }
    {
        let packed = self.steps.pop()?;
        let step = packed.step();
        let lit = step.lit;
        self.statuses[lit.index()] = Status::Unassigned;
        self.statuses[lit.negated().index()] = Status::Unassigned;
        self.root = self.root.min(self.steps.len());
        Some(step)
    }
}
