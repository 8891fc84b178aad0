//! Which variable is decided next. Contracts see which ones may be offered, never which comes first but
//! in the fixed order.

ghost use Rattle.std.specs.Prelude.{◌≡◌, ℕ, List, ◌∷◌, ◌<◌, ◌≤◌, length, true, None, IsTrue, ◌↔◌, OnOk, MatchOption};
ghost use Rattle.rt_store.specs.declared.trail.Step.{Step};
ghost use Rattle.rt_store.specs.Trail.{value_in};
ghost use Rattle.rt_solver.specs.Search.{HasValues};
ghost use Rattle.rt_solver.specs.Picking.{holds, HasOpen, HasOpenBut, AreSet, IsOffered, IsPicked};

use rt_store::{Heap, Trail};
use rt_value::NoMemory;
use std::alloc::Global;
use std::marker::Model;

/// Which variable is decided next: of those below a bound the one that counts most, which a heap
/// finds, and then the smallest of the others. No call but `begin` takes memory. It counts how often it
/// aged, which is once a conflict, up to its type's greatest value.
#[derive(Drop)]
pub(crate) struct Decider {
    heap: Heap,
    bound: usize,
    next: usize,
    conflicts: u64,
}

impl Model for Decider {
    ghost use Rattle.std.specs.Prelude.{◌≤◌, length};
    ghost use Rattle.rt_solver.specs.Picking.{Picking};

    ghost Value = { Picking };

    ghost view = { λ p. record { held = p.heap; bound = p.bound; next = p.next } };

    ghost invariant = { λ p. p.bound ≤ length p.heap };
}

// Takes all variables out of a heap where its bound falls.
fn lower(heap: &mut Heap, falls: bool)
    ensures { length heap.new ≡ length heap.old }
{
    if falls {
        heap.clear();
    }
}

// Puts the variables below a bound into a heap.
fn fill(heap: &mut Heap, bound: usize)
    requires { bound ≤ length heap.old }
    ensures len { length heap.new ≡ length heap.old }
    ensures held { (v : ℕ) → v < bound → holds heap.new v ≡ true }
{
    for v in 0..bound {
        heap.put(v);
    }
}

fn is_open(trail: &Trail, bound: usize, v: usize) -> bool
    requires { bound ≤ trail.now.vars }
    ensures { IsTrue result ↔ ((v < bound) × (value_in trail.now.steps v ≡ None)) }
{
    v < bound && trail.value(v).is_none()
}

// Takes variables out of a heap until one below a bound is open.
fn take(heap: &mut Heap, trail: &Trail, bound: usize) -> Option<usize>
    requires bound { bound ≤ trail.now.vars }
    requires open { HasOpen bound heap.old trail.now.steps }
    ensures len { length heap.new ≡ length heap.old }
    ensures taken { MatchOption result (HasValues bound trail.now.steps) (λ v. (v < bound) × (value_in trail.now.steps v ≡ None) × HasOpenBut bound heap.new trail.now.steps v) }
{
    'held: while let Some(v) = heap.take() {
        if is_open(trail, bound, v) {
            return Some(v);
        }
    }
    None
}

// The smallest open variable from one on.
fn smallest(trail: &Trail, from: usize) -> Option<usize>
    ensures { MatchOption result (AreSet from trail.now.vars trail.now.steps) (λ v. (v < trail.now.vars) × (value_in trail.now.steps v ≡ None) × AreSet from v trail.now.steps) }
{
    for v in from..trail.vars() {
        if trail.value(v).is_none() {
            return Some(v);
        }
    }
    None
}

impl Decider {
    pub(crate) fn new(alloc: Global) -> Decider
        ensures { result.bound ≡ 0 }
    {
        Decider {
            heap: Heap::new(alloc),
            bound: 0,
            next: 0,
            conflicts: 0,
        }
    }

    pub(crate) fn conflicts(&self) -> u64 {
        self.conflicts
    }

    /// Begins a search over so many variables. Where the bound does not fall, the heap stays, and
    /// only what was taken out is put in again.
    pub(crate) fn begin(&mut self, vars: usize, bound: usize) -> Result<(), NoMemory>
        requires { bound ≤ vars }
        ensures bound { OnOk result (self.new.bound ≡ bound) }
        ensures offered { OnOk result ((steps : List Step) → IsOffered self.new steps) }
    {
        self.heap.grow(vars)?;
        lower(&mut self.heap, bound < self.bound);
        fill(&mut self.heap, bound);
        self.bound = bound;
        self.next = bound;
        Ok(())
    }

    /// The variable to be decided next, where one is open.
    pub(crate) fn pick(&mut self, trail: &Trail) -> Option<usize>
        requires bound { self.old.bound ≤ trail.now.vars }
        requires offered { IsOffered self.old trail.now.steps }
        ensures bound { self.new.bound ≡ self.old.bound }
        ensures picked { MatchOption result (HasValues trail.now.vars trail.now.steps) (λ v. IsPicked self.new trail.now.vars trail.now.steps v) }
    {
        match take(&mut self.heap, trail, self.bound) {
            Some(v) => Some(v),
            None => {
                let v = smallest(trail, self.next)?;
                self.next = v;
                Some(v)
            }
        }
    }

    /// The newest variable with a value has lost it.
    pub(crate) fn free(&mut self, v: usize)
        ensures bound { self.new.bound ≡ self.old.bound }
        ensures offered { (s : Step) (steps : List Step) → s.lit.var ≡ v → IsOffered self.old (s ∷ steps) → IsOffered self.new steps }
    {
        if v < self.bound {
            self.heap.put(v);
        } else if v < self.next {
            self.next = v;
        }
    }

    /// Lets a variable count for more.
    pub(crate) fn raise(&mut self, v: usize)
        ensures { self.new ≡ self.old }
    {
        if v < self.heap.len() {
            self.heap.raise(v);
        }
    }

    /// Lets later raises count for more, after a conflict.
    pub(crate) fn age(&mut self)
        ensures { self.new ≡ self.old }
    {
        self.heap.age();
        self.conflicts = self.conflicts.saturating_add(1);
    }
}
