//! The heap of variables by their activities. The activities and the order are private: no contract above
//! rests on which variable comes first.

ghost use Rattle.std.specs.Prelude.{◌≡◌, [], ◌<◌, ◌-◌, ◌++◌, true, false, length, replicate, slice_set, slice_index_or, OnOk, OnErr, MatchOption};
ghost use Rattle.rt_store.specs.Members.{IsEmpty};

use crate::places::HeapOrder;
use crate::sift::{sift_down, sift_up};
use rt_value::NoMemory;
use std::alloc::Global;
use std::marker::Model;

// What the first conflicts raise an activity by; each next step is greater by one at least.
const FIRST_STEP: u64 = 64;

// No activity and no step grows past this number.
const LIMIT: u64 = 1 << 62;

/// A heap of variables: the one with the greatest activity first, of equal ones the smallest, where
/// they were not made equal by a halving. Contracts see for each variable whether it is in the heap.
///
/// The first `count` variables of the order are in the heap, the others behind them, so that
/// a variable that comes back finds a place with no memory taken.
#[derive(Drop)]
pub struct Heap {
    order: HeapOrder,
    count: usize,
    // Perhaps more than variables: where `grow` lacks memory some may be there already.
    activities: Vec<u64>,
    step: u64,
}

impl Model for Heap {
    ghost use Rattle.std.specs.Prelude.{List, Bool, ◌≤◌, length};
    ghost use Rattle.rt_store.specs.Members.{members};

    ghost Value = { List Bool };

    ghost view = { λ h. members h.count h.order };

    ghost invariant = { λ h. (h.count ≤ length h.order) × (length h.order ≤ length h.activities.items) };
}

impl Heap {
    /// A heap of no variables, which takes no memory.
    pub fn new(alloc: Global) -> Heap
        ensures { result ≡ [] }
    {
        Heap {
            order: HeapOrder::new(alloc),
            count: 0,
            activities: Vec::new(alloc),
            step: FIRST_STEP,
        }
    }

    /// Makes the variables at least so many; new ones are not in the heap. No other call takes
    /// memory.
    pub fn grow(&mut self, count: usize) -> Result<(), NoMemory>
        ensures ok { OnOk result (self.new ≡ self.old ++ replicate (count - length self.old) false) }
        ensures err { OnErr result (self.new ≡ self.old) }
    {
        if self.activities.len() < count {
            self.activities.resize(count, 0)?;
        }
        self.order.grow(count)?;
        Ok(())
    }

    /// How many variables there are, in the heap or not.
    pub fn len(&self) -> usize
        ensures { result ≡ length self.now }
    {
        self.order.len()
    }

    /// Whether the variable is in the heap.
    pub fn holds(&self, var: usize) -> bool
        requires { var < length self.now }
        ensures { result ≡ slice_index_or self.now var false }
    {
        self.order.place(var) < self.count
    }

    /// Puts a variable in, unless it is there.
    pub fn put(&mut self, var: usize)
        requires { var < length self.old }
        ensures { self.new ≡ slice_set self.old var true }
    {
        let place = self.order.place(var);
        if place < self.count {
            return;
        }
        self.order.swap(place, self.count);
        self.count += 1;
        sift_up(&mut self.order, &self.activities, self.count - 1);
    }

    /// Takes out the first variable.
    pub fn take(&mut self) -> Option<usize>
        ensures { MatchOption result ((self.new ≡ self.old) × IsEmpty self.old) (λ var. (var < length self.old) × (slice_index_or self.old var false ≡ true) × (self.new ≡ slice_set self.old var false)) }
    {
        if self.count == 0 {
            return None;
        }
        let first = self.order.at(0);
        self.count -= 1;
        self.order.swap(0, self.count);
        sift_down(&mut self.order, &self.activities, self.count);
        Some(first)
    }

    /// Takes out all variables.
    pub fn clear(&mut self)
        ensures { self.new ≡ replicate (length self.old) false }
    {
        self.count = 0;
    }

    /// Raises the variable's activity by the step.
    pub fn raise(&mut self, var: usize)
        requires { var < length self.old }
        ensures { self.new ≡ self.old }
    {
        if self.activities[var].saturating_add(self.step) > LIMIT {
            self.halve();
        }
        self.activities[var] = self.activities[var].saturating_add(self.step);
        let place = self.order.place(var);
        if place < self.count {
            sift_up(&mut self.order, &self.activities, place);
        }
    }

    /// Lets the step grow by an eightieth part, so that later raises count for more.
    pub fn age(&mut self)
        ensures { self.new ≡ self.old }
    {
        if self.step > LIMIT / 2 {
            self.halve();
        }
        self.step = self.step.saturating_add(self.step / 80 + 1);
    }

    // Halves the step and all activities. Where two activities become equal, the greater variable may
    // stay before the smaller one until one of them moves: no answer rests on the order.
    fn halve(&mut self)
        ensures { self.new ≡ self.old }
    {
        for activity in &mut self.activities {
            *activity /= 2;
        }
        self.step /= 2;
    }
}
