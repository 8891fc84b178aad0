//! The order of the heap's array, and the place of each variable in it.

ghost use Rattle.std.specs.Prelude.{◌≡◌, ℕ, [], ◌<◌, ◌≤◌, ◌-◌, ◌++◌, false, length, map, replicate, slice_index_or, OnOk, OnErr};
ghost use Rattle.rt_store.specs.Members.{members};
ghost use Rattle.rt_store.specs.Places.{exchanged, IsOnlyPlace};

use rt_value::NoMemory;
use std::alloc::Global;
use std::marker::Model;

/// All variables in some order, which contracts see as the place of each.
#[derive(Drop)]
pub struct HeapOrder {
    items: Vec<usize>,
    places: Vec<usize>,
}

impl Model for HeapOrder {
    ghost use Rattle.std.specs.Prelude.{ℕ, List};
    ghost use Rattle.rt_store.specs.Places.{IsInverse};

    ghost Value = { List ℕ };

    ghost view = { λ o. o.places.items };

    ghost invariant = { λ o. IsInverse o.places.items o.items.items };
}

impl HeapOrder {
    /// No variables, which takes no memory.
    pub fn new(alloc: Global) -> HeapOrder
        ensures { result ≡ [] }
    {
        HeapOrder {
            items: Vec::new(alloc),
            places: Vec::new(alloc),
        }
    }

    /// How many variables there are.
    pub fn len(&self) -> usize
        ensures { result ≡ length self.now }
    {
        self.places.len()
    }

    /// The place of a variable.
    pub fn place(&self, var: usize) -> usize
        requires { var < length self.now }
        ensures is { result ≡ slice_index_or self.now var 0 }
        ensures below { result < length self.now }
        ensures alone { IsOnlyPlace self.now var }
    {
        self.places[var]
    }

    /// The variable at a place.
    pub fn at(&self, place: usize) -> usize
        requires { place < length self.now }
        ensures is { slice_index_or self.now result 0 ≡ place }
        ensures below { result < length self.now }
        ensures alone { IsOnlyPlace self.now result }
    {
        self.items[place]
    }

    /// Exchanges the variables of two places.
    pub fn swap(&mut self, i: usize, j: usize)
        requires first { i < length self.old }
        requires second { j < length self.old }
        ensures { self.new ≡ map (exchanged i j) self.old }
    {
        let first = self.items[i];
        let second = self.items[j];
        self.items.swap(i, j);
        self.places[first] = j;
        self.places[second] = i;
    }

    /// Puts variables at the end until there are as many as asked for.
    pub fn grow(&mut self, count: usize) -> Result<(), NoMemory>
        ensures ok { OnOk result ((n : ℕ) → n ≤ length self.old → members n self.new ≡ members n self.old ++ replicate (count - length self.old) false) }
        ensures err { OnErr result (self.new ≡ self.old) }
    {
        let len = self.places.len();
        if count <= len {
            return Ok(());
        }
        self.items.reserve(count - len)?;
        self.places.reserve(count - len)?;
        for var in len..count {
            self.items.push_reserved(var);
            self.places.push_reserved(var);
        }
        Ok(())
    }
}
