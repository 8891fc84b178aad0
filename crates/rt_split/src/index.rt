//! Places by key. That it is a `BTreeMap` is private; what is promised is the order of the places.

ghost use Rattle.std.specs.Prelude.{◌≡◌, ◌++◌, ◌∷◌, [], List, cond, OnOk};
ghost use Rattle.rt_value.specs.Row.{row_eq};
ghost use Rattle.rt_value.specs.declared.value.Value.{Value};
ghost use Rattle.rt_split.specs.Index.{places_at};

use rt_value::{List, NoMemory, Row};
use std::alloc::Global;
use std::collections::BTreeMap;
use std::marker::Model;

/// For each key the places of the rows that have it, in the order in which they were put. Finding
/// them takes time in the logarithm of the number of different keys. The rows (1, 'a'), (2, 'b')
/// and (1, 'c') with the first column as key make {1: [0, 2], 2: [1]}.
#[derive(Drop)]
pub struct Index {
    places: BTreeMap<Row, List<usize>>,
    alloc: Global,
}

impl Model for Index {
    ghost use Rattle.rt_split.specs.Index.{Placed};

    ghost Value = { Placed };

    ghost view = { λ i. i.places.entries };
}

impl Index {
    /// No rows, which takes no memory.
    pub fn new(alloc: Global) -> Index
        ensures { (key : List Value) → places_at result key ≡ [] }
    {
        Index {
            places: BTreeMap::new(alloc),
            alloc,
        }
    }

    /// Puts the place of one more row.
    pub fn put(&mut self, key: Row, place: usize) -> Result<(), NoMemory>
        ensures { OnOk result ((other : List Value) → places_at self.new other ≡ places_at self.old other ++ cond (row_eq other key) (place ∷ []) []) }
    {
        match self.places.get_mut(&key) {
            Some(places) => places.push(place),
            None => {
                let mut places = List::new(self.alloc);
                places.push(place)?;
                self.places.insert(key, places)?;
                Ok(())
            }
        }
    }

    /// The places of the rows with the key, none where no row has it.
    pub fn get(&self, key: &Row) -> &[usize]
        ensures { result.now ≡ places_at self.now key.now }
    {
        match self.places.get(key) {
            Some(places) => places.as_slice(),
            None => &[],
        }
    }
}
