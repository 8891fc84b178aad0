//! An index of rows by their values in some columns. The map behind it is private: contracts see
//! the list of places of each key.

ghost use Rattle.std.specs.Prelude.{◌≡◌, ◌<◌, ◌≤◌, ◌+◌, ◌^◌, ◌++◌, ◌∷◌, [], List, cond, length, IfOk, OnOk};
ghost use Rattle.rt_value.specs.Row.{row_eq};
ghost use Rattle.rt_value.specs.declared.value.Value.{Value};
ghost use Rattle.rt_schema.specs.Cells.{cells};
ghost use Rattle.rt_formula.specs.Groups.{group_at};
ghost use Rattle.rt_rules.specs.Cone.{places_where};

use crate::cells::cells;
use rt_value::{List, NoMemory, Row};
use std::alloc::Global;
use std::collections::BTreeMap;
use std::marker::Model;

/// The places of rows, grouped by their values in some columns. To find a group takes time in the
/// logarithm of the number of groups.
#[derive(Drop)]
pub(crate) struct PlaceGroups {
    places: BTreeMap<Row, List<usize>>,
    alloc: Global,
}

impl Model for PlaceGroups {
    ghost use Rattle.rt_formula.specs.Groups.{Grouped};

    ghost Value = { Grouped };

    ghost view = { λ g. g.places.entries };
}

impl PlaceGroups {
    // No groups, which takes no memory.
    fn new(alloc: Global) -> PlaceGroups
        ensures { (key : List Value) → group_at result key ≡ [] }
    {
        PlaceGroups {
            places: BTreeMap::new(alloc),
            alloc,
        }
    }

    // Puts a place into the group of a key. After an error that group may be lost.
    fn put(&mut self, key: Row, place: usize) -> Result<(), NoMemory>
        ensures { OnOk result ((row : List Value) → group_at self.new row ≡ group_at self.old row ++ cond (row_eq row key) (place ∷ []) []) }
    {
        let mut group = self.places.remove(&key).unwrap_or(List::new(self.alloc));
        group.push(place)?;
        self.places.insert(key, group)?;
        Ok(())
    }

    /// The rows of a table by their values in the columns, `base` being the place of the first
    /// row.
    pub(crate) fn of(
        alloc: Global,
        columns: &[usize],
        rows: &[Row],
        base: usize,
    ) -> Result<PlaceGroups, NoMemory>
        requires { base + length rows.now < 2 ^ 64 }
        ensures { IfOk result (λ g. (key : List Value) → group_at g key ≡ places_where (λ row. row_eq key (cells columns.now row)) base rows.now) }
    {
        let mut groups = PlaceGroups::new(alloc);
        for (at, row) in rows.iter().enumerate() {
            let key = cells(alloc, columns, row)?;
            groups.put(key, base + at)?;
        }
        Ok(groups)
    }

    /// The places of the rows with these values, rising; none if no row has them.
    pub(crate) fn get(&self, key: &Row) -> &[usize]
        ensures { result.now ≡ group_at self.now key.now }
    {
        match self.places.get(key) {
            Some(group) => group.as_slice(),
            None => &[],
        }
    }
}
