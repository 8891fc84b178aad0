//! Rows that were noted with nodes, looked up by the row. The map behind it is private: contracts
//! see the list of nodes of each row.

ghost use Rattle.std.specs.Prelude.{◌≡◌, ◌++◌, ◌∷◌, [], List, cond, IfOk, OnOk};
ghost use Rattle.rt_value.specs.Row.{row_eq};
ghost use Rattle.rt_value.specs.declared.value.Value.{Value};
ghost use Rattle.rt_formula.specs.Groups.{group_at, standing};

use crate::entry::Node;
use crate::noted::Noted;
use rt_value::{List, NoMemory, Row};
use std::alloc::Global;
use std::collections::BTreeMap;
use std::marker::Model;

/// For each row the nodes of the noted rows that are the same as it, in the order in which they
/// were noted. NULL is the same as NULL here. To find them takes time in the logarithm of the
/// number of different rows.
pub struct Groups {
    nodes: BTreeMap<Row, List<Node>>,
    alloc: Global,
}

impl Drop for Groups {
    fn drop(self) {
        let Groups { nodes: _, alloc: _ } = self;
    }
}

impl Model for Groups {
    ghost use Rattle.rt_formula.specs.Groups.{Grouped};

    ghost Value = { Grouped };

    ghost view = { λ g. g.nodes.entries };
}

impl Groups {
    /// No rows, which takes no memory.
    pub fn new(alloc: Global) -> Groups
        ensures { (row : List Value) → group_at result row ≡ [] }
    {
        Groups {
            nodes: BTreeMap::new(alloc),
            alloc,
        }
    }

    /// Notes one more row.
    pub fn put(&mut self, noted: &Noted) -> Result<(), NoMemory>
        ensures { OnOk result ((row : List Value) → group_at self.new row ≡ group_at self.old row ++ cond (row_eq row noted.now.row) (noted.now.node ∷ []) []) }
    {
        match self.nodes.get_mut(&noted.row) {
            Some(group) => group.push(noted.node),
            None => {
                let row = noted.row.copy(self.alloc)?;
                self.set(row, noted.node)
            }
        }
    }

    /// Makes one node the whole group of a row. After an error the rows that are the same as it
    /// may be lost.
    pub fn set(&mut self, row: Row, node: Node) -> Result<(), NoMemory>
        ensures { OnOk result ((other : List Value) → group_at self.new other ≡ cond (row_eq other row) (node ∷ []) (group_at self.old other)) }
    {
        let mut group = List::new(self.alloc);
        group.push(node)?;
        self.nodes.insert(row, group)?;
        Ok(())
    }

    /// The groups of all these rows.
    pub fn of(alloc: Global, rows: &[Noted]) -> Result<Groups, NoMemory>
        ensures { IfOk result (λ g. (row : List Value) → group_at g row ≡ standing row rows.now) }
    {
        let mut groups = Groups::new(alloc);
        for noted in rows {
            groups.put(noted)?;
        }
        Ok(groups)
    }

    /// The nodes of a row, none if it was never noted.
    pub fn get(&self, row: &Row) -> &[Node]
        ensures { result.now ≡ group_at self.now row.now }
    {
        match self.nodes.get(row) {
            Some(group) => group.as_slice(),
            None => &[],
        }
    }
}
