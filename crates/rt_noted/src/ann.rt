//! The answer of a query at all choices at once: a map from rows to nodes. That it is a BTreeMap
//! is private; contracts see rows in order, each with its node.

ghost use Rattle.std.specs.Prelude.{◌≡◌, not, IfOk, length};
ghost use Rattle.std.specs.List.Sorted.{IsStrictlySortedBy};
ghost use Rattle.std.specs.Map.{keys_of};
ghost use Rattle.rt_value.specs.Row.{row_cmp};
ghost use Rattle.rt_formula.specs.Shared.{IsGrown};
ghost use Rattle.rt_noted.specs.Annotated.{AreNoted, IsNode, entries_of};
ghost use Rattle.rt_noted.specs.Ann.{AreOf, node_at, node_value, IsMerged};

use rt_formula::{Dag, Groups, Node, Noted};
use rt_value::{NoMemory, Row};
use std::alloc::Global;
use std::collections::BTreeMap;
use std::marker::Model;

/// The rows that may come out of a query, each once, with the nodes that say at which choices of
/// rows they do. A row without a node is in the answer at no choice.
pub struct Ann {
    pub(crate) nodes: BTreeMap<Row, Node>,
}

impl Drop for Ann {
    fn drop(self) {
        let Ann { nodes: _ } = self;
    }
}

impl Model for Ann {
    ghost use Rattle.rt_noted.specs.Ann.{Mapped};
    ghost use Rattle.std.specs.List.Sorted.{IsStrictlySortedBy};
    ghost use Rattle.std.specs.Map.{keys_of};
    ghost use Rattle.rt_value.specs.Row.{row_cmp};

    ghost Value = { Mapped };

    ghost view = { λ a. a.nodes.entries };

    ghost invariant = { λ a. IsStrictlySortedBy row_cmp (keys_of a.nodes.entries) };
}

impl Ann {
    /// The node of a row.
    pub fn get(&self, row: &Row) -> Option<Node>
        ensures { result ≡ node_at self.now row.now }
    {
        self.nodes.get(row).copied()
    }

    /// The number of rows that have a node.
    pub fn len(&self) -> usize
        ensures len { result ≡ length self.now }
        ensures sorted { IsStrictlySortedBy row_cmp (keys_of self.now) }
    {
        self.nodes.len()
    }

    /// Each row once, with the `any` of its nodes.
    pub fn merged(alloc: Global, dag: &mut Dag, rows: &[Noted]) -> Result<Ann, NoMemory>
        requires { AreNoted dag.old rows.now }
        ensures grown { IsGrown dag.old dag.new }
        ensures merged { IfOk result (λ a. IsMerged dag.new a (entries_of dag.old rows.now)) }
    {
        let groups = Groups::of(alloc, rows)?;
        let mut nodes = BTreeMap::new(alloc);
        for noted in rows {
            if !nodes.contains_key(&noted.row) {
                let node = dag.any(groups.get(&noted.row))?;
                let key = noted.row.copy(alloc)?;
                nodes.insert(key, node)?;
            }
        }
        let _len = nodes.len();
        Ok(Ann { nodes })
    }

    /// The node that is true where the row is not in the answer.
    pub fn lacks(&self, dag: &mut Dag, row: &Row) -> Result<Node, NoMemory>
        requires { AreOf dag.old self.now }
        ensures grown { IsGrown dag.old dag.new }
        ensures node { IfOk result (λ n. IsNode dag.new n (λ s. not (node_value dag.old s (node_at self.now row.now)))) }
    {
        match self.get(row) {
            Some(node) => dag.not(node),
            None => Ok(dag.yes()),
        }
    }
}
