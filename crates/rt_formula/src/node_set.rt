//! A set of nodes that keeps their order, for the children of one gate.

ghost use Rattle.std.specs.Prelude.{◌≡◌, [], OnOk};
ghost use Rattle.rt_formula.specs.Gathering.{has_node, with_node};

use crate::entry::Node;
use indexmap::IndexSet;
use rt_value::NoMemory;
use std::alloc::Global;
use std::marker::Model;

/// Nodes in the order in which they came, each once.
#[derive(Drop)]
pub(crate) struct NodeSet {
    nodes: IndexSet<Node>,
}

impl Model for NodeSet {
    ghost use Rattle.std.specs.Prelude.{List, ℕ};

    ghost Value = { List ℕ };

    ghost view = { λ s. s.nodes.keys };
}

impl NodeSet {
    /// No nodes, which takes no memory.
    pub(crate) fn new(alloc: Global) -> NodeSet
        ensures { result ≡ [] }
    {
        NodeSet {
            nodes: IndexSet::new(alloc),
        }
    }

    /// Whether the node is in the set.
    pub(crate) fn has(&self, node: Node) -> bool
        ensures { result ≡ has_node self.now node }
    {
        self.nodes.contains(&node)
    }

    /// Puts a node at the end, unless the set has it.
    pub(crate) fn put(&mut self, node: Node) -> Result<(), NoMemory>
        ensures { OnOk result (self.new ≡ with_node self.old node) }
    {
        self.nodes.insert(node)?;
        Ok(())
    }

    /// The nodes in order.
    pub(crate) fn as_slice(&self) -> &[Node]
        ensures { result.now ≡ self.now }
    {
        self.nodes.as_slice()
    }
}
