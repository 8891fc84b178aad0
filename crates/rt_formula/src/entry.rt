//! What a formula is made of: nodes, gates' children, and the entry of a node.

ghost use Rattle.std.specs.Prelude.{◌≡◌, ℕ, List, ◌<◌, IsTrue, ◌↔◌, IfOk, true, length};

use rt_value::NoMemory;
use smallvec::SmallVec;
use std::alloc::Global;
use std::hash::{Hash, Hasher};
use std::marker::Model;

/// A node of a `Dag`: the number of its entry.
#[derive(Clone, Copy, Debug, Default, PartialEq, Eq, Hash)]
pub struct Node {
    pub(crate) at: usize,
}

impl Model for Node {
    ghost use Rattle.std.specs.Prelude.{ℕ};

    ghost Value = { ℕ };

    ghost view = { λ n. n.at };

    ghost inverse = { λ n. record { at = n } };
}

/// The children of a gate, in the order in which they were given.
#[derive(Drop)]
pub struct Kids {
    pub(crate) nodes: SmallVec<Node, 4>,
}

impl Model for Kids {
    ghost use Rattle.std.specs.Prelude.{ℕ, List};
    ghost use Rattle.std.specs.Coded.{coded_list, coded_ℕ};

    ghost Value = { List ℕ };

    ghost coded = { coded_list coded_ℕ };

    ghost view = { λ k. k.nodes.items };
}

impl Node {
    /// The node with this number.
    pub(crate) fn of(at: usize) -> Node
        ensures { result ≡ at }
    {
        Node { at }
    }

    /// Its number: older nodes have smaller ones.
    pub fn number(self) -> usize
        ensures { result ≡ self }
    {
        self.at
    }
}

impl Kids {
    /// A copy of these nodes as children.
    pub(crate) fn of(alloc: Global, nodes: &[Node]) -> Result<Kids, NoMemory>
        ensures { IfOk result (λ kids. kids ≡ nodes.now) }
    {
        let nodes = SmallVec::from_slice(alloc, nodes)?;
        Ok(Kids { nodes })
    }

    /// The children in order.
    pub fn as_slice(&self) -> &[Node]
        ensures { result.now ≡ self.now }
    {
        self.nodes.as_slice()
    }
}

impl PartialEq for Kids {
    ghost use Rattle.std.specs.Cmp.Lexicographic.{pointwise, lists_per, lists_equiv};
    ghost use Rattle.std.specs.Prelude.{nat_eq};
    ghost use Rattle.std.specs.Cmp.Rules.{comparing};
    ghost use Rattle.std.proofs.Common.{rules};

    ghost eq = { pointwise nat_eq };

    ghost laws = { Prim.search (comparing, rules) };

    fn eq(&self, other: &Kids) -> bool {
        self.nodes.as_slice() == other.nodes.as_slice()
    }
}

impl Eq for Kids {
    ghost use Rattle.std.specs.Cmp.Rules.{comparing};
    ghost use Rattle.std.proofs.Common.{rules};

    ghost laws = { Prim.search (comparing, rules) };
}

impl Hash for Kids {
    ghost use Rattle.std.specs.Hash as fed;
    ghost use Rattle.std.specs.Cmp.Rules.{hashing};
    ghost use Rattle.std.proofs.Common.{rules};

    ghost hash_input = { fed.slice fed.usize };

    ghost respects_eq = { Prim.search (hashing, rules) };

    fn hash<H: Hasher>(&self, state: &mut H) {
        self.nodes.as_slice().hash(state);
    }
}

/// What a node says: always, never, that a row is kept, or a gate over older nodes.
#[derive(PartialEq, Eq, Hash, Drop)]
pub enum Entry {
    Yes,
    No,
    Row(usize),
    Not(Node),
    All(Kids),
    Any(Kids),
}
