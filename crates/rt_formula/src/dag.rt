//! The shared formula: nodes are added here, and simplified on the way. Which simplifications are
//! made is private; contracts give the value of each node and nothing about its entry.

ghost use Rattle.std.specs.Prelude.{◌≡◌, ℕ, List, [], ◌∷◌, ◌++◌, ◌<◌, ◌≤◌, ◌^◌, Bool, true, false, not, IsTrue, ◌↔◌, IfOk, OnErr, OnOk, length, slice_get};

use crate::entry::{Entry, Kids, Node};
use crate::gather::{Gate, Gathered};
use crate::node_set::NodeSet;
use crate::runs::join_runs;
use crate::values::{value_at, values_of};
use indexmap::IndexSet;
use rt_value::{Keep, List, NoMemory};
use std::alloc::Global;
use std::marker::Model;

// The most nodes there can be; for one more the answer is out of memory.
const MOST_NODES: usize = (1 << 60) - 1;

/// Shared formulas over a number of row variables. Contracts see that number and the entries in
/// order; `val` of `specs/` is the value of a node at a choice of rows.
///
/// Nodes are only added, so a node stays a node and keeps its value. When out of memory, nothing
/// has changed.
pub struct Dag {
    rows: usize,
    entries: IndexSet<Entry>,
    alloc: Global,
}

impl Drop for Dag {
    fn drop(self) {
        let Dag {
            rows: _,
            entries: _,
            alloc: _,
        } = self;
    }
}

impl Model for Dag {
    ghost use Rattle.rt_formula.specs.Shared.{Shared, IsSound};

    ghost Value = { Shared };

    ghost view = { λ d. record { rows = d.rows; entries = d.entries.keys } };

    ghost invariant = { λ d. IsSound (record { rows = d.rows; entries = d.entries.keys }) };
}

impl Dag {
    ghost use Rattle.std.specs.Prelude.{◌≡◌, ℕ, List, [], ◌∷◌, ◌++◌, ◌<◌, ◌≤◌, ◌^◌, Bool, true, false, not, cond, IsTrue, ◌↔◌, IfOk, IfSome, OnErr, OnOk, length, slice_get, None, Some};
    ghost use Rattle.std.specs.List.{list_all, list_any, All as Each};
    ghost use Rattle.rt_formula.specs.Gathering.{AreContrary, IsGathered, IsSifted};
    ghost use Rattle.rt_formula.specs.Shared.{val, values, bool_at, entry_value, truncated, Fits, IsGrown, IsSound};

    /// A Dag with two nodes, the one that is always true and the one that never is.
    pub fn new(alloc: Global, rows: usize) -> Result<Dag, NoMemory>
        requires { rows ≤ 2000 }
        ensures { IfOk result (λ d. d.rows ≡ rows) }
    {
        let mut entries = IndexSet::new(alloc);
        entries.insert_full(Entry::Yes)?;
        entries.insert_full(Entry::No)?;
        Ok(Dag {
            rows,
            entries,
            alloc,
        })
    }

    /// The number of row variables.
    pub fn rows(&self) -> usize
        ensures { result ≡ self.now.rows }
    {
        self.rows
    }

    /// The number of nodes.
    pub fn len(&self) -> usize
        ensures len { result ≡ length self.now.entries }
        ensures small { result < 2 ^ 60 }
        ensures sound { IsSound self.now }
    {
        self.entries.len()
    }

    /// The entry of the node with the number `at`.
    pub fn entry(&self, at: usize) -> &Entry
        requires { at < length self.now.entries }
        ensures entry { slice_get self.now.entries at ≡ Some result.now }
        ensures sound { IsSound self.now }
    {
        &self.entries[at]
    }

    /// The node that is always true.
    pub fn yes(&self) -> Node
        ensures node { result < length self.now.entries }
        ensures means { (keep : List Bool) → val self.now keep result ≡ true }
    {
        let _entries = &self.entries;
        Node::of(0)
    }

    /// The node that is never true.
    pub fn no(&self) -> Node
        ensures node { result < length self.now.entries }
        ensures means { (keep : List Bool) → val self.now keep result ≡ false }
    {
        let _entries = &self.entries;
        Node::of(1)
    }

    /// The node of a row variable, true where the row is kept.
    pub fn row(&mut self, v: usize) -> Result<Node, NoMemory>
        requires { v < self.old.rows }
        ensures grown { IsGrown self.old self.new }
        ensures node { IfOk result (λ n. n < length self.new.entries) }
        ensures means { IfOk result (λ n. (keep : List Bool) → val self.new keep n ≡ bool_at keep v) }
        ensures err { OnErr result (self.new ≡ self.old) }
    {
        self.put(Entry::Row(v))
    }

    /// The negation of a node.
    pub fn not(&mut self, a: Node) -> Result<Node, NoMemory>
        requires { a < length self.old.entries }
        ensures grown { IsGrown self.old self.new }
        ensures node { IfOk result (λ n. n < length self.new.entries) }
        ensures means { IfOk result (λ n. (keep : List Bool) → val self.new keep n ≡ not (val self.old keep a)) }
        ensures err { OnErr result (self.new ≡ self.old) }
    {
        match self.negation(a) {
            Some(node) => Ok(node),
            None => self.put(Entry::Not(a)),
        }
    }

    /// The node that is true where all of these are; always, where there are none.
    pub fn all(&mut self, of: &[Node]) -> Result<Node, NoMemory>
        requires { Each (λ n. n < length self.old.entries) of.now }
        ensures grown { IsGrown self.old self.new }
        ensures node { IfOk result (λ n. n < length self.new.entries) }
        ensures means { IfOk result (λ n. (keep : List Bool) → val self.new keep n ≡ list_all (val self.old keep) of.now) }
        ensures err { OnErr result (self.new ≡ self.old) }
    {
        match self.gather(Gate::All, of)? {
            Gathered::Decided => Ok(self.no()),
            Gathered::Kept(kept) => self.all_of(kept.as_slice()),
        }
    }

    /// The node that is true where any of these is; never, where there are none. Children that
    /// come one after another and are an `all` over the same first child are put together as one,
    /// as `runs` says.
    pub fn any(&mut self, of: &[Node]) -> Result<Node, NoMemory>
        requires { Each (λ n. n < length self.old.entries) of.now }
        ensures grown { IsGrown self.old self.new }
        ensures node { IfOk result (λ n. n < length self.new.entries) }
        ensures means { IfOk result (λ n. (keep : List Bool) → val self.new keep n ≡ list_any (val self.old keep) of.now) }
        ensures err { OnErr result (self.new ≡ self.old) }
    {
        let before = self.entries.len();
        match self.any_in_runs(of) {
            Ok(node) => Ok(node),
            Err(error) => {
                self.entries.truncate(before);
                Err(error)
            }
        }
    }

    /// Takes back all nodes but the first `len`, as if they had never been asked for.
    pub fn truncate(&mut self, len: usize)
        requires { 2 ≤ len }
        ensures { self.new ≡ truncated len self.old }
    {
        self.entries.truncate(len);
    }

    /// The value of a node at a choice of rows, in time linear in the whole Dag.
    pub fn value(&self, node: Node, keep: &Keep) -> Result<bool, NoMemory>
        requires node { node < length self.now.entries }
        requires keep { length keep.now ≡ self.now.rows }
        ensures { IfOk result (λ b. b ≡ val self.now keep.now node) }
    {
        let values = values_of(self.alloc, self.entries.as_slice(), keep.as_slice())?;
        Ok(value_at(values.as_slice(), node.number()))
    }

    // The node of an entry, which is added where no node has it.
    fn put(&mut self, entry: Entry) -> Result<Node, NoMemory>
        requires { Fits self.old.rows (length self.old.entries) entry }
        ensures grown { IsGrown self.old self.new }
        ensures node { IfOk result (λ n. n < length self.new.entries) }
        ensures means { IfOk result (λ n. (keep : List Bool) → val self.new keep n ≡ entry_value keep (values keep self.old.entries) entry) }
        ensures err { OnErr result (self.new ≡ self.old) }
    {
        if self.entries.len() >= MOST_NODES {
            drop(entry);
            return Err(NoMemory);
        }
        let (at, _) = self.entries.insert_full(entry)?;
        Ok(Node::of(at))
    }

    // The negation of a node, where it is among the nodes without a search.
    fn negation(&self, a: Node) -> Option<Node>
        requires { a < length self.now.entries }
        ensures node { IfSome result (λ n. n < length self.now.entries) }
        ensures means { IfSome result (λ n. (keep : List Bool) → val self.now keep n ≡ not (val self.now keep a)) }
    {
        match self.entries.get_index(a.number()) {
            Some(Entry::Yes) => Some(self.no()),
            Some(Entry::No) => Some(self.yes()),
            Some(Entry::Not(b)) => Some(*b),
            _ => None,
        }
    }

    // The value of a node that has the same one at every choice.
    fn constant(&self, a: Node) -> Option<bool>
        requires { a < length self.now.entries }
        ensures { IfSome result (λ b. (keep : List Bool) → val self.now keep a ≡ b) }
    {
        match self.entries.get_index(a.number()) {
            Some(Entry::Yes) => Some(true),
            Some(Entry::No) => Some(false),
            _ => None,
        }
    }

    // Whether both a node and its negation are among these. Then an `all` of them is never true,
    // and an `any` of them always.
    fn is_contrary(&self, nodes: &NodeSet) -> bool
        requires { Each (λ n. n < length self.now.entries) nodes.now }
        ensures { IsTrue result → AreContrary self.now nodes.now }
    {
        for a in nodes.as_slice() {
            if let Some(Entry::Not(b)) = self.entries.get_index(a.number()) {
                if nodes.has(*b) {
                    return true;
                }
            }
        }
        false
    }

    // Puts the children that are no constants into an empty set, up to a constant that decides the
    // gate. The answer is whether there is one.
    fn sift(&self, gate: Gate, of: &[Node], kept: &mut NodeSet) -> Result<bool, NoMemory>
        requires nodes { Each (λ n. n < length self.now.entries) of.now }
        requires empty { kept.old ≡ [] }
        ensures { IfOk result (λ decided. IsSifted self.now gate of.now (cond decided None (Some kept.new))) }
    {
        for a in of {
            match self.constant(*a) {
                Some(value) => {
                    if value == gate.deciding() {
                        return Ok(true);
                    }
                }
                None => kept.put(*a)?,
            }
        }
        Ok(false)
    }

    // The children that matter to a gate.
    fn gather(&self, gate: Gate, of: &[Node]) -> Result<Gathered, NoMemory>
        requires { Each (λ n. n < length self.now.entries) of.now }
        ensures { IfOk result (IsGathered self.now gate of.now) }
    {
        let mut kept = NodeSet::new(self.alloc);
        self.gather_by(gate, of, &mut kept)
    }

    // The same, by a set that is empty.
    fn gather_by(&self, gate: Gate, of: &[Node], kept: &mut NodeSet) -> Result<Gathered, NoMemory>
        requires nodes { Each (λ n. n < length self.now.entries) of.now }
        requires empty { kept.old ≡ [] }
        ensures { IfOk result (IsGathered self.now gate of.now) }
    {
        if self.sift(gate, of, kept)? || self.is_contrary(kept) {
            return Ok(Gathered::Decided);
        }
        Ok(Gathered::Kept(List::from_slice(self.alloc, kept.as_slice())?))
    }

    // The same as `any`, but for what an error leaves.
    fn any_in_runs(&mut self, of: &[Node]) -> Result<Node, NoMemory>
        requires { Each (λ n. n < length self.old.entries) of.now }
        ensures grown { IsGrown self.old self.new }
        ensures node { IfOk result (λ n. n < length self.new.entries) }
        ensures means { IfOk result (λ n. (keep : List Bool) → val self.new keep n ≡ list_any (val self.old keep) of.now) }
    {
        match self.gather(Gate::Any, of)? {
            Gathered::Decided => Ok(self.yes()),
            Gathered::Kept(kept) => {
                let mut children = List::new(self.alloc);
                join_runs(self.alloc, self, kept.as_slice(), &mut children)?;
                self.any_plain(children.as_slice())
            }
        }
    }

    /// An `any` of these children as they are.
    pub(crate) fn any_plain(&mut self, of: &[Node]) -> Result<Node, NoMemory>
        requires { Each (λ n. n < length self.old.entries) of.now }
        ensures grown { IsGrown self.old self.new }
        ensures node { IfOk result (λ n. n < length self.new.entries) }
        ensures means { IfOk result (λ n. (keep : List Bool) → val self.new keep n ≡ list_any (val self.old keep) of.now) }
        ensures err { OnErr result (self.new ≡ self.old) }
    {
        match self.gather(Gate::Any, of)? {
            Gathered::Decided => Ok(self.yes()),
            Gathered::Kept(kept) => self.any_of(kept.as_slice()),
        }
    }

    /// An `all` of children none of which is left out.
    pub(crate) fn all_of(&mut self, of: &[Node]) -> Result<Node, NoMemory>
        requires { Each (λ n. n < length self.old.entries) of.now }
        ensures grown { IsGrown self.old self.new }
        ensures node { IfOk result (λ n. n < length self.new.entries) }
        ensures means { IfOk result (λ n. (keep : List Bool) → val self.new keep n ≡ list_all (val self.old keep) of.now) }
        ensures err { OnErr result (self.new ≡ self.old) }
    {
        match of {
            [] => Ok(self.yes()),
            [one] => Ok(*one),
            _ => {
                let kids = Kids::of(self.alloc, of)?;
                self.put(Entry::All(kids))
            }
        }
    }

    // An `any` of children none of which is left out.
    fn any_of(&mut self, of: &[Node]) -> Result<Node, NoMemory>
        requires { Each (λ n. n < length self.old.entries) of.now }
        ensures grown { IsGrown self.old self.new }
        ensures node { IfOk result (λ n. n < length self.new.entries) }
        ensures means { IfOk result (λ n. (keep : List Bool) → val self.new keep n ≡ list_any (val self.old keep) of.now) }
        ensures err { OnErr result (self.new ≡ self.old) }
    {
        match of {
            [] => Ok(self.no()),
            [one] => Ok(*one),
            _ => {
                let kids = Kids::of(self.alloc, of)?;
                self.put(Entry::Any(kids))
            }
        }
    }
}
