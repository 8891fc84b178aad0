//! Children of an `any` that come one after another and are an `all` over the same first child.
//! Such a run, of three or more, is one child: `ab | ac | ad` becomes `a(b|c|d)`.

ghost use Rattle.std.specs.Prelude.{◌≡◌, ℕ, List, [], ◌<◌, ◌≤◌, Bool, ◌&&◌, IfOk, IfSome, OnOk, length, take};
ghost use Rattle.std.specs.List.{list_all, list_any, All as Each};
ghost use Rattle.rt_formula.specs.Runs.{StandsOver};
ghost use Rattle.rt_formula.specs.Shared.{val, IsGrown};

use crate::dag::Dag;
use crate::entry::{Entry, Node};
use rt_value::{List, NoMemory};
use std::alloc::Global;

// Three or more nodes at the front of a list, each an `all` over the same first child.
#[derive(Clone, Copy)]
struct Run {
    first: Node,
    length: usize,
}

// The first child of an `all`.
fn first_of(dag: &Dag, node: Node) -> Option<Node>
    requires { node < length dag.now.entries }
    ensures node { IfSome result (λ first. first < length dag.now.entries) }
    ensures over { IfSome result (λ first. StandsOver dag.now first node) }
{
    match dag.entry(node.number()) {
        Entry::All(children) => match children.as_slice() {
            [first, ..] => Some(*first),
            [] => None,
        },
        _ => None,
    }
}

// The number of nodes at the front that are an `all` over this first child.
fn length_over(dag: &Dag, first: Node, of: &[Node]) -> usize
    requires { Each (λ n. n < length dag.now.entries) of.now }
    ensures within { result ≤ length of.now }
    ensures over { Each (StandsOver dag.now first) (take result of.now) }
{
    let mut length = 0;
    for node in of {
        match first_of(dag, *node) {
            Some(other) if other == first => length += 1,
            _ => return length,
        }
    }
    length
}

// The run at the front, if there is one.
fn run_at_front(dag: &Dag, of: &[Node]) -> Option<Run>
    requires { Each (λ n. n < length dag.now.entries) of.now }
    ensures some { IfSome result (λ run. 0 < run.length) }
    ensures within { IfSome result (λ run. run.length ≤ length of.now) }
    ensures first { IfSome result (λ run. run.first < length dag.now.entries) }
    ensures over { IfSome result (λ run. Each (StandsOver dag.now run.first) (take run.length of.now)) }
{
    let [child, ..] = of else {
        return None;
    };
    let first = first_of(dag, *child)?;
    let length = length_over(dag, first, of);
    if length < 3 {
        return None;
    }
    Some(Run { first, length })
}

// The children of an `all` but its first.
fn later_children(alloc: Global, dag: &Dag, node: Node) -> Result<List<Node>, NoMemory>
    requires { node < length dag.now.entries }
    ensures nodes { IfOk result (λ later. Each (λ n. n < length dag.now.entries) later) }
    ensures means { IfOk result (λ later. (first : ℕ) → StandsOver dag.now first node → (keep : List Bool) → val dag.now keep node ≡ (val dag.now keep first && list_all (val dag.now keep) later)) }
{
    match dag.entry(node.number()) {
        Entry::All(children) => match children.as_slice() {
            [_, later @ ..] => Ok(List::from_slice(alloc, later)?),
            [] => Ok(List::new(alloc)),
        },
        _ => Ok(List::new(alloc)),
    }
}

// An `all` without its first child.
fn tail_of(alloc: Global, dag: &mut Dag, node: Node) -> Result<Node, NoMemory>
    requires { node < length dag.old.entries }
    ensures grown { IsGrown dag.old dag.new }
    ensures node { IfOk result (λ tail. tail < length dag.new.entries) }
    ensures means { IfOk result (λ tail. (first : ℕ) → StandsOver dag.old first node → (keep : List Bool) → val dag.old keep node ≡ (val dag.old keep first && val dag.new keep tail)) }
{
    let later = later_children(alloc, dag, node)?;
    dag.all_of(later.as_slice())
}

// Puts what is left of each child of a run into an empty list.
fn tails_into(
    alloc: Global,
    dag: &mut Dag,
    run: &[Node],
    tails: &mut List<Node>,
) -> Result<(), NoMemory>
    requires run { Each (λ n. n < length dag.old.entries) run.now }
    requires empty { tails.old ≡ [] }
    ensures grown { IsGrown dag.old dag.new }
    ensures nodes { OnOk result (Each (λ n. n < length dag.new.entries) tails.new) }
    ensures means { OnOk result ((first : ℕ) → first < length dag.old.entries → Each (StandsOver dag.old first) run.now → (keep : List Bool) → list_any (val dag.old keep) run.now ≡ (val dag.old keep first && list_any (val dag.new keep) tails.new)) }
{
    for child in run {
        tails.push(tail_of(alloc, dag, *child)?)?;
    }
    Ok(())
}

// The children of a run as one.
fn joined(alloc: Global, dag: &mut Dag, first: Node, run: &[Node]) -> Result<Node, NoMemory>
    requires first { first < length dag.old.entries }
    requires nodes { Each (λ n. n < length dag.old.entries) run.now }
    requires over { Each (StandsOver dag.old first) run.now }
    ensures grown { IsGrown dag.old dag.new }
    ensures node { IfOk result (λ node. node < length dag.new.entries) }
    ensures means { IfOk result (λ node. (keep : List Bool) → val dag.new keep node ≡ list_any (val dag.old keep) run.now) }
{
    let mut tails = List::new(alloc);
    tails_into(alloc, dag, run, &mut tails)?;
    let tail = dag.any_plain(tails.as_slice())?;
    dag.all(&[first, tail])
}

/// Puts the children of an `any` into an empty list, each run as one child.
pub(crate) fn join_runs(
    alloc: Global,
    dag: &mut Dag,
    of: &[Node],
    nodes: &mut List<Node>,
) -> Result<(), NoMemory>
    requires of { Each (λ n. n < length dag.old.entries) of.now }
    requires empty { nodes.old ≡ [] }
    ensures grown { IsGrown dag.old dag.new }
    ensures nodes { OnOk result (Each (λ n. n < length dag.new.entries) nodes.new) }
    ensures means { OnOk result ((keep : List Bool) → list_any (val dag.new keep) nodes.new ≡ list_any (val dag.old keep) of.now) }
{
    let mut rest = of;
    'children: while let [child, others @ ..] = rest {
        match run_at_front(dag, rest) {
            Some(run) => {
                let (children, next) = rest.split_at(run.length);
                nodes.push(joined(alloc, dag, run.first, children)?)?;
                rest = next;
            }
            None => {
                nodes.push(*child)?;
                rest = others;
            }
        }
    }
    Ok(())
}
