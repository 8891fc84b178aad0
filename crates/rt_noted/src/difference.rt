//! Where two answers differ: some row of the one is not in the other.

ghost use Rattle.std.specs.Prelude.{◌≡◌, ◌<◌, List, Bool, not, IfOk, length};
ghost use Rattle.rt_algebra.specs.Answer.{same_rows};
ghost use Rattle.rt_formula.specs.Shared.{val, IsGrown};
ghost use Rattle.rt_noted.specs.Annotated.{IsNode};
ghost use Rattle.rt_noted.specs.Ann.{AreOf, lost, rows_of};

use crate::ann::Ann;
use crate::gate::both;
use rt_formula::{Dag, Node};
use rt_value::{List, NoMemory};
use std::alloc::Global;

// Where some row of `a` is not in `b`.
fn missing(alloc: Global, dag: &mut Dag, a: &Ann, b: &Ann) -> Result<Node, NoMemory>
    requires a { AreOf dag.old a.now }
    requires b { AreOf dag.old b.now }
    ensures grown { IsGrown dag.old dag.new }
    ensures node { IfOk result (λ n. IsNode dag.new n (λ s. lost dag.old b.now s a.now)) }
{
    let mut nodes = List::new(alloc);
    for (row, node) in &a.nodes {
        let none = b.lacks(dag, row)?;
        let lost = both(dag, *node, none)?;
        nodes.push(lost)?;
    }
    let some = dag.any(nodes.as_slice())?;
    Ok(some)
}

/// The node that is true at just the choices of rows at which the two sets of rows differ. Both
/// have their nodes on this Dag.
pub fn differ(alloc: Global, dag: &mut Dag, a: &Ann, b: &Ann) -> Result<Node, NoMemory>
    requires a { AreOf dag.old a.now }
    requires b { AreOf dag.old b.now }
    ensures grown { IsGrown dag.old dag.new }
    ensures node { IfOk result (λ n. n < length dag.new.entries) }
    ensures means { IfOk result (λ n. (keep : List Bool) → val dag.new keep n ≡ not (same_rows (rows_of dag.old keep a.now) (rows_of dag.old keep b.now))) }
{
    let _sizes = (a.len(), b.len());
    let only_a = missing(alloc, dag, a, b)?;
    let only_b = missing(alloc, dag, b, a)?;
    let some = dag.any(&[only_a, only_b])?;
    Ok(some)
}
