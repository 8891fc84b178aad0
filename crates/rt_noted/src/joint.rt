//! Products: rows put together from the rows of several queries.

ghost use Rattle.std.specs.Prelude.{◌≡◌, ◌++◌, ◌∷◌, [], ◌<◌, ◌&&◌, length, nat_eq, IfOk, OnOk};
ghost use Rattle.std.specs.List.{list_all, list_any};
ghost use Rattle.rt_formula.specs.Shared.{bool_at, val, IsGrown};
ghost use Rattle.rt_noted.specs.Annotated.{AreNodes, IsNode, Reads};
ghost use Rattle.rt_noted.specs.Joints.{AreJoints, AreMembers, join_joint, pair_joints, product_joints, unit_joints, joint_entries};

use crate::copies::{joined_row, room};
use crate::gate::{both, is_never};
use crate::rows::note;
use rt_formula::{Dag, Node, Noted};
use rt_value::{List, NoMemory, Row};
use std::alloc::Global;

/// A row of a product, which is there where all of the nodes are true. It has no node of its own
/// yet, so that one is made only for the rows that are chosen.
pub struct Joint {
    pub row: Row,
    pub nodes: List<Node>,
}

impl Drop for Joint {
    fn drop(self) {
        let Joint { row: _, nodes: _ } = self;
    }
}

/// The row without values alone, which is there at every choice.
pub(crate) fn unit(alloc: Global) -> Result<List<Joint>, NoMemory>
    ensures { IfOk result (λ out. out ≡ unit_joints) }
{
    let mut out = List::new(alloc);
    let row = Row::new(alloc);
    let nodes = List::new(alloc);
    out.push(Joint { row, nodes })?;
    Ok(out)
}

// The nodes, and one more after them.
fn with_node(alloc: Global, nodes: &[Node], node: Node) -> Result<List<Node>, NoMemory>
    ensures { IfOk result (λ out. out ≡ nodes.now ++ node ∷ []) }
{
    let mut out = room(alloc, nodes.len().saturating_add(1))?;
    out.extend(nodes)?;
    out.push(node)?;
    Ok(out)
}

/// The row `first` before the row `rest`.
pub(crate) fn joined_one(alloc: Global, first: &Joint, rest: &Noted) -> Result<Joint, NoMemory>
    ensures { IfOk result (λ j. j ∷ [] ≡ join_joint first.now (rest.now ∷ [])) }
{
    let row = joined_row(alloc, &first.row, &rest.row)?;
    let nodes = with_node(alloc, first.nodes.as_slice(), rest.node)?;
    Ok(Joint { row, nodes })
}

// Puts `first` before each row of `rests` at the end.
fn joined_each(
    alloc: Global,
    joints: &mut List<Joint>,
    first: &Joint,
    rests: &[Noted],
) -> Result<(), NoMemory>
    ensures { OnOk result (joints.new ≡ joints.old ++ join_joint first.now rests.now) }
{
    for rest in rests {
        joints.push(joined_one(alloc, first, rest)?)?;
    }
    Ok(())
}

// Each row of `firsts` before each row of `rests`.
fn joined(alloc: Global, firsts: &[Joint], rests: &[Noted]) -> Result<List<Joint>, NoMemory>
    ensures { IfOk result (λ out. out ≡ pair_joints firsts.now rests.now) }
{
    let mut out = room(alloc, firsts.len().saturating_mul(rests.len()))?;
    for first in firsts {
        joined_each(alloc, &mut out, first, rests)?;
    }
    Ok(out)
}

/// Each concatenation of a row of each member, with one node.
pub fn noted_product(
    alloc: Global,
    dag: &mut Dag,
    members: &[List<Noted>],
) -> Result<List<Noted>, NoMemory>
    requires { AreMembers dag.old members.now }
    ensures grown { IsGrown dag.old dag.new }
    ensures reads { IfOk result (λ out. Reads dag.new out (joint_entries dag.old (product_joints unit_joints members.now))) }
{
    let joints = product(alloc, members)?;
    noted(alloc, dag, joints.as_slice())
}

/// Each concatenation of a row of each member.
pub(crate) fn product(alloc: Global, members: &[List<Noted>]) -> Result<List<Joint>, NoMemory>
    ensures { IfOk result (λ out. out ≡ product_joints unit_joints members.now) }
{
    if lacks_rows(members) {
        return Ok(List::new(alloc));
    }
    let mut out = unit(alloc)?;
    for rows in members {
        out = joined(alloc, out.as_slice(), rows.as_slice())?;
    }
    Ok(out)
}

/// Whether a member has no rows, and so the product has none.
pub(crate) fn lacks_rows(members: &[List<Noted>]) -> bool
    ensures { result ≡ list_any (λ rows. nat_eq (length rows) 0) members.now }
{
    members.iter().any(|rows| rows.len() == 0)
}

// The rows, each with one node.
fn noted(alloc: Global, dag: &mut Dag, joints: &[Joint]) -> Result<List<Noted>, NoMemory>
    requires { AreJoints dag.old joints.now }
    ensures grown { IsGrown dag.old dag.new }
    ensures reads { IfOk result (λ out. Reads dag.new out (joint_entries dag.old joints.now)) }
{
    let mut out = room(alloc, joints.len())?;
    for joint in joints {
        let node = dag.all(joint.nodes.as_slice())?;
        note(alloc, &mut out, &joint.row, node)?;
    }
    Ok(out)
}

/// The node that is true where all of these are. A condition that is never true makes no new node.
pub fn meeting(
    alloc: Global,
    dag: &mut Dag,
    nodes: &[Node],
    condition: Node,
) -> Result<Node, NoMemory>
    requires nodes { AreNodes dag.old nodes.now }
    requires condition { condition < length dag.old.entries }
    ensures grown { IsGrown dag.old dag.new }
    ensures node { IfOk result (λ n. IsNode dag.new n (λ s. list_all (val dag.old s) nodes.now && val dag.old s condition)) }
{
    if is_never(dag, condition) {
        return Ok(condition);
    }
    let children = with_node(alloc, nodes, condition)?;
    dag.all(children.as_slice())
}

/// The node that is true where the row of the place is there and the condition is true. A condition
/// that is never true makes no new node.
pub fn row_meeting(dag: &mut Dag, place: usize, condition: Node) -> Result<Node, NoMemory>
    requires place { place < dag.old.rows }
    requires condition { condition < length dag.old.entries }
    ensures grown { IsGrown dag.old dag.new }
    ensures node { IfOk result (λ n. IsNode dag.new n (λ s. bool_at s place && val dag.old s condition)) }
{
    if is_never(dag, condition) {
        return Ok(condition);
    }
    let row = dag.row(place)?;
    both(dag, row, condition)
}
