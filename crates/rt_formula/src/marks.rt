//! Which nodes and rows are under a node: those that its value can depend on. Marks are set from
//! the goal down, in one pass over older and older nodes.

ghost use Rattle.std.specs.Prelude.{◌≡◌, ◌<◌, ℕ, List, Bool, true, length, IfOk, ◌⊎◌};
ghost use Rattle.std.specs.List.{All as Each};
ghost use Rattle.rt_formula.specs.declared.entry.Entry.TheVariants.{Row};
ghost use Rattle.rt_formula.specs.Shared.{children, named_rows};
ghost use Rattle.rt_formula.specs.Under.{is_marked, MarksStay, SameFrom, AreUnder, AreRowsUnder};

use crate::dag::Dag;
use crate::entry::{Entry, Node};
use rt_value::{Keep, NoMemory};
use std::alloc::Global;
use std::slice::from_ref;

fn mark(marks: &mut Keep, node: Node)
    requires { node < length marks.old }
    ensures len { length marks.new ≡ length marks.old }
    ensures stay { MarksStay marks.old marks.new }
    ensures same { (low : ℕ) → node < low → SameFrom low marks.old marks.new }
    ensures set { is_marked marks.new node ≡ true }
    ensures only { (others : List Bool) → MarksStay marks.old others → is_marked others node ≡ true → MarksStay marks.new others }
{
    marks.set(node.number(), true);
}

fn mark_all(marks: &mut Keep, of: &[Node])
    requires { Each (λ k. k < length marks.old) of.now }
    ensures len { length marks.new ≡ length marks.old }
    ensures stay { MarksStay marks.old marks.new }
    ensures same { (low : ℕ) → Each (λ k. k < low) of.now → SameFrom low marks.old marks.new }
    ensures set { Each (λ k. is_marked marks.new k ≡ true) of.now }
    ensures only { (others : List Bool) → MarksStay marks.old others → Each (λ k. is_marked others k ≡ true) of.now → MarksStay marks.new others }
{
    for node in of {
        mark(marks, *node);
    }
}

// The nodes that an entry names.
fn children_of(entry: &Entry) -> &[Node]
    ensures { result.now ≡ children entry.now }
{
    match entry {
        Entry::Yes | Entry::No | Entry::Row(_) => &[],
        Entry::Not(a) => from_ref(a),
        Entry::All(of) | Entry::Any(of) => of.as_slice(),
    }
}

/// The nodes under the goal, itself among them: one Bool for each node up to it. A node is under
/// the goal if the goal's entry names it, or the entry of a node under the goal does.
pub fn under(alloc: Global, dag: &Dag, goal: Node) -> Result<Keep, NoMemory>
    requires { goal < length dag.now.entries }
    ensures { IfOk result (AreUnder dag.now goal) }
{
    let _nodes = dag.len();
    let mut at = goal.number() + 1;
    let mut marks = Keep::all(alloc, at, false)?;
    mark(&mut marks, goal);
    'nodes: while at > 0 {
        at -= 1;
        if marks.is(at) {
            mark_all(&mut marks, children_of(dag.entry(at)));
        }
    }
    Ok(marks)
}

// Marks the row that an entry names.
fn mark_row(rows: &mut Keep, entry: &Entry)
    requires { Each (λ v. v < length rows.old) (named_rows entry.now) }
    ensures len { length rows.new ≡ length rows.old }
    ensures stay { MarksStay rows.old rows.new }
    ensures set { Each (λ v. is_marked rows.new v ≡ true) (named_rows entry.now) }
    ensures only { (v : ℕ) → is_marked rows.new v ≡ true → (is_marked rows.old v ≡ true) ⊎ (entry.now ≡ Row v) }
{
    if let Entry::Row(v) = entry {
        rows.set(*v, true);
    }
}

// The rows that the marked nodes name.
fn marked_rows(alloc: Global, dag: &Dag, goal: Node, marks: &Keep) -> Result<Keep, NoMemory>
    requires goal { goal < length dag.now.entries }
    requires under { AreUnder dag.now goal marks.now }
    ensures { IfOk result (AreRowsUnder dag.now goal) }
{
    let _nodes = dag.len();
    let mut rows = Keep::all(alloc, dag.rows(), false)?;
    let mut at = marks.len();
    'nodes: while at > 0 {
        at -= 1;
        if marks.is(at) {
            mark_row(&mut rows, dag.entry(at));
        }
    }
    Ok(rows)
}

/// The rows whose variables are under the goal: one Bool for each row.
pub fn rows_under(alloc: Global, dag: &Dag, goal: Node) -> Result<Keep, NoMemory>
    requires { goal < length dag.now.entries }
    ensures { IfOk result (AreRowsUnder dag.now goal) }
{
    let marks = under(alloc, dag, goal)?;
    marked_rows(alloc, dag, goal, &marks)
}
