//! The goal of the search for one row: the law, and that the first query alone answers with the
//! row.

ghost use Rattle.std.specs.Prelude.{◌≡◌, ◌<◌, ◌&&◌, List, Bool, IfOk, length};
ghost use Rattle.rt_schema.specs.Given.{IsOf, places};
ghost use Rattle.rt_schema.specs.Kept.{kept};
ghost use Rattle.rt_schema.specs.Law.{lawful};
ghost use Rattle.rt_algebra.specs.Typed.{IsTyped};
ghost use Rattle.rt_formula.specs.Shared.{val, IsGrown};
ghost use Rattle.rt_noted.specs.Ann.{AreOf, node_at, node_value};
ghost use Rattle.rt_row.specs.Holds.{holds_at, told_at};

use rt_algebra::Typed;
use rt_annot::{Ann, annotate};
use rt_formula::{Dag, Node};
use rt_rules::law;
use rt_schema::{Given, Schema};
use rt_value::{NoMemory, Row};
use std::alloc::Global;

/// The node that says that the one query alone answers with a row, and the one that says that the
/// choice of rows is lawful too.
#[derive(Clone, Copy)]
pub(crate) struct RowAim {
    pub(crate) told: Node,
    pub(crate) goal: Node,
}

// The node of a row in an answer. A row without one gets the node that is never true.
fn node_of(dag: &Dag, answer: &Ann, row: &Row) -> Node
    requires { AreOf dag.now answer.now }
    ensures below { result < length dag.now.entries }
    ensures means { (keep : List Bool) → val dag.now keep result ≡ node_value dag.now keep (node_at answer.now row.now) }
{
    match answer.get(row) {
        Some(node) => node,
        None => dag.no(),
    }
}

// The node that is true at just the choices at which the first query alone answers with the row.
fn told(
    alloc: Global,
    dag: &mut Dag,
    given: &Given,
    left: &Typed,
    right: &Typed,
    row: &Row,
) -> Result<Node, NoMemory>
    requires rows { dag.old.rows ≡ places given.now.tables }
    requires left { IsTyped given.now.kinds left.now }
    requires right { IsTyped given.now.kinds right.now }
    ensures grown { IsGrown dag.old dag.new }
    ensures node { IfOk result (λ n. n < length dag.new.entries) }
    ensures means { IfOk result (λ n. (keep : List Bool) → val dag.new keep n ≡ told_at given.now left.now right.now row.now keep) }
{
    let first = annotate(alloc, dag, left, given)?;
    let second = annotate(alloc, dag, right, given)?;
    let there = node_of(dag, &first, row);
    let elsewhere = node_of(dag, &second, row);
    let absent = dag.not(elsewhere)?;
    dag.all(&[there, absent])
}

/// Both nodes: `told` is true at just the choices at which the first query alone answers with the
/// row, and `goal` at just those of them that are lawful.
pub(crate) fn row_aim(
    alloc: Global,
    dag: &mut Dag,
    schema: &Schema,
    given: &Given,
    left: &Typed,
    right: &Typed,
    row: &Row,
) -> Result<RowAim, NoMemory>
    requires rows { dag.old.rows ≡ places given.now.tables }
    requires of_schema { IsOf schema.now given.now }
    requires left { IsTyped given.now.kinds left.now }
    requires right { IsTyped given.now.kinds right.now }
    ensures grown { IsGrown dag.old dag.new }
    ensures node { IfOk result (λ a. a.goal < length dag.new.entries) }
    ensures told { IfOk result (λ a. a.told < length dag.new.entries) }
    ensures parts { IfOk result (λ a. (keep : List Bool) → length keep ≡ dag.old.rows → val dag.new keep a.goal ≡ (lawful schema.now (kept given.now.tables keep) && val dag.new keep a.told)) }
    ensures means { IfOk result (λ a. (keep : List Bool) → length keep ≡ dag.old.rows → val dag.new keep a.goal ≡ holds_at schema.now given.now left.now right.now row.now keep) }
{
    let lawful = law(alloc, dag, schema, given)?;
    let told = told(alloc, dag, given, left, right, row)?;
    let goal = dag.all(&[lawful, told])?;
    Ok(RowAim { told, goal })
}
