//! The goal of a search: the law of the schema, and that two queries answer differently, as one
//! node.

ghost use Rattle.std.specs.Prelude.{◌≡◌, ◌<◌, ◌&&◌, List, Bool, not, IfOk, length};
ghost use Rattle.rt_schema.specs.Given.{IsOf, places};
ghost use Rattle.rt_schema.specs.Kept.{kept};
ghost use Rattle.rt_schema.specs.Law.{lawful};
ghost use Rattle.rt_algebra.specs.Answer.{plain, same_rows};
ghost use Rattle.rt_algebra.specs.Typed.{IsTyped};
ghost use Rattle.rt_formula.specs.Shared.{val, IsGrown};
ghost use Rattle.rt_noted.specs.Ann.{rows_of};
ghost use Rattle.rt_annot.specs.Reference.{StandsOn};

use crate::annotation::annotate;
use crate::reference::Reference;
use rt_algebra::Typed;
use rt_formula::{Dag, Node};
use rt_noted::differ;
use rt_schema::{Given, Schema};
use rt_value::NoMemory;
use std::alloc::Global;

/// The node that says that two queries answer differently, and the one that says that the choice
/// of rows is lawful too. The choices at which the second is true are the ones looked for.
#[derive(Clone, Copy)]
pub struct Aim {
    pub differs: Node,
    pub goal: Node,
}

/// The goal of two queries: true at just the lawful choices of the given rows at which they
/// answer differently. Also the part of it without the law.
pub fn goal(
    alloc: Global,
    dag: &mut Dag,
    schema: &Schema,
    given: &Given,
    left: &Typed,
    right: &Typed,
) -> Result<Aim, NoMemory>
    requires rows { dag.old.rows ≡ places given.now.tables }
    requires of_schema { IsOf schema.now given.now }
    requires left { IsTyped given.now.kinds left.now }
    requires right { IsTyped given.now.kinds right.now }
    ensures grown { IsGrown dag.old dag.new }
    ensures node { IfOk result (λ a. a.goal < length dag.new.entries) }
    ensures differs { IfOk result (λ a. a.differs < length dag.new.entries) }
    ensures parts { IfOk result (λ a. (keep : List Bool) → length keep ≡ dag.old.rows → val dag.new keep a.goal ≡ (lawful schema.now (kept given.now.tables keep) && val dag.new keep a.differs)) }
    ensures means { IfOk result (λ a. (keep : List Bool) → length keep ≡ dag.old.rows → val dag.new keep a.goal ≡ (lawful schema.now (kept given.now.tables keep) && not (same_rows (plain left.now.query (kept given.now.tables keep)) (plain right.now.query (kept given.now.tables keep))))) }
{
    let reference = Reference::of(alloc, dag, schema, given, left)?;
    goal_beside(alloc, dag, given, &reference, right)
}

/// The same for a reference, whose law and rows are on the Dag already, and a second query. So one
/// reference serves for many queries.
pub fn goal_beside(
    alloc: Global,
    dag: &mut Dag,
    given: &Given,
    reference: &Reference,
    right: &Typed,
) -> Result<Aim, NoMemory>
    requires rows { dag.old.rows ≡ places given.now.tables }
    requires stands { StandsOn dag.old reference.now }
    requires right { IsTyped given.now.kinds right.now }
    ensures grown { IsGrown dag.old dag.new }
    ensures node { IfOk result (λ a. a.goal < length dag.new.entries) }
    ensures differs { IfOk result (λ a. a.differs < length dag.new.entries) }
    ensures parts { IfOk result (λ a. (keep : List Bool) → val dag.new keep a.goal ≡ (val dag.old keep reference.now.lawful && val dag.new keep a.differs)) }
    ensures means { IfOk result (λ a. (keep : List Bool) → val dag.new keep a.differs ≡ not (same_rows (rows_of dag.old keep reference.now.rows) (plain right.now.query (kept given.now.tables keep)))) }
{
    let rows = annotate(alloc, dag, right, given)?;
    let differs = differ(alloc, dag, &reference.rows, &rows)?;
    drop(rows);
    let both = dag.all(&[reference.lawful, differs])?;
    Ok(Aim {
        differs,
        goal: both,
    })
}
