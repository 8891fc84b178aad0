//! The top of annotated evaluation: a typed query to its `Ann`.

ghost use Rattle.std.specs.Prelude.{◌≡◌, List, Bool, [], IfOk};
ghost use Rattle.rt_value.specs.declared.value.Value.{Value};
ghost use Rattle.rt_schema.specs.Given.{places};
ghost use Rattle.rt_schema.specs.Kept.{kept};
ghost use Rattle.rt_algebra.specs.Answer.{answer_by, plain, has_row};
ghost use Rattle.rt_algebra.specs.Expression.{wrapped};
ghost use Rattle.rt_algebra.specs.Typed.{IsTyped};
ghost use Rattle.rt_formula.specs.Shared.{IsGrown};
ghost use Rattle.rt_noted.specs.Annotated.{Gives};
ghost use Rattle.rt_noted.specs.Ann.{AreOf, node_at, node_value, rows_of};

use crate::evaluate::annotated;
use rt_algebra::{Query, Typed};
use rt_formula::{Dag, Noted};
use rt_noted::Ann;
use rt_schema::Given;
use rt_value::{List, NoMemory, Row};
use std::alloc::Global;

/// The rows that may come out of the query, with nodes over the places of the given rows. At every
/// choice of them the rows whose node is true are those of the answer on the kept rows.
pub fn annotate(alloc: Global, dag: &mut Dag, typed: &Typed, given: &Given) -> Result<Ann, NoMemory>
    requires rows { dag.old.rows ≡ places given.now.tables }
    requires typed { IsTyped given.now.kinds typed.now }
    ensures grown { IsGrown dag.old dag.new }
    ensures nodes { IfOk result (λ a. AreOf dag.new a) }
    ensures rows { IfOk result (λ a. (keep : List Bool) (r : List Value) → has_row (rows_of dag.new keep a) r ≡ has_row (plain typed.now.query (kept given.now.tables keep)) r) }
    ensures entries { IfOk result (λ a. (keep : List Bool) (r : List Value) → node_value dag.new keep (node_at a r) ≡ has_row (plain typed.now.query (kept given.now.tables keep)) r) }
{
    wrapped_annotation(alloc, dag, typed.query.get(), given.tables())
}

// The answer with arithmetic modulo 2^128, so that no bounds are needed. For a typed query that is
// the plain answer.
fn wrapped_annotation(
    alloc: Global,
    dag: &mut Dag,
    query: &Query,
    tables: &[List<Row>],
) -> Result<Ann, NoMemory>
    requires { dag.old.rows ≡ places tables.now }
    ensures grown { IsGrown dag.old dag.new }
    ensures nodes { IfOk result (λ a. AreOf dag.new a) }
    ensures rows { IfOk result (λ a. (keep : List Bool) (r : List Value) → has_row (rows_of dag.new keep a) r ≡ has_row (answer_by wrapped query.now (kept tables.now keep) []) r) }
    ensures entries { IfOk result (λ a. (keep : List Bool) (r : List Value) → node_value dag.new keep (node_at a r) ≡ has_row (answer_by wrapped query.now (kept tables.now keep) []) r) }
{
    let rows = noted_rows(alloc, dag, query, tables)?;
    let ann = Ann::merged(alloc, dag, rows.as_slice())?;
    let _len = ann.len();
    Ok(ann)
}

// The rows that may come out, each with its node.
fn noted_rows(
    alloc: Global,
    dag: &mut Dag,
    query: &Query,
    tables: &[List<Row>],
) -> Result<List<Noted>, NoMemory>
    requires { dag.old.rows ≡ places tables.now }
    ensures grown { IsGrown dag.old dag.new }
    ensures gives { IfOk result (λ out. Gives dag.new out (λ s. answer_by wrapped query.now (kept tables.now s) [])) }
{
    let mut known = List::new(alloc);
    annotated(alloc, dag, tables, &mut known, query, &[])
}
