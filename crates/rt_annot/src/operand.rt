//! The operands of set operators. One that names no row outside of it is evaluated once for all
//! rows in scope.

ghost use Rattle.std.specs.Prelude.{◌≡◌, map, IfOk};
ghost use Rattle.rt_algebra.specs.Answer.{answer_by};
ghost use Rattle.rt_algebra.specs.Expression.{wrapped};
ghost use Rattle.rt_algebra.specs.Stays.{StaysQuery};
ghost use Rattle.rt_schema.specs.Given.{places};
ghost use Rattle.rt_schema.specs.Kept.{kept};
ghost use Rattle.rt_formula.specs.Shared.{IsGrown};
ghost use Rattle.rt_noted.specs.Annotated.{Gives};
ghost use Rattle.rt_noted.specs.Known.{AreKnown, GivesOf};

use crate::evaluate::annotated;
use rt_algebra::{Query, query_is_closed};
use rt_formula::{Dag, Noted};
use rt_noted::{Memo, Subquery, appended, rows_of};
use rt_value::{List, NoMemory, Row};
use std::alloc::Global;

/// The rows that may come out of an operand, each with its node. With no rows in scope an operand is
/// used once, so nothing is kept.
#[cycle(annotate)]
pub(crate) fn operand<'q>(
    alloc: Global,
    dag: &mut Dag,
    tables: &[List<Row>],
    known: &mut List<Subquery<'q>>,
    query: &'q Query,
    env: &[&Row],
) -> Result<List<Noted>, NoMemory>
    requires places { dag.old.rows ≡ places tables.now }
    requires known { AreKnown dag.old tables.now known.old }
    ensures grown { IsGrown dag.old dag.new }
    ensures known { AreKnown dag.new tables.now known.new }
    ensures gives { IfOk result (λ out. Gives dag.new out (λ s. answer_by wrapped query.now (kept tables.now s) (map (λ r. r.now) env.now))) }
{
    if env.is_empty() || !query_is_closed(query, 0) {
        return annotated(alloc, dag, tables, known, query, env);
    }
    if let Some(rows) = rows_of(known.as_slice(), query) {
        return appended(alloc, List::new(alloc), rows);
    }
    newly_listed(alloc, dag, tables, known, query)
}

// The rows of a query that names no row outside of it. A copy of them is kept.
#[cycle(annotate)]
fn newly_listed<'q>(
    alloc: Global,
    dag: &mut Dag,
    tables: &[List<Row>],
    known: &mut List<Subquery<'q>>,
    query: &'q Query,
) -> Result<List<Noted>, NoMemory>
    requires places { dag.old.rows ≡ places tables.now }
    requires known { AreKnown dag.old tables.now known.old }
    requires closed { StaysQuery 0 query.now }
    ensures grown { IsGrown dag.old dag.new }
    ensures known { AreKnown dag.new tables.now known.new }
    ensures gives { IfOk result (λ out. GivesOf dag.new tables.now query.now out) }
{
    let rows = annotated(alloc, dag, tables, known, query, &[])?;
    let copy = appended(alloc, List::new(alloc), rows.as_slice())?;
    let memo = Memo::Listed(copy);
    known.push(Subquery { query, memo })?;
    Ok(rows)
}
