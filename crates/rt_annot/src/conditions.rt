//! The evaluation of conditions over all given rows. A comparison has its value at once; EXISTS
//! and IN get theirs from the nodes of their query's rows. A query that names no row outside of
//! it is evaluated once.

ghost use Rattle.std.specs.Prelude.{◌≡◌, [], map, IfOk};
ghost use Rattle.rt_value.specs.Value.{null_truth, value_truth};
ghost use Rattle.rt_algebra.specs.Answer.{answer_by, one_of_truth};
ghost use Rattle.rt_algebra.specs.Expression.{Env, value_by, wrapped};
ghost use Rattle.rt_algebra.specs.Stays.{StaysQuery};
ghost use Rattle.rt_schema.specs.Given.{places};
ghost use Rattle.rt_schema.specs.Kept.{kept};
ghost use Rattle.rt_formula.specs.Shared.{IsGrown};
ghost use Rattle.rt_noted.specs.Entries.{constant};
ghost use Rattle.rt_noted.specs.Annotated.{IsGate, yes_when, no_when, test_under, test_joined};
ghost use Rattle.rt_noted.specs.Known.{AreKnown, Tells, exists_test, sought_test};

use crate::evaluate::annotated;
use rt_algebra::{Expr, Pred, Query, one_of_truth, query_is_closed, scope, value};
use rt_formula::Dag;
use rt_noted::{
    Found, Junction, Memo, Subquery, TruthLists, TruthNodes, among, constant, found_of, is_always,
};
use rt_split::compared;
use rt_value::{List, NoMemory, Op, Row, Value, null_truth};
use std::alloc::Global;

/// Where a condition is true and where it is false.
#[cycle(annotate)]
pub(crate) fn test<'q>(
    alloc: Global,
    dag: &mut Dag,
    tables: &[List<Row>],
    known: &mut List<Subquery<'q>>,
    condition: &'q Pred,
    env: &[&Row],
) -> Result<TruthNodes, NoMemory>
    requires places { dag.old.rows ≡ places tables.now }
    requires known { AreKnown dag.old tables.now known.old }
    ensures grown { IsGrown dag.old dag.new }
    ensures known { AreKnown dag.new tables.now known.new }
    ensures gate { IfOk result (λ g. IsGate dag.new g (yes_when condition.now tables.now (map (λ r. r.now) env.now), no_when condition.now tables.now (map (λ r. r.now) env.now))) }
{
    match condition {
        Pred::Cmp(op, a, b) => comparison(alloc, dag, *op, a, b, env),
        Pred::IsNull(e) => missing(alloc, dag, e, env),
        Pred::OneOf(e, items) => listed(alloc, dag, e, items.as_slice(), env),
        Pred::And(ps) => {
            let all = &Junction::All;
            together(alloc, dag, tables, known, all, ps.as_slice(), env)
        }
        Pred::Or(ps) => {
            let any = &Junction::Any;
            together(alloc, dag, tables, known, any, ps.as_slice(), env)
        }
        Pred::Not(condition) => {
            let gate = test(alloc, dag, tables, known, condition.get(), env)?;
            Ok(TruthNodes {
                yes: gate.no,
                no: gate.yes,
            })
        }
        Pred::Exists(query) => asked(alloc, dag, tables, known, None, query.get(), env),
        Pred::Member(e, query) => {
            let x = value(alloc, e, env)?;
            asked(alloc, dag, tables, known, Some(&x), query.get(), env)
        }
    }
}

// A comparison, which no choice of rows changes.
fn comparison(
    alloc: Global,
    dag: &Dag,
    op: Op,
    a: &Expr,
    b: &Expr,
    env: &[&Row],
) -> Result<TruthNodes, NoMemory>
    ensures { IfOk result (λ g. IsGate dag.now g (constant (value_truth op (value_by wrapped a.now (map (λ r. r.now) env.now)) (value_by wrapped b.now (map (λ r. r.now) env.now))))) }
{
    let truth = compared(alloc, op, a, b, env)?;
    Ok(constant(dag, truth))
}

// The test for NULL, which no choice of rows changes.
fn missing(alloc: Global, dag: &Dag, e: &Expr, env: &[&Row]) -> Result<TruthNodes, NoMemory>
    ensures { IfOk result (λ g. IsGate dag.now g (constant (null_truth (value_by wrapped e.now (map (λ r. r.now) env.now))))) }
{
    let x = value(alloc, e, env)?;
    Ok(constant(dag, null_truth(&x)))
}

// Whether a value is in a list, which no choice of rows changes.
fn listed(
    alloc: Global,
    dag: &Dag,
    e: &Expr,
    items: &[Expr],
    env: &[&Row],
) -> Result<TruthNodes, NoMemory>
    ensures { IfOk result (λ g. IsGate dag.now g (constant (one_of_truth wrapped (value_by wrapped e.now (map (λ r. r.now) env.now)) items.now (map (λ r. r.now) env.now)))) }
{
    let x = value(alloc, e, env)?;
    let truth = one_of_truth(alloc, &x, items, env)?;
    Ok(constant(dag, truth))
}

// Where the query has a row (EXISTS), or where the value that is sought is among its rows (IN).
#[cycle(annotate)]
fn asked<'q>(
    alloc: Global,
    dag: &mut Dag,
    tables: &[List<Row>],
    known: &mut List<Subquery<'q>>,
    sought: Option<&Value>,
    query: &'q Query,
    env: &[&Row],
) -> Result<TruthNodes, NoMemory>
    requires places { dag.old.rows ≡ places tables.now }
    requires known { AreKnown dag.old tables.now known.old }
    ensures grown { IsGrown dag.old dag.new }
    ensures known { AreKnown dag.new tables.now known.new }
    ensures gate { IfOk result (λ g. IsGate dag.new g (sought_test sought.entry (λ s. answer_by wrapped query.now (kept tables.now s) (map (λ r. r.now) env.now)))) }
{
    if let Some(found) = found_of(known.as_slice(), query) {
        return found.gate(alloc, dag, sought);
    }
    if query_is_closed(query, 0) {
        return newly_asked(alloc, dag, tables, known, sought, query);
    }
    match sought {
        None => some_row(alloc, dag, tables, known, query, env),
        Some(_) => {
            let rows = annotated(alloc, dag, tables, known, query, env)?;
            among(alloc, dag, sought, rows.as_slice())
        }
    }
}

// Where the query has a row. A projection has one exactly where its source has, so it is not made.
#[cycle(annotate)]
fn some_row<'q>(
    alloc: Global,
    dag: &mut Dag,
    tables: &[List<Row>],
    known: &mut List<Subquery<'q>>,
    query: &'q Query,
    env: &[&Row],
) -> Result<TruthNodes, NoMemory>
    requires places { dag.old.rows ≡ places tables.now }
    requires known { AreKnown dag.old tables.now known.old }
    ensures grown { IsGrown dag.old dag.new }
    ensures known { AreKnown dag.new tables.now known.new }
    ensures gate { IfOk result (λ g. IsGate dag.new g (exists_test (λ s. answer_by wrapped query.now (kept tables.now s) (map (λ r. r.now) env.now)))) }
{
    match query {
        Query::Project(a, _) => some_row(alloc, dag, tables, known, a.get(), env),
        _ => {
            let rows = annotated(alloc, dag, tables, known, query, env)?;
            among(alloc, dag, None, rows.as_slice())
        }
    }
}

// Where a query that names no row outside of it has a row, or where the value that is sought is among
// its rows. It is known from then on.
#[cycle(annotate)]
fn newly_asked<'q>(
    alloc: Global,
    dag: &mut Dag,
    tables: &[List<Row>],
    known: &mut List<Subquery<'q>>,
    sought: Option<&Value>,
    query: &'q Query,
) -> Result<TruthNodes, NoMemory>
    requires places { dag.old.rows ≡ places tables.now }
    requires known { AreKnown dag.old tables.now known.old }
    requires closed { StaysQuery 0 query.now }
    ensures grown { IsGrown dag.old dag.new }
    ensures known { AreKnown dag.new tables.now known.new }
    ensures gate { IfOk result (λ g. (env : Env) → IsGate dag.new g (sought_test sought.entry (λ s. answer_by wrapped query.now (kept tables.now s) env))) }
{
    let found = newly(alloc, dag, tables, known, query)?;
    let gate = found.gate(alloc, dag, sought)?;
    let memo = Memo::Tested(found);
    known.push(Subquery { query, memo })?;
    Ok(gate)
}

// What the rows of a query come to with no rows in scope.
#[cycle(annotate)]
fn newly<'q>(
    alloc: Global,
    dag: &mut Dag,
    tables: &[List<Row>],
    known: &mut List<Subquery<'q>>,
    query: &'q Query,
) -> Result<Found, NoMemory>
    requires places { dag.old.rows ≡ places tables.now }
    requires known { AreKnown dag.old tables.now known.old }
    ensures grown { IsGrown dag.old dag.new }
    ensures known { AreKnown dag.new tables.now known.new }
    ensures tells { IfOk result (λ f. Tells dag.new f (λ s. answer_by wrapped query.now (kept tables.now s) [])) }
{
    let rows = annotated(alloc, dag, tables, known, query, &[])?;
    Found::of(alloc, dag, rows.as_slice())
}

// Where the conditions together are true and where they are false. No condition is evaluated after
// one that decides them at every choice.
#[cycle(annotate)]
fn together<'q>(
    alloc: Global,
    dag: &mut Dag,
    tables: &[List<Row>],
    known: &mut List<Subquery<'q>>,
    junction: &Junction,
    ps: &'q [Pred],
    env: &[&Row],
) -> Result<TruthNodes, NoMemory>
    requires places { dag.old.rows ≡ places tables.now }
    requires known { AreKnown dag.old tables.now known.old }
    ensures grown { IsGrown dag.old dag.new }
    ensures known { AreKnown dag.new tables.now known.new }
    ensures gate { IfOk result (λ g. IsGate dag.new g (test_joined junction.now ps.now tables.now (map (λ r. r.now) env.now))) }
{
    let mut gates = TruthLists {
        yes: List::new(alloc),
        no: List::new(alloc),
    };
    for condition in ps {
        let gate = test(alloc, dag, tables, known, condition, env)?;
        if is_always(dag, junction.deciding(&gate)) {
            return Ok(gate);
        }
        gates.push(gate)?;
    }
    junction.of(dag, &gates)
}

/// The condition with the row as the innermost in scope.
#[cycle(annotate)]
pub(crate) fn test_row<'q, 'a>(
    alloc: Global,
    dag: &mut Dag,
    tables: &[List<Row>],
    known: &mut List<Subquery<'q>>,
    condition: &'q Pred,
    row: &'a Row,
    env: &[&'a Row],
) -> Result<TruthNodes, NoMemory>
    requires places { dag.old.rows ≡ places tables.now }
    requires known { AreKnown dag.old tables.now known.old }
    ensures grown { IsGrown dag.old dag.new }
    ensures known { AreKnown dag.new tables.now known.new }
    ensures gate { IfOk result (λ g. IsGate dag.new g (test_under condition.now tables.now (map (λ r. r.now) env.now) row.now)) }
{
    let inner = scope(alloc, row, env)?;
    test(alloc, dag, tables, known, condition, inner.as_slice())
}
