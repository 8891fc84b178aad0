//! The evaluation of queries over all given rows, operator by operator. For a join, rows are
//! chosen before they get a node.

ghost use Rattle.std.specs.Prelude.{◌≡◌, ◌<◌, ◌&&◌, List, Bool, [], map, IfOk};
ghost use Rattle.rt_algebra.specs.Answer.{answer_by};
ghost use Rattle.rt_algebra.specs.Expression.{wrapped};
ghost use Rattle.rt_schema.specs.Given.{Rows, base_of, places, rows_at};
ghost use Rattle.rt_schema.specs.Kept.{kept};
ghost use Rattle.rt_formula.specs.Shared.{IsGrown, bool_at};
ghost use Rattle.rt_noted.specs.Entries.{selected};
ghost use Rattle.rt_noted.specs.Annotated.{AreNoted, Choosing, Gives, IsNode, placed, set_rows, test_under, yes_when};
ghost use Rattle.rt_noted.specs.Known.{AreKnown};
ghost use Rattle.rt_noted.specs.Joints.{AreJoints, GiveEach, Makes, joint_entries};
ghost use Rattle.rt_noted.specs.Narrowed.{IsSelected};

use crate::conditions::{test, test_row};
use crate::operand::operand;
use crate::sets::set_rows;
use rt_algebra::{Pred, Query, scope};
use rt_formula::{Dag, Node, Noted};
use rt_noted::{
    Joint, Side, Subquery, alone, first_place, is_never, meeting, narrowed, note, noted_product,
    projection, row_meeting, table,
};
use rt_schema::rows_at;
use rt_split::{Probe, is_refused};
use rt_value::{List, NoMemory, Row};
use std::alloc::Global;

// The rows whose condition may be true, each with the node that says where it is there and the
// condition is true. A row gets a node only once its condition is known.
#[cycle(annotate)]
fn chosen<'q>(
    alloc: Global,
    dag: &mut Dag,
    tables: &[List<Row>],
    known: &mut List<Subquery<'q>>,
    condition: &'q Pred,
    joints: &[Joint],
    env: &[&Row],
) -> Result<List<Noted>, NoMemory>
    requires places { dag.old.rows ≡ places tables.now }
    requires known { AreKnown dag.old tables.now known.old }
    requires joints { AreJoints dag.old joints.now }
    ensures grown { IsGrown dag.old dag.new }
    ensures known { AreKnown dag.new tables.now known.new }
    ensures chosen { IfOk result (λ out. Choosing dag.old dag.new out [] (selected (joint_entries dag.old joints.now) (test_under condition.now tables.now (map (λ r. r.now) env.now)))) }
{
    let mut out = List::new(alloc);
    for joint in joints {
        let gate = test_row(alloc, dag, tables, known, condition, &joint.row, &*env)?;
        let node = meeting(alloc, dag, joint.nodes.as_slice(), gate.yes)?;
        if !is_never(dag, node) {
            note(alloc, &mut out, &joint.row, node)?;
        }
    }
    Ok(out)
}

// The rows of a table whose condition may be true. They are tested where they stand: in the one list
// of the rows in scope, each takes the innermost place of the one before. The condition is taken
// apart for a first test once, before all of them.
#[cycle(annotate)]
fn table_selection<'q, 'a>(
    alloc: Global,
    dag: &mut Dag,
    tables: &'a [List<Row>],
    known: &mut List<Subquery<'q>>,
    number: usize,
    condition: &'q Pred,
    env: &[&'a Row],
) -> Result<List<Noted>, NoMemory>
    requires places { dag.old.rows ≡ places tables.now }
    requires known { AreKnown dag.old tables.now known.old }
    ensures grown { IsGrown dag.old dag.new }
    ensures known { AreKnown dag.new tables.now known.new }
    ensures chosen { IfOk result (λ out. Choosing dag.old dag.new out [] (selected (placed (base_of number tables.now) (rows_at tables.now number)) (test_under condition.now tables.now (map (λ r. r.now) env.now)))) }
{
    let _rows = dag.rows();
    let base = first_place(tables, number);
    let rows = rows_at(tables, number);
    let mut out = List::new(alloc);
    let no_row = Row::new(alloc);
    let mut inner = List::from_vec(scope(alloc, &no_row, env)?);
    let probe = Probe::of(alloc, condition, inner.as_slice())?;
    for (at, row) in rows.iter().enumerate() {
        if probe.refuses(row) {
            continue;
        }
        inner.set(0, row);
        let node = row_where(
            alloc,
            dag,
            tables,
            known,
            condition,
            base + at,
            inner.as_slice(),
        )?;
        if !is_never(dag, node) {
            note(alloc, &mut out, row, node)?;
        }
    }
    Ok(out)
}

// The node that says where the row of a place is there and the condition is true. A condition that
// the rows in scope alone refuse is not evaluated.
#[cycle(annotate)]
fn row_where<'q>(
    alloc: Global,
    dag: &mut Dag,
    tables: &[List<Row>],
    known: &mut List<Subquery<'q>>,
    condition: &'q Pred,
    place: usize,
    env: &[&Row],
) -> Result<Node, NoMemory>
    requires places { dag.old.rows ≡ places tables.now }
    requires known { AreKnown dag.old tables.now known.old }
    requires place { place < dag.old.rows }
    ensures grown { IsGrown dag.old dag.new }
    ensures known { AreKnown dag.new tables.now known.new }
    ensures node { IfOk result (λ n. IsNode dag.new n (λ s. bool_at s place && yes_when condition.now tables.now (map (λ r. r.now) env.now) s)) }
{
    if is_refused(alloc, condition, env)? {
        return Ok(dag.no());
    }
    let gate = test(alloc, dag, tables, known, condition, env)?;
    row_meeting(dag, place, gate.yes)
}

// The rows of each of the queries.
#[cycle(annotate)]
fn members<'q>(
    alloc: Global,
    dag: &mut Dag,
    tables: &[List<Row>],
    known: &mut List<Subquery<'q>>,
    qs: &'q [Query],
    env: &[&Row],
) -> Result<List<List<Noted>>, NoMemory>
    requires places { dag.old.rows ≡ places tables.now }
    requires known { AreKnown dag.old tables.now known.old }
    ensures grown { IsGrown dag.old dag.new }
    ensures known { AreKnown dag.new tables.now known.new }
    ensures give { IfOk result (λ out. GiveEach dag.new out (λ s. map (λ query. answer_by wrapped query (kept tables.now s) (map (λ r. r.now) env.now)) qs.now)) }
{
    let mut out = List::new(alloc);
    for query in qs {
        let rows = annotated(alloc, dag, tables, known, query, env)?;
        out.push(rows)?;
    }
    Ok(out)
}

// The rows of each member of a product; another query is its own only member.
#[cycle(annotate)]
fn source<'q>(
    alloc: Global,
    dag: &mut Dag,
    tables: &[List<Row>],
    known: &mut List<Subquery<'q>>,
    query: &'q Query,
    env: &[&Row],
) -> Result<List<List<Noted>>, NoMemory>
    requires places { dag.old.rows ≡ places tables.now }
    requires known { AreKnown dag.old tables.now known.old }
    ensures grown { IsGrown dag.old dag.new }
    ensures known { AreKnown dag.new tables.now known.new }
    ensures makes { IfOk result (λ out. Makes dag.new out (λ s. answer_by wrapped query.now (kept tables.now s) (map (λ r. r.now) env.now))) }
{
    match query {
        Query::Product(qs) => members(alloc, dag, tables, known, qs.as_slice(), env),
        _ => {
            let rows = annotated(alloc, dag, tables, known, query, env)?;
            alone(alloc, rows)
        }
    }
}

/// The rows that may come out, each with its node.
#[cycle(annotate)]
pub(crate) fn annotated<'q>(
    alloc: Global,
    dag: &mut Dag,
    tables: &[List<Row>],
    known: &mut List<Subquery<'q>>,
    query: &'q Query,
    env: &[&Row],
) -> Result<List<Noted>, NoMemory>
    requires places { dag.old.rows ≡ places tables.now }
    requires known { AreKnown dag.old tables.now known.old }
    ensures grown { IsGrown dag.old dag.new }
    ensures known { AreKnown dag.new tables.now known.new }
    ensures gives { IfOk result (λ out. Gives dag.new out (λ s. answer_by wrapped query.now (kept tables.now s) (map (λ r. r.now) env.now))) }
{
    match query {
        Query::Table(t) => table(alloc, dag, tables, *t),
        Query::Select(a, condition) => match a.get() {
            Query::Table(t) => table_selection(alloc, dag, tables, known, *t, condition, &*env),
            source => {
                let joints = joints(alloc, dag, tables, known, source, condition, env)?;
                chosen(alloc, dag, tables, known, condition, joints.as_slice(), env)
            }
        },
        Query::Project(a, items) => {
            let rows = annotated(alloc, dag, tables, known, a.get(), env)?;
            projection(alloc, dag, rows.as_slice(), items.as_slice(), env)
        }
        Query::Product(qs) => {
            let parts = members(alloc, dag, tables, known, qs.as_slice(), env)?;
            noted_product(alloc, dag, parts.as_slice())
        }
        Query::Union(a, b) => {
            let first = operand(alloc, dag, tables, known, a.get(), env)?;
            combined(alloc, dag, tables, known, first, None, b.get(), env)
        }
        Query::Except(a, b) => {
            let first = operand(alloc, dag, tables, known, a.get(), env)?;
            let side = Some(Side::Missing);
            combined(alloc, dag, tables, known, first, side, b.get(), env)
        }
        Query::Intersect(a, b) => {
            let first = operand(alloc, dag, tables, known, a.get(), env)?;
            let side = Some(Side::Present);
            combined(alloc, dag, tables, known, first, side, b.get(), env)
        }
    }
}

// The rows of a query among which are all on which a condition is true.
#[cycle(annotate)]
fn joints<'q>(
    alloc: Global,
    dag: &mut Dag,
    tables: &[List<Row>],
    known: &mut List<Subquery<'q>>,
    query: &'q Query,
    condition: &Pred,
    env: &[&Row],
) -> Result<List<Joint>, NoMemory>
    requires places { dag.old.rows ≡ places tables.now }
    requires known { AreKnown dag.old tables.now known.old }
    ensures grown { IsGrown dag.old dag.new }
    ensures known { AreKnown dag.new tables.now known.new }
    ensures below { IfOk result (λ out. AreJoints dag.new out) }
    ensures selected { IfOk result (λ out. IsSelected dag.new condition.now (map (λ r. r.now) env.now) out (λ s. answer_by wrapped query.now (kept tables.now s) (map (λ r. r.now) env.now))) }
{
    let parts = source(alloc, dag, tables, known, query, env)?;
    narrowed(alloc, parts.as_slice(), condition, env)
}

// The rows, and those of a query, put together by a set operator.
#[cycle(annotate)]
fn combined<'q>(
    alloc: Global,
    dag: &mut Dag,
    tables: &[List<Row>],
    known: &mut List<Subquery<'q>>,
    first: List<Noted>,
    side: Option<Side>,
    query: &'q Query,
    env: &[&Row],
) -> Result<List<Noted>, NoMemory>
    requires places { dag.old.rows ≡ places tables.now }
    requires known { AreKnown dag.old tables.now known.old }
    requires first { AreNoted dag.old first }
    ensures grown { IsGrown dag.old dag.new }
    ensures known { AreKnown dag.new tables.now known.new }
    ensures gives { IfOk result (λ out. (rows : List Bool → Rows) → Gives dag.old first rows → Gives dag.new out (λ s. set_rows side (rows s) (answer_by wrapped query.now (kept tables.now s) (map (λ r. r.now) env.now)))) }
{
    let second = operand(alloc, dag, tables, known, query, env)?;
    set_rows(alloc, dag, first, second.as_slice(), side)
}
