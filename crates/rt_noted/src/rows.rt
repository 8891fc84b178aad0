//! Rows with their nodes: tables, unions, projections.

ghost use Rattle.std.specs.Prelude.{◌≡◌, ◌∷◌, ◌++◌, ◌+◌, ◌<◌, ◌≤◌, [], map, length, slice_index_or, IfOk, OnOk, ◌^◌};
ghost use Rattle.rt_algebra.specs.Expression.{wrapped, row_by};
ghost use Rattle.rt_schema.specs.Given.{places, base_of};
ghost use Rattle.rt_formula.specs.Shared.{IsGrown};
ghost use Rattle.rt_noted.specs.Annotated.{AreMerged, AreNoted, Reads, entries_of, placed, projected_rows};

use crate::copies::{copied, room};
use rt_algebra::{Expr, row, scope};
use rt_formula::{Dag, Groups, Node, Noted};
use rt_value::{List, NoMemory, Row};
use std::alloc::Global;

/// Puts a copy of the row, with its node, at the end.
pub fn note(alloc: Global, out: &mut List<Noted>, row: &Row, node: Node) -> Result<(), NoMemory>
    ensures { OnOk result (out.new ≡ out.old ++ record { row = row.now; node = node } ∷ []) }
{
    let row = copied(alloc, row)?;
    out.push(Noted { row, node })
}

/// A list of these rows alone.
pub fn alone(alloc: Global, rows: List<Noted>) -> Result<List<List<Noted>>, NoMemory>
    ensures { IfOk result (λ out. out ≡ rows ∷ []) }
{
    let mut out = List::new(alloc);
    out.push(rows)?;
    Ok(out)
}

// Each row of a table whose first place is `base`, where its place is kept.
fn placed(alloc: Global, dag: &mut Dag, rows: &[Row], base: usize) -> Result<List<Noted>, NoMemory>
    requires { base + length rows.now ≤ dag.old.rows }
    ensures grown { IsGrown dag.old dag.new }
    ensures reads { IfOk result (λ out. Reads dag.new out (placed base rows.now)) }
{
    let _rows = dag.rows();
    let mut out = List::new(alloc);
    for (at, row) in rows.iter().enumerate() {
        let node = dag.row(base + at)?;
        note(alloc, &mut out, row, node)?;
    }
    Ok(out)
}

/// The place of the first row of a table.
pub fn first_place(given: &[List<Row>], number: usize) -> usize
    requires { places given.now < 2 ^ 64 }
    ensures { result ≡ base_of number given.now }
{
    let mut base: usize = 0;
    let mut left = number;
    for rows in given {
        if left == 0 {
            return base;
        }
        left -= 1;
        base += rows.as_slice().len();
    }
    base
}

/// The rows of a table, each where its place is kept.
pub fn table(
    alloc: Global,
    dag: &mut Dag,
    given: &[List<Row>],
    number: usize,
) -> Result<List<Noted>, NoMemory>
    requires { dag.old.rows ≡ places given.now }
    ensures grown { IsGrown dag.old dag.new }
    ensures reads { IfOk result (λ out. Reads dag.new out (placed (base_of number given.now) (slice_index_or given.now number []))) }
{
    let _rows = dag.rows();
    match given.get(number) {
        None => Ok(List::new(alloc)),
        Some(rows) => {
            let base = first_place(given, number);
            placed(alloc, dag, rows.as_slice(), base)
        }
    }
}

/// The rows, and copies of `more` after them.
pub fn appended(alloc: Global, rows: List<Noted>, more: &[Noted]) -> Result<List<Noted>, NoMemory>
    ensures { IfOk result (λ out. out ≡ rows ++ more.now) }
{
    let mut out = rows;
    for noted in more {
        note(alloc, &mut out, &noted.row, noted.node)?;
    }
    Ok(out)
}

// The values of the items with `source` as the innermost row in scope.
fn values_under<'a>(
    alloc: Global,
    source: &'a Row,
    items: &[Expr],
    env: &[&'a Row],
) -> Result<Row, NoMemory>
    ensures { IfOk result (λ r. r ≡ row_by wrapped items.now (source.now ∷ map (λ o. o.now) env.now)) }
{
    let inner = scope(alloc, source, env)?;
    row(alloc, items, inner.as_slice())
}

// The values of the items for each row as the innermost in scope.
fn projected(
    alloc: Global,
    from: &[Noted],
    items: &[Expr],
    env: &[&Row],
) -> Result<List<Noted>, NoMemory>
    ensures { IfOk result (λ out. out ≡ projected_rows from.now items.now (map (λ r. r.now) env.now)) }
{
    let mut out = room(alloc, from.len())?;
    for noted in from {
        let row = values_under(alloc, &noted.row, items, &*env)?;
        let node = noted.node;
        out.push(Noted { row, node })?;
    }
    Ok(out)
}

/// The values of the items for each row, each row once.
pub fn projection(
    alloc: Global,
    dag: &mut Dag,
    from: &[Noted],
    items: &[Expr],
    env: &[&Row],
) -> Result<List<Noted>, NoMemory>
    requires { AreNoted dag.old from.now }
    ensures grown { IsGrown dag.old dag.new }
    ensures merged { IfOk result (λ out. AreMerged dag.new out (entries_of dag.old (projected_rows from.now items.now (map (λ r. r.now) env.now)))) }
{
    let rows = projected(alloc, from, items, env)?;
    merged(alloc, dag, rows.as_slice())
}

// Each row once, in the order in which rows first come, with a node that is true where one of its
// nodes is.
fn merged(alloc: Global, dag: &mut Dag, rows: &[Noted]) -> Result<List<Noted>, NoMemory>
    requires { AreNoted dag.old rows.now }
    ensures grown { IsGrown dag.old dag.new }
    ensures merged { IfOk result (λ out. AreMerged dag.new out (entries_of dag.old rows.now)) }
{
    let groups = Groups::of(alloc, rows)?;
    let mut known = Groups::new(alloc);
    let mut out = List::new(alloc);
    for noted in rows {
        if known.get(&noted.row).is_empty() {
            known.put(noted)?;
            let node = dag.any(groups.get(&noted.row))?;
            note(alloc, &mut out, &noted.row, node)?;
        }
    }
    Ok(out)
}
