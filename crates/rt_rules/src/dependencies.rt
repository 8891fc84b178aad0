//! The clauses of a functional dependency, one for each row. If the dependency holds for the later
//! rows, those that agree with a row on the determining columns are all the same in the others. So
//! one that is the same as the row is enough: a few gates a row, and none for each pair.

ghost use Rattle.std.specs.Prelude.{◌≡◌, ◌<◌, ◌≤◌, ◌+◌, ◌++◌, ◌&&◌, not, length, drop, IfOk};
ghost use Rattle.rt_schema.specs.Kept.{kept_rows};
ghost use Rattle.rt_schema.specs.Law.{depend_holds};
ghost use Rattle.rt_formula.specs.Shared.{IsGrown, bool_at, val};
ghost use Rattle.rt_rules.specs.Meaning.{Means, IsIndexed, determined};

use crate::clauses::from;
use crate::index::{found, note};
use rt_formula::{Dag, Groups, Node};
use rt_schema::{Depend, has_null};
use rt_value::{List, NoMemory, Row};
use std::alloc::Global;

/// That kept rows that agree on the columns `from` are the same in the columns `to`, `base` being
/// the place of the first row.
pub(crate) fn depend(
    alloc: Global,
    dag: &mut Dag,
    rule: &Depend,
    rows: &[Row],
    base: usize,
) -> Result<Node, NoMemory>
    requires { base + length rows.now ≤ dag.old.rows }
    ensures grown { IsGrown dag.old dag.new }
    ensures means { IfOk result (λ n. Means dag.new n (λ keep. depend_holds rule.now.from rule.now.to (kept_rows rows.now (drop base keep)))) }
{
    let columns = all_columns(alloc, rule)?;
    all_determined(alloc, dag, rule, columns.as_slice(), rows, base)
}

// The determining columns, then the others.
fn all_columns(alloc: Global, rule: &Depend) -> Result<List<usize>, NoMemory>
    ensures { IfOk result (λ columns. columns ≡ rule.now.from ++ rule.now.to) }
{
    let mut columns = List::from_slice(alloc, rule.from.as_slice())?;
    columns.extend(rule.to.as_slice())?;
    Ok(columns)
}

// The clauses of all rows; `columns` are the determining columns, then the others.
fn all_determined(
    alloc: Global,
    dag: &mut Dag,
    rule: &Depend,
    columns: &[usize],
    rows: &[Row],
    base: usize,
) -> Result<Node, NoMemory>
    requires rows { base + length rows.now ≤ dag.old.rows }
    requires columns { columns.now ≡ rule.now.from ++ rule.now.to }
    ensures grown { IsGrown dag.old dag.new }
    ensures means { IfOk result (λ n. Means dag.new n (λ keep. depend_holds rule.now.from rule.now.to (kept_rows rows.now (drop base keep)))) }
{
    let mut clauses = List::new(alloc);
    let mut alike = Groups::new(alloc);
    let mut same = Groups::new(alloc);
    let _places = dag.rows();
    let mut at = rows.len();
    'rows: while at > 0 {
        at -= 1;
        let row = &rows[at];
        let later = from(rows, at + 1);
        let clause = determined(
            alloc,
            dag,
            rule,
            columns,
            &alike,
            &same,
            row,
            base + at,
            later,
        )?;
        clauses.push(clause)?;
        note(alloc, dag, &mut alike, rule.from.as_slice(), row, base + at)?;
        note(alloc, dag, &mut same, columns, row, base + at)?;
    }
    dag.all(clauses.as_slice())
}

// That the row is not kept, or agrees with no kept one of the later rows, or with one that is the
// same. These rows are grouped by the determining columns in `alike`, and by all columns in
// `same`.
fn determined(
    alloc: Global,
    dag: &mut Dag,
    rule: &Depend,
    columns: &[usize],
    alike: &Groups,
    same: &Groups,
    row: &Row,
    place: usize,
    later: &[Row],
) -> Result<Node, NoMemory>
    requires place { place < dag.old.rows }
    requires columns { columns.now ≡ rule.now.from ++ rule.now.to }
    requires alike { IsIndexed dag.old alike.now rule.now.from later.now (place + 1) }
    requires same { IsIndexed dag.old same.now columns.now later.now (place + 1) }
    ensures grown { IsGrown dag.old dag.new }
    ensures means { IfOk result (λ n. Means dag.new n (determined rule.now.from rule.now.to row.now place later.now (place + 1))) }
{
    let _places = dag.rows();
    let from = rule.from.as_slice();
    if has_null(row, from) {
        return Ok(dag.yes());
    }
    let agreeing = found(alloc, dag, alike, from, row)?;
    let met = found(alloc, dag, same, columns, row)?;
    let clause = unless(dag, place, agreeing, met)?;
    Ok(clause)
}

// That the row at a place is not kept, or the one node is false, or the other is true.
fn unless(dag: &mut Dag, place: usize, agreeing: Node, met: Node) -> Result<Node, NoMemory>
    requires place { place < dag.old.rows }
    requires agreeing { agreeing < length dag.old.entries }
    requires met { met < length dag.old.entries }
    ensures grown { IsGrown dag.old dag.new }
    ensures means { IfOk result (λ n. Means dag.new n (λ keep. not (bool_at keep place && (val dag.old keep agreeing && not (val dag.old keep met))))) }
{
    let unmet = dag.not(met)?;
    let kept = dag.row(place)?;
    let broken = dag.all(&[kept, agreeing, unmet])?;
    let clause = dag.not(broken)?;
    Ok(clause)
}
