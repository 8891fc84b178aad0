//! The clauses of one rule, one for each row, from the last row to the first. For a key, a row
//! meets the group of the rows after it, and not each of them.

ghost use Rattle.std.specs.Prelude.{◌≡◌, ◌<◌, ◌≤◌, ◌+◌, length, drop, IfOk};
ghost use Rattle.rt_schema.specs.Kept.{kept_rows};
ghost use Rattle.rt_schema.specs.Law.{not_null_holds, key_holds, foreign_holds, check_holds};
ghost use Rattle.rt_formula.specs.Shared.{IsGrown};
ghost use Rattle.rt_rules.specs.Meaning.{Means, IsIndexed, allowed, filled, apart, met};

use crate::index::{found, note};
use rt_formula::{Dag, Groups, Node};
use rt_schema::{Check, Foreign, has_null, null_at, passes};
use rt_value::{List, NoMemory, Row};
use std::alloc::Global;

/// That no kept row has NULL in the column, `base` being the place of the first row.
pub(crate) fn not_null(
    alloc: Global,
    dag: &mut Dag,
    column: usize,
    rows: &[Row],
    base: usize,
) -> Result<Node, NoMemory>
    requires { base + length rows.now ≤ dag.old.rows }
    ensures grown { IsGrown dag.old dag.new }
    ensures means { IfOk result (λ n. Means dag.new n (λ keep. not_null_holds column (kept_rows rows.now (drop base keep)))) }
{
    let mut clauses = List::new(alloc);
    let _places = dag.rows();
    let mut at = rows.len();
    'rows: while at > 0 {
        at -= 1;
        clauses.push(filled(dag, column, &rows[at], base + at)?)?;
    }
    dag.all(clauses.as_slice())
}

// That the row is not kept, or has a value in the column.
fn filled(dag: &mut Dag, column: usize, row: &Row, place: usize) -> Result<Node, NoMemory>
    requires { place < dag.old.rows }
    ensures grown { IsGrown dag.old dag.new }
    ensures means { IfOk result (λ n. Means dag.new n (filled column row.now place)) }
{
    if !null_at(row, column) {
        return Ok(dag.yes());
    }
    let kept = dag.row(place)?;
    dag.not(kept)
}

/// That no kept row fails the check, `base` being the place of the first row. A check that is
/// unknown passes (ISO/IEC 9075-2, check constraint definition).
pub(crate) fn check(
    alloc: Global,
    dag: &mut Dag,
    check: &Check,
    rows: &[Row],
    base: usize,
) -> Result<Node, NoMemory>
    requires { base + length rows.now ≤ dag.old.rows }
    ensures grown { IsGrown dag.old dag.new }
    ensures means { IfOk result (λ n. Means dag.new n (λ keep. check_holds check.now (kept_rows rows.now (drop base keep)))) }
{
    let mut clauses = List::new(alloc);
    let _places = dag.rows();
    let mut at = rows.len();
    'rows: while at > 0 {
        at -= 1;
        clauses.push(allowed(dag, check, &rows[at], base + at)?)?;
    }
    dag.all(clauses.as_slice())
}

// That the row is not kept, or the check passes.
fn allowed(dag: &mut Dag, check: &Check, row: &Row, place: usize) -> Result<Node, NoMemory>
    requires { place < dag.old.rows }
    ensures grown { IsGrown dag.old dag.new }
    ensures means { IfOk result (λ n. Means dag.new n (allowed check.now row.now place)) }
{
    if passes(check, row) {
        return Ok(dag.yes());
    }
    let kept = dag.row(place)?;
    dag.not(kept)
}

/// That no two kept rows agree on the columns of a key, `base` being the place of the first row.
/// Rows with NULL there agree with none (ISO/IEC 9075-2, unique constraint definition).
pub(crate) fn key(
    alloc: Global,
    dag: &mut Dag,
    columns: &[usize],
    rows: &[Row],
    base: usize,
) -> Result<Node, NoMemory>
    requires { base + length rows.now ≤ dag.old.rows }
    ensures grown { IsGrown dag.old dag.new }
    ensures means { IfOk result (λ n. Means dag.new n (λ keep. key_holds columns.now (kept_rows rows.now (drop base keep)))) }
{
    let mut clauses = List::new(alloc);
    let mut later = Groups::new(alloc);
    let _places = dag.rows();
    let mut at = rows.len();
    'rows: while at > 0 {
        at -= 1;
        let row = &rows[at];
        let clause = apart(
            alloc,
            dag,
            &later,
            columns,
            row,
            base + at,
            from(rows, at + 1),
        )?;
        clauses.push(clause)?;
        note(alloc, dag, &mut later, columns, row, base + at)?;
    }
    dag.all(clauses.as_slice())
}

/// The rows from a place on.
pub(crate) fn from(rows: &[Row], at: usize) -> &[Row]
    requires { at ≤ length rows.now }
    ensures { result.now ≡ drop at rows.now }
{
    rows.split_at(at).1
}

// That the row is not kept, or agrees with no kept one of the later rows.
fn apart(
    alloc: Global,
    dag: &mut Dag,
    later: &Groups,
    columns: &[usize],
    row: &Row,
    place: usize,
    others: &[Row],
) -> Result<Node, NoMemory>
    requires place { place < dag.old.rows }
    requires later { IsIndexed dag.old later.now columns.now others.now (place + 1) }
    ensures grown { IsGrown dag.old dag.new }
    ensures means { IfOk result (λ n. Means dag.new n (apart columns.now row.now place others.now (place + 1))) }
{
    if has_null(row, columns) {
        return Ok(dag.yes());
    }
    let clash = found(alloc, dag, later, columns, row)?;
    let kept = dag.row(place)?;
    let both = dag.all(&[kept, clash])?;
    let clause = dag.not(both)?;
    Ok(clause)
}

/// That each kept row has NULL in a referencing column or agrees with a kept one of `others`
/// (ISO/IEC 9075-2, referential constraint definition, MATCH SIMPLE). `base` and `others_base`
/// are the places of the first rows. `groups` has the others by their values in the referenced
/// columns.
pub(crate) fn foreign(
    alloc: Global,
    dag: &mut Dag,
    rule: &Foreign,
    rows: &[Row],
    base: usize,
    groups: &Groups,
    others: &[Row],
    others_base: usize,
) -> Result<Node, NoMemory>
    requires rows { base + length rows.now ≤ dag.old.rows }
    requires indexed { IsIndexed dag.old groups.now rule.now.to others.now others_base }
    ensures grown { IsGrown dag.old dag.new }
    ensures means { IfOk result (λ n. Means dag.new n (λ keep. foreign_holds rule.now.from rule.now.to (kept_rows others.now (drop others_base keep)) (kept_rows rows.now (drop base keep)))) }
{
    let mut clauses = List::new(alloc);
    let _places = dag.rows();
    let mut at = rows.len();
    'rows: while at > 0 {
        at -= 1;
        let clause = met(
            alloc,
            dag,
            rule,
            &rows[at],
            base + at,
            groups,
            others,
            others_base,
        )?;
        clauses.push(clause)?;
    }
    dag.all(clauses.as_slice())
}

// That the row is not kept, has NULL in a referencing column, or agrees with a kept one of
// `others`.
fn met(
    alloc: Global,
    dag: &mut Dag,
    rule: &Foreign,
    row: &Row,
    place: usize,
    groups: &Groups,
    others: &[Row],
    others_base: usize,
) -> Result<Node, NoMemory>
    requires place { place < dag.old.rows }
    requires indexed { IsIndexed dag.old groups.now rule.now.to others.now others_base }
    ensures grown { IsGrown dag.old dag.new }
    ensures means { IfOk result (λ n. Means dag.new n (met rule.now.from rule.now.to row.now place others.now others_base)) }
{
    let from = rule.from.as_slice();
    if has_null(row, from) {
        return Ok(dag.yes());
    }
    let referred = found(alloc, dag, groups, from, row)?;
    let kept = dag.row(place)?;
    let absent = dag.not(kept)?;
    let clause = dag.any(&[absent, referred])?;
    Ok(clause)
}
