//! The rows of a table, grouped by their values in some columns. For rows 4, 7 and 9 with the
//! value x, noted from the last: x has 9, then 7|9, then 4|(7|9), one node at a time.

ghost use Rattle.std.specs.Prelude.{◌≡◌, ℕ, List, ◌<◌, ◌≤◌, ◌+◌, length, drop, IfOk, OnOk};
ghost use Rattle.std.specs.List.{list_any};
ghost use Rattle.rt_value.specs.Row.{row_eq};
ghost use Rattle.rt_schema.specs.Cells.{cells};
ghost use Rattle.rt_schema.specs.Given.{Rows};
ghost use Rattle.rt_schema.specs.Kept.{kept_rows};
ghost use Rattle.rt_formula.specs.Shared.{IsGrown};
ghost use Rattle.rt_rules.specs.Meaning.{AreNodes, IsIndexed, IsNoted, Means};

use crate::cells::cells;
use rt_formula::{Dag, Groups, Node};
use rt_value::{NoMemory, Row};
use std::alloc::Global;

/// Notes the row at a place under its values in the columns. A group is one gate, over the row
/// that was noted last and the gate of those noted before it. So a row costs one gate, however
/// large its group is.
pub(crate) fn note(
    alloc: Global,
    dag: &mut Dag,
    groups: &mut Groups,
    columns: &[usize],
    row: &Row,
    place: usize,
) -> Result<(), NoMemory>
    requires place { place < dag.old.rows }
    requires nodes { AreNodes dag.old groups.old }
    ensures grown { IsGrown dag.old dag.new }
    ensures noted { OnOk result (IsNoted dag.old dag.new groups.old groups.new columns.now row.now place) }
{
    let key = cells(alloc, columns, row)?;
    let before = dag.any(groups.get(&key))?;
    let kept = dag.row(place)?;
    let either = dag.any(&[kept, before])?;
    groups.set(key, either)?;
    Ok(())
}

/// That a kept one of the rows that the groups index has this row's values.
pub(crate) fn found(
    alloc: Global,
    dag: &mut Dag,
    groups: &Groups,
    columns: &[usize],
    row: &Row,
) -> Result<Node, NoMemory>
    requires { AreNodes dag.old groups.now }
    ensures grown { IsGrown dag.old dag.new }
    ensures node { IfOk result (λ n. n < length dag.new.entries) }
    ensures means { IfOk result (λ n. (keys : List ℕ) (rows : Rows) (base : ℕ) → IsIndexed dag.old groups.now keys rows base → Means dag.new n (λ keep. list_any (λ r. row_eq (cells columns.now row.now) (cells keys r)) (kept_rows rows (drop base keep)))) }
{
    let values = cells(alloc, columns, row)?;
    let node = dag.any(groups.get(&values))?;
    Ok(node)
}

/// All rows of a table, `base` being the place of the first.
pub(crate) fn index(
    alloc: Global,
    dag: &mut Dag,
    columns: &[usize],
    rows: &[Row],
    base: usize,
) -> Result<Groups, NoMemory>
    requires { base + length rows.now ≤ dag.old.rows }
    ensures grown { IsGrown dag.old dag.new }
    ensures indexed { IfOk result (λ groups. IsIndexed dag.new groups columns.now rows.now base) }
{
    let mut groups = Groups::new(alloc);
    let _places = dag.rows();
    let mut at = rows.len();
    'rows: while at > 0 {
        at -= 1;
        note(alloc, dag, &mut groups, columns, &rows[at], base + at)?;
    }
    Ok(groups)
}
