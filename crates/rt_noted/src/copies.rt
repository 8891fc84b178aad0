//! Lists and copies of rows in memory that is taken at once, where their length is known.

ghost use Rattle.std.specs.Prelude.{◌≡◌, ◌++◌, [], IfOk};

use rt_value::{List, NoMemory, Row, Value};
use std::alloc::Global;

/// An empty list with room for so many items.
pub(crate) fn room<T>(alloc: Global, count: usize) -> Result<List<T>, NoMemory>
    ensures { IfOk result (λ l. l ≡ []) }
{
    let items = Vec::with_capacity(alloc, count)?;
    Ok(List::from_vec(items))
}

// Puts copies of the values at the end.
fn with_copies(alloc: Global, out: Row, cells: &[Value]) -> Result<Row, NoMemory>
    ensures { IfOk result (λ r. r ≡ out ++ cells.now) }
{
    let mut out = out;
    for cell in cells {
        out.push(cell.copy(alloc)?)?;
    }
    Ok(out)
}

/// The same row.
pub(crate) fn copied(alloc: Global, row: &Row) -> Result<Row, NoMemory>
    ensures { IfOk result (λ r. r ≡ row.now) }
{
    let out = Row::from_list(room(alloc, row.len())?);
    with_copies(alloc, out, row.as_slice())
}

/// The values of one row, then those of the other.
pub(crate) fn joined_row(alloc: Global, before: &Row, row: &Row) -> Result<Row, NoMemory>
    ensures { IfOk result (λ r. r ≡ before.now ++ row.now) }
{
    let cells = room(alloc, before.len().saturating_add(row.len()))?;
    let out = Row::from_list(cells);
    let out = with_copies(alloc, out, before.as_slice())?;
    with_copies(alloc, out, row.as_slice())
}
