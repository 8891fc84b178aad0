//! The sub-instance that a choice keeps, copied out as tables of its own.

ghost use Rattle.std.specs.Prelude.{◌≡◌, ◌+◌, ◌≤◌, length, drop, IfOk};
ghost use Rattle.rt_schema.specs.Given.{places};
ghost use Rattle.rt_schema.specs.Kept.{kept, kept_rows};

use rt_value::{Keep, List, NoMemory, Row};
use std::alloc::Global;

/// The kept rows of each table.
pub(crate) fn kept_tables(
    alloc: Global,
    tables: &[List<Row>],
    keep: &Keep,
) -> Result<List<List<Row>>, NoMemory>
    requires { places tables.now ≡ length keep.now }
    ensures { IfOk result (λ out. out ≡ kept tables.now keep.now) }
{
    let _places = keep.len();
    let mut out = List::new(alloc);
    let mut base: usize = 0;
    for rows in tables {
        out.push(kept_rows(alloc, rows.as_slice(), base, keep)?)?;
        base += rows.len();
    }
    Ok(out)
}

// The kept rows of a table, `base` being the place of the first.
fn kept_rows(alloc: Global, rows: &[Row], base: usize, keep: &Keep) -> Result<List<Row>, NoMemory>
    requires { base + length rows.now ≤ length keep.now }
    ensures { IfOk result (λ out. out ≡ kept_rows rows.now (drop base keep.now)) }
{
    let _places = keep.len();
    let mut out = List::new(alloc);
    for (at, row) in rows.iter().enumerate() {
        if keep.is(base + at) {
            out.push(row.copy(alloc)?)?;
        }
    }
    Ok(out)
}
