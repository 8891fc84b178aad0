//! From a model of the clauses to a choice of rows: row r is variable r.

ghost use Rattle.std.specs.Prelude.{◌≡◌, ◌≤◌, IfOk, length, take};

use rt_value::{Keep, NoMemory};
use std::alloc::Global;

/// The rows of a model: its first variables.
pub fn rows_of(alloc: Global, model: &Keep, rows: usize) -> Result<Keep, NoMemory>
    requires { rows ≤ length model.now }
    ensures { IfOk result (λ keep. keep ≡ take rows model.now) }
{
    let mut keep = Keep::all(alloc, 0, false)?;
    for place in 0..rows {
        keep.push(model.is(place))?;
    }
    Ok(keep)
}
