//! Between choices of rows and lists of places.

ghost use Rattle.std.specs.Prelude.{◌≡◌, ◌<◌, IfOk};
ghost use Rattle.std.specs.List.{All as Each};
ghost use Rattle.rt_cert.specs.Places.{keep_of, places_of};

use rt_value::{Keep, List, NoMemory};
use std::alloc::Global;

/// The places that a choice keeps, counted from 0 and rising.
pub(crate) fn places_of(alloc: Global, keep: &Keep) -> Result<List<u64>, NoMemory>
    ensures { IfOk result (λ places. places ≡ places_of keep.now) }
{
    let mut places = List::new(alloc);
    for row in 0..keep.len() {
        if keep.is(row) {
            places.push(row as u64)?;
        }
    }
    Ok(places)
}

/// The choice of so many rows that keeps these places.
pub(crate) fn keep_of(alloc: Global, rows: usize, places: &[u64]) -> Result<Keep, NoMemory>
    requires { Each (λ place. place < rows) places.now }
    ensures { IfOk result (λ keep. keep ≡ keep_of rows places.now) }
{
    let mut keep = Keep::all(alloc, rows, false)?;
    for place in places {
        keep.set(*place as usize, true);
    }
    Ok(keep)
}
