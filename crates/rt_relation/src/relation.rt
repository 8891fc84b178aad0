//! Queries together with their columns: what each operator takes and gives.

ghost use Rattle.std.specs.Prelude.{◌≡◌, IfOk};
ghost use Rattle.rt_relation.specs.Operators as spec;

use crate::column::Column;
use rt_algebra::{Query, Typed};
use rt_value::{Boxed, List, NoMemory};
use std::alloc::Global;

/// A query with its columns.
#[derive(Drop)]
pub struct Relation {
    pub query: Boxed<Query>,
    pub columns: List<Column>,
}

/// The query with the kinds, bounds and names of its columns.
pub fn typed_of(alloc: Global, relation: Relation) -> Result<Typed, NoMemory>
    ensures { IfOk result (λ typed. typed ≡ spec.typed_of relation) }
{
    rt_algebra::typed_of(alloc, relation.query, relation.columns.as_slice())
}
