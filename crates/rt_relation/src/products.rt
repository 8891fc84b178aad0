//! Products of two queries, which joins and division are made of.

ghost use Rattle.std.specs.Prelude.{◌≡◌, IfOk};
ghost use Rattle.rt_relation.specs.Operators as spec;

use rt_algebra::Query;
use rt_value::{Boxed, List, NoMemory};
use std::alloc::Global;

/// All concatenations of a row of each.
pub fn product(
    alloc: Global,
    left: Boxed<Query>,
    right: Boxed<Query>,
) -> Result<Boxed<Query>, NoMemory>
    ensures { IfOk result (λ q. q ≡ spec.product left right) }
{
    let mut members = List::new(alloc);
    members.push(left.into_inner())?;
    members.push(right.into_inner())?;
    Boxed::new(alloc, Query::Product(members))
}
