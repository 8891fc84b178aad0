//! The set operators as a value, so that each language has one rule for all three.

ghost use Rattle.std.specs.Prelude.{◌≡◌, IfOk};
ghost use Rattle.rt_algebra.specs.Parts as spec;

use crate::query::Query;
use rt_value::{Boxed, NoMemory};
use std::alloc::Global;

/// A set operator (ISO/IEC 9075-2, query expression).
#[derive(Clone, Copy)]
pub enum SetOp {
    Union,
    Except,
    Intersect,
}

/// The operator over two queries.
pub fn combined(
    alloc: Global,
    op: SetOp,
    a: Boxed<Query>,
    b: Boxed<Query>,
) -> Result<Boxed<Query>, NoMemory>
    ensures { IfOk result (λ q. q ≡ spec.combined op a b) }
{
    let query = match op {
        SetOp::Union => Query::Union(a, b),
        SetOp::Except => Query::Except(a, b),
        SetOp::Intersect => Query::Intersect(a, b),
    };
    Boxed::new(alloc, query)
}
