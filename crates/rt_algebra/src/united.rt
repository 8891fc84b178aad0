//! The columns of two operands under a set operator: the tests are here, the errors are each
//! language's own.

ghost use Rattle.std.specs.Prelude.{◌≡◌, IfOk};
ghost use Rattle.rt_algebra.specs.TextColumns as spec;

use crate::column::Column;
use rt_value::{List, NoMemory};
use std::alloc::Global;

fn wider<C: Column>(alloc: Global, column: &C, other: &C) -> Result<C, NoMemory>
    ensures { IfOk result (λ c. c ≡ spec.wider C.bound_of C.bounded column.now other.now) }
{
    column.with_bound(alloc, column.bound().max(other.bound()))
}

/// The columns of the first, each with the greater bound of both: as many as the shorter one has.
pub fn widened<C: Column>(alloc: Global, columns: &[C], others: &[C]) -> Result<List<C>, NoMemory>
    ensures { IfOk result (λ all. all ≡ spec.widened C.bound_of C.bounded columns.now others.now) }
{
    let mut all = List::new(alloc);
    let mut left = columns;
    let mut right = others;
    'columns: while let [column, left_rest @ ..] = left {
        let [other, right_rest @ ..] = right else {
            return Ok(all);
        };
        all.push(wider(alloc, column, other)?)?;
        left = left_rest;
        right = right_rest;
    }
    Ok(all)
}

/// Whether the columns are of the same kinds, as far as both go.
pub fn same_kinds<C: Column>(columns: &[C], others: &[C]) -> bool
    ensures { result ≡ spec.same_kinds C.kind_of columns.now others.now }
{
    let mut left = columns;
    let mut right = others;
    'columns: while let [column, left_rest @ ..] = left {
        let [other, right_rest @ ..] = right else {
            return true;
        };
        if column.kind() != other.kind() {
            return false;
        }
        left = left_rest;
        right = right_rest;
    }
    true
}
