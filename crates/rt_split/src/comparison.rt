//! Comparisons. Columns are compared in place, without copies.

ghost use Rattle.std.specs.Prelude.{◌≡◌, map, IfOk, IfSome};
ghost use Rattle.rt_value.specs.Value.{value_truth};
ghost use Rattle.rt_algebra.specs.Expression.{wrapped, cell_of, value_by};

use rt_algebra::{Expr, value};
use rt_value::{NoMemory, Op, Row, Truth, Value, compare};
use std::alloc::Global;

/// The comparison of two expressions under the rows in scope.
pub fn compared(alloc: Global, op: Op, a: &Expr, b: &Expr, env: &[&Row]) -> Result<Truth, NoMemory>
    ensures { IfOk result (λ t. t ≡ value_truth op (value_by wrapped a.now (map (λ r. r.now) env.now)) (value_by wrapped b.now (map (λ r. r.now) env.now))) }
{
    match (column(a, env), column(b, env)) {
        (Some(left), Some(right)) => Ok(compare(left, right, op)),
        _ => {
            let left = value(alloc, a, env)?;
            let right = value(alloc, b, env)?;
            Ok(compare(&left, &right, op))
        }
    }
}

// The value of a column that is there.
fn column<'a>(expr: &Expr, env: &[&'a Row]) -> Option<&'a Value>
    ensures { IfSome result (λ v. v.now ≡ value_by wrapped expr.now (map (λ r. r.now) env.now)) }
{
    match expr {
        Expr::Col(up, at) => cell(env, *up, *at),
        _ => None,
    }
}

fn cell<'a>(env: &[&'a Row], up: usize, at: usize) -> Option<&'a Value>
    ensures { IfSome result (λ v. v.now ≡ cell_of (map (λ r. r.now) env.now) up at) }
{
    match env.get(up) {
        Some(row) => row.as_slice().get(at),
        None => None,
    }
}
