//! The truth of IN over values and rows that are at hand; subqueries are left to the evaluation.

ghost use Rattle.std.specs.Prelude.{◌≡◌, map, IfOk};
ghost use Rattle.rt_algebra.specs.Answer.{cell_truth, one_of_truth};
ghost use Rattle.rt_algebra.specs.Expression.{wrapped};

use crate::evaluate::value;
use crate::expr::Expr;
use rt_value::{NoMemory, Op, Row, Truth, Value, compare};
use std::alloc::Global;

/// IN with a list: whether the value compares equal to one of the items.
pub fn one_of_truth(
    alloc: Global,
    left: &Value,
    items: &[Expr],
    env: &[&Row],
) -> Result<Truth, NoMemory>
    ensures { IfOk result (λ t. t ≡ one_of_truth wrapped left.now items.now (map (λ r. r.now) env.now)) }
{
    let mut truth = Truth::No;
    for item in items {
        let right = value(alloc, item, env)?;
        truth = truth.or(compare(left, &right, Op::Eq));
    }
    Ok(truth)
}

/// Whether the value compares equal to the first value of the row.
pub fn cell_truth(value: &Value, row: &Row) -> Truth
    ensures { result ≡ cell_truth value.now row.now }
{
    match row.as_slice().first() {
        None => Truth::Unknown,
        Some(cell) => compare(value, cell, Op::Eq),
    }
}
