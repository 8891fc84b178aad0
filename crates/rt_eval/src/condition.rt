//! The truth of conditions, subqueries included (ISO/IEC 9075-2, search condition). The innermost
//! row in scope comes first in `env`.

ghost use Rattle.std.specs.Prelude.{◌≡◌, map, IfOk};
ghost use Rattle.rt_algebra.specs.Expression.{wrapped};
ghost use Rattle.rt_algebra.specs.Answer.{pred_by, is_yes, all_of, any_of};

use crate::lists::{member_truth, some_truth};
use crate::query::answer;
use rt_algebra::{Pred, one_of_truth, value};
use rt_split::compared;
use rt_value::{List, NoMemory, Row, Truth, null_truth};
use std::alloc::Global;

/// The truth of a condition on the rows of the tables, under the rows in scope.
#[cycle(answer)]
pub(crate) fn pred(
    alloc: Global,
    condition: &Pred,
    tables: &[List<Row>],
    env: &[&Row],
) -> Result<Truth, NoMemory>
    ensures { IfOk result (λ t. t ≡ pred_by wrapped condition.now tables.now (map (λ r. r.now) env.now)) }
{
    match condition {
        Pred::Cmp(op, a, b) => compared(alloc, *op, a, b, env),
        Pred::IsNull(expr) => {
            let value = value(alloc, expr, env)?;
            Ok(null_truth(&value))
        }
        Pred::OneOf(expr, items) => {
            let left = value(alloc, expr, env)?;
            one_of_truth(alloc, &left, items.as_slice(), env)
        }
        Pred::And(members) => all(alloc, members.as_slice(), tables, env),
        Pred::Or(members) => any(alloc, members.as_slice(), tables, env),
        Pred::Not(member) => {
            let truth = pred(alloc, member.get(), tables, env)?;
            Ok(truth.not())
        }
        Pred::Exists(query) => {
            let rows = answer(alloc, query.get(), tables, env)?;
            Ok(some_truth(rows.as_slice()))
        }
        Pred::Member(expr, query) => {
            let left = value(alloc, expr, env)?;
            let rows = answer(alloc, query.get(), tables, env)?;
            Ok(member_truth(&left, rows.as_slice()))
        }
    }
}

// AND, which asks no further member once one is false.
#[cycle(answer)]
fn all(
    alloc: Global,
    members: &[Pred],
    tables: &[List<Row>],
    env: &[&Row],
) -> Result<Truth, NoMemory>
    ensures { IfOk result (λ t. t ≡ all_of (map (pred_by wrapped) members.now) tables.now (map (λ r. r.now) env.now)) }
{
    let mut truth = Truth::Yes;
    for member in members {
        match truth {
            Truth::No => return Ok(Truth::No),
            Truth::Yes | Truth::Unknown => {}
        }
        let next = pred(alloc, member, tables, env)?;
        truth = truth.and(next);
    }
    Ok(truth)
}

// OR, which asks no further member once one is true.
#[cycle(answer)]
fn any(
    alloc: Global,
    members: &[Pred],
    tables: &[List<Row>],
    env: &[&Row],
) -> Result<Truth, NoMemory>
    ensures { IfOk result (λ t. t ≡ any_of (map (pred_by wrapped) members.now) tables.now (map (λ r. r.now) env.now)) }
{
    let mut truth = Truth::No;
    for member in members {
        match truth {
            Truth::Yes => return Ok(Truth::Yes),
            Truth::No | Truth::Unknown => {}
        }
        let next = pred(alloc, member, tables, env)?;
        truth = truth.or(next);
    }
    Ok(truth)
}

/// Whether a condition of this truth keeps a row: neither false nor unknown does.
pub(crate) fn is_yes(truth: Truth) -> bool
    ensures { result ≡ is_yes truth }
{
    truth == Truth::Yes
}
