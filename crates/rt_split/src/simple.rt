//! The truth of conditions without subqueries: those that a member's rows are chosen by.

ghost use Rattle.std.specs.Prelude.{◌≡◌, map, IfOk};
ghost use Rattle.rt_algebra.specs.Expression.{wrapped};
ghost use Rattle.rt_split.specs.Split.{simple_by, simple_all, simple_any, all_simple};

use crate::comparison::compared;
use rt_algebra::{Pred, one_of_truth, value};
use rt_value::{NoMemory, Row, Truth, null_truth};
use std::alloc::Global;

/// Whether each of the conditions is true. They hold no subquery: a condition with one is unknown.
pub fn all_true(alloc: Global, conditions: &[Pred], env: &[&Row]) -> Result<bool, NoMemory>
    ensures { IfOk result (λ b. b ≡ all_simple wrapped conditions.now (map (λ r. r.now) env.now)) }
{
    for condition in conditions {
        let truth = simple(alloc, condition, env)?;
        if truth != Truth::Yes {
            return Ok(false);
        }
    }
    Ok(true)
}

/// The truth of a condition, unknown where it asks a query.
#[cycle(simple)]
pub fn simple(alloc: Global, condition: &Pred, env: &[&Row]) -> Result<Truth, NoMemory>
    ensures { IfOk result (λ t. t ≡ simple_by wrapped condition.now (map (λ r. r.now) env.now)) }
{
    match condition {
        Pred::Cmp(op, a, b) => compared(alloc, *op, a, b, env),
        Pred::IsNull(expr) => {
            let value = value(alloc, expr, env)?;
            Ok(null_truth(&value))
        }
        Pred::OneOf(expr, items) => {
            let left = value(alloc, expr, env)?;
            one_of_truth(alloc, &left, items.as_slice(), env)
        }
        Pred::And(members) => all(alloc, members.as_slice(), env),
        Pred::Or(members) => any(alloc, members.as_slice(), env),
        Pred::Not(member) => {
            let truth = simple(alloc, member.get(), env)?;
            Ok(truth.not())
        }
        Pred::Exists(_) | Pred::Member(_, _) => Ok(Truth::Unknown),
    }
}

#[cycle(simple)]
fn all(alloc: Global, members: &[Pred], env: &[&Row]) -> Result<Truth, NoMemory>
    ensures { IfOk result (λ t. t ≡ simple_all (map (simple_by wrapped) members.now) (map (λ r. r.now) env.now)) }
{
    let mut truth = Truth::Yes;
    for member in members {
        let next = simple(alloc, member, env)?;
        truth = truth.and(next);
    }
    Ok(truth)
}

#[cycle(simple)]
fn any(alloc: Global, members: &[Pred], env: &[&Row]) -> Result<Truth, NoMemory>
    ensures { IfOk result (λ t. t ≡ simple_any (map (simple_by wrapped) members.now) (map (λ r. r.now) env.now)) }
{
    let mut truth = Truth::No;
    for member in members {
        let next = simple(alloc, member, env)?;
        truth = truth.or(next);
    }
    Ok(truth)
}
