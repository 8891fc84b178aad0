//! Conditions that are not true whatever is in the tables, as the rows in scope alone show.

ghost use Rattle.std.specs.Prelude.{◌≡◌, List, false, map, IfOk, IsTrue};
ghost use Rattle.std.specs.List.{All as Each};
ghost use Rattle.rt_schema.specs.Given.{Tables};
ghost use Rattle.rt_algebra.specs.Answer.{all_of, is_yes, pred_by};
ghost use Rattle.rt_algebra.specs.Expression.{wrapped};
ghost use Rattle.rt_split.specs.Refused.{IsRefused, IsSimple};

use crate::simple::simple;
use rt_algebra::Pred;
use rt_value::{NoMemory, Row, Truth};
use std::alloc::Global;

/// Whether a conjunct without subqueries is not true under the rows in scope.
#[cycle(refused)]
pub fn is_refused(alloc: Global, condition: &Pred, env: &[&Row]) -> Result<bool, NoMemory>
    ensures { IfOk result (λ b. IsTrue b → IsRefused condition.now (map (λ r. r.now) env.now)) }
{
    match condition {
        Pred::And(members) => one_refused(alloc, members.as_slice(), env),
        _ => is_untrue(alloc, condition, env),
    }
}

// Whether one of the conditions is refused, and with it all of them together.
#[cycle(refused)]
fn one_refused(alloc: Global, members: &[Pred], env: &[&Row]) -> Result<bool, NoMemory>
    ensures { IfOk result (λ b. IsTrue b → (db : Tables) → is_yes (all_of (map (pred_by wrapped) members.now) db (map (λ r. r.now) env.now)) ≡ false) }
{
    for member in members {
        if is_refused(alloc, member, env)? {
            return Ok(true);
        }
    }
    Ok(false)
}

// Whether a condition asks no query and is not true.
fn is_untrue(alloc: Global, condition: &Pred, env: &[&Row]) -> Result<bool, NoMemory>
    ensures { IfOk result (λ b. IsTrue b → IsRefused condition.now (map (λ r. r.now) env.now)) }
{
    let truth = simple(alloc, condition, env)?;
    Ok(truth != Truth::Yes && !asks(condition))
}

// Whether a condition asks a query, at any depth.
#[cycle(asks)]
fn asks(condition: &Pred) -> bool
    ensures { result ≡ false → IsSimple condition.now }
{
    match condition {
        Pred::Cmp(_, _, _) | Pred::IsNull(_) | Pred::OneOf(_, _) => false,
        Pred::And(members) => some_asks(members.as_slice()),
        Pred::Or(members) => some_asks(members.as_slice()),
        Pred::Not(member) => asks(member.get()),
        Pred::Exists(_) | Pred::Member(_, _) => true,
    }
}

#[cycle(asks)]
fn some_asks(members: &[Pred]) -> bool
    ensures { result ≡ false → Each IsSimple members.now }
{
    for member in members {
        if asks(member) {
            return true;
        }
    }
    false
}
