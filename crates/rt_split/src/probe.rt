//! The first test of the rows of a table: one equality of a condition, taken out of it once for all
//! of them.

ghost use Rattle.std.specs.Prelude.{◌≡◌, ◌∷◌, List, drop, false, map, IfOk, IsTrue};
ghost use Rattle.rt_value.specs.declared.value.Op.TheVariants.{Eq};
ghost use Rattle.rt_value.specs.declared.value.Value.{Value};
ghost use Rattle.rt_value.specs.Value.{value_truth};
ghost use Rattle.rt_schema.specs.Given.{Tables};
ghost use Rattle.rt_algebra.specs.Answer.{all_of, is_yes, pred_by};
ghost use Rattle.rt_algebra.specs.Expression.{value_by, wrapped};
ghost use Rattle.rt_split.specs.Probe.{IsMet, IsProbeOf, IsSteady, fails, refuses};

use crate::conjuncts::place;
use rt_algebra::{Expr, Pred, value};
use rt_value::{NoMemory, Op, Row, Truth, Value, compare};
use std::alloc::Global;

/// A column of the innermost row, counted from 0, and the value that it has to be equal to.
#[derive(Drop)]
pub struct Equality {
    pub at: usize,
    pub value: Value,
}

/// The first equality of a condition between a column of the innermost row and a constant or a
/// column of a row around it, if there is one. Under EXISTS, `m.size > 3 AND m.id = l.id` gives the
/// column of `m.id` and the value of `l.id`.
#[derive(Drop)]
pub struct Probe {
    pub equality: Option<Equality>,
}

impl Probe {
    /// The probe of a condition under the rows in scope, of which the innermost may be any.
    pub fn of(alloc: Global, condition: &Pred, env: &[&Row]) -> Result<Probe, NoMemory>
        ensures { IfOk result (λ probe. IsProbeOf condition.now (drop 1 (map (λ r. r.now) env.now)) probe) }
    {
        let equality = found_in(alloc, condition, env)?;
        Ok(Probe { equality })
    }

    /// Whether the condition is not true with the row as the innermost one, by the equality alone:
    /// NULL is equal to nothing.
    pub fn refuses(&self, row: &Row) -> bool
        ensures { result ≡ refuses self.now row.now }
    {
        match &self.equality {
            Some(equality) => match row.as_slice().get(equality.at) {
                Some(cell) => compare(cell, &equality.value, Op::Eq) != Truth::Yes,
                None => true,
            },
            None => false,
        }
    }
}

// The first equality of a condition.
#[cycle(found_in)]
fn found_in(alloc: Global, condition: &Pred, env: &[&Row]) -> Result<Option<Equality>, NoMemory>
    ensures { IfOk result (λ found. IsMet condition.now (drop 1 (map (λ r. r.now) env.now)) found) }
{
    match condition {
        Pred::Cmp(Op::Eq, a, b) => either_side(alloc, a, b, env),
        Pred::And(members) => found_in_one(alloc, members.as_slice(), env),
        _ => Ok(None),
    }
}

// The first equality among those of the conditions.
#[cycle(found_in)]
fn found_in_one(alloc: Global, members: &[Pred], env: &[&Row]) -> Result<Option<Equality>, NoMemory>
    ensures { IfOk result (λ found. (row : List Value) → IsTrue (fails found row) → (db : Tables) → is_yes (all_of (map (pred_by wrapped) members.now) db (row ∷ drop 1 (map (λ r. r.now) env.now))) ≡ false) }
{
    for member in members {
        match found_in(alloc, member, env)? {
            Some(found) => return Ok(Some(found)),
            None => {}
        }
    }
    Ok(None)
}

// The equality of two expressions, of which either may be the column.
fn either_side(
    alloc: Global,
    a: &Expr,
    b: &Expr,
    env: &[&Row],
) -> Result<Option<Equality>, NoMemory>
    ensures { IfOk result (λ found. (row : List Value) → IsTrue (fails found row) → is_yes (value_truth Eq (value_by wrapped a.now (row ∷ drop 1 (map (λ r. r.now) env.now))) (value_by wrapped b.now (row ∷ drop 1 (map (λ r. r.now) env.now)))) ≡ false) }
{
    match of_column(alloc, a, b, env)? {
        Some(found) => Ok(Some(found)),
        None => of_column(alloc, b, a, env),
    }
}

// The equality of an expression that is a column of the innermost row with another that no
// innermost row changes.
fn of_column(
    alloc: Global,
    column: &Expr,
    other: &Expr,
    env: &[&Row],
) -> Result<Option<Equality>, NoMemory>
    ensures { IfOk result (λ found. (row : List Value) → IsTrue (fails found row) → is_yes (value_truth Eq (value_by wrapped column.now (row ∷ drop 1 (map (λ r. r.now) env.now))) (value_by wrapped other.now (row ∷ drop 1 (map (λ r. r.now) env.now)))) ≡ false) }
{
    match place(column) {
        Some(at) if is_steady(other) => {
            let value = value(alloc, other, env)?;
            Ok(Some(Equality { at, value }))
        }
        _ => Ok(None),
    }
}

// Whether an expression is a constant or a column of a row around the innermost one.
fn is_steady(expr: &Expr) -> bool
    ensures { IsTrue result → IsSteady expr.now }
{
    match expr {
        Expr::Col(up, _) => *up > 0,
        Expr::Int(_) | Expr::Text(_) => true,
        _ => false,
    }
}
