//! Selections from products, narrowed by the parts of the condition before rows are joined.

ghost use Rattle.std.specs.Prelude.{◌≡◌, ◌∷◌, [], map, IfOk, IfSome, IsTrue};
ghost use Rattle.rt_algebra.specs.Expression.{Env, wrapped};
ghost use Rattle.rt_split.specs.Join.{joined_rows};
ghost use Rattle.rt_eval.specs.Narrow.{AreEnough, AreChosen};
ghost use Rattle.rt_eval.specs.Pairs.{all_joined};

use crate::join::{are_wide, chosen, chosen_rows, lacks_rows, product, widths};
use crate::pairs::Pairs;
use rt_algebra::Pred;
use rt_split::{Split, split};
use rt_value::{List, NoMemory, Row};
use std::alloc::Global;

/// Rows from which the condition chooses the same as from a product, and whether it is true on all
/// of them.
#[derive(Drop)]
pub struct Narrowed {
    pub rows: List<Row>,
    pub are_chosen: bool,
}

/// The rows that the members' own conditions and keys choose from the product. Most often these are
/// all of the condition, and the rows need no further test.
pub(crate) fn narrow(
    alloc: Global,
    members: &[List<Row>],
    condition: &Pred,
    env: &[&Row],
) -> Result<Narrowed, NoMemory>
    ensures enough { IfOk result (λ n. AreEnough condition.now members.now (map (λ s. s.now) env.now) n.rows) }
    ensures chosen { IfOk result (λ n. IsTrue n.are_chosen → AreChosen condition.now members.now (map (λ s. s.now) env.now) n.rows) }
{
    match parts_of(alloc, members, condition)? {
        None => {
            let rows = product(alloc, members)?;
            Ok(Narrowed {
                rows,
                are_chosen: false,
            })
        }
        Some(parts) => {
            let rows = chosen_rows(alloc, members, &parts, env)?;
            let are_chosen = parts.is_whole;
            Ok(Narrowed { rows, are_chosen })
        }
    }
}

/// The same rows, the last member not yet joined to the rows before it; None where the condition
/// cannot be taken apart.
pub(crate) fn narrow_pairs(
    alloc: Global,
    members: &[List<Row>],
    condition: &Pred,
    env: &[&Row],
) -> Result<Option<Pairs>, NoMemory>
    ensures { IfOk result (λ o. IfSome o (λ p. AreEnough condition.now members.now (map (λ s. s.now) env.now) (all_joined p.befores p.rows p.places))) }
{
    match parts_of(alloc, members, condition)? {
        None => Ok(None),
        Some(parts) => Ok(Some(chosen(alloc, members, &parts, env)?)),
    }
}

// The condition taken apart, where each member has rows and they are of one width. For a product
// without rows taking it apart would cost more than the product.
fn parts_of(
    alloc: Global,
    members: &[List<Row>],
    condition: &Pred,
) -> Result<Option<Split>, NoMemory>
    ensures enough { IfOk result (λ o. IfSome o (λ s. (env : Env) → AreEnough condition.now members.now env (joined_rows wrapped s.own s.keys ([] ∷ []) members.now env))) }
    ensures chosen { IfOk result (λ o. IfSome o (λ s. IsTrue s.is_whole → (env : Env) → AreChosen condition.now members.now env (joined_rows wrapped s.own s.keys ([] ∷ []) members.now env))) }
{
    if lacks_rows(members) {
        return Ok(None);
    }
    let widths = widths(alloc, members)?;
    if !are_wide(widths.as_slice(), members) {
        return Ok(None);
    }
    let parts = split(alloc, condition, widths.as_slice())?;
    Ok(Some(parts))
}
