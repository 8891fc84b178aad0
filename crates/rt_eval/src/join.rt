//! Products, and what the parts of a condition choose from them, member by member.

ghost use Rattle.std.specs.Prelude.{◌≡◌, ◌∷◌, [], length, map, nat_eq, slice_index_or, IfOk};
ghost use Rattle.std.specs.List.{filter, list_all, list_any};
ghost use Rattle.rt_algebra.specs.Expression.{wrapped};
ghost use Rattle.rt_split.specs.Join.{are_wide, joined_rows, matched, product_rows};
ghost use Rattle.rt_split.specs.Split.{all_simple};
ghost use Rattle.rt_eval.specs.Pairs.{all_joined};

use crate::lists::joined;
use crate::pairs::Pairs;
use rt_algebra::{Pred, scope};
use rt_split::{KeyPair, Split, all_true};
use rt_value::{List, NoMemory, Row};
use std::alloc::Global;

/// Each concatenation of a row of each member.
pub(crate) fn product(alloc: Global, members: &[List<Row>]) -> Result<List<Row>, NoMemory>
    ensures { IfOk result (λ out. out ≡ product_rows ([] ∷ []) members.now) }
{
    if lacks_rows(members) {
        return Ok(List::new(alloc));
    }
    let mut out = unit(alloc)?;
    for rows in members {
        out = joined(alloc, out.as_slice(), rows.as_slice())?;
    }
    Ok(out)
}

/// Whether a member has no rows, and so the product has none.
pub(crate) fn lacks_rows(members: &[List<Row>]) -> bool
    ensures { result ≡ list_any (λ rows. nat_eq (length rows) 0) members.now }
{
    members.iter().any(|rows| rows.len() == 0)
}

/// The concatenations on which each member's own conditions and keys hold, the last member not yet
/// joined to the rows before it. Members are taken in their order.
pub(crate) fn chosen(
    alloc: Global,
    members: &[List<Row>],
    parts: &Split,
    env: &[&Row],
) -> Result<Pairs, NoMemory>
    ensures { IfOk result (λ p. all_joined p.befores p.rows p.places ≡ joined_rows wrapped parts.now.own parts.now.keys ([] ∷ []) members.now (map (λ s. s.now) env.now)) }
{
    let mut pairs = Pairs::matched(alloc, &[], unit(alloc)?, unit(alloc)?)?;
    for (at, rows) in members.iter().enumerate() {
        pairs = joined_to(
            alloc,
            &pairs,
            rows.as_slice(),
            parts.own_of(at),
            parts.keys_of(at),
            env,
        )?;
    }
    Ok(pairs)
}

// The pairs joined to those rows of one more member on which its own conditions and keys hold.
fn joined_to(
    alloc: Global,
    pairs: &Pairs,
    rows: &[Row],
    conditions: &[Pred],
    keys: &[KeyPair],
    env: &[&Row],
) -> Result<Pairs, NoMemory>
    ensures { IfOk result (λ p. all_joined p.befores p.rows p.places ≡ matched keys.now (all_joined pairs.now.befores pairs.now.rows pairs.now.places) (filter (λ r. all_simple wrapped conditions.now (r ∷ map (λ s. s.now) env.now)) rows.now)) }
{
    let own = own_rows(alloc, rows, conditions, env)?;
    let befores = pairs.joined(alloc)?;
    let more = Pairs::matched(alloc, keys, befores, own)?;
    Ok(more)
}

/// The same as `chosen`, joined.
pub(crate) fn chosen_rows(
    alloc: Global,
    members: &[List<Row>],
    parts: &Split,
    env: &[&Row],
) -> Result<List<Row>, NoMemory>
    ensures { IfOk result (λ out. out ≡ joined_rows wrapped parts.now.own parts.now.keys ([] ∷ []) members.now (map (λ s. s.now) env.now)) }
{
    let pairs = chosen(alloc, members, parts, env)?;
    let rows = pairs.joined(alloc)?;
    Ok(rows)
}

fn unit(alloc: Global) -> Result<List<Row>, NoMemory>
    ensures { IfOk result (λ out. out ≡ [] ∷ []) }
{
    let mut out = List::new(alloc);
    out.push(Row::new(alloc))?;
    Ok(out)
}

// The rows on which the conditions are true, each as the innermost in scope.
fn own_rows(
    alloc: Global,
    rows: &[Row],
    conditions: &[Pred],
    env: &[&Row],
) -> Result<List<Row>, NoMemory>
    ensures { IfOk result (λ out. out ≡ filter (λ r. all_simple wrapped conditions.now (r ∷ map (λ s. s.now) env.now)) rows.now) }
{
    let mut out = List::new(alloc);
    for row in rows {
        let own = is_own(alloc, row, conditions, env)?;
        if own {
            out.push(row.copy(alloc)?)?;
        }
    }
    Ok(out)
}

fn is_own(alloc: Global, row: &Row, conditions: &[Pred], env: &[&Row]) -> Result<bool, NoMemory>
    ensures { IfOk result (λ b. b ≡ all_simple wrapped conditions.now (row.now ∷ map (λ s. s.now) env.now)) }
{
    let inner = scope(alloc, row, env)?;
    let holds = all_true(alloc, conditions, inner.as_slice())?;
    Ok(holds)
}

/// How many values the first row of each member has, 0 where there is none.
pub(crate) fn widths(alloc: Global, members: &[List<Row>]) -> Result<List<usize>, NoMemory>
    ensures { IfOk result (λ out. out ≡ map (λ rows. length (slice_index_or rows 0 [])) members.now) }
{
    let mut out = List::new(alloc);
    for rows in members {
        out.push(first_width(rows.as_slice()))?;
    }
    Ok(out)
}

fn first_width(rows: &[Row]) -> usize
    ensures { result ≡ length (slice_index_or rows.now 0 []) }
{
    match rows {
        [] => 0,
        [row, ..] => row.len(),
    }
}

/// Whether each row of each member has as many values as the width says.
pub(crate) fn are_wide(widths: &[usize], members: &[List<Row>]) -> bool
    ensures { result ≡ are_wide widths.now members.now }
{
    if widths.len() != members.len() {
        return false;
    }
    for (at, rows) in members.iter().enumerate() {
        if !is_wide(widths[at], rows.as_slice()) {
            return false;
        }
    }
    true
}

fn is_wide(width: usize, rows: &[Row]) -> bool
    ensures { result ≡ list_all (λ r. nat_eq (length r) width) rows.now }
{
    rows.iter().all(|row| row.len() == width)
}
