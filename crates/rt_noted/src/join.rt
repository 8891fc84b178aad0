//! The rows of a product that a condition may choose: each member's rows are narrowed by its own
//! conjuncts, and joined by its keys.

ghost use Rattle.std.specs.Prelude.{◌≡◌, ◌++◌, ◌∷◌, [], length, map, nat_eq, slice_get, IfOk, OnOk};
ghost use Rattle.std.specs.List.{cons_option, filter_map, list_all};
ghost use Rattle.rt_algebra.specs.Expression.{wrapped};
ghost use Rattle.rt_split.specs.Join.{matches};
ghost use Rattle.rt_split.specs.Split.{all_simple};
ghost use Rattle.rt_noted.specs.Joints.{join_joint, unit_joints};
ghost use Rattle.rt_noted.specs.Narrowed.{IsNarrowed, are_long, joined_joints, matched_joints, own_rows};

use crate::joint::{Joint, joined_one, lacks_rows, product, unit};
use crate::rows::note;
use rt_algebra::{Pred, scope};
use rt_formula::Noted;
use rt_split::{KeyPair, Split, all_true, matches, split};
use rt_value::{List, NoMemory, Row};
use std::alloc::Global;

/// Rows of the product, and among them at every choice each on which the condition is true. The
/// condition is not split if a member has no rows: that would cost more than the product.
pub fn narrowed(
    alloc: Global,
    members: &[List<Noted>],
    condition: &Pred,
    env: &[&Row],
) -> Result<List<Joint>, NoMemory>
    ensures { IfOk result (IsNarrowed condition.now (map (λ r. r.now) env.now) members.now) }
{
    if lacks_rows(members) {
        return product(alloc, members);
    }
    let widths = widths(alloc, members)?;
    if are_long(widths.as_slice(), members) {
        let parts = split(alloc, condition, widths.as_slice())?;
        chosen(alloc, members, &parts, env)
    } else {
        product(alloc, members)
    }
}

// The concatenations on which each member's own conditions and keys hold. Of members R(a, b) and
// S(c, d), with the condition `b > 3 AND a = c AND d = 1`:
//     own of R     b > 3: the join begins with these rows of R
//     own of S     d = 1: only these rows of S are joined
//     keys of S    a = c: each row before gets the rows of S with its value
fn chosen(
    alloc: Global,
    members: &[List<Noted>],
    parts: &Split,
    env: &[&Row],
) -> Result<List<Joint>, NoMemory>
    ensures { IfOk result (λ out. out ≡ joined_joints parts.now.own parts.now.keys unit_joints members.now (map (λ r. r.now) env.now)) }
{
    let mut out = unit(alloc)?;
    for (at, rows) in members.iter().enumerate() {
        let own = own_rows(alloc, rows.as_slice(), parts.own_of(at), env)?;
        out = matched(alloc, parts.keys_of(at), out.as_slice(), own.as_slice())?;
    }
    Ok(out)
}

// The rows on which the conditions are true, each as the innermost in scope.
fn own_rows(
    alloc: Global,
    rows: &[Noted],
    conditions: &[Pred],
    env: &[&Row],
) -> Result<List<Noted>, NoMemory>
    ensures { IfOk result (λ out. out ≡ own_rows conditions.now (map (λ r. r.now) env.now) rows.now) }
{
    let mut out = List::new(alloc);
    for noted in rows {
        let own = is_own(alloc, &noted.row, conditions, env)?;
        if own {
            note(alloc, &mut out, &noted.row, noted.node)?;
        }
    }
    Ok(out)
}

fn is_own(alloc: Global, row: &Row, conditions: &[Pred], env: &[&Row]) -> Result<bool, NoMemory>
    ensures { IfOk result (λ b. b ≡ all_simple wrapped conditions.now (row.now ∷ map (λ r. r.now) env.now)) }
{
    let inner = scope(alloc, row, env)?;
    all_true(alloc, conditions, inner.as_slice())
}

// Each of the rows before each row of the member that matches it by the keys.
fn matched(
    alloc: Global,
    keys: &[KeyPair],
    befores: &[Joint],
    rows: &[Noted],
) -> Result<List<Joint>, NoMemory>
    ensures { IfOk result (λ out. out ≡ matched_joints keys.now befores.now rows.now) }
{
    let places = places_of(alloc, keys, befores, rows)?;
    let mut out = List::new(alloc);
    for (at, before) in befores.iter().enumerate() {
        picked_each(
            alloc,
            &mut out,
            before,
            rows,
            places.as_slice()[at].as_slice(),
        )?;
    }
    Ok(out)
}

// For each of the rows before, in order, the places of the member's rows that match it by the
// keys.
fn places_of(
    alloc: Global,
    keys: &[KeyPair],
    befores: &[Joint],
    rows: &[Noted],
) -> Result<List<List<usize>>, NoMemory>
    ensures { IfOk result (λ places. places ≡ matches keys.now (map (λ j. j.row) befores.now) (map (λ n. n.row) rows.now)) }
{
    let firsts = joint_rows(alloc, befores)?;
    let seconds = noted_rows(alloc, rows)?;
    matches(alloc, keys, firsts.as_slice(), seconds.as_slice())
}

fn joint_rows<'a>(alloc: Global, joints: &'a [Joint]) -> Result<List<&'a Row>, NoMemory>
    ensures { IfOk result (λ out. map (λ r. r.now) out ≡ map (λ j. j.row) joints.now) }
{
    let mut out = List::new(alloc);
    for joint in joints {
        out.push(&joint.row)?;
    }
    Ok(out)
}

fn noted_rows<'a>(alloc: Global, rows: &'a [Noted]) -> Result<List<&'a Row>, NoMemory>
    ensures { IfOk result (λ out. map (λ r. r.now) out ≡ map (λ n. n.row) rows.now) }
{
    let mut out = List::new(alloc);
    for noted in rows {
        out.push(&noted.row)?;
    }
    Ok(out)
}

// Puts the row before each of the rows at the places at the end.
fn picked_each(
    alloc: Global,
    out: &mut List<Joint>,
    before: &Joint,
    rows: &[Noted],
    places: &[usize],
) -> Result<(), NoMemory>
    ensures { OnOk result (out.new ≡ out.old ++ join_joint before.now (filter_map (slice_get rows.now) places.now)) }
{
    for place in places {
        with_picked(alloc, out, before, rows, *place)?;
    }
    Ok(())
}

// Puts the row before the one at the place at the end, where there is one.
fn with_picked(
    alloc: Global,
    out: &mut List<Joint>,
    before: &Joint,
    rows: &[Noted],
    place: usize,
) -> Result<(), NoMemory>
    ensures { OnOk result (out.new ≡ out.old ++ join_joint before.now (cons_option (slice_get rows.now place) [])) }
{
    match rows.get(place) {
        Some(row) => out.push(joined_one(alloc, before, row)?),
        None => Ok(()),
    }
}

// The number of values of each member's first row, 0 for a member without rows.
fn widths(alloc: Global, members: &[List<Noted>]) -> Result<List<usize>, NoMemory>
    ensures { IfOk result (λ out. length out ≡ length members.now) }
{
    let mut out = List::new(alloc);
    for rows in members {
        let width = match rows.as_slice().first() {
            Some(noted) => noted.row.len(),
            None => 0,
        };
        out.push(width)?;
    }
    Ok(out)
}

// Whether each row of each member has as many values as the width says.
fn are_long(widths: &[usize], members: &[List<Noted>]) -> bool
    ensures { result ≡ are_long widths.now members.now }
{
    if widths.len() != members.len() {
        return false;
    }
    for (at, rows) in members.iter().enumerate() {
        if !is_long(widths[at], rows.as_slice()) {
            return false;
        }
    }
    true
}

fn is_long(width: usize, rows: &[Noted]) -> bool
    ensures { result ≡ list_all (λ n. nat_eq (length n.row) width) rows.now }
{
    rows.iter().all(|noted| noted.row.len() == width)
}
