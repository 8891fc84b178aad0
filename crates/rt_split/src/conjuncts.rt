//! The conjuncts of a condition over the members of a product, sorted into own conditions, keys and
//! the rest.

ghost use Rattle.std.specs.Prelude.{◌≡◌, ◌↔◌, ◌+◌, [], map, is_some, IfOk, IsTrue};
ghost use Rattle.std.specs.List.{filter_map, list_all};
ghost use Rattle.rt_split.specs.Join.{Joins, JoinsWhole};
ghost use Rattle.rt_split.specs.Split.{Splits, split_of, rest_of, apart, conjuncts, owns, own_of, key_lists, key_of, pair, place, is_taken};

use crate::moved::{lies, own_of};
use crate::parts::{KeyPair, Split};
use rt_algebra::{Expr, Pred};
use rt_value::{List, NoMemory, Op};
use std::alloc::Global;
use std::slice;

/// The condition over members of these widths, taken apart. For members s(id, dept) and r(id, num)
/// the whole row has columns 0 to 3, and `s.dept = 'CS' AND s.id = r.id AND r.num > s.id` gives
///
/// - `own`: column 1 = 'CS' for s, nothing for r;
/// - `keys`: nothing for s, the pair (before 0, own 0) for r;
/// - `is_whole`: false, since `r.num > s.id` is neither.
pub fn split(alloc: Global, pred: &Pred, widths: &[usize]) -> Result<Split, NoMemory>
    ensures parts { IfOk result (λ s. s ≡ split_of pred.now widths.now) }
    ensures law { IfOk result (λ s. Splits pred.now widths.now s) }
    ensures whole { IfOk result (λ s. IsTrue s.is_whole ↔ (rest_of pred.now widths.now ≡ [])) }
    ensures joins { IfOk result (λ s. Joins pred.now widths.now s) }
    ensures joins_whole { IfOk result (λ s. JoinsWhole pred.now widths.now s) }
{
    let parts = apart(alloc, conjuncts(pred), widths)?;
    Ok(parts)
}

fn apart(alloc: Global, conjuncts: &[Pred], widths: &[usize]) -> Result<Split, NoMemory>
    ensures { IfOk result (λ s. s ≡ apart conjuncts.now widths.now) }
{
    let is_whole = are_taken(alloc, conjuncts, widths)?;
    let own = each_owns(alloc, conjuncts, widths)?;
    let keys = each_keys(alloc, conjuncts, widths)?;
    Ok(Split {
        own,
        keys,
        is_whole,
    })
}

// Each member's own conjuncts.
fn each_owns(
    alloc: Global,
    conjuncts: &[Pred],
    widths: &[usize],
) -> Result<List<List<Pred>>, NoMemory>
    ensures { IfOk result (λ out. out ≡ owns 0 widths.now conjuncts.now) }
{
    let mut out = List::new(alloc);
    let mut base: usize = 0;
    for width in widths {
        out.push(owns(alloc, conjuncts, base, *width)?)?;
        base = after(base, *width)?;
    }
    Ok(out)
}

// Each member's keys.
fn each_keys(
    alloc: Global,
    conjuncts: &[Pred],
    widths: &[usize],
) -> Result<List<List<KeyPair>>, NoMemory>
    ensures { IfOk result (λ out. out ≡ key_lists 0 widths.now conjuncts.now) }
{
    let mut out = List::new(alloc);
    let mut base: usize = 0;
    for width in widths {
        out.push(keys_of(alloc, conjuncts, base, *width)?)?;
        base = after(base, *width)?;
    }
    Ok(out)
}

// The members of an outermost AND, else the condition itself.
fn conjuncts(pred: &Pred) -> &[Pred]
    ensures { result.now ≡ conjuncts pred.now }
{
    match pred {
        Pred::And(members) => members.as_slice(),
        _ => slice::from_ref(pred),
    }
}

// Where the next member begins. An overflow counts as out of memory: no row is so wide.
fn after(base: usize, width: usize) -> Result<usize, NoMemory>
    ensures { IfOk result (λ next. next ≡ base + width) }
{
    base.checked_add(width).ok_or(NoMemory)
}

// The member's own conjuncts, over its row.
fn owns(
    alloc: Global,
    conjuncts: &[Pred],
    base: usize,
    width: usize,
) -> Result<List<Pred>, NoMemory>
    ensures { IfOk result (λ out. out ≡ filter_map (own_of base width) conjuncts.now) }
{
    let mut out = List::new(alloc);
    for conjunct in conjuncts {
        match own_of(alloc, conjunct, base, width)? {
            Some(own) => out.push(own)?,
            None => {}
        }
    }
    Ok(out)
}

fn keys_of(
    alloc: Global,
    conjuncts: &[Pred],
    base: usize,
    width: usize,
) -> Result<List<KeyPair>, NoMemory>
    ensures { IfOk result (λ out. out ≡ filter_map (key_of base width) conjuncts.now) }
{
    let mut out = List::new(alloc);
    for conjunct in conjuncts {
        match key_of(conjunct, base, width) {
            Some(key) => out.push(key)?,
            None => {}
        }
    }
    Ok(out)
}

// The pair of columns that have to be equal, of which one lies in the member and one before it.
fn key_of(pred: &Pred, base: usize, width: usize) -> Option<KeyPair>
    ensures { result ≡ key_of base width pred.now }
{
    match pred {
        Pred::Cmp(Op::Eq, a, b) => pair(place(a), place(b), base, width),
        _ => None,
    }
}

/// The place of an expression that is a column of the innermost row.
pub(crate) fn place(expr: &Expr) -> Option<usize>
    ensures { result ≡ place expr.now }
{
    match expr {
        Expr::Col(up, at) if *up == 0 => Some(*at),
        _ => None,
    }
}

fn pair(a: Option<usize>, b: Option<usize>, base: usize, width: usize) -> Option<KeyPair>
    ensures { result ≡ pair base width a b }
{
    match (a, b) {
        (Some(a), Some(b)) if a < base && lies(base, width, b) => Some(KeyPair {
            before: a,
            own: b - base,
        }),
        (Some(a), Some(b)) if b < base && lies(base, width, a) => Some(KeyPair {
            before: b,
            own: a - base,
        }),
        _ => None,
    }
}

// Whether each of the conjuncts is own to a member or a key of one.
fn are_taken(alloc: Global, conjuncts: &[Pred], widths: &[usize]) -> Result<bool, NoMemory>
    ensures { IfOk result (λ b. b ≡ list_all (is_taken 0 widths.now) conjuncts.now) }
{
    for conjunct in conjuncts {
        if !is_taken(alloc, conjunct, widths)? {
            return Ok(false);
        }
    }
    Ok(true)
}

// Whether the conjunct speaks of the columns of one member alone, the first of which is `base`.
fn is_own(alloc: Global, conjunct: &Pred, base: usize, width: usize) -> Result<bool, NoMemory>
    ensures { IfOk result (λ b. b ≡ is_some (own_of base width conjunct.now)) }
{
    let own = own_of(alloc, conjunct, base, width)?;
    let found = own.is_some();
    drop(own);
    Ok(found)
}

fn is_taken(alloc: Global, conjunct: &Pred, widths: &[usize]) -> Result<bool, NoMemory>
    ensures { IfOk result (λ b. b ≡ is_taken 0 widths.now conjunct.now) }
{
    let mut base: usize = 0;
    for width in widths {
        if is_own(alloc, conjunct, base, *width)? || key_of(conjunct, base, *width).is_some() {
            return Ok(true);
        }
        base = after(base, *width)?;
    }
    Ok(false)
}
