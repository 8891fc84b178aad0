//! A condition on the whole row as one on the row of a single member, if it names no other
//! member: columns move down by the place where the member begins.

ghost use Rattle.std.specs.Prelude.{◌≡◌, [], map, nat_eq, IfOk};
ghost use Rattle.rt_split.specs.Split.{names, names_term, names_pred, some_true, lies, moved, moved_column, moved_term, moved_pred, all_from, both, own_of};
ghost use Rattle.rt_algebra.specs.declared.query.Pred.TheVariants as p;

use rt_algebra::{Expr, Pred, Term};
use rt_value::{Boxed, List, NoMemory, Op};
use std::alloc::Global;

// Whether a column of the innermost row is named.
#[cycle(names_value)]
fn names(expr: &Expr) -> bool
    ensures { result ≡ names expr.now }
{
    match expr {
        Expr::Col(up, _) => *up == 0,
        Expr::Int(_) | Expr::Text(_) | Expr::Null => false,
        Expr::Sum(terms) => any_term_names(terms.as_slice()),
        Expr::Mul(members) => any_names(members.as_slice()),
    }
}

#[cycle(names_value)]
fn any_names(exprs: &[Expr]) -> bool
    ensures { result ≡ some_true (map names exprs.now) }
{
    for expr in exprs {
        if names(expr) {
            return true;
        }
    }
    false
}

#[cycle(names_value)]
fn any_term_names(terms: &[Term]) -> bool
    ensures { result ≡ some_true (map names_term terms.now) }
{
    for term in terms {
        if names(&term.of) {
            return true;
        }
    }
    false
}

#[cycle(names)]
fn names_pred(pred: &Pred) -> bool
    ensures { result ≡ names_pred pred.now }
{
    match pred {
        Pred::Cmp(_, a, b) => names(a) || names(b),
        Pred::IsNull(expr) | Pred::Member(expr, _) => names(expr),
        Pred::OneOf(expr, items) => names(expr) || any_names(items.as_slice()),
        Pred::And(members) | Pred::Or(members) => any_pred_names(members.as_slice()),
        Pred::Not(member) => names_pred(member.get()),
        Pred::Exists(_) => false,
    }
}

#[cycle(names)]
fn any_pred_names(preds: &[Pred]) -> bool
    ensures { result ≡ some_true (map names_pred preds.now) }
{
    for pred in preds {
        if names_pred(pred) {
            return true;
        }
    }
    false
}

/// Whether a place in the whole row lies in the member of `width` columns that begins at `base`.
pub(crate) fn lies(base: usize, width: usize, at: usize) -> bool
    ensures { result ≡ lies base width at }
{
    base <= at && at - base < width
}

fn moved_column(base: usize, width: usize, up: usize, at: usize) -> Option<Expr>
    ensures { result ≡ moved_column (nat_eq up 0) base width up at }
{
    if up != 0 {
        return Some(Expr::Col(up, at));
    }
    if lies(base, width, at) {
        Some(Expr::Col(up, at - base))
    } else {
        None
    }
}

// The expression over the member's row alone, and None where a column lies outside the member.
#[cycle(moved_value)]
fn moved(alloc: Global, expr: &Expr, base: usize, width: usize) -> Result<Option<Expr>, NoMemory>
    ensures { IfOk result (λ o. o ≡ moved base width expr.now) }
{
    match expr {
        Expr::Col(up, at) => Ok(moved_column(base, width, *up, *at)),
        Expr::Int(n) => Ok(Some(Expr::Int(*n))),
        Expr::Text(text) => Ok(Some(Expr::Text(text.copy(alloc)?))),
        Expr::Null => Ok(Some(Expr::Null)),
        Expr::Sum(terms) => match moved_terms(alloc, terms.as_slice(), base, width)? {
            Some(terms) => Ok(Some(Expr::Sum(terms))),
            None => Ok(None),
        },
        Expr::Mul(members) => match moved_exprs(alloc, members.as_slice(), base, width)? {
            Some(members) => Ok(Some(Expr::Mul(members))),
            None => Ok(None),
        },
    }
}

#[cycle(moved_value)]
fn moved_exprs(
    alloc: Global,
    exprs: &[Expr],
    base: usize,
    width: usize,
) -> Result<Option<List<Expr>>, NoMemory>
    ensures { IfOk result (λ o. o ≡ all_from [] (map (moved base width) exprs.now)) }
{
    let mut out = List::new(alloc);
    for expr in exprs {
        match moved(alloc, expr, base, width)? {
            Some(expr) => out.push(expr)?,
            None => return Ok(None),
        }
    }
    Ok(Some(out))
}

#[cycle(moved_value)]
fn moved_terms(
    alloc: Global,
    terms: &[Term],
    base: usize,
    width: usize,
) -> Result<Option<List<Term>>, NoMemory>
    ensures { IfOk result (λ o. o ≡ all_from [] (map (moved_term base width) terms.now)) }
{
    let mut out = List::new(alloc);
    for term in terms {
        match moved_term(alloc, term, base, width)? {
            Some(term) => out.push(term)?,
            None => return Ok(None),
        }
    }
    Ok(Some(out))
}

#[cycle(moved_value)]
fn moved_term(
    alloc: Global,
    term: &Term,
    base: usize,
    width: usize,
) -> Result<Option<Term>, NoMemory>
    ensures { IfOk result (λ o. o ≡ moved_term base width term.now) }
{
    let minus = term.minus;
    match moved(alloc, &term.of, base, width)? {
        Some(of) => Ok(Some(Term { minus, of })),
        None => Ok(None),
    }
}

fn compared(op: Op, a: Option<Expr>, b: Option<Expr>) -> Option<Pred>
    ensures { result ≡ both (p.Cmp op) a b }
{
    match (a, b) {
        (Some(a), Some(b)) => Some(Pred::Cmp(op, a, b)),
        _ => None,
    }
}

fn moved_cmp(
    alloc: Global,
    op: Op,
    a: &Expr,
    b: &Expr,
    base: usize,
    width: usize,
) -> Result<Option<Pred>, NoMemory>
    ensures { IfOk result (λ o. o ≡ both (p.Cmp op) (moved base width a.now) (moved base width b.now)) }
{
    let a = moved(alloc, a, base, width)?;
    Ok(compared(op, a, moved(alloc, b, base, width)?))
}

fn one_of(expr: Option<Expr>, items: Option<List<Expr>>) -> Option<Pred>
    ensures { result ≡ both p.OneOf expr items }
{
    match (expr, items) {
        (Some(expr), Some(items)) => Some(Pred::OneOf(expr, items)),
        _ => None,
    }
}

fn moved_one_of(
    alloc: Global,
    expr: &Expr,
    items: &[Expr],
    base: usize,
    width: usize,
) -> Result<Option<Pred>, NoMemory>
    ensures { IfOk result (λ o. o ≡ both p.OneOf (moved base width expr.now) (all_from [] (map (moved base width) items.now))) }
{
    let items = moved_exprs(alloc, items, base, width)?;
    Ok(one_of(moved(alloc, expr, base, width)?, items))
}

// The condition over the member's row alone, and None where it has a subquery or a column lies
// outside the member.
#[cycle(moved)]
fn moved_pred(
    alloc: Global,
    pred: &Pred,
    base: usize,
    width: usize,
) -> Result<Option<Pred>, NoMemory>
    ensures { IfOk result (λ o. o ≡ moved_pred base width pred.now) }
{
    match pred {
        Pred::Cmp(op, a, b) => moved_cmp(alloc, *op, a, b, base, width),
        Pred::IsNull(expr) => match moved(alloc, expr, base, width)? {
            Some(expr) => Ok(Some(Pred::IsNull(expr))),
            None => Ok(None),
        },
        Pred::OneOf(expr, items) => moved_one_of(alloc, expr, items.as_slice(), base, width),
        Pred::And(members) => match moved_preds(alloc, members.as_slice(), base, width)? {
            Some(members) => Ok(Some(Pred::And(members))),
            None => Ok(None),
        },
        Pred::Or(members) => match moved_preds(alloc, members.as_slice(), base, width)? {
            Some(members) => Ok(Some(Pred::Or(members))),
            None => Ok(None),
        },
        Pred::Not(member) => match moved_pred(alloc, member.get(), base, width)? {
            Some(member) => Ok(Some(Pred::Not(Boxed::new(alloc, member)?))),
            None => Ok(None),
        },
        Pred::Exists(_) | Pred::Member(_, _) => Ok(None),
    }
}

#[cycle(moved)]
fn moved_preds(
    alloc: Global,
    preds: &[Pred],
    base: usize,
    width: usize,
) -> Result<Option<List<Pred>>, NoMemory>
    ensures { IfOk result (λ o. o ≡ all_from [] (map (moved_pred base width) preds.now)) }
{
    let mut out = List::new(alloc);
    for pred in preds {
        match moved_pred(alloc, pred, base, width)? {
            Some(pred) => out.push(pred)?,
            None => return Ok(None),
        }
    }
    Ok(Some(out))
}

/// The condition over the member's row, or None where it isn't one of the member's own. It is one
/// if it names a column, all columns are the member's, and it has no subquery.
pub(crate) fn own_of(
    alloc: Global,
    pred: &Pred,
    base: usize,
    width: usize,
) -> Result<Option<Pred>, NoMemory>
    ensures { IfOk result (λ o. o ≡ own_of base width pred.now) }
{
    if names_pred(pred) {
        moved_pred(alloc, pred, base, width)
    } else {
        Ok(None)
    }
}
