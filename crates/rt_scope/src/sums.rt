//! Sums, products and their leaves, each with its kind and its bound. A bound is kept so that no
//! step of arithmetic can leave 128 bits at run time.

ghost use Rattle.std.specs.Prelude.{◌≡◌, is_some, map};
ghost use Rattle.rt_algebra.specs.Columns.{kind_bound};
ghost use Rattle.rt_scope.specs.Fault.{is_memory};
ghost use Rattle.rt_scope.specs.Sums as spec;
ghost use Rattle.rt_value.specs.Gives.{Gives};

use crate::fault::NameFault;
use crate::lookup::{find_column, find_qualified};
use crate::scalar::Scalar;
use crate::source::Source;
use rt_algebra::{Expr, Term};
use rt_schema::ColKind;
use rt_token::Name;
use rt_tree::{Factor, Leaf, Mul, Sum, SumLink};
use rt_value::List;
use std::alloc::Global;

// No step of arithmetic passes this.
const TOP: u128 = 170_141_183_460_469_231_731_687_303_715_884_105_727;

/// The terms of a sum so far, and its bound.
#[derive(Drop)]
pub struct Terms {
    pub terms: List<Term>,
    pub bound: u128,
}

/// The factors of a product so far, and its bound.
#[derive(Drop)]
pub struct Factors {
    pub factors: List<Expr>,
    pub bound: u128,
}

// Whether the expression may be part of arithmetic: it is no text.
fn is_numeric(x: &Scalar) -> bool
    ensures { result ≡ is_some (kind_bound x.now.kind x.now.bound) }
{
    match x.kind {
        Some(ColKind::Text) => false,
        _ => true,
    }
}

// Whether there is an item.
pub(crate) fn has_more<T>(items: &[T]) -> bool
    ensures { result ≡ spec.has_more items.now }
{
    match items {
        [] => false,
        _ => true,
    }
}

fn added(sum: Terms, minus: bool, x: Scalar) -> Result<Terms, NameFault>
    ensures { Gives is_memory result (spec.added sum minus x) }
{
    if !is_numeric(&x) {
        return Err(NameFault::TypeMismatch);
    }
    let Terms { mut terms, bound } = sum;
    match bound.checked_add(x.bound) {
        Some(bound) if bound <= TOP => {
            terms.push(Term { minus, of: x.expr })?;
            Ok(Terms { terms, bound })
        }
        _ => Err(NameFault::ArithWidth),
    }
}

fn multiplied(product: Factors, x: Scalar) -> Result<Factors, NameFault>
    ensures { Gives is_memory result (spec.multiplied product x) }
{
    if !is_numeric(&x) {
        return Err(NameFault::TypeMismatch);
    }
    let Factors { mut factors, bound } = product;
    match bound.checked_mul(x.bound) {
        Some(bound) if bound <= TOP => {
            factors.push(x.expr)?;
            Ok(Factors { factors, bound })
        }
        _ => Err(NameFault::ArithWidth),
    }
}

fn negative(alloc: Global, x: Scalar) -> Result<Scalar, NameFault>
    ensures { Gives is_memory result (spec.negative x) }
{
    let none = Terms {
        terms: List::new(alloc),
        bound: 0,
    };
    let all = added(none, true, x)?;
    Ok(sum_of(all))
}

fn signed(alloc: Global, minuses: usize, x: Scalar) -> Result<Scalar, NameFault>
    ensures { Gives is_memory result (spec.signed minuses x) }
{
    if minuses == 0 {
        return Ok(x);
    }
    if !is_numeric(&x) {
        return Err(NameFault::TypeMismatch);
    }
    if minuses % 2 == 1 {
        negative(alloc, x)
    } else {
        Ok(x)
    }
}

fn column_named(
    alloc: Global,
    qualifier: &Option<Name>,
    name: &Name,
    scopes: &[&[Source]],
) -> Result<Scalar, NameFault>
    ensures { Gives is_memory result (spec.column_named qualifier.now name.now (map (λ s. s.now) scopes.now)) }
{
    match qualifier {
        None => find_column(alloc, 0, &name.text, scopes),
        Some(source) => find_qualified(alloc, 0, &source.text, &name.text, scopes),
    }
}

#[cycle(sums)]
fn leaf(alloc: Global, of: &Leaf, scopes: &[&[Source]]) -> Result<Scalar, NameFault>
    ensures { Gives is_memory result (spec.leaf of.now (map (λ s. s.now) scopes.now)) }
{
    match of {
        Leaf::Number(n) => Ok(Scalar {
            expr: Expr::Int(*n),
            kind: Some(ColKind::Whole),
            bound: n.unsigned_abs(),
        }),
        Leaf::Str(text) => Ok(Scalar {
            expr: Expr::Text(text.copy(alloc)?),
            kind: Some(ColKind::Text),
            bound: 0,
        }),
        Leaf::Null => Ok(Scalar {
            expr: Expr::Null,
            kind: None,
            bound: 0,
        }),
        Leaf::Col(qualifier, name) => column_named(alloc, qualifier, name, scopes),
        Leaf::Paren(inner) => sum(alloc, inner.get(), scopes),
    }
}

#[cycle(sums)]
fn factor(alloc: Global, of: &Factor, scopes: &[&[Source]]) -> Result<Scalar, NameFault>
    ensures { Gives is_memory result (spec.factor of.now (map (λ s. s.now) scopes.now)) }
{
    let x = leaf(alloc, &of.of, scopes)?;
    signed(alloc, of.minuses, x)
}

#[cycle(sums)]
fn multiplied_all(
    alloc: Global,
    product: Factors,
    factors: &[Factor],
    scopes: &[&[Source]],
) -> Result<Factors, NameFault>
    ensures { Gives is_memory result (spec.multiplied_all product (map spec.factor factors.now) (map (λ s. s.now) scopes.now)) }
{
    let mut all = product;
    for next in factors {
        let x = factor(alloc, next, scopes)?;
        all = multiplied(all, x)?;
    }
    Ok(all)
}

#[cycle(sums)]
fn product_more(
    alloc: Global,
    x: Scalar,
    factors: &[Factor],
    scopes: &[&[Source]],
) -> Result<Scalar, NameFault>
    ensures { Gives is_memory result (spec.product_more x (map spec.factor factors.now) (map (λ s. s.now) scopes.now)) }
{
    let none = Factors {
        factors: List::new(alloc),
        bound: 1,
    };
    let first = multiplied(none, x)?;
    let all = multiplied_all(alloc, first, factors, scopes)?;
    Ok(product_of(all))
}

fn product_of(product: Factors) -> Scalar
    ensures { result ≡ spec.product_of product }
{
    let Factors { factors, bound } = product;
    Scalar {
        expr: Expr::Mul(factors),
        kind: Some(ColKind::Whole),
        bound,
    }
}

#[tactic(auto, using(crate::proofs::More::more_map))]
#[cycle(sums)]
fn mul(alloc: Global, of: &Mul, scopes: &[&[Source]]) -> Result<Scalar, NameFault>
    ensures { Gives is_memory result (spec.mul of.now (map (λ s. s.now) scopes.now)) }
{
    let x = factor(alloc, &of.head, scopes)?;
    let factors = of.tail.as_slice();
    if has_more(factors) {
        product_more(alloc, x, factors, scopes)
    } else {
        Ok(x)
    }
}

#[cycle(sums)]
fn added_all(
    alloc: Global,
    sum: Terms,
    links: &[SumLink],
    scopes: &[&[Source]],
) -> Result<Terms, NameFault>
    ensures { Gives is_memory result (spec.added_all sum (map spec.link links.now) (map (λ s. s.now) scopes.now)) }
{
    let mut all = sum;
    for next in links {
        let x = mul(alloc, &next.of, scopes)?;
        all = added(all, next.minus, x)?;
    }
    Ok(all)
}

#[cycle(sums)]
fn sum_more(
    alloc: Global,
    x: Scalar,
    links: &[SumLink],
    scopes: &[&[Source]],
) -> Result<Scalar, NameFault>
    ensures { Gives is_memory result (spec.sum_more x (map spec.link links.now) (map (λ s. s.now) scopes.now)) }
{
    let none = Terms {
        terms: List::new(alloc),
        bound: 0,
    };
    let first = added(none, false, x)?;
    let all = added_all(alloc, first, links, scopes)?;
    Ok(sum_of(all))
}

fn sum_of(sum: Terms) -> Scalar
    ensures { result ≡ spec.sum_of sum }
{
    let Terms { terms, bound } = sum;
    Scalar {
        expr: Expr::Sum(terms),
        kind: Some(ColKind::Whole),
        bound,
    }
}

/// The expression of a sum, over the sources in scope.
#[tactic(auto, using(crate::proofs::More::more_map))]
#[cycle(sums)]
pub(crate) fn sum(alloc: Global, of: &Sum, scopes: &[&[Source]]) -> Result<Scalar, NameFault>
    ensures { Gives is_memory result (spec.sum of.now (map (λ s. s.now) scopes.now)) }
{
    let x = mul(alloc, &of.head, scopes)?;
    let links = of.tail.as_slice();
    if has_more(links) {
        sum_more(alloc, x, links, scopes)
    } else {
        Ok(x)
    }
}
