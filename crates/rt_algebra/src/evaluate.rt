//! The value of an expression under the rows in scope. Arithmetic is modulo 2^128, which takes no
//! tests; `laws` says that a typed query never notices.

ghost use Rattle.std.specs.Prelude.{◌≡◌, ◌∷◌, ◌+ℤ◌, ◌*ℤ◌, map, neg_ℤ, pos, IfOk};
ghost use Rattle.rt_value.specs.declared.value.Value.TheVariants.{Int};
ghost use Rattle.rt_algebra.specs.Expression.{wrapped, value_by, term_by, row_by, cell_of, sum_from, mul_from, add_value, mul_value, neg_value};

use crate::expr::{Expr, Term};
use rt_value::{NoMemory, Row, Txt, Value};
use std::alloc::Global;

/// The value of an expression, with arithmetic modulo 2^128.
#[cycle(value)]
pub fn value(alloc: Global, expr: &Expr, env: &[&Row]) -> Result<Value, NoMemory>
    ensures { IfOk result (λ v. v ≡ value_by wrapped expr.now (map (λ r. r.now) env.now)) }
{
    match expr {
        Expr::Col(up, at) => cell(alloc, env, *up, *at),
        Expr::Int(n) => Ok(Value::Int(*n)),
        Expr::Text(text) => Ok(Value::Text(text.copy(alloc)?)),
        Expr::Null => Ok(Value::Null),
        Expr::Sum(terms) => sum(alloc, terms.as_slice(), env),
        Expr::Mul(members) => product(alloc, members.as_slice(), env),
    }
}

#[cycle(value)]
fn sum(alloc: Global, terms: &[Term], env: &[&Row]) -> Result<Value, NoMemory>
    ensures { IfOk result (λ v. v ≡ sum_from wrapped (Int (pos 0)) (map (term_by wrapped) terms.now) (map (λ r. r.now) env.now)) }
{
    let mut sum = Value::Int(0);
    for term in terms {
        sum = add(&sum, &signed(alloc, term, env)?);
    }
    Ok(sum)
}

#[cycle(value)]
fn signed(alloc: Global, term: &Term, env: &[&Row]) -> Result<Value, NoMemory>
    ensures { IfOk result (λ v. v ≡ term_by wrapped term.now (map (λ r. r.now) env.now)) }
{
    let member = value(alloc, &term.of, env)?;
    if term.minus {
        Ok(neg(&member))
    } else {
        Ok(member)
    }
}

#[cycle(value)]
fn product(alloc: Global, members: &[Expr], env: &[&Row]) -> Result<Value, NoMemory>
    ensures { IfOk result (λ v. v ≡ mul_from wrapped (Int (pos 1)) (map (value_by wrapped) members.now) (map (λ r. r.now) env.now)) }
{
    let mut product = Value::Int(1);
    for member in members {
        product = mul(&product, &value(alloc, member, env)?);
    }
    Ok(product)
}

/// The row of the values of several expressions.
pub fn row(alloc: Global, items: &[Expr], env: &[&Row]) -> Result<Row, NoMemory>
    ensures { IfOk result (λ r. r ≡ row_by wrapped items.now (map (λ r. r.now) env.now)) }
{
    let mut row = Row::new(alloc);
    for item in items {
        row.push(value(alloc, item, env)?)?;
    }
    Ok(row)
}

/// The rows in scope where `row` has come innermost.
pub fn scope<'a>(alloc: Global, row: &'a Row, env: &[&'a Row]) -> Result<Vec<&'a Row>, NoMemory>
    ensures { IfOk result (λ s. map (λ r. r.now) s.items ≡ row.now ∷ map (λ r. r.now) env.now) }
{
    let mut scope = Vec::new(alloc);
    scope.push(row)?;
    scope.extend_from_slice(env)?;
    Ok(scope)
}

fn cell(alloc: Global, env: &[&Row], up: usize, at: usize) -> Result<Value, NoMemory>
    ensures { IfOk result (λ v. v ≡ cell_of (map (λ r. r.now) env.now) up at) }
{
    match env.get(up) {
        None => Ok(Value::Null),
        Some(row) => match row.as_slice().get(at) {
            None => Ok(Value::Null),
            Some(value) => value.copy(alloc),
        },
    }
}

fn add(a: &Value, b: &Value) -> Value
    ensures { result ≡ add_value wrapped a.now b.now }
{
    match (a, b) {
        (Value::Int(x), Value::Int(y)) => Value::Int(wrapped_sum(*x, *y)),
        _ => Value::Null,
    }
}

fn mul(a: &Value, b: &Value) -> Value
    ensures { result ≡ mul_value wrapped a.now b.now }
{
    match (a, b) {
        (Value::Int(x), Value::Int(y)) => Value::Int(wrapped_product(*x, *y)),
        _ => Value::Null,
    }
}

fn neg(a: &Value) -> Value
    ensures { result ≡ neg_value wrapped a.now }
{
    match a {
        Value::Int(x) => Value::Int(wrapped_negation(*x)),
        _ => Value::Null,
    }
}

fn wrapped_sum(x: i128, y: i128) -> i128
    ensures { result ≡ wrapped (x +ℤ y) }
{
    x.wrapping_add(y)
}

fn wrapped_product(x: i128, y: i128) -> i128
    ensures { result ≡ wrapped (x *ℤ y) }
{
    x.wrapping_mul(y)
}

fn wrapped_negation(x: i128) -> i128
    ensures { result ≡ wrapped (neg_ℤ x) }
{
    x.wrapping_neg()
}
