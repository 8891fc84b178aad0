//! Sameness of trees. An answer of no costs time at most: callers then do the work a second time.

ghost use Rattle.std.specs.Prelude.{◌≡◌, IsTrue};

use crate::expr::{Expr, Term};
use crate::query::{Pred, Query};

/// Whether two queries are the same, part for part. Queries that only mean the same are not.
#[cycle(same)]
pub fn same_query(a: &Query, b: &Query) -> bool
    ensures { IsTrue result → a.now ≡ b.now }
{
    match (a, b) {
        (Query::Table(s), Query::Table(t)) => s == t,
        (Query::Select(s, p), Query::Select(t, q)) => same_query(s.get(), t.get())
            && same_pred(p, q),
        (Query::Project(s, es), Query::Project(t, fs)) => {
            same_query(s.get(), t.get()) && same_exprs(es.as_slice(), fs.as_slice())
        }
        (Query::Product(s), Query::Product(t)) => same_queries(s.as_slice(), t.as_slice()),
        (Query::Union(s, t), Query::Union(u, v)) => {
            same_query(s.get(), u.get()) && same_query(t.get(), v.get())
        }
        (Query::Except(s, t), Query::Except(u, v)) => {
            same_query(s.get(), u.get()) && same_query(t.get(), v.get())
        }
        (Query::Intersect(s, t), Query::Intersect(u, v)) => {
            same_query(s.get(), u.get()) && same_query(t.get(), v.get())
        }
        _ => false,
    }
}

#[cycle(same)]
fn same_queries(a: &[Query], b: &[Query]) -> bool
    ensures { IsTrue result → a.now ≡ b.now }
{
    if a.len() != b.len() {
        return false;
    }
    for at in 0..a.len() {
        if !same_query(&a[at], &b[at]) {
            return false;
        }
    }
    true
}

#[cycle(same)]
fn same_pred(a: &Pred, b: &Pred) -> bool
    ensures { IsTrue result → a.now ≡ b.now }
{
    match (a, b) {
        (Pred::Cmp(op, x, y), Pred::Cmp(or, u, v)) => {
            *op == *or && same_expr(x, u) && same_expr(y, v)
        }
        (Pred::IsNull(x), Pred::IsNull(u)) => same_expr(x, u),
        (Pred::OneOf(x, es), Pred::OneOf(u, fs)) => {
            same_expr(x, u) && same_exprs(es.as_slice(), fs.as_slice())
        }
        (Pred::And(s), Pred::And(t)) => same_preds(s.as_slice(), t.as_slice()),
        (Pred::Or(s), Pred::Or(t)) => same_preds(s.as_slice(), t.as_slice()),
        (Pred::Not(s), Pred::Not(t)) => same_pred(s.get(), t.get()),
        (Pred::Exists(s), Pred::Exists(t)) => same_query(s.get(), t.get()),
        (Pred::Member(x, s), Pred::Member(u, t)) => {
            same_expr(x, u) && same_query(s.get(), t.get())
        }
        _ => false,
    }
}

#[cycle(same)]
fn same_preds(a: &[Pred], b: &[Pred]) -> bool
    ensures { IsTrue result → a.now ≡ b.now }
{
    if a.len() != b.len() {
        return false;
    }
    for at in 0..a.len() {
        if !same_pred(&a[at], &b[at]) {
            return false;
        }
    }
    true
}

#[cycle(same_value)]
fn same_expr(a: &Expr, b: &Expr) -> bool
    ensures { IsTrue result → a.now ≡ b.now }
{
    match (a, b) {
        (Expr::Col(up, at), Expr::Col(vp, bt)) => up == vp && at == bt,
        (Expr::Int(m), Expr::Int(n)) => m == n,
        (Expr::Text(s), Expr::Text(t)) => s == t,
        (Expr::Null, Expr::Null) => true,
        (Expr::Sum(s), Expr::Sum(t)) => same_terms(s.as_slice(), t.as_slice()),
        (Expr::Mul(s), Expr::Mul(t)) => same_exprs(s.as_slice(), t.as_slice()),
        _ => false,
    }
}

#[cycle(same_value)]
fn same_exprs(a: &[Expr], b: &[Expr]) -> bool
    ensures { IsTrue result → a.now ≡ b.now }
{
    if a.len() != b.len() {
        return false;
    }
    for at in 0..a.len() {
        if !same_expr(&a[at], &b[at]) {
            return false;
        }
    }
    true
}

#[cycle(same_value)]
fn same_terms(a: &[Term], b: &[Term]) -> bool
    ensures { IsTrue result → a.now ≡ b.now }
{
    if a.len() != b.len() {
        return false;
    }
    for at in 0..a.len() {
        if !same_term(&a[at], &b[at]) {
            return false;
        }
    }
    true
}

#[cycle(same_value)]
fn same_term(a: &Term, b: &Term) -> bool
    ensures { IsTrue result → a.now ≡ b.now }
{
    a.minus == b.minus && same_expr(&a.of, &b.of)
}
