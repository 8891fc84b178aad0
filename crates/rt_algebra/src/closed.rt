//! Whether a query names a row outside of it. Where it names none, no row around it changes its
//! answer.

ghost use Rattle.std.specs.Prelude.{IsTrue, ◌+◌};
ghost use Rattle.std.specs.List.{All as Each};
ghost use Rattle.rt_algebra.specs.Stays.{StaysValue, StaysTerm, StaysPred, StaysQuery};

use crate::expr::{Expr, Term};
use crate::query::{Pred, Query};

/// Whether the query names only the innermost `depth` rows in scope.
#[cycle(closed)]
pub fn query_is_closed(query: &Query, depth: usize) -> bool
    ensures { IsTrue result → StaysQuery depth query.now }
{
    match query {
        Query::Table(_) => true,
        Query::Select(source, condition) => {
            query_is_closed(source.get(), depth) && row_pred_is_closed(condition, depth)
        }
        Query::Project(source, items) => {
            query_is_closed(source.get(), depth) && row_items_are_closed(items.as_slice(), depth)
        }
        Query::Product(members) => queries_are_closed(members.as_slice(), depth),
        Query::Union(a, b) => query_is_closed(a.get(), depth) && query_is_closed(b.get(), depth),
        Query::Except(a, b) => query_is_closed(a.get(), depth) && query_is_closed(b.get(), depth),
        Query::Intersect(a, b) => {
            query_is_closed(a.get(), depth) && query_is_closed(b.get(), depth)
        }
    }
}

#[cycle(closed)]
fn queries_are_closed(queries: &[Query], depth: usize) -> bool
    ensures { IsTrue result → Each (StaysQuery depth) queries.now }
{
    for query in queries {
        if !query_is_closed(query, depth) {
            return false;
        }
    }
    true
}

#[cycle(closed)]
fn pred_is_closed(pred: &Pred, depth: usize) -> bool
    ensures { IsTrue result → StaysPred depth pred.now }
{
    match pred {
        Pred::Cmp(_, a, b) => expr_is_closed(a, depth) && expr_is_closed(b, depth),
        Pred::IsNull(expr) => expr_is_closed(expr, depth),
        Pred::OneOf(expr, items) => {
            expr_is_closed(expr, depth) && exprs_are_closed(items.as_slice(), depth)
        }
        Pred::And(members) => preds_are_closed(members.as_slice(), depth),
        Pred::Or(members) => preds_are_closed(members.as_slice(), depth),
        Pred::Not(member) => pred_is_closed(member.get(), depth),
        Pred::Exists(query) => query_is_closed(query.get(), depth),
        Pred::Member(expr, query) => {
            expr_is_closed(expr, depth) && query_is_closed(query.get(), depth)
        }
    }
}

#[cycle(closed)]
fn preds_are_closed(preds: &[Pred], depth: usize) -> bool
    ensures { IsTrue result → Each (StaysPred depth) preds.now }
{
    for pred in preds {
        if !pred_is_closed(pred, depth) {
            return false;
        }
    }
    true
}

// The condition sees one row more than the query that holds it.
#[cycle(closed)]
fn row_pred_is_closed(pred: &Pred, depth: usize) -> bool
    ensures { IsTrue result → StaysPred (depth + 1) pred.now }
{
    match depth.checked_add(1) {
        None => false,
        Some(inner) => pred_is_closed(pred, inner),
    }
}

fn row_items_are_closed(items: &[Expr], depth: usize) -> bool
    ensures { IsTrue result → Each (StaysValue (depth + 1)) items.now }
{
    match depth.checked_add(1) {
        None => false,
        Some(inner) => exprs_are_closed(items, inner),
    }
}

#[cycle(closed_value)]
fn expr_is_closed(expr: &Expr, depth: usize) -> bool
    ensures { IsTrue result → StaysValue depth expr.now }
{
    match expr {
        Expr::Col(up, _) => *up < depth,
        Expr::Int(_) => true,
        Expr::Text(_) => true,
        Expr::Null => true,
        Expr::Sum(terms) => terms_are_closed(terms.as_slice(), depth),
        Expr::Mul(members) => exprs_are_closed(members.as_slice(), depth),
    }
}

#[cycle(closed_value)]
fn exprs_are_closed(exprs: &[Expr], depth: usize) -> bool
    ensures { IsTrue result → Each (StaysValue depth) exprs.now }
{
    for expr in exprs {
        if !expr_is_closed(expr, depth) {
            return false;
        }
    }
    true
}

#[cycle(closed_value)]
fn terms_are_closed(terms: &[Term], depth: usize) -> bool
    ensures { IsTrue result → Each (StaysTerm depth) terms.now }
{
    for term in terms {
        if !term_is_closed(term, depth) {
            return false;
        }
    }
    true
}

#[cycle(closed_value)]
fn term_is_closed(term: &Term, depth: usize) -> bool
    ensures { IsTrue result → StaysTerm depth term.now }
{
    expr_is_closed(&term.of, depth)
}
