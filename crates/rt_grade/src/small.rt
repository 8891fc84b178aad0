//! Whether a query is small enough to be kept.

use rt_algebra::{Expr, Pred, Query, Term};

// The most parts of a query that is kept, where each byte of a text is a part too.
const MOST_PARTS: usize = 4_096;

/// Whether the query has no more parts than one that is kept. A larger one is not read to its end.
pub(crate) fn is_small(query: &Query) -> bool {
    query_left(query, MOST_PARTS).is_some()
}

// What is left of `most` parts without those of the query; none if it has more.
#[cycle(parts)]
fn query_left(query: &Query, most: usize) -> Option<usize> {
    let left = most.checked_sub(1)?;
    match query {
        Query::Table(_) => Some(left),
        Query::Select(source, condition) => pred_left(condition, query_left(source.get(), left)?),
        Query::Project(source, items) => {
            exprs_left(items.as_slice(), query_left(source.get(), left)?)
        }
        Query::Product(members) => queries_left(members.as_slice(), left),
        Query::Union(a, b) | Query::Except(a, b) | Query::Intersect(a, b) => {
            query_left(b.get(), query_left(a.get(), left)?)
        }
    }
}

#[cycle(parts)]
fn queries_left(queries: &[Query], most: usize) -> Option<usize> {
    let mut left = most;
    for query in queries {
        left = query_left(query, left)?;
    }
    Some(left)
}

#[cycle(parts)]
fn pred_left(pred: &Pred, most: usize) -> Option<usize> {
    let left = most.checked_sub(1)?;
    match pred {
        Pred::Cmp(_, a, b) => expr_left(b, expr_left(a, left)?),
        Pred::IsNull(expr) => expr_left(expr, left),
        Pred::OneOf(expr, items) => exprs_left(items.as_slice(), expr_left(expr, left)?),
        Pred::And(members) | Pred::Or(members) => preds_left(members.as_slice(), left),
        Pred::Not(member) => pred_left(member.get(), left),
        Pred::Exists(query) => query_left(query.get(), left),
        Pred::Member(expr, query) => query_left(query.get(), expr_left(expr, left)?),
    }
}

#[cycle(parts)]
fn preds_left(preds: &[Pred], most: usize) -> Option<usize> {
    let mut left = most;
    for pred in preds {
        left = pred_left(pred, left)?;
    }
    Some(left)
}

#[cycle(value_parts)]
fn expr_left(expr: &Expr, most: usize) -> Option<usize> {
    let left = most.checked_sub(1)?;
    match expr {
        Expr::Col(_, _) | Expr::Int(_) | Expr::Null => Some(left),
        Expr::Text(text) => left.checked_sub(text.as_bytes().len()),
        Expr::Sum(members) => terms_left(members.as_slice(), left),
        Expr::Mul(members) => exprs_left(members.as_slice(), left),
    }
}

#[cycle(value_parts)]
fn exprs_left(exprs: &[Expr], most: usize) -> Option<usize> {
    let mut left = most;
    for expr in exprs {
        left = expr_left(expr, left)?;
    }
    Some(left)
}

#[cycle(value_parts)]
fn terms_left(terms: &[Term], most: usize) -> Option<usize> {
    let mut left = most;
    for term in terms {
        left = expr_left(&term.of, left)?;
    }
    Some(left)
}
