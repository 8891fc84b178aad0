//! How much work a query is counted as. All numbers stop at the cap of `rt_schema`, so no step can
//! overflow; only `work` is seen from outside.

ghost use Rattle.std.specs.Prelude.{◌≡◌, ◌*◌, None, map};
ghost use Rattle.rt_algebra.specs.Work.{sum_from, expr_size, term_size, pred_work, query_cost, product_from, table_cost, after, joined, set_work, each_row, work};

use crate::expr::{Expr, Term};
use crate::query::{Pred, Query};
use crate::typed::Typed;
use rt_schema::{Given, capped_add, capped_mul};

// How many rows may come out of a query, how many columns they have, and the query's work.
#[derive(Clone, Copy)]
struct Cost {
    reach: u128,
    width: u128,
    work: u128,
}

/// How much work the evaluation of a query is counted as: cells made and tests made.
pub fn work(typed: &Typed, given: &Given) -> u128
    ensures { result ≡ work typed.now.query given.now }
{
    query_cost(typed.query.get(), given).work
}

#[cycle(cost)]
fn query_cost(query: &Query, given: &Given) -> Cost
    ensures { result ≡ query_cost given.now query.now }
{
    match query {
        Query::Table(table) => table_cost(given.table(*table).len(), given.width(*table)),
        Query::Select(source, condition) => {
            let source = query_cost(source.get(), given);
            Cost {
                reach: source.reach,
                width: source.width,
                work: each_row(source, pred_work(condition, given)),
            }
        }
        Query::Project(source, items) => {
            let source = query_cost(source.get(), given);
            Cost {
                reach: source.reach,
                width: items.len() as u128,
                work: each_row(source, sizes(0, items.as_slice())),
            }
        }
        Query::Product(members) => {
            product_cost(members.as_slice(), given).unwrap_or(table_cost(1, 0))
        }
        Query::Union(a, b) => {
            let (a, b) = (query_cost(a.get(), given), query_cost(b.get(), given));
            Cost {
                reach: capped_add(a.reach, b.reach),
                width: a.width,
                work: set_work(a, b),
            }
        }
        Query::Except(a, b) | Query::Intersect(a, b) => {
            let (a, b) = (query_cost(a.get(), given), query_cost(b.get(), given));
            Cost {
                reach: a.reach,
                width: a.width,
                work: set_work(a, b),
            }
        }
    }
}

// The cost of a product, and None where it has no members.
#[cycle(cost)]
fn product_cost(members: &[Query], given: &Given) -> Option<Cost>
    ensures { result ≡ product_from None (map (query_cost given.now) members.now) }
{
    let mut front = None;
    for member in members {
        front = Some(after(front, query_cost(member, given)));
    }
    front
}

#[cycle(cost)]
fn pred_work(pred: &Pred, given: &Given) -> u128
    ensures { result ≡ pred_work given.now pred.now }
{
    match pred {
        Pred::Cmp(_, a, b) => capped_add(expr_size(a), expr_size(b)),
        Pred::IsNull(expr) => expr_size(expr),
        Pred::OneOf(expr, items) => sizes(expr_size(expr), items.as_slice()),
        Pred::And(members) | Pred::Or(members) => preds_work(members.as_slice(), given),
        Pred::Not(member) => capped_add(1, pred_work(member.get(), given)),
        Pred::Exists(query) => capped_add(1, query_cost(query.get(), given).work),
        Pred::Member(expr, query) => {
            let query = query_cost(query.get(), given);
            capped_add(capped_add(expr_size(expr), query.work), query.reach)
        }
    }
}

#[cycle(cost)]
fn preds_work(members: &[Pred], given: &Given) -> u128
    ensures { result ≡ sum_from 1 (map (pred_work given.now) members.now) }
{
    let mut work: u128 = 1;
    for member in members {
        work = capped_add(work, pred_work(member, given));
    }
    work
}

fn table_cost(rows: usize, width: usize) -> Cost
    ensures { result ≡ table_cost rows width }
{
    Cost {
        reach: rows as u128,
        width: width as u128,
        work: capped_mul(rows as u128, width as u128),
    }
}

// The work of a query and `work` for each of its rows.
fn each_row(query: Cost, work: u128) -> u128
    ensures { result ≡ each_row query work }
{
    capped_add(query.work, capped_mul(query.reach, work))
}

fn after(front: Option<Cost>, next: Cost) -> Cost
    ensures { result ≡ after front next }
{
    match front {
        None => next,
        Some(front) => joined(front, next),
    }
}

// The cost of the concatenations of two, which are all made.
fn joined(front: Cost, next: Cost) -> Cost
    ensures { result ≡ joined front next }
{
    let reach = capped_mul(front.reach, next.reach);
    let width = capped_add(front.width, next.width);
    Cost {
        reach,
        width,
        work: capped_add(capped_add(front.work, next.work), capped_mul(reach, width)),
    }
}

fn set_work(a: Cost, b: Cost) -> u128
    ensures { result ≡ set_work a b }
{
    let rows = capped_add(a.reach, b.reach);
    capped_add(capped_add(a.work, b.work), capped_mul(rows, a.width))
}

// The size of an expression: one for each of its parts.
#[cycle(size)]
fn expr_size(expr: &Expr) -> u128
    ensures { result ≡ expr_size expr.now }
{
    match expr {
        Expr::Col(_, _) | Expr::Int(_) | Expr::Text(_) | Expr::Null => 1,
        Expr::Sum(terms) => term_sizes(terms.as_slice()),
        Expr::Mul(members) => sizes(1, members.as_slice()),
    }
}

// The sizes of expressions, added to `start`.
#[cycle(size)]
fn sizes(start: u128, items: &[Expr]) -> u128
    ensures { result ≡ sum_from start (map expr_size items.now) }
{
    let mut size = start;
    for item in items {
        size = capped_add(size, expr_size(item));
    }
    size
}

#[cycle(size)]
fn term_sizes(terms: &[Term]) -> u128
    ensures { result ≡ sum_from 1 (map term_size terms.now) }
{
    let mut size: u128 = 1;
    for term in terms {
        size = capped_add(size, expr_size(&term.of));
    }
    size
}
