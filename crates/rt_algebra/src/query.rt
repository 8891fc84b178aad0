//! The trees of queries and conditions, which hold one another.

use crate::expr::Expr;
use rt_value::{Boxed, List, Op};

/// A query. Tables are named by their numbers; a condition and the items of a projection see the
/// row at hand as the innermost row in scope.
#[cycle(query)]
#[derive(Drop)]
pub enum Query {
    Table(usize),
    Select(Boxed<Query>, Pred),
    Project(Boxed<Query>, List<Expr>),
    Product(List<Query>),
    Union(Boxed<Query>, Boxed<Query>),
    Except(Boxed<Query>, Boxed<Query>),
    Intersect(Boxed<Query>, Boxed<Query>),
}

/// A condition. `OneOf` is IN with a list, `Member` is IN with a query.
#[cycle(query)]
#[derive(Drop)]
pub enum Pred {
    Cmp(Op, Expr, Expr),
    IsNull(Expr),
    OneOf(Expr, List<Expr>),
    And(List<Pred>),
    Or(List<Pred>),
    Not(Boxed<Pred>),
    Exists(Boxed<Query>),
    Member(Expr, Boxed<Query>),
}
