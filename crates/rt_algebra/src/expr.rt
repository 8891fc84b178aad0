//! The trees of expressions.

use rt_value::{List, Txt};

/// An expression over the rows in scope. The first number of `Col` counts rows outward, the
/// second is the column, both from 0. `Sum` adds its signed members, `Mul` multiplies.
///
/// In a condition within EXISTS, `Col(0, 2)` is the third cell of the subquery's own row, and
/// `Col(1, 2)` that of the row around it.
#[cycle(expr)]
#[derive(Drop)]
pub enum Expr {
    Col(usize, usize),
    Int(i128),
    Text(Txt),
    Null,
    Sum(List<Term>),
    Mul(List<Expr>),
}

/// A member of a sum, with its sign.
#[cycle(expr)]
#[derive(Drop)]
pub struct Term {
    pub minus: bool,
    pub of: Expr,
}
