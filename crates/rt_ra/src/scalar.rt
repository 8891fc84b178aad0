//! Expressions together with their kinds, as tests compare them.

use rt_algebra::Expr;
use rt_schema::ColKind;

/// An expression with its kind.
#[derive(Drop)]
pub struct Scalar {
    pub expr: Expr,
    pub kind: ColKind,
}
