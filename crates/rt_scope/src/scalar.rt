//! Expressions together with their types.

use rt_algebra::Expr;
use rt_schema::ColKind;

/// An expression with its kind, which NULL lacks, and the size that its whole numbers do not pass.
#[derive(Drop)]
pub struct Scalar {
    pub expr: Expr,
    pub kind: Option<ColKind>,
    pub bound: u128,
}
