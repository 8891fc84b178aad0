//! The algebra of queries: what a query means, which queries are typed over the tables of a
//! schema, and how much work a query is counted as.
//!
//! Meaning follows SQL under set semantics (ISO/IEC 9075-2, query expression); `specs/` has it.
//!
//! Questions about queries wherever they come from are answered here too: whether two are the same,
//! part for part, and whether one names a row outside of it. So is what SQL and relational algebra
//! share on their way here: columns, set operators, and lists of parts.

#![tactic(auto)]

mod alone;
mod closed;
mod column;
mod column_types;
mod cost;
mod evaluate;
mod expr;
mod laws;
mod parts;
mod predicate;
mod query;
mod same;
mod set_op;
mod table;
mod typed;
mod united;

pub use closed::query_is_closed;
pub use column::Column;
pub use column_types::typed_of;
pub use cost::work;
pub use evaluate::{row, scope, value};
pub use expr::{Expr, Term};
pub use laws::{stays_bounded, wrapped_is_exact};
pub use parts::{all_of, any_of, product_of, selected};
pub use predicate::{cell_truth, one_of_truth};
pub use query::{Pred, Query};
pub use same::same_query;
pub use set_op::{SetOp, combined};
pub use table::table_columns;
pub use typed::Typed;
pub use united::{same_kinds, widened};
