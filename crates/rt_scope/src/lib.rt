//! Names in scope, and the parts of a query that need no subquery. These are expressions,
//! comparisons, select items, tables, set operators, the sources of a SELECT, and conditions
//! (ISO/IEC 9075-2, column reference, table reference, query expression, from clause, search
//! condition).
//!
//! `specs/` says which column a name means, and what each part becomes in the algebra where its own
//! parts are known, or which error it has.

#![tactic(auto)]

mod block;
mod column;
mod compare;
mod condition;
mod fault;
mod from;
mod lookup;
mod relation;
mod scalar;
mod select;
mod set;
mod source;
mod sources;
mod sums;
mod table;

pub use block::select_of;
pub use column::Column;
pub use compare::negated;
pub use condition::{
    Members, between_test, boxed_sum, comparison, list_test, member, null_test, one_more, only,
};
pub use fault::NameFault;
pub use from::{FromClause, inner, no_sources, visible, with_base, with_cond};
pub use relation::{Relation, TableRef, typed_of};
pub use scalar::Scalar;
pub use select::{SelectList, select_list};
pub use set::{intersected, united};
pub use source::Source;
pub use sources::Sources;
pub use table::{alias_or, table_named};
