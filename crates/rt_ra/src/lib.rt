//! Relational algebra texts over a schema: what they mean, and what they become in the algebra of
//! queries.
//!
//! `specs/Answer.antt` says what a text answers on the rows of the tables, over plain lists;
//! `specs/Lowered.antt` says which query it becomes, or its first error in the walk from the left.
//!
//! An operator works on relations. `specs/Unary.antt`, and `Operators` of `rt_relation` for two
//! operands, say which query and which columns it becomes, or its first error;
//! `specs/OperatorAnswers.antt` has what it answers, over plain lists. `specs/OperatorMeaning.antt`
//! ties the two together: what an operator becomes answers just the rows that it means, and the laws
//! say so of each.

#![tactic(auto)]

mod conditions;
mod crosses;
mod joins;
mod laws;
mod left_joins;
mod names;
mod projections;
mod renaming;
mod resolve;
mod scalar;
mod selections;
mod semijoins;
mod set_operators;
mod table;
mod walk;

pub use laws::{project_law, rename_law, select_law, table_law, two_law};
pub use resolve::resolve_ra;
pub use rt_ra_tree::parse_ra;
pub use rt_relation::{Column, Relation};
