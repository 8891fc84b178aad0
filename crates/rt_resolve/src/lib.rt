//! Names, kinds and bounds of a query, and its lowering to the algebra (ISO/IEC 9075-2, query
//! expression; set semantics).
//!
//! `specs/Chains.antt` says what each part of a query becomes, or its first error.

#![tactic(auto)]

mod chains;
mod lowering;
mod shape;

pub use lowering::resolve;
pub use rt_scope::NameFault;
pub use shape::shapes;
