//! Literals, clauses, and what holds lists of clauses.
//!
//! The solver and the checker of its answers share the definitions of this crate's `specs/`. They
//! say when a set of literals is closed under unit propagation, and when a clause is fresh. They
//! say when a clause follows by unit propagation along hints (reverse unit propagation, as in
//! LRAT proofs), and when some variables determine others.

#![tactic(auto)]

mod clauses;
mod deed;
mod denial;
mod gates;
mod lines;
mod lit;
mod named;
mod places;
mod start;
mod thin;

pub use clauses::Clauses;
pub use denial::Denial;
pub use gates::gate;
pub use lines::{Adds, Lines};
pub use lit::{Lit, LitList, MOST_VARIABLES};
pub use named::Named;
pub use thin::ThinClause;
