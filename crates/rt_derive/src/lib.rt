//! The checker of derived clauses: what it accepts follows from the lines before.
//!
//! It shares only `rt_clause` with the solver, so that an answer of the solver rests on these few
//! functions.

#![tactic(auto)]

mod checker;
mod held;
mod store;

pub use checker::Checker;
