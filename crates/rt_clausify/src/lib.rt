//! A shared formula as clauses (Tseitin's encoding).
//!
//! Each gate under the goal gets one variable and the clauses of both directions, and the goal is
//! a unit clause. So the clauses have a model over a choice of rows exactly where the goal is
//! true there, and the row variables determine all others.

#![tactic(auto)]

mod write;

pub use write::clausify;
