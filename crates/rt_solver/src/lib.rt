//! The incremental solver: propagation, decisions, and a learned clause for each conflict, with
//! every clause handed to lines that check it.
//!
//! A conflict teaches a clause over the first variables and decisions, of whose literals exactly one
//! got its value since the newest decision: the first unique implication point, where all variables
//! are first ones. A literal that others of the analysis imply is left out. The search goes back to
//! the oldest part of the trail before a decision at which the others are false, and this one becomes
//! true there. The variable that was met most in analyses, the latest ones counting for more, is
//! decided next; `Heap` finds it. There are no restarts and no clause is deleted, so that the solver's
//! own clauses are the lines in order. It ends without a budget, by the second law of `laws`; a clause
//! that it counts against a budget is fresh, by the first.

#![tactic(auto)]

mod back;
mod base;
mod decider;
mod deny;
mod explain;
pub mod laws;
mod lead;
mod learn;
mod marks;
mod next;
mod order;
mod propagate;
mod search;
mod solver;
mod turn;
mod walk;

pub use order::Order;
pub use solver::{Found, Solver};
