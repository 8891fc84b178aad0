//! Counting rows by clauses (a totalizer; Bailleux and Boufkhad, "Efficient CNF encoding of Boolean
//! cardinality constraints", 2003).
//!
//! Over a range of rows there is a cell for each number of rows up to a bound: a literal that is true
//! exactly where at least so many of these rows are kept. The cells of two neighbouring ranges are
//! merged to those of both, with one variable a cell. The rows are cut into blocks. Each block is
//! merged as a balanced tree, and then to the cells of all rows before it. The cells of all rows are
//! the outputs.

#![tactic(auto)]

mod blocks;
mod cells;
mod clauses;
mod counter;
mod merge;

pub use counter::{Outputs, count, count_among};
