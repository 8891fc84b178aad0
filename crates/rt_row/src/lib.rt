//! The answer on one row of a command's first query: the smallest lawful sub-instance at which
//! that query alone answers with it. (The smallest witness problem; Miao, Roy and Yang, SIGMOD
//! 2019.)
//!
//! The row is named by its cells as they are printed, with commas between them.

#![tactic(auto)]

mod aim;
mod cell;
mod fault;
pub mod laws;
mod outcome;
mod reader;
mod search;
mod text;
mod verdict;

pub use fault::RowFault;
pub use outcome::{RowAnswer, RowVerdict};
pub use reader::read_row;
pub use search::smallest_row;
pub use verdict::row_answer;
