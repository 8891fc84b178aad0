//! The texts that are printed of an answer: the rows on which two queries differ, a search that
//! ended at its budget, and the summary of a search over a generated input. Each byte is fixed by
//! `specs/`.

#![tactic(auto)]

mod cells;
mod kept;
mod spent;
mod summary;
mod verdict;
mod witness;

pub use spent::spent_text;
pub use summary::made_text;
pub use verdict::MadeVerdict;
pub use witness::witness_text;
