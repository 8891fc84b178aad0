//! The grades of many candidates against one reference.
//!
//! The grade of a candidate is what `ratest` says of the reference and the candidate over the
//! same rows. The grades of many are those of a schema, its rows, a reference and a list of
//! candidates' files.

#![tactic(auto)]

mod beside;
mod candidates;
mod grade;
mod grade_fault;
mod grade_run;
mod grade_words;
mod judge;
mod known;
pub mod laws;
mod list;
mod paths;
mod paths_fault;
mod prepared;
mod review;
mod small;

pub use grade::Grade;
pub use grade_fault::GradeFault;
pub use grade_run::{Graded, grades};
pub use paths::read_paths;
