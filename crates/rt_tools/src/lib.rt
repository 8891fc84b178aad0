//! Two commands that answer further questions than `ratest`: `row`, on one named row, and
//! `grade`, on many candidates. What they answer is found in `rt_row` and `rt_grade`; here are
//! the outcomes of both, their texts, sinks and statuses.

#![tactic(auto)]

pub mod laws;
mod outcome;
mod run;
mod say;

pub use outcome::ToolOutcome;
pub use rt_grade::{Grade, GradeFault, Graded, grades, read_paths};
pub use rt_row::{RowAnswer, RowFault, read_row, row_answer, smallest_row};
pub use run::tool_run;
pub use say::USAGE;
