//! The verdict on an input, and the whole of the command `ratest`: what it reads, decides and
//! prints.

#![tactic(auto)]

mod budget;
mod decision;
pub mod laws;
mod top;
mod verdicts;

pub use budget::{GivenUp, given_up};
pub use decision::{decide, decide_between};
pub use rt_input::{
    Input, Outcome, fault_text, read_input, read_tables, read_text, read_words, refusal_line,
};
pub use rt_search::{Best, SpentBest};
pub use top::{USAGE, ratest};
pub use verdicts::{Answer, verdict};
