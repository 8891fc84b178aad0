//! From the arguments and files of a command to an accepted input, or to the outcome that stops
//! the reading. Also the text of each outcome that is no verdict.

#![tactic(auto)]

mod faults;
mod first;
mod input;
mod outcome;
mod part;
mod place;
mod query;
mod read;
mod say;
mod source;
mod stopped;
mod tables;
mod text;

pub use first::{First, read_first};
pub use input::Input;
pub use outcome::{Fault, Limit, Outcome, Spent};
pub use part::{Part, QueryPart};
pub use query::{like_left, query_of};
pub use read::{read_input, read_words, within_limit, work_between};
pub use say::{fault_text, lex_text, part_text, refusal_line};
pub use stopped::stopped_text;
pub use tables::{Tables, read_tables};
pub use text::{read_text, without_mark};
