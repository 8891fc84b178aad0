//! Plain evaluation: the answer of a query on the kept rows, computed row by row. What an answer is
//! is defined in rt_algebra (`specs/Answer.antt`).

#![tactic(auto)]

mod answer;
mod condition;
mod items;
mod join;
mod kept;
mod lists;
mod narrow;
mod pairs;
mod query;
mod rows;

pub use answer::answers;
pub use rows::Rows;
