//! What tests of the top call share: commands and their files in memory, and how a call of them
//! ends.

#![tactic(auto)]

mod call;
mod held;
mod texts;

pub use call::{ends, is_write_fault, status_of, words_end};
pub use held::{FOUR, files, words};
pub use texts::{
    ABC, ALL, LARGE, LOOSE, MARY, ONE, ONES, REG, SCHEMA, SCHOOL, SOME, STUDENT, TABLE, TWOS,
};
