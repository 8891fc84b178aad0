//! The tests of the commands of the second program: one named row, the grades of many candidates,
//! and certificates. Those on algebra texts alone are in `rt_answer_cases`.
//!
//! They are a crate of their own, since a crate with tests is proved twice.

#![tactic(auto)]

#[cfg(test)]
mod calls;
#[cfg(test)]
mod cert_changed;
#[cfg(test)]
mod cert_held;
#[cfg(test)]
mod cert_refused;
#[cfg(test)]
mod cert_written;
#[cfg(test)]
mod five;
#[cfg(test)]
mod grades;
#[cfg(test)]
mod held;
#[cfg(test)]
mod least;
#[cfg(test)]
mod row_texts;
#[cfg(test)]
mod rows;
