//! The law of a schema as a shared formula: a node that is true at just the choices of rows that
//! are lawful.
//!
//! Rows are grouped by their values in the columns of a key, and a group is one gate, which each
//! further row joins by one more. So the formula has a few gates a row, and takes time near the
//! number of rows. Foreign keys also say which rows can matter to a formula at lawful choices: its
//! cone.

#![tactic(auto)]

mod cells;
mod clauses;
mod closing;
mod cone_of;
mod dependencies;
mod index;
mod links;
mod place_groups;
mod tables;

pub use cone_of::cone;
pub use links::Link;
pub use tables::law;
