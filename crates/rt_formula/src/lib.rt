//! Shared formulas over row variables.
//!
//! A `Dag` holds one entry for each formula that was asked for, and no two equal ones. A node is
//! the number of its entry, and every entry is over older nodes. So each formula has a value at
//! every choice of rows, which never changes as entries are added.

#![tactic(auto)]

mod dag;
mod entry;
mod gather;
mod groups;
pub mod laws;
mod marks;
mod node_set;
mod noted;
mod runs;
mod values;

pub use dag::Dag;
pub use entry::{Entry, Kids, Node};
pub use groups::Groups;
pub use marks::{rows_under, under};
pub use noted::Noted;
