//! Rows with the nodes of a `Dag` that say at which choices of rows they are there: what an annotated
//! evaluation makes of them. Products and joins, where a condition is true and where it is false, the
//! rows of subqueries that are kept, and answers as maps from rows to nodes.

#![tactic(auto)]

mod ann;
mod copies;
mod difference;
mod gate;
mod join;
mod joint;
mod known;
mod member;
mod rows;
mod side;
mod subquery;

pub use ann::Ann;
pub use difference::differ;
pub use gate::{Junction, TruthLists, TruthNodes, both, constant, either, is_always, is_never};
pub use join::narrowed;
pub use joint::{Joint, meeting, noted_product, row_meeting};
pub use known::Found;
pub use member::among;
pub use rows::{alone, appended, first_place, note, projection, table};
pub use side::Side;
pub use subquery::{Memo, Subquery, found_of, rows_of};
