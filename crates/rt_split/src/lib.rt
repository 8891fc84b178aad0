//! Conditions over the members of a product, taken apart: what each member's own rows have to meet,
//! by which columns two members are joined, and the rows of a member that match a row before it. And
//! what of a condition the rows in scope alone decide.

#![tactic(auto)]

mod comparison;
mod conjuncts;
mod index;
mod matching;
mod moved;
mod parts;
mod probe;
mod refused;
mod simple;

pub use comparison::compared;
pub use conjuncts::split;
pub use matching::matches;
pub use parts::{KeyPair, Split};
pub use probe::Probe;
pub use refused::is_refused;
pub use simple::all_true;
