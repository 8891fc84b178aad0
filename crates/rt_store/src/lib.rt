//! What a search of the solver keeps: its copies of the clauses and the lists of their watches, the
//! trail, and the heap of variables.

#![tactic(auto)]

mod clause;
mod entry;
mod heap;
mod packed;
mod places;
mod rank;
mod short;
mod sift;
mod status;
mod trail;
mod watch;
mod watches;

pub use clause::Clause;
pub use entry::Entry;
pub use heap::Heap;
pub use trail::{Step, Trail, Why};
pub use watch::Watch;
pub use watches::Watches;
