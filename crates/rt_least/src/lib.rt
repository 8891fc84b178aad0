//! The rounds of a search for the least choice of rows at which a formula is true, the first in order
//! of rows, over a solver that has the formula's clauses and a counter of the kept rows.

#![tactic(auto)]

mod alone;
mod ask;
mod best;
mod both;
mod by_rows;
mod choice;
mod first;
mod in_order;
mod lowering;
mod none_kept;
mod others;
mod shrinking;
mod tries;
mod widened;

pub use best::{Best, SpentBest};
pub use choice::rows_of;
pub use lowering::lower;
pub use shrinking::smaller;
pub use tries::attempt;
