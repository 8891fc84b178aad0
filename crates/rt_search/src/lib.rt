//! The search for the least choice of rows at which a formula is true, the first in order of rows.
//!
//! One solver is kept from round to round. The formula is encoded once, with a clause for each row
//! that cannot matter. The first model is made smaller by leaving rows out. Then a counter of the
//! kept rows is added, up to one more than that model's size.
//!
//! Each further round assumes that no more rows are kept than in the best choice so far. It asks
//! whether there is any other such choice; if so, whether there is one of fewer rows. When there
//! is none of fewer, each further question asks for one that keeps an earlier row: one of some
//! rows that the best leaves out. What is learned for one question serves those after it.
//!
//! Within a budget each round assumes that fewer rows are kept, and the order is asked about row
//! by row, so that what was learned holds at every choice of as few rows.
//!
//! That there is no further choice counts only as the checker of the lines says so.

#![tactic(auto)]

mod encode;
mod search;

pub use rt_least::{Best, SpentBest};
pub use search::{Searched, smallest, smallest_counted};
