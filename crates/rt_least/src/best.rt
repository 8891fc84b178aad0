//! What a search finds.

use rt_clause::LitList;
use rt_value::{Keep, List};

/// `Least` has the goal's smallest choice: none of fewer rows makes the goal true, nor one of as
/// many that comes before it in the order of rows. `Never` says that the goal is true nowhere.
/// `Spent` has what is known when the budget is spent.
#[derive(Drop)]
pub enum Best {
    Least(Keep),
    Never,
    Spent(SpentBest),
}

/// The best choice so far, if there is one, and whether it is known to have the fewest rows.
/// `nogoods` has as many clauses over the rows as the budget says. Each is true at every choice
/// that makes the goal true and has fewer rows than the best, or at most as many if `least` is
/// true.
#[derive(Drop)]
pub struct SpentBest {
    pub best: Option<Keep>,
    pub least: bool,
    pub nogoods: List<LitList>,
}
