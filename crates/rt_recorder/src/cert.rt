//! A certificate as it is read and written: what is claimed, and the steps that prove it.

use rt_clause::LitList;
use rt_value::List;

/// A clause, and the numbers of the lines by which it follows from those before it (a line of an
/// LRAT proof). The numbers count from 0, in the order of their use.
#[derive(Drop)]
pub struct Step {
    pub lits: LitList,
    pub hints: List<u64>,
}

/// What is claimed to be least: the kept places of a smallest witness, counted from 0 and rising,
/// or none where two queries agree. The steps go on from `added` given lines and lead to a
/// refutation of what is smaller.
#[derive(Drop)]
pub struct Cert {
    pub keep: Option<List<u64>>,
    pub added: u64,
    pub steps: List<Step>,
}
