//! The answer of a search over the generated input, as far as it is printed.

/// How the search over a generated input ended.
#[derive(Clone, Copy, PartialEq, Eq, Debug)]
pub enum MadeVerdict {
    /// The two queries agree on all lawful choices of rows.
    Agree,
    /// The number of rows of a smallest witness.
    Size(usize),
    /// The budget of conflicts that was spent.
    Undecided(u64),
}
