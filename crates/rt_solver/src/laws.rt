//! The two laws on trails on which the search rests, each the contract of a function.

ghost use Rattle.rt_solver.specs.Laws.{LearnedIsFresh, NumberGrows};

/// A clause learned after a decision is fresh: the lines do not give it by propagation.
pub fn learned_is_fresh()
    ensures { LearnedIsFresh }
{}

/// The number of a trail grows with each learned clause, so that a search ends.
pub fn number_grows()
    ensures { NumberGrows }
{}
