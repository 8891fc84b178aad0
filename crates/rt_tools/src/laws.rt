//! That a list of candidates has one text, as the contract of a function.

ghost use Rattle.rt_tools.specs.OneGrading.{HasOneGradingText};

/// Two calls of `grade` on the same arguments and contents give the same grades and text, where
/// none of their grades is undecided or names the place of a syntax error.
pub fn grading_text_is_one()
    ensures { HasOneGradingText }
{}
