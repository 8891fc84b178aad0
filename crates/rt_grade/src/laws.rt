//! That a list of candidates has one answer, as the contract of a function.

ghost use Rattle.rt_grade.specs.OneGrading.{HasOneGrading};

/// Some arguments spell the call on each candidate alone. Two calls on the same arguments and
/// contents that both end in grades have the same paths, and two grades of one candidate, neither
/// of them undecided, are the same but for the place of a syntax error.
pub fn grading_is_one()
    ensures { HasOneGrading }
{}
