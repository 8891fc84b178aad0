//! What the grading of one candidate leaves for the next: the prepared reference, and the grades
//! so far.

ghost use Rattle.std.specs.Prelude.{◌≡◌, IfOk};
ghost use Rattle.rt_algebra.specs.Typed.{IsTypedOf};
ghost use Rattle.rt_io.specs.Ranges.{Command};
ghost use Rattle.rt_input.specs.declared.first.First.{First as Before};
ghost use Rattle.rt_input.specs.First.{IsFirst};
ghost use Rattle.rt_input.specs.Judged.{within_limit};
ghost use Rattle.rt_grade.specs.Grades.{IsGrade, IsPlacedIn, beside, candidate_judged, outcome_of};
ghost use Rattle.rt_grade.specs.Review.{IsReviewOf};

use crate::grade::Grade;
use crate::judge::{grade_query, right_of};
use crate::known::{Known, keep, known_grade};
use crate::prepared::Prepared;
use rt_algebra::Typed;
use rt_input::{First, Outcome};
use rt_io::Words;
use rt_value::{List, NoMemory};
use std::alloc::Global;

/// What is known of a reference for the candidates to come: the reference itself, once it is
/// prepared, and the queries that were graded.
#[derive(Drop)]
pub(crate) struct Review {
    prepared: Option<Prepared>,
    known: List<Known>,
}

impl Review {
    /// Nothing yet.
    pub(crate) fn new(alloc: Global) -> Review
        ensures { (words : Command) (first : Before) → IsReviewOf words first result }
    {
        Review {
            prepared: None,
            known: List::new(alloc),
        }
    }

    // The grade of a second query for the reference.
    fn grade(
        &mut self,
        alloc: Global,
        words: &Words,
        first: &First,
        right: Typed,
    ) -> Result<Grade, NoMemory>
        requires sound { IsFirst first.now }
        requires review { IsReviewOf words.now first.now self.old }
        requires right { IsTypedOf first.now.schema right }
        requires kinds { right.kinds ≡ first.now.left.kinds }
        ensures grade { IfOk result (IsGrade (within_limit (beside words.now first.now right))) }
        ensures review { IsReviewOf words.now first.now self.new }
    {
        if let Some(grade) = known_grade(alloc, self.known.as_slice(), right.query.get())? {
            return Ok(grade);
        }
        let grade = grade_query(alloc, words, first, &mut self.prepared, &right)?;
        keep(alloc, &mut self.known, right.into_query(), &grade)?;
        Ok(grade)
    }
}

/// The grade of the candidate that a text is, with the numbers of a command. The reference is
/// prepared for the first candidate that is decided, and stays so for those after it. A query
/// that is the same as one before it has that one's grade.
pub(crate) fn grade_text(
    alloc: Global,
    words: &Words,
    first: &First,
    review: &mut Review,
    text: &[u8],
) -> Result<Grade, NoMemory>
    requires first { IsFirst first.now }
    requires review { IsReviewOf words.now first.now review.old }
    ensures grade { IfOk result (IsGrade (candidate_judged words.now first.now text.now)) }
    // A syntax error names a token of the text, or the end of the last one.
    ensures place { IfOk result (λ grade. IsPlacedIn text.now (outcome_of grade)) }
    ensures review { IsReviewOf words.now first.now review.new }
{
    match right_of(alloc, first, text) {
        Ok(right) => review.grade(alloc, words, first, right),
        Err(Outcome::Refused(part, fault)) => Ok(Grade::Refused(part, fault)),
        Err(_) => Err(NoMemory),
    }
}
