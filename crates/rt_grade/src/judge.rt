//! The grade of one query, once it is read: first its work, and then the search.

ghost use Rattle.std.specs.Prelude.{◌≡◌, IfOk, IfErr, IfSome, Ok, Some};
ghost use Rattle.rt_algebra.specs.Typed.{IsTypedOf};
ghost use Rattle.rt_input.specs.First.{IsFirst};
ghost use Rattle.rt_input.specs.Judged.{within_limit};
ghost use Rattle.rt_input.specs.Steps.{Refuses};
ghost use Rattle.rt_grade.specs.Grades.{Decides, IsGrade, IsPlacedIn, beside, right_of};
ghost use Rattle.rt_grade.specs.Prepared.{IsPreparedOf};

use crate::grade::Grade;
use crate::prepared::{Prepared, decide_prepared};
use rt_algebra::Typed;
use rt_input::{First, Outcome, Part, Spent, like_left, query_of, work_between};
use rt_io::Words;
use rt_search::Best;
use rt_value::NoMemory;
use std::alloc::Global;

/// The query of a candidate, if its columns are of the same kinds as the reference's.
pub(crate) fn right_of(alloc: Global, first: &First, text: &[u8]) -> Result<Typed, Outcome>
    ensures typed { IfOk result (IsTypedOf first.now.schema) }
    ensures kinds { IfOk result (λ right. right.kinds ≡ first.now.left.kinds) }
    ensures ok { IfOk result (λ right. right_of first.now text.now ≡ Ok right) }
    ensures err { IfErr result (Refuses (right_of first.now text.now)) }
    ensures place { IfErr result (IsPlacedIn text.now) }
{
    let right = query_of(alloc, Part::Query2, &first.schema, text)?;
    like_left(&first.left, right)
}

// The verdict on the reference and a second query.
fn decided(
    alloc: Global,
    words: &Words,
    first: &First,
    prepared: &mut Option<Prepared>,
    right: &Typed,
) -> Result<Grade, NoMemory>
    requires sound { IsFirst first.now }
    requires prepared { IfSome prepared.old (IsPreparedOf first.now) }
    requires right { IsTypedOf first.now.schema right.now }
    ensures grade { IfOk result (Decides (beside words.now first.now right.now)) }
    ensures prepared { IfSome prepared.new (IsPreparedOf first.now) }
{
    let conflicts = words.conflicts;
    match decide_prepared(alloc, first, prepared, right, conflicts)? {
        Best::Never => Ok(Grade::Agree),
        Best::Least(keep) => Ok(Grade::Witness(keep)),
        Best::Spent(found) => match conflicts {
            Some(budget) => Ok(Grade::Undecided(Spent {
                budget,
                best: found.best,
                least: found.least,
                nogoods: found.nogoods,
            })),
            None => unreachable!(),
        },
    }
}

/// The grade of a second query for the reference.
pub(crate) fn grade_query(
    alloc: Global,
    words: &Words,
    first: &First,
    prepared: &mut Option<Prepared>,
    right: &Typed,
) -> Result<Grade, NoMemory>
    requires sound { IsFirst first.now }
    requires prepared { IfSome prepared.old (IsPreparedOf first.now) }
    requires right { IsTypedOf first.now.schema right.now }
    requires kinds { right.now.kinds ≡ first.now.left.kinds }
    ensures grade { IfOk result (IsGrade (within_limit (beside words.now first.now right.now))) }
    ensures prepared { IfSome prepared.new (IsPreparedOf first.now) }
{
    let work = work_between(&first.schema, &first.given, &first.left, right);
    if work > u128::from(words.work_limit) {
        return Ok(Grade::Work(work));
    }
    decided(alloc, words, first, prepared, right)
}
