//! The queries of candidates that were graded before, with the grades that can be kept.

ghost use Rattle.std.specs.Prelude.{IfOk, IfSome};
ghost use Rattle.rt_io.specs.Ranges.{Command};
ghost use Rattle.rt_input.specs.declared.first.First.{First as Before};
ghost use Rattle.rt_grade.specs.Known.{AreKnown, IsQueryGrade};

use crate::grade::Grade;
use crate::small::is_small;
use rt_algebra::{Query, same_query};
use rt_value::{Boxed, List, NoMemory};
use std::alloc::Global;

/// A query with its grade.
#[derive(Drop)]
pub(crate) struct Known {
    query: Boxed<Query>,
    grade: Grade,
}

/// The grade of the first of these queries that is the same as this one.
pub(crate) fn known_grade(
    alloc: Global,
    known: &[Known],
    query: &Query,
) -> Result<Option<Grade>, NoMemory>
    ensures { IfOk result (λ grade. IfSome grade (λ grade. (words : Command) (first : Before) → AreKnown words first known.now → IsQueryGrade words first query.now grade)) }
{
    for before in known {
        if same_query(before.query.get(), query) {
            return before.grade.again(alloc);
        }
    }
    Ok(None)
}

/// Keeps a query and its grade for those after it, unless it is large or its grade has no copy.
pub(crate) fn keep(
    alloc: Global,
    known: &mut List<Known>,
    query: Boxed<Query>,
    grade: &Grade,
) -> Result<(), NoMemory>
    ensures { (words : Command) (first : Before) → AreKnown words first known.old → IsQueryGrade words first query grade.now → AreKnown words first known.new }
{
    if !is_small(query.get()) {
        return Ok(());
    }
    match grade.again(alloc)? {
        None => Ok(()),
        Some(copy) => known.push(Known { query, grade: copy }),
    }
}
