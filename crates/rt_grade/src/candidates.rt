//! The grades of candidates, file by file in the order of the list. A refused candidate gets a
//! grade; an unread file stops the call.

ghost use Rattle.std.specs.Prelude.{◌≡◌, [], ◌∷◌, ◌++◌, IfOk, IfErr, OnOk};
ghost use Rattle.std.specs.List.{AllZip};
ghost use Rattle.rt_io.specs.Edge.{AddsPrefix, NoneFell, OnlyRises};
ghost use Rattle.rt_input.specs.First.{IsFirst};
ghost use Rattle.rt_input.specs.Steps.{over};
ghost use Rattle.rt_grade.specs.Begun.{FailsLast};
ghost use Rattle.rt_grade.specs.Review.{IsReviewOf};
ghost use Rattle.rt_grade.specs.Candidates.{CandidateStops, CandidatesStop, IsGradeOf};

use crate::grade::Grade;
use crate::grade_fault::GradeFault;
use crate::review::{Review, grade_text};
use rt_input::{First, Outcome, Part, read_text};
use rt_io::{Files, Words};
use rt_value::{List, Txt};
use std::alloc::Global;

// The grade of the candidate in the file of that name.
fn grade_file<F: Files>(
    alloc: Global,
    words: &Words,
    first: &First,
    review: &mut Review,
    path: &Txt,
    files: &mut F,
) -> Result<Grade, GradeFault>
    requires first { IsFirst first.now }
    requires review { IsReviewOf words.now first.now review.old }
    ensures review { IsReviewOf words.now first.now review.new }
    ensures ok { IfOk result (IsGradeOf F.tells (F.held files.old) words.now first.now path.now) }
    ensures err { IfErr result (CandidateStops (over F.Files files.old files.new) path.now) }
    ensures begun { AddsPrefix (F.begun files.old) (F.begun files.new) (path.now ∷ []) }
    ensures begun_ok { OnOk result (F.begun files.new ≡ F.begun files.old ++ path.now ∷ []) }
    ensures last { IfErr result (λ fault. FailsLast fault (F.begun files.old) (F.begun files.new)) }
    ensures has { F.has files.new ≡ F.has files.old }
    ensures held { F.held files.new ≡ F.held files.old }
    ensures rises { OnlyRises path.now (F.faults files.old) (F.faults files.new) }
{
    match read_text(alloc, Part::Query2, path, files) {
        Ok(text) => Ok(grade_text(alloc, words, first, review, text.as_slice())?),
        Err(Outcome::ReadFault(_)) => Err(GradeFault::FileRead(path.copy(alloc)?)),
        Err(Outcome::Limit(_)) => Ok(Grade::TooLong),
        Err(_) => Err(GradeFault::Verdict(Outcome::NoMemory)),
    }
}

// The same of the files of these names, one after another.
fn grade_each<F: Files>(
    alloc: Global,
    words: &Words,
    first: &First,
    review: &mut Review,
    paths: &[Txt],
    files: &mut F,
) -> Result<List<Grade>, GradeFault>
    requires first { IsFirst first.now }
    requires review { IsReviewOf words.now first.now review.old }
    ensures ok { IfOk result (AllZip (IsGradeOf F.tells (F.held files.old) words.now first.now) paths.now) }
    ensures err { IfErr result (CandidatesStop (over F.Files files.old files.new) paths.now) }
    ensures begun { AddsPrefix (F.begun files.old) (F.begun files.new) paths.now }
    ensures last { IfErr result (λ fault. FailsLast fault (F.begun files.old) (F.begun files.new)) }
    ensures has { F.has files.new ≡ F.has files.old }
    ensures held { F.held files.new ≡ F.held files.old }
    ensures rises { NoneFell (F.faults files.old) (F.faults files.new) }
{
    let mut grades = List::new(alloc);
    'paths: for path in paths {
        let grade = grade_file(alloc, words, first, review, path, files)?;
        grades.push(grade)?;
    }
    Ok(grades)
}

/// The grades of the candidates in the files of these names, in order. The reference is prepared
/// once. A query that was decided before isn't decided again, if its grade was kept.
pub(crate) fn grade_files<F: Files>(
    alloc: Global,
    words: &Words,
    first: &First,
    paths: &[Txt],
    files: &mut F,
) -> Result<List<Grade>, GradeFault>
    requires { IsFirst first.now }
    ensures ok { IfOk result (AllZip (IsGradeOf F.tells (F.held files.old) words.now first.now) paths.now) }
    ensures err { IfErr result (CandidatesStop (over F.Files files.old files.new) paths.now) }
    ensures begun { AddsPrefix (F.begun files.old) (F.begun files.new) paths.now }
    ensures last { IfErr result (λ fault. FailsLast fault (F.begun files.old) (F.begun files.new)) }
    ensures has { F.has files.new ≡ F.has files.old }
    ensures held { F.held files.new ≡ F.held files.old }
    ensures rises { NoneFell (F.faults files.old) (F.faults files.new) }
{
    let mut review = Review::new(alloc);
    let grades = grade_each(alloc, words, first, &mut review, paths, files);
    drop(review);
    grades
}
