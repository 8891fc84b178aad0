//! A call that grades: arguments, reference, list, and then each candidate.

ghost use Rattle.std.specs.Prelude.{◌≡◌, IfOk, IfErr, Some};
ghost use Rattle.rt_io.specs.Edge.{NoneFell};
ghost use Rattle.rt_input.specs.Reading.{call};
ghost use Rattle.rt_input.specs.First.{IsFirst};
ghost use Rattle.rt_input.specs.Steps.{over};
ghost use Rattle.rt_grade.specs.Begun.{FailsLast, GradesFor, ListAdds};
ghost use Rattle.rt_grade.specs.GradeWords.{IsSpelled, grade_words};
ghost use Rattle.rt_grade.specs.GradeAnswers.{AreGraded, AreGradedBeside, AreGradedBy, Stops, StopsBeside, StopsOf};

use crate::candidates::grade_files;
use crate::grade::Grade;
use crate::grade_fault::GradeFault;
use crate::grade_words::{GradeWords, grade_words};
use crate::list::read_list;
use rt_input::{First, read_first};
use rt_io::Files;
use rt_value::{List, Txt};
use std::alloc::Global;

/// The paths of a list, and the grade of each.
#[derive(Drop)]
pub struct Graded {
    pub paths: List<Txt>,
    pub grades: List<Grade>,
}

// The grades of the list's candidates, for a reference that is read.
fn grades_beside<F: Files>(
    alloc: Global,
    words: &GradeWords,
    first: &First,
    files: &mut F,
) -> Result<Graded, GradeFault>
    requires { IsFirst first.now }
    ensures ok { IfOk result (AreGradedBeside (over F.Files files.old files.new) words.now first.now) }
    ensures err { IfErr result (StopsBeside (over F.Files files.old files.new) words.now) }
    ensures begun { ListAdds F.tells words.now (F.held files.old) (F.begun files.old) (F.begun files.new) }
    ensures last { IfErr result (λ fault. FailsLast fault (F.begun files.old) (F.begun files.new)) }
    ensures has { F.has files.new ≡ F.has files.old }
    ensures held { F.held files.new ≡ F.held files.old }
    ensures rises { NoneFell (F.faults files.old) (F.faults files.new) }
{
    let paths = read_list(alloc, &words.list, files)?;
    let grades = grade_files(alloc, &words.command, first, paths.as_slice(), files)?;
    Ok(Graded { paths, grades })
}

// The grades for arguments that are read.
fn grades_of<F: Files>(
    alloc: Global,
    words: &GradeWords,
    files: &mut F,
) -> Result<Graded, GradeFault>
    requires { IsSpelled words.now }
    ensures ok { IfOk result (λ graded. AreGradedBy (over F.Files files.old files.new) graded words.now) }
    ensures err { IfErr result (λ fault. StopsOf (over F.Files files.old files.new) fault words.now) }
    ensures begun { GradesFor F.tells (F.held files.old) (Some words.now) (F.begun files.old) (F.begun files.new) }
    ensures last { IfErr result (λ fault. FailsLast fault (F.begun files.old) (F.begun files.new)) }
    ensures has { F.has files.new ≡ F.has files.old }
    ensures held { F.held files.new ≡ F.held files.old }
    ensures rises { NoneFell (F.faults files.old) (F.faults files.new) }
{
    match read_first(alloc, &words.command, files) {
        Ok(first) => {
            let graded = grades_beside(alloc, words, &first, files);
            drop(first);
            graded
        }
        Err(outcome) => Err(GradeFault::Verdict(outcome)),
    }
}

/// The grades of the candidates of a list, in its order, or why there are none. `words` are the
/// arguments after `grade`.
pub fn grades<F: Files>(alloc: Global, words: &[Txt], files: &mut F) -> Result<Graded, GradeFault>
    ensures ok { IfOk result (AreGraded (call F.Files words.now files.old files.new)) }
    ensures err { IfErr result (Stops (call F.Files words.now files.old files.new)) }
    // The files that are begun are first ones of those that the arguments name, in the order of
    // the reading, and none after the first refusal.
    ensures begun { GradesFor F.tells (F.held files.old) (grade_words words.now) (F.begun files.old) (F.begun files.new) }
    // The file that could not be read is the last of them.
    ensures last { IfErr result (λ fault. FailsLast fault (F.begun files.old) (F.begun files.new)) }
    ensures has { F.has files.new ≡ F.has files.old }
    ensures held { F.held files.new ≡ F.held files.old }
    ensures rises { NoneFell (F.faults files.old) (F.faults files.new) }
{
    match grade_words(alloc, words) {
        Ok(words) => grades_of(alloc, &words, files),
        Err(outcome) => Err(GradeFault::Verdict(outcome)),
    }
}
