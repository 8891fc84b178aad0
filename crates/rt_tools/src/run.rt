//! The command of the two tools, whole: its contract is the promise of `row` and `grade`.

ghost use Rattle.std.specs.Prelude.{◌≡◌, ◌⊎◌, IfOk};
ghost use Rattle.rt_io.specs.Edge.{NoneFell};
ghost use Rattle.rt_io.specs.Logs.{IsKept, NoSinkRose, at_place, log, other_place};
ghost use Rattle.rt_writing.specs.Writing.{Writes, WritesTo};
ghost use Rattle.rt_input.specs.Begun.{BeganFor, BeginsFor};
ghost use Rattle.rt_input.specs.Reading.{call};
ghost use Rattle.rt_io.specs.Command.{command};
ghost use Rattle.rt_tools.specs.Answers.{Ends, SaysGrade, SaysRow, SaysVerdict, in_tools};
ghost use Rattle.rt_grade.specs.Begun.{GradesFor};
ghost use Rattle.rt_tools.specs.Begun.{Begins, OnRow, Opens};
ghost use Rattle.rt_grade.specs.GradeWords.{grade_words};
ghost use Rattle.rt_tools.specs.Judged.{HasRoomFor, IsAsJudged, IsNoFault, IsToldTool, IsUsageOrFault, NoNamedRose, refusal_of};
ghost use Rattle.rt_tools.specs.Texts.{place};
ghost use Rattle.rt_tools.specs.Words.{IsUsage, tool_of};
ghost use Rattle.rt_tools.specs.declared.outcome.ToolOutcome.{ToolOutcome};

use crate::outcome::ToolOutcome;
use crate::say::{USAGE, fault_line, grades_text};
use rt_grade::{GradeFault, grades};
use rt_input::{Outcome, stopped_text};
use rt_io::{Files, Sink, SinkFail, write_at};
use rt_row::row_answer;
use rt_value::{Bytes, List, NoMemory, Txt};
use std::alloc::Global;

// An outcome and its text.
#[derive(Drop)]
struct ToolAnswer {
    outcome: ToolOutcome,
    text: Bytes,
}

// The answer of a tool that has none of its own. `words` are the arguments of the command of
// `ratest`.
fn stopped(alloc: Global, words: &[Txt], outcome: Outcome) -> Result<ToolAnswer, NoMemory>
    ensures { IfOk result (λ a. SaysVerdict words.now outcome a.outcome a.text) }
{
    match outcome {
        Outcome::NoMemory => Err(NoMemory),
        outcome => {
            let text = stopped_text(alloc, USAGE, words, &outcome)?;
            let outcome = ToolOutcome::Verdict(outcome);
            Ok(ToolAnswer { outcome, text })
        }
    }
}

fn row_tool<F: Files>(
    alloc: Global,
    row: &Txt,
    words: &[Txt],
    files: &mut F,
) -> Result<ToolAnswer, NoMemory>
    ensures says { IfOk result (λ a. SaysRow (call F.Files words.now files.old files.new) row.now a.outcome a.text) }
    ensures begun { BeginsFor F.tells (F.held files.old) (command words.now) (F.begun files.old) (F.begun files.new) }
    ensures opened { IfOk result (λ a. OnRow a.outcome (BeganFor F.tells (F.held files.old) (command words.now) (F.begun files.old) (F.begun files.new))) }
    ensures has { F.has files.new ≡ F.has files.old }
    ensures held { F.held files.new ≡ F.held files.old }
    ensures rises { NoneFell (F.faults files.old) (F.faults files.new) }
{
    match row_answer(alloc, row, words, files) {
        Ok(answer) => Ok(ToolAnswer {
            outcome: ToolOutcome::from(answer.verdict),
            text: answer.text,
        }),
        Err(outcome) => stopped(alloc, words, outcome),
    }
}

fn grade_tool<F: Files>(alloc: Global, words: &[Txt], files: &mut F) -> Result<ToolAnswer, NoMemory>
    ensures says { IfOk result (λ a. SaysGrade (call F.Files words.now files.old files.new) a.outcome a.text) }
    ensures begun { GradesFor F.tells (F.held files.old) (grade_words words.now) (F.begun files.old) (F.begun files.new) }
    ensures opened { IfOk result (λ a. OnRow a.outcome ⊥) }
    ensures has { F.has files.new ≡ F.has files.old }
    ensures held { F.held files.new ≡ F.held files.old }
    ensures rises { NoneFell (F.faults files.old) (F.faults files.new) }
{
    match grades(alloc, words, files) {
        Ok(graded) => {
            let text = grades_text(alloc, graded.paths.as_slice(), graded.grades.as_slice())?;
            let outcome = ToolOutcome::Grades(graded.grades);
            Ok(ToolAnswer { outcome, text })
        }
        Err(GradeFault::Verdict(outcome)) => stopped(alloc, words, outcome),
        Err(fault) => {
            let text = fault_line(alloc, &fault)?;
            let outcome = ToolOutcome::from(fault);
            Ok(ToolAnswer { outcome, text })
        }
    }
}

// The answer to the arguments of a tool.
fn prepare<F: Files>(alloc: Global, words: &[Txt], files: &mut F) -> Result<ToolAnswer, NoMemory>
    ensures ends { IfOk result (λ a. Ends (call F.Files words.now files.old files.new) a.outcome a.text) }
    ensures begun { Begins F.Files (tool_of words.now) files.old files.new }
    ensures opened { IfOk result (λ a. Opens F.Files (tool_of words.now) a.outcome files.old files.new) }
    ensures has { F.has files.new ≡ F.has files.old }
    ensures held { F.held files.new ≡ F.held files.old }
    ensures rises { NoneFell (F.faults files.old) (F.faults files.new) }
{
    match words {
        [tool, row, args @ ..] if tool.as_str() == "row" => row_tool(alloc, row, args, files),
        [tool, args @ ..] if tool.as_str() == "grade" => grade_tool(alloc, args, files),
        _ => {
            let text = List::from_slice(alloc, USAGE.as_bytes())?;
            let outcome = ToolOutcome::Verdict(Outcome::Usage);
            Ok(ToolAnswer { outcome, text })
        }
    }
}

// Writes the text of an answer to its sink.
fn speak<O: Sink, E: Sink>(out: &mut O, err: &mut E, answer: ToolAnswer) -> ToolOutcome
    ensures ends { WritesTo in_tools (at_place (place answer.outcome) (log O.Sink out.old out.new) (log E.Sink err.old err.new)) answer.outcome answer.text result }
    ensures kept { IsKept (other_place (place answer.outcome) (log O.Sink out.old out.new) (log E.Sink err.old err.new)) }
{
    match write_at(out, err, answer.outcome.place(), answer.text.as_slice()) {
        Ok(()) => answer.outcome,
        Err(SinkFail::Failed) => ToolOutcome::Verdict(Outcome::WriteFault),
        Err(SinkFail::NoMemory) => ToolOutcome::Verdict(Outcome::NoMemory),
    }
}

/// The answer on one named row, or the grades of many candidates. It reads the files that the
/// arguments name. What is found goes to `out`, or to `err` why there is nothing. `words` are the
/// arguments from `row` or `grade` on.
pub fn tool_run<F: Files, O: Sink, E: Sink>(
    alloc: Global,
    words: &[Txt],
    files: &mut F,
    out: &mut O,
    err: &mut E,
) -> ToolOutcome
    // Each outcome comes only where it may; its whole text went to its sink, and nothing to the
    // other. The error of writing comes only if the sink of an outcome that may come failed in this
    // call. Out of memory may come anywhere; at most a prefix of such a text was written.
    ensures writes { Writes in_tools (Ends (call F.Files words.now files.old files.new)) (log O.Sink out.old out.new) (log E.Sink err.old err.new) result }
    // A refusal comes exactly if it is the first, and an answer only if there is none.
    ensures exact { let c = call F.Files words.now files.old files.new in IsToldTool c (tool_of words.now) → IsAsJudged (refusal_of (tool_of words.now) (F.held files.old)) result }
    // The usage text comes exactly for arguments that are those of no tool.
    ensures usage_exact { IsUsage (tool_of words.now) → IsUsageOrFault result }
    // If no file that the tool names fails, and no sink, the answer comes or the first refusal.
    // For a row, that is without a budget that a search can spend.
    ensures complete { let c = call F.Files words.now files.old files.new in
        NoNamedRose c (tool_of words.now) → NoSinkRose (log O.Sink out.old out.new) (log E.Sink err.old err.new) → HasRoomFor c (tool_of words.now) → IsNoFault result }
    // The files that are begun are first ones of those that the tool names, in the order of the
    // reading, and none after the first refusal.
    ensures begun { Begins F.Files (tool_of words.now) files.old files.new }
    // An answer on a row comes only after all files of the command were begun.
    ensures opened { Opens F.Files (tool_of words.now) result files.old files.new }
    ensures has { F.has files.new ≡ F.has files.old }
    ensures held { F.held files.new ≡ F.held files.old }
    ensures rises { NoneFell (F.faults files.old) (F.faults files.new) }
{
    match prepare(alloc, words, files) {
        Ok(answer) => speak(out, err, answer),
        Err(NoMemory) => ToolOutcome::Verdict(Outcome::NoMemory),
    }
}
