//! The command `ra`, from arguments to the text that is written. The contract of `ra_run` is what
//! the second program guarantees of this command.

ghost use Rattle.std.specs.Prelude.{◌≡◌, ◌⊎◌, List, IsTrue, IfOk, None, Some, Ok, Err};
ghost use Rattle.rt_io.specs.Edge.{NoneFell};
ghost use Rattle.rt_io.specs.Logs.{NoSinkRose, WritesNothing, log};
ghost use Rattle.rt_input.specs.Begun.{AddsSome};
ghost use Rattle.rt_input.specs.Reading.{call};
ghost use Rattle.rt_ra_run.specs.Begun.{Begins, asked_files, asked_reached};
ghost use Rattle.rt_top.specs.Answers.{HasRoom, IfAgree, IfLimit, IfNoMemory, IfReadFault, IfRefused, IfSpent, IfUsage, IfWitness, IfWriteFault};
ghost use Rattle.rt_input.specs.Source.{Text};
ghost use Rattle.rt_ra_run.specs.declared.asked.Asked.{Asked};
ghost use Rattle.rt_ra_run.specs.declared.outcome.RaOutcome.{RaOutcome};
ghost use Rattle.rt_ra_run.specs.Answers.{AgreeRow, IfRefusedText, IfSaid, IfVerdict, IsTextOf, IsUsageOrFault, IsVerdictOrMemory, LimitRow, NoFileRose, ReadFaultRow, RefusedElsewhereRow, RefusedRow, Row, SpentRow, UsageRow, WitnessRow, Writes, WritesAll, WritesPart, WritesUntilFault, YieldsTo};
ghost use Rattle.rt_ra_run.specs.Judged.{ra_judged};
ghost use Rattle.rt_ra_run.specs.Texts.{refusal_text};
ghost use Rattle.rt_ra_run.specs.Words.{IsInRange, ra_command};

use crate::command::{RaCommand, read_command};
use crate::outcome::RaOutcome;
use crate::read::read_asked;
use crate::say::refusal_text;
use crate::verdicts::{RaAnswer, judge};
use rt_input::Outcome;
use rt_io::{Files, Sink, SinkFail, write_at};
use rt_value::{NoMemory, Txt};
use std::alloc::Global;

// The answer where there is no verdict; `most` is the work limit in force.
fn refuse(alloc: Global, most: u64, outcome: RaOutcome) -> Result<RaAnswer, NoMemory>
    ensures same { IfOk result (λ a. a.outcome ≡ outcome) }
    ensures says { IfOk result (λ a. a.text ≡ refusal_text most outcome) }
{
    let text = refusal_text(alloc, most, &outcome)?;
    Ok(RaAnswer { outcome, text })
}

// The answer to a command.
fn answer<F: Files>(alloc: Global, command: &RaCommand, files: &mut F) -> Result<RaAnswer, NoMemory>
    requires range { IsInRange command.now }
    ensures row { IfOk result (λ a. (words : List Text) → ra_command words ≡ Some command.now → Row (call F.Files words files.old files.new) a.outcome) }
    ensures says { IfOk result (λ a. (words : List Text) → ra_command words ≡ Some command.now → IsTextOf (call F.Files words files.old files.new) a.outcome a.text) }
    ensures begun { AddsSome (IsTrue F.tells) (asked_files command.now) (asked_reached command.now (F.held files.old)) (F.begun files.old) (F.begun files.new) }
    ensures has { F.has files.new ≡ F.has files.old }
    ensures held { F.held files.new ≡ F.held files.old }
    ensures rises { NoneFell (F.faults files.old) (F.faults files.new) }
{
    match read_asked(alloc, command, files) {
        Ok(asked) => {
            let said = judge(alloc, &asked);
            drop(asked);
            said
        }
        Err(RaOutcome::Verdict(Outcome::NoMemory)) => Err(NoMemory),
        Err(outcome) => refuse(alloc, command.work_limit, outcome),
    }
}

// The answer to the arguments.
fn prepare<F: Files>(alloc: Global, words: &[Txt], files: &mut F) -> Result<RaAnswer, NoMemory>
    ensures row { IfOk result (λ a. Row (call F.Files words.now files.old files.new) a.outcome) }
    ensures says { IfOk result (λ a. IsTextOf (call F.Files words.now files.old files.new) a.outcome a.text) }
    ensures begun { Begins F.Files (ra_command words.now) files.old files.new }
    ensures has { F.has files.new ≡ F.has files.old }
    ensures held { F.held files.new ≡ F.held files.old }
    ensures rises { NoneFell (F.faults files.old) (F.faults files.new) }
{
    match read_command(alloc, words) {
        Ok(command) => {
            let said = answer(alloc, &command, files);
            drop(command);
            said
        }
        Err(Outcome::NoMemory) => Err(NoMemory),
        Err(outcome) => refuse(alloc, 0, RaOutcome::Verdict(outcome)),
    }
}

// Writes the text of an answer to its sink.
fn speak<O: Sink, E: Sink>(out: &mut O, err: &mut E, answer: RaAnswer) -> RaOutcome
    ensures { Writes (log O.Sink out.old out.new) (log E.Sink err.old err.new) answer.outcome answer.text result }
{
    match write_at(out, err, answer.outcome.place(), answer.text.as_slice()) {
        Ok(()) => answer.outcome,
        Err(SinkFail::Failed) => RaOutcome::Verdict(Outcome::WriteFault),
        Err(SinkFail::NoMemory) => RaOutcome::Verdict(Outcome::NoMemory),
    }
}

/// Reads the files of the command `ra`, decides on its two algebra texts, and writes the verdict to
/// `out`, or to `err` why there is none. `words` are the arguments after the program's name.
pub fn ra_run<F: Files, O: Sink, E: Sink>(
    alloc: Global,
    words: &[Txt],
    files: &mut F,
    out: &mut O,
    err: &mut E,
) -> RaOutcome
    // Only where the two texts agree on all lawful sub-instances of the input.
    ensures agree { IfVerdict result (λ o. IfAgree o (AgreeRow (call F.Files words.now files.old files.new))) }
    // Only where the choice is a smallest counterexample of the two texts.
    ensures witness { IfVerdict result (λ o. IfWitness o (WitnessRow (call F.Files words.now files.old files.new))) }
    // Only where the arguments are no command, and there always.
    ensures usage { IfVerdict result (λ o. IfUsage o (UsageRow (call F.Files words.now files.old files.new))) }
    ensures usage_exact { ra_command words.now ≡ None → IsUsageOrFault result }
    // Only where this is the first refusal, and there always. The place of a syntax error is the
    // start of a token of its text, or the end of the last one.
    ensures refused { IfRefusedText result (RefusedRow (call F.Files words.now files.old files.new)) }
    ensures refused_elsewhere { IfVerdict result (λ o. IfRefused o (RefusedElsewhereRow (call F.Files words.now files.old files.new))) }
    // Only where the budget of the command is spent.
    ensures spent { IfVerdict result (λ o. IfSpent o (SpentRow (call F.Files words.now files.old files.new))) }
    ensures limit { IfVerdict result (λ o. IfLimit o (LimitRow (call F.Files words.now files.old files.new))) }
    ensures exact { IsTrue F.tells → (refusal : RaOutcome) → ra_judged words.now (F.held files.old) ≡ Err refusal → YieldsTo refusal result }
    // Only where the count of that part's file rose in this call.
    ensures read_fault { IfVerdict result (λ o. IfReadFault o (ReadFaultRow (call F.Files words.now files.old files.new))) }
    // Only where the sink of an outcome that its row allows failed in this call.
    ensures write_fault { IfVerdict result (λ o. IfWriteFault o ((allowed : RaOutcome) × WritesUntilFault (call F.Files words.now files.old files.new) (log O.Sink out.old out.new) (log E.Sink err.old err.new) allowed)) }
    // Out of memory may come anywhere; at most a prefix of such a text was written.
    ensures no_memory { let o = log O.Sink out.old out.new in let e = log E.Sink err.old err.new in
        IfVerdict result (λ r. IfNoMemory r (WritesNothing o e ⊎ ((allowed : RaOutcome) × WritesPart (call F.Files words.now files.old files.new) o e allowed))) }
    // The whole text went to its sink, and nothing to the other.
    ensures said { IfSaid result (WritesAll (call F.Files words.now files.old files.new) result (log O.Sink out.old out.new) (log E.Sink err.old err.new)) }
    // An accepted command without a budget, or with one that no search can spend, gets a verdict
    // over files and sinks that don't fail.
    ensures complete { let c = call F.Files words.now files.old files.new in
        IsTrue F.tells → NoFileRose c → NoSinkRose (log O.Sink out.old out.new) (log E.Sink err.old err.new)
        → (asked : Asked) → ra_judged words.now (F.held files.old) ≡ Ok asked → HasRoom asked.input → IsVerdictOrMemory result }
    // The files that are begun are first ones of those that the command names, in the order of the
    // reading, and none comes after the first refusal.
    ensures begun { Begins F.Files (ra_command words.now) files.old files.new }
    ensures has { F.has files.new ≡ F.has files.old }
    ensures held { F.held files.new ≡ F.held files.old }
    ensures rises { NoneFell (F.faults files.old) (F.faults files.new) }
{
    match prepare(alloc, words, files) {
        Ok(answer) => speak(out, err, answer),
        Err(NoMemory) => RaOutcome::Verdict(Outcome::NoMemory),
    }
}
