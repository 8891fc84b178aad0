//! The command `ratest`, whole: its contract is the promise of the program. It reads, decides,
//! and then writes once.

ghost use Rattle.std.specs.Prelude.{◌≡◌, ◌⊎◌, false, None, IfOk, Ok, Err};
ghost use Rattle.rt_io.specs.Edge.{NoneFell};
ghost use Rattle.rt_io.specs.Command.{command};
ghost use Rattle.rt_io.specs.Gave.{Adds};
ghost use Rattle.rt_input.specs.Judged.{judged};
ghost use Rattle.rt_input.specs.Accepted.{Accepted};
ghost use Rattle.rt_io.specs.Logs.{log, NoSinkRose, WritesNothing};
ghost use Rattle.rt_input.specs.Begun.{BeganFor, Begins, EndsFor};
ghost use Rattle.rt_input.specs.Reading.{call, limit_of, IsTold, IsMadeCall, UsageRow, RefusedRow, LimitRow, ReadFaultRow};
ghost use Rattle.rt_top.specs.Answers.{OnVerdict, Row, AgreeRow, WitnessRow, SpentRow, HasRoom, IfAgree, IfWitness, IfUsage, IfRefused, IfSpent, IfLimit, IfReadFault, IfWriteFault, IfNoMemory, IfText, YieldsTo, YieldsToWrite, IsVerdictOrMemory, NoFileRose, IsTextOf, Writes, WritesAll, WritesPart, WritesUntilFault};
ghost use Rattle.rt_input.specs.Steps.{is_memory};
ghost use Rattle.rt_top.specs.Texts.{refusal_text};
ghost use Rattle.rt_input.specs.declared.outcome.Outcome.{Outcome};
ghost use Rattle.rt_input.specs.declared.outcome.Outcome.TheVariants as outcome;

use crate::verdicts::{Answer, verdict};
use rt_input::{Outcome, read_input, stopped_text};
use rt_io::{Files, Sink, SinkFail, write_at};
use rt_value::{Bytes, NoMemory, Txt};
use std::alloc::Global;

/// The text for arguments that are no command.
pub const USAGE: &str =
    "usage: ratest SCHEMA DATADIR QUERY1 QUERY2 [--conflicts N] [--work N]\n       ratest made N [--conflicts N] [--work N]\n";

// The text of what stopped the reading; none if that was out of memory.
fn said(alloc: Global, words: &[Txt], outcome: &Outcome) -> Result<Bytes, NoMemory>
    ensures stopped { IfOk result (λ text. is_memory outcome.now ≡ false) }
    ensures text { IfOk result (λ text. text ≡ refusal_text (limit_of (command words.now)) outcome.now) }
{
    if outcome.is_memory() {
        Err(NoMemory)
    } else {
        stopped_text(alloc, USAGE, words, outcome)
    }
}

// The answer for what stopped the reading.
fn refused(alloc: Global, words: &[Txt], outcome: Outcome) -> Result<Answer, NoMemory>
    ensures stopped { IfOk result (λ a. is_memory outcome ≡ false) }
    ensures outcome { IfOk result (λ a. a.outcome ≡ outcome) }
    ensures text { IfOk result (λ a. a.text ≡ refusal_text (limit_of (command words.now)) outcome) }
{
    match said(alloc, words, &outcome) {
        Ok(text) => Ok(Answer { outcome, text }),
        Err(NoMemory) => {
            drop(outcome);
            Err(NoMemory)
        }
    }
}

// The answer to a command: a verdict, or why there is none.
fn prepare<F: Files>(alloc: Global, words: &[Txt], files: &mut F) -> Result<Answer, NoMemory>
    ensures row { IfOk result (λ a. Row (call F.Files words.now files.old files.new) a.outcome) }
    ensures says { IfOk result (λ a. IsTextOf (call F.Files words.now files.old files.new) a.outcome a.text) }
    ensures adds { Adds (F.gave files.old) (F.gave files.new) }
    ensures begun { Begins F.Files (command words.now) files.old files.new }
    ensures opened { IfOk result (λ a. OnVerdict a.outcome (BeganFor F.tells (F.held files.old) (command words.now) (F.begun files.old) (F.begun files.new))) }
    ensures last { IfOk result (λ a. EndsFor (command words.now) a.outcome (F.begun files.old) (F.begun files.new)) }
    ensures made { IsMadeCall (command words.now) → files.new ≡ files.old }
    ensures has { F.has files.new ≡ F.has files.old }
    ensures held { F.held files.new ≡ F.held files.old }
    ensures rises { NoneFell (F.faults files.old) (F.faults files.new) }
{
    match read_input(alloc, words, files) {
        Ok(input) => {
            let answer = verdict(alloc, &input);
            drop(input);
            answer
        }
        Err(outcome) => refused(alloc, words, outcome),
    }
}

// Writes the text of an answer to its sink.
fn speak<O: Sink, E: Sink>(out: &mut O, err: &mut E, answer: Answer) -> Outcome
    ensures { Writes (log O.Sink out.old out.new) (log E.Sink err.old err.new) answer.outcome answer.text result }
{
    let Answer { outcome, text } = answer;
    let written = write_at(out, err, outcome.place(), text.as_slice());
    drop(text);
    match written {
        Ok(()) => outcome,
        Err(fail) => {
            drop(outcome);
            match fail {
                SinkFail::Failed => Outcome::WriteFault,
                SinkFail::NoMemory => Outcome::NoMemory,
            }
        }
    }
}

/// Reads the files of a command, decides on the input, and writes the verdict to `out`, or to
/// `err` why there is none. `words` are the arguments of the program, without its name. Nothing
/// is written before the answer is known.
pub fn ratest<F: Files, O: Sink, E: Sink>(
    alloc: Global,
    words: &[Txt],
    files: &mut F,
    out: &mut O,
    err: &mut E,
) -> Outcome
    // Only if the queries agree on all lawful sub-instances of the input.
    ensures agree { IfAgree result (AgreeRow (call F.Files words.now files.old files.new)) }
    // Only if the choice is a smallest counterexample of the input.
    ensures witness { IfWitness result (WitnessRow (call F.Files words.now files.old files.new)) }
    // Only for arguments that are no command, and for those always.
    ensures usage { IfUsage result (UsageRow (call F.Files words.now files.old files.new)) }
    ensures usage_exact { command words.now ≡ None → YieldsToWrite outcome.Usage result }
    // Only if this is the first refusal, and then always. A syntax error names a token of its
    // text, or the end of the last one.
    ensures refused { IfRefused result (RefusedRow (call F.Files words.now files.old files.new)) }
    // Only if the budget of the command is spent.
    ensures spent { IfSpent result (SpentRow (call F.Files words.now files.old files.new)) }
    ensures limit { IfLimit result (LimitRow (call F.Files words.now files.old files.new)) }
    ensures exact { IsTold (call F.Files words.now files.old files.new) → (refusal : Outcome) → judged words.now (F.held files.old) ≡ Err refusal → YieldsTo refusal result }
    // Only if the count of that part's file rose in this call.
    ensures read_fault { IfReadFault result (ReadFaultRow (call F.Files words.now files.old files.new)) }
    // Only if the sink of an outcome that its row allows failed in this call.
    ensures write_fault { IfWriteFault result ((allowed : Outcome) × WritesUntilFault (call F.Files words.now files.old files.new) (log O.Sink out.old out.new) (log E.Sink err.old err.new) allowed) }
    // Out of memory may come anywhere; at most a prefix of such a text was written.
    ensures no_memory { let o = log O.Sink out.old out.new in let e = log E.Sink err.old err.new in
        IfNoMemory result (WritesNothing o e ⊎ ((allowed : Outcome) × WritesPart (call F.Files words.now files.old files.new) o e allowed)) }
    // The whole text went to its sink, and nothing to the other.
    ensures said { IfText result (WritesAll (call F.Files words.now files.old files.new) result (log O.Sink out.old out.new) (log E.Sink err.old err.new)) }
    // An accepted command without a budget, or with one that no search can spend, gets a verdict
    // over files and sinks that don't fail.
    ensures complete { let c = call F.Files words.now files.old files.new in
        IsTold c → NoFileRose c → NoSinkRose (log O.Sink out.old out.new) (log E.Sink err.old err.new)
        → (input : Accepted) → judged words.now (F.held files.old) ≡ Ok input → HasRoom input → IsVerdictOrMemory result }
    // What was given before the call stays, and readings are added.
    ensures adds { Adds (F.gave files.old) (F.gave files.new) }
    // The files that are begun are first ones of those that the command names, in the order of
    // the reading, and none after the first refusal.
    ensures begun { Begins F.Files (command words.now) files.old files.new }
    // A verdict comes only after all files of the command were begun.
    ensures opened { OnVerdict result (BeganFor F.tells (F.held files.old) (command words.now) (F.begun files.old) (F.begun files.new)) }
    // None is begun behind the part that a refusal or an error of reading names.
    ensures last { EndsFor (command words.now) result (F.begun files.old) (F.begun files.new) }
    // A generated input begins no file.
    ensures made { IsMadeCall (command words.now) → files.new ≡ files.old }
    ensures has { F.has files.new ≡ F.has files.old }
    ensures held { F.held files.new ≡ F.held files.old }
    ensures rises { NoneFell (F.faults files.old) (F.faults files.new) }
{
    match prepare(alloc, words, files) {
        Ok(answer) => speak(out, err, answer),
        Err(NoMemory) => Outcome::NoMemory,
    }
}
