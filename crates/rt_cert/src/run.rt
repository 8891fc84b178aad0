//! The command of certificates, whole: its contract is the promise of `prove` and `check`.

ghost use Rattle.std.specs.Prelude.{◌≡◌, ◌<◌, ◌⊎◌, ℕ, length, Some, Err, IfOk};
ghost use Rattle.rt_io.specs.Edge.{NoneFell};
ghost use Rattle.rt_io.specs.Logs.{IsKept, NoSinkRose, at_place, log, other_place};
ghost use Rattle.rt_writing.specs.Writing.{Writes, WritesTo};
ghost use Rattle.rt_cert.specs.Begun.{Begins};
ghost use Rattle.rt_cert.specs.Certified.{claim_fault};
ghost use Rattle.rt_cert.specs.declared.judgement.Why.{Why};
ghost use Rattle.rt_recorder.specs.declared.cert.Cert.{Cert};
ghost use Rattle.rt_recorder.specs.declared.fault.CertFault.TheVariants.{BadLine};
ghost use Rattle.rt_input.specs.Reading.{IsTold, call};
ghost use Rattle.rt_input.specs.Judged.{judged};
ghost use Rattle.rt_input.specs.declared.outcome.Outcome.{Outcome};
ghost use Rattle.rt_cert.specs.Answers.{Ends, IsOrFault, IsProvedOrMemory, IsUsageOrFault, OverCalm, OverFile, YieldsTo, in_certificates};
ghost use Rattle.rt_cert.specs.CertFile.{IsBadFile, IsFileOf, most_bytes};
ghost use Rattle.rt_cert.specs.Texts.{place};
ghost use Rattle.rt_cert.specs.Words.{IfEither, IsUsage, asked_by};
ghost use Rattle.rt_cert.specs.declared.outcome.CertOutcome.{CertOutcome};
ghost use Rattle.rt_cert.specs.declared.outcome.CertOutcome.TheVariants as outcome;

use crate::check_told::check_told;
use crate::outcome::CertOutcome;
use crate::prove_told::prove_told;
use crate::say::CERT_USAGE;
use crate::told::Told;
use rt_input::Outcome;
use rt_io::{Files, Sink, SinkFail, write_at};
use rt_value::{List, NoMemory, Txt};
use std::alloc::Global;

// The answer to the arguments.
fn prepare<F: Files>(alloc: Global, words: &[Txt], files: &mut F) -> Result<Told, NoMemory>
    ensures ends { IfOk result (λ t. Ends (call F.Files words.now files.old files.new) t.outcome t.text) }
    ensures begun { Begins F.Files (asked_by words.now) files.old files.new }
    ensures has { F.has files.new ≡ F.has files.old }
    ensures held { F.held files.new ≡ F.held files.old }
    ensures rises { NoneFell (F.faults files.old) (F.faults files.new) }
{
    match words {
        [word, args @ ..] if word.as_str() == "prove" => prove_told(alloc, args, files),
        [word, name, args @ ..] if word.as_str() == "check" => check_told(alloc, name, args, files),
        _ => {
            let text = List::from_slice(alloc, CERT_USAGE.as_bytes())?;
            let outcome = CertOutcome::Verdict(Outcome::Usage);
            Ok(Told { outcome, text })
        }
    }
}

// Writes the text of an answer to its sink.
fn speak<O: Sink, E: Sink>(out: &mut O, err: &mut E, told: Told) -> CertOutcome
    ensures ends { WritesTo in_certificates (at_place (place told.outcome) (log O.Sink out.old out.new) (log E.Sink err.old err.new)) told.outcome told.text result }
    ensures kept { IsKept (other_place (place told.outcome) (log O.Sink out.old out.new) (log E.Sink err.old err.new)) }
{
    let place = told.outcome.place();
    match write_at(out, err, place, told.text.as_slice()) {
        Ok(()) => told.outcome,
        Err(SinkFail::Failed) => CertOutcome::Verdict(Outcome::WriteFault),
        Err(SinkFail::NoMemory) => CertOutcome::Verdict(Outcome::NoMemory),
    }
}

/// Writes a certificate of the verdict on a command's input, or checks the one in a file over it.
/// It reads the files that the arguments name. What is found goes to `out`, or to `err` why there
/// is nothing. `words` are the arguments from `prove` or `check` on.
pub fn cert_run<F: Files, O: Sink, E: Sink>(
    alloc: Global,
    words: &[Txt],
    files: &mut F,
    out: &mut O,
    err: &mut E,
) -> CertOutcome
    // Each outcome comes only where it may; its whole text went to its sink, and nothing to the
    // other. The error of writing comes only if the sink of an outcome that may come failed in this
    // call. Out of memory may come anywhere; at most a prefix of such a text was written.
    ensures writes { Writes in_certificates (Ends (call F.Files words.now files.old files.new)) (log O.Sink out.old out.new) (log E.Sink err.old err.new) result }
    // For arguments that are no command, the answer is that. If the input is refused, it is the
    // first refusal.
    ensures usage { IsUsage (asked_by words.now) → IsUsageOrFault result }
    ensures refused { IfEither (asked_by words.now) (λ args. IsTold (call F.Files args files.old files.new)
        → (refusal : Outcome) → judged args (F.held files.old) ≡ Err refusal → YieldsTo refusal result) }
    // Over an accepted input, a certificate that is too long or malformed is answered as that. A
    // claim that is wrong is rejected as that, whatever the steps are.
    ensures long { OverFile (call F.Files words.now files.old files.new) (λ input bytes. most_bytes < length bytes → IsOrFault outcome.CertLong result) }
    ensures malformed { OverFile (call F.Files words.now files.old files.new) (λ input bytes. (line : ℕ) → IsBadFile bytes line → IsOrFault (outcome.Malformed (BadLine line)) result) }
    ensures claim { OverFile (call F.Files words.now files.old files.new) (λ input bytes. (cert : Cert) → IsFileOf bytes cert → (why : Why) → claim_fault input cert.keep ≡ Some why → IsOrFault (outcome.Wrong why) result) }
    // Of an accepted input without a budget, or with one that no search can spend, there is a
    // certificate over files and sinks that don't fail.
    ensures complete { OverCalm (call F.Files words.now files.old files.new) (NoSinkRose (log O.Sink out.old out.new) (log E.Sink err.old err.new) → IsProvedOrMemory result) }
    // The files that are begun are first ones of those that the arguments name, in the order of
    // the reading, and none after the first refusal.
    ensures begun { Begins F.Files (asked_by words.now) files.old files.new }
    ensures has { F.has files.new ≡ F.has files.old }
    ensures held { F.held files.new ≡ F.held files.old }
    ensures rises { NoneFell (F.faults files.old) (F.faults files.new) }
{
    match prepare(alloc, words, files) {
        Ok(told) => speak(out, err, told),
        Err(NoMemory) => CertOutcome::Verdict(Outcome::NoMemory),
    }
}
