//! The answer to `check CERT ARGS`: the input is read, and then the certificate.

ghost use Rattle.std.specs.Prelude.{◌≡◌, [], ◌∷◌, IfOk};
ghost use Rattle.rt_io.specs.Command.{command};
ghost use Rattle.rt_io.specs.Edge.{AddsPrefix, NoneFell, OnlyRises};
ghost use Rattle.rt_io.specs.Gave.{Adds};
ghost use Rattle.rt_input.specs.Reading.{call};
ghost use Rattle.rt_input.specs.Steps.{over};
ghost use Rattle.rt_cert.specs.Begun.{ChecksFor};
ghost use Rattle.rt_cert.specs.Steps.{ChecksIn, IsFaultTold, JudgesIn, SaysCheck};

use crate::checking::check;
use crate::file::{FileFault, cert_in};
use crate::outcome::CertOutcome;
use crate::say::{fault_text, judgement_text};
use crate::told::{Told, stopped};
use rt_input::{Input, read_input};
use rt_io::Files;
use rt_recorder::{Cert, CertFault};
use rt_value::{NoMemory, Txt};
use std::alloc::Global;

// The answer for a certificate of an input.
fn judged(alloc: Global, input: &Input, cert: &Cert) -> Result<Told, NoMemory>
    ensures { IfOk result (λ t. JudgesIn input.now cert.now t.outcome t.text) }
{
    let judgement = check(alloc, input, cert)?;
    let text = judgement_text(alloc, &judgement)?;
    let outcome = CertOutcome::of(judgement);
    Ok(Told { outcome, text })
}

// The answer for a file that has no certificate.
fn faulty(alloc: Global, fault: FileFault) -> Result<Told, NoMemory>
    ensures { IfOk result (λ t. IsFaultTold fault t.outcome t.text) }
{
    let text = fault_text(alloc, &fault)?;
    let outcome = match fault {
        FileFault::BadLine(line) => CertOutcome::Malformed(CertFault::BadLine(line)),
        FileFault::Long => CertOutcome::CertLong,
        FileFault::Unread => CertOutcome::CertRead,
        FileFault::NoMemory => return Err(NoMemory),
    };
    Ok(Told { outcome, text })
}

// The answer for the certificate in the named file, over an input.
fn checked<F: Files>(
    alloc: Global,
    input: &Input,
    name: &Txt,
    files: &mut F,
) -> Result<Told, NoMemory>
    ensures says { IfOk result (λ t. ChecksIn (over F.Files files.old files.new) name.now input.now t.outcome t.text) }
    ensures adds { Adds (F.gave files.old) (F.gave files.new) }
    ensures begun { AddsPrefix (F.begun files.old) (F.begun files.new) (name.now ∷ []) }
    ensures has { F.has files.new ≡ F.has files.old }
    ensures held { F.held files.new ≡ F.held files.old }
    ensures rises { OnlyRises name.now (F.faults files.old) (F.faults files.new) }
{
    match cert_in(alloc, name, files) {
        Ok(cert) => {
            let told = judged(alloc, input, &cert);
            drop(cert);
            told
        }
        Err(fault) => faulty(alloc, fault),
    }
}

/// The answer to `check CERT ARGS`. `name` is CERT, and `words` are ARGS.
pub(crate) fn check_told<F: Files>(
    alloc: Global,
    name: &Txt,
    words: &[Txt],
    files: &mut F,
) -> Result<Told, NoMemory>
    ensures says { IfOk result (λ t. SaysCheck (call F.Files words.now files.old files.new) name.now t.outcome t.text) }
    ensures begun { ChecksFor F.tells (F.held files.old) name.now (command words.now) (F.begun files.old) (F.begun files.new) }
    ensures has { F.has files.new ≡ F.has files.old }
    ensures held { F.held files.new ≡ F.held files.old }
    ensures rises { NoneFell (F.faults files.old) (F.faults files.new) }
{
    match read_input(alloc, words, files) {
        Ok(input) => {
            let told = checked(alloc, &input, name, files);
            drop(input);
            told
        }
        Err(outcome) => stopped(alloc, words, outcome),
    }
}
