//! The answer to `prove ARGS`: a certificate of the verdict.

ghost use Rattle.std.specs.Prelude.{◌≡◌, IfOk};
ghost use Rattle.rt_cert.specs.Least.{IsSmallestOrNone};
ghost use Rattle.rt_io.specs.Edge.{NoneFell};
ghost use Rattle.rt_io.specs.Command.{command};
ghost use Rattle.rt_input.specs.Begun.{Begins};
ghost use Rattle.rt_input.specs.Reading.{call};
ghost use Rattle.rt_cert.specs.Steps.{ProvesIn, SaysProve};

use crate::outcome::CertOutcome;
use crate::proving::{Proof, prove};
use crate::told::{Told, stopped};
use rt_input::{Input, Outcome, read_input};
use rt_io::Files;
use rt_recorder::cert_text;
use rt_search::Best;
use rt_top::{GivenUp, decide, given_up};
use rt_value::{Keep, NoMemory, Txt};
use std::alloc::Global;

// The answer for a verdict: its certificate.
fn certified(alloc: Global, input: &Input, keep: &Option<Keep>) -> Result<Told, NoMemory>
    requires { IsSmallestOrNone input.now keep.now }
    ensures { IfOk result (λ t. ProvesIn input.now t.outcome t.text) }
{
    let Proof { cert, encoded } = prove(alloc, input, keep)?;
    let text = cert_text(alloc, &cert)?;
    let outcome = CertOutcome::Proved(cert, encoded);
    Ok(Told { outcome, text })
}

// The answer for an input: the certificate of its verdict, or that the budget is spent.
fn proved(alloc: Global, input: &Input) -> Result<Told, NoMemory>
    ensures { IfOk result (λ t. ProvesIn input.now t.outcome t.text) }
{
    match decide(alloc, input)? {
        Best::Never => certified(alloc, input, &None),
        Best::Least(keep) => {
            let keep = Some(keep);
            let told = certified(alloc, input, &keep);
            drop(keep);
            told
        }
        Best::Spent(found) => match input.conflicts() {
            Some(budget) => {
                let GivenUp { spent, text } = given_up(alloc, input, budget, found)?;
                let outcome = CertOutcome::Verdict(Outcome::Spent(spent));
                Ok(Told { outcome, text })
            }
            None => unreachable!(),
        },
    }
}

/// The answer to `prove ARGS`. `words` are ARGS.
pub(crate) fn prove_told<F: Files>(
    alloc: Global,
    words: &[Txt],
    files: &mut F,
) -> Result<Told, NoMemory>
    ensures says { IfOk result (λ t. SaysProve (call F.Files words.now files.old files.new) t.outcome t.text) }
    ensures begun { Begins F.Files (command words.now) files.old files.new }
    ensures has { F.has files.new ≡ F.has files.old }
    ensures held { F.held files.new ≡ F.held files.old }
    ensures rises { NoneFell (F.faults files.old) (F.faults files.new) }
{
    match read_input(alloc, words, files) {
        Ok(input) => {
            let told = proved(alloc, &input);
            drop(input);
            told
        }
        Err(outcome) => stopped(alloc, words, outcome),
    }
}
