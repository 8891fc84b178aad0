//! An answer that is ready to be written.

ghost use Rattle.std.specs.Prelude.{IfOk};
ghost use Rattle.rt_cert.specs.Steps.{SaysVerdict};

use crate::outcome::CertOutcome;
use crate::say::CERT_USAGE;
use rt_input::{Outcome, stopped_text};
use rt_value::{Bytes, NoMemory, Txt};
use std::alloc::Global;

/// An outcome and its text.
#[derive(Drop)]
pub(crate) struct Told {
    pub(crate) outcome: CertOutcome,
    pub(crate) text: Bytes,
}

/// The answer for a command without an input. `words` are the arguments of the command of
/// `ratest`.
pub(crate) fn stopped(alloc: Global, words: &[Txt], outcome: Outcome) -> Result<Told, NoMemory>
    ensures { IfOk result (λ t. SaysVerdict words.now outcome t.outcome t.text) }
{
    match outcome {
        Outcome::NoMemory => Err(NoMemory),
        outcome => {
            let text = stopped_text(alloc, CERT_USAGE, words, &outcome)?;
            let outcome = CertOutcome::Verdict(outcome);
            Ok(Told { outcome, text })
        }
    }
}
