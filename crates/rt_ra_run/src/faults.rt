//! The errors of an algebra text as outcomes: out of memory is an outcome of its own.

ghost use Rattle.std.specs.Prelude.{◌≡◌};
ghost use Rattle.rt_ra_run.specs.Faults.{fault_outcome, lex_outcome};

use crate::outcome::RaOutcome;
use rt_input::{Outcome, Part};
use rt_ra_tree::RaFault;
use rt_token::LexFault;

fn lex_outcome(part: Part, fault: LexFault) -> RaOutcome
    ensures { result ≡ lex_outcome part fault }
{
    match fault {
        LexFault::NoMemory => RaOutcome::Verdict(Outcome::NoMemory),
        fault => RaOutcome::Refused(part, RaFault::Lex(fault)),
    }
}

/// The outcome of an algebra text that is refused.
pub(crate) fn fault_outcome(part: Part, fault: RaFault) -> RaOutcome
    ensures { result ≡ fault_outcome part fault }
{
    match fault {
        RaFault::Lex(fault) => lex_outcome(part, fault),
        RaFault::NoMemory => RaOutcome::Verdict(Outcome::NoMemory),
        fault => RaOutcome::Refused(part, fault),
    }
}
