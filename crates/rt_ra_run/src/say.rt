//! The texts of refusals and errors. Each byte is fixed by `specs/Texts.antt`.

ghost use Rattle.std.specs.Prelude.{◌≡◌, IfOk, string_bytes};
ghost use Rattle.rt_ra_run.specs.Texts.{fault_text, refusal_text, refused_line};

use crate::outcome::RaOutcome;
use rt_input::{Outcome, Part, lex_text, part_text, refusal_line};
use rt_ra_tree::RaFault;
use rt_value::{Bytes, List, NoMemory};
use std::alloc::{AllocError, Global};

/// The text for arguments that are no command.
pub const RA_USAGE: &str =
    "usage: ratest_plus ra SCHEMA DATADIR RA1 RA2 [--conflicts N] [--work N]\n";

fn fault_text(alloc: Global, fault: &RaFault) -> Result<String, AllocError>
    ensures { IfOk result (λ s. string_bytes s ≡ fault_text fault.now) }
{
    match fault {
        RaFault::Lex(fault) => lex_text(alloc, fault),
        RaFault::TooDeep => String::from_str(alloc, "nested too deep"),
        RaFault::Syntax(at) => format!(in alloc; "syntax fault near byte {at}"),
        RaFault::UnknownTable(name) => {
            let name = name.as_str();
            format!(in alloc; "unknown table: {name}")
        }
        RaFault::UnknownColumn(name) => {
            let name = name.as_str();
            format!(in alloc; "unknown column: {name}")
        }
        RaFault::DuplicateColumn(name) => {
            let name = name.as_str();
            format!(in alloc; "column twice: {name}")
        }
        RaFault::TypeMismatch => String::from_str(alloc, "types do not match"),
        RaFault::Columns => String::from_str(alloc, "numbers of columns differ"),
        RaFault::NoMemory => Ok(String::new(alloc)),
    }
}

fn refused_line(alloc: Global, part: &Part, fault: &RaFault) -> Result<String, AllocError>
    ensures { IfOk result (λ s. string_bytes s ≡ refused_line part.now fault.now) }
{
    let part = part_text(alloc, part)?;
    let fault = fault_text(alloc, fault)?;
    format!(in alloc; "ratest: {part}: {fault}\n")
}

/// The text of an outcome that is no verdict on the two texts; `most` is the work limit in force.
pub(crate) fn refusal_text(alloc: Global, most: u64, outcome: &RaOutcome) -> Result<Bytes, NoMemory>
    ensures { IfOk result (λ text. text ≡ refusal_text most outcome.now) }
{
    match outcome {
        RaOutcome::Verdict(Outcome::Usage) => List::from_slice(alloc, RA_USAGE.as_bytes()),
        RaOutcome::Verdict(outcome) => refusal_line(alloc, outcome, most),
        RaOutcome::Refused(part, fault) => {
            let text = refused_line(alloc, part, fault)?;
            List::from_slice(alloc, text.as_bytes())
        }
    }
}
