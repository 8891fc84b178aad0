//! The texts of outcomes. `specs/Texts.antt` has them byte by byte.

ghost use Rattle.std.specs.Prelude.{◌≡◌, IfOk, string_bytes};
ghost use Rattle.rt_cert.specs.Texts as spec;

use crate::file::FileFault;
use crate::judgement::{Judgement, Why};
use rt_value::{Bytes, Keep, List, NoMemory};
use std::alloc::{AllocError, Global};

/// The text for arguments that are no command.
pub const CERT_USAGE: &str = "usage: ratest_plus prove ARGS\n       ratest_plus check CERT ARGS\n";

// The line for an accepted certificate.
fn valid_text(alloc: Global, keep: &Option<Keep>) -> Result<String, AllocError>
    ensures { IfOk result (λ s. string_bytes s ≡ spec.valid_text keep.now) }
{
    match keep {
        None => String::from_str(alloc, "valid: agree\n"),
        Some(keep) => {
            let size = keep.size();
            format!(in alloc; "valid: witness {size}\n")
        }
    }
}

// Why a certificate is rejected, without a line end.
fn why_text(alloc: Global, why: &Why) -> Result<String, AllocError>
    ensures { IfOk result (λ s. string_bytes s ≡ spec.why_text why.now) }
{
    match why {
        Why::Place(place) => format!(in alloc; "place {place}"),
        Why::NotLawful => String::from_str(alloc, "not lawful"),
        Why::SameAnswers => String::from_str(alloc, "answers are the same"),
        Why::Added(encoded) => {
            let lines = encoded.lines.len();
            format!(in alloc; "added {lines}")
        }
        Why::Line(line, _) => format!(in alloc; "line {line}"),
        Why::NoRefutation(_) => String::from_str(alloc, "no refutation"),
    }
}

fn wrong_text(alloc: Global, why: &Why) -> Result<String, AllocError>
    ensures { IfOk result (λ s. string_bytes s ≡ spec.wrong_text why.now) }
{
    let words = why_text(alloc, why)?;
    let words = words.as_str();
    format!(in alloc; "ratest: certificate: rejected: {words}\n")
}

/// The line for the check of a certificate.
pub(crate) fn judgement_text(alloc: Global, judgement: &Judgement) -> Result<Bytes, NoMemory>
    ensures { IfOk result (λ text. text ≡ spec.judgement_text judgement.now) }
{
    let line = match judgement {
        Judgement::Valid(keep) => valid_text(alloc, keep)?,
        Judgement::Wrong(why) => wrong_text(alloc, why)?,
    };
    List::from_slice(alloc, line.as_str().as_bytes())
}

/// The line for a file that has no certificate.
pub(crate) fn fault_text(alloc: Global, fault: &FileFault) -> Result<Bytes, NoMemory>
    ensures { IfOk result (λ text. text ≡ spec.fault_text fault.now) }
{
    let line = match fault {
        FileFault::BadLine(line) => {
            format!(in alloc; "ratest: certificate: malformed at line {line}\n")?
        }
        FileFault::Long => String::from_str(
            alloc,
            "ratest: limit: certificate is longer than 67108864 bytes\n",
        )?,
        FileFault::Unread => String::from_str(alloc, "ratest: cannot read certificate\n")?,
        FileFault::NoMemory => String::new(alloc),
    };
    List::from_slice(alloc, line.as_str().as_bytes())
}
