//! The states of reading: which kind of line comes next, and what has been read so far.

ghost use Rattle.std.specs.Prelude.{◌≡◌, ◌++◌, ◌∷◌, [], IfOk};
ghost use Rattle.rt_recorder.specs.Reading.{IsNext, IsReading};

use crate::cert::{Cert, Step};
use crate::claim::Claim;
use crate::lines::{added, claim, is, places, step};
use rt_value::{List, NoMemory};
use std::alloc::Global;

/// What has been read of a certificate, by the line that comes next.
#[derive(Drop)]
pub enum Reading {
    Head,
    Verdict,
    /// The number of rows of the witness.
    Keep(u64),
    Added(Option<List<u64>>),
    Steps(Cert),
    Ended(Cert),
}

fn behind_head(line: &[u8]) -> Option<Reading>
    ensures { IsNext Reading.Head line.now result }
{
    if is(line, b"ratest certificate 1") {
        Some(Reading::Verdict)
    } else {
        None
    }
}

fn behind_verdict(line: &[u8]) -> Option<Reading>
    ensures { IsNext Reading.Verdict line.now result }
{
    match claim(line) {
        None => None,
        Some(Claim::Witness(rows)) => Some(Reading::Keep(rows)),
        Some(Claim::Agree) => Some(Reading::Added(None)),
    }
}

fn behind_keep(alloc: Global, line: &[u8], rows: u64) -> Result<Option<Reading>, NoMemory>
    requires { IsReading (Reading.Keep rows) }
    ensures { IfOk result (λ o. IsNext (Reading.Keep rows) line.now o) }
{
    match places(alloc, line, rows)? {
        None => Ok(None),
        Some(places) => Ok(Some(Reading::Added(Some(places)))),
    }
}

fn behind_added(alloc: Global, line: &[u8], keep: Option<List<u64>>) -> Option<Reading>
    requires { IsReading (Reading.Added keep) }
    ensures { IsNext (Reading.Added keep) line.now result }
{
    match added(line) {
        None => None,
        Some(added) => Some(Reading::Steps(Cert {
            keep,
            added,
            steps: List::new(alloc),
        })),
    }
}

fn with_step(mut cert: Cert, step: Step) -> Result<Cert, NoMemory>
    ensures { IfOk result (λ c. c ≡ record cert { steps = cert.steps ++ step ∷ [] }) }
{
    cert.steps.push(step)?;
    Ok(cert)
}

fn behind_steps(alloc: Global, line: &[u8], cert: Cert) -> Result<Option<Reading>, NoMemory>
    requires { IsReading (Reading.Steps cert) }
    ensures { IfOk result (λ o. IsNext (Reading.Steps cert) line.now o) }
{
    if is(line, b"end") {
        return Ok(Some(Reading::Ended(cert)));
    }
    match step(alloc, line)? {
        None => Ok(None),
        Some(step) => {
            let cert = with_step(cert, step)?;
            Ok(Some(Reading::Steps(cert)))
        }
    }
}

impl Reading {
    /// What is read with the line, or none if no certificate has that line there.
    pub fn next(self, alloc: Global, line: &[u8]) -> Result<Option<Reading>, NoMemory>
        requires { IsReading self }
        ensures { IfOk result (λ o. IsNext self line.now o) }
    {
        match self {
            Reading::Head => Ok(behind_head(line)),
            Reading::Verdict => Ok(behind_verdict(line)),
            Reading::Keep(rows) => behind_keep(alloc, line, rows),
            Reading::Added(keep) => Ok(behind_added(alloc, line, keep)),
            Reading::Steps(cert) => behind_steps(alloc, line, cert),
            Reading::Ended(_) => Ok(None),
        }
    }
}
