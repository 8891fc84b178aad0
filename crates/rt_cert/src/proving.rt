//! The writing of a certificate, once the verdict is known.

ghost use Rattle.std.specs.Prelude.{◌≡◌, ◌++◌, IfOk};
ghost use Rattle.std.specs.List.{AllByRecursion as Each};
ghost use Rattle.std.specs.Option.{option_map};
ghost use Rattle.rt_clause.specs.Refuting.{IsRefuted};
ghost use Rattle.rt_recorder.specs.Certificate.{IsStep};
ghost use Rattle.rt_cert.specs.Encoding.{IsEncoding};
ghost use Rattle.rt_recorder.specs.Checking.{AreAccepted, clauses};
ghost use Rattle.rt_cert.specs.Certified.{IsProof, IsToBeRefuted, kept_by};
ghost use Rattle.rt_cert.specs.Least.{IsSmallestOrNone};
ghost use Rattle.rt_cert.specs.Places.{places_of};

use crate::checking::is_to_be_refuted;
use crate::encoding::encoding;
use crate::places::places_of;
use crate::refutation::refutation;
use rt_input::Input;
use rt_recorder::{Cert, Encoded, Step};
use rt_value::{Keep, List, NoMemory};
use std::alloc::Global;

// A certificate can't spell a number of this size; no encoding has so many lines.
const MOST_LINES: usize = 1 << 62;

/// A certificate, and the encoding that its steps go on from.
#[derive(Drop)]
pub struct Proof {
    pub cert: Cert,
    pub encoded: Encoded,
}

// The steps of a certificate: none for a choice of no rows.
fn steps_of(
    alloc: Global,
    input: &Input,
    keep: &Option<Keep>,
    encoded: &Encoded,
) -> Result<List<Step>, NoMemory>
    requires verdict { IsSmallestOrNone input.now keep.now }
    requires encoding { IsEncoding input.now keep.now encoded.now.lines encoded.now.assume }
    ensures accepted { IfOk result (AreAccepted encoded.now.lines) }
    ensures refuted { IfOk result (λ steps. IsToBeRefuted keep.now → IsRefuted (encoded.now.lines ++ clauses steps) encoded.now.assume) }
    ensures spelled { IfOk result (Each IsStep) }
{
    let _schema = input.schema();
    if is_to_be_refuted(keep) {
        return refutation(alloc, encoded);
    }
    Ok(List::new(alloc))
}

fn kept_places(alloc: Global, keep: &Option<Keep>) -> Result<Option<List<u64>>, NoMemory>
    ensures { IfOk result (λ places. places ≡ option_map places_of keep.now) }
{
    match keep {
        None => Ok(None),
        Some(keep) => Ok(Some(places_of(alloc, keep)?)),
    }
}

/// A certificate that a choice of rows is the smallest counterexample of an input, or that there
/// is none. Its steps are found by one search over the lines of the encoding.
pub fn prove(alloc: Global, input: &Input, keep: &Option<Keep>) -> Result<Proof, NoMemory>
    requires { IsSmallestOrNone input.now keep.now }
    ensures proof { IfOk result (λ p. IsProof input.now p.cert p.encoded) }
    ensures keep { IfOk result (λ p. kept_by input.now p.cert ≡ keep.now) }
{
    // The input has few rows: the contract of `schema` says so.
    let _schema = input.schema();
    let encoded = encoding(alloc, input, keep)?;
    let steps = steps_of(alloc, input, keep, &encoded)?;
    let added = encoded.lines.len();
    if added >= MOST_LINES {
        return Err(NoMemory);
    }
    let keep = kept_places(alloc, keep)?;
    let added = added as u64;
    let cert = Cert { keep, added, steps };
    Ok(Proof { cert, encoded })
}
