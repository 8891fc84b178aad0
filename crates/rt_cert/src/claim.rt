//! What a certificate claims, tried on the input: its places, its rows under the law, and the two
//! answers on them.

ghost use Rattle.std.specs.Prelude.{◌≡◌, nat_le, length, Some, None, IfOk};
ghost use Rattle.std.specs.List.{find};
ghost use Rattle.rt_schema.specs.Given.{places};
ghost use Rattle.rt_cert.specs.Certified.{choice_fault, rows_of};
ghost use Rattle.rt_cert.specs.Claims.{IsClaim};

use crate::judgement::Why;
use crate::places::keep_of;
use rt_eval::answers;
use rt_input::Input;
use rt_schema::lawful;
use rt_value::{Keep, List, NoMemory};
use std::alloc::Global;

/// What a certificate claims, before its steps are looked at: a counterexample as a choice of
/// rows, or that there is none. `Fails` says why that can't be.
#[derive(Drop)]
pub(crate) enum Claim {
    Stands(Option<Keep>),
    Fails(Why),
}

// The first place that isn't below the number of rows.
fn first_past(places: &[u64], rows: usize) -> Option<u64>
    ensures { result ≡ find (λ place. nat_le rows place) places.now }
{
    for place in places {
        if rows as u64 <= *place {
            return Some(*place);
        }
    }
    None
}

// Why a choice of rows is no counterexample, if it is none.
fn choice_fault(alloc: Global, input: &Input, keep: &Keep) -> Result<Option<Why>, NoMemory>
    requires { length keep.now ≡ places input.now.given.tables }
    ensures { IfOk result (λ fault. fault ≡ choice_fault input.now keep.now) }
{
    let schema = input.schema();
    let given = input.given();
    if !lawful(schema, given, keep) {
        return Ok(Some(Why::NotLawful));
    }
    let left = answers(alloc, input.left(), given, keep)?;
    let right = answers(alloc, input.right(), given, keep)?;
    if left.same(&right) {
        return Ok(Some(Why::SameAnswers));
    }
    Ok(None)
}

// The claim of places that are all below the number of rows.
fn claim_of_rows(alloc: Global, input: &Input, places: &[u64]) -> Result<Claim, NoMemory>
    requires { find (λ place. nat_le (rows_of input.now) place) places.now ≡ None }
    ensures { IfOk result (IsClaim input.now (Some places.now)) }
{
    let keep = keep_of(alloc, input.given().total(), places)?;
    match choice_fault(alloc, input, &keep)? {
        Some(why) => Ok(Claim::Fails(why)),
        None => Ok(Claim::Stands(Some(keep))),
    }
}

fn claim_of_places(alloc: Global, input: &Input, places: &[u64]) -> Result<Claim, NoMemory>
    ensures { IfOk result (IsClaim input.now (Some places.now)) }
{
    match first_past(places, input.given().total()) {
        Some(place) => Ok(Claim::Fails(Why::Place(place))),
        None => claim_of_rows(alloc, input, places),
    }
}

/// The claim of a certificate: of these places, or without any that the queries agree.
pub(crate) fn claim_of(
    alloc: Global,
    input: &Input,
    places: &Option<List<u64>>,
) -> Result<Claim, NoMemory>
    ensures { IfOk result (IsClaim input.now places.now) }
{
    match places {
        Some(places) => claim_of_places(alloc, input, places.as_slice()),
        None => Ok(Claim::Stands(None)),
    }
}
