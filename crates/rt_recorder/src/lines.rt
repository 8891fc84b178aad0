//! The lines of a certificate, each read whole from its bytes without the line feed. A reader
//! answers none exactly where no writer could have written the line.

ghost use Rattle.std.specs.Prelude.{◌≡◌, ◌≢◌, IfOk, IsTrue, ◌↔◌, MatchBool, length};
ghost use Rattle.std.specs.List.Sorted.{IsStrictlyIncreasing};
ghost use Rattle.rt_recorder.specs.Certificate as spec;
ghost use Rattle.rt_recorder.specs.Reading.{IsClaim, Reads, ReadsParts, claim_line};

use crate::cert::Step;
use crate::claim::Claim;
use crate::pieces::{after, before_space, literals, number, numbers, span};
use rt_value::{List, NoMemory};
use std::alloc::Global;

/// Whether the line is this text, byte by byte.
pub(crate) fn is(line: &[u8], text: &[u8]) -> bool
    ensures { MatchBool result (line.now ≡ text.now) (line.now ≢ text.now) }
{
    line == text
}

/// The claim of a line `verdict agree` or `verdict witness N`.
pub(crate) fn claim(line: &[u8]) -> Option<Claim>
    ensures { Reads IsClaim claim_line line.now result }
{
    if is(line, b"verdict agree") {
        return Some(Claim::Agree);
    }
    let Some(rows) = after(line, b"verdict witness ") else {
        return None;
    };
    match number(rows) {
        None => None,
        Some(n) => Some(Claim::Witness(n)),
    }
}

fn is_rising(places: &[u64]) -> bool
    ensures { IsTrue result ↔ IsStrictlyIncreasing places.now }
{
    let mut n = 1;
    'places: while n < places.len() {
        if places[n] <= places[n - 1] {
            return false;
        }
        n += 1;
    }
    true
}

fn suit(places: &[u64], rows: u64) -> bool
    ensures { IsTrue result ↔ ((length places.now ≡ rows) × IsStrictlyIncreasing places.now) }
{
    places.len() as u64 == rows && is_rising(places)
}

/// The places of a line `keep ..`, which rise, of a witness of so many rows.
pub(crate) fn places(alloc: Global, line: &[u8], rows: u64) -> Result<Option<List<u64>>, NoMemory>
    requires { spec.IsNumber rows }
    ensures { IfOk result (Reads (λ ps. spec.ArePlaces ps × (length ps ≡ rows)) spec.keep_line line.now) }
{
    let Some(rest) = after(line, b"keep") else {
        return Ok(None);
    };
    let Some(places) = numbers(alloc, rest)? else {
        return Ok(None);
    };
    if suit(places.as_slice(), rows) {
        Ok(Some(places))
    } else {
        Ok(None)
    }
}

/// The number of given lines that the steps go on from, of a line `added N`.
pub(crate) fn added(line: &[u8]) -> Option<u64>
    ensures { Reads spec.IsNumber spec.added_line line.now result }
{
    let Some(lines) = after(line, b"added ") else {
        return None;
    };
    number(lines)
}

fn step_of(alloc: Global, lits: &[u8], hints: &[u8]) -> Result<Option<Step>, NoMemory>
    ensures { IfOk result (λ o. ReadsParts lits.now hints.now o) }
{
    let Some(lits) = literals(alloc, lits)? else {
        return Ok(None);
    };
    let Some(hints) = numbers(alloc, hints)? else {
        return Ok(None);
    };
    Ok(Some(Step { lits, hints }))
}

/// The step of a line such as `d +3 -5 ; 0 12`: the literals x3 and not x5, by lines 0 and 12. Its
/// literals come before the first semicolon, its hints after it.
pub(crate) fn step(alloc: Global, line: &[u8]) -> Result<Option<Step>, NoMemory>
    ensures { IfOk result (Reads spec.IsStep spec.step_line line.now) }
{
    let Some(rest) = after(line, b"d") else {
        return Ok(None);
    };
    let (front, back) = rest.split_at(span(rest, b';'));
    let Some(hints) = after(back, b";") else {
        return Ok(None);
    };
    let Some(lits) = before_space(front) else {
        return Ok(None);
    };
    step_of(alloc, lits, hints)
}
