//! The pieces of a line: numbers, literals, and lists of them, each after one space.

ghost use Rattle.std.specs.Prelude.{◌≡◌, ◌≤◌, ◌++◌, ◌∷◌, [], List as Seq, ℕ, IfOk, MatchOption, take, drop, length};
ghost use Rattle.std.specs.List.{AllByRecursion as Each};
ghost use Rattle.std.specs.Fmt.{decimal};
ghost use Rattle.rt_recorder.specs.Certificate as spec;
ghost use Rattle.rt_recorder.specs.Reading.{IsCut, Reads, numeral};

use rt_clause::{Lit, LitList};
use rt_value::{List, NoMemory, all_digits, decimal_up_to};
use std::alloc::Global;

/// The number of bytes before the first that is `at`: of all, if none is.
pub(crate) fn span(text: &[u8], at: u8) -> usize
    ensures within { result ≤ length text.now }
    ensures cut { IsCut at text.now (take result text.now) (drop result text.now) }
{
    let mut n = 0;
    'bytes: while n < text.len() && text[n] != at {
        n += 1;
    }
    n
}

fn is_numeral(word: &[u8]) -> bool
    ensures { result ≡ numeral word.now }
{
    match word {
        [] => false,
        [b'0', _, ..] => false,
        _ => all_digits(word),
    }
}

/// A decimal number below 2^62 without leading zeros.
pub(crate) fn number(word: &[u8]) -> Option<u64>
    ensures { Reads spec.IsNumber decimal word.now result }
{
    if !is_numeral(word) {
        return None;
    }
    match decimal_up_to(word, (1 << 62) - 1) {
        None => None,
        Some(n) => Some(n as u64),
    }
}

fn literal(word: &[u8]) -> Option<Lit>
    ensures { Reads (λ l. spec.IsNumber l.var) spec.literal word.now result }
{
    match word {
        [b'+', digits @ ..] => literal_of(digits, true),
        [b'-', digits @ ..] => literal_of(digits, false),
        _ => None,
    }
}

fn literal_of(digits: &[u8], on: bool) -> Option<Lit>
    ensures { MatchOption result ((n : ℕ) → spec.IsNumber n → digits.now ≡ decimal n → ⊥) (λ l. spec.IsNumber l.var × (digits.now ≡ decimal l.var) × (l.on ≡ on)) }
{
    match number(digits) {
        None => None,
        Some(var) => Some(Lit::of(var as usize, on)),
    }
}

/// What follows the front, if the text begins with it.
pub(crate) fn after<'a>(text: &'a [u8], front: &[u8]) -> Option<&'a [u8]>
    ensures { MatchOption result ((rest : Seq ℕ) → text.entry.now ≡ front.entry.now ++ rest → ⊥) (λ rest. text.entry.now ≡ front.entry.now ++ rest.now) }
{
    text.strip_prefix(front)
}

/// Numbers below 2^62, each after a space.
pub(crate) fn numbers(alloc: Global, text: &[u8]) -> Result<Option<List<u64>>, NoMemory>
    ensures { IfOk result (Reads (Each spec.IsNumber) (spec.spaced decimal) text.now) }
{
    let mut out = List::new(alloc);
    let mut rest = text;
    'pieces: while !rest.is_empty() {
        let Some(more) = after(rest, b" ") else {
            return Ok(None);
        };
        let (word, behind) = more.split_at(span(more, b' '));
        let Some(n) = number(word) else {
            return Ok(None);
        };
        out.push(n)?;
        rest = behind;
    }
    Ok(Some(out))
}

/// Literals, each after a space: `+` or `-`, and the variable.
pub(crate) fn literals(alloc: Global, text: &[u8]) -> Result<Option<LitList>, NoMemory>
    ensures { IfOk result (Reads (Each (λ l. spec.IsNumber l.var)) (spec.spaced spec.literal) text.now) }
{
    let mut out = List::new(alloc);
    let mut rest = text;
    'pieces: while !rest.is_empty() {
        let Some(more) = after(rest, b" ") else {
            return Ok(None);
        };
        let (word, behind) = more.split_at(span(more, b' '));
        let Some(lit) = literal(word) else {
            return Ok(None);
        };
        out.push(lit)?;
        rest = behind;
    }
    Ok(Some(out))
}

/// What comes before a space at the end, if there is one.
pub(crate) fn before_space(text: &[u8]) -> Option<&[u8]>
    ensures { MatchOption result ((front : Seq ℕ) → text.now ≡ front ++ 32 ∷ [] → ⊥) (λ front. text.now ≡ front.now ++ 32 ∷ []) }
{
    text.strip_suffix(b" ")
}
