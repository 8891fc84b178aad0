//! The numbers of the options `--conflicts` and `--work`: their ranges and their defaults.

ghost use Rattle.std.specs.Prelude.{◌≡◌, IfSome, map};
ghost use Rattle.std.specs.Option.{ForSome};
ghost use Rattle.clap.specs.Words.{found_of, rows_of};
ghost use Rattle.rt_io.specs.App.{reading_in, values_in};
ghost use Rattle.rt_io.specs.Command.{limit_of, limits, number_to};
ghost use Rattle.rt_io.specs.Ranges.{AreInRange, IsWithin};

use clap::ArgMatches;
use rt_value::{all_digits, decimal_up_to};

/// The budget of conflicts, None where it isn't given, and the limit of work, 16,000,000 where it
/// isn't given.
#[derive(Clone, Copy)]
pub struct Limits {
    pub conflicts: Option<u64>,
    pub work: u64,
}

const WORK: u64 = 16_000_000;

/// The numbers of the options, if each comes once at most and in its range.
pub(crate) fn limits_in(matches: &ArgMatches) -> Option<Limits>
    ensures value { result ≡ limits (reading_in (rows_of (found_of matches.now))) }
    ensures in_range { IfSome result AreInRange }
{
    let conflicts = limit_in(matches, "conflicts", 10_000_000)?;
    let work = limit_in(matches, "work", 32_000_000)?;
    Some(Limits {
        conflicts,
        work: work.unwrap_or(WORK),
    })
}

fn limit_in(matches: &ArgMatches, id: &str, most: u64) -> Option<Option<u64>>
    ensures value { result ≡ limit_of most (values_in id.now (rows_of (found_of matches.now))) }
    ensures in_range { IfSome result (λ n. ForSome n (IsWithin most)) }
{
    match matches.get_raw(id) {
        Some(values) => limit_of(most, values),
        None => Some(None),
    }
}

fn limit_of(most: u64, values: &[&str]) -> Option<Option<u64>>
    ensures value { result ≡ limit_of most (map (λ s. s.now) values.now) }
    ensures in_range { IfSome result (λ n. ForSome n (IsWithin most)) }
{
    match values {
        [] => Some(None),
        [text] => number_to(most, text).map(|n| Some(n)),
        _ => None,
    }
}

/// The number that one to ten digits write, if it is from 1 to `most`.
pub(crate) fn number_to(most: u64, text: &str) -> Option<u64>
    ensures value { result ≡ number_to most text.now }
    ensures in_range { IfSome result (IsWithin most) }
{
    let digits = text.as_bytes();
    if digits.len() < 1 || digits.len() > 10 || !all_digits(digits) {
        return None;
    }
    match decimal_up_to(digits, most as u128) {
        Some(n) if n >= 1 => Some(n as u64),
        _ => None,
    }
}
