//! The keywords of the grammars, looked up in three runs by the alphabet; `specs/Words.antt` has
//! the same three lists.

ghost use Rattle.std.specs.Prelude.{◌≡◌, bytes_eq};
ghost use Rattle.rt_token.specs.Words as spec;

use crate::fixed::Fixed;

fn is(word: &str, other: &str) -> bool
    ensures { result ≡ bytes_eq word.now other.now }
{
    *word == *other
}

fn word_to_exists(word: &str) -> Option<Fixed>
    ensures { result ≡ spec.look_up spec.words_to_exists word.now }
{
    if is(word, "and") {
        Some(Fixed::And)
    } else if is(word, "as") {
        Some(Fixed::As)
    } else if is(word, "between") {
        Some(Fixed::Between)
    } else if is(word, "check") {
        Some(Fixed::Check)
    } else if is(word, "constraint") {
        Some(Fixed::Constraint)
    } else if is(word, "create") {
        Some(Fixed::Create)
    } else if is(word, "cross") {
        Some(Fixed::Cross)
    } else if is(word, "distinct") {
        Some(Fixed::Distinct)
    } else if is(word, "except") {
        Some(Fixed::Except)
    } else if is(word, "exists") {
        Some(Fixed::Exists)
    } else {
        None
    }
}

fn word_to_null(word: &str) -> Option<Fixed>
    ensures { result ≡ spec.look_up spec.words_to_null word.now }
{
    if is(word, "foreign") {
        Some(Fixed::Foreign)
    } else if is(word, "from") {
        Some(Fixed::From)
    } else if is(word, "in") {
        Some(Fixed::In)
    } else if is(word, "inner") {
        Some(Fixed::Inner)
    } else if is(word, "intersect") {
        Some(Fixed::Intersect)
    } else if is(word, "is") {
        Some(Fixed::Is)
    } else if is(word, "join") {
        Some(Fixed::Join)
    } else if is(word, "not") {
        Some(Fixed::Not)
    } else if is(word, "null") {
        Some(Fixed::Null)
    } else {
        None
    }
}

fn word_to_where(word: &str) -> Option<Fixed>
    ensures { result ≡ spec.look_up spec.words_to_where word.now }
{
    if is(word, "on") {
        Some(Fixed::On)
    } else if is(word, "or") {
        Some(Fixed::Or)
    } else if is(word, "primary") {
        Some(Fixed::Primary)
    } else if is(word, "references") {
        Some(Fixed::References)
    } else if is(word, "select") {
        Some(Fixed::Select)
    } else if is(word, "table") {
        Some(Fixed::Table)
    } else if is(word, "union") {
        Some(Fixed::Union)
    } else if is(word, "unique") {
        Some(Fixed::Unique)
    } else if is(word, "where") {
        Some(Fixed::Where)
    } else {
        None
    }
}

/// The terminal of a reserved word, if one of the grammars has it.
#[tactic(auto, unfolding(crate::specs::Words::word_of))]
pub(crate) fn word_of(word: &str) -> Option<Fixed>
    ensures { result ≡ spec.word_of word.now }
{
    match word_to_exists(word) {
        Some(fixed) => Some(fixed),
        None => match word_to_null(word) {
            Some(fixed) => Some(fixed),
            None => word_to_where(word),
        },
    }
}
