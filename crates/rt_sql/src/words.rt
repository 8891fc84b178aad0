//! Words that no query may have: SQL that is not read, refused by name and not as a syntax error.

ghost use Rattle.std.specs.Prelude.{◌≡◌, bytes_eq, option_map};
ghost use Rattle.rt_sql.specs.Refusals as spec;

use rt_token::{Token, TokenKind, is_reserved};
use rt_tree::is_left;
use rt_value::Txt;

fn is(word: &str, other: &str) -> bool
    ensures { result ≡ bytes_eq word.now other.now }
{
    *word == *other
}

fn is_unsupported_to_like(word: &str) -> bool
    ensures { result ≡ spec.one_of spec.unsupported_to_like word.now }
{
    is(word, "all")
        || (is(word, "case")
            || (is(word, "cast")
                || (is(word, "full")
                    || (is(word, "group")
                        || (is(word, "having") || (is(word, "left") || is(word, "like")))))))
}

fn is_unsupported_to_with(word: &str) -> bool
    ensures { result ≡ spec.one_of spec.unsupported_to_with word.now }
{
    is(word, "limit")
        || (is(word, "natural")
            || (is(word, "order")
                || (is(word, "outer")
                    || (is(word, "right") || (is(word, "using") || is(word, "with"))))))
}

#[tactic(auto, unfolding(crate::specs::Refusals::is_unsupported))]
fn is_unsupported(word: &str) -> bool
    ensures { result ≡ spec.is_unsupported word.now }
{
    is_unsupported_to_like(word) || is_unsupported_to_with(word)
}

fn begins_left(tokens: &[Token]) -> bool
    ensures { result ≡ spec.begins_left tokens.now }
{
    match tokens {
        [first, ..] => is_left(&first.kind),
        _ => false,
    }
}

// The word, where it is refused given the tokens that follow it: `count(` is a call.
fn refused_word<'t>(kind: &'t TokenKind, next: &[Token]) -> Option<&'t Txt>
    ensures { option_map (λ word. word.now) result ≡ spec.refused_word kind.now next.now }
{
    match kind {
        TokenKind::Word(word) => {
            if is_unsupported(word.as_str()) || (!is_reserved(word.as_str()) && begins_left(next)) {
                Some(word)
            } else {
                None
            }
        }
        _ => None,
    }
}

/// The first word that is refused, and the place of its first byte, from 0.
pub(crate) fn unsupported(tokens: &[Token]) -> Option<(&Txt, usize)>
    ensures { option_map (λ u. (u.0.now, u.1)) result ≡ spec.unsupported tokens.now }
{
    let mut rest = tokens;
    'tokens: while let [first, next @ ..] = rest {
        if let Some(word) = refused_word(&first.kind, next) {
            return Some((word, first.span.from));
        }
        rest = next;
    }
    None
}
