//! Tokens that are nested too deep: limits of our own, tested before the grammar is.

ghost use Rattle.std.specs.Prelude.{◌≡◌, codes};
ghost use Rattle.rt_token.specs.Words.{kinds};
ghost use Rattle.rt_sql.specs.Depth as spec;

use rt_token::{Sym, Token, TokenKind};
use rt_tree::opens_too_many;

/// The most SELECTs.
pub const SELECTS: usize = 64;

/// The most NOTs, and the most minus signs, directly after one another.
pub const REPEATED: usize = 8;

fn is_minus(kind: &TokenKind) -> bool
    ensures { result ≡ spec.is_minus kind.now }
{
    match kind {
        TokenKind::Sym(Sym::Minus) => true,
        _ => false,
    }
}

fn is_word(kind: &TokenKind, word: &str) -> bool
    ensures { result ≡ spec.is_word word.now kind.now }
{
    match kind {
        TokenKind::Word(text) => *text.as_str() == *word,
        _ => false,
    }
}

fn selects_too_many(tokens: &[Token]) -> bool
    ensures { result ≡ spec.selects_too_many (kinds tokens.now) }
{
    let mut selects = 0_usize;
    for token in tokens {
        if is_word(&token.kind, "select") {
            selects += 1;
        }
    }
    SELECTS < selects
}

fn repeats_not(tokens: &[Token]) -> bool
    ensures { result ≡ spec.repeats (spec.is_word (codes "not")) 0 (kinds tokens.now) }
{
    let mut run = 0_usize;
    for token in tokens {
        if is_word(&token.kind, "not") {
            run += 1;
            if REPEATED < run {
                return true;
            }
        } else {
            run = 0;
        }
    }
    false
}

fn repeats_minus(tokens: &[Token]) -> bool
    ensures { result ≡ spec.repeats spec.is_minus 0 (kinds tokens.now) }
{
    let mut run = 0_usize;
    for token in tokens {
        if is_minus(&token.kind) {
            run += 1;
            if REPEATED < run {
                return true;
            }
        } else {
            run = 0;
        }
    }
    false
}

/// Whether the tokens are nested too deep.
pub(crate) fn is_deep(tokens: &[Token]) -> bool
    ensures { result ≡ spec.is_deep (kinds tokens.now) }
{
    opens_too_many(tokens)
        || (selects_too_many(tokens) || (repeats_not(tokens) || repeats_minus(tokens)))
}
