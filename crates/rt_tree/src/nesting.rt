//! Parentheses that are nested too deep: a limit of our own, for queries in both languages.

ghost use Rattle.std.specs.Prelude.{◌≡◌};
ghost use Rattle.rt_token.specs.Words.{kinds};
ghost use Rattle.rt_tree.specs.Nesting as spec;

use rt_token::{Sym, Token, TokenKind};

/// The most parentheses that may be open at once.
pub const NESTED: usize = 64;

/// Whether a token of this kind is an opening parenthesis.
pub fn is_left(kind: &TokenKind) -> bool
    ensures { result ≡ spec.is_left kind.now }
{
    match kind {
        TokenKind::Sym(Sym::Left) => true,
        _ => false,
    }
}

fn is_right(kind: &TokenKind) -> bool
    ensures { result ≡ spec.is_right kind.now }
{
    match kind {
        TokenKind::Sym(Sym::Right) => true,
        _ => false,
    }
}

/// Whether more parentheses are open at some token than may be.
pub fn opens_too_many(tokens: &[Token]) -> bool
    ensures { result ≡ spec.opens_too_many 0 0 (kinds tokens.now) }
{
    let mut opened = 0_usize;
    let mut closed = 0_usize;
    for token in tokens {
        opened += usize::from(is_left(&token.kind));
        closed += usize::from(is_right(&token.kind));
        if closed + NESTED < opened {
            return true;
        }
    }
    false
}
