//! Tokens that are nested too deep: limits of our own. LEFTJOIN and DIVIDE become queries that have
//! an operand more than once, so that nesting them multiplies the size each time.

ghost use Rattle.std.specs.Prelude.{◌≡◌};
ghost use Rattle.rt_token.specs.Words.{kinds};
ghost use Rattle.rt_ra_tree.specs.Depth as spec;

use rt_token::{Token, TokenKind};
use rt_tree::opens_too_many;

/// The most LEFTJOINs and DIVIDEs together, whose meaning repeats their operands.
pub const DOUBLED: usize = 8;

fn is_doubling(kind: &TokenKind) -> bool
    ensures { result ≡ spec.is_doubling kind.now }
{
    match kind {
        TokenKind::Word(text) => *text.as_str() == *"leftjoin" || *text.as_str() == *"divide",
        _ => false,
    }
}

fn doubles_too_many(tokens: &[Token]) -> bool
    ensures { result ≡ spec.doubles_too_many (kinds tokens.now) }
{
    let mut doubling = 0_usize;
    for token in tokens {
        if is_doubling(&token.kind) {
            doubling += 1;
        }
    }
    DOUBLED < doubling
}

/// Whether the tokens are nested too deep.
pub(crate) fn is_deep(tokens: &[Token]) -> bool
    ensures { result ≡ spec.is_deep (kinds tokens.now) }
{
    opens_too_many(tokens) || doubles_too_many(tokens)
}
