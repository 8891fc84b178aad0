//! From "so many tokens were left" to a place in the text, for messages.

ghost use Rattle.std.specs.Prelude.{◌≡◌};
ghost use Rattle.rt_token.specs.Places.{IsPlace, end_or};

use crate::token::Token;

fn end(tokens: &[Token]) -> usize
    ensures { result ≡ end_or 0 tokens.now }
{
    let mut end = 0;
    let mut rest = tokens;
    'tokens: while let [first, next @ ..] = rest {
        end = first.span.to;
        rest = next;
    }
    end
}

/// The place of a syntax error that was seen where `left` tokens were left: the start of the first
/// of them, or the end of the last token where none was. Bytes, counted from 0.
#[tactic(auto, using(crate::proofs::PlaceLemmas::start_is_place, crate::proofs::PlaceLemmas::end_is_place))]
pub fn syntax_place(tokens: &[Token], left: usize) -> usize
    ensures { IsPlace tokens.now result }
{
    if 0 < left && left <= tokens.len() {
        tokens[tokens.len() - left].span.from
    } else {
        end(tokens)
    }
}
