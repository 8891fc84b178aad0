//! The lexer: bytes to tokens, one at a time. How a token is found is private; what comes out is
//! `Lexed`, the definition that the contract names.

ghost use Rattle.std.specs.Prelude.{◌≡◌, ◌≤◌, ◌<◌, ◌+◌, length, IfOk};
ghost use Rattle.rt_value.specs.Gives.{Gives};
ghost use Rattle.rt_token.specs.Lexed.{lexed, lexed_from};
ghost use Rattle.rt_token.specs.Layout.{AreInOrder, TellsUtf8, is_memory};
ghost use Rattle.rt_token.specs.Spelled.{AreReadings};

use crate::fault::LexFault;
use crate::lexeme::front;
use crate::span::Span;
use crate::token::Token;
use rt_value::List;
use std::alloc::Global;

/// The tokens of a text, in its order, without white space and comments; or its leftmost error
/// (ISO/IEC 9075-2, 5.2 and 5.3).
pub fn tokens(alloc: Global, text: &[u8]) -> Result<List<Token>, LexFault>
    ensures value { Gives is_memory result (lexed text.now) }
    ensures utf8 { TellsUtf8 result text.now }
    ensures order { IfOk result (λ ts. AreInOrder 0 ts (length text.now)) }
    ensures readings { IfOk result (AreReadings text.now) }
{
    match str::from_utf8(text) {
        Ok(text) => tokens_of(alloc, text),
        Err(e) => Err(LexFault::NotUtf8(e.valid_up_to())),
    }
}

fn tokens_of(alloc: Global, text: &str) -> Result<List<Token>, LexFault>
    ensures value { Gives is_memory result (lexed_from 0 0 text.now) }
    ensures order { IfOk result (λ ts. AreInOrder 0 ts (length text.now)) }
    ensures readings { IfOk result (AreReadings text.now) }
{
    let mut found = List::new(alloc);
    let mut at = 0;
    'tokens: while at < text.len() {
        let piece = front(alloc, text, at)?;
        let span = Span {
            from: at,
            to: at + piece.len,
        };
        at = span.to;
        if let Some(kind) = piece.kind {
            found.push(Token { kind, span })?;
        }
    }
    Ok(found)
}
