//! From tokens to terminals: here a word becomes a keyword or a name, or is refused as reserved.

ghost use Rattle.std.specs.Prelude.{◌≡◌, Some};
ghost use Rattle.rt_token.specs.Reads.{Answers};
ghost use Rattle.rt_token.specs.Words as spec;

use crate::fixed::Fixed;
use crate::read_fault::ReadFault;
use crate::reserved::is_reserved;
use crate::sym::Sym;
use crate::terminal::{Name, Terminal};
use crate::token::{Token, TokenKind};
use crate::words::word_of;
use rt_value::{List, Txt};
use std::alloc::Global;

fn sign_of(sym: Sym) -> Fixed
    ensures { result ≡ spec.sign_of sym }
{
    match sym {
        Sym::Left => Fixed::OpenParen,
        Sym::Dot => Fixed::Dot,
        Sym::Star => Fixed::Star,
        Sym::Plus => Fixed::Plus,
        Sym::Minus => Fixed::Minus,
        Sym::Eq => Fixed::Equal,
        Sym::Ne => Fixed::NotEqual,
        Sym::Lt => Fixed::Below,
        Sym::Le => Fixed::AtMost,
        Sym::Gt => Fixed::Above,
        Sym::Ge => Fixed::AtLeast,
        Sym::Comma => Fixed::Comma,
        Sym::Right => Fixed::CloseParen,
        Sym::Semi => Fixed::Semicolon,
    }
}

/// A name with a copy of this text.
pub fn name_of(alloc: Global, text: &Txt, quoted: bool) -> Result<Name, ReadFault>
    ensures { Answers result (Some (record { text = text.now; quoted = quoted })) }
{
    let text = text.copy(alloc)?;
    Ok(Name { text, quoted })
}

fn terminal(alloc: Global, kind: &TokenKind) -> Result<Terminal, ReadFault>
    ensures { Answers result (spec.mark kind.now) }
{
    match kind {
        TokenKind::Word(word) => match word_of(word.as_str()) {
            Some(fixed) => Ok(Terminal::Fixed(fixed)),
            None => {
                if is_reserved(word.as_str()) {
                    return Err(ReadFault::Syntax(0));
                }
                Ok(Terminal::Name(name_of(alloc, word, false)?))
            }
        },
        TokenKind::Quoted(text) => Ok(Terminal::Name(name_of(alloc, text, true)?)),
        TokenKind::Number(number) => {
            let number = *number;
            if 0 <= number {
                Ok(Terminal::Number(number))
            } else {
                Err(ReadFault::Syntax(0))
            }
        }
        TokenKind::Str(text) => Ok(Terminal::Str(text.copy(alloc)?)),
        TokenKind::Sym(sym) => Ok(Terminal::Fixed(sign_of(*sym))),
    }
}

/// The terminals of the tokens. Syntax where a token is a reserved word of neither grammar, with
/// how many tokens were left, that one included.
pub fn terminals(alloc: Global, tokens: &[Token]) -> Result<List<Terminal>, ReadFault>
    ensures { Answers result (spec.marks (spec.kinds tokens.now)) }
{
    let mut items = List::new(alloc);
    let mut rest = tokens;
    'tokens: while let [first, next @ ..] = rest {
        let item = match terminal(alloc, &first.kind) {
            Ok(item) => item,
            Err(ReadFault::Syntax(_)) => return Err(ReadFault::Syntax(rest.len())),
            Err(ReadFault::NoMemory) => return Err(ReadFault::NoMemory),
        };
        items.push(item)?;
        rest = next;
    }
    Ok(items)
}
