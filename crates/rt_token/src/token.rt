//! Tokens, as the lexer gives them.

use crate::span::Span;
use crate::sym::Sym;
use rt_value::Txt;

/// What a token is. Every text in it is the content alone, without the quotes around it.
#[derive(Drop)]
pub enum TokenKind {
    /// A word, folded to lower case.
    Word(Txt),
    /// A quoted name, as written.
    Quoted(Txt),
    /// A number from 0 to 2^127 - 1.
    Number(i128),
    /// A text, as written.
    Str(Txt),
    Sym(Sym),
}

/// A token and the bytes of the text that it was read from.
#[derive(Drop)]
pub struct Token {
    pub kind: TokenKind,
    pub span: Span,
}
