//! One cell of a row, from its tokens.

ghost use Rattle.std.specs.Prelude.{◌≡◌, IfOk};
ghost use Rattle.rt_row.specs.Rows as spec;

use rt_token::{Sym, Token, TokenKind};
use rt_value::{NoMemory, Value};
use std::alloc::Global;

// The cell of one token: NULL, a number or a text.
fn plain(alloc: Global, kind: &TokenKind) -> Result<Option<Value>, NoMemory>
    ensures { IfOk result (λ v. v ≡ spec.plain kind.now) }
{
    match kind {
        TokenKind::Word(word) if word.as_str() == "null" => Ok(Some(Value::Null)),
        TokenKind::Number(n) => Ok(Some(Value::Int(*n))),
        TokenKind::Str(text) => Ok(Some(Value::Text(text.copy(alloc)?))),
        _ => Ok(None),
    }
}

// The cell of a minus sign before a number.
fn negative(sign: &TokenKind, number: &TokenKind) -> Option<Value>
    ensures { result ≡ spec.negative sign.now number.now }
{
    match (sign, number) {
        (TokenKind::Sym(Sym::Minus), TokenKind::Number(n)) if *n >= 0 => Some(Value::Int(-*n)),
        _ => None,
    }
}

/// The cell that these tokens are, if they are one.
pub(crate) fn cell(alloc: Global, tokens: &[Token]) -> Result<Option<Value>, NoMemory>
    ensures { IfOk result (λ v. v ≡ spec.cell tokens.now) }
{
    match tokens {
        [token] => plain(alloc, &token.kind),
        [sign, number] => Ok(negative(&sign.kind, &number.kind)),
        _ => Ok(None),
    }
}
