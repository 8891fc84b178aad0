//! One step of the lexer: the token, white space or comment that begins at a place. The order of
//! the tests is private; the value is that of `Lexed.front`.

ghost use Rattle.std.specs.Prelude.{◌≡◌, ◌≤◌, ◌<◌, ◌+◌, ◌^◌, IsTrue, length, drop, [], ◌∷◌, IfOk, IfSome, IsSome, slice_index, if◌then◌else◌, ◌==◌};
ghost use Rattle.std.specs.Char.{is_ascii_digit};
ghost use Rattle.std.specs.List.{prefix_len};
ghost use Rattle.std.specs.Str.{IsCharBoundary};
ghost use Rattle.rt_value.specs.Gives.{Gives};
ghost use Rattle.rt_token.specs.Lexed as spec;
ghost use Rattle.rt_token.specs.Layout.{is_memory};
ghost use Rattle.rt_token.specs.Spelled.{IsRead};

use crate::bytes::{
    byte_at, comment_end, digits_len, is_letter, is_space, line_len, rest, word_len,
};
use crate::content::{closing, lower_case};
use crate::fault::LexFault;
use crate::sym::Sym;
use crate::token::TokenKind;
use rt_value::decimal_up_to;
use std::alloc::Global;

/// `len` bytes of a text: a token of this kind, or where there is no kind, white space or a
/// comment.
#[derive(Drop)]
pub struct Lexeme {
    pub kind: Option<TokenKind>,
    pub len: usize,
}

impl Lexeme {
    fn token(kind: TokenKind, len: usize) -> Result<Lexeme, LexFault>
        ensures { result ≡ spec.token kind len }
    {
        Ok(Lexeme {
            kind: Some(kind),
            len,
        })
    }

    fn passed(len: usize) -> Result<Lexeme, LexFault>
        ensures { result ≡ spec.passed len }
    {
        Ok(Lexeme { kind: None, len })
    }
}

/// The longest token, white space or comment that begins at a place.
#[tactic(auto, unfolding(crate::specs::Lexed::front))]
pub fn front(alloc: Global, text: &str, at: usize) -> Result<Lexeme, LexFault>
    requires { at < length text.now }
    ensures value { Gives is_memory result (spec.front at (drop at text.now)) }
    ensures reading { IsRead result (drop at text.now) }
    ensures within { IfOk result (λ l. (0 < l.len) × (at + l.len ≤ length text.now)) }
{
    let z = rest(text.as_bytes(), at);
    let b = byte_at(z, 0);
    let next = byte_at(z, 1);
    if is_space(b) {
        Lexeme::passed(1)
    } else if is_letter(b) {
        word(alloc, text, at)
    } else if b.is_ascii_digit() {
        number(at, z)
    } else if b == b'\'' {
        string(alloc, text, at)
    } else if b == b'"' {
        quoted(alloc, text, at)
    } else if b == b'-' && next == b'-' {
        Lexeme::passed(line_len(z))
    } else if b == b'/' && next == b'*' {
        comment(at, z)
    } else {
        symbol(at, b, next)
    }
}

fn word(alloc: Global, text: &str, at: usize) -> Result<Lexeme, LexFault>
    requires within { at < length text.now }
    requires begins { IsTrue (spec.is_letter (slice_index text.now at)) }
    ensures value { Gives is_memory result (spec.word (drop at text.now)) }
    ensures reading { IsRead result (drop at text.now) }
    ensures within { IfOk result (λ l. (0 < l.len) × (at + l.len ≤ length text.now)) }
{
    let len = word_len(rest(text.as_bytes(), at));
    let word = lower_case(alloc, text, at, at + len)?;
    Lexeme::token(TokenKind::Word(word), len)
}

fn number(at: usize, z: &[u8]) -> Result<Lexeme, LexFault>
    requires begins { 0 < prefix_len is_ascii_digit z.now }
    requires within { at + length z.now < 2 ^ 64 }
    ensures value { result ≡ spec.number at z.now }
    ensures reading { IsRead result z.now }
    ensures within { IfOk result (λ l. (0 < l.len) × (l.len ≤ length z.now)) }
{
    let len = digits_len(z);
    let Some(value) = decimal_up_to(&z[..len], (1 << 127) - 1) else {
        return Err(LexFault::BigNumber(at));
    };
    if is_letter(byte_at(z, len)) {
        return Err(LexFault::BadByte(at + len));
    }
    Lexeme::token(TokenKind::Number(value as i128), len)
}

fn string(alloc: Global, text: &str, at: usize) -> Result<Lexeme, LexFault>
    requires { (at < length text.now) × (slice_index text.now at ≡ 39) }
    ensures value { Gives is_memory result (spec.text_of at (spec.closing 39 (drop 1 (drop at text.now)))) }
    ensures reading { IsRead result (drop at text.now) }
    ensures within { IfOk result (λ l. (0 < l.len) × (at + l.len ≤ length text.now)) }
{
    let Some((content, len)) = closing(alloc, b'\'', text, at + 1)? else {
        return Err(LexFault::OpenText(at));
    };
    Lexeme::token(TokenKind::Str(content), len + 1)
}

fn quoted(alloc: Global, text: &str, at: usize) -> Result<Lexeme, LexFault>
    requires { (at < length text.now) × (slice_index text.now at ≡ 34) }
    ensures value { Gives is_memory result (spec.quoted_of at (spec.closing 34 (drop 1 (drop at text.now)))) }
    ensures reading { IsRead result (drop at text.now) }
    ensures within { IfOk result (λ l. (0 < l.len) × (at + l.len ≤ length text.now)) }
{
    let Some((content, len)) = closing(alloc, b'"', text, at + 1)? else {
        return Err(LexFault::OpenText(at));
    };
    if content.as_bytes().is_empty() {
        return Err(LexFault::BadByte(at));
    }
    Lexeme::token(TokenKind::Quoted(content), len + 1)
}

fn comment(at: usize, z: &[u8]) -> Result<Lexeme, LexFault>
    requires { 2 ≤ length z.now }
    ensures value { result ≡ spec.comment_of at (spec.comment_end (drop 2 z.now)) }
    ensures reading { IsRead result z.now }
    ensures within { IfOk result (λ l. (0 < l.len) × (l.len ≤ length z.now)) }
{
    let Some(len) = comment_end(rest(z, 2)) else {
        return Err(LexFault::OpenComment(at));
    };
    Lexeme::passed(len + 2)
}

#[tactic(auto, unfolding(crate::specs::Lexed::symbol))]
fn symbol(at: usize, b: u8, next: u8) -> Result<Lexeme, LexFault>
    ensures value { result ≡ spec.symbol at b next }
    ensures reading { IsRead result (b ∷ next ∷ []) }
    ensures within { IfOk result (λ l. (0 < l.len) × (l.len ≤ (if next == 0 then 1 else 2))) }
{
    let (sym, len) = match b {
        b'(' => (Sym::Left, 1),
        b')' => (Sym::Right, 1),
        b',' => (Sym::Comma, 1),
        b'.' => (Sym::Dot, 1),
        b';' => (Sym::Semi, 1),
        b'*' => (Sym::Star, 1),
        b'+' => (Sym::Plus, 1),
        b'-' => (Sym::Minus, 1),
        b'=' => (Sym::Eq, 1),
        b'<' => match next {
            b'>' => (Sym::Ne, 2),
            b'=' => (Sym::Le, 2),
            _ => (Sym::Lt, 1),
        },
        b'>' => match next {
            b'=' => (Sym::Ge, 2),
            _ => (Sym::Gt, 1),
        },
        b'!' => match next {
            b'=' => (Sym::Ne, 2),
            _ => return Err(LexFault::BadByte(at)),
        },
        _ => return Err(LexFault::BadByte(at)),
    };
    Lexeme::token(TokenKind::Sym(sym), len)
}
