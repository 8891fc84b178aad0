//! The fixed terminals and their codes. The numbers are part of every grammar's proofs: a new
//! terminal needs a place in the order, in `specs/Terminals.antt` too.

ghost use Rattle.std.specs.Prelude.{◌≡◌};
ghost use Rattle.rt_token.specs.Terminals as spec;

/// A terminal that is always spelled the same: a symbol, or a reserved word of one of the grammars.
///
/// The variants are in the order of their codes.
#[derive(Clone, Copy, PartialEq, Eq, Debug)]
pub enum Fixed {
    OpenParen,
    Dot,
    Star,
    Plus,
    Minus,
    Constraint,
    Null,
    Primary,
    Unique,
    References,
    Equal,
    NotEqual,
    Below,
    AtMost,
    Above,
    AtLeast,
    Is,
    Not,
    In,
    Between,
    And,
    Or,
    As,
    Inner,
    Join,
    Cross,
    Check,
    Comma,
    Where,
    Intersect,
    Union,
    Except,
    CloseParen,
    Semicolon,
    From,
    On,
    Select,
    Distinct,
    Exists,
    Create,
    Table,
    Foreign,
}

/// The place of a terminal in the order of what may follow what. Each rule of a grammar has a
/// number: what it reads may be followed by each terminal of that code or a higher one. In
/// `a.x * b + c - d, e` the number of a factor is 2, of a product 3 and of a sum 5. So `.` (1) goes
/// on with a factor, `*` (2) with a product, `+` (3) and `-` (4) with a sum; `,` (28) ends all
/// three.
pub fn code(fixed: Fixed) -> u8
    ensures { result ≡ spec.code fixed }
{
    match fixed {
        Fixed::OpenParen => 0,
        Fixed::Dot => 1,
        Fixed::Star => 2,
        Fixed::Plus => 3,
        Fixed::Minus => 4,
        Fixed::Constraint => 5,
        Fixed::Null => 6,
        Fixed::Primary => 7,
        Fixed::Unique => 8,
        Fixed::References => 9,
        Fixed::Equal => 10,
        Fixed::NotEqual => 11,
        Fixed::Below => 12,
        Fixed::AtMost => 13,
        Fixed::Above => 14,
        Fixed::AtLeast => 15,
        Fixed::Is => 16,
        Fixed::Not => 17,
        Fixed::In => 18,
        Fixed::Between => 19,
        Fixed::And => 20,
        Fixed::Or => 21,
        Fixed::As => 22,
        Fixed::Inner => 24,
        Fixed::Join => 25,
        Fixed::Cross => 26,
        Fixed::Check => 27,
        Fixed::Comma => 28,
        Fixed::Where => 29,
        Fixed::Intersect => 30,
        Fixed::Union => 31,
        Fixed::Except => 32,
        Fixed::CloseParen => 33,
        Fixed::Semicolon => 34,
        Fixed::From => 36,
        Fixed::On => 37,
        Fixed::Select => 38,
        Fixed::Distinct => 39,
        Fixed::Exists => 40,
        Fixed::Create => 41,
        Fixed::Table => 42,
        Fixed::Foreign => 43,
    }
}
