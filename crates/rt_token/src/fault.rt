//! The error of the lexer.

use rt_value::NoMemory;

/// Why a text has no tokens. The number is the place of a byte in the text, counted from 0.
#[derive(Clone, Copy, PartialEq, Eq, Debug)]
pub enum LexFault {
    /// The text isn't UTF-8: its longest prefix that is has this length.
    NotUtf8(usize),
    /// No token begins here, or a number runs into a letter or `_` here.
    BadByte(usize),
    /// A text or a quoted name that opens here has no end.
    OpenText(usize),
    /// A comment that opens here has no end.
    OpenComment(usize),
    /// The number that begins here is above 2^127 - 1.
    BigNumber(usize),
    NoMemory,
}

impl From<NoMemory> for LexFault {
    ghost use Rattle.std.specs.Prelude.{◌≡◌};
    ghost use Rattle.rt_token.specs.declared.fault.LexFault.TheVariants.{NoMemory};

    ghost from_gives = { λ _ e. e ≡ NoMemory };

    fn from(_e: NoMemory) -> LexFault {
        LexFault::NoMemory
    }
}
