//! The errors of an algebra text, from the lexer to name resolution. `parse_ra` answers TooDeep,
//! Syntax and NoMemory alone.

ghost use Rattle.std.specs.Prelude.{◌≡◌};
ghost use Rattle.rt_ra_tree.specs.declared.fault.RaFault.TheVariants as faults;

use rt_token::LexFault;
use rt_value::{NoMemory, Txt};

/// Why a text is no query of the algebra over a schema. A text is the name as the query has it.
#[derive(Debug, Drop)]
pub enum RaFault {
    Lex(LexFault),
    /// More than 64 open parentheses, or more than 8 LEFTJOINs and DIVIDEs together.
    TooDeep,
    /// The tokens are those of no tree. The place is the start of a token or the end of the last
    /// one.
    Syntax(usize),
    UnknownTable(Txt),
    UnknownColumn(Txt),
    /// A name that two columns of a result would have.
    DuplicateColumn(Txt),
    /// Sides of a test or columns of two operands that are of different kinds.
    TypeMismatch,
    /// Names or columns whose numbers do not fit.
    Columns,
    NoMemory,
}

impl From<NoMemory> for RaFault {
    ghost from_gives = { λ _ fault. fault ≡ faults.NoMemory };

    fn from(_e: NoMemory) -> RaFault {
        RaFault::NoMemory
    }
}
