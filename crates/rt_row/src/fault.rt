//! The errors of a row's text.

use rt_token::LexFault;
use rt_value::NoMemory;

/// Why a text is no row of a query's columns.
#[derive(Clone, Copy, PartialEq, Eq, Debug)]
pub enum RowFault {
    /// It has no tokens.
    Lex(LexFault),
    /// The tokens are no cells with commas between them.
    RowSyntax,
    /// There are more cells than columns, or fewer.
    RowWidth,
    /// A cell that isn't NULL is of another kind than its column.
    RowKind,
    NoMemory,
}

impl From<NoMemory> for RowFault {
    ghost use Rattle.std.specs.Prelude.{◌≡◌};
    ghost use Rattle.rt_row.specs.declared.fault.RowFault.TheVariants.{NoMemory};

    ghost from_gives = { λ _ e. e ≡ NoMemory };

    fn from(_e: NoMemory) -> RowFault {
        RowFault::NoMemory
    }
}
