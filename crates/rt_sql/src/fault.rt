//! The errors of parsing a query.

ghost use Rattle.std.specs.Prelude.{◌≡◌};
ghost use Rattle.rt_sql.specs.declared.fault.SqlFault.TheVariants as faults;

use rt_value::{NoMemory, Txt};

/// Why tokens are no query. The errors are tested in this order, each over all the tokens. A place
/// is that of a byte, counted from 0.
#[derive(Drop)]
pub enum SqlFault {
    /// The first word that no query may have, or that a call would begin with, and its place.
    Unsupported(Txt, usize),
    /// More than 64 open parentheses or SELECTs, or more than 8 NOTs or minus signs directly after
    /// one another.
    TooDeep,
    /// The tokens are those of no query. The place is the start of a token or the end of the last
    /// one.
    Syntax(usize),
    NoMemory,
}

impl From<NoMemory> for SqlFault {
    ghost from_gives = { λ _ fault. fault ≡ faults.NoMemory };

    fn from(_e: NoMemory) -> SqlFault {
        SqlFault::NoMemory
    }
}
