//! The errors of reading a schema, those of the lexer included.

ghost use Rattle.std.specs.Prelude.{◌≡◌};
ghost use Rattle.rt_ddl.specs.LexFaults.{of_lex};
ghost use Rattle.rt_ddl.specs.declared.fault.SchemaFault.TheVariants as faults;

use rt_token::LexFault;
use rt_value::{NoMemory, Txt};

/// What a schema has too many of. The text is the table's name.
#[derive(Debug, Drop)]
pub enum Excess {
    Tables,
    Columns(Txt),
    /// Keys, foreign keys, checks and dependencies, together.
    Rules(Txt),
}

/// Why a text makes no schema. The errors are tested in this order, each over the whole text; of
/// those of one kind the first in the text is the answer.
#[derive(Debug, Drop)]
pub enum SchemaFault {
    Lex(LexFault),
    /// The tokens are those of no schema. The place is the start of a token or the end of the last
    /// one.
    Syntax(usize),
    /// A table, a column of a table or a column in a list of a rule is named again; or this table
    /// has a second primary key.
    DuplicateName(Txt),
    /// A rule names a table or a column that isn't there, or a table without a primary key where
    /// it means its columns.
    UnknownName(Txt),
    /// This table has a foreign key whose columns are fewer, more or of other kinds than those that
    /// they refer to.
    KeyTypes(Txt),
    TooMany(Excess),
    /// This table has a check that compares a whole number with a text.
    CheckTypes(Txt),
    NoMemory,
}

impl From<NoMemory> for SchemaFault {
    ghost from_gives = { λ _ fault. fault ≡ faults.NoMemory };

    fn from(_e: NoMemory) -> SchemaFault {
        SchemaFault::NoMemory
    }
}

impl From<LexFault> for SchemaFault {
    ghost from_gives = { λ lex fault. fault ≡ of_lex lex };

    fn from(fault: LexFault) -> SchemaFault {
        match fault {
            LexFault::NotUtf8(at) => SchemaFault::Lex(LexFault::NotUtf8(at)),
            LexFault::BadByte(at) => SchemaFault::Lex(LexFault::BadByte(at)),
            LexFault::OpenText(at) => SchemaFault::Lex(LexFault::OpenText(at)),
            LexFault::OpenComment(at) => SchemaFault::Lex(LexFault::OpenComment(at)),
            LexFault::BigNumber(at) => SchemaFault::Lex(LexFault::BigNumber(at)),
            LexFault::NoMemory => SchemaFault::NoMemory,
        }
    }
}
