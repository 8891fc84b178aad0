//! From the errors of each reader to outcomes. Out of memory and limits become outcomes of their
//! own; every other error is a refusal of the part that it is in.

ghost use Rattle.std.specs.Prelude.{◌≡◌};
ghost use Rattle.rt_input.specs.Faults.{excess_limit, lex_outcome, load_outcome, name_outcome, schema_outcome, sql_outcome};

use crate::outcome::{Fault, Limit, Outcome};
use crate::part::Part;
use rt_ddl::{Excess, SchemaFault};
use rt_load::LoadFault;
use rt_scope::NameFault;
use rt_sql::SqlFault;
use rt_token::LexFault;

/// The outcome of an error of the lexer in the text of a part.
pub(crate) fn lex_outcome(part: Part, fault: LexFault) -> Outcome
    ensures { result ≡ lex_outcome part fault }
{
    match fault {
        LexFault::NoMemory => Outcome::NoMemory,
        fault => Outcome::Refused(part, Fault::Lex(fault)),
    }
}

fn excess_limit(excess: Excess) -> Limit
    ensures { result ≡ excess_limit excess }
{
    match excess {
        Excess::Tables => Limit::Tables,
        Excess::Columns(table) => Limit::Columns(table),
        Excess::Rules(table) => Limit::Rules(table),
    }
}

/// The outcome of an error in a schema.
pub(crate) fn schema_outcome(fault: SchemaFault) -> Outcome
    ensures { result ≡ schema_outcome fault }
{
    match fault {
        SchemaFault::Lex(fault) => lex_outcome(Part::Schema, fault),
        SchemaFault::TooMany(excess) => Outcome::Limit(excess_limit(excess)),
        SchemaFault::NoMemory => Outcome::NoMemory,
        fault => Outcome::Refused(Part::Schema, Fault::Schema(fault)),
    }
}

/// The outcome of an error in a table file.
pub(crate) fn load_outcome(part: Part, fault: LoadFault) -> Outcome
    ensures { result ≡ load_outcome part fault }
{
    match fault {
        LoadFault::NoMemory => Outcome::NoMemory,
        LoadFault::TooManyRows => Outcome::Limit(Limit::Rows),
        fault => Outcome::Refused(part, Fault::Load(fault)),
    }
}

/// The outcome of an error of the parser: the tokens are no query.
pub(crate) fn sql_outcome(part: Part, fault: SqlFault) -> Outcome
    ensures { result ≡ sql_outcome part fault }
{
    match fault {
        SqlFault::NoMemory => Outcome::NoMemory,
        fault => Outcome::Refused(part, Fault::Sql(fault)),
    }
}

/// The outcome of a query that has no meaning over the schema, such as one with an unknown name.
pub(crate) fn name_outcome(part: Part, fault: NameFault) -> Outcome
    ensures { result ≡ name_outcome part fault }
{
    match fault {
        NameFault::NoMemory => Outcome::NoMemory,
        fault => Outcome::Refused(part, Fault::Name(fault)),
    }
}
