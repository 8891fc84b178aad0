//! How a call ends, with its exit status. The readers make refusals and limits of these, and the
//! search makes verdicts.

ghost use Rattle.std.specs.Prelude.{◌≡◌};
ghost use Rattle.rt_input.specs.Steps.{is_memory};
ghost use Rattle.rt_input.specs.Texts.{status_of};

use crate::part::Part;
use rt_clause::LitList;
use rt_ddl::SchemaFault;
use rt_load::LoadFault;
use rt_scope::NameFault;
use rt_sql::SqlFault;
use rt_token::LexFault;
use rt_value::{Keep, List, NoMemory, Txt};

/// The error in the contents of a file. Out of memory and limits are outcomes of their own, and
/// are none of these.
pub enum Fault {
    /// The text of a schema or of a query has no tokens.
    Lex(LexFault),
    /// The tokens make no schema.
    Schema(SchemaFault),
    /// The table file is no table of the schema.
    Load(LoadFault),
    /// The tokens are no query.
    Sql(SqlFault),
    /// The query has no meaning over the schema, or the two queries have other columns.
    Name(NameFault),
}

impl Drop for Fault {
    fn drop(self) {
        match self {
            Fault::Lex(_) => {}
            Fault::Schema(_) => {}
            Fault::Load(_) => {}
            Fault::Sql(_) => {}
            Fault::Name(_) => {}
        }
    }
}

/// A limit that the input passes.
pub enum Limit {
    /// The file of this part has too many bytes.
    TooLong(Part),
    /// The schema has too many tables.
    Tables,
    /// This table has too many columns.
    Columns(Txt),
    /// This table has too many rules.
    Rules(Txt),
    /// The tables together have too many rows.
    Rows,
    /// The two queries and the rules of the schema take this much work.
    Work(u128),
}

impl Drop for Limit {
    fn drop(self) {
        match self {
            Limit::TooLong(_) => {}
            Limit::Tables => {}
            Limit::Columns(_) => {}
            Limit::Rules(_) => {}
            Limit::Rows => {}
            Limit::Work(_) => {}
        }
    }
}

/// What is known when the budget of conflicts is spent. `best` is the best choice of places so
/// far, if there is one, and `least` says that no counterexample keeps fewer rows.
///
/// `nogoods` has as many clauses over places as the budget says. Each is true at every
/// counterexample that keeps fewer rows than the best, or at most as many if `least` is true.
/// Without a best choice, each is true at every counterexample.
#[derive(Debug)]
pub struct Spent {
    pub budget: u64,
    pub best: Option<Keep>,
    pub least: bool,
    pub nogoods: List<LitList>,
}

impl Drop for Spent {
    fn drop(self) {
        let Spent {
            budget: _,
            best: _,
            least: _,
            nogoods: _,
        } = self;
    }
}

/// How a call of `ratest` ends.
#[derive(Drop)]
pub enum Outcome {
    /// The queries agree on every lawful sub-instance.
    Agree,
    /// The first of the smallest counterexamples in the order of rows, as the choice of the places
    /// that it keeps.
    Witness(Keep),
    /// The arguments are no command.
    Usage,
    /// The first refusal of the input.
    Refused(Part, Fault),
    /// The budget of conflicts is spent.
    Spent(Spent),
    /// The first refusal, by a limit.
    Limit(Limit),
    /// The file of this part could not be read.
    ReadFault(Part),
    /// The text could not be written.
    WriteFault,
    /// Out of memory.
    NoMemory,
}

impl Outcome {
    /// The exit status of the program, 0 to 7.
    pub fn status(&self) -> u8
        ensures { result ≡ status_of self.now }
    {
        match self {
            Outcome::Agree => 0,
            Outcome::Witness(_) => 1,
            Outcome::Usage => 2,
            Outcome::Refused(_, _) => 3,
            Outcome::Spent(_) => 4,
            Outcome::Limit(_) => 5,
            Outcome::ReadFault(_) | Outcome::WriteFault => 6,
            Outcome::NoMemory => 7,
        }
    }

    /// Whether it is out of memory.
    pub fn is_memory(&self) -> bool
        ensures { result ≡ is_memory self.now }
    {
        matches!(self, Outcome::NoMemory)
    }
}

impl From<NoMemory> for Outcome {
    ghost use Rattle.std.specs.Prelude.{◌≡◌};
    ghost use Rattle.rt_input.specs.declared.outcome.Outcome.TheVariants.{NoMemory as memory};

    ghost from_gives = { λ _ o. o ≡ memory };

    fn from(_e: NoMemory) -> Outcome {
        Outcome::NoMemory
    }
}
