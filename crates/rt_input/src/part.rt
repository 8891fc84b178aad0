//! The parts of an input that a refusal names.

ghost use Rattle.std.specs.Prelude.{◌≡◌};
ghost use Rattle.rt_input.specs.Source.{query_part};

use rt_value::Txt;

/// A part of an input: the schema, a table by its number (from 0) and name, a query, or the
/// comparison of the two queries' columns.
#[derive(Debug, Drop)]
pub enum Part {
    Schema,
    Table(usize, Txt),
    Query1,
    Query2,
    Queries,
}

/// Which of the two queries.
#[derive(Clone, Copy)]
pub enum QueryPart {
    First,
    Second,
}

impl QueryPart {
    /// The part of the input for this query.
    pub fn part(self) -> Part
        ensures { result ≡ query_part self }
    {
        match self {
            QueryPart::First => Part::Query1,
            QueryPart::Second => Part::Query2,
        }
    }
}
