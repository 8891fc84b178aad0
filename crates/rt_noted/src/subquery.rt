//! The queries that are known. They are found by comparing queries, so that equal ones share.

ghost use Rattle.std.specs.Prelude.{IfSome};
ghost use Rattle.rt_schema.specs.Given.{Tables};
ghost use Rattle.rt_formula.specs.Shared.{Shared};
ghost use Rattle.rt_noted.specs.Known.{AreKnown, GivesOf, Holds, TellsOf};

use crate::known::Found;
use rt_algebra::{Query, same_query};
use rt_formula::Noted;
use rt_value::List;

/// What is kept of a query's rows: what EXISTS and IN need of them, or the rows for a set operator.
#[derive(Drop)]
pub enum Memo {
    Tested(Found),
    Listed(List<Noted>),
}

/// A query that names no row outside of it, and what is kept of its rows.
#[derive(Drop)]
pub struct Subquery<'q> {
    pub query: &'q Query,
    pub memo: Memo,
}

impl Subquery<'_> {
    fn found(&self, query: &Query) -> Option<&Found>
        ensures { IfSome result (λ f. (d : Shared) (given : Tables) → Holds d given self.now.query.now self.now.memo → TellsOf d given query.now f.now) }
    {
        match &self.memo {
            Memo::Tested(found) if same_query(self.query, query) => Some(found),
            _ => None,
        }
    }

    fn rows(&self, query: &Query) -> Option<&[Noted]>
        ensures { IfSome result (λ ns. (d : Shared) (given : Tables) → Holds d given self.now.query.now self.now.memo → GivesOf d given query.now ns.now) }
    {
        match &self.memo {
            Memo::Listed(rows) if same_query(self.query, query) => Some(rows.as_slice()),
            _ => None,
        }
    }
}

/// What EXISTS and IN need of the query's rows, where that is kept.
pub fn found_of<'k>(known: &'k [Subquery], query: &Query) -> Option<&'k Found>
    ensures { IfSome result (λ f. (d : Shared) (given : Tables) → AreKnown d given known.now → TellsOf d given query.now f.now) }
{
    for subquery in known {
        let found = subquery.found(query);
        if found.is_some() {
            return found;
        }
    }
    None
}

/// The query's rows, where they are kept.
pub fn rows_of<'k>(known: &'k [Subquery], query: &Query) -> Option<&'k [Noted]>
    ensures { IfSome result (λ ns. (d : Shared) (given : Tables) → AreKnown d given known.now → GivesOf d given query.now ns.now) }
{
    for subquery in known {
        let rows = subquery.rows(query);
        if rows.is_some() {
            return rows;
        }
    }
    None
}
