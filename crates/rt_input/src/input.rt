//! The accepted input. Its fields are private, so that each `Input` is one that was checked:
//! contracts get `IsAccepted` from its invariant.

ghost use Rattle.std.specs.Prelude.{◌≡◌};
ghost use Rattle.rt_input.specs.Accepted.{IsAccepted};

use crate::tables::Tables;
use rt_algebra::Typed;
use rt_schema::{Given, Schema};
use std::marker::Model;

/// An accepted input: a schema, the rows given for it, two queries over it whose columns have the
/// same kinds, and the numbers of the command.
pub struct Input {
    pub(crate) schema: Schema,
    pub(crate) given: Given,
    pub(crate) left: Typed,
    pub(crate) right: Typed,
    pub(crate) conflicts: Option<u64>,
    pub(crate) work_limit: u64,
    pub(crate) made: Option<u64>,
}

impl Drop for Input {
    fn drop(self) {
        let Input {
            schema: _,
            given: _,
            left: _,
            right: _,
            conflicts: _,
            work_limit: _,
            made: _,
        } = self;
    }
}

impl Model for Input {
    ghost use Rattle.std.specs.Coded.{codes};
    ghost use Rattle.rt_algebra.specs.contracts.query.Query as query;
    ghost use Rattle.rt_input.specs.Accepted.{Accepted, IsAccepted};

    ghost Value = { Accepted };

    ghost coded = { Prim.hlevel (codes, query.the_row.coded) };

    ghost view = { λ i. record { schema = i.schema; given = i.given; left = i.left; right = i.right; conflicts = i.conflicts; work_limit = i.work_limit; made = i.made } };

    ghost invariant = { λ i. IsAccepted (record { schema = i.schema; given = i.given; left = i.left; right = i.right; conflicts = i.conflicts; work_limit = i.work_limit; made = i.made }) };
}

impl Input {
    /// The input of these queries over the rows of the tables. `made` is the number of students
    /// of a generated one.
    pub fn new(
        tables: Tables,
        left: Typed,
        right: Typed,
        conflicts: Option<u64>,
        work_limit: u64,
        made: Option<u64>,
    ) -> Input
        requires { IsAccepted (record { schema = tables.schema; given = tables.given; left = left; right = right; conflicts = conflicts; work_limit = work_limit; made = made }) }
        ensures { result ≡ record { schema = tables.schema; given = tables.given; left = left; right = right; conflicts = conflicts; work_limit = work_limit; made = made } }
    {
        let (schema, given) = tables.into_parts();
        Input {
            schema,
            given,
            left,
            right,
            conflicts,
            work_limit,
            made,
        }
    }

    /// The schema.
    pub fn schema(&self) -> &Schema
        ensures same { result.now ≡ self.now.schema }
        ensures sound { IsAccepted self.now }
    {
        &self.schema
    }

    /// The rows given for the schema.
    pub fn given(&self) -> &Given
        ensures { result.now ≡ self.now.given }
    {
        &self.given
    }

    /// The first query.
    pub fn left(&self) -> &Typed
        ensures { result.now ≡ self.now.left }
    {
        &self.left
    }

    /// The second query.
    pub fn right(&self) -> &Typed
        ensures { result.now ≡ self.now.right }
    {
        &self.right
    }

    /// The budget of conflicts for each round of the search, if there is one.
    pub fn conflicts(&self) -> Option<u64>
        ensures { result ≡ self.now.conflicts }
    {
        self.conflicts
    }

    /// The most work that the input may be, as `work_between` counts it.
    pub fn work_limit(&self) -> u64
        ensures { result ≡ self.now.work_limit }
    {
        self.work_limit
    }

    /// The number of students of a generated input.
    pub fn made(&self) -> Option<u64>
        ensures { result ≡ self.now.made }
    {
        self.made
    }
}
