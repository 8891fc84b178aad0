//! The part of a goal that doesn't rest on the second query, made once for many of them.

ghost use Rattle.std.specs.Prelude.{◌≡◌, IfOk};
ghost use Rattle.rt_schema.specs.Given.{IsOf, places};
ghost use Rattle.rt_algebra.specs.Typed.{IsTyped};
ghost use Rattle.rt_formula.specs.Shared.{IsGrown};
ghost use Rattle.rt_annot.specs.Reference.{IsReference};

use crate::annotation::annotate;
use rt_algebra::Typed;
use rt_formula::{Dag, Node};
use rt_noted::Ann;
use rt_rules::law;
use rt_schema::{Given, Schema};
use rt_value::NoMemory;
use std::alloc::Global;

/// What the goals of one query with any others have in common: the node of the law, and the
/// query's rows. It stays that of the query as the Dag grows.
pub struct Reference {
    pub lawful: Node,
    pub rows: Ann,
}

impl Drop for Reference {
    fn drop(self) {
        let Reference { lawful: _, rows: _ } = self;
    }
}

impl Reference {
    /// The reference of a query, over the places of the given rows.
    pub fn of(
        alloc: Global,
        dag: &mut Dag,
        schema: &Schema,
        given: &Given,
        query: &Typed,
    ) -> Result<Reference, NoMemory>
        requires rows { dag.old.rows ≡ places given.now.tables }
        requires of_schema { IsOf schema.now given.now }
        requires typed { IsTyped given.now.kinds query.now }
        ensures grown { IsGrown dag.old dag.new }
        ensures reference { IfOk result (IsReference schema.now given.now query.now dag.new) }
    {
        let lawful = law(alloc, dag, schema, given)?;
        let rows = annotate(alloc, dag, query, given)?;
        Ok(Reference { lawful, rows })
    }
}
