//! The search for the smallest choice at which one query alone answers with a row: as `decide` of
//! `rt_top`, with another goal.

ghost use Rattle.std.specs.Prelude.{◌≤◌, IfOk, IfSome};
ghost use Rattle.rt_schema.specs.Given.{IsOf};
ghost use Rattle.rt_algebra.specs.Typed.{IsTyped};
ghost use Rattle.rt_row.specs.Holds.{IsRowVerdict};

use crate::aim::row_aim;
use rt_algebra::Typed;
use rt_formula::Dag;
use rt_input::Input;
use rt_rules::cone;
use rt_schema::{Given, Schema};
use rt_search::{Best, smallest};
use rt_value::{NoMemory, Row};
use std::alloc::Global;

// The search over the parts of an input.
fn smallest_of(
    alloc: Global,
    schema: &Schema,
    given: &Given,
    left: &Typed,
    right: &Typed,
    row: &Row,
    budget: Option<u64>,
) -> Result<Best, NoMemory>
    requires of_schema { IsOf schema.now given.now }
    requires left { IsTyped given.now.kinds left.now }
    requires right { IsTyped given.now.kinds right.now }
    requires budget { IfSome budget (λ b. 1 ≤ b) }
    ensures { IfOk result (IsRowVerdict schema.now given.now left.now right.now row.now budget) }
{
    let mut dag = Dag::new(alloc, given.total())?;
    let aim = row_aim(alloc, &mut dag, schema, given, left, right, row)?;
    let cone = cone(alloc, &dag, aim.told, schema, given)?;
    smallest(alloc, &dag, aim.goal, &cone, budget)
}

/// The first of the smallest lawful choices of the given rows at which the first query alone
/// answers with the row. Or there is none, or the budget of each round is spent.
pub fn smallest_row(alloc: Global, input: &Input, row: &Row) -> Result<Best, NoMemory>
    ensures { IfOk result (IsRowVerdict input.now.schema input.now.given input.now.left input.now.right row.now input.now.conflicts) }
{
    // An accepted input has typed queries: the contract of `schema` says so.
    let schema = input.schema();
    smallest_of(
        alloc,
        schema,
        input.given(),
        input.left(),
        input.right(),
        row,
        input.conflicts(),
    )
}
