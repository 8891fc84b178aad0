//! From an input to the decision on it: formula, cone, and search, each a crate of its own. How
//! they are put together is private; the contracts speak of smallest counterexamples.

ghost use Rattle.std.specs.Prelude.{ℕ, ◌≤◌, Option, IfOk, IfSome};
ghost use Rattle.rt_schema.specs.Given.{IsOf};
ghost use Rattle.rt_algebra.specs.Typed.{IsTypedOf};
ghost use Rattle.rt_top.specs.GivenUp.{IsVerdict};

use rt_algebra::Typed;
use rt_annot::goal;
use rt_formula::Dag;
use rt_input::Input;
use rt_rules::cone;
use rt_schema::{Given, Schema};
use rt_search::{Best, smallest};
use rt_value::NoMemory;
use std::alloc::Global;

/// The first of the smallest counterexamples of an input, in the order of rows, or that there is
/// none, or that the budget is spent. It is the least choice of rows at which the formula of the
/// counterexamples is true. Only the rows that can matter to the difference are searched.
pub fn decide(alloc: Global, input: &Input) -> Result<Best, NoMemory>
    ensures { IfOk result (IsVerdict input.now) }
{
    let schema = input.schema();
    decide_between(
        alloc,
        schema,
        input.given(),
        input.left(),
        input.right(),
        input.conflicts(),
    )
}

/// The same for two queries over given rows. `conflicts` is the budget of each round of the
/// search.
pub fn decide_between(
    alloc: Global,
    schema: &Schema,
    given: &Given,
    left: &Typed,
    right: &Typed,
    conflicts: Option<u64>,
) -> Result<Best, NoMemory>
    requires of_schema { IsOf schema.now given.now }
    requires left { IsTypedOf schema.now left.now }
    requires right { IsTypedOf schema.now right.now }
    requires conflicts { IfSome conflicts (λ b. 1 ≤ b) }
    ensures { IfOk result (λ best. (limit : ℕ) (made : Option ℕ) → IsVerdict (record { schema = schema.now; given = given.now; left = left.now; right = right.now; conflicts = conflicts; work_limit = limit; made = made }) best) }
{
    let mut dag = Dag::new(alloc, given.total())?;
    let aim = goal(alloc, &mut dag, schema, given, left, right)?;
    let cone = cone(alloc, &dag, aim.differs, schema, given)?;
    smallest(alloc, &dag, aim.goal, &cone, conflicts)
}
