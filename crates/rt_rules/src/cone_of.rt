//! The cone of a goal: its own rows, and then whatever they refer to, step by step.

ghost use Rattle.std.specs.Prelude.{◌≡◌, ◌<◌, Bool, List, true, length, IfOk};
ghost use Rattle.rt_schema.specs.Given.{IsOf, places};
ghost use Rattle.rt_schema.specs.Kept.{kept};
ghost use Rattle.rt_schema.specs.Law.{lawful};
ghost use Rattle.rt_formula.specs.Cut.{cut};
ghost use Rattle.rt_formula.specs.Shared.{val};
ghost use Rattle.rt_rules.specs.Cone.{IsCone};

use crate::closing::close;
use crate::links::references;
use rt_formula::{Dag, Node, rows_under};
use rt_schema::{Given, Schema};
use rt_value::{Keep, NoMemory};
use std::alloc::Global;

/// The rows that can matter to the goal at lawful choices, one Bool for each place. A lawful
/// choice stays lawful, and the goal keeps its value, without the rows outside of it. Takes at
/// most time in the number of rows times that of pairs of rows that match by a foreign key.
pub fn cone(
    alloc: Global,
    dag: &Dag,
    goal: Node,
    schema: &Schema,
    given: &Given,
) -> Result<Keep, NoMemory>
    requires goal { goal < length dag.now.entries }
    requires rows { dag.now.rows ≡ places given.now.tables }
    requires of_schema { IsOf schema.now given.now }
    ensures long { IfOk result (λ c. length c ≡ dag.now.rows) }
    ensures cone { IfOk result (λ c. IsCone schema.now given.now.tables dag.now goal c) }
    ensures lawful { IfOk result (λ c. (keep : List Bool) → length keep ≡ dag.now.rows → lawful schema.now (kept given.now.tables keep) ≡ true → lawful schema.now (kept given.now.tables (cut keep c)) ≡ true) }
    ensures same { IfOk result (λ c. (keep : List Bool) → val dag.now (cut keep c) goal ≡ val dag.now keep goal) }
{
    let _nodes = dag.len();
    let _places = given.total();
    let mut cone = rows_under(alloc, dag, goal)?;
    let links = references(alloc, schema, given)?;
    close(&mut cone, links.as_slice());
    Ok(cone)
}
