//! The verdict on a reference and one more query, on the reference's own Dag.

ghost use Rattle.std.specs.Prelude.{◌≡◌, ◌≤◌, IfOk, IfSome};
ghost use Rattle.rt_schema.specs.Given.{places};
ghost use Rattle.rt_algebra.specs.Typed.{IsTypedOf};
ghost use Rattle.rt_formula.specs.Shared.{IsGrown};
ghost use Rattle.rt_annot.specs.Reference.{IsReference};
ghost use Rattle.rt_input.specs.First.{IsFirst};
ghost use Rattle.rt_grade.specs.Prepared.{IsVerdictBeside};

use rt_algebra::Typed;
use rt_annot::{Reference, goal_beside};
use rt_formula::Dag;
use rt_input::First;
use rt_rules::cone;
use rt_search::{Best, smallest};
use rt_value::NoMemory;
use std::alloc::Global;

/// The verdict on the first query, whose reference is on the Dag, and a second one. The Dag is
/// left as it was, also after an error.
pub(crate) fn decide_beside(
    alloc: Global,
    dag: &mut Dag,
    reference: &Reference,
    first: &First,
    right: &Typed,
    conflicts: Option<u64>,
) -> Result<Best, NoMemory>
    requires first { IsFirst first.now }
    requires rows { dag.old.rows ≡ places first.now.given.tables }
    requires reference { IsReference first.now.schema first.now.given first.now.left dag.old reference.now }
    requires right { IsTypedOf first.now.schema right.now }
    requires conflicts { IfSome conflicts (λ b. 1 ≤ b) }
    ensures verdict { IfOk result (IsVerdictBeside first.now right.now conflicts) }
    ensures dag { dag.new ≡ dag.old }
{
    let nodes = dag.len();
    let best = search_beside(alloc, dag, reference, first, right, conflicts);
    dag.truncate(nodes);
    best
}

// The same, which leaves its nodes on the Dag.
fn search_beside(
    alloc: Global,
    dag: &mut Dag,
    reference: &Reference,
    first: &First,
    right: &Typed,
    conflicts: Option<u64>,
) -> Result<Best, NoMemory>
    requires first { IsFirst first.now }
    requires rows { dag.old.rows ≡ places first.now.given.tables }
    requires reference { IsReference first.now.schema first.now.given first.now.left dag.old reference.now }
    requires right { IsTypedOf first.now.schema right.now }
    requires conflicts { IfSome conflicts (λ b. 1 ≤ b) }
    ensures grown { IsGrown dag.old dag.new }
    ensures verdict { IfOk result (IsVerdictBeside first.now right.now conflicts) }
{
    let aim = goal_beside(alloc, dag, &first.given, reference, right)?;
    let cone = cone(alloc, dag, aim.differs, &first.schema, &first.given)?;
    smallest(alloc, dag, aim.goal, &cone, conflicts)
}
