//! A first choice made smaller before anything is counted, so that the counter is small.

ghost use Rattle.std.specs.Prelude.{◌≡◌, ◌<◌, IfOk, OnOk, true, false, length, slice_index_or};
ghost use Rattle.rt_least.specs.Sought.{IsSought};

use rt_formula::{Dag, Node};
use rt_value::{Keep, NoMemory};

// The number of nodes that may be evaluated to make a choice smaller.
const MOST_STEPS: usize = 1 << 27;

// Leaves a row out if the goal stays true without it.
fn leave_out(
    dag: &Dag,
    goal: Node,
    cone: &Keep,
    place: usize,
    best: &mut Keep,
) -> Result<(), NoMemory>
    requires goal { goal < length dag.now.entries }
    requires place { place < length best.old }
    requires kept { slice_index_or best.old place false ≡ true }
    requires best { IsSought dag.now goal cone.now best.old }
    ensures long { OnOk result (length best.new ≡ length best.old) }
    ensures sought { OnOk result (IsSought dag.now goal cone.now best.new) }
{
    best.set(place, false);
    if !dag.value(goal, best)? {
        best.set(place, true);
    }
    Ok(())
}

/// Leaves rows out one by one, the last first, if the goal stays true without them. It stops when
/// `MOST_STEPS` nodes have been evaluated.
pub fn smaller(dag: &Dag, goal: Node, cone: &Keep, best: Keep) -> Result<Keep, NoMemory>
    requires goal { goal < length dag.now.entries }
    requires best { IsSought dag.now goal cone.now best }
    ensures { IfOk result (IsSought dag.now goal cone.now) }
{
    let mut best = best;
    let mut tries = MOST_STEPS / dag.len().max(1);
    let rows = best.len();
    for i in 0..rows {
        let place = rows - 1 - i;
        if tries == 0 {
            break;
        }
        if best.is(place) {
            leave_out(dag, goal, cone, place, &mut best)?;
            tries -= 1;
        }
    }
    Ok(best)
}
