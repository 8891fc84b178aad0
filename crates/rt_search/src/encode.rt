//! The clauses of a search: those of the goal, and one for each row that cannot matter.

ghost use Rattle.std.specs.Prelude.{◌≡◌, ◌<◌, ◌^◌, ◌++◌, [], ◌∷◌, IfOk, OnOk, length};
ghost use Rattle.rt_least.specs.Aimed.{IsAimed};
ghost use Rattle.rt_least.specs.Sought.{left_out};

use rt_clause::{Adds, Lit, Named};
use rt_clausify::clausify;
use rt_formula::{Dag, Node};
use rt_value::{Keep, NoMemory};
use std::alloc::Global;

// Rows beyond this many would not fit literals; the answer is out of memory.
const MOST_ROWS: usize = 1 << 61;

// If the row is outside of the cone, adds the clause that it is not kept.
fn leave_one<A: Adds>(inside: bool, place: usize, to: &mut A) -> Result<(), NoMemory>
    requires { place < 2 ^ 61 }
    ensures { OnOk result (A.lines to.new ≡ A.lines to.old ++ left_out place (inside ∷ [])) }
{
    if inside {
        return Ok(());
    }
    let line = [Lit::of(place, false)];
    to.add(line.as_slice())
}

// Adds that clause for each row outside of the cone.
fn leave_out<A: Adds>(cone: &Keep, to: &mut A) -> Result<(), NoMemory>
    ensures { OnOk result (A.lines to.new ≡ A.lines to.old ++ left_out 0 cone.now) }
{
    let rows = cone.len();
    if rows > MOST_ROWS {
        return Err(NoMemory);
    }
    for place in 0..rows {
        leave_one(cone.is(place), place, to)?;
    }
    Ok(())
}

/// Adds the clauses of the goal, and that no row outside of the cone is kept.
pub(crate) fn encode<A: Adds>(
    alloc: Global,
    dag: &Dag,
    goal: Node,
    cone: &Keep,
    to: &mut A,
) -> Result<Named, NoMemory>
    requires goal { goal < length dag.now.entries }
    requires long { length cone.now ≡ dag.now.rows }
    requires empty { A.lines to.old ≡ [] }
    ensures rows { IfOk result (λ named. named.rows ≡ dag.now.rows) }
    ensures aimed { IfOk result (λ named. IsAimed dag.now goal cone.now (A.lines to.new) named.next) }
{
    let named = clausify(alloc, dag, goal, to)?;
    leave_out(cone, to)?;
    Ok(named)
}
