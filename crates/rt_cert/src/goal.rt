//! The clauses of a certificate's question: those of the goal, and then a counter of the rows.

ghost use Rattle.std.specs.Prelude.{◌≡◌, ◌≤◌, ◌<◌, true, [], IfOk, length};
ghost use Rattle.rt_formula.specs.Shared.{val};
ghost use Rattle.rt_cert.specs.Encodes.{Encodes};

use rt_clause::{Adds, Lit};
use rt_clausify::clausify;
use rt_formula::{Dag, Node};
use rt_totalizer::count;
use rt_value::NoMemory;
use std::alloc::Global;

/// Adds the clauses of the goal and, for a number of rows that isn't 0, of a counter up to it. It
/// answers with the literal that says that fewer rows are kept.
pub(crate) fn encode_goal<A: Adds>(
    alloc: Global,
    dag: &Dag,
    goal: Node,
    most: usize,
    to: &mut A,
) -> Result<Option<Lit>, NoMemory>
    requires goal { goal < length dag.now.entries }
    requires most { most ≤ dag.now.rows }
    requires empty { A.lines to.old ≡ [] }
    ensures { IfOk result (Encodes dag.now.rows (λ keep. val dag.now keep goal ≡ true) most (A.lines to.new)) }
{
    let mut named = clausify(alloc, dag, goal, to)?;
    if most == 0 {
        return Ok(None);
    }
    let counter = count(alloc, most, &mut named, to)?;
    let reached = counter.outs.as_slice()[most - 1];
    Ok(Some(reached.negated()))
}
