//! Set operators: a row of the first query is kept or dropped by the nodes of the same rows of the
//! second, which are found by an index.

ghost use Rattle.std.specs.Prelude.{List, Bool, IfOk};
ghost use Rattle.rt_schema.specs.Given.{Rows};
ghost use Rattle.rt_formula.specs.Shared.{IsGrown};
ghost use Rattle.rt_noted.specs.Entries.{selected};
ghost use Rattle.rt_noted.specs.Annotated.{AreNoted, Gives, Reads, entries_of, set_rows, side_test};

use rt_formula::{Dag, Groups, Noted};
use rt_noted::{Side, appended, both, either, note};
use rt_value::{List, NoMemory};
use std::alloc::Global;

/// The rows of a set operator: those of `first` on a side of `second`, or all of both if there is
/// no side (UNION).
pub(crate) fn set_rows(
    alloc: Global,
    dag: &mut Dag,
    first: List<Noted>,
    second: &[Noted],
    side: Option<Side>,
) -> Result<List<Noted>, NoMemory>
    requires first { AreNoted dag.old first }
    requires second { AreNoted dag.old second.now }
    ensures grown { IsGrown dag.old dag.new }
    ensures gives { IfOk result (λ out. (f g : List Bool → Rows) → Gives dag.old first f → Gives dag.old second.now g → Gives dag.new out (λ s. set_rows side (f s) (g s))) }
{
    match side {
        Some(side) => sifted(alloc, dag, first.as_slice(), second, side),
        None => appended(alloc, first, second),
    }
}

// The rows of `from` on this side of `others`.
fn sifted(
    alloc: Global,
    dag: &mut Dag,
    from: &[Noted],
    others: &[Noted],
    side: Side,
) -> Result<List<Noted>, NoMemory>
    requires from { AreNoted dag.old from.now }
    requires others { AreNoted dag.old others.now }
    ensures grown { IsGrown dag.old dag.new }
    ensures reads { IfOk result (λ out. Reads dag.new out (selected (entries_of dag.old from.now) (side_test side (entries_of dag.old others.now)))) }
{
    let groups = Groups::of(alloc, others)?;
    let mut out = List::new(alloc);
    for noted in from {
        let found = either(dag, groups.get(&noted.row))?;
        let node = both(dag, noted.node, side.node(found))?;
        note(alloc, &mut out, &noted.row, node)?;
    }
    Ok(out)
}
