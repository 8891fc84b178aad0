//! EXISTS, and IN with a query, for a query that is evaluated anew for each row (ISO/IEC 9075-2,
//! exists predicate, in predicate).

ghost use Rattle.std.specs.Prelude.{◌≡◌, List, Bool, not, IfOk};
ghost use Rattle.rt_schema.specs.Given.{Rows};
ghost use Rattle.rt_formula.specs.Shared.{IsGrown};
ghost use Rattle.rt_noted.specs.Entries.{any_entry, member_test};
ghost use Rattle.rt_noted.specs.Annotated.{AreNoted, Gives, IsGate, entries_of, nodes_of, sure, possible};
ghost use Rattle.rt_noted.specs.Known.{sought_test};

use crate::gate::{TruthNodes, either};
use rt_algebra::cell_truth;
use rt_formula::{Dag, Node, Noted};
use rt_value::{List, NoMemory, Truth, Value};
use std::alloc::Global;

fn nodes_of(alloc: Global, rows: &[Noted]) -> Result<List<Node>, NoMemory>
    ensures { IfOk result (λ out. out ≡ nodes_of rows.now) }
{
    let mut out = List::new(alloc);
    for noted in rows {
        out.push(noted.node)?;
    }
    Ok(out)
}

/// Whether there is a row.
pub(crate) fn exists(alloc: Global, dag: &mut Dag, rows: &[Noted]) -> Result<TruthNodes, NoMemory>
    requires { AreNoted dag.old rows.now }
    ensures grown { IsGrown dag.old dag.new }
    ensures gate { IfOk result (λ g. IsGate dag.new g (any_entry (entries_of dag.old rows.now), λ s. not (any_entry (entries_of dag.old rows.now) s))) }
{
    let nodes = nodes_of(alloc, rows)?;
    either(dag, nodes.as_slice())
}

// The nodes of the rows to whose first value `x` compares equal.
fn sure(alloc: Global, x: &Value, rows: &[Noted]) -> Result<List<Node>, NoMemory>
    ensures { IfOk result (λ out. out ≡ sure x.now rows.now) }
{
    let mut out = List::new(alloc);
    for noted in rows {
        if matches!(cell_truth(x, &noted.row), Truth::Yes) {
            out.push(noted.node)?;
        }
    }
    Ok(out)
}

// The nodes of the rows to whose first value `x` compares equal or unknown.
fn possible(alloc: Global, x: &Value, rows: &[Noted]) -> Result<List<Node>, NoMemory>
    ensures { IfOk result (λ out. out ≡ possible x.now rows.now) }
{
    let mut out = List::new(alloc);
    for noted in rows {
        if !matches!(cell_truth(x, &noted.row), Truth::No) {
            out.push(noted.node)?;
        }
    }
    Ok(out)
}

/// Whether there is a row, or, where a value is sought, whether it is among the rows.
pub fn among(
    alloc: Global,
    dag: &mut Dag,
    sought: Option<&Value>,
    rows: &[Noted],
) -> Result<TruthNodes, NoMemory>
    requires { AreNoted dag.old rows.now }
    ensures grown { IsGrown dag.old dag.new }
    ensures gate { IfOk result (λ g. (answer : List Bool → Rows) → Gives dag.old rows.now answer → IsGate dag.new g (sought_test sought.entry answer)) }
{
    match sought {
        Some(x) => member(alloc, dag, x, rows),
        None => exists(alloc, dag, rows),
    }
}

fn member(alloc: Global, dag: &mut Dag, x: &Value, rows: &[Noted]) -> Result<TruthNodes, NoMemory>
    requires { AreNoted dag.old rows.now }
    ensures grown { IsGrown dag.old dag.new }
    ensures gate { IfOk result (λ g. IsGate dag.new g (member_test x.now (entries_of dag.old rows.now))) }
{
    let sure = sure(alloc, x, rows)?;
    let yes = dag.any(sure.as_slice())?;
    drop(sure);
    let possible = possible(alloc, x, rows)?;
    let some = dag.any(possible.as_slice())?;
    drop(possible);
    let no = dag.not(some)?;
    Ok(TruthNodes { yes, no })
}
