//! RENAME: new names for all columns, over the same query.

ghost use Rattle.std.specs.Prelude.{◌≡◌, IfOk};
ghost use Rattle.rt_relation.specs.Columns as columns_spec;
ghost use Rattle.rt_ra.specs.Unary as spec;
ghost use Rattle.rt_ra_tree.specs.Refusals.{is_memory};
ghost use Rattle.rt_value.specs.Gives.{Gives};

use rt_ra_tree::RaFault;
use rt_relation::{Column, Relation, unless_twice};
use rt_value::{List, NoMemory, Txt};
use std::alloc::Global;

fn named(alloc: Global, name: &Txt, column: &Column) -> Result<Column, NoMemory>
    ensures { IfOk result (λ c. c ≡ columns_spec.named name.now column.now) }
{
    Ok(Column {
        name: name.copy(alloc)?,
        kind: column.kind,
        bound: column.bound,
    })
}

// The columns under new names, as many as there are of both.
fn renamed(alloc: Global, names: &[Txt], columns: &[Column]) -> Result<List<Column>, NoMemory>
    ensures { IfOk result (λ all. all ≡ columns_spec.renamed names.now columns.now) }
{
    let mut all = List::new(alloc);
    let mut left = names;
    let mut right = columns;
    'names: while let [name, left_rest @ ..] = left {
        let [column, right_rest @ ..] = right else {
            return Ok(all);
        };
        all.push(named(alloc, name, column)?)?;
        left = left_rest;
        right = right_rest;
    }
    Ok(all)
}

/// The columns under new names.
pub(crate) fn rename(alloc: Global, of: Relation, names: &[Txt]) -> Result<Relation, RaFault>
    ensures { Gives is_memory result (spec.rename of names.now) }
{
    let Relation { query, columns } = of;
    if names.len() != columns.len() {
        return Err(RaFault::Columns);
    }
    let columns = renamed(alloc, names, columns.as_slice())?;
    unless_twice(alloc, names, Relation { query, columns })
}
