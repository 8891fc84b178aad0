//! From the tree of an algebra text to the typed query that it means.

ghost use Rattle.std.specs.Prelude.{IfErr, IfOk};
ghost use Rattle.rt_algebra.specs.Typed.{IsTypedOf};
ghost use Rattle.rt_ra.specs.Faults.{IsWalkFault};
ghost use Rattle.rt_ra.specs.Lowered.{ra_lowered};
ghost use Rattle.rt_ra.specs.Meaning.{MeansSame};
ghost use Rattle.rt_ra_tree.specs.Formed.{IsFormed};
ghost use Rattle.rt_ra_tree.specs.Refusals.{is_memory};
ghost use Rattle.rt_value.specs.Gives.{Gives};

use crate::walk::relation;
use rt_algebra::Typed;
use rt_ra_tree::{RaFault, RaText};
use rt_relation::typed_of;
use rt_schema::{Schema, Table};
use std::alloc::Global;

fn lowered(alloc: Global, text: &RaText, tables: &[Table]) -> Result<Typed, RaFault>
    ensures { Gives is_memory result (ra_lowered text.now tables.now) }
{
    let relation = relation(alloc, tables, &text.of)?;
    Ok(typed_of(alloc, relation)?)
}

/// The query that the text means over the tables of the schema, or its first error in the walk from
/// the left. `parse_ra` gives formed texts only.
pub fn resolve_ra(alloc: Global, text: &RaText, schema: &Schema) -> Result<Typed, RaFault>
    requires formed { IsFormed text.now }
    ensures lowered { Gives is_memory result (ra_lowered text.now schema.now) }
    ensures walk { IfErr result IsWalkFault }
    ensures typed { IfOk result (IsTypedOf schema.now) }
    ensures means { IfOk result (MeansSame text.now schema.now) }
{
    lowered(alloc, text, schema.tables())
}
