//! SEMI and ANTI: the rows of the first that meet a row of the second, or none.

ghost use Rattle.std.specs.Prelude.{◌≡◌, IfOk};
ghost use Rattle.rt_relation.specs.Operators as spec;
ghost use Rattle.rt_ra_tree.specs.Refusals.{is_memory};
ghost use Rattle.rt_ra_tree.specs.declared.tree.RaOp.TheVariants as op;
ghost use Rattle.rt_value.specs.Gives.{Gives};

use rt_algebra::{Pred, Query, selected};
use rt_ra_tree::RaFault;
use rt_relation::{Column, Relation, check_fit, matching};
use rt_value::{Boxed, NoMemory};
use std::alloc::Global;

// There is a row of the other that matches.
fn matched(alloc: Global, columns: &[Column], right: Relation) -> Result<Pred, NoMemory>
    ensures { IfOk result (λ p. p ≡ spec.matched columns.now right) }
{
    let conds = matching(alloc, 1, 0, columns, right.columns.as_slice())?;
    let rows = selected(alloc, right.query, conds)?;
    Ok(Pred::Exists(rows))
}

// The rows of the first that meet a row.
fn semi(alloc: Global, left: Relation, right: Relation) -> Result<Relation, NoMemory>
    ensures { IfOk result (λ s. s ≡ spec.semi left right) }
{
    let Relation { query, columns } = left;
    let cond = matched(alloc, columns.as_slice(), right)?;
    let query = Boxed::new(alloc, Query::Select(query, cond))?;
    Ok(Relation { query, columns })
}

/// The rows of the first that meet no row.
pub(crate) fn anti(alloc: Global, left: Relation, right: Relation) -> Result<Relation, NoMemory>
    ensures { IfOk result (λ s. s ≡ spec.anti left right) }
{
    let Relation { query, columns } = left;
    let cond = Pred::Not(Boxed::new(alloc, matched(alloc, columns.as_slice(), right)?)?);
    let query = Boxed::new(alloc, Query::Select(query, cond))?;
    Ok(Relation { query, columns })
}

/// SEMI.
pub(crate) fn semi_join(alloc: Global, left: Relation, right: Relation) -> Result<Relation, RaFault>
    ensures { Gives is_memory result (spec.two op.Semi left right) }
{
    check_fit(left.columns.as_slice(), right.columns.as_slice())?;
    Ok(semi(alloc, left, right)?)
}

/// ANTI.
pub(crate) fn anti_join(alloc: Global, left: Relation, right: Relation) -> Result<Relation, RaFault>
    ensures { Gives is_memory result (spec.two op.Anti left right) }
{
    check_fit(left.columns.as_slice(), right.columns.as_slice())?;
    Ok(anti(alloc, left, right)?)
}
