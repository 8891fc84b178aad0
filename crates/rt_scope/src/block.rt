//! One SELECT as a query: sources, then conditions, then items.

ghost use Rattle.std.specs.Prelude.{◌≡◌, IfOk, Ok};
ghost use Rattle.rt_scope.specs.Sources as spec;
ghost use Rattle.rt_scope.specs.Fault.{is_memory};
ghost use Rattle.rt_value.specs.Gives.{Gives};

use crate::fault::NameFault;
use crate::from::FromClause;
use crate::relation::Relation;
use crate::select::SelectList;
use rt_algebra::{Expr, Pred, Query, product_of, selected};
use rt_value::{Boxed, List, NoMemory};
use std::alloc::Global;

fn query_of(
    alloc: Global,
    queries: List<Query>,
    conds: List<Pred>,
    exprs: List<Expr>,
) -> Result<Boxed<Query>, NoMemory>
    ensures { IfOk result (λ q. q ≡ spec.query_of queries conds exprs) }
{
    let product = product_of(alloc, queries)?;
    let rows = selected(alloc, product, conds)?;
    Boxed::new(alloc, Query::Project(rows, exprs))
}

/// The items over the rows of the sources that meet the conditions.
pub fn select_of(alloc: Global, from: FromClause, list: SelectList) -> Result<Relation, NameFault>
    ensures { Gives is_memory result (Ok (spec.select_of from list)) }
{
    let FromClause {
        sources,
        queries,
        conds,
        width: _,
    } = from;
    drop(sources);
    let SelectList { exprs, columns } = list;
    let query = query_of(alloc, queries, conds, exprs)?;
    Ok(Relation { query, columns })
}
