//! Conditions and queries made of lists of parts: the translations of both languages end here.

ghost use Rattle.std.specs.Prelude.{◌≡◌, IfOk};
ghost use Rattle.rt_algebra.specs.Parts as spec;

use crate::alone::alone;
use crate::query::{Pred, Query};
use rt_value::{Boxed, List, NoMemory};
use std::alloc::Global;

/// One condition itself, or AND of any other number.
#[tactic(auto, using(crate::proofs::Longer::all_of_more))]
pub fn all_of(conds: List<Pred>) -> Pred
    ensures { result ≡ spec.all_of conds }
{
    match alone(conds) {
        Ok(cond) => cond,
        Err(conds) => Pred::And(conds),
    }
}

/// One condition itself, or OR of any other number.
#[tactic(auto, using(crate::proofs::Longer::any_of_more))]
pub fn any_of(conds: List<Pred>) -> Pred
    ensures { result ≡ spec.any_of conds }
{
    match alone(conds) {
        Ok(cond) => cond,
        Err(conds) => Pred::Or(conds),
    }
}

/// One query itself, or the product of any other number.
#[tactic(auto, using(crate::proofs::Longer::product_of_more))]
pub fn product_of(alloc: Global, queries: List<Query>) -> Result<Boxed<Query>, NoMemory>
    ensures { IfOk result (λ q. q ≡ spec.product_of queries) }
{
    match alone(queries) {
        Ok(query) => Boxed::new(alloc, query),
        Err(queries) => Boxed::new(alloc, Query::Product(queries)),
    }
}

/// The rows of the query that meet all conditions: the query itself where there are none.
pub fn selected(
    alloc: Global,
    query: Boxed<Query>,
    conds: List<Pred>,
) -> Result<Boxed<Query>, NoMemory>
    ensures { IfOk result (λ q. q ≡ spec.selected query conds) }
{
    match conds.as_slice() {
        [] => Ok(query),
        [_, ..] => Boxed::new(alloc, Query::Select(query, all_of(conds))),
    }
}
