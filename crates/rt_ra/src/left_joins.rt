//! LEFTJOIN: the join in union with the rows that meet none, filled up with NULL. So the query of
//! each operand comes twice.

ghost use Rattle.std.specs.Prelude.{◌≡◌, ◌-◌, IfOk, length};
ghost use Rattle.rt_algebra.specs.declared.query.Query.TheVariants as query;
ghost use Rattle.rt_relation.specs.Operators as spec;
ghost use Rattle.rt_ra_tree.specs.Refusals.{is_memory};
ghost use Rattle.rt_ra_tree.specs.declared.tree.RaOp.TheVariants as op;
ghost use Rattle.rt_value.specs.Gives.{Gives};

use crate::joins::joined;
use crate::semijoins::anti;
use rt_algebra::Query;
use rt_ra_tree::RaFault;
use rt_relation::{Column, Relation, check_fit, copied, own, with_nulls};
use rt_value::{Boxed, NoMemory};
use std::alloc::Global;

// How many columns more the first has.
fn more_columns(columns: &[Column], others: &[Column]) -> usize
    ensures { result ≡ length columns.now - length others.now }
{
    columns.len().saturating_sub(others.len())
}

// The rows, filled up with NULL so often.
fn with_null(alloc: Global, rest: Relation, count: usize) -> Result<Boxed<Query>, NoMemory>
    ensures { IfOk result (λ q. q ≡ spec.with_null rest count) }
{
    let Relation { query, columns } = rest;
    let items = own(alloc, columns.as_slice())?;
    let items = with_nulls(items, count)?;
    Boxed::new(alloc, Query::Project(query, items))
}

fn both(alloc: Global, left: Boxed<Query>, right: Boxed<Query>) -> Result<Boxed<Query>, NoMemory>
    ensures { IfOk result (λ q. q ≡ query.Union left right) }
{
    Boxed::new(alloc, Query::Union(left, right))
}

// The rows of both, those of the second filled up with NULL.
fn filled(alloc: Global, join: Relation, rest: Relation) -> Result<Relation, NoMemory>
    ensures { IfOk result (λ f. f ≡ spec.filled join rest) }
{
    let count = more_columns(join.columns.as_slice(), rest.columns.as_slice());
    let rest = with_null(alloc, rest, count)?;
    let Relation { query, columns } = join;
    let query = both(alloc, query, rest)?;
    Ok(Relation { query, columns })
}

// The rows of the first that meet no row.
fn rest_of(
    alloc: Global,
    left: Boxed<Query>,
    columns: &[Column],
    right: Boxed<Query>,
    others: &[Column],
) -> Result<Relation, NoMemory>
    ensures { IfOk result (λ r. r ≡ spec.anti (record { query = left; columns = columns.now }) (record { query = right; columns = others.now })) }
{
    let left = Relation {
        query: left,
        columns: copied(alloc, columns)?,
    };
    let right = Relation {
        query: right,
        columns: copied(alloc, others)?,
    };
    anti(alloc, left, right)
}

/// An operand of a left join, whose query comes twice.
#[derive(Drop)]
pub struct Doubled {
    pub relation: Relation,
    pub again: Boxed<Query>,
}

fn filled_join(alloc: Global, left: Doubled, right: Doubled) -> Result<Relation, NoMemory>
    requires left { left.again ≡ left.relation.query }
    requires right { right.again ≡ right.relation.query }
    ensures { IfOk result (λ f. f ≡ spec.filled (spec.joined left.relation right.relation) (spec.anti left.relation right.relation)) }
{
    let Doubled {
        relation: left,
        again: first,
    } = left;
    let Doubled {
        relation: right,
        again: second,
    } = right;
    let columns = left.columns.as_slice();
    let rest = rest_of(alloc, first, columns, second, right.columns.as_slice())?;
    let join = joined(alloc, left, right)?;
    filled(alloc, join, rest)
}

/// LEFTJOIN: the join, and the rows of the first that are in no pair.
pub(crate) fn left_join(alloc: Global, left: Doubled, right: Doubled) -> Result<Relation, RaFault>
    requires left { left.again ≡ left.relation.query }
    requires right { right.again ≡ right.relation.query }
    ensures { Gives is_memory result (spec.two op.LeftJoin left.relation right.relation) }
{
    let columns = left.relation.columns.as_slice();
    check_fit(columns, right.relation.columns.as_slice())?;
    Ok(filled_join(alloc, left, right)?)
}
