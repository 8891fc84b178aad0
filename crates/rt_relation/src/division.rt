//! DIVIDE: the further cells of rows that are there with each row of the divisor. The `a` of
//! `L (a, b)` over `R (b)` are, in short,
//!     a of L  EXCEPT  a of ((a of L, times R) EXCEPT (a, b of L)).
//! The second part has each `a` that lacks a row of `R`. So the query of `L` comes three times.

ghost use Rattle.std.specs.Prelude.{◌≡◌, IfOk};
ghost use Rattle.rt_algebra.specs.declared.query.Query.TheVariants as query;
ghost use Rattle.rt_relation.specs.Columns.{further_columns, if_fit};
ghost use Rattle.rt_relation.specs.Divisor.{checked, checked_quotient, some_further};
ghost use Rattle.rt_relation.specs.Operators as spec;
ghost use Rattle.rt_ra_tree.specs.Refusals.{is_memory};
ghost use Rattle.rt_ra_tree.specs.declared.tree.RaOp.TheVariants as op;
ghost use Rattle.rt_value.specs.Gives.{Gives};

use crate::column::Column;
use crate::faults::check_fit;
use crate::items::{own, with_further as items_further, with_named};
use crate::lists::{further, lacked_name};
use crate::products::product;
use crate::relation::Relation;
use rt_algebra::Query;
use rt_ra_tree::RaFault;
use rt_value::{Boxed, List, NoMemory};
use std::alloc::Global;

// The cells of the columns that the others have not.
fn rest_of(
    alloc: Global,
    of: Boxed<Query>,
    columns: &[Column],
    others: &[Column],
) -> Result<Boxed<Query>, NoMemory>
    ensures { IfOk result (λ q. q ≡ spec.rest_of of columns.now others.now) }
{
    let items = items_further(List::new(alloc), 0, columns, others)?;
    Boxed::new(alloc, Query::Project(of, items))
}

// These, and the cells of the others' columns.
fn pairs_of(
    alloc: Global,
    of: Boxed<Query>,
    columns: &[Column],
    others: &[Column],
) -> Result<Boxed<Query>, NoMemory>
    ensures { IfOk result (λ q. q ≡ spec.pairs_of of columns.now others.now) }
{
    let items = items_further(List::new(alloc), 0, columns, others)?;
    let items = with_named(items, others, columns)?;
    Boxed::new(alloc, Query::Project(of, items))
}

// The further cells of a row that are not with each row of the divisor.
fn missing(
    alloc: Global,
    rest: Boxed<Query>,
    pairs: Boxed<Query>,
    right: Boxed<Query>,
    columns: &[Column],
) -> Result<Boxed<Query>, NoMemory>
    ensures { IfOk result (λ q. q ≡ spec.missing rest pairs right columns.now) }
{
    let all = product(alloc, rest, right)?;
    let none = Boxed::new(alloc, Query::Except(all, pairs))?;
    Boxed::new(alloc, Query::Project(none, own(alloc, columns)?))
}

fn missing_of(
    alloc: Global,
    first: Boxed<Query>,
    second: Boxed<Query>,
    right: Boxed<Query>,
    columns: &[Column],
    others: &[Column],
    further: &[Column],
) -> Result<Boxed<Query>, NoMemory>
    ensures { IfOk result (λ q. q ≡ spec.missing (spec.rest_of first columns.now others.now) (spec.pairs_of second columns.now others.now) right further.now) }
{
    let rest = rest_of(alloc, first, columns, others)?;
    let pairs = pairs_of(alloc, second, columns, others)?;
    missing(alloc, rest, pairs, right, further)
}

// The further cells of all rows, without those that are missing.
fn without(
    alloc: Global,
    of: Boxed<Query>,
    missing: Boxed<Query>,
    columns: &[Column],
    others: &[Column],
) -> Result<Boxed<Query>, NoMemory>
    ensures { IfOk result (λ q. q ≡ query.Except (spec.rest_of of columns.now others.now) missing) }
{
    let all = rest_of(alloc, of, columns, others)?;
    Boxed::new(alloc, Query::Except(all, missing))
}

fn quotient_query(
    alloc: Global,
    left: Relation,
    second: Boxed<Query>,
    third: Boxed<Query>,
    right: Relation,
    further: &[Column],
) -> Result<Boxed<Query>, NoMemory>
    requires second { second ≡ left.query }
    requires third { third ≡ left.query }
    requires further { further.now ≡ further_columns left.columns right.columns }
    ensures { IfOk result (λ q. q ≡ (spec.quotient left right).query) }
{
    let Relation { query, columns } = left;
    let Relation {
        query: divisor,
        columns: others,
    } = right;
    let columns = columns.as_slice();
    let others = others.as_slice();
    let missing = missing_of(alloc, second, third, divisor, columns, others, further)?;
    without(alloc, query, missing, columns, others)
}

/// The first operand of a division, whose query comes three times.
#[derive(Drop)]
pub struct Dividend {
    pub relation: Relation,
    pub second: Boxed<Query>,
    pub third: Boxed<Query>,
}

fn quotient(alloc: Global, left: Dividend, right: Relation) -> Result<Relation, NoMemory>
    requires second { left.second ≡ left.relation.query }
    requires third { left.third ≡ left.relation.query }
    ensures { IfOk result (λ q. q ≡ spec.quotient left.relation right) }
{
    let columns = left.relation.columns.as_slice();
    let further = further(alloc, columns, right.columns.as_slice())?;
    let Dividend {
        relation,
        second,
        third,
    } = left;
    let query = quotient_query(alloc, relation, second, third, right, further.as_slice())?;
    Ok(Relation {
        query,
        columns: further,
    })
}

// Refuses where the first has no further column, or columns of one name are of different kinds.
fn check_further(alloc: Global, columns: &[Column], others: &[Column]) -> Result<(), RaFault>
    ensures { Gives is_memory result (some_further (further_columns columns.now others.now) (if_fit others.now columns.now tt)) }
{
    let further = further(alloc, columns, others)?;
    match further.as_slice() {
        [] => Err(RaFault::Columns),
        [_, ..] => check_fit(others, columns),
    }
}

fn check_divisor(alloc: Global, columns: &[Column], others: &[Column]) -> Result<(), RaFault>
    ensures { Gives is_memory result (checked columns.now others.now) }
{
    match lacked_name(alloc, others, columns)? {
        Some(name) => Err(RaFault::UnknownColumn(name)),
        None => check_further(alloc, columns, others),
    }
}

fn divided(alloc: Global, left: Dividend, right: Relation) -> Result<Relation, RaFault>
    requires second { left.second ≡ left.relation.query }
    requires third { left.third ≡ left.relation.query }
    ensures { Gives is_memory result (checked_quotient left.relation right) }
{
    let columns = left.relation.columns.as_slice();
    check_divisor(alloc, columns, right.columns.as_slice())?;
    Ok(quotient(alloc, left, right)?)
}

/// DIVIDE, or the first error of its columns.
pub fn divide(alloc: Global, left: Dividend, right: Relation) -> Result<Relation, RaFault>
    requires second { left.second ≡ left.relation.query }
    requires third { left.third ≡ left.relation.query }
    ensures { Gives is_memory result (spec.two op.Divide left.relation right) }
{
    divided(alloc, left, right)
}
