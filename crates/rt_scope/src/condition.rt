//! Conditions without a subquery, and lists of conditions. What has a subquery is in `rt_resolve`,
//! where conditions and queries call one another.

ghost use Rattle.std.specs.Prelude.{◌≡◌, Ok, map, IfOk};
ghost use Rattle.rt_scope.specs.Conditions as spec;
ghost use Rattle.rt_scope.specs.Fault.{is_memory};
ghost use Rattle.rt_scope.specs.Sums as sums;
ghost use Rattle.rt_value.specs.Gives.{Gives};

use crate::compare::{compared, list_items, negated};
use crate::fault::NameFault;
use crate::relation::Relation;
use crate::scalar::Scalar;
use crate::source::Source;
use crate::sums::sum;
use rt_algebra::Pred;
use rt_schema::comparable;
use rt_tree::{Op as OpTree, Sum};
use rt_value::{Boxed, List, NoMemory, Op};
use std::alloc::Global;

/// The members of an AND or an OR so far.
#[derive(Drop)]
pub struct Members {
    pub conds: List<Pred>,
}

/// The members with one more.
pub fn one_more(so_far: Members, cond: Pred) -> Result<Members, NoMemory>
    ensures { IfOk result (λ more. more ≡ spec.one_more so_far cond) }
{
    let mut conds = so_far.conds;
    conds.push(cond)?;
    Ok(Members { conds })
}

/// The condition alone.
pub fn only(alloc: Global, cond: Pred) -> Result<Members, NoMemory>
    ensures { IfOk result (λ all. all ≡ spec.only cond) }
{
    let mut conds = List::new(alloc);
    conds.push(cond)?;
    Ok(Members { conds })
}

fn op_of(op: OpTree) -> Op
    ensures { result ≡ spec.op_of op }
{
    match op {
        OpTree::Eq => Op::Eq,
        OpTree::Ne => Op::Ne,
        OpTree::Lt => Op::Lt,
        OpTree::Le => Op::Le,
        OpTree::Gt => Op::Gt,
        OpTree::Ge => Op::Ge,
    }
}

/// The expression of a sum, in a box of its own while another is read.
pub fn boxed_sum(alloc: Global, of: &Sum, scopes: &[&[Source]]) -> Result<Boxed<Scalar>, NameFault>
    ensures { Gives is_memory result (sums.sum of.now (map (λ s. s.now) scopes.now)) }
{
    let x = sum(alloc, of, scopes)?;
    Ok(Boxed::new(alloc, x)?)
}

/// A comparison of two sums.
pub fn comparison(
    alloc: Global,
    a: &Sum,
    op: OpTree,
    b: &Sum,
    scopes: &[&[Source]],
) -> Result<Pred, NameFault>
    ensures { Gives is_memory result (spec.comparison a.now op b.now (map (λ s. s.now) scopes.now)) }
{
    let x = boxed_sum(alloc, a, scopes)?;
    let y = sum(alloc, b, scopes)?;
    compared(op_of(op), x.into_inner(), y)
}

/// IS NULL.
pub fn null_test(alloc: Global, a: &Sum, not: bool, scopes: &[&[Source]]) -> Result<Pred, NameFault>
    ensures { Gives is_memory result (spec.null_test a.now not (map (λ s. s.now) scopes.now)) }
{
    let x = sum(alloc, a, scopes)?;
    negated(alloc, not, Pred::IsNull(x.expr))
}

/// IN with a list.
pub fn list_test(
    alloc: Global,
    a: &Sum,
    not: bool,
    head: &Sum,
    tail: &[Sum],
    scopes: &[&[Source]],
) -> Result<Pred, NameFault>
    ensures { Gives is_memory result (spec.list_test a.now not head.now tail.now (map (λ s. s.now) scopes.now)) }
{
    let x = boxed_sum(alloc, a, scopes)?;
    let items = list_items(alloc, x.get().kind, head, tail, scopes)?;
    negated(alloc, not, Pred::OneOf(x.into_inner().expr, items))
}

fn both(alloc: Global, low: Pred, high: Pred) -> Result<Pred, NoMemory>
    ensures { IfOk result (λ c. c ≡ spec.both low high) }
{
    let conds = vec![in alloc; low, high]?;
    Ok(Pred::And(List::from_vec(conds)))
}

// The first with the third, then the second, which is the same, with the last.
fn between(
    alloc: Global,
    x: Boxed<Scalar>,
    again: Boxed<Scalar>,
    y: Boxed<Scalar>,
    z: Boxed<Scalar>,
) -> Result<Pred, NameFault>
    requires { again ≡ x }
    ensures { Gives is_memory result (spec.between x y z) }
{
    let low = compared(Op::Ge, x.into_inner(), y.into_inner())?;
    let low = Boxed::new(alloc, low)?;
    let high = compared(Op::Le, again.into_inner(), z.into_inner())?;
    Ok(both(alloc, low.into_inner(), high)?)
}

/// BETWEEN. The first sum is part of both comparisons, so it is lowered twice.
pub fn between_test(
    alloc: Global,
    a: &Sum,
    not: bool,
    b: &Sum,
    c: &Sum,
    scopes: &[&[Source]],
) -> Result<Pred, NameFault>
    ensures { Gives is_memory result (spec.between_test a.now not b.now c.now (map (λ s. s.now) scopes.now)) }
{
    let x = boxed_sum(alloc, a, scopes)?;
    let again = boxed_sum(alloc, a, scopes)?;
    let y = boxed_sum(alloc, b, scopes)?;
    let z = boxed_sum(alloc, c, scopes)?;
    let within = between(alloc, x, again, y, z)?;
    negated(alloc, not, within)
}

/// IN with a query.
pub fn member(x: Boxed<Scalar>, of: Relation) -> Result<Pred, NameFault>
    ensures { Gives is_memory result (spec.member x of) }
{
    match of.columns.as_slice() {
        [only] => {
            if comparable(x.get().kind, Some(only.kind)) {
                Ok(Pred::Member(x.into_inner().expr, of.query))
            } else {
                Err(NameFault::TypeMismatch)
            }
        }
        _ => Err(NameFault::Columns),
    }
}
