//! Comparisons, negations and lists of IN, with the tests of their kinds.

ghost use Rattle.std.specs.Prelude.{◌∷◌, [], Ok, map};
ghost use Rattle.rt_scope.specs.Compare as spec;
ghost use Rattle.rt_scope.specs.Fault.{is_memory};
ghost use Rattle.rt_value.specs.Gives.{Gives};

use crate::fault::NameFault;
use crate::scalar::Scalar;
use crate::source::Source;
use crate::sums::sum;
use rt_algebra::{Expr, Pred};
use rt_schema::{ColKind, comparable};
use rt_tree::Sum;
use rt_value::{Boxed, List, Op};
use std::alloc::Global;

/// The comparison of two expressions.
pub(crate) fn compared(op: Op, a: Scalar, b: Scalar) -> Result<Pred, NameFault>
    ensures { Gives is_memory result (spec.compared op a b) }
{
    if comparable(a.kind, b.kind) {
        Ok(Pred::Cmp(op, a.expr, b.expr))
    } else {
        Err(NameFault::TypeMismatch)
    }
}

/// The condition, or its negation.
pub fn negated(alloc: Global, not: bool, cond: Pred) -> Result<Pred, NameFault>
    ensures { Gives is_memory result (Ok (spec.negated not cond)) }
{
    if not {
        Ok(Pred::Not(Boxed::new(alloc, cond)?))
    } else {
        Ok(cond)
    }
}

fn listed_one(kind: Option<ColKind>, so_far: List<Expr>, y: Scalar) -> Result<List<Expr>, NameFault>
    ensures { Gives is_memory result (spec.listed_one kind so_far y) }
{
    if comparable(kind, y.kind) {
        let mut all = so_far;
        all.push(y.expr)?;
        Ok(all)
    } else {
        Err(NameFault::TypeMismatch)
    }
}

fn listed(
    alloc: Global,
    kind: Option<ColKind>,
    so_far: List<Expr>,
    sums: &[Sum],
    scopes: &[&[Source]],
) -> Result<List<Expr>, NameFault>
    ensures { Gives is_memory result (spec.listed kind so_far sums.now (map (λ s. s.now) scopes.now)) }
{
    let mut all = so_far;
    for next in sums {
        let y = sum(alloc, next, scopes)?;
        all = listed_one(kind, all, y)?;
    }
    Ok(all)
}

/// The members of a list, each of which is to be compared with an expression of this kind.
pub(crate) fn list_items(
    alloc: Global,
    kind: Option<ColKind>,
    head: &Sum,
    tail: &[Sum],
    scopes: &[&[Source]],
) -> Result<List<Expr>, NameFault>
    ensures { Gives is_memory result (spec.listed kind [] (head.now ∷ tail.now) (map (λ s. s.now) scopes.now)) }
{
    let y = sum(alloc, head, scopes)?;
    let first = listed_one(kind, List::new(alloc), y)?;
    listed(alloc, kind, first, tail, scopes)
}
