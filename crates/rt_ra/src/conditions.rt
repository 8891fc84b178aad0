//! Tests of rows, as conditions of the algebra.

ghost use Rattle.std.specs.Prelude.{◌≡◌, [], ◌∷◌, IfOk};
ghost use Rattle.rt_ra.specs.Conditions as spec;
ghost use Rattle.rt_ra_tree.specs.Refusals.{is_memory};
ghost use Rattle.rt_value.specs.Gives.{Gives};

use crate::scalar::Scalar;
use rt_algebra::{Expr, Pred, Term};
use rt_ra_tree::{RaFault, RaSide, RaTest, RaTests};
use rt_relation::{Column, column_at, place_of};
use rt_schema::ColKind;
use rt_value::{Boxed, List, NoMemory, Op};
use std::alloc::Global;

fn number(alloc: Global, minus: bool, number: i128) -> Result<Expr, NoMemory>
    ensures { IfOk result (λ e. e ≡ spec.number minus number) }
{
    let of = Expr::Int(number);
    if !minus {
        return Ok(of);
    }
    let mut terms = List::new(alloc);
    terms.push(Term { minus, of })?;
    Ok(Expr::Sum(terms))
}

fn side(alloc: Global, columns: &[Column], of: &RaSide) -> Result<Scalar, RaFault>
    ensures { Gives is_memory result (spec.side columns.now of.now) }
{
    match of {
        RaSide::Col(name) => {
            let column = column_at(alloc, &name.text, columns)?;
            let expr = Expr::Col(0, place_of(&name.text, columns));
            Ok(Scalar {
                expr,
                kind: column.kind,
            })
        }
        RaSide::Number(minus, value) => Ok(Scalar {
            expr: number(alloc, *minus, *value)?,
            kind: ColKind::Whole,
        }),
        RaSide::Str(text) => Ok(Scalar {
            expr: Expr::Text(text.copy(alloc)?),
            kind: ColKind::Text,
        }),
    }
}

fn compared(op: Op, left: Scalar, right: Scalar) -> Result<Pred, RaFault>
    ensures { Gives is_memory result (spec.compared op left right) }
{
    if left.kind == right.kind {
        Ok(Pred::Cmp(op, left.expr, right.expr))
    } else {
        Err(RaFault::TypeMismatch)
    }
}

fn negated(alloc: Global, not: bool, cond: Pred) -> Result<Pred, NoMemory>
    ensures { IfOk result (λ c. c ≡ spec.negated not cond) }
{
    if not {
        Ok(Pred::Not(Boxed::new(alloc, cond)?))
    } else {
        Ok(cond)
    }
}

fn test(alloc: Global, columns: &[Column], of: &RaTest) -> Result<Pred, RaFault>
    ensures { Gives is_memory result (spec.test columns.now of.now) }
{
    match of {
        RaTest::Cmp(op, left, right) => {
            let left = side(alloc, columns, left)?;
            let right = side(alloc, columns, right)?;
            compared(*op, left, right)
        }
        RaTest::IsNull(name, not) => {
            let _column = column_at(alloc, &name.text, columns)?;
            let expr = Expr::Col(0, place_of(&name.text, columns));
            Ok(negated(alloc, *not, Pred::IsNull(expr))?)
        }
    }
}

fn only(alloc: Global, cond: Pred) -> Result<List<Pred>, NoMemory>
    ensures { IfOk result (λ conds. conds ≡ cond ∷ []) }
{
    let mut conds = List::new(alloc);
    conds.push(cond)?;
    Ok(conds)
}

fn more_tests(
    alloc: Global,
    first: Pred,
    columns: &[Column],
    of: &[RaTest],
) -> Result<List<Pred>, RaFault>
    ensures { Gives is_memory result (spec.tests (first ∷ []) columns.now of.now) }
{
    let mut all = only(alloc, first)?;
    for next in of {
        all.push(test(alloc, columns, next)?)?;
    }
    Ok(all)
}

/// The conditions of the tests, in order.
pub(crate) fn tests(alloc: Global, columns: &[Column], of: &RaTests) -> Result<List<Pred>, RaFault>
    ensures { Gives is_memory result (spec.tests [] columns.now (of.now.head ∷ of.now.tail)) }
{
    let first = test(alloc, columns, &of.head)?;
    more_tests(alloc, first, columns, of.tail.as_slice())
}
