//! Laws of the algebra, each the contract of a function that does nothing. A caller of one has the
//! law as a fact about its own query and rows.

ghost use Rattle.std.specs.Prelude.{◌≡◌, []};
ghost use Rattle.rt_schema.specs.Kept.{kept};
ghost use Rattle.rt_algebra.specs.Answer.{answer_by, plain};
ghost use Rattle.rt_algebra.specs.Columns.{table_columns};
ghost use Rattle.rt_algebra.specs.Expression.{wrapped};
ghost use Rattle.rt_algebra.specs.Sites.{StaysBounded};
ghost use Rattle.rt_algebra.specs.Typed.{IsTyped};

use crate::typed::Typed;
use rt_schema::Given;
use rt_value::Keep;

/// No step of evaluation leaves 128 bits: each expression that is evaluated has a value within
/// its bound.
pub fn stays_bounded(typed: &Typed, given: &Given, keep: &Keep)
    requires typed { IsTyped given.now.kinds typed.now }
    ensures { StaysBounded typed.now.query (kept given.now.tables keep.now) (table_columns given.now.kinds) }
{
    let _ = typed;
    let _ = keep;
    let _tables = given.tables();
}

/// Evaluation with arithmetic modulo 2^128 gives just the answer.
pub fn wrapped_is_exact(typed: &Typed, given: &Given, keep: &Keep)
    requires typed { IsTyped given.now.kinds typed.now }
    ensures { answer_by wrapped typed.now.query (kept given.now.tables keep.now) [] ≡ plain typed.now.query (kept given.now.tables keep.now) }
{
    let _ = typed;
    let _ = keep;
    let _tables = given.tables();
}
