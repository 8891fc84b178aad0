//! The answer of a query as the other crates ask for it: a set, on the kept rows. But for `Rows`
//! the rest of this crate is private, and may be rearranged as long as this contract is proved.

ghost use Rattle.std.specs.Prelude.{◌≡◌, [], List, length, IfOk};
ghost use Rattle.rt_value.specs.declared.value.Value.{Value};
ghost use Rattle.rt_schema.specs.Given.{places};
ghost use Rattle.rt_schema.specs.Kept.{kept};
ghost use Rattle.rt_algebra.specs.Answer.{answer_by, has_row, plain};
ghost use Rattle.rt_algebra.specs.Expression.{wrapped};
ghost use Rattle.rt_algebra.specs.Typed.{IsTyped};
ghost use Rattle.rt_eval.specs.Distinct.{distinct};

use crate::kept::kept_tables;
use crate::query::answer;
use crate::rows::Rows;
use rt_algebra::{Query, Typed, wrapped_is_exact};
use rt_schema::Given;
use rt_value::{Keep, NoMemory};
use std::alloc::Global;

/// The answer on the kept rows, as a set: sorted, each row once.
pub fn answers(alloc: Global, typed: &Typed, given: &Given, keep: &Keep) -> Result<Rows, NoMemory>
    requires typed { IsTyped given.now.kinds typed.now }
    requires places { places given.now.tables ≡ length keep.now }
    ensures listed { IfOk result (λ rows. rows ≡ distinct (plain typed.now.query (kept given.now.tables keep.now))) }
    ensures members { IfOk result (λ rows. (x : List Value) → has_row rows x ≡ has_row (plain typed.now.query (kept given.now.tables keep.now)) x) }
{
    wrapped_is_exact(typed, given, keep);
    wrapped_answers(alloc, typed.query.get(), given, keep)
}

// The answer with arithmetic modulo 2^128, which asks for no bounds.
fn wrapped_answers(
    alloc: Global,
    query: &Query,
    given: &Given,
    keep: &Keep,
) -> Result<Rows, NoMemory>
    requires { places given.now.tables ≡ length keep.now }
    ensures listed { IfOk result (λ rows. rows ≡ distinct (answer_by wrapped query.now (kept given.now.tables keep.now) [])) }
    ensures members { IfOk result (λ rows. (x : List Value) → has_row rows x ≡ has_row (answer_by wrapped query.now (kept given.now.tables keep.now) []) x) }
{
    let tables = kept_tables(alloc, given.tables(), keep)?;
    let rows = answer(alloc, query, tables.as_slice(), &[])?;
    Rows::of(rows)
}
