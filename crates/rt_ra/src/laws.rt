//! Laws of the operators, each the contract of a function that does nothing. They are for readers:
//! `resolve_ra` has them all in one, over whole texts.

ghost use Rattle.std.specs.Prelude.{◌∷◌};
ghost use Rattle.rt_ra.specs.OperatorAnswers as answers;
ghost use Rattle.rt_ra.specs.OperatorMeaning.{KeepsOne, KeepsTwo, SelectTyped, StaysTyped, TableKeeps, TableTyped, TwoTyped};
ghost use Rattle.rt_ra.specs.Unary as spec;

use rt_ra_tree::{RaOp, RaTests};
use rt_relation::Relation;
use rt_schema::Table;
use rt_value::Txt;

/// A table answers just its rows, and is typed, where the tables are those of the schema.
pub fn table_law(name: &Txt, tables: &[Table])
    ensures keeps { TableKeeps name.now tables.now }
    ensures typed { TableTyped name.now tables.now }
{
    let _ = name;
    let _ = tables;
}

/// SELECT answers just the rows that meet the tests, and is typed where the numbers are in range.
pub fn select_law(of: &Relation, tests: &RaTests)
    ensures keeps { KeepsOne (λ m. answers.select m (tests.now.head ∷ tests.now.tail)) of.now (spec.select of.now tests.now) }
    ensures typed { SelectTyped of.now tests.now }
{
    let _ = of;
    let _ = tests;
}

/// PROJECT answers just the named cells of the rows, and is typed.
pub fn project_law(of: &Relation, names: &[Txt])
    ensures keeps { KeepsOne (λ m. answers.project m names.now) of.now (spec.project of.now names.now) }
    ensures typed { StaysTyped of.now (spec.project of.now names.now) }
{
    let _ = of;
    let _ = names;
}

/// RENAME answers the same rows under the new names, and is typed.
pub fn rename_law(of: &Relation, names: &[Txt])
    ensures keeps { KeepsOne (λ m. answers.rename m names.now) of.now (spec.rename of.now names.now) }
    ensures typed { StaysTyped of.now (spec.rename of.now names.now) }
{
    let _ = of;
    let _ = names;
}

/// Each operator of two operands answers just its rows, and is typed.
pub fn two_law(op: RaOp, left: &Relation, right: &Relation)
    ensures keeps { KeepsTwo op left.now right.now }
    ensures typed { TwoTyped op left.now right.now }
{
    let _ = op;
    let _ = left;
    let _ = right;
}
