//! The checks that conditions make. NOT before a comparison and NOT inside it cancel out.

ghost use Rattle.std.specs.Prelude.{◌≡◌, IfOk};
ghost use Rattle.rt_ddl.specs.Checks as spec;
ghost use Rattle.rt_ddl.specs.Meaning.{column_at, columns_of};
ghost use Rattle.rt_schema.specs.declared.check.CheckLeaf.TheVariants as leaves;

use crate::known::KnownTable;
use crate::made::{Makes, all_made};
use rt_ddl_tree::{Test, TestForm, TestLeaf, TestPart, TestSide};
use rt_schema::{Check, CheckAtom, CheckLeaf, CheckPart, Side};
use rt_value::{NoMemory, Value};
use std::alloc::Global;

impl Makes for TestSide {
    ghost use Rattle.rt_ddl.specs.Checks.{side_made};

    type Made = Side;

    ghost of_places = { side_made };

    fn made(&self, alloc: Global, table: &KnownTable) -> Result<Side, NoMemory> {
        match self {
            TestSide::Column(name) => Ok(Side::Column(table.column_at(&name.text))),
            TestSide::Number(false, number) => Ok(Side::Constant(Value::Int(*number))),
            TestSide::Number(true, number) => Ok(Side::Constant(Value::Int(number.wrapping_neg()))),
            TestSide::Str(text) => Ok(Side::Constant(Value::Text(text.copy(alloc)?))),
            TestSide::Null => Ok(Side::Constant(Value::Null)),
        }
    }
}

fn two_made(
    alloc: Global,
    table: &KnownTable,
    first: &TestSide,
    second: &TestSide,
) -> Result<(Side, Side), NoMemory>
    ensures { let place = column_at (columns_of table.now.parts) in IfOk result (λ two. two ≡ (spec.side_made place first.now, spec.side_made place second.now)) }
{
    let first = first.made(alloc, table)?;
    match second.made(alloc, table) {
        Ok(second) => Ok((first, second)),
        Err(error) => {
            drop(first);
            Err(error)
        }
    }
}

fn between_made(
    alloc: Global,
    table: &KnownTable,
    left: &TestSide,
    low: &TestSide,
    high: &TestSide,
) -> Result<CheckLeaf, NoMemory>
    ensures { let place = column_at (columns_of table.now.parts) in IfOk result (λ l. l ≡ leaves.Between (spec.side_made place left.now) (spec.side_made place low.now) (spec.side_made place high.now)) }
{
    let left = left.made(alloc, table)?;
    match two_made(alloc, table, low, high) {
        Ok((low, high)) => Ok(CheckLeaf::Between(left, low, high)),
        Err(error) => {
            drop(left);
            Err(error)
        }
    }
}

fn form_made(alloc: Global, table: &KnownTable, form: &TestForm) -> Result<CheckLeaf, NoMemory>
    ensures { IfOk result (λ l. l ≡ spec.form_made (column_at (columns_of table.now.parts)) form.now) }
{
    match form {
        TestForm::Cmp(left, op, right) => {
            let (left, right) = two_made(alloc, table, left, right)?;
            Ok(CheckLeaf::Cmp(*op, left, right))
        }
        TestForm::IsNull(left, _) => Ok(CheckLeaf::IsNull(left.made(alloc, table)?)),
        TestForm::Between(left, _, low, high) => between_made(alloc, table, left, low, high),
        TestForm::OneOf(left, _, head, tail) => {
            let items = all_made(alloc, table, head, tail.as_slice())?;
            Ok(CheckLeaf::OneOf(left.made(alloc, table)?, items))
        }
    }
}

// The NOT inside a form, as in NOT BETWEEN.
fn form_not(form: &TestForm) -> bool
    ensures { result ≡ spec.form_not form.now }
{
    match form {
        TestForm::Cmp(_, _, _) => false,
        TestForm::IsNull(_, not) => *not,
        TestForm::Between(_, not, _, _) => *not,
        TestForm::OneOf(_, not, _, _) => *not,
    }
}

impl Makes for TestLeaf {
    ghost use Rattle.rt_ddl.specs.Checks.{leaf_made};

    type Made = CheckAtom;

    ghost of_places = { leaf_made };

    fn made(&self, alloc: Global, table: &KnownTable) -> Result<CheckAtom, NoMemory> {
        let inside = form_not(&self.form);
        let not = if self.not { !inside } else { inside };
        let of = form_made(alloc, table, &self.form)?;
        Ok(CheckAtom { not, of })
    }
}

impl Makes for TestPart {
    ghost use Rattle.rt_ddl.specs.Checks.{part_made};

    type Made = CheckPart;

    ghost of_places = { part_made };

    fn made(&self, alloc: Global, table: &KnownTable) -> Result<CheckPart, NoMemory> {
        let all = all_made(alloc, table, &self.head, self.tail.as_slice())?;
        Ok(CheckPart { all })
    }
}

/// The check over the table's columns, where no name is unknown.
pub(crate) fn check_made(alloc: Global, table: &KnownTable, test: &Test) -> Result<Check, NoMemory>
    ensures { IfOk result (λ c. c ≡ spec.check_made (column_at (columns_of table.now.parts)) test.now) }
{
    let any = all_made(alloc, table, &test.head, test.tail.as_slice())?;
    Ok(Check { any })
}
