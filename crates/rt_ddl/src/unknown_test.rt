//! The second test within conditions: each name is that of a column.

ghost use Rattle.std.specs.Prelude.{◌≡◌, option_map};
ghost use Rattle.rt_ddl.specs.Meaning as spec;

use crate::known::KnownTable;
use crate::unknown::unknown_column;
use rt_ddl_tree::{Test, TestForm, TestLeaf, TestPart, TestSide};
use rt_value::Txt;

fn side_unknown<'t>(table: &KnownTable, side: &'t TestSide) -> Option<&'t Txt>
    ensures { option_map (λ name. name.now) result ≡ spec.side_unknown table.now.parts side.now }
{
    match side {
        TestSide::Column(name) => unknown_column(table, &name.text),
        TestSide::Number(_, _) => None,
        TestSide::Str(_) => None,
        TestSide::Null => None,
    }
}

fn sides_unknown<'t>(table: &KnownTable, sides: &'t [TestSide]) -> Option<&'t Txt>
    ensures { option_map (λ name. name.now) result ≡ spec.sides_unknown table.now.parts sides.now }
{
    for side in sides {
        if let Some(name) = side_unknown(table, side) {
            return Some(name);
        }
    }
    None
}

fn form_unknown<'t>(table: &KnownTable, form: &'t TestForm) -> Option<&'t Txt>
    ensures { option_map (λ name. name.now) result ≡ spec.form_unknown table.now.parts form.now }
{
    match form {
        TestForm::Cmp(left, _, right) => match side_unknown(table, left) {
            Some(name) => Some(name),
            None => side_unknown(table, right),
        },
        TestForm::IsNull(left, _) => side_unknown(table, left),
        TestForm::Between(left, _, low, high) => match side_unknown(table, left) {
            Some(name) => Some(name),
            None => match side_unknown(table, low) {
                Some(name) => Some(name),
                None => side_unknown(table, high),
            },
        },
        TestForm::OneOf(left, _, head, tail) => match side_unknown(table, left) {
            Some(name) => Some(name),
            None => match side_unknown(table, head) {
                Some(name) => Some(name),
                None => sides_unknown(table, tail.as_slice()),
            },
        },
    }
}

fn leaves_unknown<'t>(table: &KnownTable, leaves: &'t [TestLeaf]) -> Option<&'t Txt>
    ensures { option_map (λ name. name.now) result ≡ spec.leaves_unknown table.now.parts leaves.now }
{
    for leaf in leaves {
        if let Some(name) = form_unknown(table, &leaf.form) {
            return Some(name);
        }
    }
    None
}

fn all_unknown<'t>(table: &KnownTable, part: &'t TestPart) -> Option<&'t Txt>
    ensures { option_map (λ name. name.now) result ≡ spec.all_unknown table.now.parts part.now }
{
    match form_unknown(table, &part.head.form) {
        Some(name) => Some(name),
        None => leaves_unknown(table, part.tail.as_slice()),
    }
}

fn any_unknown<'t>(table: &KnownTable, parts: &'t [TestPart]) -> Option<&'t Txt>
    ensures { option_map (λ name. name.now) result ≡ spec.any_unknown table.now.parts parts.now }
{
    for part in parts {
        if let Some(name) = all_unknown(table, part) {
            return Some(name);
        }
    }
    None
}

/// The first name of a condition that no column has.
pub(crate) fn test_unknown<'t>(table: &KnownTable, test: &'t Test) -> Option<&'t Txt>
    ensures { option_map (λ name. name.now) result ≡ spec.test_unknown table.now.parts test.now }
{
    match all_unknown(table, &test.head) {
        Some(name) => Some(name),
        None => any_unknown(table, test.tail.as_slice()),
    }
}
