//! What a CHECK says of a row (ISO/IEC 9075-2, check constraint definition).

ghost use Rattle.std.specs.Prelude.{◌≡◌, MatchOption, map};
ghost use Rattle.rt_value.specs.Truth.{truth_any};
ghost use Rattle.rt_value.specs.Value.{value_truth};
ghost use Rattle.rt_value.specs.declared.value.Op.TheVariants.{Eq};
ghost use Rattle.rt_value.specs.declared.value.Value.TheVariants.{Null};
ghost use Rattle.rt_schema.specs.Check.{atom_truth, check_truth, leaf_truth, part_truth, side_value};
ghost use Rattle.rt_schema.specs.Law.{passes};

use crate::check::{Check, CheckAtom, CheckLeaf, CheckPart, Side};
use rt_value::{Op, Row, Truth, Value, compare, null_truth};

/// Whether a row passes a check: what is unknown passes, as what is true.
pub fn passes(check: &Check, row: &Row) -> bool
    ensures { result ≡ passes (check_truth row.now check.now) }
{
    check_truth(row, check) != Truth::No
}

fn check_truth(row: &Row, check: &Check) -> Truth
    ensures { result ≡ check_truth row.now check.now }
{
    let mut truth = Truth::No;
    for part in check.any.as_slice() {
        truth = truth.or(part_truth(row, part));
    }
    truth
}

fn part_truth(row: &Row, part: &CheckPart) -> Truth
    ensures { result ≡ part_truth row.now part.now }
{
    let mut truth = Truth::Yes;
    for atom in part.all.as_slice() {
        truth = truth.and(atom_truth(row, atom));
    }
    truth
}

fn atom_truth(row: &Row, atom: &CheckAtom) -> Truth
    ensures { result ≡ atom_truth row.now atom.now }
{
    let truth = leaf_truth(row, &atom.of);
    if atom.not { truth.not() } else { truth }
}

fn leaf_truth(row: &Row, leaf: &CheckLeaf) -> Truth
    ensures { result ≡ leaf_truth row.now leaf.now }
{
    match leaf {
        CheckLeaf::Cmp(op, a, b) => compared(row, a, b, *op),
        CheckLeaf::IsNull(a) => match side_value(row, a) {
            None => Truth::Yes,
            Some(value) => null_truth(value),
        },
        CheckLeaf::Between(a, low, high) => {
            compared(row, a, low, Op::Ge).and(compared(row, a, high, Op::Le))
        }
        CheckLeaf::OneOf(a, items) => one_of_truth(row, a, items.as_slice()),
    }
}

// Whether a side compares equal to one of the items.
fn one_of_truth(row: &Row, a: &Side, items: &[Side]) -> Truth
    ensures { result ≡ truth_any (map (λ b. value_truth Eq (side_value row.now a.now) (side_value row.now b)) items.now) }
{
    let mut truth = Truth::No;
    for item in items {
        truth = truth.or(compared(row, a, item, Op::Eq));
    }
    truth
}

fn compared(row: &Row, a: &Side, b: &Side, op: Op) -> Truth
    ensures { result ≡ value_truth op (side_value row.now a.now) (side_value row.now b.now) }
{
    match (side_value(row, a), side_value(row, b)) {
        (Some(x), Some(y)) => compare(x, y, op),
        _ => Truth::Unknown,
    }
}

// The value of a side. None means NULL: the row has no such column.
fn side_value<'a>(row: &'a Row, side: &'a Side) -> Option<&'a Value>
    ensures { MatchOption result (side_value row.now side.now ≡ Null) (λ value. value.now ≡ side_value row.now side.now) }
{
    match side {
        Side::Column(column) => row.as_slice().get(*column),
        Side::Constant(value) => Some(value),
    }
}
