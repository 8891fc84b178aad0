//! Whether a CHECK compares values of one kind: part of what makes a schema sound.

ghost use Rattle.std.specs.Prelude.{◌≡◌};
ghost use Rattle.std.specs.List.{list_all};
ghost use Rattle.rt_schema.specs.Schema.{check_typed, kinds_match, leaf_typed, part_typed, side_kind, sides_fit};

use crate::check::{Check, CheckLeaf, CheckPart, Side};
use crate::table::{ColKind, Column};
use rt_value::Value;

/// Whether a check compares no whole number with a text. NULL compares with both.
pub fn check_typed(columns: &[Column], check: &Check) -> bool
    ensures { result ≡ check_typed columns.now check.now }
{
    check
        .any
        .as_slice()
        .iter()
        .all(|part| part_typed(columns, part))
}

fn part_typed(columns: &[Column], part: &CheckPart) -> bool
    ensures { result ≡ part_typed columns.now part.now }
{
    part.all
        .as_slice()
        .iter()
        .all(|atom| leaf_typed(columns, &atom.of))
}

fn leaf_typed(columns: &[Column], leaf: &CheckLeaf) -> bool
    ensures { result ≡ leaf_typed columns.now leaf.now }
{
    match leaf {
        CheckLeaf::Cmp(_, a, b) => sides_fit(columns, a, b),
        CheckLeaf::IsNull(_) => true,
        CheckLeaf::Between(a, low, high) => {
            sides_fit(columns, a, low) && sides_fit(columns, a, high)
        }
        CheckLeaf::OneOf(a, items) => all_fit(columns, a, items.as_slice()),
    }
}

fn all_fit(columns: &[Column], a: &Side, sides: &[Side]) -> bool
    ensures { result ≡ list_all (sides_fit columns.now a.now) sides.now }
{
    sides.iter().all(|side| sides_fit(columns, a, side))
}

fn sides_fit(columns: &[Column], a: &Side, b: &Side) -> bool
    ensures { result ≡ sides_fit columns.now a.now b.now }
{
    comparable(side_kind(columns, a), side_kind(columns, b))
}

/// Whether values of these kinds may be compared: equal kinds, or one is None, the kind of NULL.
pub fn comparable(a: Option<ColKind>, b: Option<ColKind>) -> bool
    ensures { result ≡ kinds_match a b }
{
    match (a, b) {
        (Some(k), Some(l)) => k == l,
        _ => true,
    }
}

fn side_kind(columns: &[Column], side: &Side) -> Option<ColKind>
    ensures { result ≡ side_kind columns.now side.now }
{
    match side {
        Side::Column(column) => columns.get(*column).map(|column| column.kind),
        Side::Constant(Value::Null) => None,
        Side::Constant(Value::Int(_)) => Some(ColKind::Whole),
        Side::Constant(Value::Text(_)) => Some(ColKind::Text),
    }
}
