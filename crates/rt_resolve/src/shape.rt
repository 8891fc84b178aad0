//! Whether the answers of two queries can be compared at all.

ghost use Rattle.std.specs.Prelude.{◌≡◌};
ghost use Rattle.rt_resolve.specs.Shapes.{ShapeAnswer, same_kinds};

use rt_algebra::Typed;
use rt_schema::ColKind;
use rt_scope::NameFault;

fn same_kinds(kinds: &[ColKind], others: &[ColKind]) -> bool
    ensures { result ≡ same_kinds kinds.now others.now }
{
    let mut left = kinds;
    let mut right = others;
    'kinds: while let [kind, left_rest @ ..] = left {
        let [other, right_rest @ ..] = right else {
            return false;
        };
        if *kind != *other {
            return false;
        }
        left = left_rest;
        right = right_rest;
    }
    right.is_empty()
}

/// Whether two queries have the same number of columns, and columns of the same kinds.
pub fn shapes(a: &Typed, b: &Typed) -> Result<(), NameFault>
    ensures { ShapeAnswer a.now.kinds b.now.kinds result }
{
    if a.width() != b.width() {
        return Err(NameFault::Columns);
    }
    if same_kinds(a.kinds.as_slice(), b.kinds.as_slice()) {
        Ok(())
    } else {
        Err(NameFault::TypeMismatch)
    }
}
