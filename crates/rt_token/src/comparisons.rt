//! The six signs of comparisons, found by their code; shared by both grammars of conditions.

ghost use Rattle.std.specs.Prelude.{◌≡◌};
ghost use Rattle.rt_token.specs.Comparisons as spec;

use crate::fixed::{Fixed, code};
use rt_value::Op;

/// The comparison whose sign has this code (ISO/IEC 9075-2, comparison predicate).
pub fn op_at(place: u8) -> Option<Op>
    ensures { result ≡ spec.op_at place }
{
    if place == code(Fixed::Equal) {
        Some(Op::Eq)
    } else if place == code(Fixed::NotEqual) {
        Some(Op::Ne)
    } else if place == code(Fixed::Below) {
        Some(Op::Lt)
    } else if place == code(Fixed::AtMost) {
        Some(Op::Le)
    } else if place == code(Fixed::Above) {
        Some(Op::Gt)
    } else if place == code(Fixed::AtLeast) {
        Some(Op::Ge)
    } else {
        None
    }
}
