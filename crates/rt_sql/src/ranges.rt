//! The tests that hold no chain: comparisons, IS NULL, BETWEEN, and IN with a list of sums.

ghost use Rattle.std.specs.Prelude.{◌≡◌};
ghost use Rattle.rt_token.specs.Readers.{list_of};
ghost use Rattle.rt_token.specs.Reads.{Reads};
ghost use Rattle.rt_sql.specs.Reads as spec;

use crate::tested::{Range, Test};
use rt_token::{Fixed, ReadFault, Terminal, after, code, expect, flag, front, starts, tail};
use rt_tree::{Op, Sum, before, boxed_before, sum_at};
use rt_value::List;
use std::alloc::Global;

fn more_sums<'t>(
    alloc: Global,
    terminals: &'t [Terminal],
) -> Result<(List<Sum>, &'t [Terminal]), ReadFault>
    ensures { Reads result (list_of spec.comma_sum_step terminals.now) }
{
    let mut items = List::new(alloc);
    let mut rest = terminals;
    'items: while let Some(next) = after(rest, Fixed::Comma) {
        let (item, more) = sum_at(alloc, next)?;
        items.push(item)?;
        rest = more;
    }
    Ok((items, rest))
}

// Sums with commas in between.
#[tactic(auto, unfolding(crate::specs::Reads::read_sums))]
fn sums<'t>(
    alloc: Global,
    terminals: &'t [Terminal],
) -> Result<((Sum, List<Sum>), &'t [Terminal]), ReadFault>
    ensures { Reads result (spec.read_sums terminals.now) }
{
    let (head, rest) = sum_at(alloc, terminals)?;
    match more_sums(alloc, rest) {
        Ok((tail, rest)) => Ok(((head, tail), rest)),
        Err(fault) => {
            drop(head);
            Err(fault)
        }
    }
}

// IN and sums in parentheses.
fn in_list<'t>(
    alloc: Global,
    terminals: &'t [Terminal],
) -> Result<(Range, &'t [Terminal]), ReadFault>
    ensures { Reads result (spec.read_in_list terminals.now) }
{
    let rest = expect(terminals, Fixed::In)?;
    let rest = expect(rest, Fixed::OpenParen)?;
    let (sums, rest) = sums(alloc, rest)?;
    let ((head, tail), rest) = before(sums, rest, Fixed::CloseParen)?;
    Ok((Range::OfList(head, tail), rest))
}

// BETWEEN and its bounds.
fn between<'t>(
    alloc: Global,
    terminals: &'t [Terminal],
) -> Result<(Range, &'t [Terminal]), ReadFault>
    ensures { Reads result (spec.read_between terminals.now) }
{
    let rest = expect(terminals, Fixed::Between)?;
    let (low, rest) = sum_at(alloc, rest)?;
    let (low, rest) = boxed_before(alloc, low, rest, Fixed::And)?;
    match sum_at(alloc, rest) {
        Ok((high, rest)) => Ok((Range::OfBounds(low.into_inner(), high), rest)),
        Err(fault) => {
            drop(low);
            Err(fault)
        }
    }
}

/// A range that holds no chain.
pub(crate) fn plain_range<'t>(
    alloc: Global,
    terminals: &'t [Terminal],
) -> Result<(Range, &'t [Terminal]), ReadFault>
    ensures { Reads result (spec.read_plain_range terminals.now) }
{
    if starts(terminals, Fixed::In) {
        in_list(alloc, terminals)
    } else {
        between(alloc, terminals)
    }
}

fn op_at(place: u8) -> Option<Op>
    ensures { result ≡ spec.op_at place }
{
    if place == code(Fixed::Equal) {
        Some(Op::Eq)
    } else if place == code(Fixed::NotEqual) {
        Some(Op::Ne)
    } else if place == code(Fixed::Below) {
        Some(Op::Lt)
    } else if place == code(Fixed::AtMost) {
        Some(Op::Le)
    } else if place == code(Fixed::Above) {
        Some(Op::Gt)
    } else if place == code(Fixed::AtLeast) {
        Some(Op::Ge)
    } else {
        None
    }
}

/// A comparison and a sum.
pub(crate) fn compared<'t>(
    alloc: Global,
    terminals: &'t [Terminal],
) -> Result<(Test, &'t [Terminal]), ReadFault>
    ensures { Reads result (spec.read_compared terminals.now) }
{
    let Some(op) = op_at(front(terminals)) else {
        return Err(ReadFault::Syntax(terminals.len()));
    };
    let (right, rest) = sum_at(alloc, tail(terminals))?;
    Ok((Test::Compared(op, right), rest))
}

/// IS, perhaps NOT, and NULL.
pub(crate) fn is_null<'t>(terminals: &'t [Terminal]) -> Result<(Test, &'t [Terminal]), ReadFault>
    ensures { Reads result (spec.read_is_null terminals.now) }
{
    let rest = expect(terminals, Fixed::Is)?;
    let (not, rest) = flag(rest, Fixed::Not);
    let rest = expect(rest, Fixed::Null)?;
    Ok((Test::Null(not), rest))
}
