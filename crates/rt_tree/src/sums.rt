//! Sums, products and factors, by recursive descent. The bound on depth is one more than the number
//! of terminals, so it is never met.

ghost use Rattle.std.specs.Prelude.{◌≡◌};
ghost use Rattle.rt_token.specs.Readers.{list_of};
ghost use Rattle.rt_token.specs.Reads.{Reads};
ghost use Rattle.rt_tree.specs.Reads as spec;

use crate::ends::boxed_before;
use crate::tree::{Factor, Leaf, Mul, Sum, SumLink};
use rt_token::{Fixed, ReadFault, Terminal, after, counted, expect, name, starts, starts_name};
use rt_value::List;
use std::alloc::Global;

fn column<'t>(alloc: Global, terminals: &'t [Terminal]) -> Result<(Leaf, &'t [Terminal]), ReadFault>
    ensures { Reads result (spec.read_col terminals.now) }
{
    let (first, rest) = name(alloc, terminals)?;
    match after(rest, Fixed::Dot) {
        Some(rest) => {
            let (second, rest) = name(alloc, rest)?;
            Ok((Leaf::Col(Some(first), second), rest))
        }
        None => Ok((Leaf::Col(None, first), rest)),
    }
}

fn literal<'t>(
    alloc: Global,
    terminals: &'t [Terminal],
) -> Result<(Leaf, &'t [Terminal]), ReadFault>
    ensures { Reads result (spec.read_literal terminals.now) }
{
    match terminals {
        [Terminal::Number(number), rest @ ..] => Ok((Leaf::Number(*number), rest)),
        [Terminal::Str(text), rest @ ..] => Ok((Leaf::Str(text.copy(alloc)?), rest)),
        _ => Err(ReadFault::Syntax(terminals.len())),
    }
}

// A leaf that is no parenthesised sum.
fn plain_leaf<'t>(
    alloc: Global,
    terminals: &'t [Terminal],
) -> Result<(Leaf, &'t [Terminal]), ReadFault>
    ensures { Reads result (spec.read_plain_leaf terminals.now) }
{
    if starts(terminals, Fixed::Null) {
        let rest = expect(terminals, Fixed::Null)?;
        return Ok((Leaf::Null, rest));
    }
    if starts_name(terminals) {
        column(alloc, terminals)
    } else {
        literal(alloc, terminals)
    }
}

// The leaf at the front, with at most `depth` parentheses in one another.
#[tactic(auto, unfolding(crate::specs::Reads::read_leaf))]
#[cycle(sum_reader)]
fn leaf<'t>(
    alloc: Global,
    depth: usize,
    terminals: &'t [Terminal],
) -> Result<(Leaf, &'t [Terminal]), ReadFault>
    ensures { Reads result (spec.read_leaf (spec.read_sum depth) terminals.now) }
{
    if !starts(terminals, Fixed::OpenParen) {
        return plain_leaf(alloc, terminals);
    }
    let rest = expect(terminals, Fixed::OpenParen)?;
    let (inner, rest) = sum(alloc, depth, rest)?;
    let (inner, rest) = boxed_before(alloc, inner, rest, Fixed::CloseParen)?;
    Ok((Leaf::Paren(inner), rest))
}

#[tactic(auto, unfolding(crate::specs::Reads::read_factor))]
#[cycle(sum_reader)]
fn factor<'t>(
    alloc: Global,
    depth: usize,
    terminals: &'t [Terminal],
) -> Result<(Factor, &'t [Terminal]), ReadFault>
    ensures { Reads result (spec.read_factor (spec.read_sum depth) terminals.now) }
{
    let (minuses, rest) = counted(terminals, Fixed::Minus);
    let (of, rest) = leaf(alloc, depth, rest)?;
    Ok((Factor { minuses, of }, rest))
}

#[cycle(sum_reader)]
fn factors<'t>(
    alloc: Global,
    depth: usize,
    terminals: &'t [Terminal],
) -> Result<(List<Factor>, &'t [Terminal]), ReadFault>
    ensures { Reads result (list_of (spec.factor_step (spec.read_sum depth)) terminals.now) }
{
    let mut items = List::new(alloc);
    let mut rest = terminals;
    'items: while let Some(next) = after(rest, Fixed::Star) {
        let (item, more) = factor(alloc, depth, next)?;
        items.push(item)?;
        rest = more;
    }
    Ok((items, rest))
}

#[tactic(auto, unfolding(crate::specs::Reads::read_mul))]
#[cycle(sum_reader)]
fn mul<'t>(
    alloc: Global,
    depth: usize,
    terminals: &'t [Terminal],
) -> Result<(Mul, &'t [Terminal]), ReadFault>
    ensures { Reads result (spec.read_mul (spec.read_sum depth) terminals.now) }
{
    let (head, rest) = factor(alloc, depth, terminals)?;
    match factors(alloc, depth, rest) {
        Ok((tail, rest)) => Ok((Mul { head, tail }, rest)),
        Err(fault) => {
            drop(head);
            Err(fault)
        }
    }
}

#[tactic(auto, unfolding(crate::specs::Reads::read_sum_link))]
#[cycle(sum_reader)]
fn sum_link<'t>(
    alloc: Global,
    depth: usize,
    terminals: &'t [Terminal],
) -> Result<(SumLink, &'t [Terminal]), ReadFault>
    ensures { Reads result (spec.read_sum_link (spec.read_sum depth) terminals.now) }
{
    let minus = starts(terminals, Fixed::Minus);
    let sign = if minus { Fixed::Minus } else { Fixed::Plus };
    let rest = expect(terminals, sign)?;
    let (of, rest) = mul(alloc, depth, rest)?;
    Ok((SumLink { minus, of }, rest))
}

fn is_sign(terminals: &[Terminal]) -> bool
    ensures { result ≡ spec.is_sign terminals.now }
{
    starts(terminals, Fixed::Plus) || starts(terminals, Fixed::Minus)
}

#[cycle(sum_reader)]
fn sum_links<'t>(
    alloc: Global,
    depth: usize,
    terminals: &'t [Terminal],
) -> Result<(List<SumLink>, &'t [Terminal]), ReadFault>
    ensures { Reads result (list_of (spec.sum_step (spec.read_sum depth)) terminals.now) }
{
    let mut items = List::new(alloc);
    let mut rest = terminals;
    'items: while is_sign(rest) {
        let (item, more) = sum_link(alloc, depth, rest)?;
        items.push(item)?;
        rest = more;
    }
    Ok((items, rest))
}

#[tactic(auto, unfolding(crate::specs::Reads::read_sum, crate::specs::Reads::read_sum_over))]
#[cycle(sum_reader)]
fn sum<'t>(
    alloc: Global,
    depth: usize,
    terminals: &'t [Terminal],
) -> Result<(Sum, &'t [Terminal]), ReadFault>
    ensures { Reads result (spec.read_sum depth terminals.now) }
{
    if depth == 0 {
        return Err(ReadFault::Syntax(terminals.len()));
    }
    let (head, rest) = mul(alloc, depth - 1, terminals)?;
    match sum_links(alloc, depth - 1, rest) {
        Ok((tail, rest)) => Ok((Sum { head, tail }, rest)),
        Err(fault) => {
            drop(head);
            Err(fault)
        }
    }
}

/// The sum at the front, and what follows it.
#[tactic(auto, unfolding(crate::specs::Reads::sum_at))]
pub fn sum_at<'t>(
    alloc: Global,
    terminals: &'t [Terminal],
) -> Result<(Sum, &'t [Terminal]), ReadFault>
    ensures { Reads result (spec.sum_at terminals.now) }
{
    sum(alloc, terminals.len() + 1, terminals)
}
