//! Operators and their operands, by recursive descent with a bound on depth that is never met.

ghost use Rattle.std.specs.Prelude.{◌≡◌};
ghost use Rattle.rt_token.specs.Reads.{Reads};
ghost use Rattle.rt_ra_tree.specs.Operands.{first_operand, last_operand};
ghost use Rattle.rt_ra_tree.specs.Reads as spec;

use crate::conditions::{names, tests};
use crate::heads::{Head, head_at};
use crate::tree::{Ra, RaNames, RaOp, RaTests};
use rt_token::{Fixed, ReadFault, Terminal, expect, name};
use rt_tree::{before, boxed_before};
use rt_value::Boxed;
use std::alloc::Global;

// The tests and the parenthesis after them.
fn last_tests<'t>(
    alloc: Global,
    terminals: &'t [Terminal],
) -> Result<(RaTests, &'t [Terminal]), ReadFault>
    ensures { Reads result (last_operand spec.read_tests terminals.now) }
{
    let (tests, rest) = tests(alloc, terminals)?;
    before(tests, rest, Fixed::CloseParen)
}

// The names and the parenthesis after them.
fn last_names<'t>(
    alloc: Global,
    terminals: &'t [Terminal],
) -> Result<(RaNames, &'t [Terminal]), ReadFault>
    ensures { Reads result (last_operand spec.read_names terminals.now) }
{
    let (names, rest) = names(alloc, terminals)?;
    before(names, rest, Fixed::CloseParen)
}

// The first operand, with the parenthesis before it and the comma after it.
#[cycle(ra_reader)]
fn first<'t>(
    alloc: Global,
    depth: usize,
    terminals: &'t [Terminal],
) -> Result<(Boxed<Ra>, &'t [Terminal]), ReadFault>
    ensures { Reads result (first_operand (spec.read_ra depth) terminals.now) }
{
    let rest = expect(terminals, Fixed::OpenParen)?;
    let (of, rest) = ra(alloc, depth, rest)?;
    boxed_before(alloc, of, rest, Fixed::Comma)
}

// The other operand and the parenthesis after it.
#[cycle(ra_reader)]
fn last<'t>(
    alloc: Global,
    depth: usize,
    terminals: &'t [Terminal],
) -> Result<(Boxed<Ra>, &'t [Terminal]), ReadFault>
    ensures { Reads result (last_operand (spec.read_ra depth) terminals.now) }
{
    let (of, rest) = ra(alloc, depth, terminals)?;
    boxed_before(alloc, of, rest, Fixed::CloseParen)
}

#[cycle(ra_reader)]
fn select<'t>(
    alloc: Global,
    depth: usize,
    terminals: &'t [Terminal],
) -> Result<(Ra, &'t [Terminal]), ReadFault>
    ensures { Reads result (spec.read_select (spec.read_ra depth) terminals.now) }
{
    let (of, rest) = first(alloc, depth, terminals)?;
    match last_tests(alloc, rest) {
        Ok((tests, rest)) => Ok((Ra::Select(of, tests), rest)),
        Err(fault) => {
            drop(of);
            Err(fault)
        }
    }
}

// The operand and the names of PROJECT and RENAME.
#[cycle(ra_reader)]
fn named<'t>(
    alloc: Global,
    depth: usize,
    terminals: &'t [Terminal],
) -> Result<((Boxed<Ra>, RaNames), &'t [Terminal]), ReadFault>
    ensures { Reads result (spec.operands (spec.read_ra depth) spec.read_names terminals.now) }
{
    let (of, rest) = first(alloc, depth, terminals)?;
    match last_names(alloc, rest) {
        Ok((names, rest)) => Ok(((of, names), rest)),
        Err(fault) => {
            drop(of);
            Err(fault)
        }
    }
}

#[cycle(ra_reader)]
fn two<'t>(
    alloc: Global,
    depth: usize,
    op: RaOp,
    terminals: &'t [Terminal],
) -> Result<(Ra, &'t [Terminal]), ReadFault>
    ensures { Reads result (spec.read_two op (spec.read_ra depth) terminals.now) }
{
    let (left, rest) = first(alloc, depth, terminals)?;
    match last(alloc, depth, rest) {
        Ok((right, rest)) => Ok((Ra::Two(op, left, right), rest)),
        Err(fault) => {
            drop(left);
            Err(fault)
        }
    }
}

// What follows the keyword of an operator.
#[cycle(ra_reader)]
fn applied<'t>(
    alloc: Global,
    depth: usize,
    head: Head,
    terminals: &'t [Terminal],
) -> Result<(Ra, &'t [Terminal]), ReadFault>
    ensures { Reads result (spec.read_with head (spec.read_ra depth) terminals.now) }
{
    match head {
        Head::Select => select(alloc, depth, terminals),
        Head::Project => {
            let ((of, names), rest) = named(alloc, depth, terminals)?;
            Ok((Ra::Project(of, names), rest))
        }
        Head::Rename => {
            let ((of, names), rest) = named(alloc, depth, terminals)?;
            Ok((Ra::Rename(of, names), rest))
        }
        Head::Two(op) => two(alloc, depth, op, terminals),
    }
}

/// The tree at the front, with fewer than `depth` operators in one another, and what follows it.
#[tactic(auto, unfolding(crate::specs::Reads::read_ra))]
#[cycle(ra_reader)]
pub(crate) fn ra<'t>(
    alloc: Global,
    depth: usize,
    terminals: &'t [Terminal],
) -> Result<(Ra, &'t [Terminal]), ReadFault>
    ensures { Reads result (spec.read_ra depth terminals.now) }
{
    if depth == 0 {
        return Err(ReadFault::Syntax(terminals.len()));
    }
    match head_at(terminals) {
        None => {
            let (name, rest) = name(alloc, terminals)?;
            Ok((Ra::Table(name), rest))
        }
        Some((head, rest)) => applied(alloc, depth - 1, head, rest),
    }
}
