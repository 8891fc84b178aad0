//! Conditions, with at most `depth` parentheses in one another.

ghost use Rattle.std.specs.Prelude.{◌≡◌};
ghost use Rattle.rt_token.specs.Readers.{list_of, paren};
ghost use Rattle.rt_token.specs.Reads.{Reads};
ghost use Rattle.rt_sql.specs.Reads as spec;

use crate::chains::chain_in_parens;
use crate::looks::{is_group, is_in_chain, is_op};
use crate::ranges::{compared, is_null, plain_range};
use crate::tested::{Range, Test, atom_of};
use rt_token::{Fixed, ReadFault, Terminal, after, counted, expect, flag, starts};
use rt_tree::{Atom, Cond, Conj, Neg, boxed_before, sum_at};
use rt_value::{Boxed, List};
use std::alloc::Global;

#[tactic(auto, unfolding(crate::specs::Reads::read_range))]
#[cycle(chain_reader)]
fn range<'t>(
    alloc: Global,
    depth: usize,
    terminals: &'t [Terminal],
) -> Result<(Range, &'t [Terminal]), ReadFault>
    ensures { Reads result (spec.read_range (spec.level depth) terminals.now) }
{
    if !is_in_chain(terminals) {
        return plain_range(alloc, terminals);
    }
    let rest = expect(terminals, Fixed::In)?;
    let (inner, rest) = chain_in_parens(alloc, depth, rest)?;
    Ok((Range::OfChain(inner), rest))
}

#[tactic(auto, unfolding(crate::specs::Reads::read_test))]
#[cycle(chain_reader)]
fn test<'t>(
    alloc: Global,
    depth: usize,
    terminals: &'t [Terminal],
) -> Result<(Test, &'t [Terminal]), ReadFault>
    ensures { Reads result (spec.read_test (spec.level depth) terminals.now) }
{
    if is_op(terminals) {
        return compared(alloc, terminals);
    }
    if starts(terminals, Fixed::Is) {
        return is_null(terminals);
    }
    let (not, rest) = flag(terminals, Fixed::Not);
    let (range, rest) = range(alloc, depth, rest)?;
    Ok((Test::Ranged(not, range), rest))
}

// The condition between parentheses.
#[cycle(chain_reader)]
fn inner_cond<'t>(
    alloc: Global,
    depth: usize,
    terminals: &'t [Terminal],
) -> Result<(Cond, &'t [Terminal]), ReadFault>
    ensures { Reads result ((spec.level depth).cond terminals.now) }
{
    if depth == 0 {
        return Err(ReadFault::Syntax(terminals.len()));
    }
    cond(alloc, depth - 1, terminals)
}

// A condition in parentheses.
#[cycle(chain_reader)]
fn cond_in_parens<'t>(
    alloc: Global,
    depth: usize,
    terminals: &'t [Terminal],
) -> Result<(Boxed<Cond>, &'t [Terminal]), ReadFault>
    ensures { Reads result (paren (spec.level depth).cond terminals.now) }
{
    let rest = expect(terminals, Fixed::OpenParen)?;
    let (inner, rest) = inner_cond(alloc, depth, rest)?;
    boxed_before(alloc, inner, rest, Fixed::CloseParen)
}

#[tactic(auto, unfolding(crate::specs::Reads::read_atom))]
#[cycle(chain_reader)]
fn atom<'t>(
    alloc: Global,
    depth: usize,
    terminals: &'t [Terminal],
) -> Result<(Atom, &'t [Terminal]), ReadFault>
    ensures { Reads result (spec.read_atom (spec.level depth) terminals.now) }
{
    if starts(terminals, Fixed::Exists) {
        let rest = expect(terminals, Fixed::Exists)?;
        let (inner, rest) = chain_in_parens(alloc, depth, rest)?;
        return Ok((Atom::Exists(inner), rest));
    }
    if is_group(terminals) {
        let (inner, rest) = cond_in_parens(alloc, depth, terminals)?;
        return Ok((Atom::Paren(inner), rest));
    }
    let (left, rest) = sum_at(alloc, terminals)?;
    match test(alloc, depth, rest) {
        Ok((test, rest)) => Ok((atom_of(left, test), rest)),
        Err(fault) => {
            drop(left);
            Err(fault)
        }
    }
}

#[tactic(auto, unfolding(crate::specs::Reads::read_neg))]
#[cycle(chain_reader)]
fn neg<'t>(
    alloc: Global,
    depth: usize,
    terminals: &'t [Terminal],
) -> Result<(Neg, &'t [Terminal]), ReadFault>
    ensures { Reads result (spec.read_neg (spec.level depth) terminals.now) }
{
    let (nots, rest) = counted(terminals, Fixed::Not);
    let (atom, rest) = atom(alloc, depth, rest)?;
    Ok((Neg { nots, atom }, rest))
}

#[cycle(chain_reader)]
fn more_negs<'t>(
    alloc: Global,
    depth: usize,
    terminals: &'t [Terminal],
) -> Result<(List<Neg>, &'t [Terminal]), ReadFault>
    ensures { Reads result (list_of (spec.neg_step (spec.level depth)) terminals.now) }
{
    let mut items = List::new(alloc);
    let mut rest = terminals;
    'items: while let Some(next) = after(rest, Fixed::And) {
        let (item, more) = neg(alloc, depth, next)?;
        items.push(item)?;
        rest = more;
    }
    Ok((items, rest))
}

#[tactic(auto, unfolding(crate::specs::Reads::read_conj))]
#[cycle(chain_reader)]
fn conj<'t>(
    alloc: Global,
    depth: usize,
    terminals: &'t [Terminal],
) -> Result<(Conj, &'t [Terminal]), ReadFault>
    ensures { Reads result (spec.read_conj (spec.level depth) terminals.now) }
{
    let (head, rest) = neg(alloc, depth, terminals)?;
    match more_negs(alloc, depth, rest) {
        Ok((tail, rest)) => Ok((Conj { head, tail }, rest)),
        Err(fault) => {
            drop(head);
            Err(fault)
        }
    }
}

#[cycle(chain_reader)]
fn more_conjs<'t>(
    alloc: Global,
    depth: usize,
    terminals: &'t [Terminal],
) -> Result<(List<Conj>, &'t [Terminal]), ReadFault>
    ensures { Reads result (list_of (spec.conj_step (spec.level depth)) terminals.now) }
{
    let mut items = List::new(alloc);
    let mut rest = terminals;
    'items: while let Some(next) = after(rest, Fixed::Or) {
        let (item, more) = conj(alloc, depth, next)?;
        items.push(item)?;
        rest = more;
    }
    Ok((items, rest))
}

/// The condition at the front, and what follows it.
#[tactic(auto, unfolding(crate::specs::Reads::read_cond))]
#[cycle(chain_reader)]
pub(crate) fn cond<'t>(
    alloc: Global,
    depth: usize,
    terminals: &'t [Terminal],
) -> Result<(Cond, &'t [Terminal]), ReadFault>
    ensures { Reads result (spec.read_cond (spec.level depth) terminals.now) }
{
    let (head, rest) = conj(alloc, depth, terminals)?;
    match more_conjs(alloc, depth, rest) {
        Ok((tail, rest)) => Ok((Cond { head, tail }, rest)),
        Err(fault) => {
            drop(head);
            Err(fault)
        }
    }
}
