//! The second argument of SELECT, PROJECT and RENAME: a list of tests, or one of names.

ghost use Rattle.std.specs.Prelude.{◌≡◌};
ghost use Rattle.rt_token.specs.Readers.{both, list_of, made, read_name};
ghost use Rattle.rt_token.specs.Reads.{Reads};
ghost use Rattle.rt_ra_tree.specs.Reads as spec;

use crate::tree::{RaNames, RaSide, RaTest, RaTests};
use rt_token::{
    Fixed, Name, ReadFault, Terminal, after, expect, flag, front, name, name_of, op_at, starts,
    starts_name, tail,
};
use rt_tree::before;
use rt_value::List;
use std::alloc::Global;

// A name, a number or a text.
fn plain_side<'t>(
    alloc: Global,
    terminals: &'t [Terminal],
) -> Result<(RaSide, &'t [Terminal]), ReadFault>
    ensures { Reads result (spec.read_plain_side terminals.now) }
{
    match terminals {
        [Terminal::Name(name), rest @ ..] => {
            Ok((RaSide::Col(name_of(alloc, &name.text, name.quoted)?), rest))
        }
        [Terminal::Number(number), rest @ ..] => Ok((RaSide::Number(false, *number), rest)),
        [Terminal::Str(text), rest @ ..] => Ok((RaSide::Str(text.copy(alloc)?), rest)),
        _ => Err(ReadFault::Syntax(terminals.len())),
    }
}

// What follows a minus.
fn number<'t>(terminals: &'t [Terminal]) -> Result<(i128, &'t [Terminal]), ReadFault>
    ensures { Reads result (spec.read_number terminals.now) }
{
    match terminals {
        [Terminal::Number(number), rest @ ..] => Ok((*number, rest)),
        _ => Err(ReadFault::Syntax(terminals.len())),
    }
}

#[tactic(auto, unfolding(crate::specs::Reads::read_side))]
fn side<'t>(alloc: Global, terminals: &'t [Terminal]) -> Result<(RaSide, &'t [Terminal]), ReadFault>
    ensures { Reads result (spec.read_side terminals.now) }
{
    if !starts(terminals, Fixed::Minus) {
        return plain_side(alloc, terminals);
    }
    let rest = expect(terminals, Fixed::Minus)?;
    let (number, rest) = number(rest)?;
    Ok((RaSide::Number(true, number), rest))
}

fn compared<'t>(
    alloc: Global,
    terminals: &'t [Terminal],
) -> Result<(RaTest, &'t [Terminal]), ReadFault>
    ensures { Reads result (spec.read_compared terminals.now) }
{
    let (left, rest) = side(alloc, terminals)?;
    let Some(op) = op_at(front(rest)) else {
        return Err(ReadFault::Syntax(rest.len()));
    };
    let (right, rest) = side(alloc, tail(rest))?;
    Ok((RaTest::Cmp(op, left, right), rest))
}

fn is_null<'t>(
    alloc: Global,
    terminals: &'t [Terminal],
) -> Result<(RaTest, &'t [Terminal]), ReadFault>
    ensures { Reads result (spec.read_is_null terminals.now) }
{
    let (name, rest) = name(alloc, terminals)?;
    let rest = expect(rest, Fixed::Is)?;
    let (not, rest) = flag(rest, Fixed::Not);
    let rest = expect(rest, Fixed::Null)?;
    Ok((RaTest::IsNull(name, not), rest))
}

// Whether a name and IS come next.
fn is_null_test(terminals: &[Terminal]) -> bool
    ensures { result ≡ spec.is_null_test terminals.now }
{
    starts_name(terminals) && starts(tail(terminals), Fixed::Is)
}

#[tactic(auto, unfolding(crate::specs::Reads::read_test))]
fn test<'t>(alloc: Global, terminals: &'t [Terminal]) -> Result<(RaTest, &'t [Terminal]), ReadFault>
    ensures { Reads result (spec.read_test terminals.now) }
{
    if is_null_test(terminals) {
        return is_null(alloc, terminals);
    }
    compared(alloc, terminals)
}

fn more_tests<'t>(
    alloc: Global,
    terminals: &'t [Terminal],
) -> Result<(List<RaTest>, &'t [Terminal]), ReadFault>
    ensures { Reads result (list_of spec.test_step terminals.now) }
{
    let mut items = List::new(alloc);
    let mut rest = terminals;
    'items: while let Some(next) = after(rest, Fixed::And) {
        let (item, more) = test(alloc, next)?;
        items.push(item)?;
        rest = more;
    }
    Ok((items, rest))
}

/// The tests at the front, joined by AND, and what follows them.
#[tactic(auto, unfolding(crate::specs::Reads::read_tests))]
pub(crate) fn tests<'t>(
    alloc: Global,
    terminals: &'t [Terminal],
) -> Result<(RaTests, &'t [Terminal]), ReadFault>
    ensures { Reads result (spec.read_tests terminals.now) }
{
    let (head, rest) = test(alloc, terminals)?;
    match more_tests(alloc, rest) {
        Ok((tail, rest)) => Ok((RaTests { head, tail }, rest)),
        Err(fault) => {
            drop(head);
            Err(fault)
        }
    }
}

fn more_names<'t>(
    alloc: Global,
    terminals: &'t [Terminal],
) -> Result<(List<Name>, &'t [Terminal]), ReadFault>
    ensures { Reads result (list_of spec.name_step terminals.now) }
{
    let mut items = List::new(alloc);
    let mut rest = terminals;
    'items: while let Some(next) = after(rest, Fixed::Comma) {
        let (item, more) = name(alloc, next)?;
        items.push(item)?;
        rest = more;
    }
    Ok((items, rest))
}

// Names with commas in between.
fn name_list<'t>(
    alloc: Global,
    terminals: &'t [Terminal],
) -> Result<(RaNames, &'t [Terminal]), ReadFault>
    ensures { Reads result (made spec.names_of (both read_name (list_of spec.name_step)) terminals.now) }
{
    let (head, rest) = name(alloc, terminals)?;
    match more_names(alloc, rest) {
        Ok((tail, rest)) => Ok((RaNames { head, tail }, rest)),
        Err(fault) => {
            drop(head);
            Err(fault)
        }
    }
}

/// The names in parentheses at the front, and what follows them.
#[tactic(auto, unfolding(crate::specs::Reads::read_names))]
pub(crate) fn names<'t>(
    alloc: Global,
    terminals: &'t [Terminal],
) -> Result<(RaNames, &'t [Terminal]), ReadFault>
    ensures { Reads result (spec.read_names terminals.now) }
{
    let rest = expect(terminals, Fixed::OpenParen)?;
    let (names, rest) = name_list(alloc, rest)?;
    before(names, rest, Fixed::CloseParen)
}
